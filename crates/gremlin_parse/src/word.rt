ghost use Rattle.std.specs.Prelude.{◌≡◌};
ghost use Rattle.gremlin_parse.specs.Commands.{plain_command};

use plain_graph::Command;

/// A command of one word.
#[derive(Clone, Copy)]
pub(crate) enum Word {
    Begin,
    Commit,
    Rollback,
    Checkpoint,
    Check,
    Stats,
    Reopen,
    Snapshot,
    Release,
    Quit,
}

/// The command of the word.
pub(crate) fn plain_command(word: Word) -> Command
    ensures { result ≡ plain_command word }
{
    match word {
        Word::Begin => Command::Begin,
        Word::Commit => Command::Commit,
        Word::Rollback => Command::Rollback,
        Word::Checkpoint => Command::Checkpoint,
        Word::Check => Command::Check,
        Word::Stats => Command::Stats,
        Word::Reopen => Command::Reopen,
        Word::Snapshot => Command::Snapshot,
        Word::Release => Command::Release,
        Word::Quit => Command::Quit,
    }
}
