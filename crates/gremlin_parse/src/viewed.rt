ghost use Rattle.std.specs.Prelude.{◌≡◌, ◌≤◌, length, IfOk, IfErr};
ghost use Rattle.std.specs.List.{AllByRecursion};
ghost use Rattle.gremlin_parse.specs.Grammar.{IsBounded, IsMadeOf};
ghost use Rattle.gremlin_parse.specs.Keywords.{LeavesTable, TakesWord};
ghost use Rattle.gremlin_parse.specs.Stopping.{BadInOne, IsOneOf, IsStop, StopsWith};
ghost use Rattle.gremlin_parse.specs.Views.{view_arguments, view_command, view_words};
ghost use Rattle.gremlin_parse.specs.Views.{viewed_of, viewed_to_end};

use crate::argument::{Argument, read_arguments};
use crate::keyword::read_keyword;
use crate::number::read_number;
use crate::parts::{read_end, read_gap, skip_blanks};
use crate::stop::Stop;
use crate::target::{TargetWord, target_of};
use plain_graph::{Command, Target};

/// What a line views.
#[derive(Clone, Copy)]
pub(crate) enum Viewed {
    Element(Target),
    Names,
    Indexes,
}

/// What stands after `view`.
#[derive(Clone, Copy)]
enum ViewWord {
    /// `node` or `edge`, and an identifier.
    Element(TargetWord),
    Names,
    Indexes,
}

const VIEWS: [(&[u8], ViewWord); 4] = [
    (b"node", ViewWord::Element(TargetWord::Node)),
    (b"edge", ViewWord::Element(TargetWord::Edge)),
    (b"names", ViewWord::Names),
    (b"indexes", ViewWord::Indexes),
];

/// The command that views this.
pub(crate) fn view_command(viewed: Viewed) -> Command
    ensures { result ≡ view_command viewed }
{
    match viewed {
        Viewed::Element(target) => Command::View(target),
        Viewed::Names => Command::ViewNames,
        Viewed::Indexes => Command::ViewIndexes,
    }
}

/// What is viewed, after one blank or more, to the line's end.
///
/// # Errors
/// A fault of syntax if another thing stands there, and `WideNumber`.
pub(crate) fn read_viewed(bytes: &[u8]) -> Result<Viewed, Stop>
    ensures ok { IfOk result (λ viewed. IsMadeOf (viewed_to_end viewed) bytes.now) }
    ensures bounds { IfOk result (λ viewed. AllByRecursion IsBounded (viewed_to_end viewed)) }
    ensures err { IfErr result
        (IsStop (IsOneOf viewed_to_end) (BadInOne viewed_to_end) ⊥ bytes.now) }
{
    let at_word = read_gap(bytes)?;
    let (word, after) = read_view_word(at_word)?;
    let (givens, rest) = read_arguments(after, view_arguments(word))?;
    read_end(skip_blanks(rest))?;
    Ok(viewed_of(word, givens.first.number()))
}

/// The word for what is viewed, and the bytes after it.
fn read_view_word(bytes: &[u8]) -> Result<(ViewWord, &[u8]), Stop>
    ensures ok { IfOk result (λ r. TakesWord view_words bytes.now r.0 r.1.now) }
    ensures err { IfErr result (StopsWith (LeavesTable view_words bytes.now)) }
{
    read_keyword(bytes, &VIEWS)
}

/// What stands after the word, each after one blank or more.
fn view_arguments(word: ViewWord) -> &'static [Argument]
    ensures are { result.now ≡ view_arguments word }
    ensures few { length result.now ≤ 4 }
{
    match word {
        ViewWord::Element(_) => &[Argument::Number],
        ViewWord::Names | ViewWord::Indexes => &[],
    }
}

/// What the word views, with its number where it has one.
fn viewed_of(word: ViewWord, id: u32) -> Viewed
    ensures { result ≡ viewed_of word id }
{
    match word {
        ViewWord::Element(kind) => Viewed::Element(target_of(kind, id)),
        ViewWord::Names => Viewed::Names,
        ViewWord::Indexes => Viewed::Indexes,
    }
}
