ghost use Rattle.std.specs.Prelude.{List, ℕ};
ghost use Rattle.plain_graph.specs.declared.command.Command.TheVariants as commands;
ghost use Rattle.graph_session.specs.Questions.{GivesReading};
ghost use Rattle.graph_session.specs.ReplyLines.{HaveSameSink};

use crate::Turn;
use crate::answer::Answer;
use crate::giving::{give_answer, give_line};
use crate::reply_lines::ReplyLines;
use plain_graph::{broken, sound};
use rec_bytes::{Fault, Reads};
use std::alloc::Global;
use store_check::{Verdict, check};
use stream_io::Sink;

/// Gives the verdict on the records of a space. It reads each record a few times and keeps a few
/// bytes for each.
pub(crate) fn give_verdict<R: Reads, K: Sink>(
    alloc: Global,
    space: &mut R,
    lines: &mut ReplyLines<'_, K>,
) -> Turn
    ensures gives { (names : List (List ℕ)) → GivesReading R.Reads K.Sink names commands.Check
        lines.old.prefix.now space.old space.new
        lines.old.output.now lines.new.output.now result }
    ensures same_sink { HaveSameSink lines.old lines.new }
{
    match check(alloc, space) {
        Ok(Verdict::Sound) => give_line(lines, sound()),
        Ok(Verdict::Broken(damage)) => {
            give_line(
                lines,
                broken(damage.file, damage.id, damage.rule).as_bytes(),
            )
        }
        Err(fault) => give_answer(lines, Answer::Fault(Fault::from(fault))),
    }
}
