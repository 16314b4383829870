ghost use Rattle.plain_graph.specs.Lines.{types_of};
ghost use Rattle.plain_graph.specs.declared.command.Command.TheVariants as commands;
ghost use Rattle.traversal_run.specs.Reading.{IsNamedStore};
ghost use Rattle.graph_session.specs.EdgeResults.{ReadsForEdges};
ghost use Rattle.graph_session.specs.Questions.{GivesReading};
ghost use Rattle.graph_session.specs.ReplyLines.{HaveSameSink};

use crate::Turn;
use crate::answer::Answer;
use crate::context::Context;
use crate::giving::{give_answer, give_line};
use crate::reply_lines::ReplyLines;
use crate::type_numbers::number_in;
use expand::degree;
use plain_graph::{Direction, Text, degree as degree_line};
use rec_bytes::Reads;
use stream_io::Sink;

/// Gives how many edges a node has, of a type or of all types.
pub(crate) fn give_degree<R: Reads, K: Sink>(
    context: Context<'_>,
    space: &mut R,
    id: u32,
    direction: Direction,
    label: &Option<Text>,
    lines: &mut ReplyLines<'_, K>,
) -> Turn
    ensures gives { GivesReading R.Reads K.Sink context.entry.names.now.names
        (commands.Degree id direction label.now)
        lines.old.prefix.now space.old space.new
        lines.old.output.now lines.new.output.now result }
    ensures same_sink { HaveSameSink lines.old lines.new }
    ensures cost { R.tells → IsNamedStore (R.state space.old).records (R.state space.old).shape
        context.entry.names.now.names → ReadsForEdges id direction (types_of label.now)
        (R.state space.old) (R.state space.new) }
{
    let number = number_in(context.names, label);
    match degree(context.alloc, space, id, direction, number) {
        Ok(edges) => give_line(lines, degree_line(edges).as_bytes()),
        Err(fault) => give_answer(lines, Answer::from(fault)),
    }
}
