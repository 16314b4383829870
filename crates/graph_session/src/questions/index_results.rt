ghost use Rattle.std.specs.Prelude.{map};
ghost use Rattle.plain_graph.specs.Reply.{Told, end_text, prefixed_text};
ghost use Rattle.plain_graph.specs.declared.command.Command.TheVariants as commands;
ghost use Rattle.traversal_run.specs.FoundNodes.{ReadsForFind};
ghost use Rattle.traversal_run.specs.Reading.{IsNamedStore};
ghost use Rattle.graph_session.specs.Answer.{Gives};
ghost use Rattle.graph_session.specs.IndexResults.{vertex_line};
ghost use Rattle.graph_session.specs.Questions.{GivesReading};
ghost use Rattle.graph_session.specs.ReplyLines.{HaveSameSink};

use crate::Turn;
use crate::answer::Answer;
use crate::context::Context;
use crate::giving::give_answer;
use crate::reply_lines::ReplyLines;
use plain_graph::{Item, Text, Value, end_of_results};
use rec_bytes::Reads;
use stream_io::Sink;
use traversal_run::find_nodes;

/// Gives the nodes of a label whose key has a value, all of which are found by their index before
/// the first line.
pub(crate) fn give_found<R: Reads, K: Sink>(
    context: Context<'_>,
    space: &mut R,
    label: &Text,
    key: &Text,
    value: &Value,
    lines: &mut ReplyLines<'_, K>,
) -> Turn
    ensures gives { GivesReading R.Reads K.Sink context.entry.names.now.names
        (commands.Find label.now key.now value.now)
        lines.old.prefix.now space.old space.new
        lines.old.output.now lines.new.output.now result }
    ensures same_sink { HaveSameSink lines.old lines.new }
    ensures cost { R.tells → IsNamedStore (R.state space.old).records (R.state space.old).shape
        context.entry.names.now.names → ReadsForFind label.now key.now value.now
        (R.state space.old) (R.state space.new) }
{
    match find_nodes(context.alloc, space, context.names, label, key, value) {
        Ok(nodes) => give_vertices(&nodes, lines),
        Err(fault) => give_answer(lines, Answer::from(fault)),
    }
}

/// Gives a line for each of these nodes, and the end.
fn give_vertices<K: Sink>(nodes: &[u32], lines: &mut ReplyLines<'_, K>) -> Turn
    ensures gives { Gives K.Sink
        (prefixed_text lines.old.prefix.now (Told (map vertex_line nodes.now) end_text))
        lines.old.output.now lines.new.output.now result }
    ensures same_sink { HaveSameSink lines.old lines.new }
{
    lines.begin();
    for id in nodes {
        match lines.add_result(&Item::Vertex(*id)) {
            Turn::Go => {}
            turn => return turn,
        }
    }
    lines.finish(end_of_results())
}
