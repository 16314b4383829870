ghost use Rattle.std.specs.Prelude.{◌≡◌, ◌≤◌, length, map, take};
ghost use Rattle.plain_graph.specs.Reply.{Told, end_text, prefixed_text};
ghost use Rattle.plain_graph.specs.declared.command.Command.TheVariants as commands;
ghost use Rattle.graph_session.specs.Answer.{Gives};
ghost use Rattle.graph_session.specs.NameLists.{name_text};
ghost use Rattle.graph_session.specs.Questions.{GivesReading};
ghost use Rattle.graph_session.specs.ReplyLines.{HaveSameSink};

use crate::Turn;
use crate::reply_lines::ReplyLines;
use crate::type_numbers::name_count;
use name_store::Names;
use plain_graph::end_of_results;
use rec_bytes::Reads;
use stream_io::Sink;

/// Gives the names of the graph: of those in memory the ones that the space has. It reads nothing.
pub(crate) fn give_names<R: Reads, K: Sink>(
    space: &mut R,
    names: &Names,
    lines: &mut ReplyLines<'_, K>,
) -> Turn
    ensures gives { GivesReading R.Reads K.Sink names.now.names commands.ViewNames
        lines.old.prefix.now space.old space.new
        lines.old.output.now lines.new.output.now result }
    ensures same_sink { HaveSameSink lines.old lines.new }
    ensures cost { space.new ≡ space.old }
{
    give_first(names, name_count(space, names), lines)
}

/// Gives so many of the first names, and the end.
fn give_first<K: Sink>(names: &Names, count: u32, lines: &mut ReplyLines<'_, K>) -> Turn
    requires { count ≤ length names.now.names }
    ensures gives { Gives K.Sink
        (prefixed_text lines.old.prefix.now
        (Told (map name_text (take count names.now.names)) end_text))
        lines.old.output.now lines.new.output.now result }
    ensures same_sink { HaveSameSink lines.old lines.new }
{
    lines.begin();
    for id in 0..count {
        match lines.add_name(names.text(id)) {
            Turn::Go => {}
            turn => return turn,
        }
    }
    lines.finish(end_of_results())
}
