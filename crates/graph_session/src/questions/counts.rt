ghost use Rattle.std.specs.Prelude.{List, ℕ};
ghost use Rattle.plain_graph.specs.declared.command.Command.TheVariants as commands;
ghost use Rattle.graph_session.specs.Questions.{GivesReading};
ghost use Rattle.graph_session.specs.ReplyLines.{HaveSameSink};

use crate::Turn;
use crate::giving::give_line;
use crate::reply_lines::ReplyLines;
use plain_graph::{Counts, counted};
use rec_bytes::{NAMES, NODES, PROPERTIES, RELATIONSHIPS, Reads, STRINGS};
use stream_io::Sink;

/// Gives how many there are of each part of the graph. No record is read.
pub(crate) fn give_counts<R: Reads, K: Sink>(space: &R, lines: &mut ReplyLines<'_, K>) -> Turn
    ensures gives { (names : List (List ℕ)) → GivesReading R.Reads K.Sink names commands.Stats
        lines.old.prefix.now space.now space.now
        lines.old.output.now lines.new.output.now result }
    ensures same_sink { HaveSameSink lines.old lines.new }
{
    let counts = Counts {
        nodes: space.meta(NODES).live,
        edges: space.meta(RELATIONSHIPS).live,
        properties: space.meta(PROPERTIES).live,
        blocks: space.meta(STRINGS).live,
        names: space.meta(NAMES).high,
    };
    give_line(lines, counted(counts).as_bytes())
}
