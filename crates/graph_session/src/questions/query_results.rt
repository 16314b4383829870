ghost use Rattle.std.specs.Prelude.{◌≡◌, ◌+◌, ◌≤◌, ℕ, IfErr, IfOk, None, OnOk};
ghost use Rattle.plain_graph.specs.Forms.{IsShown};
ghost use Rattle.plain_graph.specs.declared.command.Command.TheVariants as commands;
ghost use Rattle.plain_graph.specs.declared.query.Hop.{Hop};
ghost use Rattle.prop_store.specs.Reading.{ReadsAtMost};
ghost use Rattle.rec_bytes.specs.Space.{State};
ghost use Rattle.store_rules.specs.Graph.{graph_of};
ghost use Rattle.traversal_run.specs.FoundNodes.{ReadsToBegin};
ghost use Rattle.traversal_run.specs.HopRun.{IsHopQuery, reads_for_hop};
ghost use Rattle.traversal_run.specs.Reading.{IsNamedStore, IsRead};
ghost use Rattle.graph_session.specs.Questions.{GivesReading};
ghost use Rattle.graph_session.specs.QueryResults.{
  AddsNone,
  AddsShown,
  line_reads,
  map_reads,
  reads_to_show,
};
ghost use Rattle.graph_session.specs.ReplyLines.{HaveSameSink};

use crate::Turn;
use crate::answer::Answer;
use crate::context::Context;
use crate::giving::give_answer;
use crate::reply_lines::ReplyLines;
use plain_graph::{Item, Query, Texts, end_of_results, map_line, past_count};
use rec_bytes::{Fault, Reads};
use stream_io::Sink;
use traversal_run::{Next, Run, read_map};

/// Gives the results of a query, a line for each before the next is asked for, and the end. After a
/// fault the lines so far stand before that of the fault. Nothing of the graph is kept.
pub(crate) fn give_query<R: Reads, K: Sink>(
    context: Context<'_>,
    space: &mut R,
    query: &Query,
    lines: &mut ReplyLines<'_, K>,
) -> Turn
    ensures gives { GivesReading R.Reads K.Sink context.entry.names.now.names
        (commands.Query query.now)
        lines.old.prefix.now space.old space.new
        lines.old.output.now lines.new.output.now result }
    ensures same_sink { HaveSameSink lines.old lines.new }
    // A hop at one vertex, alone, and shown as it is.
    ensures cost { (id : ℕ) (hop : Hop) → IsHopQuery query.now id hop → query.now.maps ≡ None
        → R.tells
        → IsNamedStore (R.state space.old).records (R.state space.old).shape
        context.entry.names.now.names
        → ReadsAtMost (reads_for_hop (R.state space.old).records hop id)
        (R.state space.old) (R.state space.new) }
    // To find what the query begins with, and then no more than the query may read, and for each
    // result what showing it costs, whatever is answered.
    ensures at_most { R.tells
        → IsNamedStore (R.state space.old).records (R.state space.old).shape
        context.entry.names.now.names
        → (mid : State) × ReadsToBegin query.now.source (R.state space.old) mid
        × ((R.state space.new).reads
        ≤ mid.reads + line_reads (R.state space.old).records query.now) }
{
    let mut run = match Run::new(context.alloc, space, context.names, query) {
        Ok(run) => run,
        Err(fault) => return give_answer(lines, Answer::from(fault)),
    };
    lines.begin();
    for _ in 0..u64::MAX {
        match run.next(space, context.names) {
            Next::Item(item) => {
                let added = match add_shown(context, space, &query.maps, &item, lines) {
                    Ok(turn) => turn,
                    Err(fault) => return lines.stop(fault),
                };
                match added {
                    Turn::Go => {}
                    turn => return turn,
                }
            }
            Next::End => return lines.finish(end_of_results()),
            Next::Memory => return lines.stop(Fault::Memory),
            Next::Disk => return lines.stop(Fault::Disk),
            Next::Damaged(damage) => return lines.stop(Fault::Damaged(damage)),
            Next::PastCount => return lines.finish(past_count()),
        }
    }
    lines.stop(Fault::Memory)
}

/// Puts the line of a result at the end: as it is, or where keys are asked for as a map, of which
/// no more than one is in memory at a time.
fn add_shown<R: Reads, K: Sink>(
    context: Context<'_>,
    space: &mut R,
    maps: &Option<Texts>,
    item: &Item,
    lines: &mut ReplyLines<'_, K>,
) -> Result<Turn, Fault>
    requires { IsShown item.now }
    ensures added { IfOk result (AddsShown R.Reads K.Sink context.entry.names.now.names
        maps.now item.now space.old lines.old lines.new) }
    ensures stopped { IfErr result (AddsNone R.Reads space.old space.new
        lines.old lines.new) }
    ensures cost { R.tells
        → IsNamedStore (R.state space.old).records (R.state space.old).shape
        context.entry.names.now.names
        → OnOk result (ReadsAtMost
        (reads_to_show (graph_of (R.state space.old).records) maps.now item.now)
        (R.state space.old) (R.state space.new)) }
    ensures at_most { ReadsAtMost (map_reads maps.now)
        (R.state space.old) (R.state space.new) }
    ensures unread { maps.now ≡ None → space.new ≡ space.old }
    ensures read { IsRead R.Reads space.old space.new }
{
    let Some(keys) = maps else {
        return Ok(lines.add_result(item));
    };
    let map = read_map(context.alloc, space, context.names, item, keys.as_slice())?;
    let line = map_line(context.alloc, item, &map)?;
    Ok(lines.add(&line))
}
