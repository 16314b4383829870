ghost use Rattle.std.specs.Prelude.{IfErr, IfOk, map};
ghost use Rattle.plain_graph.specs.Adjacency.{adjacency_in};
ghost use Rattle.plain_graph.specs.Graph.{has_node};
ghost use Rattle.plain_graph.specs.Lines.{IsFound, level_text, types_of, walk_reading};
ghost use Rattle.plain_graph.specs.Reached.{IsLeastOrNone};
ghost use Rattle.plain_graph.specs.Reply.{Told, end_text, prefixed_text};
ghost use Rattle.store_rules.specs.Graph.{graph_of};
ghost use Rattle.expand.specs.ExpandFault.{HasExpandCause};
ghost use Rattle.path_find.specs.Costs.{ReadsEnds};
ghost use Rattle.path_find.specs.Finding.{IsPathFault, TellsEnds};
ghost use Rattle.traversal_run.specs.Reading.{IsNamedStore, IsRead};
ghost use Rattle.graph_session.specs.Answer.{Gives};
ghost use Rattle.graph_session.specs.Jobs.{question_command};
ghost use Rattle.graph_session.specs.Questions.{GivesReading};
ghost use Rattle.graph_session.specs.ReplyLines.{HaveSameSink};
ghost use Rattle.graph_session.specs.Walks.{CostsLevels, CostsReply, CostsWalk, GivesAt};
ghost use Rattle.graph_session.specs.Walks.{ReadsForLevels, ReadsForWalk};
ghost use Rattle.graph_session.specs.declared.question.Question.TheVariants as questions;

use crate::Turn;
use crate::answer::Answer;
use crate::context::Context;
use crate::giving::{give_answer, give_line};
use crate::question::Route;
use crate::reply_lines::ReplyLines;
use crate::type_numbers::number_of;
use expand::ExpandFault;
use path_find::{Walk, find_path, find_walk};
use plain_graph::{Item, NodeLevel, end_of_results, level_line, no_path, path};
use rec_bytes::Reads;
use stream_io::Sink;

/// Gives the nodes of a least walk of the shortest, all of which are found before the first line.
pub(crate) fn give_walk<R: Reads, K: Sink>(
    context: Context<'_>,
    space: &mut R,
    route: Route<'_>,
    lines: &mut ReplyLines<'_, K>,
) -> Turn
    ensures gives { GivesReading R.Reads K.Sink context.entry.names.now.names
        (question_command (questions.Path route.entry))
        lines.old.prefix.now space.old space.new
        lines.old.output.now lines.new.output.now result }
    ensures same_sink { HaveSameSink lines.old lines.new }
    ensures cost { R.tells → IsNamedStore (R.state space.old).records (R.state space.old).shape
        context.entry.names.now.names → GivesAt K.Sink (CostsReply
        (CostsWalk route.entry (R.state space.old) (R.state space.new))
        (R.state space.old) (R.state space.new))
        lines.old.prefix.now lines.old.output.now lines.new.output.now result }
{
    match found_walk(context, space, route) {
        Ok(walk) => give_nodes(walk.as_slice(), lines),
        Err(fault) => give_answer(lines, Answer::from(fault)),
    }
}

/// Gives the levels that prove that no walk is shorter, or that there is none.
pub(crate) fn give_levels<R: Reads, K: Sink>(
    context: Context<'_>,
    space: &mut R,
    route: Route<'_>,
    lines: &mut ReplyLines<'_, K>,
) -> Turn
    ensures gives { GivesReading R.Reads K.Sink context.entry.names.now.names
        (question_command (questions.Levels route.entry))
        lines.old.prefix.now space.old space.new
        lines.old.output.now lines.new.output.now result }
    ensures same_sink { HaveSameSink lines.old lines.new }
    ensures cost { R.tells → IsNamedStore (R.state space.old).records (R.state space.old).shape
        context.entry.names.now.names → GivesAt K.Sink (CostsReply
        (CostsLevels route.entry (R.state space.old) (R.state space.new))
        (R.state space.old) (R.state space.new))
        lines.old.prefix.now lines.old.output.now lines.new.output.now result }
{
    match found_levels(context, space, route) {
        Ok(answer) => give_node_levels(answer.levels.as_slice(), lines),
        Err(fault) => give_answer(lines, Answer::from(fault)),
    }
}

/// A walk by the edges of the type that a line names, or of all types.
fn found_walk<R: Reads>(
    context: Context<'_>,
    space: &mut R,
    route: Route<'_>,
) -> Result<Walk, ExpandFault>
    ensures found { R.tells
        → IsNamedStore (R.state space.old).records (R.state space.old).shape
        context.entry.names.now.names
        → IfOk result (λ walk. IsLeastOrNone (adjacency_in (graph_of (R.state space.old).records)
        route.entry.direction (types_of route.entry.label.now))
        route.entry.from route.entry.to walk) }
    ensures cost { R.tells
        → IsNamedStore (R.state space.old).records (R.state space.old).shape
        context.entry.names.now.names
        → IfOk result (λ walk. ReadsForWalk route.entry walk
        (R.state space.old) (R.state space.new)) }
    ensures missing_cost { IfErr result (ReadsEnds (R.state space.old) (R.state space.new)) }
    ensures missing { R.tells
        → IsNamedStore (R.state space.old).records (R.state space.old).shape
        context.entry.names.now.names
        → TellsEnds result route.entry.from route.entry.to
        (has_node (graph_of (R.state space.old).records) route.entry.from)
        (has_node (graph_of (R.state space.old).records) route.entry.to) }
    ensures damaged { R.tells → IfErr result (IsPathFault (R.state space.old)
        route.entry.from route.entry.to) }
    ensures read { IsRead R.Reads space.old space.new }
    ensures cause { HasExpandCause (R.faults space.old) (R.faults space.new) result }
{
    let Route {
        from,
        to,
        direction,
        label,
    } = route;
    match label {
        Some(label) => {
            let number = number_of(context.names, label);
            find_walk(context.alloc, space, from, to, direction, &[number])
        }
        None => find_walk(context.alloc, space, from, to, direction, &[]),
    }
}

/// A walk by these edges, with its levels.
fn found_levels<R: Reads>(
    context: Context<'_>,
    space: &mut R,
    route: Route<'_>,
) -> Result<path_find::Answer, ExpandFault>
    ensures found { R.tells
        → IsNamedStore (R.state space.old).records (R.state space.old).shape
        context.entry.names.now.names
        → IfOk result (λ answer. IsFound (graph_of (R.state space.old).records)
        route.entry.from route.entry.to route.entry.direction route.entry.label.now
        answer.walk answer.levels) }
    ensures cost { R.tells
        → IsNamedStore (R.state space.old).records (R.state space.old).shape
        context.entry.names.now.names
        → IfOk result (λ answer. ReadsForLevels route.entry
        answer.walk answer.levels
        (R.state space.old) (R.state space.new)) }
    ensures missing_cost { IfErr result (ReadsEnds (R.state space.old) (R.state space.new)) }
    ensures missing { R.tells
        → IsNamedStore (R.state space.old).records (R.state space.old).shape
        context.entry.names.now.names
        → TellsEnds result route.entry.from route.entry.to
        (has_node (graph_of (R.state space.old).records) route.entry.from)
        (has_node (graph_of (R.state space.old).records) route.entry.to) }
    ensures damaged { R.tells → IfErr result (IsPathFault (R.state space.old)
        route.entry.from route.entry.to) }
    ensures read { IsRead R.Reads space.old space.new }
    ensures cause { HasExpandCause (R.faults space.old) (R.faults space.new) result }
{
    let Route {
        from,
        to,
        direction,
        label,
    } = route;
    match label {
        Some(label) => {
            let number = number_of(context.names, label);
            find_path(context.alloc, space, from, to, direction, &[number])
        }
        None => find_path(context.alloc, space, from, to, direction, &[]),
    }
}

/// Gives how many edges a walk has, a line for each of its nodes, and the end, or that there is no
/// walk.
fn give_nodes<K: Sink>(walk: &[u32], lines: &mut ReplyLines<'_, K>) -> Turn
    ensures gives { Gives K.Sink
        (prefixed_text lines.old.prefix.now
        (Told (walk_reading walk.now).lines (walk_reading walk.now).last))
        lines.old.output.now lines.new.output.now result }
    ensures same_sink { HaveSameSink lines.old lines.new }
{
    let count = walk.len() as u64;
    if count == 0 {
        return give_line(lines, no_path());
    }
    lines.begin();
    match lines.add(path(count - 1).as_bytes()) {
        Turn::Go => {}
        turn => return turn,
    }
    for id in walk {
        match lines.add_result(&Item::Vertex(*id)) {
            Turn::Go => {}
            turn => return turn,
        }
    }
    lines.finish(end_of_results())
}

/// Gives a line for each node with its level, and the end.
fn give_node_levels<K: Sink>(levels: &[NodeLevel], lines: &mut ReplyLines<'_, K>) -> Turn
    ensures gives { Gives K.Sink
        (prefixed_text lines.old.prefix.now (Told (map level_text levels.now) end_text))
        lines.old.output.now lines.new.output.now result }
    ensures same_sink { HaveSameSink lines.old lines.new }
{
    lines.begin();
    for level in levels {
        match lines.add(level_line(*level).as_bytes()) {
            Turn::Go => {}
            turn => return turn,
        }
    }
    lines.finish(end_of_results())
}
