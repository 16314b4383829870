ghost use Rattle.std.specs.Prelude.{◌≡◌, IfErr, IfOk, OnOk};
ghost use Rattle.plain_graph.specs.Graph.{properties_at};
ghost use Rattle.plain_graph.specs.declared.command.Command.TheVariants as commands;
ghost use Rattle.prop_store.specs.Reading.{ReadsAtMost};
ghost use Rattle.store_rules.specs.Graph.{graph_of};
ghost use Rattle.traversal_run.specs.Reading.{IsNamedStore, IsRead};
ghost use Rattle.traversal_run.specs.Viewing.{view_reads};
ghost use Rattle.graph_session.specs.Questions.{GivesReading};
ghost use Rattle.graph_session.specs.ReplyLines.{HaveSameSink};
ghost use Rattle.graph_session.specs.Views.{IsViewAnswer, IsViewRefusal, MakesElement};
ghost use Rattle.graph_session.specs.Views.{no_element};

use crate::Turn;
use crate::answer::Answer;
use crate::context::Context;
use crate::giving::{give_answer, give_line};
use crate::reply_lines::ReplyLines;
use plain_graph::{Refusal, Target, making_line};
use rec_bytes::{Fault, Reads};
use stream_io::Sink;
use traversal_run::view_element;

/// Gives an element, as the line that makes it again.
pub(crate) fn give_view<R: Reads, K: Sink>(
    context: Context<'_>,
    space: &mut R,
    target: &Target,
    lines: &mut ReplyLines<'_, K>,
) -> Turn
    ensures gives { GivesReading R.Reads K.Sink context.entry.names.now.names
        (commands.View target.now)
        lines.old.prefix.now space.old space.new
        lines.old.output.now lines.new.output.now result }
    ensures same_sink { HaveSameSink lines.old lines.new }
    ensures cost { ReadsAtMost 737 (R.state space.old) (R.state space.new) }
{
    match line_of(context, space, target) {
        Ok(line) => give_line(lines, &line),
        Err(answer) => give_answer(lines, answer),
    }
}

/// The line that makes an element again, or the answer in its place.
fn line_of<R: Reads>(
    context: Context<'_>,
    space: &mut R,
    target: &Target,
) -> Result<Vec<u8>, Answer>
    ensures makes { IfOk result (λ line.
        MakesElement R.Reads context.entry.names.now.names target.now space.old line.items) }
    ensures refused { R.tells
        → IsNamedStore (R.state space.old).records (R.state space.old).shape
        context.entry.names.now.names
        → IfErr result (IsViewRefusal (graph_of (R.state space.old).records) target.now) }
    ensures answer { IfErr result
        (IsViewAnswer R.Reads target.now space.old space.new) }
    // One read of the element, and one for each property and each block of their texts.
    ensures cost { R.tells
        → IsNamedStore (R.state space.old).records (R.state space.old).shape
        context.entry.names.now.names
        → OnOk result (ReadsAtMost
        (view_reads (properties_at (graph_of (R.state space.old).records) target.now))
        (R.state space.old) (R.state space.new)) }
    ensures at_most { ReadsAtMost 737 (R.state space.old) (R.state space.new) }
    ensures read { IsRead R.Reads space.old space.new }
{
    match view_element(context.alloc, space, context.names, target) {
        Ok(Some((item, map))) => match making_line(context.alloc, &item, &map) {
            Ok(line) => Ok(line),
            Err(_) => Err(Answer::Fault(Fault::Memory)),
        },
        Ok(None) => Err(Answer::Refused(no_element(target))),
        Err(fault) => Err(Answer::from(fault)),
    }
}

/// The refusal of an element that isn't there.
fn no_element(target: &Target) -> Refusal
    ensures { result ≡ no_element target.now }
{
    match target {
        Target::Node(id) => Refusal::NoNode { id: *id },
        Target::Edge(id) => Refusal::NoEdge { id: *id },
    }
}
