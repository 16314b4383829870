ghost use Rattle.std.specs.Prelude.{◌≡◌, ◌≤◌, ◌∷◌, [], IfErr, IfOk, List, ℕ, length, map};
ghost use Rattle.plain_graph.specs.Graph.{has_node};
ghost use Rattle.plain_graph.specs.Lines.{HasForm, expansion};
ghost use Rattle.plain_graph.specs.Reply.{Told, end_text, item_line, prefixed_text};
ghost use Rattle.plain_graph.specs.declared.command.Command.TheVariants as commands;
ghost use Rattle.plain_graph.specs.declared.item.Item.TheVariants as items;
ghost use Rattle.store_rules.specs.Graph.{graph_of};
ghost use Rattle.expand.specs.ExpandFault.{HasExpandCause};
ghost use Rattle.expand.specs.Expanding.{IsExpandFault, TellsNode};
ghost use Rattle.traversal_run.specs.Reading.{IsNamedStore, IsRead};
ghost use Rattle.graph_session.specs.Answer.{Gives};
ghost use Rattle.graph_session.specs.EdgeResults.{IsEdge, ReadsForEdges, item_of, items_of};
ghost use Rattle.graph_session.specs.Questions.{GivesReading};
ghost use Rattle.graph_session.specs.ReplyLines.{HaveSameSink};

use crate::Turn;
use crate::answer::Answer;
use crate::context::Context;
use crate::giving::give_answer;
use crate::reply_lines::ReplyLines;
use crate::type_numbers::number_of;
use expand::{ExpandFault, expand};
use plain_graph::{Direction, Item, Text, end_of_results};
use rec_bytes::{Fault, Reads};
use rel_store::EdgeRow;
use stream_io::Sink;

/// Gives the edges of a type at a node, all of which are found before the first line.
pub(crate) fn give_edges<R: Reads, K: Sink>(
    context: Context<'_>,
    space: &mut R,
    id: u32,
    direction: Direction,
    label: &Text,
    lines: &mut ReplyLines<'_, K>,
) -> Turn
    requires { HasForm (commands.Expand id direction label.now) }
    ensures gives { GivesReading R.Reads K.Sink context.entry.names.now.names
        (commands.Expand id direction label.now)
        lines.old.prefix.now space.old space.new
        lines.old.output.now lines.new.output.now result }
    ensures same_sink { HaveSameSink lines.old lines.new }
    ensures cost { R.tells → IsNamedStore (R.state space.old).records (R.state space.old).shape
        context.entry.names.now.names → ReadsForEdges id direction (label.now ∷ [])
        (R.state space.old) (R.state space.new) }
{
    let Ok(copy) = label.copy(context.alloc) else {
        return give_answer(lines, Answer::Fault(Fault::Memory));
    };
    match edges_of(context, space, id, direction, label) {
        Ok(rows) => give_rows(&rows, copy, lines),
        Err(fault) => give_answer(lines, Answer::from(fault)),
    }
}

/// The edges of a type at a node. Of a type that is no name of the store there are none.
fn edges_of<R: Reads>(
    context: Context<'_>,
    space: &mut R,
    id: u32,
    direction: Direction,
    label: &Text,
) -> Result<Vec<EdgeRow>, ExpandFault>
    ensures found { R.tells
        → IsNamedStore (R.state space.old).records (R.state space.old).shape
        context.entry.names.now.names
        → IfOk result (λ rows. items_of label.now rows.items
        ≡ expansion (graph_of (R.state space.old).records) id direction label.now) }
    ensures missing { R.tells
        → IsNamedStore (R.state space.old).records (R.state space.old).shape
        context.entry.names.now.names
        → TellsNode result id (has_node (graph_of (R.state space.old).records) id) }
    ensures damaged { R.tells → IfErr result (IsExpandFault (R.state space.old) id) }
    ensures cost { R.tells → IsNamedStore (R.state space.old).records (R.state space.old).shape
        context.entry.names.now.names → ReadsForEdges id direction (label.now ∷ [])
        (R.state space.old) (R.state space.new) }
    ensures read { IsRead R.Reads space.old space.new }
    ensures cause { HasExpandCause (R.faults space.old) (R.faults space.new) result }
{
    let number = number_of(context.names, label);
    expand(context.alloc, space, id, direction, &[number])
}

/// Gives a line for each edge of this type, and the end.
fn give_rows<K: Sink>(rows: &[EdgeRow], label: Text, lines: &mut ReplyLines<'_, K>) -> Turn
    requires { length label ≤ 48 }
    ensures gives { Gives K.Sink
        (prefixed_text lines.old.prefix.now
        (Told (map item_line (items_of label rows.now)) end_text))
        lines.old.output.now lines.new.output.now result }
    ensures same_sink { HaveSameSink lines.old lines.new }
{
    lines.begin();
    let mut edge = Item::Edge {
        id: 0,
        label,
        from: 0,
        to: 0,
    };
    for row in rows {
        set_row(&mut edge, row);
        match lines.add_result(&edge) {
            Turn::Go => {}
            turn => return turn,
        }
    }
    lines.finish(end_of_results())
}

// Makes of an edge the one of a row, with the same text of its type.
fn set_row(edge: &mut Item, row: &EdgeRow)
    ensures { (label : List ℕ) → IsEdge label edge.old → edge.new ≡ item_of label row.now }
{
    if let Item::Edge { id, from, to, .. } = edge {
        *id = row.id;
        *from = row.from;
        *to = row.to;
    }
}
