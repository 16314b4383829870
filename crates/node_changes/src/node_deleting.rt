ghost use Rattle.std.specs.Prelude.{◌+◌, ◌≤◌, IfErr, IfOk, OnErr, OnOk};
ghost use Rattle.plain_graph.specs.Changes.{most_weight, start_weight};
ghost use Rattle.plain_graph.specs.Reply.{Done};
ghost use Rattle.plain_graph.specs.declared.command.Command.TheVariants as commands;
ghost use Rattle.plain_graph.specs.declared.command.Target.TheVariants as targets;
ghost use Rattle.store_rules.specs.Writes.{WritesAtMost};
ghost use Rattle.change_parts.specs.Causes.{IsCaused, IsCausedAfter};
ghost use Rattle.change_parts.specs.Change.{IsRefusal, MakesChange};
ghost use Rattle.change_parts.specs.ChangeFault.{HasChangeCause, LeavesSpace};
ghost use Rattle.change_parts.specs.Damage.{BlamesBroken};
ghost use Rattle.change_parts.specs.Degrees.{HasDegree};
ghost use Rattle.node_changes.specs.NodeDeleting.{IsDeleteCause, IsUnused, KeepsButNode};
ghost use Rattle.node_changes.specs.NodeDeleting.{KeepsOtherKinds};
ghost use Rattle.change_parts.specs.Store.{IsStore};
ghost use Rattle.store_rules.specs.Graph.{graph_in};

use crate::entries::{held_values, leave_values};
use change_parts::{ChangeFault, node_owner};
use id_freelist::give;
use name_store::Names;
use node_store::load;
use prop_store::drop_all;
use rec_bytes::{NODES, Space};
use std::alloc::Global;

/// Deletes a node that has no relationships, with its properties and their entries in the indexes,
/// and answers the weight of the change. Names stay.
pub fn delete_node<S: Space>(
    alloc: Global,
    space: &mut S,
    names: &Names,
    id: u32,
) -> Result<u32, ChangeFault>
    ensures made { S.tells → IfOk result (λ weight. IsStore (S.state space.old) names.now.names
        → MakesChange (commands.Delete (targets.Node id)) Done weight
        (S.state space.old) (S.state space.new) names.now.names) }
    ensures refused { S.tells → IsStore (S.state space.old) names.now.names
        → IfErr result (IsRefusal (S.state space.old).shape.limit (graph_in (S.state space.old))
        (commands.Delete (targets.Node id))) }
    ensures caused { S.tells → IfErr result (IsCaused (commands.Delete (targets.Node id))
        (S.state space.old) (S.state space.new) names.now.names names.now.names) }
    ensures caused_after { S.tells → IfErr result (IsCausedAfter (commands.Delete (targets.Node id))
        (S.state space.new) names.now.names names.now.names) }
    ensures found { S.tells → IfErr result (IsDeleteCause (S.state space.old)
        (S.state space.new) id) }
    ensures broken { S.tells → IfErr result (BlamesBroken (S.state space.new)) }
    ensures lone { S.tells → OnOk result (HasDegree (S.state space.old).records id 0) }
    ensures gone { S.tells → OnOk result (IsUnused (S.state space.new).records id) }
    ensures kinds { S.tells → IfOk result (λ _. IsStore (S.state space.old) names.now.names
        → KeepsOtherKinds (S.state space.old) (S.state space.new) id) }
    // which records may be other, also after a refusal
    ensures keeps { S.tells → KeepsButNode (S.state space.old) (S.state space.new) id }
    ensures leaves { IfErr result (LeavesSpace (S.state space.old) (S.state space.new)) }
    ensures light { IfOk result (λ weight. weight + start_weight ≤ most_weight) }
    ensures writes { IfOk result (λ weight.
        WritesAtMost weight (S.state space.old) (S.state space.new)) }
    ensures refused_writes { OnErr result (WritesAtMost 785
        (S.state space.old) (S.state space.new)) }
    ensures onward { S.onward space.old space.new }
    ensures cause { HasChangeCause (S.faults space.old) (S.faults space.new) result }
{
    let Some(node) = load(space, id)? else {
        return Err(ChangeFault::NoNode { id });
    };
    if node.degree != 0 {
        return Err(ChangeFault::HasRelationships {
            id,
            degree: node.degree,
        });
    }
    let held = held_values(alloc, space, node.label, id)?;
    let dropped = drop_all(space, node_owner(id))?;
    give(space, NODES, id)?;
    let entries = leave_values(space, &held)?;
    Ok(1 + dropped.properties + dropped.blocks + entries)
}
