//! What a new edge writes: its record, without properties, and the chains of its ends.

ghost use Rattle.std.specs.Prelude.{◌≡◌, ◌+◌, ℕ, List, Some, IfErr, IfOk};
ghost use Rattle.std.specs.Prelude.{OnErr, OnOk, slice_get};
ghost use Rattle.plain_graph.specs.declared.command.Target.TheVariants as targets;
ghost use Rattle.rec_bytes.specs.Format.{nodes_file, relationships_file};
ghost use Rattle.rec_bytes.specs.Key.{IsKey};
ghost use Rattle.rec_bytes.specs.Space.{SameButReads, meta_of};
ghost use Rattle.id_freelist.specs.Taking.{taken_id};
ghost use Rattle.rel_store.specs.RelRecord.{rel_key};
ghost use Rattle.store_rules.specs.Views.{key_in};
ghost use Rattle.store_rules.specs.Writes.{WritesAtMost, WritesBeside};
ghost use Rattle.change_parts.specs.ChangeFault.{HasChangeCause, IsOutside};
ghost use Rattle.change_parts.specs.Damage.{BlamesBroken};
ghost use Rattle.edge_changes.specs.EdgeAdding.{BlamesChains, KeepsButChains};
ghost use Rattle.edge_changes.specs.EdgeAdding.{groups_needed};
ghost use Rattle.edge_changes.specs.EdgeAdding.{HasEndDegree, IsUsedEnd, IsUsedNode};
ghost use Rattle.edge_changes.specs.EdgeEnds.{AtEach};
ghost use Rattle.edge_changes.specs.EdgeOpening.{IsJoint, ends_moved, from_of, to_of};
ghost use Rattle.edge_changes.specs.EdgePlacing.{HadFewGroups, IsEdgeBetween, IsPutFault};
ghost use Rattle.edge_changes.specs.EdgePlacing.{PutsEdge, TakesFirst};
ghost use Rattle.change_parts.specs.Degrees.{HasDegree};
ghost use Rattle.change_parts.specs.Owners.{IsAbsent, IsMissing};
ghost use Rattle.change_parts.specs.Rooms.{HasRoom};
ghost use Rattle.change_parts.specs.Store.{IsMidway};
ghost use Rattle.store_rules.specs.Graph.{graph_in};

use crate::edge_end::Joint;
use crate::edge_joining::join_edge;
use crate::edge_opening::open_ends;
use change_parts::ChangeFault;
use node_store::load;
use rec_bytes::{Reads, Space};

/// How many relationships a node has.
pub(crate) fn node_degree<R: Reads>(space: &mut R, id: u32) -> Result<u32, ChangeFault>
    ensures found { R.tells
        → IfOk result (λ degree. HasDegree (R.state space.old).records id degree) }
    ensures refused { R.tells → (names : List (List ℕ)) → IsMidway (R.state space.old) names
        → IfErr result (IsMissing (graph_in (R.state space.old)) (targets.Node id)) }
    ensures absent { R.tells → IfErr result (IsAbsent (R.state space.old) (targets.Node id)) }
    ensures kind { R.tells → OnOk result (IsUsedNode (R.state space.old) id) }
    ensures key { IfOk result (λ degree. IsKey (key_in nodes_file id)) }
    ensures state { SameButReads (R.state space.old) (R.state space.new) }
    ensures onward { R.onward space.old space.new }
    ensures cause { HasChangeCause (R.faults space.old) (R.faults space.new) result }
{
    let Some(node) = load(space, id)? else {
        return Err(ChangeFault::NoNode { id });
    };
    Ok(node.degree)
}

/// Writes the record of a new relationship without properties, puts it into the chains of its ends,
/// and answers its identifier. The threshold is the space's.
pub(crate) fn put_edge<S: Space>(space: &mut S, joint: Joint) -> Result<u32, ChangeFault>
    requires { IsJoint joint }
    ensures put { S.tells → joint.threshold ≡ (S.state space.old).shape.threshold
        → IfOk result (λ id. (names : List (List ℕ)) (text : List ℕ)
        → IsMidway (S.state space.old) names → slice_get names joint.label ≡ Some text
        → AtEach (HasEndDegree (S.state space.old).records) joint.ends
        → PutsEdge (S.state space.old) (S.state space.new) names (from_of joint) text
        (to_of joint) id) }
    ensures is { S.tells → IfOk result
        (λ id. id ≡ taken_id (meta_of (S.state space.old) relationships_file)) }
    ensures not_damaged { S.tells → joint.threshold ≡ (S.state space.old).shape.threshold
        → (names : List (List ℕ)) (text : List ℕ)
        → IsMidway (S.state space.old) names → slice_get names joint.label ≡ Some text
        → AtEach (HasEndDegree (S.state space.old).records) joint.ends
        → HasRoom (S.state space.old) relationships_file 1 → IfErr result IsOutside }
    ensures damaged { S.tells → AtEach (IsUsedEnd (S.state space.old)) joint.ends
        → joint.threshold ≡ (S.state space.old).shape.threshold
        → HasRoom (S.state space.old) relationships_file 1
        → IfErr result (BlamesBroken (S.state space.new)) }
    ensures leaves { S.tells → AtEach (IsUsedEnd (S.state space.old)) joint.ends
        → OnOk result
        (KeepsButChains (S.state space.old) (S.state space.new) (from_of joint) (to_of joint)) }
    ensures found { S.tells → AtEach (IsUsedEnd (S.state space.old)) joint.ends
        → IfErr result
        (BlamesChains (S.state space.old) (S.state space.new) (from_of joint) (to_of joint)) }
    ensures stands { S.tells → IfOk result (λ id. IsEdgeBetween (S.state space.new).records id
        (from_of joint) joint.label (to_of joint)) }
    ensures free { S.tells → OnOk result (TakesFirst
        (S.state space.old).records (S.state space.new).records relationships_file) }
    ensures key { IfOk result (λ id. IsKey (key_in relationships_file id)) }
    ensures writes { IfOk result (λ id. WritesBeside (rel_key id)
        (8 + ends_moved joint.threshold joint.ends) (S.state space.old) (S.state space.new)) }
    ensures err_writes { OnErr result (WritesAtMost (13 + ends_moved joint.threshold joint.ends)
        (S.state space.old) (S.state space.new)) }
    ensures failure { S.tells → IfErr result (IsPutFault (S.state space.new)) }
    ensures short { S.tells
        → IfErr result (HadFewGroups (S.state space.old) (groups_needed joint.threshold)) }
    ensures onward { S.onward space.old space.new }
    ensures cause { HasChangeCause (S.faults space.old) (S.faults space.new) result }
{
    let ends = open_ends(space, joint)?;
    join_edge(space, joint.label, ends)
}
