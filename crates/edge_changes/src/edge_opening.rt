//! The heads of the chains that a new edge comes into, at both of its ends.

ghost use Rattle.std.specs.Prelude.{◌≡◌, ◌≤◌, ◌+◌, ℕ, List, IfErr, IfOk, OnOk};
ghost use Rattle.id_freelist.specs.ListDamage.{HarmsNoList};
ghost use Rattle.chain_edit.specs.Heads.{head_of};
ghost use Rattle.group_store.specs.Leaving.{KeepsOtherHeads, LeavesBeside};
ghost use Rattle.group_store.specs.Opening.{CanOpen, GrowsAtMost, HasGroupRoom, OpensChain};
ghost use Rattle.group_store.specs.Opening.{WritesOpened};
ghost use Rattle.group_store.specs.Opening.{moved_writes};
ghost use Rattle.change_parts.specs.ChangeFault.{HasChangeCause, IsOutside};
ghost use Rattle.change_parts.specs.Damage.{BlamesBroken};
ghost use Rattle.edge_changes.specs.EdgeAdding.{BlamesChains, BlamesEnd, HarmsNoFiles};
ghost use Rattle.edge_changes.specs.EdgeAdding.{KeepsButChains, groups_needed};
ghost use Rattle.edge_changes.specs.EdgeAdding.{IsNodeEnd, IsUsedEnd, IsUsedNode};
ghost use Rattle.edge_changes.specs.EdgeEnds.{AreEdgeEnds, AtEach, HasHead, IsEdgeEnd};
ghost use Rattle.edge_changes.specs.EdgeEnds.{source_of, target_of};
ghost use Rattle.edge_changes.specs.EdgeOpening.{CanLink, IsJoint, KeepsHead, OpensEnds};
ghost use Rattle.edge_changes.specs.EdgeOpening.{WritesEndsOpened};
ghost use Rattle.edge_changes.specs.EdgeOpening.{ends_moved, from_of, to_of};
ghost use Rattle.edge_changes.specs.EdgePlacing.{HadFewGroups, IsPutFault, KeepsFreeEdges};
ghost use Rattle.change_parts.specs.Rooms.{HasRoom};
ghost use Rattle.rec_bytes.specs.Format.{groups_file, nodes_file, relationships_file};
ghost use Rattle.rec_bytes.specs.RecordFiles.{meta_key_of};
ghost use Rattle.store_rules.specs.Views.{RelRow, key_in};
ghost use Rattle.store_rules.specs.Writes.{WritesAtMost, WritesBeside};

use crate::edge_end::{EdgeEnd, EndDegree, Ends, Joint};
use change_parts::ChangeFault;
use group_store::{Side, open_chain};
use rec_bytes::Space;

/// Finds or makes the head of the chain that a new edge of a type comes into, at each of its ends.
/// An end that has as many relationships as the threshold, which is the space's, becomes dense.
pub(crate) fn open_ends<S: Space>(space: &mut S, joint: Joint) -> Result<Ends<EdgeEnd>, ChangeFault>
    requires { IsJoint joint }
    ensures opened { S.tells → IfOk result (λ ends. (names : List (List ℕ))
        → CanLink (S.state space.old) names joint
        → OpensEnds (S.state space.old) (S.state space.new) names joint.label ends) }
    ensures not_damaged { S.tells → (names : List (List ℕ))
        → CanLink (S.state space.old) names joint
        → HasRoom (S.state space.old) relationships_file 1 → IfErr result IsOutside }
    ensures damaged { S.tells → AtEach (IsUsedEnd (S.state space.old)) joint.ends
        → joint.threshold ≡ (S.state space.old).shape.threshold
        → IfErr result (BlamesBroken (S.state space.new)) }
    // the meta record of the relationships stays
    ensures meta_record { S.tells
        → OnOk result ((S.state space.new).records (meta_key_of relationships_file)
        ≡ (S.state space.old).records (meta_key_of relationships_file)) }
    ensures free { S.tells → OnOk result
        (KeepsFreeEdges (S.state space.old).records (S.state space.new).records) }
    ensures files { S.tells
        → OnOk result (HarmsNoFiles (S.state space.old) (S.state space.new)) }
    ensures leaves { S.tells → OnOk result
        (KeepsButChains (S.state space.old) (S.state space.new) (from_of joint) (to_of joint)) }
    ensures found { S.tells → IfErr result
        (BlamesChains (S.state space.old) (S.state space.new) (from_of joint) (to_of joint)) }
    ensures room { S.tells → OnOk result (GrowsAtMost (S.state space.old) (S.state space.new)
        (groups_needed joint.threshold)) }
    ensures has { S.tells → AtEach (IsUsedEnd (S.state space.old)) joint.ends
        → IfOk result (AtEach (HasHead (S.state space.new).records)) }
    ensures reaches { S.tells → AtEach (IsUsedEnd (S.state space.old)) joint.ends
        → IfOk result (AtEach (KeepsHead (S.state space.old) (S.state space.new))) }
    ensures nodes { IfOk result (λ ends. ((source_of ends).node ≡ from_of joint)
        × ((target_of ends).node ≡ to_of joint)) }
    ensures ends { IfOk result AreEdgeEnds }
    ensures wrote { IfOk result (λ ends.
        WritesEndsOpened (S.state space.old) (S.state space.new) ends
        (2 + ends_moved joint.threshold joint.ends)) }
    ensures writes { WritesAtMost (6 + ends_moved joint.threshold joint.ends)
        (S.state space.old) (S.state space.new) }
    ensures failure { S.tells → IfErr result (IsPutFault (S.state space.new)) }
    ensures short { S.tells
        → IfErr result (HadFewGroups (S.state space.old) (groups_needed joint.threshold)) }
    ensures onward { S.onward space.old space.new }
    ensures cause { HasChangeCause (S.faults space.old) (S.faults space.new) result }
{
    match joint.ends {
        Ends::Loop(end) => {
            let only = open_end(space, joint, end, Side::Loop)?;
            Ok(Ends::Loop(only))
        }
        Ends::Two { source, target } => {
            let first = open_end(space, joint, source, Side::Out)?;
            let last = open_end(space, joint, target, Side::In)?;
            Ok(Ends::Two {
                source: first,
                target: last,
            })
        }
    }
}

/// Finds or makes the head of the chain at a node that a new edge comes into.
fn open_end<S: Space>(
    space: &mut S,
    joint: Joint,
    end: EndDegree,
    side: Side,
) -> Result<EdgeEnd, ChangeFault>
    requires node { IsNodeEnd end }
    requires threshold { joint.threshold ≤ 200 }
    ensures opened { S.tells → IfOk result (λ opened. (row : RelRow) (empty : List ℕ)
        → CanOpen (S.state space.old) end.node end.degree joint.threshold joint.label side row
        empty → OpensChain (S.state space.old) (S.state space.new) (head_of opened.head) end.node
        row empty) }
    ensures not_damaged { S.tells → (row : RelRow) (empty : List ℕ)
        → CanOpen (S.state space.old) end.node end.degree joint.threshold joint.label side row
        empty → HasGroupRoom (S.state space.old) empty → IfErr result IsOutside }
    ensures damaged { S.tells → IsUsedNode (S.state space.old) end.node
        → (S.state space.old).shape.threshold ≤ joint.threshold
        → IfErr result (BlamesBroken (S.state space.new)) }
    ensures leaves_others { S.tells → OnOk result (LeavesBeside (S.state space.old).records
        (S.state space.new).records end.node) }
    ensures leaves { S.tells → OnOk result
        (KeepsButChains (S.state space.old) (S.state space.new) end.node end.node) }
    ensures found { S.tells → IfErr result
        (BlamesEnd (S.state space.old) (S.state space.new) end.node) }
    ensures room { S.tells → OnOk result (GrowsAtMost (S.state space.old) (S.state space.new)
        (joint.threshold + 1)) }
    ensures has { S.tells → IsUsedNode (S.state space.old) end.node
        → IfOk result (HasHead (S.state space.new).records) }
    ensures lists { S.tells → OnOk result
        (HarmsNoList (S.state space.old) (S.state space.new) groups_file) }
    ensures reaches { S.tells
        → IfOk result (KeepsHead (S.state space.old) (S.state space.new)) }
    ensures heads { S.tells
        → OnOk result (KeepsOtherHeads (S.state space.old) (S.state space.new) end.node) }
    ensures is { IfOk result (λ opened.
        opened ≡ record { node = end.node; head = opened.head; degree = end.degree }) }
    ensures end { IfOk result IsEdgeEnd }
    ensures wrote { IfOk result (λ opened.
        WritesOpened (S.state space.old) (S.state space.new) end.node opened.head.key
        (moved_writes joint.threshold end.degree + 1)) }
    ensures writes { WritesBeside (key_in nodes_file end.node)
        (moved_writes joint.threshold end.degree + 2) (S.state space.old) (S.state space.new) }
    ensures failure { S.tells → IfErr result (IsPutFault (S.state space.new)) }
    ensures short { S.tells
        → IfErr result (HadFewGroups (S.state space.old) (joint.threshold + 1)) }
    ensures onward { S.onward space.old space.new }
    ensures cause { HasChangeCause (S.faults space.old) (S.faults space.new) result }
{
    let head = open_chain(
        space,
        end.node,
        end.degree,
        joint.threshold,
        joint.label,
        side,
    )?;
    Ok(EdgeEnd {
        node: end.node,
        head,
        degree: end.degree,
    })
}
