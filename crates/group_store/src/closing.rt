ghost use Rattle.std.specs.Prelude.{◌≡◌, ℕ, List, [], ◌∷◌, IfErr, OnErr, OnOk};
ghost use Rattle.rec_bytes.specs.Format.{groups_file};
ghost use Rattle.rec_bytes.specs.Key.{IsKey};
ghost use Rattle.rec_bytes.specs.RecordFiles.{meta_key_of};
ghost use Rattle.rec_bytes.specs.Space.{SameButReads, WritesOnly};
ghost use Rattle.node_store.specs.NodeRecord.{node_key};
ghost use Rattle.store_rules.specs.Breaking.{IsHeadOf};
ghost use Rattle.chain_edit.specs.Breaks.{IsBreakFault};
ghost use Rattle.chain_edit.specs.Heads.{head_of};
ghost use Rattle.group_store.specs.Closing.{CanClose, HasClosed, KeepsBesideGroups};
ghost use Rattle.group_store.specs.Closing.{KeepsOtherChains};
ghost use Rattle.group_store.specs.Dropping.{IsDropFault, lead_key};
ghost use Rattle.group_store.specs.Leaving.{KeepsOtherHeads};
ghost use Rattle.rec_bytes.specs.Fault.{HasFaultCause, NotDamaged, OnDamage};
ghost use Rattle.group_store.specs.GroupRecord.{group_key};

use crate::dropping::drop_if_empty;
use chain_edit::Head;
use rec_bytes::{Fault, GROUPS, Space};

/// Drops the group of a head at a node, where it is in a group and that is empty.
pub fn close_chain<S: Space>(space: &mut S, node: u32, head: Head) -> Result<(), Fault>
    requires { IsKey (node_key node) }
    ensures closed { S.tells → OnOk result ((most : ℕ) (empty : List ℕ)
        → CanClose (S.state space.old) (head_of head) node most empty
        → HasClosed (S.state space.old) (S.state space.new) node most empty) }
    ensures not_damaged { S.tells → (most : ℕ) (empty : List ℕ)
        → CanClose (S.state space.old) (head_of head) node most empty → NotDamaged result }
    ensures damaged { S.tells
        → IfErr result (IsDropFault (S.state space.old) node head.key.id) }
    ensures breaks { S.tells → IsHeadOf (S.state space.old).records (head_of head) node
        → IfErr result (IsBreakFault (S.state space.old)) }
    ensures grouped { OnErr result (head.key.file ≡ groups_file) }
    ensures unwritten { OnDamage result (SameButReads (S.state space.old) (S.state space.new)) }
    ensures heads { S.tells → IsHeadOf (S.state space.old).records (head_of head) node → OnOk result
        (KeepsOtherHeads (S.state space.old) (S.state space.new) node) }
    ensures others { S.tells → IsHeadOf (S.state space.old).records (head_of head) node
        → OnOk result (KeepsOtherChains (S.state space.old) (S.state space.new) node) }
    ensures keeps { S.tells
        → OnOk result (KeepsBesideGroups (S.state space.old) (S.state space.new)) }
    ensures writes { (before after : ℕ) × WritesOnly (S.state space.old) (S.state space.new)
        (group_key after ∷ lead_key node before ∷ head.key ∷ meta_key_of groups_file ∷ []) }
    ensures onward { S.onward space.old space.new }
    ensures cause { HasFaultCause (S.faults space.old) (S.faults space.new) result }
{
    if head.key.file == GROUPS {
        drop_if_empty(space, node, head.key.id)?;
    }
    Ok(())
}
