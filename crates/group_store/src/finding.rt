ghost use Rattle.std.specs.Prelude.{◌≡◌, ◌+◌, ℕ, List, length, IfErr, IfOk, IfSome, None, ◌↔◌};
ghost use Rattle.chain_edit.specs.Walking.{ReadsAtMost};
ghost use Rattle.node_store.specs.Loading as nodes;
ghost use Rattle.rec_bytes.specs.Key.{IsKey};
ghost use Rattle.store_rules.specs.Views.{first_link};
ghost use Rattle.group_store.specs.Finding.{IsFindFault, IsFound, IsReached, IsSought};
ghost use Rattle.group_store.specs.GroupChain.{IsDense, IsGroupChain, LacksGroup, up_to_type};
ghost use Rattle.rec_bytes.specs.Fault.{HasFaultCause, NotDamaged};
ghost use Rattle.group_store.specs.Faults.{TakesNoMemory};
ghost use Rattle.group_store.specs.GroupRecord.{group_key};
ghost use Rattle.group_store.specs.Loading.{group_mark};
ghost use Rattle.group_store.specs.Walking.{IsWalkable, IsWalkFault};

use crate::GroupRow;
use crate::group_record::row_of;
use crate::members::{chain_damage, first_group, read_member};
use rec_bytes::{Fault, GROUP_NEXT, GROUP_TYPE, GROUPS, NIL, Reads};

/// The group of a type at a dense node. It is none where the node has no group of the type, and
/// where it isn't dense. No group after the one that is found is read.
pub fn find_group<R: Reads>(space: &mut R, node: u32, label: u32) -> Result<Option<GroupRow>, Fault>
    ensures found { R.tells
        → IfOk result (IsFound (R.state space.old).records node label) }
    ensures none { R.tells → IsDense (R.state space.old).records node → (xs : List ℕ)
        → IsGroupChain (R.state space.old).records node xs
        → IfOk result (λ found.
        (found ≡ None) ↔ LacksGroup (R.state space.old).records node label) }
    ensures reached { R.tells → IfOk result (λ found. IfSome found (λ row.
        IsReached (R.state space.old).records (first_link (R.state space.old).records node)
        row.id)) }
    ensures reads { R.tells → (xs : List ℕ)
        → IsWalkable (R.state space.old) node (first_link (R.state space.old).records node) xs
        → ReadsAtMost (1 + length (up_to_type (R.state space.old).records label xs))
        (R.state space.old) (R.state space.new) }
    ensures at_most { ReadsAtMost (1 + group_mark (R.state space.old)) (R.state space.old)
        (R.state space.new) }
    ensures damaged { R.tells → IfErr result (IsFindFault (R.state space.old) node) }
    ensures not_damaged { R.tells → nodes.IsReadable (R.state space.old) node → (xs : List ℕ)
        → IsWalkable (R.state space.old) node (first_link (R.state space.old).records node) xs
        → NotDamaged result }
    ensures key { IfOk result (λ found. IfSome found (λ row. IsKey (group_key row.id))) }
    ensures no_memory { TakesNoMemory result }
    ensures onward { R.onward space.old space.new }
    ensures cause { HasFaultCause (R.faults space.old) (R.faults space.new) result }
{
    match first_group(space, node)? {
        Some(first) => seek(space, node, first, label),
        None => Ok(None),
    }
}

/// The group of a type among those of the node from the first on.
fn seek<R: Reads>(
    space: &mut R,
    node: u32,
    first: u32,
    label: u32,
) -> Result<Option<GroupRow>, Fault>
    ensures found { R.tells
        → IfOk result (IsSought (R.state space.old).records node first label) }
    ensures reached { R.tells → IfOk result (λ found. IfSome found (λ row.
        IsReached (R.state space.old).records first row.id)) }
    ensures reads { R.tells → (xs : List ℕ) → IsWalkable (R.state space.old) node first xs
        → ReadsAtMost (length (up_to_type (R.state space.old).records label xs))
        (R.state space.old) (R.state space.new) }
    ensures at_most { ReadsAtMost (group_mark (R.state space.old)) (R.state space.old)
        (R.state space.new) }
    ensures damaged { R.tells → IfErr result (IsWalkFault (R.state space.old) node first) }
    ensures not_damaged { R.tells → (xs : List ℕ) → IsWalkable (R.state space.old) node first xs
        → NotDamaged result }
    ensures key { IfOk result (λ found. IfSome found (λ row. IsKey (group_key row.id))) }
    ensures no_memory { TakesNoMemory result }
    ensures onward { R.onward space.old space.new }
    ensures cause { HasFaultCause (R.faults space.old) (R.faults space.new) result }
{
    let budget = space.meta(GROUPS).high;
    let mut at = first;
    for _ in 0..budget {
        if at == NIL {
            return Ok(None);
        }
        let rec = read_member(space, node, at)?;
        if rec.number(GROUP_TYPE) == label {
            return Ok(Some(row_of(&rec, at)));
        }
        at = rec.number(GROUP_NEXT);
    }
    if at != NIL {
        return Err(Fault::Damaged(chain_damage(node)));
    }
    Ok(None)
}
