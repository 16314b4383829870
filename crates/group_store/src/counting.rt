//! Relationships that come into a chain or leave it, with the number of them that a counted group
//! has.

ghost use Rattle.std.specs.Prelude.{◌≡◌, ◌≤◌, ◌+◌, ◌∷◌, [], ℕ, List, Some, IfErr, IfOk, OnOk};
ghost use Rattle.rec_bytes.specs.Key.{IsKey};
ghost use Rattle.rec_bytes.specs.Space.{HasCause, WritesOnly, after_get};
ghost use Rattle.rel_store.specs.RelRecord.{rel_key};
ghost use Rattle.store_rules.specs.Breaking.{IsHeadOf};
ghost use Rattle.store_rules.specs.Rules.{first_of};
ghost use Rattle.store_rules.specs.Views.{RelRow, rel_at};
ghost use Rattle.chain_edit.specs.Breaks.{IsBreakFault};
ghost use Rattle.chain_edit.specs.Chains.{next_of, prev_of};
ghost use Rattle.chain_edit.specs.Heads.{head_of, IsHead};
ghost use Rattle.chain_edit.specs.Links.{IsRightLink};
ghost use Rattle.chain_edit.specs.Pushing.{IsPushFault, pushed};
ghost use Rattle.chain_edit.specs.Unlinking.{CanUnlink, IsLinkedIn, unlinked};
ghost use Rattle.chain_edit.specs.Walking.{ReadsAtMost};
ghost use Rattle.group_store.specs.Counting.{
  count_place,
  one_less,
  one_more,
  recounted,
  tallied,
};
ghost use Rattle.group_store.specs.Loading.{group_mark};
ghost use Rattle.group_store.specs.Opening.{IsPlaced};
ghost use Rattle.group_store.specs.Twins.{IsPartFault};
ghost use Rattle.rec_bytes.specs.Fault.{HasFaultCause, NotDamaged, OnDamage};

use crate::twins::name_damage;
use chain_edit::{Head, push_front, unlink};
use rec_bytes::{
    COUNTED, Fault, GROUP_FIRST_IN, GROUP_FIRST_OUT, GROUP_IN_COUNT, GROUP_LOOP_COUNT,
    GROUP_OUT_COUNT, GROUPS, KIND, Rec, Space, SpaceFault,
};

/// Puts a relationship at the front of a chain of the node, as `push_front` does, and makes the
/// number of the chain's relationships one more where the head is a counted group's.
pub fn push_counted<S: Space>(space: &mut S, head: Head, node: u32, rel: u32) -> Result<u32, Fault>
    requires head { IsHead (head_of head) }
    requires rel { IsKey (rel_key rel) }
    ensures ok { S.tells → OnOk result (S.state space.new
        ≡ tallied one_more (pushed (S.state space.old) (head_of head) node rel) (head_of head)) }
    ensures first { S.tells → IfOk result
        (λ first. first ≡ first_of (S.state space.old).records (head_of head)) }
    ensures damaged { S.tells → IfErr result (IsPushFault (S.state space.old) (head_of head)) }
    ensures unwritten { OnDamage result (S.state space.new ≡ after_get (S.state space.old)) }
    ensures breaks { S.tells → (n : ℕ)
        → IsHeadOf (S.state space.old).records (head_of head) n
        → IfErr result (IsBreakFault (S.state space.old)) }
    ensures not_damaged { S.tells
        → IsRightLink (S.state space.old) (first_of (S.state space.old).records (head_of head))
        → NotDamaged result }
    ensures wrote { IfOk result (λ first. WritesOnly (S.state space.old) (S.state space.new)
        (rel_key first ∷ rel_key rel ∷ head.key ∷ [])) }
    ensures writes { (first : ℕ) × WritesOnly (S.state space.old) (S.state space.new)
        (rel_key first ∷ rel_key rel ∷ head.key ∷ []) }
    ensures shape { S.tells → (S.state space.new).shape ≡ (S.state space.old).shape }
    ensures onward { S.onward space.old space.new }
    ensures cause { HasFaultCause (S.faults space.old) (S.faults space.new) result }
{
    let first = push_front(space, head, node, rel)?;
    count_more(space, head)?;
    Ok(first)
}

/// Takes a relationship out of a chain of the node, as `unlink` does, and makes the number of the
/// chain's relationships one less where the head is a counted group's. Where the relationship isn't
/// in the chain of a group, and the node has another group of its type, the node is damaged.
pub fn unlink_counted<S: Space>(space: &mut S, head: Head, node: u32, rel: u32) -> Result<(), Fault>
    requires head { IsHead (head_of head) }
    requires rel { IsKey (rel_key rel) }
    ensures ok { S.tells → OnOk result (S.state space.new
        ≡ tallied one_less (unlinked (S.state space.old) (head_of head) node rel) (head_of head)) }
    ensures linked { S.tells
        → OnOk result (IsLinkedIn (S.state space.old).records (head_of head) node rel) }
    ensures damaged { S.tells
        → IfErr result (IsPartFault (S.state space.old) (head_of head) node rel) }
    ensures unwritten { OnDamage result (ReadsAtMost (5 + group_mark (S.state space.old))
        (S.state space.old) (S.state space.new)) }
    ensures breaks { S.tells → (row : RelRow) → rel_at (S.state space.old).records rel ≡ Some row
        → IsPlaced (S.state space.old).records (head_of head) node row
        → IfErr result (IsBreakFault (S.state space.old)) }
    ensures not_damaged { S.tells
        → IsRightLink (S.state space.old) (prev_of (S.state space.old).records node rel)
        → IsRightLink (S.state space.old) (next_of (S.state space.old).records node rel)
        → (xs : List ℕ) → CanUnlink (S.state space.old).records (head_of head) node rel xs
        → NotDamaged result }
    ensures writes { (before after : ℕ) × WritesOnly (S.state space.old) (S.state space.new)
        (rel_key before ∷ rel_key rel ∷ rel_key after ∷ head.key ∷ []) }
    ensures shape { S.tells → (S.state space.new).shape ≡ (S.state space.old).shape }
    ensures onward { S.onward space.old space.new }
    ensures cause { HasFaultCause (S.faults space.old) (S.faults space.new) result }
{
    unlink_named(space, head, node, rel)?;
    count_less(space, head)?;
    Ok(())
}

/// Takes a relationship out of a chain of the node, as `unlink` does. Where it can't be, the record
/// that is damaged is named.
fn unlink_named<S: Space>(space: &mut S, head: Head, node: u32, rel: u32) -> Result<(), Fault>
    requires head { IsHead (head_of head) }
    requires rel { IsKey (rel_key rel) }
    ensures ok { S.tells
        → OnOk result (S.state space.new ≡ unlinked (S.state space.old) (head_of head) node rel) }
    ensures linked { S.tells
        → OnOk result (IsLinkedIn (S.state space.old).records (head_of head) node rel) }
    ensures damaged { S.tells
        → IfErr result (IsPartFault (S.state space.old) (head_of head) node rel) }
    ensures unwritten { OnDamage result (ReadsAtMost (5 + group_mark (S.state space.old))
        (S.state space.old) (S.state space.new)) }
    ensures breaks { S.tells → (row : RelRow) → rel_at (S.state space.old).records rel ≡ Some row
        → IsPlaced (S.state space.old).records (head_of head) node row
        → IfErr result (IsBreakFault (S.state space.old)) }
    ensures not_damaged { S.tells
        → IsRightLink (S.state space.old) (prev_of (S.state space.old).records node rel)
        → IsRightLink (S.state space.old) (next_of (S.state space.old).records node rel)
        → (xs : List ℕ) → CanUnlink (S.state space.old).records (head_of head) node rel xs
        → NotDamaged result }
    ensures writes { (before after : ℕ) × WritesOnly (S.state space.old) (S.state space.new)
        (rel_key before ∷ rel_key rel ∷ rel_key after ∷ head.key ∷ []) }
    ensures onward { S.onward space.old space.new }
    ensures cause { HasFaultCause (S.faults space.old) (S.faults space.new) result }
{
    match unlink(space, head, node, rel) {
        Ok(()) => Ok(()),
        Err(Fault::Damaged(damage)) => {
            let named = name_damage(space, head, node, damage)?;
            Err(Fault::Damaged(named))
        }
        Err(fault) => Err(fault),
    }
}

/// Makes the number of a head's relationships one more, where the head is a counted group's.
#[tactic(auto, unfolding(crate::specs::Counting::tallied))]
fn count_more<S: Space>(space: &mut S, head: Head) -> Result<(), SpaceFault>
    requires { IsKey head.key }
    ensures ok { S.tells
        → OnOk result (S.state space.new ≡ tallied one_more (S.state space.old) (head_of head)) }
    ensures writes { WritesOnly (S.state space.old) (S.state space.new) (head.key ∷ []) }
    ensures shape { S.tells → (S.state space.new).shape ≡ (S.state space.old).shape }
    ensures onward { S.onward space.old space.new }
    ensures cause { HasCause (S.faults space.old) (S.faults space.new) result }
{
    if head.key.file != GROUPS {
        return Ok(());
    }
    let rec = space.edit(head.key)?;
    add_one(rec, count_place(head.field));
    Ok(())
}

/// Makes the number of a head's relationships one less, where the head is a counted group's.
#[tactic(auto, unfolding(crate::specs::Counting::tallied))]
fn count_less<S: Space>(space: &mut S, head: Head) -> Result<(), SpaceFault>
    requires { IsKey head.key }
    ensures ok { S.tells
        → OnOk result (S.state space.new ≡ tallied one_less (S.state space.old) (head_of head)) }
    ensures writes { WritesOnly (S.state space.old) (S.state space.new) (head.key ∷ []) }
    ensures shape { S.tells → (S.state space.new).shape ≡ (S.state space.old).shape }
    ensures onward { S.onward space.old space.new }
    ensures cause { HasCause (S.faults space.old) (S.faults space.new) result }
{
    if head.key.file != GROUPS {
        return Ok(());
    }
    let rec = space.edit(head.key)?;
    take_one(rec, count_place(head.field));
    Ok(())
}

/// The place of the number of a chain's relationships, by that of its first link.
fn count_place(field: u8) -> u8
    ensures is { result ≡ count_place field }
    ensures fits { result ≤ 60 }
{
    if field == GROUP_FIRST_OUT {
        GROUP_OUT_COUNT
    } else if field == GROUP_FIRST_IN {
        GROUP_IN_COUNT
    } else {
        GROUP_LOOP_COUNT
    }
}

/// Makes a number of a counted group one more.
fn add_one(rec: &mut Rec, place: u8)
    requires { place ≤ 60 }
    ensures { rec.new ≡ recounted one_more rec.old place }
{
    if rec.byte(KIND) == COUNTED {
        let count = rec.number(place);
        rec.set_number(place, count.saturating_add(1));
    }
}

/// Makes a number of a counted group one less.
fn take_one(rec: &mut Rec, place: u8)
    requires { place ≤ 60 }
    ensures { rec.new ≡ recounted one_less rec.old place }
{
    if rec.byte(KIND) == COUNTED {
        let count = rec.number(place);
        rec.set_number(place, count.saturating_sub(1));
    }
}
