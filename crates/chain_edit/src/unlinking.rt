ghost use Rattle.std.specs.Prelude.{◌≡◌, ◌≢◌, ◌∷◌, [], ℕ, List, Some, IfErr, IfOk, OnOk};
ghost use Rattle.rec_bytes.specs.Key.{IsKey};
ghost use Rattle.rec_bytes.specs.Space.{SameButReads, after_get, HasCause, WritesOnly};
ghost use Rattle.rel_store.specs.RelRecord.{rel_key};
ghost use Rattle.rec_bytes.specs.Fault.{HasFaultCause, NotDamaged, OnDamage};
ghost use Rattle.store_rules.specs.Views.{RelRow, rel_at};
ghost use Rattle.chain_edit.specs.Breaks.{IsBreakFault};
ghost use Rattle.chain_edit.specs.Chains.{next_of, prev_of};
ghost use Rattle.chain_edit.specs.Heads.{head_of, IsHead};
ghost use Rattle.chain_edit.specs.Links.{IsKnownLink, IsRightLink};
ghost use Rattle.chain_edit.specs.Unlinking.{CanUnlink, HasUnlinked, HidesNothing, IsAstrayFault};
ghost use Rattle.chain_edit.specs.Unlinking.{IsBehind, IsLinkedIn, IsLoneHead, IsUnlinkFault};
ghost use Rattle.chain_edit.specs.Unlinking.{LosesNoOther, leads_to, put_back, put_led, seen};
ghost use Rattle.chain_edit.specs.Unlinking.{astray_damage, unlinked};
ghost use Rattle.chain_edit.specs.Walking.{ReadsAtMost};

use crate::Head;
use crate::links::test_link;
use rec_bytes::{
    CHAIN_RULE, Damage, Fault, Key, NIL, RANGE_RULE, RELATIONSHIPS, Reads, Rec, Space, SpaceFault,
};
use rel_store::{Linked, place_of};

/// Takes a relationship out of a chain of the node. It is damaged where a link of it leads nowhere,
/// or where what it says is beside it doesn't lead to it, and then nothing is written.
#[tactic(auto, unfolding(crate::specs::Unlinking::unlinked))]
pub fn unlink<S: Space>(space: &mut S, head: Head, node: u32, rel: u32) -> Result<(), Fault>
    requires head { IsHead (head_of head) }
    requires rel { IsKey (rel_key rel) }
    ensures chains { S.tells → OnOk result ((xs : List ℕ)
        → CanUnlink (S.state space.old).records (head_of head) node rel xs
        → HasUnlinked (S.state space.old).records (S.state space.new).records (head_of head) node
        rel xs) }
    ensures ok { S.tells
        → OnOk result (S.state space.new ≡ unlinked (S.state space.old) (head_of head) node rel) }
    ensures linked { S.tells
        → OnOk result (IsLinkedIn (S.state space.old).records (head_of head) node rel) }
    ensures hides { S.tells → OnOk result (HidesNothing (S.state space.old).records
        (S.state space.new).records (head_of head) node rel) }
    ensures loses { S.tells → OnOk result (LosesNoOther (S.state space.old).records
        (S.state space.new).records (head_of head) node rel) }
    ensures damaged { S.tells
        → IfErr result (IsUnlinkFault (S.state space.old) (head_of head) node rel) }
    ensures breaks { S.tells → (row : RelRow) → rel_at (S.state space.old).records rel ≡ Some row
        → IsLoneHead (S.state space.old).records (head_of head) node rel row
        → IfErr result (IsBreakFault (S.state space.old)) }
    ensures not_damaged { S.tells
        → IsRightLink (S.state space.old) (prev_of (S.state space.old).records node rel)
        → IsRightLink (S.state space.old) (next_of (S.state space.old).records node rel)
        → (xs : List ℕ) → CanUnlink (S.state space.old).records (head_of head) node rel xs
        → NotDamaged result }
    ensures known_before { S.tells → OnOk result
        (IsKnownLink (S.state space.old) (prev_of (S.state space.old).records node rel)) }
    ensures known_after { S.tells → OnOk result
        (IsKnownLink (S.state space.old) (next_of (S.state space.old).records node rel)) }
    ensures unwritten { OnDamage result (ReadsAtMost 3 (S.state space.old) (S.state space.new)) }
    ensures neighbours { S.tells → WritesOnly (S.state space.old) (S.state space.new)
        (rel_key (prev_of (S.state space.old).records node rel) ∷ rel_key rel
        ∷ rel_key (next_of (S.state space.old).records node rel) ∷ head.key ∷ []) }
    ensures writes { (before after : ℕ) × WritesOnly (S.state space.old) (S.state space.new)
        (rel_key before ∷ rel_key rel ∷ rel_key after ∷ head.key ∷ []) }
    ensures onward { S.onward space.old space.new }
    ensures cause { HasFaultCause (S.faults space.old) (S.faults space.new) result }
{
    let key = Key {
        file: RELATIONSHIPS,
        id: rel,
    };
    let mut rec = space.get(key)?;
    let place = place_of(&rec, node);
    let before = rec.link(place);
    let after = rec.link(place + 4);
    let leads_nowhere = Damage {
        file: RELATIONSHIPS,
        id: rel,
        rule: RANGE_RULE,
    };
    test_link(space, before, leads_nowhere)?;
    test_link(space, after, leads_nowhere)?;
    let behind = read_behind(space, node, rel, before, after)?;
    let lead = read_lead(space, head, node, rel, before)?;
    rec.set_link(place, NIL);
    rec.set_link(place + 4, NIL);
    space.put(key, rec)?;
    write_behind(space, after, node, before, behind)?;
    write_lead(space, head, node, before, after, lead)?;
    Ok(())
}

/// Reads the record of the relationship after one, which leads back to it. Where there is none, the
/// answer is of no use.
#[tactic(auto, unfolding(crate::specs::Unlinking::seen))]
fn read_behind<R: Reads>(
    space: &mut R,
    node: u32,
    rel: u32,
    before: u32,
    after: u32,
) -> Result<Rec, Fault>
    requires { after ≢ NIL → IsKey (rel_key after) }
    ensures got { R.tells → IfOk result (λ rec. after ≢ NIL
        → rec ≡ (R.state space.old).records (rel_key after)) }
    ensures linked { R.tells → OnOk result (after ≢ NIL
        → IsBehind (R.state space.old).records node rel before after) }
    ensures apart { OnOk result (after ≢ NIL → after ≢ rel) }
    ensures state { OnOk result (R.state space.new ≡ seen (R.state space.old) after) }
    ensures at_most { ReadsAtMost 1 (R.state space.old) (R.state space.new) }
    ensures damaged { R.tells → IfErr result (IsAstrayFault ((after ≢ NIL)
        × ¬ IsBehind (R.state space.old).records node rel before after) rel) }
    ensures onward { R.onward space.old space.new }
    ensures cause { HasFaultCause (R.faults space.old) (R.faults space.new) result }
{
    if after == NIL {
        return Ok(Rec::ZEROS);
    }
    if after == rel {
        return Err(Fault::Damaged(astray_damage(rel)));
    }
    if after == before {
        return Err(Fault::Damaged(astray_damage(rel)));
    }
    let rec = space.get(Key {
        file: RELATIONSHIPS,
        id: after,
    })?;
    if rec.link(place_of(&rec, node)) != rel {
        return Err(Fault::Damaged(astray_damage(rel)));
    }
    Ok(rec)
}

/// Reads the record that leads to a relationship: that of the one before it, or the head's where
/// there is none.
fn read_lead<R: Reads>(
    space: &mut R,
    head: Head,
    node: u32,
    rel: u32,
    before: u32,
) -> Result<Rec, Fault>
    requires head { IsHead (head_of head) }
    requires before { before ≢ NIL → IsKey (rel_key before) }
    ensures got_head { R.tells → IfOk result (λ rec. before ≡ NIL
        → rec ≡ (R.state space.old).records head.key) }
    ensures got_before { R.tells → IfOk result (λ rec. before ≢ NIL
        → rec ≡ (R.state space.old).records (rel_key before)) }
    ensures linked { R.tells → OnOk result
        (leads_to (R.state space.old).records (head_of head) node before ≡ rel) }
    ensures state { R.state space.new ≡ after_get (R.state space.old) }
    ensures damaged { R.tells → IfErr result (IsAstrayFault
        (leads_to (R.state space.old).records (head_of head) node before ≢ rel) rel) }
    ensures onward { R.onward space.old space.new }
    ensures cause { HasFaultCause (R.faults space.old) (R.faults space.new) result }
{
    if before == NIL {
        let rec = space.get(head.key)?;
        if rec.number(head.field) != rel {
            return Err(Fault::Damaged(astray_damage(rel)));
        }
        return Ok(rec);
    }
    let rec = space.get(Key {
        file: RELATIONSHIPS,
        id: before,
    })?;
    if rec.link(place_of(&rec, node) + 4) != rel {
        return Err(Fault::Damaged(astray_damage(rel)));
    }
    Ok(rec)
}

/// Changes what comes before a relationship whose record is at hand, where there is one.
#[tactic(auto, unfolding(crate::specs::Unlinking::put_back))]
fn write_behind<S: Space>(
    space: &mut S,
    id: u32,
    node: u32,
    to: u32,
    rec: Rec,
) -> Result<(), SpaceFault>
    requires { id ≢ NIL → IsKey (rel_key id) }
    ensures ok { OnOk result (S.state space.new ≡ put_back (S.state space.old) node id to rec) }
    ensures writes { WritesOnly (S.state space.old) (S.state space.new) (rel_key id ∷ []) }
    ensures onward { S.onward space.old space.new }
    ensures cause { HasCause (S.faults space.old) (S.faults space.new) result }
{
    if id == NIL {
        return Ok(());
    }
    let mut rec = rec;
    let place = place_of(&rec, node);
    rec.set_link(place, to);
    let key = Key {
        file: RELATIONSHIPS,
        id,
    };
    space.put(key, rec)?;
    Ok(())
}

/// Changes what leads to the place of a relationship that was taken out, whose record is at hand:
/// the one before it, and the head where there is none.
#[tactic(auto, unfolding(crate::specs::Unlinking::put_led))]
fn write_lead<S: Space>(
    space: &mut S,
    head: Head,
    node: u32,
    before: u32,
    after: u32,
    rec: Rec,
) -> Result<(), SpaceFault>
    requires head { IsHead (head_of head) }
    requires before { before ≢ NIL → IsKey (rel_key before) }
    ensures ok { OnOk result (S.state space.new
        ≡ put_led (S.state space.old) (head_of head) node before after rec) }
    ensures writes { WritesOnly (S.state space.old) (S.state space.new)
        (rel_key before ∷ head.key ∷ []) }
    ensures onward { S.onward space.old space.new }
    ensures cause { HasCause (S.faults space.old) (S.faults space.new) result }
{
    let mut rec = rec;
    if before == NIL {
        rec.set_number(head.field, after);
        space.put(head.key, rec)?;
        return Ok(());
    }
    let place = place_of(&rec, node);
    rec.set_link(place + 4, after);
    let key = Key {
        file: RELATIONSHIPS,
        id: before,
    };
    space.put(key, rec)?;
    Ok(())
}

/// The damage of a relationship that isn't in its chain.
fn astray_damage(rel: u32) -> Damage
    ensures { result ≡ astray_damage rel }
{
    Damage {
        file: RELATIONSHIPS,
        id: rel,
        rule: CHAIN_RULE,
    }
}
