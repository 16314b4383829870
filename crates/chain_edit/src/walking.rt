ghost use Rattle.std.specs.Prelude.{◌≡◌, ◌≢◌, ◌≤◌, ℕ, List, length, IfErr, IfOk, OnOk};
ghost use Rattle.rec_bytes.specs.Format.{relationships_file};
ghost use Rattle.rec_bytes.specs.Key.{IsKey};
ghost use Rattle.rec_bytes.specs.Space.{after_get, after_gets};
ghost use Rattle.rel_store.specs.Loading.{rel_mark, rel_room};
ghost use Rattle.rel_store.specs.RelRecord.{rel_key};
ghost use Rattle.rec_bytes.specs.Fault.{HasFaultCause, NotDamaged};
ghost use Rattle.store_rules.specs.Breaking.{IsChainHead};
ghost use Rattle.store_rules.specs.Rules.{Head, first_of};
ghost use Rattle.store_rules.specs.Views.{rec_at};
ghost use Rattle.chain_edit.specs.Breaks.{IsBreakFault};
ghost use Rattle.chain_edit.specs.Chains.{prev_of};
ghost use Rattle.chain_edit.specs.Links.{IsKnownLink};
ghost use Rattle.chain_edit.specs.Reach.{IsReach};
ghost use Rattle.chain_edit.specs.Walking.{HasWalked, IsSoundWalk, IsStepFault, IsWalkFault};
ghost use Rattle.chain_edit.specs.Walking.{ReadsAtMost, chain_damage};

use crate::Chain;
use crate::links::{Reach, reach_of, test_within};
use rec_bytes::{CHAIN_RULE, Damage, Fault, Key, NIL, RELATIONSHIPS, Reads, Rec};
use rel_store::{EdgeRow, Linked, place_of};
use std::alloc::Global;

/// The relationships of a chain, in order. Its owner is damaged where the chain has more than so
/// many, leads nowhere, or meets one that doesn't lead back to the one before it.
pub fn walk<R: Reads>(
    alloc: Global,
    space: &mut R,
    chain: &Chain,
    budget: u32,
) -> Result<Vec<EdgeRow>, Fault>
    ensures rows { R.tells → IfOk result (λ rows.
        HasWalked (R.state space.old) chain.now.first chain.now.node budget rows.items) }
    ensures reads { IfOk result
        (λ rows. R.state space.new ≡ after_gets (length rows.items) (R.state space.old)) }
    ensures at_most { ReadsAtMost budget (R.state space.old) (R.state space.new) }
    ensures few_reads { R.tells → (xs : List ℕ)
        → IsSoundWalk (R.state space.old) chain.now.first chain.now.node budget xs
        → ReadsAtMost (length xs) (R.state space.old) (R.state space.new) }
    ensures damaged { R.tells → IfErr result
        (IsWalkFault (R.state space.old) chain.now.owner chain.now.first chain.now.node budget) }
    ensures breaks { R.tells → (head : Head) → head.key ≡ chain.now.owner
        → chain.now.first ≡ first_of (R.state space.old).records head
        → IsChainHead (R.state space.old).records head chain.now.node
        → rel_mark (R.state space.old) ≤ budget
        → IfErr result (IsBreakFault (R.state space.old)) }
    ensures not_damaged { R.tells → rel_mark (R.state space.old) ≤ rel_room (R.state space.old)
        → (xs : List ℕ)
        → IsSoundWalk (R.state space.old) chain.now.first chain.now.node budget xs
        → NotDamaged result }
    ensures onward { R.onward space.old space.new }
    ensures cause { HasFaultCause (R.faults space.old) (R.faults space.new) result }
{
    let mut rows = Vec::new(alloc);
    let mut before = NIL;
    let mut at = chain.first;
    let mut rec = Rec::ZEROS;
    let reach = reach_of(space);
    for _ in 0..budget {
        if at == NIL {
            return Ok(rows);
        }
        read_next(space, reach, chain, before, at, &mut rec)?;
        rows.push(EdgeRow::of(&rec, at))?;
        before = at;
        at = rec.link(place_of(&rec, chain.node) + 4);
    }
    if at != NIL {
        return Err(Fault::Damaged(chain_damage(chain.owner)));
    }
    Ok(rows)
}

/// Reads the record of a relationship that a chain leads to from the one before, or, where that is
/// `NIL`, first, into the caller's. A chain that runs into itself or into another one ends here,
/// since what it meets leads back elsewhere.
pub(crate) fn read_next<R: Reads>(
    space: &mut R,
    reach: Reach,
    chain: &Chain,
    before: u32,
    at: u32,
    rec: &mut Rec,
) -> Result<(), Fault>
    requires some { at ≢ NIL }
    requires reach { IsReach (R.state space.old) reach }
    ensures got { R.tells
        → OnOk result (rec.new ≡ rec_at (R.state space.old).records relationships_file at) }
    ensures known { OnOk result (IsKnownLink (R.state space.old) at) }
    ensures key { OnOk result (IsKey (rel_key at)) }
    ensures back { R.tells
        → OnOk result (prev_of (R.state space.old).records chain.now.node at ≡ before) }
    ensures state { OnOk result (R.state space.new ≡ after_get (R.state space.old)) }
    ensures at_most { ReadsAtMost 1 (R.state space.old) (R.state space.new) }
    ensures damaged { R.tells → IfErr result
        (IsStepFault (R.state space.old) chain.now.owner chain.now.node before at) }
    ensures onward { R.onward space.old space.new }
    ensures cause { HasFaultCause (R.faults space.old) (R.faults space.new) result }
{
    test_within(space, reach, at, chain_damage(chain.owner))?;
    space.get_into(
        Key {
            file: RELATIONSHIPS,
            id: at,
        },
        rec,
    )?;
    if rec.link(place_of(rec, chain.node)) != before {
        return Err(Fault::Damaged(chain_damage(chain.owner)));
    }
    Ok(())
}

/// The damage of a record whose chain is broken.
pub(crate) fn chain_damage(owner: Key) -> Damage
    ensures { result ≡ chain_damage owner }
{
    Damage {
        file: owner.file,
        id: owner.id,
        rule: CHAIN_RULE,
    }
}
