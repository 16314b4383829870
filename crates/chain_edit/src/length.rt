ghost use Rattle.std.specs.Prelude.{◌≡◌, ◌≤◌, ℕ, List, IfErr, IfOk, true};
ghost use Rattle.rec_bytes.specs.Space.{after_gets};
ghost use Rattle.rel_store.specs.Loading.{rel_mark, rel_room};
ghost use Rattle.rec_bytes.specs.Fault.{HasFaultCause, NotDamaged};
ghost use Rattle.store_rules.specs.Breaking.{IsChainHead};
ghost use Rattle.store_rules.specs.Rules.{Head, StandsAt, first_of};
ghost use Rattle.store_rules.specs.Views.{group_at, rel_at};
ghost use Rattle.chain_edit.specs.Breaks.{IsBreakFault};
ghost use Rattle.chain_edit.specs.Length.{HasCounted, IsLengthFault, IsMemberChain, stands};
ghost use Rattle.chain_edit.specs.Walking.{ReadsAtMost};

use crate::links::reach_of;
use crate::members::is_member;
use crate::walking::{chain_damage, read_next};
use crate::{Chain, Members};
use rec_bytes::{Fault, NIL, Reads, Rec};
use rel_store::{Linked, place_of};

/// How many relationships a chain has, counted up to a budget. The chain's owner is damaged where
/// the chain leads nowhere, meets one that doesn't lead back to the one before it, or one that
/// doesn't stand there.
pub fn chain_length<R: Reads>(
    space: &mut R,
    chain: &Chain,
    members: Members,
    budget: u32,
) -> Result<u32, Fault>
    ensures counted { R.tells → IfOk result (λ n. HasCounted (R.state space.old)
        chain.now.first chain.now.node members budget n) }
    ensures few { IfOk result (λ n. n ≤ budget) }
    ensures reads { IfOk result
        (λ n. R.state space.new ≡ after_gets n (R.state space.old)) }
    ensures at_most { ReadsAtMost budget (R.state space.old) (R.state space.new) }
    ensures damaged { R.tells → IfErr result (IsLengthFault (R.state space.old)
        chain.now.owner chain.now.first chain.now.node members) }
    ensures breaks { R.tells → (head : Head) → head.key ≡ chain.now.owner
        → chain.now.first ≡ first_of (R.state space.old).records head
        → IsChainHead (R.state space.old).records head chain.now.node
        → ((x : ℕ) → StandsAt (rel_at (R.state space.old).records)
        (group_at (R.state space.old).records) head x
        → stands (R.state space.old).records chain.now.node members x ≡ true)
        → IfErr result (IsBreakFault (R.state space.old)) }
    ensures not_damaged { R.tells → rel_mark (R.state space.old) ≤ rel_room (R.state space.old)
        → (xs : List ℕ)
        → IsMemberChain (R.state space.old) chain.now.first chain.now.node members xs
        → NotDamaged result }
    ensures onward { R.onward space.old space.new }
    ensures cause { HasFaultCause (R.faults space.old) (R.faults space.new) result }
{
    let mut before = NIL;
    let mut at = chain.first;
    let mut rec = Rec::ZEROS;
    let reach = reach_of(space);
    for count in 0..budget {
        if at == NIL {
            return Ok(count);
        }
        read_next(space, reach, chain, before, at, &mut rec)?;
        if !is_member(&rec, chain.node, members) {
            return Err(Fault::Damaged(chain_damage(chain.owner)));
        }
        before = at;
        at = rec.link(place_of(&rec, chain.node) + 4);
    }
    Ok(budget)
}
