ghost use Rattle.std.specs.Prelude.{◌≡◌, ◌∷◌, [], ℕ, List, IfErr, IfOk, OnOk};
ghost use Rattle.rec_bytes.specs.Key.{IsKey};
ghost use Rattle.rec_bytes.specs.Space.{after_get, WritesOnly};
ghost use Rattle.store_rules.specs.Rules.{first_of};
ghost use Rattle.rel_store.specs.RelRecord.{rel_key};
ghost use Rattle.rec_bytes.specs.Fault.{HasFaultCause, NotDamaged, OnDamage};
ghost use Rattle.store_rules.specs.Breaking.{IsHeadOf};
ghost use Rattle.chain_edit.specs.Breaks.{IsBreakFault};
ghost use Rattle.chain_edit.specs.Heads.{head_of, IsHead};
ghost use Rattle.chain_edit.specs.Links.{IsKnownLink, IsRightLink};
ghost use Rattle.chain_edit.specs.Pushing.{CanPush, HasPushed, IsPushFault, pushed};

use crate::Head;
use crate::links::{back, set_next, test_link};
use rec_bytes::{Damage, Fault, RANGE_RULE, Space};

/// Puts a relationship at the front of a chain of the node, and answers the one that stood first,
/// or `NIL`. The head is damaged where its link leads nowhere, and then nothing is written.
#[tactic(auto, unfolding(crate::specs::Pushing::pushed))]
pub fn push_front<S: Space>(space: &mut S, head: Head, node: u32, rel: u32) -> Result<u32, Fault>
    requires head { IsHead (head_of head) }
    requires rel { IsKey (rel_key rel) }
    ensures chains { S.tells → OnOk result ((xs : List ℕ)
        → CanPush (S.state space.old).records (head_of head) node rel xs
        → HasPushed (S.state space.old).records (S.state space.new).records (head_of head) node
        rel xs) }
    ensures ok { S.tells
        → OnOk result (S.state space.new ≡ pushed (S.state space.old) (head_of head) node rel) }
    ensures first { S.tells → IfOk result
        (λ first. first ≡ first_of (S.state space.old).records (head_of head)) }
    ensures damaged { S.tells → IfErr result (IsPushFault (S.state space.old) (head_of head)) }
    ensures breaks { S.tells → (n : ℕ)
        → IsHeadOf (S.state space.old).records (head_of head) n
        → IfErr result (IsBreakFault (S.state space.old)) }
    ensures not_damaged { S.tells
        → IsRightLink (S.state space.old) (first_of (S.state space.old).records (head_of head))
        → NotDamaged result }
    ensures known { S.tells → OnOk result
        (IsKnownLink (S.state space.old) (first_of (S.state space.old).records (head_of head))) }
    ensures unwritten { OnDamage result (S.state space.new ≡ after_get (S.state space.old)) }
    ensures neighbours { S.tells → WritesOnly (S.state space.old) (S.state space.new)
        (rel_key (first_of (S.state space.old).records (head_of head)) ∷ rel_key rel ∷ head.key
        ∷ []) }
    ensures wrote { IfOk result (λ first. WritesOnly (S.state space.old) (S.state space.new)
        (rel_key first ∷ rel_key rel ∷ head.key ∷ [])) }
    ensures writes { (first : ℕ) × WritesOnly (S.state space.old) (S.state space.new)
        (rel_key first ∷ rel_key rel ∷ head.key ∷ []) }
    ensures onward { S.onward space.old space.new }
    ensures cause { HasFaultCause (S.faults space.old) (S.faults space.new) result }
{
    let mut rec = space.get(head.key)?;
    let first = rec.number(head.field);
    let leads_nowhere = Damage {
        file: head.key.file,
        id: head.key.id,
        rule: RANGE_RULE,
    };
    test_link(space, first, leads_nowhere)?;
    back(space, first, node, rel)?;
    set_next(space, rel, node, first)?;
    rec.set_number(head.field, rel);
    space.put(head.key, rec)?;
    Ok(first)
}
