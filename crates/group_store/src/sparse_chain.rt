//! The chain of a sparse node, which is tested before its relationships come into groups.

ghost use Rattle.std.specs.Prelude.{◌≡◌, ◌≤◌, ◌||◌, ℕ, List, length, nat_eq, IfErr, IfOk, OnOk};
ghost use Rattle.rec_bytes.specs.Fault.{HasFaultCause, NotDamaged};
ghost use Rattle.rec_bytes.specs.Space.{SameButReads};
ghost use Rattle.store_rules.specs.Breaking.{IsHeadChain};
ghost use Rattle.store_rules.specs.Rules.{node_head};
ghost use Rattle.store_rules.specs.Views.{first_link};
ghost use Rattle.group_store.specs.SparseChain.{AreReadable, HasChain, IsSparseFault, IsStep};
ghost use Rattle.group_store.specs.SparseChain.{IsStepFault};
ghost use Rattle.group_store.specs.Spreading.{rels_damage};

use crate::raising::degree_damage;
use rec_bytes::{CHAIN_RULE, Damage, Fault, NIL, NODES, Reads};
use rel_store::{RelRow, end_links};

/// Reads the relationships of a sparse node of this degree, from its first one on. The node is
/// damaged where they aren't a chain of relationships in use at it, linked both ways, or are more
/// than its degree says. It reads one more than that at most.
pub(crate) fn test_chain<R: Reads>(
    space: &mut R,
    node: u32,
    first: u32,
    degree: u32,
) -> Result<(), Fault>
    ensures damaged { R.tells → first ≡ first_link (R.state space.old).records node
        → IfErr result (IsSparseFault (R.state space.old) node degree) }
    ensures not_damaged { R.tells → first ≡ first_link (R.state space.old).records node
        → (members : List ℕ)
        → IsHeadChain (R.state space.old).records (node_head node) node members
        → AreReadable (R.state space.old) members → length members ≤ degree → NotDamaged result }
    ensures chain { R.tells
        → OnOk result (HasChain (R.state space.old).records node first degree) }
    ensures state { SameButReads (R.state space.old) (R.state space.new) }
    ensures onward { R.onward space.old space.new }
    ensures cause { HasFaultCause (R.faults space.old) (R.faults space.new) result }
{
    let mut before = NIL;
    let mut at = first;
    for _ in 0..degree {
        if at == NIL {
            return Ok(());
        }
        let next = meet(space, node, before, at)?;
        before = at;
        at = next;
    }
    if at == NIL {
        return Ok(());
    }
    meet(space, node, before, at)?;
    Err(Fault::Damaged(degree_damage(node)))
}

/// Reads a relationship of a node's chain, before which this one comes, and answers the next one.
fn meet<R: Reads>(space: &mut R, node: u32, before: u32, at: u32) -> Result<u32, Fault>
    ensures met { R.tells → IfOk result (IsStep (R.state space.old).records node before at) }
    ensures damaged { R.tells → IfErr result (IsStepFault (R.state space.old) node before at) }
    ensures state { SameButReads (R.state space.old) (R.state space.new) }
    ensures onward { R.onward space.old space.new }
    ensures cause { HasFaultCause (R.faults space.old) (R.faults space.new) result }
{
    let Some(row) = rel_store::load(space, at)? else {
        return Err(Fault::Damaged(rels_damage(node)));
    };
    if !is_at(&row, node) {
        return Err(Fault::Damaged(rels_damage(node)));
    }
    let links = end_links(&row, node);
    if links.0 != before {
        return Err(Fault::Damaged(rels_damage(node)));
    }
    Ok(links.1)
}

/// Whether the node is an end of the relationship.
fn is_at(row: &RelRow, node: u32) -> bool
    ensures { result ≡ (nat_eq row.now.from node || nat_eq row.now.to node) }
{
    row.from == node || row.to == node
}

/// The damage of a node whose relationships break their rule.
pub(crate) fn rels_damage(node: u32) -> Damage
    ensures { result ≡ rels_damage node }
{
    Damage {
        file: NODES,
        id: node,
        rule: CHAIN_RULE,
    }
}
