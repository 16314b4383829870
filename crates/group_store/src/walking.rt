ghost use Rattle.std.specs.Prelude.{◌≡◌, ℕ, List, length, IfErr, IfOk};
ghost use Rattle.rec_bytes.specs.Space.{after_gets};
ghost use Rattle.chain_edit.specs.Walking.{ReadsAtMost};
ghost use Rattle.rec_bytes.specs.Fault.{HasFaultCause, NotDamaged};
ghost use Rattle.group_store.specs.Loading.{group_mark};
ghost use Rattle.group_store.specs.Walking.{HasGroupRows, IsWalkFault, IsWalkable};

use crate::GroupRow;
use crate::group_record::row_of;
use crate::members::{chain_damage, read_member};
use node_store::NodeRow;
use rec_bytes::{Fault, GROUP_NEXT, GROUPS, NIL, Reads};
use std::alloc::Global;

/// The groups of a dense node, in the order of its chain. The node is damaged where the chain
/// doesn't end, or meets what is no group of the node.
pub fn groups<R: Reads>(alloc: Global, space: &mut R, row: &NodeRow) -> Result<Vec<GroupRow>, Fault>
    ensures rows { R.tells → IfOk result (λ rows.
        HasGroupRows (R.state space.old).records row.now.id row.now.first rows.items) }
    ensures reads { IfOk result
        (λ rows. R.state space.new ≡ after_gets (length rows.items) (R.state space.old)) }
    ensures few_reads { R.tells → (xs : List ℕ)
        → IsWalkable (R.state space.old) row.now.id row.now.first xs
        → ReadsAtMost (length xs) (R.state space.old) (R.state space.new) }
    ensures at_most { ReadsAtMost (group_mark (R.state space.old)) (R.state space.old)
        (R.state space.new) }
    ensures damaged { R.tells
        → IfErr result (IsWalkFault (R.state space.old) row.now.id row.now.first) }
    ensures not_damaged { R.tells → (xs : List ℕ)
        → IsWalkable (R.state space.old) row.now.id row.now.first xs → NotDamaged result }
    ensures onward { R.onward space.old space.new }
    ensures cause { HasFaultCause (R.faults space.old) (R.faults space.new) result }
{
    let node = row.id;
    let budget = space.meta(GROUPS).high;
    let mut rows = Vec::new(alloc);
    let mut at = row.first;
    for _ in 0..budget {
        if at == NIL {
            return Ok(rows);
        }
        let rec = read_member(space, node, at)?;
        rows.push(row_of(&rec, at))?;
        at = rec.number(GROUP_NEXT);
    }
    if at != NIL {
        return Err(Fault::Damaged(chain_damage(node)));
    }
    Ok(rows)
}
