//! The kinds of all nodes, a byte each, read in the order of the file.

ghost use Rattle.std.specs.Prelude.{IfOk};
ghost use Rattle.rec_bytes.specs.Frame.{IsRead};
ghost use Rattle.rec_bytes.specs.Space.{HasCause};
ghost use Rattle.record_lists.specs.Deciding.{AreMarksLow};
ghost use Rattle.chain_check.specs.Kinds.{AreKinds};

use rec_bytes::{KIND, Key, NODES, Reads, SpaceFault};
use std::alloc::Global;

/// The kinds of all nodes. It reads each of them once.
pub(crate) fn node_kinds<R: Reads>(alloc: Global, space: &mut R) -> Result<Vec<u8>, SpaceFault>
    requires { AreMarksLow (R.state space.old).records }
    ensures kinds { R.tells
        → IfOk result (λ kinds. AreKinds (R.state space.old).records kinds.items) }
    ensures read { IsRead R.Reads space.old space.new }
    ensures cause { HasCause (R.faults space.old) (R.faults space.new) result }
{
    let nodes = space.meta(NODES).high;
    let Ok(mut kinds) = Vec::with_capacity(alloc, nodes as usize) else {
        return Err(SpaceFault::Memory);
    };
    for id in 0..nodes {
        let rec = space.get(Key { file: NODES, id })?;
        let Ok(()) = kinds.push(rec.byte(KIND)) else {
            return Err(SpaceFault::Memory);
        };
    }
    Ok(kinds)
}
