ghost use Rattle.std.specs.Prelude.{◌≡◌, IfErr, IfOk, IfSome, OnOk};
ghost use Rattle.rec_bytes.specs.Key.{IsKey};
ghost use Rattle.rec_bytes.specs.RowFault.{HasRowCause, NotDamaged};
ghost use Rattle.rel_store.specs.Loading.{after_load, row_at, IsKnown, IsReadable, IsRelFault};
ghost use Rattle.rel_store.specs.RelRecord.{rel_key};

use crate::RelRow;
use rec_bytes::{Reads, RowFault};

/// Reads the relationship of an identifier. It is none where the identifier isn't live. A record of
/// an unknown kind is damaged, and so is the meta record of the relationships where it counts the
/// identifier and there is no room for it.
pub fn load<R: Reads>(space: &mut R, id: u32) -> Result<Option<RelRow>, RowFault>
    ensures found { R.tells → IfOk result (λ row. row ≡ row_at (R.state space.old).records id) }
    ensures damaged { R.tells → IfErr result (IsRelFault (R.state space.old) id) }
    ensures known { R.tells → OnOk result (IsKnown (R.state space.old) id) }
    ensures not_damaged { R.tells → IsReadable (R.state space.old) id → NotDamaged result }
    ensures key { IfOk result (λ row. IfSome row (λ _. IsKey (rel_key id))) }
    ensures state { R.state space.new ≡ after_load (R.state space.old) id }
    ensures onward { R.onward space.old space.new }
    ensures cause { HasRowCause (R.faults space.old) (R.faults space.new) result }
{
    row_store::load(space, id)
}
