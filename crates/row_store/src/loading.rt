ghost use Rattle.std.specs.Prelude.{◌≡◌, IfErr, IfOk, IfSome, OnOk};
ghost use Rattle.rec_bytes.specs.Key.{IsKey};
ghost use Rattle.rec_bytes.specs.RowFault.{HasRowCause, NotDamaged};
ghost use Rattle.store_rules.specs.Views.{key_in};
ghost use Rattle.row_store.specs.Loading.{
  after_load,
  read_row,
  row_at,
  IsKnown,
  IsReadable,
  IsRowFault,
};

use crate::Row;
use rec_bytes::{Damage, FREE, KIND, Key, META, RANGE_RULE, Reads, Rec, RowFault, room_of};

/// Reads the row of an identifier. It is none where the identifier isn't live. A record of an
/// unknown kind is damaged, and so is the file's meta record where it counts the identifier and
/// there is no room for it.
#[tactic(auto, unfolding(store_rules::specs::Views::kind_in))]
pub fn load<T: Row, R: Reads>(space: &mut R, id: u32) -> Result<Option<T>, RowFault>
    ensures found { R.tells → IfOk result
        (λ row. row ≡ row_at T.Row (R.state space.old).records id) }
    ensures damaged { R.tells → IfErr result (IsRowFault T.FILE (R.state space.old) id) }
    ensures known { R.tells → OnOk result (IsKnown T.FILE (R.state space.old) id) }
    ensures not_damaged { R.tells → IsReadable T.FILE (R.state space.old) id → NotDamaged result }
    ensures key { IfOk result (λ row. IfSome row (λ _. IsKey (key_in T.FILE id))) }
    ensures state { R.state space.new ≡ after_load T.FILE (R.state space.old) id }
    ensures onward { R.onward space.old space.new }
    ensures cause { HasRowCause (R.faults space.old) (R.faults space.new) result }
{
    let file = T::FILE;
    if id >= space.meta(file).high {
        return Ok(None);
    }
    // A damaged mark may be so high that no record has the identifier.
    if id as u64 >= room_of(file, space.shape()) {
        return Err(RowFault::Damaged(Damage {
            file: META,
            id: file as u32,
            rule: RANGE_RULE,
        }));
    }
    let mut rec = Rec::ZEROS;
    match space.get_into(Key { file, id }, &mut rec) {
        Ok(()) => read_row::<T>(&rec, id),
        Err(_) => Err(RowFault::Disk),
    }
}

/// The row of a record, by its kind: none where it is free.
fn read_row<T: Row>(rec: &Rec, id: u32) -> Result<Option<T>, RowFault>
    ensures { result ≡ read_row T.Row rec.now id }
{
    let kind = rec.byte(KIND);
    if kind == FREE {
        Ok(None)
    } else if T::is_kind(kind) {
        Ok(Some(T::of(rec, id)))
    } else {
        Err(RowFault::Damaged(Damage {
            file: T::FILE,
            id,
            rule: RANGE_RULE,
        }))
    }
}
