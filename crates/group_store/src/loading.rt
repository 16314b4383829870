ghost use Rattle.std.specs.Prelude.{◌≡◌, IfErr, IfOk, IfSome, OnOk};
ghost use Rattle.rec_bytes.specs.Key.{IsKey};
ghost use Rattle.rec_bytes.specs.RowFault.{HasRowCause, NotDamaged};
ghost use Rattle.group_store.specs.Loading.{after_load, row_at, IsKnown, IsReadable, IsRowFault};
ghost use Rattle.group_store.specs.GroupRecord.{group_key};

use crate::GroupRow;
use crate::group_record::read_row;
use rec_bytes::{Damage, GROUPS, Key, META, RANGE_RULE, Reads, Rec, RowFault, room_of};

/// Reads the group of an identifier. It is none where the identifier isn't live. A record of
/// an unknown kind is damaged, and so is the meta record of the groups where it counts the
/// identifier and there is no room for it.
#[tactic(auto, unfolding(store_rules::specs::Views::kind_in))]
pub fn load<R: Reads>(space: &mut R, id: u32) -> Result<Option<GroupRow>, RowFault>
    ensures found { R.tells → IfOk result (λ row. row ≡ row_at (R.state space.old).records id) }
    ensures damaged { R.tells → IfErr result (IsRowFault (R.state space.old) id) }
    ensures known { R.tells → OnOk result (IsKnown (R.state space.old) id) }
    ensures not_damaged { R.tells → IsReadable (R.state space.old) id → NotDamaged result }
    ensures key { IfOk result (λ row. IfSome row (λ _. IsKey (group_key id))) }
    ensures state { R.state space.new ≡ after_load (R.state space.old) id }
    ensures onward { R.onward space.old space.new }
    ensures cause { HasRowCause (R.faults space.old) (R.faults space.new) result }
{
    if id >= space.meta(GROUPS).high {
        return Ok(None);
    }
    // A damaged mark may be so high that no record has the identifier.
    if id as u64 >= room_of(GROUPS, space.shape()) {
        return Err(RowFault::Damaged(Damage {
            file: META,
            id: GROUPS as u32,
            rule: RANGE_RULE,
        }));
    }
    let mut rec = Rec::ZEROS;
    match space.get_into(Key { file: GROUPS, id }, &mut rec) {
        Ok(()) => read_row(&rec, id),
        Err(_) => Err(RowFault::Disk),
    }
}
