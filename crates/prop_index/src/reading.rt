//! Records of the index that are read.

ghost use Rattle.std.specs.Prelude.{◌≡◌, ◌≢◌, IfErr, OnOk};
ghost use Rattle.prop_index.specs.Reading.{HasRoom, IsReadFault, damage_of};
ghost use Rattle.prop_store.specs.Reading.{ReadsAtMost};
ghost use Rattle.rec_bytes.specs.Fault.{HasFaultCause, NotDamaged};
ghost use Rattle.rec_bytes.specs.Format.{index_file};
ghost use Rattle.rec_bytes.specs.Key.{IsKey};
ghost use Rattle.rec_bytes.specs.Space.{after_get};
ghost use Rattle.store_rules.specs.Indexes.{index_rec};
ghost use Rattle.store_rules.specs.Views.{key_in, kind_at};

use rec_bytes::{
    Damage, Fault, INDEX, INDEX_RULE, KIND, Key, META, RANGE_RULE, Reads, Rec, room_of,
};

/// Reads a record of this kind into the caller's, so that it is not copied. Where there can be
/// none, a record that leads to it is named.
#[tactic(auto, unfolding(store_rules::specs::Views::kind_in))]
pub(crate) fn record_at<R: Reads>(
    space: &mut R,
    id: u32,
    kind: u8,
    named: Damage,
    rec: &mut Rec,
) -> Result<(), Fault>
    requires { kind ≢ 0 }
    ensures key { OnOk result (IsKey (key_in index_file id)) }
    ensures got { R.tells
        → OnOk result (rec.new ≡ index_rec (R.state space.old).records id) }
    ensures used { R.tells
        → OnOk result (kind_at (R.state space.old).records index_file id ≡ kind) }
    ensures not_damaged { R.tells → HasRoom (R.state space.old) index_file
        → kind_at (R.state space.old).records index_file id ≡ kind → NotDamaged result }
    ensures damaged { R.tells → IfErr result (IsReadFault (R.state space.old) id kind named) }
    ensures state { OnOk result (R.state space.new ≡ after_get (R.state space.old)) }
    ensures at_most { ReadsAtMost 1 (R.state space.old) (R.state space.new) }
    ensures onward { R.onward space.old space.new }
    ensures cause { HasFaultCause (R.faults space.old) (R.faults space.new) result }
{
    if id >= space.meta(INDEX).high {
        return Err(Fault::Damaged(named));
    }
    // A damaged mark may be so high that no record has the identifier.
    if id as u64 >= room_of(INDEX, space.shape()) {
        return Err(damaged(META, INDEX as u32, RANGE_RULE));
    }
    space.get_into(Key { file: INDEX, id }, rec)?;
    if rec.byte(KIND) != kind {
        return Err(damaged(INDEX, id, INDEX_RULE));
    }
    Ok(())
}

/// The record of the identifier breaks the rule.
pub(crate) fn damaged(file: u8, id: u32, rule: u8) -> Fault
    ensures { result ≡ Fault.Damaged (damage_of file id rule) }
{
    Fault::Damaged(Damage { file, id, rule })
}

/// A number in the record of the index can't stand there.
pub(crate) fn out_of_range(id: u32) -> Damage
    ensures { result ≡ damage_of index_file id RANGE_RULE }
{
    Damage {
        file: INDEX,
        id,
        rule: RANGE_RULE,
    }
}
