//! Buckets that an entry can be put in front of.

ghost use Rattle.std.specs.Prelude.{◌≢◌, ◌+◌, ◌≤◌, ℕ, List, IfErr, IfOk, IfSome, OnOk};
ghost use Rattle.prop_index.specs.Blaming.{BlamesBroken, IsEntryAt, NamesIndexes};
ghost use Rattle.prop_index.specs.Heads.{BeginsRight, IsBucketSought, IsOpened};
ghost use Rattle.prop_index.specs.Naming.{BlamesBucket, BlamesDefinition, BlamesIndex, BlamesOther};
ghost use Rattle.id_freelist.specs.Taking.{IsRanged};
ghost use Rattle.prop_index.specs.Reading.{damage_of};
ghost use Rattle.rec_bytes.specs.RecordFiles.{room_of};
ghost use Rattle.rec_bytes.specs.Fault.{HasFaultCause, NotDamaged};
ghost use Rattle.rec_bytes.specs.Format.{index_file};
ghost use Rattle.rec_bytes.specs.Key.{IsKey};
ghost use Rattle.rec_bytes.specs.Space.{SameButReads, meta_of};
ghost use Rattle.store_rules.specs.IndexBreaking.{AreDefinitions};
ghost use Rattle.store_rules.specs.Indexes.{AreIndexed, Entries};
ghost use Rattle.store_rules.specs.Views.{key_in};

use crate::heads::{Bucket, find_bucket};
use crate::naming::name_index;
use crate::reading::{out_of_range, record_at};
use rec_bytes::{Fault, INDEXED, NIL, Reads, Rec};

/// Finds the bucket of a hash in the index of a label and a key, and tests all that an entry in
/// front of it changes. Where the bucket is no list, the definition is named.
pub(crate) fn open_bucket<R: Reads>(
    space: &mut R,
    label: u32,
    key: u32,
    hash: u64,
) -> Result<Option<Bucket>, Fault>
    ensures found { R.tells → (wanted : Entries)
        → (ix : AreIndexed (R.state space.old).records wanted)
        → IfOk result (IsBucketSought (R.state space.old).records ix.definitions label key hash) }
    ensures opened { R.tells
        → IfOk result (λ found. IfSome found (IsOpened (R.state space.old).records)) }
    ensures not_damaged { R.tells → (wanted : Entries)
        → AreIndexed (R.state space.old).records wanted
        → IsRanged (meta_of (R.state space.old) index_file)
        (room_of (R.state space.old).shape index_file) → NotDamaged result }
    ensures named { R.tells → (ds : List ℕ) → AreDefinitions (R.state space.old).records ds
        → IfErr result (BlamesDefinition (R.state space.old)) }
    ensures damaged { R.tells → IfErr result
        (BlamesBroken (R.state space.old).records (R.state space.old).shape) }
    ensures names { R.tells → IfErr result NamesIndexes }
    ensures key { IfOk result (λ found. IfSome found
        (λ bucket. IsKey (key_in index_file bucket.slot.id))) }
    ensures place { IfOk result (λ found. IfSome found (λ bucket. bucket.slot.place + 4 ≤ 64)) }
    ensures first { IfOk result (λ found. IfSome found
        (λ bucket. bucket.first ≢ NIL → IsKey (key_in index_file bucket.first))) }
    ensures same { SameButReads (R.state space.old) (R.state space.new) }
    ensures onward { R.onward space.old space.new }
    ensures cause { HasFaultCause (R.faults space.old) (R.faults space.new) result }
{
    match tested_bucket(space, label, key, hash) {
        Ok(found) => Ok(found),
        Err(fault) => Err(name_index(space, label, key, fault)),
    }
}

/// Finds the bucket of a hash in the index of a label and a key, and tests the entry that stands
/// first.
fn tested_bucket<R: Reads>(
    space: &mut R,
    label: u32,
    key: u32,
    hash: u64,
) -> Result<Option<Bucket>, Fault>
    ensures found { R.tells → (wanted : Entries)
        → (ix : AreIndexed (R.state space.old).records wanted)
        → IfOk result (IsBucketSought (R.state space.old).records ix.definitions label key hash) }
    ensures opened { R.tells
        → IfOk result (λ found. IfSome found (IsOpened (R.state space.old).records)) }
    ensures wrong { R.tells → IfErr result (BlamesIndex (R.state space.old) label key) }
    ensures other { R.tells → IfErr result (BlamesOther (R.state space.old)) }
    ensures names { R.tells → IfErr result NamesIndexes }
    ensures key { IfOk result (λ found. IfSome found
        (λ bucket. IsKey (key_in index_file bucket.slot.id))) }
    ensures place { IfOk result (λ found. IfSome found (λ bucket. bucket.slot.place + 4 ≤ 64)) }
    ensures first { IfOk result (λ found. IfSome found
        (λ bucket. bucket.first ≢ NIL → IsKey (key_in index_file bucket.first))) }
    ensures same { SameButReads (R.state space.old) (R.state space.new) }
    ensures onward { R.onward space.old space.new }
    ensures cause { HasFaultCause (R.faults space.old) (R.faults space.new) result }
{
    let Some(bucket) = find_bucket(space, label, key, hash)? else {
        return Ok(None);
    };
    test_first(space, bucket)?;
    Ok(Some(bucket))
}

/// Tests that a bucket begins with none or with an entry.
fn test_first<R: Reads>(space: &mut R, bucket: Bucket) -> Result<(), Fault>
    ensures right { R.tells → OnOk result (BeginsRight (R.state space.old).records bucket) }
    ensures key { OnOk result (bucket.first ≢ NIL → IsKey (key_in index_file bucket.first)) }
    ensures wrong { R.tells → (d b : ℕ) → IsEntryAt (R.state space.old) d b 0 bucket.first
        (damage_of index_file bucket.slot.id 1)
        → IfErr result (BlamesBucket (R.state space.old) d b) }
    ensures same { SameButReads (R.state space.old) (R.state space.new) }
    ensures onward { R.onward space.old space.new }
    ensures cause { HasFaultCause (R.faults space.old) (R.faults space.new) result }
{
    if bucket.first == NIL {
        return Ok(());
    }
    let mut rec = Rec::ZEROS;
    let named = out_of_range(bucket.slot.id);
    record_at(space, bucket.first, INDEXED, named, &mut rec)
}
