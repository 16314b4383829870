//! The first entries of buckets.

ghost use Rattle.std.specs.Prelude.{◌≡◌, ◌<◌, ◌≤◌, ◌+◌, ◌/◌, IfErr, IfNone, IfOk, IfSome};
ghost use Rattle.std.specs.Prelude.{length};
ghost use Rattle.prop_index.specs.Blaming.{NamesIndexes};
ghost use Rattle.prop_index.specs.Finding.{AreOfOthers, LeadsToNone};
ghost use Rattle.prop_index.specs.Heads.{IfBucketMet, IsBucketOf, IsBucketSought, IsSlotOf};
ghost use Rattle.prop_index.specs.Naming.{BlamesHead, BlamesIndex};
ghost use Rattle.prop_index.specs.Blaming.{BlamesBroken};
ghost use Rattle.prop_store.specs.Reading.{ReadsAtMost};
ghost use Rattle.rec_bytes.specs.Fault.{HasFaultCause};
ghost use Rattle.rec_bytes.specs.Format as format;
ghost use Rattle.rec_bytes.specs.Key.{IsKey};
ghost use Rattle.store_rules.specs.Hashes.{bucket_of};
ghost use Rattle.store_rules.specs.IndexBreaking.{LeadsToDefinition};
ghost use Rattle.store_rules.specs.Indexes.{AreIndexed, Entries, heads_of, index_rec};
ghost use Rattle.store_rules.specs.Views.{key_in, kind_at};

use crate::finding::{Definition, find_definition};
use crate::hashing::bucket_of;
use crate::reading::{out_of_range, record_at};
use rec_bytes::{DEFINITION_HEADS, Fault, HEADS, HEADS_COUNT, HEADS_FIRST, Reads, Rec};

/// The place of a first entry: a record of heads, and the place in it.
#[derive(Clone, Copy)]
pub(crate) struct Slot {
    pub id: u32,
    pub place: u8,
}

/// A bucket: where its first entry is named, and that entry, or `NIL`.
#[derive(Clone, Copy)]
pub(crate) struct Bucket {
    pub slot: Slot,
    pub first: u32,
}

/// Reads a bucket of an index, by its number.
pub(crate) fn read_bucket<R: Reads>(
    space: &mut R,
    definition: &Definition,
    number: u64,
) -> Result<Bucket, Fault>
    requires { number < 180 }
    ensures is { R.tells → definition.now.rec
        ≡ index_rec (R.state space.old).records definition.now.id
        → IfOk result (IsBucketOf (R.state space.old).records definition.now.id number) }
    ensures key { IfOk result (λ bucket. IsKey (key_in format.index_file bucket.slot.id)) }
    ensures place { IfOk result (λ bucket. bucket.slot.place + 4 ≤ 64) }
    ensures wrong { R.tells → definition.now.rec
        ≡ index_rec (R.state space.old).records definition.now.id
        → IfErr result (BlamesHead (R.state space.old) definition.now.id (number / 15)) }
    ensures damaged { R.tells → definition.now.rec
        ≡ index_rec (R.state space.old).records definition.now.id
        → LeadsToDefinition (R.state space.old).records definition.now.id
        → kind_at (R.state space.old).records format.index_file definition.now.id
        ≡ format.definition → IfErr result
        (BlamesBroken (R.state space.old).records (R.state space.old).shape) }
    ensures names { R.tells → IfErr result NamesIndexes }
    ensures at_most { ReadsAtMost 1 (R.state space.old) (R.state space.new) }
    ensures onward { R.onward space.old space.new }
    ensures cause { HasFaultCause (R.faults space.old) (R.faults space.new) result }
{
    let slot = slot_of(definition, number);
    let mut rec = Rec::ZEROS;
    record_at(space, slot.id, HEADS, out_of_range(definition.id), &mut rec)?;
    Ok(Bucket {
        slot,
        first: rec.number(slot.place),
    })
}

/// Where the first entry of a bucket is named.
pub(crate) fn slot_of(definition: &Definition, number: u64) -> Slot
    requires { number < 180 }
    ensures is { IsSlotOf definition.now.rec number result }
    ensures place { result.place + 4 ≤ 64 }
{
    let record = (number / HEADS_COUNT as u64) as u8;
    let place = (number % HEADS_COUNT as u64) as u8;
    Slot {
        id: definition.rec.number(DEFINITION_HEADS + 4 * record),
        place: HEADS_FIRST + 4 * place,
    }
}

/// Finds the bucket of a hash in the index of a label and a key.
pub(crate) fn find_bucket<R: Reads>(
    space: &mut R,
    label: u32,
    key: u32,
    hash: u64,
) -> Result<Option<Bucket>, Fault>
    ensures found { R.tells → (wanted : Entries)
        → (ix : AreIndexed (R.state space.old).records wanted)
        → IfOk result (IsBucketSought (R.state space.old).records ix.definitions label key hash) }
    ensures wrong { R.tells → IfErr result (BlamesIndex (R.state space.old) label key) }
    ensures lacks { R.tells → IfOk result (λ found. IfNone found
        (LeadsToNone (R.state space.old).records label key)) }
    ensures met { R.tells → IfOk result
        (IfBucketMet (R.state space.old).records label key (bucket_of hash)) }
    ensures damaged { R.tells → IfErr result
        (BlamesBroken (R.state space.old).records (R.state space.old).shape) }
    ensures names { R.tells → IfErr result NamesIndexes }
    ensures cost { R.tells → (wanted : Entries)
        → (ix : AreIndexed (R.state space.old).records wanted)
        → ReadsAtMost (2 + length ix.definitions) (R.state space.old) (R.state space.new) }
    ensures cost_of_none { R.tells → (wanted : Entries)
        → (ix : AreIndexed (R.state space.old).records wanted)
        → AreOfOthers (R.state space.old).records ix.definitions label key
        → ReadsAtMost (1 + length ix.definitions) (R.state space.old) (R.state space.new) }
    ensures key { IfOk result (λ found. IfSome found
        (λ bucket. IsKey (key_in format.index_file bucket.slot.id))) }
    ensures place { IfOk result (λ found. IfSome found (λ bucket. bucket.slot.place + 4 ≤ 64)) }
    ensures at_most { ReadsAtMost 18 (R.state space.old) (R.state space.new) }
    ensures onward { R.onward space.old space.new }
    ensures cause { HasFaultCause (R.faults space.old) (R.faults space.new) result }
{
    let mut rec = Rec::ZEROS;
    let Some(id) = find_definition(space, label, key, &mut rec)? else {
        return Ok(None);
    };
    let definition = Definition { id, rec };
    let bucket = read_bucket(space, &definition, bucket_of(hash))?;
    Ok(Some(bucket))
}
