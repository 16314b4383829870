//! Entries that are taken out.

ghost use Rattle.std.specs.Prelude.{◌≡◌, ◌≢◌, ◌↔◌, ◌+◌, ◌-◌, ◌≤◌, ℕ, List, IfErr, IfOk, IfSome};
ghost use Rattle.std.specs.Prelude.{IsTrue, OnOk, false, true};
ghost use Rattle.id_freelist.specs.Taking.{CanTake};
ghost use Rattle.prop_index.specs.Blaming.{IsEntryAt, IsOfIndexes, NamesIndexes};
ghost use Rattle.prop_index.specs.Entering.{entry_of};
ghost use Rattle.prop_index.specs.Finding.{IsPair};
ghost use Rattle.prop_index.specs.Gathering.{AreEntries};
ghost use Rattle.prop_index.specs.Heads.{IsHead, IsHeadPlace};
ghost use Rattle.prop_index.specs.Leaving.{IsBetween, IsBucketChain, IsDropped, IsEntryRow};
ghost use Rattle.prop_index.specs.Leaving.{IsEntrySought, IsLedTo, IsNoneOf, SaysContent};
ghost use Rattle.prop_index.specs.Naming.{BlamesBucket, BlamesDefinition, BlamesIndex};
ghost use Rattle.prop_index.specs.Naming.{BlamesMark, BlamesOther};
ghost use Rattle.prop_index.specs.Reading.{damage_of};
ghost use Rattle.prop_index.specs.Sparing.{SparesDefinitions};
ghost use Rattle.prop_index.specs.Touching.{TouchesIndex};
ghost use Rattle.prop_index.specs.Blaming.{BlamesBroken};
ghost use Rattle.rec_bytes.specs.Fault.{HasFaultCause, NotDamaged, OnDamage};
ghost use Rattle.rec_bytes.specs.Format.{index_file, indexed};
ghost use Rattle.rec_bytes.specs.Key.{IsKey};
ghost use Rattle.rec_bytes.specs.Meta.{IsLinkBelow};
ghost use Rattle.rec_bytes.specs.Record.{field};
ghost use Rattle.rec_bytes.specs.Space.{SameButReads, meta_of};
ghost use Rattle.store_rules.specs.Chains.{In};
ghost use Rattle.store_rules.specs.Graph.{indexes_of};
ghost use Rattle.store_rules.specs.IndexBreaking.{AreDefinitions, LeadsToEntry};
ghost use Rattle.store_rules.specs.Indexes.{AreIndexed, Entries, next_entry};
ghost use Rattle.store_rules.specs.Indexes.{previous_entry, without_entry};
ghost use Rattle.store_rules.specs.Views.{key_in, kind_at};
ghost use Rattle.store_rules.specs.Rules.{IsWhole};

use crate::entry_row::{Content, EntryRow};
use crate::hashing::hash_of;
use crate::heads::{Bucket, find_bucket};
use crate::naming::name_index;
use crate::reading::{damaged, out_of_range, record_at};
use crate::unlinking::unlink;
use plain_graph::Value;
use rec_bytes::{
    Damage, Fault, INDEX, INDEX_RULE, INDEXED, INDEXED_HASH, INDEXED_NEXT, INDEXED_NODE,
    INDEXED_PREVIOUS, META, NIL, RANGE_RULE, Reads, Rec, Space,
};

/// Takes the entry of a node with the value's hash out of the index of a label and a key. Where
/// there is no such index, or no such entry in it, nothing changes.
pub fn leave<S: Space>(
    space: &mut S,
    label: u32,
    key: u32,
    node: u32,
    value: &Value,
) -> Result<(), Fault>
    ensures left { S.tells → (wanted : Entries) → (free : List ℕ)
        → AreIndexed (S.state space.old).records wanted
        → CanTake (S.state space.old) index_file free
        → OnOk result (AreIndexed (S.state space.new).records
        (without_entry wanted (entry_of label key node value.now))) }
    ensures keeps { S.tells → (wanted : Entries) → AreIndexed (S.state space.old).records wanted
        → IsWhole (S.state space.old) → OnOk result (IsWhole (S.state space.new)) }
    ensures not_damaged { S.tells → (wanted : Entries) → (free : List ℕ)
        → AreIndexed (S.state space.old).records wanted
        → CanTake (S.state space.old) index_file free → NotDamaged result }
    ensures graph { S.tells → (wanted : Entries) → (free : List ℕ)
        → AreIndexed (S.state space.old).records wanted
        → CanTake (S.state space.old) index_file free → OnOk result
        (indexes_of (S.state space.new).records ≡ indexes_of (S.state space.old).records) }
    ensures names { S.tells → IfErr result NamesIndexes }
    ensures counted { S.tells → OnOk result ((meta_of (S.state space.new) index_file).live
        ≤ (meta_of (S.state space.old) index_file).live) }
    ensures kept { S.tells → OnOk result ((meta_of (S.state space.old) index_file).live
        ≤ (meta_of (S.state space.new) index_file).live + 1) }
    ensures unlisted { S.tells → (wanted : Entries)
        → (ix : AreIndexed (S.state space.old).records wanted) → ((d : ℕ) → In d ix.definitions
        → ¬ IsPair (S.state space.old).records label key d)
        → OnOk result (SameButReads (S.state space.old) (S.state space.new)) }
    ensures absent { S.tells → (wanted : Entries) → AreIndexed (S.state space.old).records wanted
        → wanted (entry_of label key node value.now) ≡ false
        → OnOk result (SameButReads (S.state space.old) (S.state space.new)) }
    ensures gone { S.tells → (wanted : Entries)
        → (ix : AreIndexed (S.state space.old).records wanted) → (d : ℕ) → In d ix.definitions
        → IsPair (S.state space.old).records label key d
        → wanted (entry_of label key node value.now) ≡ true
        → OnOk result ((meta_of (S.state space.new) index_file).live
        ≡ (meta_of (S.state space.old) index_file).live - 1) }
    ensures damaged { S.tells → IfErr result
        (BlamesBroken (S.state space.old).records (S.state space.old).shape) }
    ensures damaged_after { S.tells → IfErr result
        (BlamesBroken (S.state space.new).records (S.state space.new).shape) }
    ensures listed { S.tells → (ds : List ℕ) → AreDefinitions (S.state space.old).records ds
        → IfErr result (BlamesDefinition (S.state space.old)) }
    ensures spares { S.tells
        → OnOk result (SparesDefinitions (S.state space.old) (S.state space.new)) }
    ensures unwritten { OnDamage result (SameButReads (S.state space.old) (S.state space.new)) }
    ensures touches { TouchesIndex S.tells 3 (S.state space.old) (S.state space.new) }
    ensures onward { S.onward space.old space.new }
    ensures cause { HasFaultCause (S.faults space.old) (S.faults space.new) result }
{
    match leave_bucket(space, label, key, node, value) {
        Ok(()) => Ok(()),
        Err(fault) => Err(name_index(space, label, key, fault)),
    }
}

/// Takes the entry out, and names a record of the bucket where this is no list.
fn leave_bucket<S: Space>(
    space: &mut S,
    label: u32,
    key: u32,
    node: u32,
    value: &Value,
) -> Result<(), Fault>
    ensures left { S.tells → (wanted : Entries) → (free : List ℕ)
        → AreIndexed (S.state space.old).records wanted
        → CanTake (S.state space.old) index_file free
        → OnOk result (AreIndexed (S.state space.new).records
        (without_entry wanted (entry_of label key node value.now))) }
    ensures keeps { S.tells → (wanted : Entries) → AreIndexed (S.state space.old).records wanted
        → IsWhole (S.state space.old) → OnOk result (IsWhole (S.state space.new)) }
    ensures graph { S.tells → (wanted : Entries) → (free : List ℕ)
        → AreIndexed (S.state space.old).records wanted
        → CanTake (S.state space.old) index_file free → OnOk result
        (indexes_of (S.state space.new).records ≡ indexes_of (S.state space.old).records) }
    ensures names { S.tells → IfErr result NamesIndexes }
    ensures counted { S.tells → OnOk result ((meta_of (S.state space.new) index_file).live
        ≤ (meta_of (S.state space.old) index_file).live) }
    ensures kept { S.tells → OnOk result ((meta_of (S.state space.old) index_file).live
        ≤ (meta_of (S.state space.new) index_file).live + 1) }
    ensures unlisted { S.tells → (wanted : Entries)
        → (ix : AreIndexed (S.state space.old).records wanted) → ((d : ℕ) → In d ix.definitions
        → ¬ IsPair (S.state space.old).records label key d)
        → OnOk result (SameButReads (S.state space.old) (S.state space.new)) }
    ensures absent { S.tells → (wanted : Entries) → AreIndexed (S.state space.old).records wanted
        → wanted (entry_of label key node value.now) ≡ false
        → OnOk result (SameButReads (S.state space.old) (S.state space.new)) }
    ensures gone { S.tells → (wanted : Entries)
        → (ix : AreIndexed (S.state space.old).records wanted) → (d : ℕ) → In d ix.definitions
        → IsPair (S.state space.old).records label key d
        → wanted (entry_of label key node value.now) ≡ true
        → OnOk result ((meta_of (S.state space.new) index_file).live
        ≡ (meta_of (S.state space.old) index_file).live - 1) }
    ensures wrong { S.tells → IfErr result (BlamesIndex (S.state space.old) label key) }
    ensures other { S.tells → IfErr result (BlamesOther (S.state space.old)) }
    ensures spares { S.tells
        → OnOk result (SparesDefinitions (S.state space.old) (S.state space.new)) }
    ensures unwritten { OnDamage result (SameButReads (S.state space.old) (S.state space.new)) }
    ensures touches { TouchesIndex S.tells 3 (S.state space.old) (S.state space.new) }
    ensures onward { S.onward space.old space.new }
    ensures cause { HasFaultCause (S.faults space.old) (S.faults space.new) result }
{
    let hash = hash_of(value);
    let Some(bucket) = find_bucket(space, label, key, hash)? else {
        return Ok(());
    };
    drop_entry(space, bucket, Content { node, hash })
}

/// Takes the entry that says this out of a bucket, where one does.
fn drop_entry<S: Space>(space: &mut S, bucket: Bucket, content: Content) -> Result<(), Fault>
    requires key { IsKey (key_in index_file bucket.slot.id) }
    requires place { bucket.slot.place + 4 ≤ 64 }
    ensures dropped { S.tells → (xs free : List ℕ) → IsHead (S.state space.old).records bucket
        → IsBucketChain (S.state space.old).records bucket.first xs
        → CanTake (S.state space.old) index_file free
        → OnOk result (IsDropped (S.state space.old).records (S.state space.new).records
        xs bucket.slot content) }
    ensures keeps { S.tells → (xs : List ℕ) → IsHead (S.state space.old).records bucket
        → IsBucketChain (S.state space.old).records bucket.first xs
        → IsHeadPlace bucket.slot.place → IsWhole (S.state space.old)
        → OnOk result (IsWhole (S.state space.new)) }
    ensures graph { S.tells → (xs free : List ℕ) → IsHead (S.state space.old).records bucket
        → IsBucketChain (S.state space.old).records bucket.first xs
        → IsHeadPlace bucket.slot.place → CanTake (S.state space.old) index_file free
        → OnOk result
        (indexes_of (S.state space.new).records ≡ indexes_of (S.state space.old).records) }
    ensures names { S.tells → IfErr result NamesIndexes }
    ensures counted { S.tells → OnOk result ((meta_of (S.state space.new) index_file).live
        ≤ (meta_of (S.state space.old) index_file).live) }
    ensures kept { S.tells → OnOk result ((meta_of (S.state space.old) index_file).live
        ≤ (meta_of (S.state space.new) index_file).live + 1) }
    ensures absent { S.tells → (xs : List ℕ)
        → IsBucketChain (S.state space.old).records bucket.first xs
        → IsNoneOf (S.state space.old).records xs content
        → OnOk result (SameButReads (S.state space.old) (S.state space.new)) }
    ensures gone { S.tells → (xs : List ℕ)
        → IsBucketChain (S.state space.old).records bucket.first xs → (x : ℕ) → In x xs
        → SaysContent (S.state space.old).records content x
        → OnOk result ((meta_of (S.state space.new) index_file).live
        ≡ (meta_of (S.state space.old) index_file).live - 1) }
    ensures wrong { S.tells → (d b : ℕ) → IsEntryAt (S.state space.old) d b 0 bucket.first
        (damage_of index_file bucket.slot.id 1)
        → IfErr result (BlamesBucket (S.state space.old) d b) }
    ensures spares { S.tells → (d b : ℕ) → IsEntryAt (S.state space.old) d b 0 bucket.first
        (damage_of index_file bucket.slot.id 1) → IsHead (S.state space.old).records bucket
        → IsHeadPlace bucket.slot.place
        → OnOk result (SparesDefinitions (S.state space.old) (S.state space.new)) }
    ensures unwritten { OnDamage result (SameButReads (S.state space.old) (S.state space.new)) }
    ensures touches { TouchesIndex S.tells 3 (S.state space.old) (S.state space.new) }
    ensures onward { S.onward space.old space.new }
    ensures cause { HasFaultCause (S.faults space.old) (S.faults space.new) result }
{
    let Some(row) = tested_row(space, bucket, content)? else {
        return Ok(());
    };
    let before = row.rec.number(INDEXED_PREVIOUS);
    let after = row.rec.number(INDEXED_NEXT);
    unlink(space, bucket.slot, row.id, before, after)?;
    Ok(())
}

/// Finds the entry that says this in a bucket, and tests all that is changed where it is taken out.
fn tested_row<R: Reads>(
    space: &mut R,
    bucket: Bucket,
    content: Content,
) -> Result<Option<EntryRow>, Fault>
    ensures found { R.tells → (xs : List ℕ) → AreEntries (R.state space.old) bucket.first xs
        → IfOk result (IsEntrySought (R.state space.old).records xs content) }
    ensures row { R.tells → IfOk result
        (λ found. IfSome found (IsEntryRow (R.state space.old).records)) }
    ensures between { R.tells → (d b : ℕ) → IsEntryAt (R.state space.old) d b 0 bucket.first
        (damage_of index_file bucket.slot.id 1)
        → IfOk result (λ found. IfSome found (IsBetween (R.state space.old))) }
    ensures wrong { R.tells → (d b : ℕ) → IsEntryAt (R.state space.old) d b 0 bucket.first
        (damage_of index_file bucket.slot.id 1)
        → IfErr result (BlamesBucket (R.state space.old) d b) }
    ensures names { R.tells → IfErr result NamesIndexes }
    ensures key { IfOk result (λ found. IfSome found (λ row. IsKey (key_in index_file row.id))) }
    ensures before { IfOk result (λ found. IfSome found
        (λ row. field 4 row.rec INDEXED_PREVIOUS ≢ NIL
        → IsKey (key_in index_file (field 4 row.rec INDEXED_PREVIOUS)))) }
    ensures after { IfOk result (λ found. IfSome found (λ row. field 4 row.rec INDEXED_NEXT ≢ NIL
        → IsKey (key_in index_file (field 4 row.rec INDEXED_NEXT)))) }
    ensures same { SameButReads (R.state space.old) (R.state space.new) }
    ensures onward { R.onward space.old space.new }
    ensures cause { HasFaultCause (R.faults space.old) (R.faults space.new) result }
{
    let named = out_of_range(bucket.slot.id);
    let Some(row) = find_entry(space, bucket.first, content, named)? else {
        return Ok(None);
    };
    test_free(space)?;
    let before = row.rec.number(INDEXED_PREVIOUS);
    if before != row.before {
        return Err(damaged(INDEX, row.id, INDEX_RULE));
    }
    let after = row.rec.number(INDEXED_NEXT);
    test_after(space, row.id, after)?;
    Ok(Some(row))
}

/// Tests that the first free identifier can stand in the meta record.
fn test_free<R: Reads>(space: &R) -> Result<(), Fault>
    ensures free { OnOk result (IsLinkBelow (meta_of (R.state space.now) index_file).free
        (meta_of (R.state space.now) index_file).high) }
    ensures wrong { IfErr result (BlamesMark (R.state space.now)) }
    ensures cause { HasFaultCause (R.faults space.now) (R.faults space.now) result }
{
    let meta = space.meta(INDEX);
    if meta.free != NIL && meta.free >= meta.high {
        return Err(damaged(META, INDEX as u32, RANGE_RULE));
    }
    Ok(())
}

/// Tests that what comes after an entry is none, or an entry that leads back to it.
fn test_after<R: Reads>(space: &mut R, id: u32, after: u32) -> Result<(), Fault>
    ensures key { OnOk result (after ≢ NIL → IsKey (key_in index_file after)) }
    ensures used { R.tells → OnOk result (after ≢ NIL
        → kind_at (R.state space.old).records index_file after ≡ indexed) }
    ensures back { R.tells → OnOk result (after ≢ NIL
        → previous_entry (R.state space.old).records after ≡ id) }
    ensures wrong { R.tells → (d b count : ℕ)
        → LeadsToEntry (R.state space.old).records d b count id
        → kind_at (R.state space.old).records index_file id ≡ indexed
        → next_entry (R.state space.old).records id ≡ after
        → IfErr result (BlamesBucket (R.state space.old) d b) }
    ensures names { R.tells → IfErr result NamesIndexes }
    ensures same { SameButReads (R.state space.old) (R.state space.new) }
    ensures onward { R.onward space.old space.new }
    ensures cause { HasFaultCause (R.faults space.old) (R.faults space.new) result }
{
    if after == NIL {
        return Ok(());
    }
    let mut rec = Rec::ZEROS;
    let named = out_of_range(id);
    record_at(space, after, INDEXED, named, &mut rec)?;
    let back = rec.number(INDEXED_PREVIOUS);
    if back != id {
        return Err(damaged(INDEX, after, INDEX_RULE));
    }
    Ok(())
}

/// Finds the entry of a node with a hash, in the bucket that begins at this one.
fn find_entry<R: Reads>(
    space: &mut R,
    first: u32,
    content: Content,
    named: Damage,
) -> Result<Option<EntryRow>, Fault>
    ensures found { R.tells → (xs : List ℕ) → AreEntries (R.state space.old) first xs
        → IfOk result (IsEntrySought (R.state space.old).records xs content) }
    ensures row { R.tells → IfOk result
        (λ found. IfSome found (IsEntryRow (R.state space.old).records)) }
    ensures led { R.tells → (d b : ℕ) → IsEntryAt (R.state space.old) d b 0 first named
        → IfOk result (λ found. IfSome found
        (λ row. IsLedTo (R.state space.old).records d b row.before row.id)) }
    ensures wrong { R.tells → named.file ≡ index_file → (d b : ℕ)
        → IsEntryAt (R.state space.old) d b 0 first named
        → IfErr result (BlamesBucket (R.state space.old) d b) }
    ensures apart { R.tells → IfOk result (λ found. IfSome found (λ row. row.before ≢ row.id)) }
    ensures names { R.tells → IsOfIndexes named → IfErr result NamesIndexes }
    ensures key { IfOk result (λ found. IfSome found (λ row. IsKey (key_in index_file row.id))) }
    ensures before { IfOk result (λ found. IfSome found
        (λ row. row.before ≢ NIL → IsKey (key_in index_file row.before))) }
    ensures same { SameButReads (R.state space.old) (R.state space.new) }
    ensures onward { R.onward space.old space.new }
    ensures cause { HasFaultCause (R.faults space.old) (R.faults space.new) result }
{
    let mut rec = Rec::ZEROS;
    let mut named = named;
    let mut before = NIL;
    let mut at = first;
    for _ in 0..space.meta(INDEX).high {
        if at == NIL {
            return Ok(None);
        }
        record_at(space, at, INDEXED, named, &mut rec)?;
        if is_of(&rec, content) {
            return Ok(Some(EntryRow {
                id: at,
                rec,
                before,
            }));
        }
        named = out_of_range(at);
        before = at;
        at = rec.number(INDEXED_NEXT);
    }
    if at != NIL {
        return Err(damaged(INDEX, at, INDEX_RULE));
    }
    Ok(None)
}

/// Whether the record of an entry says this.
fn is_of(rec: &Rec, content: Content) -> bool
    ensures { IsTrue result ↔ (field 4 rec.now INDEXED_NODE ≡ content.node)
        × (field 8 rec.now INDEXED_HASH ≡ content.hash) }
{
    rec.number(INDEXED_NODE) == content.node && rec.wide(INDEXED_HASH) == content.hash
}
