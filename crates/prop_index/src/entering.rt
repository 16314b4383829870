//! Entries that are added.

ghost use Rattle.std.specs.Prelude.{◌≡◌, ◌≢◌, ◌+◌, ◌<◌, ◌≤◌, ℕ, List, IfErr, OnOk, false};
ghost use Rattle.id_freelist.specs.ListDamage.{BlamesList};
ghost use Rattle.id_freelist.specs.TakeFault.{HasTakeCause, NotDamaged};
ghost use Rattle.prop_index.specs.Blaming.{TakeBlamesBroken as BlamesBroken};
ghost use Rattle.id_freelist.specs.Taking.{CanTake};
ghost use Rattle.prop_index.specs.Blaming.{TakeNamesIndexes};
ghost use Rattle.prop_index.specs.Unwritten.{IfTakeBlames};
ghost use Rattle.prop_index.specs.Entering.{IsIndexFull, IsMade, IsNotFull, entry_of, of_read};
ghost use Rattle.prop_index.specs.Finding.{IsPair};
ghost use Rattle.prop_index.specs.Heads.{IsHead, IsOpened};
ghost use Rattle.prop_index.specs.Naming.{TakeBlamesDefinition};
ghost use Rattle.prop_index.specs.Sparing.{SparesDefinitions};
ghost use Rattle.prop_index.specs.Touching.{TouchesIndex};
ghost use Rattle.rec_bytes.specs.Format.{index_file, nodes_file};
ghost use Rattle.rec_bytes.specs.Key.{IsKey};
ghost use Rattle.rec_bytes.specs.Space.{SameButReads, meta_of};
ghost use Rattle.store_rules.specs.Chains.{In};
ghost use Rattle.store_rules.specs.Graph.{indexes_of};
ghost use Rattle.store_rules.specs.IndexBreaking.{AreDefinitions};
ghost use Rattle.store_rules.specs.Indexes.{AreIndexed, Entries, with_entry};
ghost use Rattle.store_rules.specs.Views.{high, key_in};
ghost use Rattle.store_rules.specs.Rules.{IsWhole};

use crate::entry_row::Content;
use crate::hashing::hash_of;
use crate::heads::Bucket;
use crate::linking::put_in_front;
use crate::opening::open_bucket;
use id_freelist::TakeFault;
use plain_graph::Value;
use rec_bytes::{Fault, NIL, Space};

/// Adds an entry of a node, with the value's hash, to the index of a label and a key. Where there
/// is no such index nothing changes.
pub fn enter<S: Space>(
    space: &mut S,
    label: u32,
    key: u32,
    node: u32,
    value: &Value,
) -> Result<(), TakeFault>
    ensures entered { S.tells → (wanted : Entries) → (free : List ℕ)
        → AreIndexed (S.state space.old).records wanted
        → CanTake (S.state space.old) index_file free
        → wanted (entry_of label key node value.now) ≡ false
        → OnOk result (AreIndexed (S.state space.new).records
        (with_entry wanted (entry_of label key node value.now))) }
    ensures keeps { S.tells → (wanted : Entries) → AreIndexed (S.state space.old).records wanted
        → IsWhole (S.state space.old) → node < high (S.state space.old).records nodes_file
        → OnOk result (IsWhole (S.state space.new)) }
    ensures not_damaged { S.tells → (wanted : Entries) → (free : List ℕ)
        → AreIndexed (S.state space.old).records wanted
        → CanTake (S.state space.old) index_file free → NotDamaged result }
    ensures graph { S.tells → (wanted : Entries) → (free : List ℕ)
        → AreIndexed (S.state space.old).records wanted
        → CanTake (S.state space.old) index_file free → OnOk result
        (indexes_of (S.state space.new).records ≡ indexes_of (S.state space.old).records) }
    ensures names { S.tells → IfErr result TakeNamesIndexes }
    ensures counted { S.tells → OnOk result ((meta_of (S.state space.new) index_file).live
        ≤ (meta_of (S.state space.old) index_file).live + 1) }
    ensures full { S.tells → IfErr result (IsIndexFull (S.state space.old)) }
    ensures crowded { S.tells → IfErr result (IsIndexFull (S.state space.new)) }
    ensures unlisted { S.tells → (wanted : Entries)
        → (ix : AreIndexed (S.state space.old).records wanted) → ((d : ℕ) → In d ix.definitions
        → ¬ IsPair (S.state space.old).records label key d) → IfErr result IsNotFull }
    ensures unchanged { S.tells → (wanted : Entries)
        → (ix : AreIndexed (S.state space.old).records wanted) → ((d : ℕ) → In d ix.definitions
        → ¬ IsPair (S.state space.old).records label key d)
        → OnOk result (SameButReads (S.state space.old) (S.state space.new)) }
    ensures damaged { S.tells → IfErr result
        (BlamesBroken (S.state space.old).records (S.state space.old).shape) }
    ensures damaged_after { S.tells → IfErr result
        (BlamesBroken (S.state space.new).records (S.state space.new).shape) }
    ensures listed { S.tells → (ds : List ℕ) → AreDefinitions (S.state space.old).records ds
        → IfErr result (TakeBlamesDefinition (S.state space.old)) }
    ensures spares { S.tells
        → OnOk result (SparesDefinitions (S.state space.old) (S.state space.new)) }
    ensures unwritten { IfErr result (IfTakeBlames
        (SameButReads (S.state space.old) (S.state space.new))) }
    ensures touches { TouchesIndex S.tells 3 (S.state space.old) (S.state space.new) }
    ensures onward { S.onward space.old space.new }
    ensures cause { HasTakeCause (S.faults space.old) (S.faults space.new) result }
{
    let hash = hash_of(value);
    let bucket = match open_bucket(space, label, key, hash) {
        Ok(Some(bucket)) => bucket,
        Ok(None) => return Ok(()),
        Err(fault) => return Err(of_read(fault)),
    };
    add_entry(space, bucket, Content { node, hash })
}

/// Puts an entry in front of a bucket.
fn add_entry<S: Space>(space: &mut S, bucket: Bucket, content: Content) -> Result<(), TakeFault>
    requires key { IsKey (key_in index_file bucket.slot.id) }
    requires place { bucket.slot.place + 4 ≤ 64 }
    requires first { bucket.first ≢ NIL → IsKey (key_in index_file bucket.first) }
    ensures made { S.tells → (free : List ℕ) → IsHead (S.state space.old).records bucket
        → CanTake (S.state space.old) index_file free
        → OnOk result (IsMade (S.state space.old).records (S.state space.new).records
        bucket content) }
    ensures keeps { S.tells → IsWhole (S.state space.old)
        → IsOpened (S.state space.old).records bucket
        → content.node < high (S.state space.old).records nodes_file
        → OnOk result (IsWhole (S.state space.new)) }
    ensures not_damaged { S.tells → (free : List ℕ) → CanTake (S.state space.old) index_file free
        → NotDamaged result }
    ensures graph { S.tells → (free : List ℕ) → IsOpened (S.state space.old).records bucket
        → CanTake (S.state space.old) index_file free → OnOk result
        (indexes_of (S.state space.new).records ≡ indexes_of (S.state space.old).records) }
    ensures names { S.tells → IfErr result TakeNamesIndexes }
    ensures counted { S.tells → OnOk result ((meta_of (S.state space.new) index_file).live
        ≡ (meta_of (S.state space.old) index_file).live + 1) }
    ensures full { S.tells → IfErr result (IsIndexFull (S.state space.old)) }
    ensures crowded { S.tells → IfErr result (IsIndexFull (S.state space.new)) }
    ensures damaged { S.tells → IfErr result (BlamesList (S.state space.old) index_file) }
    ensures damaged_after { S.tells → IfErr result
        (BlamesBroken (S.state space.new).records (S.state space.new).shape) }
    ensures spares { S.tells → IsOpened (S.state space.old).records bucket
        → OnOk result (SparesDefinitions (S.state space.old) (S.state space.new)) }
    ensures unwritten { IfErr result (IfTakeBlames
        (SameButReads (S.state space.old) (S.state space.new))) }
    ensures touches { TouchesIndex S.tells 3 (S.state space.old) (S.state space.new) }
    ensures onward { S.onward space.old space.new }
    ensures cause { HasTakeCause (S.faults space.old) (S.faults space.new) result }
{
    put_in_front(space, bucket, content)?;
    Ok(())
}

/// A fault of records that are read as one of a change.
fn of_read(fault: Fault) -> TakeFault
    ensures { result ≡ of_read fault }
{
    match fault {
        Fault::Memory => TakeFault::Memory,
        Fault::Disk => TakeFault::Disk,
        Fault::Damaged(damage) => TakeFault::Damaged(damage),
    }
}
