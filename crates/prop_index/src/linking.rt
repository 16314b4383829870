//! An entry in front of a bucket.

ghost use Rattle.std.specs.Prelude.{◌≡◌, ◌≢◌, ◌+◌, ◌<◌, ◌≤◌, ℕ, List, IfErr, IfOk, OnOk};
ghost use Rattle.id_freelist.specs.ListDamage.{BlamesList};
ghost use Rattle.id_freelist.specs.TakeFault.{HasTakeCause, NotDamaged};
ghost use Rattle.prop_index.specs.Blaming.{TakeBlamesBroken as BlamesBroken};
ghost use Rattle.id_freelist.specs.Taking.{CanTake};
ghost use Rattle.prop_index.specs.Blaming.{TakeNamesIndexes};
ghost use Rattle.prop_index.specs.Unwritten.{IfTakeBlames};
ghost use Rattle.prop_index.specs.Defining.{PutsInUse};
ghost use Rattle.prop_index.specs.Entering.{IsIndexFull};
ghost use Rattle.prop_index.specs.Heads.{BeginsRight, IsHead, IsHeadPlace};
ghost use Rattle.prop_index.specs.Linking.{backed_entry, linked_entry};
ghost use Rattle.prop_index.specs.Sparing.{SparesDefinitions};
ghost use Rattle.prop_index.specs.Touching.{
  TouchesFront,
  TouchesIndex,
  front_ids,
  index_keys,
  some_id,
};
ghost use Rattle.prop_store.specs.Touching.{TouchesOnly};
ghost use Rattle.rec_bytes.specs.Format.{free_kind, heads, index_file, nodes_file};
ghost use Rattle.rec_bytes.specs.Key.{IsKey};
ghost use Rattle.rec_bytes.specs.Space.{HasCause, SameButReads, meta_of};
ghost use Rattle.store_rules.specs.IndexChange.{IsEntryMade};
ghost use Rattle.store_rules.specs.Views.{high, key_in, kind_at};
ghost use Rattle.store_rules.specs.Rules.{IsWhole};

use crate::entry_record::entry_record;
use crate::entry_row::Content;
use crate::heads::{Bucket, Slot};
use id_freelist::{TakeFault, take};
use rec_bytes::{INDEX, INDEXED_PREVIOUS, Key, NIL, Space, SpaceFault, set_number};

/// Takes an identifier for an entry, and puts the entry in front of the bucket.
pub(crate) fn put_in_front<S: Space>(
    space: &mut S,
    bucket: Bucket,
    content: Content,
) -> Result<u32, TakeFault>
    requires key { IsKey (key_in index_file bucket.slot.id) }
    requires place { bucket.slot.place + 4 ≤ 64 }
    requires first { bucket.first ≢ NIL → IsKey (key_in index_file bucket.first) }
    ensures made { S.tells → (free : List ℕ) → IsHead (S.state space.old).records bucket
        → BeginsRight (S.state space.old).records bucket
        → CanTake (S.state space.old) index_file free
        → IfOk result (λ id. IsEntryMade (S.state space.old).records (S.state space.new).records
        id bucket.slot.id bucket.slot.place content.node content.hash) }
    ensures keeps { S.tells → IsWhole (S.state space.old)
        → IsHead (S.state space.old).records bucket
        → BeginsRight (S.state space.old).records bucket → IsHeadPlace bucket.slot.place
        → content.node < high (S.state space.old).records nodes_file
        → OnOk result (IsWhole (S.state space.new)) }
    ensures counted { S.tells → OnOk result ((meta_of (S.state space.new) index_file).live
        ≡ (meta_of (S.state space.old) index_file).live + 1) }
    ensures fresh { S.tells
        → IfOk result (λ id. kind_at (S.state space.old).records index_file id ≡ free_kind) }
    ensures not_damaged { S.tells → (free : List ℕ) → CanTake (S.state space.old) index_file free
        → NotDamaged result }
    ensures full { S.tells → IfErr result (IsIndexFull (S.state space.old)) }
    ensures crowded { S.tells → IfErr result (IsIndexFull (S.state space.new)) }
    ensures names { S.tells → IfErr result TakeNamesIndexes }
    ensures damaged { S.tells → IfErr result (BlamesList (S.state space.old) index_file) }
    ensures kept { S.tells
        → kind_at (S.state space.old).records index_file bucket.slot.id ≢ free_kind
        → (bucket.first ≢ NIL
        → kind_at (S.state space.old).records index_file bucket.first ≢ free_kind)
        → 0 < bucket.slot.place
        → IfOk result (PutsInUse (S.state space.old) (S.state space.new)) }
    ensures spares { S.tells
        → kind_at (S.state space.old).records index_file bucket.slot.id ≡ heads
        → BeginsRight (S.state space.old).records bucket → 0 < bucket.slot.place
        → OnOk result (SparesDefinitions (S.state space.old) (S.state space.new)) }
    ensures damaged_after { S.tells → IfErr result
        (BlamesBroken (S.state space.new).records (S.state space.new).shape) }
    ensures unwritten { IfErr result (IfTakeBlames
        (SameButReads (S.state space.old) (S.state space.new))) }
    ensures key { IfOk result (λ id. IsKey (key_in index_file id)) }
    ensures touched { IfOk result (λ id. TouchesOnly S.tells (S.state space.old)
        (S.state space.new) (index_keys (front_ids id bucket.slot.id bucket.first))) }
    ensures touches { TouchesFront S.tells bucket.slot.id bucket.first
        (S.state space.old) (S.state space.new) }
    ensures onward { S.onward space.old space.new }
    ensures cause { HasTakeCause (S.faults space.old) (S.faults space.new) result }
{
    let id = take(space, INDEX)?;
    link(space, bucket.slot, bucket.first, id, content)?;
    Ok(id)
}

/// Writes an entry and puts it in front of the bucket, before the one that stood first.
#[tactic(auto, unfolding(crate::specs::Linking::linked_entry))]
pub(crate) fn link<S: Space>(
    space: &mut S,
    slot: Slot,
    first: u32,
    id: u32,
    content: Content,
) -> Result<(), SpaceFault>
    requires slot { IsKey (key_in index_file slot.id) }
    requires place { slot.place + 4 ≤ 64 }
    requires first { first ≢ NIL → IsKey (key_in index_file first) }
    requires id { IsKey (key_in index_file id) }
    ensures ok { S.tells → OnOk result (S.state space.new
        ≡ linked_entry (S.state space.old) slot first id content) }
    ensures touches { TouchesOnly S.tells (S.state space.old) (S.state space.new)
        (index_keys (front_ids id slot.id first)) }
    ensures onward { S.onward space.old space.new }
    ensures cause { HasCause (S.faults space.old) (S.faults space.new) result }
{
    let key = Key { file: INDEX, id };
    space.put(key, entry_record(content.node, first, content.hash))?;
    back(space, first, id)?;
    let head = Key {
        file: INDEX,
        id: slot.id,
    };
    set_number(space, head, slot.place, id)?;
    Ok(())
}

/// Changes what comes before an entry, where there is one.
#[tactic(auto, unfolding(crate::specs::Linking::backed_entry))]
pub(crate) fn back<S: Space>(space: &mut S, id: u32, to: u32) -> Result<(), SpaceFault>
    requires { id ≢ NIL → IsKey (key_in index_file id) }
    ensures ok { S.tells → OnOk result (S.state space.new
        ≡ backed_entry (S.state space.old) id to) }
    ensures keys { TouchesOnly S.tells (S.state space.old) (S.state space.new)
        (index_keys (some_id id)) }
    ensures touches { TouchesIndex S.tells 1 (S.state space.old) (S.state space.new) }
    ensures onward { S.onward space.old space.new }
    ensures cause { HasCause (S.faults space.old) (S.faults space.new) result }
{
    if id == NIL {
        return Ok(());
    }
    set_number(space, Key { file: INDEX, id }, INDEXED_PREVIOUS, to)?;
    Ok(())
}
