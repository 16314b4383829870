//! Values that are given to the keys of one element.

ghost use Rattle.std.specs.Prelude.{◌≡◌, ◌≢◌, ◌+◌, ◌<◌, ◌≤◌, List, [], ◌∷◌, None, IfErr, IfOk};
ghost use Rattle.std.specs.Prelude.{OnOk, length};
ghost use Rattle.std.specs.FinMap as maps;
ghost use Rattle.plain_graph.specs.Forms.{IsKept};
ghost use Rattle.plain_graph.specs.Properties.{blocks_of};
ghost use Rattle.store_rules.specs.Writes.{WritesAtMost, WritesBeside};
ghost use Rattle.prop_store.specs.Alone.{
  IsKnownKey,
  IsSetRefusalAlone,
  LacksKey,
  OwnsProperties,
  SetsAlone,
};
ghost use Rattle.prop_store.specs.Changing.{HasKey, IsSetRefusal, SetsValue, properties_of};
ghost use Rattle.prop_store.specs.Changing.{text_at};
ghost use Rattle.prop_store.specs.Dropping.{IsHeld};
ghost use Rattle.prop_store.specs.FileChange.{KeepsFile};
ghost use Rattle.prop_store.specs.Finding.{GivesMet, IsCrowded, IsRecordOf, LacksMet, PutsAgain};
ghost use Rattle.prop_store.specs.Owner.{IsInUse, IsOwner};
ghost use Rattle.prop_store.specs.PropertyRow.{IsReadRow, IsRow};
ghost use Rattle.prop_store.specs.SetFault.{HasSetCause, IsSetCause};
ghost use Rattle.prop_store.specs.Setting.{BlamesLists, HarmsNoLists, IsPutFault, MayLead};
ghost use Rattle.prop_store.specs.Setting.{PutsProperty, SetBlamesBroken};
ghost use Rattle.prop_store.specs.Touching.{LeavesElement, TouchesProperties};
ghost use Rattle.rec_bytes.specs.Format.{properties_file, property_key, property_next};
ghost use Rattle.rec_bytes.specs.Format.{strings_file};
ghost use Rattle.rec_bytes.specs.Record.{field};
ghost use Rattle.rec_bytes.specs.RecordFiles.{room_of};
ghost use Rattle.rec_bytes.specs.Space.{SameButReads, meta_of};
ghost use Rattle.store_rules.specs.Properties.{Property, long_text};
ghost use Rattle.store_rules.specs.Views.{rec_at};

use crate::block_writing::write_text;
use crate::finding::{Search, find};
use crate::property_record::property_record;
use crate::property_row::PropertyRow;
use crate::releasing::{release, test_free};
use crate::values::value_blocks;
use crate::{Owner, SetFault};
use id_freelist::take;
use plain_graph::Value;
use rec_bytes::{
    Key, MOST_PROPERTIES, NIL, PROPERTIES, PROPERTY_KEY, PROPERTY_NEXT, PROPERTY_TEXT_BYTES, Reads,
    Space, room_of, set_number,
};

/// Puts a property in front of those of an element that hasn't the key. The key is the number of
/// its name.
pub fn add<S: Space>(space: &mut S, owner: Owner, key: u32, value: &Value) -> Result<(), SetFault>
    requires owner { IsOwner owner }
    requires kept { IsKept value.now }
    ensures added { S.tells → IfOk result (λ _. HasKey (S.state space.old) owner key
        → maps.get (properties_of (S.state space.old) owner) (text_at (S.state space.old) key)
        ≡ None
        → maps.len (properties_of (S.state space.old) owner) < 32
        → SetsValue (S.state space.old) (S.state space.new) owner key value.now 0) }
    ensures refused { S.tells → HasKey (S.state space.old) owner key
        → maps.get (properties_of (S.state space.old) owner) (text_at (S.state space.old) key)
        ≡ None
        → maps.len (properties_of (S.state space.old) owner) < 32
        → IfErr result (IsSetRefusal (S.state space.old) owner key value.now) }
    ensures owned { S.tells → (es : List Property) → OwnsProperties (S.state space.old) owner es
        → IsKnownKey (S.state space.old) key → LacksKey es key → length es < 32
        → IfOk result (λ _. SetsAlone (S.state space.old) (S.state space.new) owner es key
        value.now 0) }
    ensures owned_refused { S.tells → (es : List Property)
        → OwnsProperties (S.state space.old) owner es → IsKnownKey (S.state space.old) key
        → LacksKey es key → length es < 32
        → IfErr result (IsSetRefusalAlone (S.state space.old) es key value.now) }
    // the records lead to the value
    ensures gives { S.tells
        → OnOk result (GivesMet (S.state space.new).records owner key value.now) }
    ensures writes { IfOk result (λ _. WritesBeside owner.key (1 + blocks_of value.now)
        (S.state space.old) (S.state space.new)) }
    ensures touches { TouchesProperties S.tells (owner.key ∷ []) 1 (blocks_of value.now)
        (S.state space.old) (S.state space.new) }
    ensures caused { S.tells → IfErr result (IsSetCause ⊥
        (SameButReads (S.state space.old) (S.state space.new)) (blocks_of value.now)
        (S.state space.new)) }
    ensures damaged_after { S.tells → IfErr result (SetBlamesBroken (S.state space.new)) }
    ensures lists { S.tells → IfErr result (BlamesLists (S.state space.old)) }
    ensures damaged { S.tells → IfErr result (SetBlamesBroken (S.state space.old)) }
    ensures harmless { S.tells
        → OnOk result (HarmsNoLists (S.state space.old) (S.state space.new)) }
    ensures leaves { S.tells
        → OnOk result (LeavesElement (S.state space.old) (S.state space.new) owner) }
    ensures onward { S.onward space.old space.new }
    ensures cause { HasSetCause (S.faults space.old) (S.faults space.new) result }
{
    let meta = space.meta(PROPERTIES);
    if meta.live as u64 == room_of(PROPERTIES, space.shape()) {
        return Err(SetFault::Full {
            file: PROPERTIES,
            live: meta.live,
        });
    }
    let next = owner.first(space)?;
    let id = put_new(space, key, value, next)?;
    set_number(space, owner.key, owner.field, id)?;
    Ok(())
}

/// Gives a key of an element a value, and answers how many blocks the value had that the key had.
/// Those are given back before others are taken.
pub fn set<S: Space>(space: &mut S, owner: Owner, key: u32, value: &Value) -> Result<u32, SetFault>
    requires owner { IsOwner owner }
    requires kept { IsKept value.now }
    ensures set { S.tells → IfOk result (λ released. HasKey (S.state space.old) owner key
        → SetsValue (S.state space.old) (S.state space.new) owner key value.now released) }
    ensures refused { S.tells → HasKey (S.state space.old) owner key
        → IfErr result (IsSetRefusal (S.state space.old) owner key value.now) }
    ensures owned { S.tells → (es : List Property) → OwnsProperties (S.state space.old) owner es
        → IsKnownKey (S.state space.old) key → IfOk result (SetsAlone (S.state space.old)
        (S.state space.new) owner es key value.now) }
    ensures owned_refused { S.tells → (es : List Property)
        → OwnsProperties (S.state space.old) owner es → IsKnownKey (S.state space.old) key
        → IfErr result (IsSetRefusalAlone (S.state space.old) es key value.now) }
    // the records lead to the value
    ensures gives { S.tells
        → OnOk result (GivesMet (S.state space.new).records owner key value.now) }
    ensures few { IfOk result (λ released. released ≤ 22) }
    ensures writes { IfOk result (λ released. WritesAtMost (2 + blocks_of value.now + released)
        (S.state space.old) (S.state space.new)) }
    ensures touches { IfOk result (λ released. TouchesProperties S.tells (owner.key ∷ [])
        1 (blocks_of value.now + released) (S.state space.old) (S.state space.new)) }
    ensures at_most { TouchesProperties S.tells (owner.key ∷ []) 1 (22 + blocks_of value.now)
        (S.state space.old) (S.state space.new) }
    ensures caused { S.tells → IfErr result (IsSetCause
        (IsCrowded (S.state space.old).records owner key
        × SameButReads (S.state space.old) (S.state space.new))
        (LacksMet (S.state space.old).records owner key
        × SameButReads (S.state space.old) (S.state space.new)) (blocks_of value.now)
        (S.state space.new)) }
    ensures damaged_after { S.tells → IsInUse (S.state space.old).records owner
        → IfErr result (SetBlamesBroken (S.state space.new)) }
    ensures damaged { S.tells → IsInUse (S.state space.old).records owner
        → IfErr result (SetBlamesBroken (S.state space.old)) }
    ensures onward { S.onward space.old space.new }
    ensures cause { HasSetCause (S.faults space.old) (S.faults space.new) result }
{
    let mut row = PropertyRow::BLANK;
    match find(space, owner, key, &mut row)? {
        Search::Absent(count) => {
            if count >= MOST_PROPERTIES {
                return Err(SetFault::PropsFull { count });
            }
            add(space, owner, key, value)?;
            Ok(0)
        }
        Search::Found(_) => put_again(space, &row, value),
    }
}

/// The bytes of a value that don't fit its property's record.
fn long_bytes(value: &Value) -> &[u8]
    requires { IsKept value.now }
    ensures is { result.now ≡ long_text value.now }
    ensures few { length result.now ≤ 1024 }
{
    match value {
        Value::Text(text) => {
            let bytes = text.as_bytes();
            if bytes.len() <= PROPERTY_TEXT_BYTES {
                &[]
            } else {
                bytes
            }
        }
        _ => &[],
    }
}

/// Writes a property of this key and value, which wasn't there, and answers its identifier. It
/// leads to the property after it; what leads to it is left to the caller.
fn put_new<S: Space>(space: &mut S, key: u32, value: &Value, next: u32) -> Result<u32, SetFault>
    requires { IsKept value.now }
    ensures put { S.tells → IfOk result (λ id. KeepsFile (S.state space.old) strings_file
        → KeepsFile (S.state space.old) properties_file → MayLead (S.state space.old) next
        → PutsProperty (S.state space.old) (S.state space.new) [] [] id key value.now next) }
    ensures refused { S.tells → KeepsFile (S.state space.old) strings_file
        → KeepsFile (S.state space.old) properties_file
        → (meta_of (S.state space.old) properties_file).live
        ≢ room_of (S.state space.old).shape properties_file
        → IfErr result (IsPutFault (S.state space.old) 0 (blocks_of value.now)) }
    ensures some { IfOk result (λ id. id ≢ NIL) }
    ensures here { S.tells → IfOk result (λ id.
        IsRecordOf (rec_at (S.state space.new).records properties_file id) key value.now) }
    ensures touches { TouchesProperties S.tells [] 1 (blocks_of value.now)
        (S.state space.old) (S.state space.new) }
    ensures caused { S.tells → IfErr result (IsSetCause ⊥
        ((meta_of (S.state space.old) properties_file).live
        ≡ room_of (S.state space.old).shape properties_file) (blocks_of value.now)
        (S.state space.new)) }
    ensures damaged_after { S.tells → IfErr result (SetBlamesBroken (S.state space.new)) }
    ensures damaged { S.tells → IfErr result (BlamesLists (S.state space.old)) }
    ensures harmless { S.tells
        → OnOk result (HarmsNoLists (S.state space.old) (S.state space.new)) }
    ensures onward { S.onward space.old space.new }
    ensures cause { HasSetCause (S.faults space.old) (S.faults space.new) result }
{
    let first = write_text(space, long_bytes(value))?;
    let id = take(space, PROPERTIES)?;
    let key_of = Key {
        file: PROPERTIES,
        id,
    };
    space.put(key_of, property_record(key, value, first, next))?;
    Ok(id)
}

/// Gives a property another value, and answers how many blocks the one that it had had. Those are
/// given back before others are taken.
fn put_again<S: Space>(space: &mut S, row: &PropertyRow, value: &Value) -> Result<u32, SetFault>
    requires row { IsRow row.now.id row.now }
    requires kept { IsKept value.now }
    ensures put { S.tells → (e : Property) → IsHeld (S.state space.old) row.now e
        → MayLead (S.state space.old) (field 4 row.now.rec property_next)
        → IfOk result (λ released. (released ≡ length e.blocks)
        × PutsProperty (S.state space.old) (S.state space.new) (e.id ∷ []) e.blocks e.id
        (field 4 row.now.rec property_key) value.now
        (field 4 row.now.rec property_next)) }
    ensures again { S.tells → OnOk result
        (PutsAgain (S.state space.old).records (S.state space.new).records row.now value.now) }
    ensures few { IfOk result (λ released. released ≤ 22) }
    ensures refused { S.tells → (e : Property) → IsHeld (S.state space.old) row.now e
        → IfErr result (IsPutFault (S.state space.old) (length e.blocks) (blocks_of value.now)) }
    ensures touches { IfOk result (λ released. TouchesProperties S.tells []
        1 (blocks_of value.now + released) (S.state space.old) (S.state space.new)) }
    ensures at_most { TouchesProperties S.tells [] 1 (22 + blocks_of value.now)
        (S.state space.old) (S.state space.new) }
    ensures caused { S.tells
        → IfErr result (IsSetCause ⊥ ⊥ (blocks_of value.now) (S.state space.new)) }
    ensures damaged_after { S.tells → IsReadRow (S.state space.old).records row.now
        → IfErr result (SetBlamesBroken (S.state space.new)) }
    ensures damaged { S.tells → IsReadRow (S.state space.old).records row.now
        → IfErr result (SetBlamesBroken (S.state space.old)) }
    ensures onward { S.onward space.old space.new }
    ensures cause { HasSetCause (S.faults space.old) (S.faults space.new) result }
{
    let blocks = value_blocks(space, row)?;
    let ids = blocks.as_slice();
    test_free(space, ids)?;
    release(space, ids)?;
    let first = write_text(space, long_bytes(value))?;
    let key = row.rec.number(PROPERTY_KEY);
    let next = row.rec.number(PROPERTY_NEXT);
    let key_of = Key {
        file: PROPERTIES,
        id: row.id,
    };
    space.put(key_of, property_record(key, value, first, next))?;
    Ok(ids.len() as u32)
}
