//! The blocks of a long text, followed from the first one on.

ghost use Rattle.std.specs.Prelude.{◌≡◌, ◌↔◌, ◌≤◌, ◌<◌, ◌+◌, ◌/◌, ℕ, List, IfOk, IsTrue, IfErr};
ghost use Rattle.std.specs.Prelude.{OnOk, length, min};
ghost use Rattle.rec_bytes.specs.Format.{most_ids, strings_file};
ghost use Rattle.rec_bytes.specs.Space.{after_get};
ghost use Rattle.store_rules.specs.Properties.{long_text_from};
ghost use Rattle.store_rules.specs.Views.{rec_at};
ghost use Rattle.prop_store.specs.Blocks.{AreUsedOnce, HasBlocks};
ghost use Rattle.prop_store.specs.Blocks.{HasBlockForm, HasText, IsBlockFault, IsBlockKind};
ghost use Rattle.prop_store.specs.Blocks.{IsBlockOf, IsTextFault, IsTextOf};
ghost use Rattle.rec_bytes.specs.Fault.{HasFaultCause, NotDamaged};
ghost use Rattle.prop_store.specs.GivenOut.{AreGivenOut, IsGivenOut};
ghost use Rattle.prop_store.specs.Reading.{ReadsAtMost};

use crate::block_list::BlockList;
use crate::damaged::damaged;
use crate::given_out::test_link;
use rec_bytes::{
    BLOCK, BLOCK_LENGTH, BLOCK_NEXT, BLOCK_TEXT, BLOCK_TEXT_BYTES, FREE, Fault, KIND, Key, NIL,
    PROPERTIES, PROPERTY_RULE, RANGE_RULE, Reads, Rec, STRINGS,
};
use std::alloc::Global;

/// The identifiers of the blocks of a property's text of so many bytes, without its bytes.
pub(crate) fn block_ids<R: Reads>(
    space: &mut R,
    property: u32,
    first: u32,
    size: u16,
) -> Result<BlockList, Fault>
    requires { size ≤ 1024 }
    ensures followed { R.tells → (text blocks : List ℕ)
        → HasText (rec_at (R.state space.old).records strings_file) first size text blocks
        → IfOk result (λ ids. ids ≡ blocks) }
    ensures has { R.tells → IsTextOf (R.state space.old).records property first size
        → IfOk result (HasBlocks (R.state space.old).records property) }
    ensures once { R.tells → IfOk result (AreUsedOnce (R.state space.old).records) }
    ensures damaged { R.tells → IsTextOf (R.state space.old).records property first size
        → IfErr result (IsTextFault (R.state space.old) property) }
    ensures not_damaged { R.tells → (text blocks : List ℕ)
        → HasText (rec_at (R.state space.old).records strings_file) first size text blocks
        → AreGivenOut (R.state space.old).records strings_file blocks → NotDamaged result }
    ensures at_most { ReadsAtMost 22 (R.state space.old) (R.state space.new) }
    ensures onward { R.onward space.old space.new }
    ensures cause { HasFaultCause (R.faults space.old) (R.faults space.new) result }
{
    let mut ids = BlockList::new();
    let mut rec = Rec::ZEROS;
    let mut from = Key {
        file: PROPERTIES,
        id: property,
    };
    let mut at = first;
    let mut left = size;
    while left > 0 {
        let piece = piece_size(left);
        read_block(space, property, from, at, piece, &mut rec)?;
        ids.push(at);
        left -= piece as u16;
        from = Key {
            file: STRINGS,
            id: at,
        };
        at = rec.number(BLOCK_NEXT);
    }
    if at != NIL {
        return Err(damaged(PROPERTIES, property, PROPERTY_RULE));
    }
    Ok(ids)
}

/// The bytes of a property's text of so many, from its blocks.
pub(crate) fn read_text<R: Reads>(
    alloc: Global,
    space: &mut R,
    property: u32,
    first: u32,
    size: u16,
) -> Result<Vec<u8>, Fault>
    requires { size ≤ 1024 }
    ensures met { R.tells → IfOk result (λ bytes. bytes.items
        ≡ long_text_from (rec_at (R.state space.old).records strings_file) size first) }
    ensures size { IfOk result (λ bytes. length bytes.items ≡ size) }
    ensures damaged { R.tells → IsTextOf (R.state space.old).records property first size
        → IfErr result (IsTextFault (R.state space.old) property) }
    ensures not_damaged { R.tells → (text blocks : List ℕ)
        → HasText (rec_at (R.state space.old).records strings_file) first size text blocks
        → AreGivenOut (R.state space.old).records strings_file blocks → NotDamaged result }
    ensures at_most { ReadsAtMost ((size + 47) / 48) (R.state space.old) (R.state space.new) }
    ensures onward { R.onward space.old space.new }
    ensures cause { HasFaultCause (R.faults space.old) (R.faults space.new) result }
{
    let mut bytes = Vec::new(alloc);
    let mut rec = Rec::ZEROS;
    let mut from = Key {
        file: PROPERTIES,
        id: property,
    };
    let mut at = first;
    let mut left = size;
    while left > 0 {
        let piece = piece_size(left);
        read_block(space, property, from, at, piece, &mut rec)?;
        bytes.extend_from_slice(rec.text(BLOCK_TEXT, piece))?;
        left -= piece as u16;
        from = Key {
            file: STRINGS,
            id: at,
        };
        at = rec.number(BLOCK_NEXT);
    }
    if at != NIL {
        return Err(damaged(PROPERTIES, property, PROPERTY_RULE));
    }
    Ok(bytes)
}

/// How many bytes of a text the next block has, where so many are left.
fn piece_size(left: u16) -> u8
    ensures { result ≡ min 48 left }
{
    if (left as usize) < BLOCK_TEXT_BYTES {
        left as u8
    } else {
        BLOCK_TEXT_BYTES as u8
    }
}

/// Reads the block that a link of this record leads to, which is to have so many bytes of a
/// property's text, into the caller's record. The record of the link is damaged where it leads
/// past the mark, the block where it is of no known kind, and else the property.
fn read_block<R: Reads>(
    space: &mut R,
    property: u32,
    from: Key,
    id: u32,
    size: u8,
    rec: &mut Rec,
) -> Result<(), Fault>
    ensures got { R.tells
        → OnOk result (rec.new ≡ rec_at (R.state space.old).records strings_file id) }
    ensures small { OnOk result (id < most_ids) }
    ensures form { OnOk result (HasBlockForm rec.new size) }
    ensures not_damaged { R.tells → IsGivenOut (R.state space.old).records strings_file id
        → HasBlockForm (rec_at (R.state space.old).records strings_file id) size
        → NotDamaged result }
    ensures block { R.tells → OnOk result (IsBlockOf (R.state space.old).records id size) }
    ensures damaged { R.tells
        → IfErr result (IsBlockFault (R.state space.old) property from id size) }
    ensures state { OnOk result (R.state space.new ≡ after_get (R.state space.old)) }
    ensures at_most { ReadsAtMost 1 (R.state space.old) (R.state space.new) }
    ensures onward { R.onward space.old space.new }
    ensures cause { HasFaultCause (R.faults space.old) (R.faults space.new) result }
{
    if id == NIL {
        return Err(damaged(PROPERTIES, property, PROPERTY_RULE));
    }
    test_link(space, from, STRINGS, id)?;
    space.get_into(Key { file: STRINGS, id }, rec)?;
    if !is_known(rec.byte(KIND)) {
        return Err(damaged(STRINGS, id, RANGE_RULE));
    }
    if !has_form(rec, size) {
        return Err(damaged(PROPERTIES, property, PROPERTY_RULE));
    }
    Ok(())
}

/// Whether the kind is one of a record of a block, in use or not.
fn is_known(kind: u8) -> bool
    ensures { IsTrue result ↔ IsBlockKind kind }
{
    kind == FREE || kind == BLOCK
}

/// Whether the record is one of a block of so many bytes.
fn has_form(rec: &Rec, size: u8) -> bool
    ensures { IsTrue result ↔ HasBlockForm rec.now size }
{
    rec.byte(KIND) == BLOCK && rec.byte(BLOCK_LENGTH) == size
}
