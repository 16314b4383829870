ghost use Rattle.std.specs.Prelude.{◌≡◌, ◌*◌, ◌<◌, ◌≤◌, [], IfErr, IfOk, OnOk, length};
ghost use Rattle.rec_bytes.specs.Format.{strings_file};
ghost use Rattle.id_freelist.specs.ListDamage.{BlamesList, HarmsNoList};
ghost use Rattle.id_freelist.specs.TakeFault.{BlamesBroken, HasTakeCause};
ghost use Rattle.prop_store.specs.BlockWriting.{MayFollow, WritesBlock, numbered_piece};
ghost use Rattle.prop_store.specs.FileChange.{HasWritten, IsSameBeside, IsWriteFault, KeepsFile};
ghost use Rattle.prop_store.specs.FileChange.{blocks_for};
ghost use Rattle.prop_store.specs.Touching.{TouchesProperties};
ghost use Rattle.prop_store.specs.SetFault.{IsTextCause};

use crate::block_record::block_record;
use id_freelist::{TakeFault, take};
use rec_bytes::{BLOCK_TEXT_BYTES, Key, NIL, STRINGS, Space};

/// Writes a text into blocks, the last block first, and answers the first block; `NIL` where it is
/// empty.
pub(crate) fn write_text<S: Space>(space: &mut S, text: &[u8]) -> Result<u32, TakeFault>
    requires { length text.now ≤ 1024 }
    ensures written { S.tells → IfOk result (λ first. KeepsFile (S.state space.old) strings_file
        → HasWritten (S.state space.old) (S.state space.new) text.now first) }
    ensures refused { S.tells → KeepsFile (S.state space.old) strings_file
        → IfErr result
        (IsWriteFault (S.state space.old) strings_file (blocks_for (length text.now))) }
    ensures other_files { S.tells → OnOk result (IsSameBeside strings_file
        (S.state space.old).records (S.state space.new).records) }
    ensures touches { TouchesProperties S.tells [] 0 (blocks_for (length text.now))
        (S.state space.old) (S.state space.new) }
    ensures caused { S.tells
        → IfErr result (IsTextCause (S.state space.new) (blocks_for (length text.now))) }
    ensures damaged_after { S.tells
        → IfErr result (BlamesBroken (S.state space.new).records (S.state space.new).shape) }
    ensures damaged { S.tells → IfErr result (BlamesList (S.state space.old) strings_file) }
    ensures harmless { S.tells
        → OnOk result (HarmsNoList (S.state space.old) (S.state space.new) strings_file) }
    ensures onward { S.onward space.old space.new }
    ensures cause { HasTakeCause (S.faults space.old) (S.faults space.new) result }
{
    let mut first = NIL;
    let mut left = text.len().div_ceil(BLOCK_TEXT_BYTES);
    while left > 0 {
        left -= 1;
        first = write_block(space, piece_at(text, left), first)?;
    }
    Ok(first)
}

/// The bytes of a text that its block of this number has, counted from 0.
fn piece_at(text: &[u8], number: usize) -> &[u8]
    requires { 48 * number < length text.now }
    ensures { result.now ≡ numbered_piece number text.now }
{
    let rest = &text[BLOCK_TEXT_BYTES * number..];
    if rest.len() < BLOCK_TEXT_BYTES {
        rest
    } else {
        &rest[..BLOCK_TEXT_BYTES]
    }
}

/// Takes a block and writes these bytes into it, and the block after it.
fn write_block<S: Space>(space: &mut S, piece: &[u8], next: u32) -> Result<u32, TakeFault>
    requires some { 0 < length piece.now }
    requires few { length piece.now ≤ 48 }
    ensures written { S.tells → IfOk result (λ id. KeepsFile (S.state space.old) strings_file
        → MayFollow (S.state space.old) next
        → WritesBlock (S.state space.old) (S.state space.new) piece.now next id) }
    ensures refused { S.tells → KeepsFile (S.state space.old) strings_file
        → IfErr result (IsWriteFault (S.state space.old) strings_file 1) }
    ensures other_files { S.tells → OnOk result (IsSameBeside strings_file
        (S.state space.old).records (S.state space.new).records) }
    ensures touches { TouchesProperties S.tells [] 0 1
        (S.state space.old) (S.state space.new) }
    ensures caused { S.tells → IfErr result (IsTextCause (S.state space.new) 1) }
    ensures damaged_after { S.tells
        → IfErr result (BlamesBroken (S.state space.new).records (S.state space.new).shape) }
    ensures damaged { S.tells → IfErr result (BlamesList (S.state space.old) strings_file) }
    ensures harmless { S.tells
        → OnOk result (HarmsNoList (S.state space.old) (S.state space.new) strings_file) }
    ensures onward { S.onward space.old space.new }
    ensures cause { HasTakeCause (S.faults space.old) (S.faults space.new) result }
{
    let id = take(space, STRINGS)?;
    space.put(Key { file: STRINGS, id }, block_record(piece, next))?;
    Ok(id)
}
