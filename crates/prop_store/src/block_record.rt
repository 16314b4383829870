ghost use Rattle.std.specs.Prelude.{◌≡◌, ◌≤◌, length};
ghost use Rattle.prop_store.specs.BlockRecord.{block_record};

use rec_bytes::{BLOCK, BLOCK_LENGTH, BLOCK_NEXT, BLOCK_TEXT, KIND, Rec};

/// The record of a block with these bytes of a text, and the block after it.
pub(crate) fn block_record(text: &[u8], next: u32) -> Rec
    requires { length text.now ≤ 48 }
    ensures { result ≡ block_record text.now next }
{
    let mut rec = Rec::ZEROS;
    rec.set_byte(KIND, BLOCK);
    rec.set_byte(BLOCK_LENGTH, text.len() as u8);
    rec.set_text(BLOCK_TEXT, text);
    rec.set_number(BLOCK_NEXT, next);
    rec
}
