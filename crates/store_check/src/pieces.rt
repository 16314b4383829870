ghost use Rattle.std.specs.Bool.{Decides};
ghost use Rattle.store_check.specs.Pieces.{AreLengths};

use rec_bytes::BLOCK_TEXT_BYTES;

/// Whether pieces of these lengths make a text of this length.
pub fn are_pieces(lengths: &[u8], text: u16) -> bool
    ensures { Decides result (AreLengths text lengths.now) }
{
    let count = (text as usize + BLOCK_TEXT_BYTES - 1) / BLOCK_TEXT_BYTES;
    if lengths.len() != count {
        return false;
    }
    let mut total = 0;
    for i in 0..count {
        let length = lengths[i];
        if length as usize != BLOCK_TEXT_BYTES && i + 1 < count {
            return false;
        }
        total += length as u32;
    }
    total == text as u32
}
