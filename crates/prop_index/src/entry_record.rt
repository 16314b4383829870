ghost use Rattle.std.specs.Prelude.{◌≡◌};
ghost use Rattle.prop_index.specs.Linking.{entry_record};

use rec_bytes::{
    INDEXED, INDEXED_HASH, INDEXED_NEXT, INDEXED_NODE, INDEXED_PREVIOUS, KIND, NIL, Rec,
};

/// The record of an entry that stands first in its bucket.
#[tactic(auto, unfolding(rec_bytes::specs::Tables::with_fields))]
pub(crate) fn entry_record(node: u32, next: u32, hash: u64) -> Rec
    ensures { result ≡ entry_record node next hash }
{
    let mut rec = Rec::ZEROS;
    rec.set_byte(KIND, INDEXED);
    rec.set_number(INDEXED_NODE, node);
    rec.set_number(INDEXED_PREVIOUS, NIL);
    rec.set_number(INDEXED_NEXT, next);
    rec.set_wide(INDEXED_HASH, hash);
    rec
}
