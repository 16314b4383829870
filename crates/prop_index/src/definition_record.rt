//! Records of definitions and of heads.

ghost use Rattle.std.specs.Prelude.{◌≡◌};
ghost use Rattle.prop_index.specs.DefinitionRecord.{definition_start, empty_heads};

use rec_bytes::{DEFINITION, DEFINITION_KEY, DEFINITION_LABEL, DEFINITION_NEXT, HEADS, KIND, Rec};

/// A record of heads whose buckets are empty. The head of such a bucket is `NIL`, whose four bytes
/// are 255.
pub(crate) fn empty_heads() -> Rec
    ensures { result ≡ empty_heads }
{
    let mut rec = Rec { bytes: [255; 64] };
    rec.set_number(KIND, 0);
    rec.set_byte(KIND, HEADS);
    rec
}

/// The record of a definition that names no heads yet.
#[tactic(auto, unfolding(rec_bytes::specs::Tables::with_fields))]
pub(crate) fn definition_start(label: u32, key: u32, next: u32) -> Rec
    ensures { result ≡ definition_start label key next }
{
    let mut rec = Rec::ZEROS;
    rec.set_byte(KIND, DEFINITION);
    rec.set_number(DEFINITION_LABEL, label);
    rec.set_number(DEFINITION_KEY, key);
    rec.set_number(DEFINITION_NEXT, next);
    rec
}
