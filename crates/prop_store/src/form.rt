ghost use Rattle.std.specs.Prelude.{◌≡◌};
ghost use Rattle.prop_store.specs.Form.{FormFits, form_in, truth_in};

use rec_bytes::{
    BOOL, INT, KIND, MOST_TEXT_BYTES, PROPERTY_FIRST_BLOCK, PROPERTY_LENGTH, PROPERTY_NUMBER,
    PROPERTY_TEXT_BYTES, PROPERTY_TRUTH, Rec, TEXT_IN_BLOCKS, TEXT_INLINE,
};

/// What the record of a property says of its value. The bytes of a text that stands in the record
/// are left there.
#[derive(Clone, Copy)]
pub(crate) enum Form {
    /// A whole number.
    Number(i64),
    /// True or false.
    Truth(bool),
    /// A text of so many bytes, in the record.
    Inline(u8),
    /// A text of so many bytes, in blocks from the first one on.
    Long { size: u16, first: u32 },
}

/// Reads it from a record. There is none where the kind or the length is no property's.
pub(crate) fn form_of(rec: &Rec) -> Option<Form>
    ensures is { result ≡ form_in rec.now }
    ensures fits { FormFits result }
{
    let size = rec.short(PROPERTY_LENGTH);
    match rec.byte(KIND) {
        INT => Some(Form::Number(rec.wide(PROPERTY_NUMBER).cast_signed())),
        BOOL => truth_of(rec.byte(PROPERTY_TRUTH)),
        TEXT_INLINE if size as usize <= PROPERTY_TEXT_BYTES => Some(Form::Inline(size as u8)),
        TEXT_IN_BLOCKS if size as usize > PROPERTY_TEXT_BYTES && size <= MOST_TEXT_BYTES => {
            Some(Form::Long {
                size,
                first: rec.number(PROPERTY_FIRST_BLOCK),
            })
        }
        _ => None,
    }
}

/// The byte 0 is false, and 1 true.
fn truth_of(byte: u8) -> Option<Form>
    ensures { result ≡ truth_in byte }
{
    match byte {
        0 => Some(Form::Truth(false)),
        1 => Some(Form::Truth(true)),
        _ => None,
    }
}
