ghost use Rattle.std.specs.Prelude.{◌≡◌, ◌≤◌, length};
ghost use Rattle.plain_graph.specs.Forms.{IsKept};
ghost use Rattle.prop_store.specs.PropertyRecord.{keyed as keyed_record};
ghost use Rattle.prop_store.specs.PropertyRecord.{property_body, property_record};

use plain_graph::Value;
use rec_bytes::{
    BOOL, INT, KIND, PROPERTY_FIRST_BLOCK, PROPERTY_KEY, PROPERTY_LENGTH, PROPERTY_NEXT,
    PROPERTY_NUMBER, PROPERTY_TEXT, PROPERTY_TEXT_BYTES, PROPERTY_TRUTH, Rec, TEXT_IN_BLOCKS,
    TEXT_INLINE,
};

/// The record of a property, with the first block of its text and the property after it.
pub(crate) fn property_record(key: u32, value: &Value, first: u32, next: u32) -> Rec
    requires { IsKept value.now }
    ensures { result ≡ property_record key value.now first next }
{
    let mut rec = property_body(key, value, first);
    rec.set_number(PROPERTY_NEXT, next);
    rec
}

fn property_body(key: u32, value: &Value, first: u32) -> Rec
    requires { IsKept value.now }
    ensures { result ≡ property_body key value.now first }
{
    match value {
        Value::Int(number) => {
            let mut rec = keyed(INT, key);
            rec.set_wide(PROPERTY_NUMBER, number.cast_unsigned());
            rec
        }
        Value::Bool(truth) => {
            let mut rec = keyed(BOOL, key);
            rec.set_byte(PROPERTY_TRUTH, *truth as u8);
            rec
        }
        Value::Text(text) => text_body(key, text.as_bytes(), first),
    }
}

fn text_body(key: u32, text: &[u8], first: u32) -> Rec
    requires { length text.now ≤ 1024 }
    ensures { result ≡ property_body key (Value.Text text.now) first }
{
    let size = text.len() as u16;
    if text.len() <= PROPERTY_TEXT_BYTES {
        let mut rec = keyed(TEXT_INLINE, key);
        rec.set_short(PROPERTY_LENGTH, size);
        rec.set_text(PROPERTY_TEXT, text);
        rec
    } else {
        let mut rec = keyed(TEXT_IN_BLOCKS, key);
        rec.set_short(PROPERTY_LENGTH, size);
        rec.set_number(PROPERTY_FIRST_BLOCK, first);
        rec
    }
}

fn keyed(kind: u8, key: u32) -> Rec
    ensures { result ≡ keyed_record kind key }
{
    let mut rec = Rec::ZEROS;
    rec.set_byte(KIND, kind);
    rec.set_number(PROPERTY_KEY, key);
    rec
}
