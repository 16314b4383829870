use itoa::Buffer;
use plain_graph::{Direction, Text, Value};
use std::alloc::AllocError;

/// Writes each of the parts.
pub(crate) fn put(out: &mut Vec<u8>, parts: &[&[u8]]) -> Result<(), AllocError> {
    for part in parts {
        out.extend_from_slice(part)?;
    }
    Ok(())
}

/// Writes what stands before a number, and the number.
pub(crate) fn put_number(out: &mut Vec<u8>, before: &[u8], number: u32) -> Result<(), AllocError> {
    let mut digits = Buffer::new();
    put(out, &[before, digits.format(number).as_bytes()])
}

/// Writes a value as a line spells it.
pub(crate) fn put_value(out: &mut Vec<u8>, value: &Value) -> Result<(), AllocError> {
    match value {
        Value::Int(number) => {
            let mut digits = Buffer::new();
            put(out, &[digits.format(*number).as_bytes()])
        }
        Value::Bool(true) => put(out, &[b"true"]),
        Value::Bool(false) => put(out, &[b"false"]),
        Value::Text(text) => put_quoted(out, text),
    }
}

/// Writes a text between quotes.
fn put_quoted(out: &mut Vec<u8>, text: &Text) -> Result<(), AllocError> {
    put(out, &[b"'"])?;
    for byte in text.as_bytes() {
        match *byte {
            b'\'' => put(out, &[b"\\'"])?,
            b'\\' => put(out, &[b"\\\\"])?,
            b'\n' => put(out, &[b"\\n"])?,
            b'\r' => put(out, &[b"\\r"])?,
            b'\t' => put(out, &[b"\\t"])?,
            other => put(out, &[&[other]])?,
        }
    }
    put(out, &[b"'"])
}

/// The word of a direction.
pub(crate) fn word_of(direction: Direction) -> &'static [u8] {
    match direction {
        Direction::Outgoing => b"out",
        Direction::Incoming => b"in",
        Direction::Both => b"both",
    }
}
