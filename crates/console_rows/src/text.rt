use crate::error::RowError;
use itoa::Buffer;
use std::alloc::{AllocError, Global};

/// Writes each of the parts.
pub(crate) fn put(out: &mut Vec<u8>, parts: &[&[u8]]) -> Result<(), AllocError> {
    for part in parts {
        out.extend_from_slice(part)?;
    }
    Ok(())
}

/// Writes what stands before a number, and the number.
pub(crate) fn put_number(out: &mut Vec<u8>, before: &[u8], number: u8) -> Result<(), AllocError> {
    let mut digits = Buffer::new();
    put(out, &[before, digits.format(number).as_bytes()])
}

/// Writes the bytes as numbers, in a line of their own.
pub(crate) fn put_numbers(out: &mut Vec<u8>, bytes: &[u8]) -> Result<(), AllocError> {
    let mut before: &[u8] = b"";
    for byte in bytes {
        put_number(out, before, *byte)?;
        before = b" ";
    }
    put(out, &[b"\n"])
}

/// What stands before the first blank, and what stands after it.
pub(crate) fn cut(text: &[u8]) -> Result<(&[u8], &[u8]), RowError> {
    let mut parts = text.splitn(2, |byte| *byte == b' ');
    match (parts.next(), parts.next()) {
        (Some(before), Some(after)) => Ok((before, after)),
        _ => Err(RowError::Malformed),
    }
}

/// The number that the text spells in decimal.
pub(crate) fn number_of(text: &[u8]) -> Result<u64, RowError> {
    let Ok(text) = str::from_utf8(text) else {
        return Err(RowError::Malformed);
    };
    match text.parse::<u64>() {
        Ok(number) => Ok(number),
        Err(_) => Err(RowError::Malformed),
    }
}

/// Adds the bytes that the text spells as numbers, with a blank between two.
pub(crate) fn push_bytes(out: &mut Vec<u8>, text: &[u8]) -> Result<(), RowError> {
    for part in text.split(|byte| *byte == b' ') {
        push_equal(out, part)?;
    }
    Ok(())
}

/// Adds the byte that the part spells as a number, or as many equal ones as stand after a star.
fn push_equal(out: &mut Vec<u8>, part: &[u8]) -> Result<(), RowError> {
    let mut parts = part.splitn(2, |byte| *byte == b'*');
    let number = number_of(parts.next().unwrap_or(b""))?;
    let count = match parts.next() {
        Some(count) => number_of(count)?,
        None => 1,
    };
    let Ok(byte) = u8::try_from(number) else {
        return Err(RowError::Malformed);
    };
    for _ in 0..count {
        out.push(byte)?;
    }
    Ok(())
}

/// The words of a line that stand each after a blank.
pub(crate) fn words_of(alloc: Global, line: &[u8]) -> Result<Vec<String>, RowError> {
    let mut words = Vec::new(alloc);
    for word in line.split(|byte| *byte == b' ').skip(1) {
        let Ok(word) = str::from_utf8(word) else {
            return Err(RowError::Malformed);
        };
        words.push(String::from_str(alloc, word)?)?;
    }
    Ok(words)
}
