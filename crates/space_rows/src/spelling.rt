use crate::error::RowError;
use plain_graph::Value;
use rec_bytes::Rec;
use rel_store::EdgeRow;
use std::alloc::Global;
use std::fmt::Debug;

/// Spells an answer as Rust does.
pub(crate) fn spell<T: Debug>(alloc: Global, answer: &T) -> Result<String, RowError> {
    Ok(format!(in alloc; "{answer:?}")?)
}

/// Spells that a call was made that answers nothing.
pub(crate) fn done(alloc: Global) -> Result<String, RowError> {
    Ok(String::from_str(alloc, "Ok")?)
}

/// Spells a fault.
pub(crate) fn spell_fault<F: Debug>(alloc: Global, fault: &F) -> Result<String, RowError> {
    Ok(format!(in alloc; "Err({fault:?})")?)
}

/// Spells the bytes of a record up to the last one that isn't 0.
pub(crate) fn spell_record(alloc: Global, rec: &Rec) -> Result<String, RowError> {
    let end = match rec.bytes.iter().rposition(|byte| *byte != 0) {
        Some(last) => last.saturating_add(1),
        None => 0,
    };
    spell(alloc, &rec.bytes.get(..end).unwrap_or(&[]))
}

/// Spells each relationship by its identifier, its type and its ends.
pub(crate) fn spell_edges(alloc: Global, rows: &[EdgeRow]) -> Result<String, RowError> {
    let mut text = format!(in alloc; "{} edges", rows.len())?;
    for row in rows {
        write!(text, ", {}:{} {}>{}", row.id, row.label, row.from, row.to)?;
    }
    Ok(text)
}

/// Spells a value, of a text only how long it is.
pub(crate) fn spell_value(alloc: Global, value: &Value) -> Result<String, RowError> {
    match value {
        Value::Int(number) => spell(alloc, number),
        Value::Bool(truth) => spell(alloc, truth),
        Value::Text(text) => Ok(format!(in alloc; "{} bytes", text.as_bytes().len())?),
    }
}
