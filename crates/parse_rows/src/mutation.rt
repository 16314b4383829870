use crate::query::put_query;
use crate::text::{put, put_number, put_value};
use plain_graph::{Mutation, Pairs, Query};
use std::alloc::AllocError;

/// Writes a query that changes the graph as a line spells it, without a blank.
pub(crate) fn put_mutation(
    out: &mut Vec<u8>,
    reading: &Option<Query>,
    mutation: &Mutation,
) -> Result<(), AllocError> {
    match reading {
        Some(query) => put_query(out, query)?,
        None => put(out, &[b"g"])?,
    }
    match mutation {
        Mutation::AddV { label, pairs } => {
            put(out, &[b".addV('", label.as_bytes(), b"')"])?;
            put_properties(out, pairs)
        }
        Mutation::AddE { label, to, pairs } => {
            put(out, &[b".addE('", label.as_bytes()])?;
            put_number(out, b"').to(__.V(", *to)?;
            put(out, &[b"))"])?;
            put_properties(out, pairs)
        }
        Mutation::Property(pairs) => put_properties(out, pairs),
        Mutation::Drop => put(out, &[b".drop()"]),
    }
}

/// Writes a step for each pair.
fn put_properties(out: &mut Vec<u8>, pairs: &Pairs) -> Result<(), AllocError> {
    for pair in pairs.as_slice() {
        put(out, &[b".property('", pair.key.as_bytes(), b"',"])?;
        put_value(out, &pair.value)?;
        put(out, &[b")"])?;
    }
    Ok(())
}
