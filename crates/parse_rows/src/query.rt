use crate::text::{put, put_number, put_value, word_of};
use plain_graph::{Body, BodyStep, Filter, Hop, Ids, Query, Relation, Source, Step, Text, Texts};
use std::alloc::AllocError;

/// Writes the query as a line spells it, without a blank: the maps that it asks for after its
/// steps.
pub(crate) fn put_query(out: &mut Vec<u8>, query: &Query) -> Result<(), AllocError> {
    put_source(out, &query.source)?;
    for step in query.steps.as_slice() {
        put(out, &[b"."])?;
        put_step(out, step)?;
    }
    match &query.maps {
        Some(keys) => put_call(out, b".elementMap(", keys),
        None => Ok(()),
    }
}

fn put_source(out: &mut Vec<u8>, source: &Source) -> Result<(), AllocError> {
    match source {
        Source::Vertices(ids) => put_elements(out, b"g.V(", ids),
        Source::Edges(ids) => put_elements(out, b"g.E(", ids),
        Source::Found { label, key, value } => {
            put(
                out,
                &[b"g.find('", label.as_bytes(), b"','", key.as_bytes()],
            )?;
            put(out, &[b"',"])?;
            put_value(out, value)?;
            put(out, &[b")"])
        }
    }
}

/// Writes a beginning, the identifiers, and a closing parenthesis.
fn put_elements(out: &mut Vec<u8>, start: &[u8], ids: &Ids) -> Result<(), AllocError> {
    out.extend_from_slice(start)?;
    let mut before: &[u8] = b"";
    for id in ids.as_slice() {
        put_number(out, before, *id)?;
        before = b",";
    }
    put(out, &[b")"])
}

fn put_step(out: &mut Vec<u8>, step: &Step) -> Result<(), AllocError> {
    match step {
        Step::Neighbours(hop) => put_hop(out, hop, b"("),
        Step::Incident(hop) => put_hop(out, hop, b"E("),
        Step::OutV => put(out, &[b"outV()"]),
        Step::InV => put(out, &[b"inV()"]),
        Step::Filter(filter) => put_filter(out, filter),
        Step::Values(keys) => put_call(out, b"values(", keys),
        Step::Id => put(out, &[b"id()"]),
        Step::Label => put(out, &[b"label()"]),
        Step::Dedup => put(out, &[b"dedup()"]),
        Step::Count => put(out, &[b"count()"]),
        Step::Limit(most) => {
            put_number(out, b"limit(", *most)?;
            put(out, &[b")"])
        }
        Step::Order { key, descending } => put_order(out, key, *descending),
        Step::Repeat { body, times } => put_repeat(out, body, *times),
    }
}

/// Writes a step to neighbours or edges: the direction, what stands behind it, and the labels.
fn put_hop(out: &mut Vec<u8>, hop: &Hop, after: &[u8]) -> Result<(), AllocError> {
    out.extend_from_slice(word_of(hop.direction))?;
    put_call(out, after, &hop.labels)
}

/// Writes a beginning, the names between quotes, and a closing parenthesis.
fn put_call(out: &mut Vec<u8>, start: &[u8], names: &Texts) -> Result<(), AllocError> {
    out.extend_from_slice(start)?;
    let mut before: &[u8] = b"'";
    for name in names.as_slice() {
        put(out, &[before, name.as_bytes(), b"'"])?;
        before = b",'";
    }
    put(out, &[b")"])
}

fn put_filter(out: &mut Vec<u8>, filter: &Filter) -> Result<(), AllocError> {
    match filter {
        Filter::Has(key) => put(out, &[b"has('", key.as_bytes(), b"')"]),
        Filter::HasValue {
            key,
            relation,
            value,
        } => {
            put(out, &[b"has('", key.as_bytes(), b"',"])?;
            put(out, &[predicate_of(*relation), b"("])?;
            put_value(out, value)?;
            put(out, &[b"))"])
        }
        Filter::HasLabel(labels) => put_call(out, b"hasLabel(", labels),
    }
}

fn predicate_of(relation: Relation) -> &'static [u8] {
    match relation {
        Relation::Eq => b"eq",
        Relation::Neq => b"neq",
        Relation::Gt => b"gt",
        Relation::Gte => b"gte",
        Relation::Lt => b"lt",
        Relation::Lte => b"lte",
    }
}

/// Writes an order, with `by` where it has a key or is descending.
fn put_order(out: &mut Vec<u8>, key: &Option<Text>, descending: bool) -> Result<(), AllocError> {
    match (key, descending) {
        (None, false) => put(out, &[b"order()"]),
        (None, true) => put(out, &[b"order().by(desc)"]),
        (Some(key), false) => put(out, &[b"order().by('", key.as_bytes(), b"')"]),
        (Some(key), true) => put(out, &[b"order().by('", key.as_bytes(), b"',desc)"]),
    }
}

fn put_repeat(out: &mut Vec<u8>, body: &Body, times: u8) -> Result<(), AllocError> {
    let mut before: &[u8] = b"repeat(";
    for step in body.as_slice() {
        out.extend_from_slice(before)?;
        match step {
            BodyStep::Neighbours(hop) => put_hop(out, hop, b"(")?,
            BodyStep::Filter(filter) => put_filter(out, filter)?,
        }
        before = b".";
    }
    put_number(out, b").times(", u32::from(times))?;
    put(out, &[b")"])
}
