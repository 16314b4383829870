ghost use Rattle.std.specs.Prelude.{◌≡◌};
ghost use Rattle.plain_graph.specs.Values.{is_related, is_same_type, is_text, value_cmp};

use plain_graph::{Relation, Value};
use std::cmp::Ordering;

/// False, true, numbers by size, texts by their bytes.
pub(crate) fn compare(value: &Value, other: &Value) -> Ordering
    ensures { result ≡ value_cmp value.now other.now }
{
    match (value, other) {
        (Value::Bool(a), Value::Bool(b)) => a.cmp(b),
        (Value::Int(a), Value::Int(b)) => a.cmp(b),
        (Value::Text(a), Value::Text(b)) => a.as_bytes().cmp(b.as_bytes()),
        (Value::Bool(_), _) => Ordering::Less,
        (_, Value::Bool(_)) => Ordering::Greater,
        (Value::Int(_), Value::Text(_)) => Ordering::Less,
        (Value::Text(_), Value::Int(_)) => Ordering::Greater,
    }
}

/// Whether the two are of one type.
fn are_one_type(value: &Value, other: &Value) -> bool
    ensures { result ≡ is_same_type value.now other.now }
{
    matches!(
        (value, other),
        (Value::Bool(_), Value::Bool(_))
            | (Value::Int(_), Value::Int(_))
            | (Value::Text(_), Value::Text(_))
    )
}

/// Whether a value compares so with the one that is written.
pub(crate) fn is_related(relation: Relation, value: &Value, written: &Value) -> bool
    ensures { result ≡ is_related relation value.now written.now }
{
    let order = compare(value, written);
    match relation {
        Relation::Eq => order.is_eq(),
        Relation::Neq => order.is_ne(),
        Relation::Gt => are_one_type(value, written) && order.is_gt(),
        Relation::Gte => are_one_type(value, written) && order.is_ge(),
        Relation::Lt => are_one_type(value, written) && order.is_lt(),
        Relation::Lte => are_one_type(value, written) && order.is_le(),
    }
}

/// Whether the two texts have the same bytes.
pub(crate) fn is_text(text: &[u8], other: &[u8]) -> bool
    ensures { result ≡ is_text text.now other.now }
{
    text.cmp(other).is_eq()
}
