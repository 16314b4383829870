//! Whether a node has a value.

ghost use Rattle.std.specs.Prelude.{◌≡◌, ◌<◌, ℕ, IfErr, IfOk, IsOk, OnOk};
ghost use Rattle.prop_index.specs.Gathering.{IsEntryMet, IsListedNode, IsOwnerDamage, node_owner};
ghost use Rattle.prop_index.specs.Reading.{HasRoom};
ghost use Rattle.rec_bytes.specs.Fault.{HasFaultCause, NotDamaged};
ghost use Rattle.rec_bytes.specs.declared.record.Rec.{Rec};
ghost use Rattle.prop_index.specs.Blaming.{BlamesBroken};
ghost use Rattle.prop_store.specs.Owner.{IsOwner};
ghost use Rattle.prop_store.specs.Reading.{ReadsAtMost, properties_met};
ghost use Rattle.plain_graph.specs.Values.{value_cmp};
ghost use Rattle.rec_bytes.specs.Format.{nodes_file};
ghost use Rattle.store_rules.specs.Indexes.{entry_node, has_value, value_in};
ghost use Rattle.store_rules.specs.Views.{high};

use crate::reading::{damaged, out_of_range};
use plain_graph::Value;
use prop_store::{Owner, read_key_from};
use rec_bytes::{
    Damage, FREE, Fault, INDEX, INDEX_RULE, KIND, Key, META, NODE_FIRST_PROPERTY, NODES,
    RANGE_RULE, Reads, Rec, room_of,
};
use std::alloc::Global;
use std::cmp::Ordering;

/// Where the first property of a node stands. Where there can be none, the record that names the
/// node is damaged.
pub(crate) fn owner_of<R: Reads>(space: &R, node: u32, named: Damage) -> Result<Owner, Damage>
    ensures owner { IfOk result IsOwner }
    ensures is { IfOk result (λ owner. owner ≡ node_owner node) }
    ensures not_damaged { HasRoom (R.state space.now) nodes_file
        → node < high (R.state space.now).records nodes_file → IsOk result }
    ensures low { OnOk result (node < high (R.state space.now).records nodes_file) }
    ensures damaged { IfErr result (IsOwnerDamage (R.state space.now) node named) }
{
    if node >= space.meta(NODES).high {
        return Err(named);
    }
    if node as u64 >= room_of(NODES, space.shape()) {
        return Err(Damage {
            file: META,
            id: NODES as u32,
            rule: RANGE_RULE,
        });
    }
    Ok(Owner {
        key: Key {
            file: NODES,
            id: node,
        },
        field: NODE_FIRST_PROPERTY,
    })
}

/// Whether the value of a key of the node of an entry is this one.
pub(crate) fn holds<R: Reads>(
    alloc: Global,
    space: &mut R,
    node: u32,
    key: u32,
    value: &Value,
    entry: u32,
) -> Result<bool, Fault>
    ensures met { R.tells → IfOk result (λ held. held ≡ has_value value.now
        (value_in (properties_met (R.state space.old).records (node_owner node)) key)) }
    ensures not_damaged { R.tells → IsListedNode (R.state space.old) node → NotDamaged result }
    ensures damaged { R.tells → (d b count : ℕ) (rec : Rec)
        → IsEntryMet (R.state space.old).records d b count entry rec
        → node ≡ entry_node (R.state space.old).records entry → IfErr result
        (BlamesBroken (R.state space.old).records (R.state space.old).shape) }
    ensures at_most { ReadsAtMost 55 (R.state space.old) (R.state space.new) }
    ensures onward { R.onward space.old space.new }
    ensures cause { HasFaultCause (R.faults space.old) (R.faults space.new) result }
{
    let owner = owner_of(space, node, out_of_range(entry))?;
    let mut rec = Rec::ZEROS;
    space.get_into(owner.key, &mut rec)?;
    if rec.byte(KIND) == FREE {
        return Err(damaged(INDEX, entry, INDEX_RULE));
    }
    let first = rec.number(NODE_FIRST_PROPERTY);
    let held = read_key_from(alloc, space, owner, first, key)?;
    Ok(is_value(&held, value))
}

/// Whether there is a value, and it is this one.
fn is_value(held: &Option<Value>, value: &Value) -> bool
    ensures { result ≡ has_value value.now held.now }
{
    match held {
        Some(other) => compare(other, value).is_eq(),
        None => false,
    }
}

/// False, true, numbers by size, texts by their bytes.
fn compare(value: &Value, other: &Value) -> Ordering
    ensures { result ≡ value_cmp value.now other.now }
{
    match (value, other) {
        (Value::Bool(a), Value::Bool(b)) => a.cmp(b),
        (Value::Int(a), Value::Int(b)) => a.cmp(b),
        (Value::Text(a), Value::Text(b)) => a.as_bytes().cmp(b.as_bytes()),
        (Value::Bool(_), _) => Ordering::Less,
        (_, Value::Bool(_)) => Ordering::Greater,
        (Value::Int(_), Value::Text(_)) => Ordering::Less,
        (Value::Text(_), Value::Int(_)) => Ordering::Greater,
    }
}
