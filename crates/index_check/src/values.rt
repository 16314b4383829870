//! The value of a key of a node.

ghost use Rattle.std.specs.Prelude.{◌≡◌, ◌<◌, ◌≤◌, IfOk, IfSome};
ghost use Rattle.rec_bytes.specs.Fault.{HasFaultCause, NotDamaged};
ghost use Rattle.rec_bytes.specs.Format.{most_ids, nodes_file};
ghost use Rattle.rec_bytes.specs.Frame.{IsRead};
ghost use Rattle.store_rules.specs.Indexes.{has_hash, node_value};
ghost use Rattle.store_rules.specs.Views.{high};
ghost use Rattle.index_check.specs.Values.{AreReadable};

use plain_graph::Value;
use prop_index::hash_of;
use prop_store::{Owner, read_key_from};
use rec_bytes::{FREE, Fault, KIND, Key, NODE_FIRST_PROPERTY, NODE_LABEL, NODES, Reads};
use std::alloc::Global;

/// The value of a key of a node, if the node has this label and the key.
pub(crate) fn value_at<R: Reads>(
    alloc: Global,
    space: &mut R,
    node: u32,
    label: u32,
    key: u32,
) -> Result<Option<Value>, Fault>
    requires { high (R.state space.old).records nodes_file ≤ most_ids }
    ensures is { R.tells → IfOk result
        (λ value. value ≡ node_value (R.state space.old).records label key node) }
    ensures low { IfOk result (λ value. IfSome value
        (λ _. node < high (R.state space.old).records nodes_file)) }
    ensures not_damaged { R.tells → AreReadable (R.state space.old).records → NotDamaged result }
    ensures read { IsRead R.Reads space.old space.new }
    ensures cause { HasFaultCause (R.faults space.old) (R.faults space.new) result }
{
    if node >= space.meta(NODES).high {
        return Ok(None);
    }
    let key_of_node = Key {
        file: NODES,
        id: node,
    };
    let rec = space.get(key_of_node)?;
    if rec.byte(KIND) == FREE {
        return Ok(None);
    }
    if rec.number(NODE_LABEL) != label {
        return Ok(None);
    }
    let owner = Owner {
        key: key_of_node,
        field: NODE_FIRST_PROPERTY,
    };
    let value = read_key_from(alloc, space, owner, rec.number(NODE_FIRST_PROPERTY), key)?;
    Ok(value)
}

/// Whether there is a value, and it has this hash.
pub(crate) fn has_hash(value: &Option<Value>, hash: u64) -> bool
    ensures { result ≡ has_hash hash value.now }
{
    match value {
        Some(value) => hash_of(value) == hash,
        None => false,
    }
}
