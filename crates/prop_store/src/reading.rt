ghost use Rattle.std.specs.Prelude.{◌≡◌, ◌+◌, ◌≤◌, List, All, IfErr, IfOk, IfSome, length, map};
ghost use Rattle.plain_graph.specs.Forms.{IsKept};
ghost use Rattle.plain_graph.specs.Properties.{blocks_if};
ghost use Rattle.store_rules.specs.Properties.{AreProperties, Property, property_records};
ghost use Rattle.rec_bytes.specs.Fault.{HasFaultCause, NotDamaged};
ghost use Rattle.prop_store.specs.Fault.{BlamesBroken};
ghost use Rattle.prop_store.specs.Finding.{value_of};
ghost use Rattle.prop_store.specs.Owner.{HasProperties, IsInUse, IsOwner, first_of};
ghost use Rattle.prop_store.specs.Reading.{ReadsAtMost, block_total, prop_of, properties_met};

use crate::damaged::damaged;
use crate::finding::{Search, find_from};
use crate::property_row::{PropertyRow, property_at};
use crate::values::read_value;
use crate::{Owner, Prop};
use plain_graph::Value;
use rec_bytes::{
    Fault, Key, MOST_PROPERTIES, NIL, PROPERTIES, PROPERTY_KEY, PROPERTY_NEXT, PROPERTY_RULE, Reads,
};
use std::alloc::Global;

/// The value of a key, and none where the element hasn't the key.
pub fn read_key<R: Reads>(
    alloc: Global,
    space: &mut R,
    owner: Owner,
    key: u32,
) -> Result<Option<Value>, Fault>
    requires { IsOwner owner }
    ensures read { R.tells → (es : List Property)
        → AreProperties (property_records (R.state space.old).records)
        (first_of (R.state space.old).records owner) es
        → IfOk result (λ value. value ≡ value_of es key) }
    ensures met { R.tells → IfOk result
        (λ value. value ≡ value_of (properties_met (R.state space.old).records owner) key) }
    ensures not_damaged { R.tells → (es : List Property)
        → HasProperties (R.state space.old).records owner es → NotDamaged result }
    ensures damaged { R.tells → IsInUse (R.state space.old).records owner
        → IfErr result (BlamesBroken (R.state space.old).records (R.state space.old).shape) }
    ensures kept { IfOk result (λ value. IfSome value IsKept) }
    ensures cost { R.tells → (es : List Property)
        → AreProperties (property_records (R.state space.old).records)
        (first_of (R.state space.old).records owner) es
        → IfOk result (λ value. ReadsAtMost (1 + length es + blocks_if value)
        (R.state space.old) (R.state space.new)) }
    ensures reads { IfOk result (λ value. ReadsAtMost (33 + blocks_if value)
        (R.state space.old) (R.state space.new)) }
    ensures at_most { ReadsAtMost 55 (R.state space.old) (R.state space.new) }
    ensures onward { R.onward space.old space.new }
    ensures cause { HasFaultCause (R.faults space.old) (R.faults space.new) result }
{
    let first = owner.first(space)?;
    read_key_from(alloc, space, owner, first, key)
}

/// The value of a key of an element whose first property is known, or `NIL` where it has none. It
/// costs no read of the element.
pub fn read_key_from<R: Reads>(
    alloc: Global,
    space: &mut R,
    owner: Owner,
    first: u32,
    key: u32,
) -> Result<Option<Value>, Fault>
    requires owner { IsOwner owner }
    requires first { R.tells → first ≡ first_of (R.state space.old).records owner }
    ensures read { R.tells → (es : List Property)
        → AreProperties (property_records (R.state space.old).records)
        (first_of (R.state space.old).records owner) es
        → IfOk result (λ value. value ≡ value_of es key) }
    ensures met { R.tells → IfOk result
        (λ value. value ≡ value_of (properties_met (R.state space.old).records owner) key) }
    ensures not_damaged { R.tells → (es : List Property)
        → HasProperties (R.state space.old).records owner es → NotDamaged result }
    ensures damaged { R.tells → IsInUse (R.state space.old).records owner
        → IfErr result (BlamesBroken (R.state space.old).records (R.state space.old).shape) }
    ensures kept { IfOk result (λ value. IfSome value IsKept) }
    ensures cost { R.tells → (es : List Property)
        → AreProperties (property_records (R.state space.old).records)
        (first_of (R.state space.old).records owner) es
        → IfOk result (λ value. ReadsAtMost (length es + blocks_if value)
        (R.state space.old) (R.state space.new)) }
    ensures reads { IfOk result (λ value. ReadsAtMost (32 + blocks_if value)
        (R.state space.old) (R.state space.new)) }
    ensures at_most { ReadsAtMost 54 (R.state space.old) (R.state space.new) }
    ensures onward { R.onward space.old space.new }
    ensures cause { HasFaultCause (R.faults space.old) (R.faults space.new) result }
{
    let mut row = PropertyRow::BLANK;
    match find_from(space, owner, first, key, &mut row)? {
        Search::Absent(_) => Ok(None),
        Search::Found(_) => {
            let value = read_value(alloc, space, &row)?;
            Ok(Some(value))
        }
    }
}

/// The properties of an element, in the order of their chain.
pub fn read_all<R: Reads>(alloc: Global, space: &mut R, owner: Owner) -> Result<Vec<Prop>, Fault>
    requires { IsOwner owner }
    ensures read { R.tells → (es : List Property)
        → AreProperties (property_records (R.state space.old).records)
        (first_of (R.state space.old).records owner) es
        → IfOk result (λ props. props.items ≡ map prop_of es) }
    ensures met { R.tells → IfOk result
        (λ props. props.items ≡ map prop_of (properties_met (R.state space.old).records owner)) }
    ensures not_damaged { R.tells → (es : List Property)
        → HasProperties (R.state space.old).records owner es → NotDamaged result }
    ensures damaged { R.tells → IsInUse (R.state space.old).records owner
        → IfErr result (BlamesBroken (R.state space.old).records (R.state space.old).shape) }
    ensures kept { IfOk result (λ props. All (λ prop. IsKept prop.value) props.items) }
    ensures few { IfOk result (λ props. length props.items ≤ 32) }
    ensures reads { IfOk result
        (λ props. ReadsAtMost (1 + length props.items + block_total props.items)
        (R.state space.old) (R.state space.new)) }
    ensures at_most { ReadsAtMost 737 (R.state space.old) (R.state space.new) }
    ensures onward { R.onward space.old space.new }
    ensures cause { HasFaultCause (R.faults space.old) (R.faults space.new) result }
{
    let first = owner.first(space)?;
    read_all_from(alloc, space, owner, first)
}

/// The properties of an element whose first property is known, or `NIL` where it has none. It costs
/// no read of the element.
pub fn read_all_from<R: Reads>(
    alloc: Global,
    space: &mut R,
    owner: Owner,
    first: u32,
) -> Result<Vec<Prop>, Fault>
    requires owner { IsOwner owner }
    requires first { R.tells → first ≡ first_of (R.state space.old).records owner }
    ensures read { R.tells → (es : List Property)
        → AreProperties (property_records (R.state space.old).records)
        (first_of (R.state space.old).records owner) es
        → IfOk result (λ props. props.items ≡ map prop_of es) }
    ensures met { R.tells → IfOk result
        (λ props. props.items ≡ map prop_of (properties_met (R.state space.old).records owner)) }
    ensures not_damaged { R.tells → (es : List Property)
        → HasProperties (R.state space.old).records owner es → NotDamaged result }
    ensures damaged { R.tells → IsInUse (R.state space.old).records owner
        → IfErr result (BlamesBroken (R.state space.old).records (R.state space.old).shape) }
    ensures kept { IfOk result (λ props. All (λ prop. IsKept prop.value) props.items) }
    ensures few { IfOk result (λ props. length props.items ≤ 32) }
    ensures reads { IfOk result
        (λ props. ReadsAtMost (length props.items + block_total props.items)
        (R.state space.old) (R.state space.new)) }
    ensures at_most { ReadsAtMost 736 (R.state space.old) (R.state space.new) }
    ensures onward { R.onward space.old space.new }
    ensures cause { HasFaultCause (R.faults space.old) (R.faults space.new) result }
{
    let mut props = Vec::new(alloc);
    let mut row = PropertyRow::BLANK;
    let mut from = owner.key;
    let mut at = first;
    for _ in 0..MOST_PROPERTIES {
        if at == NIL {
            return Ok(props);
        }
        property_at(space, owner.key, from, at, &mut row)?;
        let value = read_value(alloc, space, &row)?;
        let key = row.rec.number(PROPERTY_KEY);
        props.push(Prop { key, value })?;
        from = Key {
            file: PROPERTIES,
            id: at,
        };
        at = row.rec.number(PROPERTY_NEXT);
    }
    if at != NIL {
        return Err(damaged(owner.key.file, owner.key.id, PROPERTY_RULE));
    }
    Ok(props)
}
