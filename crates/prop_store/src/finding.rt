ghost use Rattle.std.specs.Prelude.{◌≡◌, ◌+◌, List, IfErr, IfOk, OnOk, length};
ghost use Rattle.store_rules.specs.Properties.{AreProperties, Property, property_records};
ghost use Rattle.rec_bytes.specs.Fault.{HasFaultCause, NotDamaged};
ghost use Rattle.prop_store.specs.Fault.{BlamesBroken};
ghost use Rattle.prop_store.specs.Finding.{IsMet, IsPlaced, IsReadAt, IsSought};
ghost use Rattle.prop_store.specs.Owner.{HasProperties, IsInUse, IsOwner, first_of};
ghost use Rattle.prop_store.specs.Reading.{ReadsAtMost};

use crate::Owner;
use crate::damaged::damaged;
use crate::link::Link;
use crate::property_row::{PropertyRow, property_at};
use rec_bytes::{Fault, MOST_PROPERTIES, NIL, PROPERTY_KEY, PROPERTY_NEXT, PROPERTY_RULE, Reads};

/// What came of a search for a key: the link to its property, or how many properties there are
/// without it.
#[derive(Clone, Copy)]
pub(crate) enum Search {
    Found(Link),
    Absent(u32),
}

/// Finds the property of a key, and reads it into the caller's row.
pub(crate) fn find<R: Reads>(
    space: &mut R,
    owner: Owner,
    key: u32,
    row: &mut PropertyRow,
) -> Result<Search, Fault>
    requires { IsOwner owner }
    ensures found { R.tells → (es : List Property)
        → AreProperties (property_records (R.state space.old).records)
        (first_of (R.state space.old).records owner) es
        → IfOk result (IsSought (R.state space.old).records owner es key row.new) }
    ensures met { R.tells → IfOk result (IsMet (R.state space.old).records owner key row.new) }
    ensures not_damaged { R.tells → (es : List Property)
        → HasProperties (R.state space.old).records owner es → NotDamaged result }
    ensures read { R.tells → IfOk result (IsReadAt (R.state space.old).records row.new) }
    ensures damaged { R.tells → IsInUse (R.state space.old).records owner
        → IfErr result (BlamesBroken (R.state space.old).records (R.state space.old).shape) }
    ensures placed { IfOk result (IsPlaced owner key row.new) }
    ensures cost { R.tells → (es : List Property)
        → AreProperties (property_records (R.state space.old).records)
        (first_of (R.state space.old).records owner) es
        → OnOk result (ReadsAtMost (1 + length es) (R.state space.old) (R.state space.new)) }
    ensures at_most { ReadsAtMost 33 (R.state space.old) (R.state space.new) }
    ensures onward { R.onward space.old space.new }
    ensures cause { HasFaultCause (R.faults space.old) (R.faults space.new) result }
{
    let first = owner.first(space)?;
    find_from(space, owner, first, key, row)
}

/// The same of an element whose first property is known, or `NIL` where it has none. It costs no
/// read of the element.
pub(crate) fn find_from<R: Reads>(
    space: &mut R,
    owner: Owner,
    first: u32,
    key: u32,
    row: &mut PropertyRow,
) -> Result<Search, Fault>
    requires owner { IsOwner owner }
    requires first { R.tells → first ≡ first_of (R.state space.old).records owner }
    ensures found { R.tells → (es : List Property)
        → AreProperties (property_records (R.state space.old).records)
        (first_of (R.state space.old).records owner) es
        → IfOk result (IsSought (R.state space.old).records owner es key row.new) }
    ensures met { R.tells → IfOk result (IsMet (R.state space.old).records owner key row.new) }
    ensures not_damaged { R.tells → (es : List Property)
        → HasProperties (R.state space.old).records owner es → NotDamaged result }
    ensures read { R.tells → IfOk result (IsReadAt (R.state space.old).records row.new) }
    ensures damaged { R.tells → IsInUse (R.state space.old).records owner
        → IfErr result (BlamesBroken (R.state space.old).records (R.state space.old).shape) }
    ensures placed { IfOk result (IsPlaced owner key row.new) }
    ensures cost { R.tells → (es : List Property)
        → AreProperties (property_records (R.state space.old).records)
        (first_of (R.state space.old).records owner) es
        → OnOk result (ReadsAtMost (length es) (R.state space.old) (R.state space.new)) }
    ensures at_most { ReadsAtMost 32 (R.state space.old) (R.state space.new) }
    ensures onward { R.onward space.old space.new }
    ensures cause { HasFaultCause (R.faults space.old) (R.faults space.new) result }
{
    let mut link = Link::of(owner);
    let mut at = first;
    for count in 0..MOST_PROPERTIES {
        if at == NIL {
            return Ok(Search::Absent(count));
        }
        property_at(space, owner.key, link.key, at, row)?;
        if row.rec.number(PROPERTY_KEY) == key {
            return Ok(Search::Found(link));
        }
        link = Link::after(at);
        at = row.rec.number(PROPERTY_NEXT);
    }
    if at != NIL {
        return Err(damaged(owner.key.file, owner.key.id, PROPERTY_RULE));
    }
    Ok(Search::Absent(MOST_PROPERTIES))
}
