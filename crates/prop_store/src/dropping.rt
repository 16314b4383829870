//! Properties given back with their blocks.

ghost use Rattle.std.specs.Prelude.{◌≡◌, ◌≤◌, List, [], IfErr, IfOk, OnOk};
ghost use Rattle.rec_bytes.specs.Format.{free_kind, properties_file};
ghost use Rattle.rec_bytes.specs.Space.{SameButReads};
ghost use Rattle.store_rules.specs.Properties.{Property};
ghost use Rattle.store_rules.specs.Views.{kind_at};
ghost use Rattle.prop_store.specs.Dropping.{AreHeld, DropsProperties, DropsProperty, IsHeld};
ghost use Rattle.rec_bytes.specs.Fault.{HasFaultCause, NotDamaged, OnDamage};
ghost use Rattle.prop_store.specs.Blocks.{IsTextFault};
ghost use Rattle.prop_store.specs.Fault.{BlamesBroken};
ghost use Rattle.prop_store.specs.Owner.{IsInUse, IsOwner, first_of};
ghost use Rattle.prop_store.specs.PropertyRow.{IsReadRow, IsRow};
ghost use Rattle.prop_store.specs.Touching.{TouchesProperties};

use crate::Owner;
use crate::changing::Dropped;
use crate::held::find_held;
use crate::property_row::PropertyRow;
use crate::releasing::{release, release_properties};
use crate::values::value_blocks;
use id_freelist::give;
use rec_bytes::{Fault, PROPERTIES, Space};

/// Gives a property and the blocks of its value back, and answers how many blocks those were. What
/// leads to the property stays.
pub(crate) fn drop_property<S: Space>(space: &mut S, row: &PropertyRow) -> Result<u32, Fault>
    requires { IsRow row.now.id row.now }
    ensures dropped { S.tells → (e : Property) → IsHeld (S.state space.old) row.now e
        → IfOk result (DropsProperty (S.state space.old) (S.state space.new) e) }
    ensures not_damaged { S.tells → (e : Property) → IsHeld (S.state space.old) row.now e
        → NotDamaged result }
    ensures gone { S.tells → OnOk result
        (kind_at (S.state space.new).records properties_file row.now.id ≡ free_kind) }
    ensures few { IfOk result (λ released. released ≤ 22) }
    ensures touches { IfOk result (λ released. TouchesProperties S.tells [] 1 released
        (S.state space.old) (S.state space.new)) }
    ensures at_most { TouchesProperties S.tells [] 1 22 (S.state space.old) (S.state space.new) }
    ensures damaged { S.tells → IsReadRow (S.state space.old).records row.now
        → IfErr result (IsTextFault (S.state space.old) row.now.id) }
    ensures unwritten { OnDamage result (SameButReads (S.state space.old) (S.state space.new)) }
    ensures onward { S.onward space.old space.new }
    ensures cause { HasFaultCause (S.faults space.old) (S.faults space.new) result }
{
    let blocks = value_blocks(space, row)?;
    let ids = blocks.as_slice();
    release(space, ids)?;
    give(space, PROPERTIES, row.id)?;
    Ok(ids.len() as u32)
}

/// Gives the properties of an element back from its first one on, and the blocks of their values.
/// All of them are found before the first is given back, so what is damaged is so as it stands.
pub(crate) fn drop_chain<S: Space>(
    space: &mut S,
    owner: Owner,
    first: u32,
) -> Result<Dropped, Fault>
    requires owner { IsOwner owner }
    requires first { S.tells → first ≡ first_of (S.state space.old).records owner }
    ensures dropped { S.tells → (es : List Property) → AreHeld (S.state space.old) first es
        → IfOk result (DropsProperties (S.state space.old) (S.state space.new) es) }
    ensures not_damaged { S.tells → (es : List Property) → AreHeld (S.state space.old) first es
        → NotDamaged result }
    ensures few_properties { IfOk result (λ dropped. dropped.properties ≤ 32) }
    ensures few_blocks { IfOk result (λ dropped. dropped.blocks ≤ 704) }
    ensures touches { IfOk result (λ dropped. TouchesProperties S.tells []
        dropped.properties dropped.blocks (S.state space.old) (S.state space.new)) }
    ensures at_most { TouchesProperties S.tells [] 32 704 (S.state space.old) (S.state space.new) }
    ensures damaged { S.tells → IsInUse (S.state space.old).records owner
        → IfErr result (BlamesBroken (S.state space.old).records (S.state space.old).shape) }
    ensures unwritten { OnDamage result (SameButReads (S.state space.old) (S.state space.new)) }
    ensures onward { S.onward space.old space.new }
    ensures cause { HasFaultCause (S.faults space.old) (S.faults space.new) result }
{
    let held = find_held(space, owner, first)?;
    let ids = held.ids.as_slice();
    let blocks = held.blocks.as_slice();
    release(space, blocks)?;
    release_properties(space, ids)?;
    Ok(Dropped {
        properties: ids.len() as u32,
        blocks: blocks.len() as u32,
    })
}
