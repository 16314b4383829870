//! Properties of one element that are taken away, with the blocks of their values.

ghost use Rattle.std.specs.Prelude.{◌+◌, ◌<◌, ◌≤◌, List, None, IfOk, [], ◌∷◌, IfErr, OnOk};
ghost use Rattle.store_rules.specs.Properties.{Property};
ghost use Rattle.store_rules.specs.Writes.{WritesAtMost, WritesBeside};
ghost use Rattle.prop_store.specs.Alone.{DropsAllAlone, OwnsProperties, UnsetsAlone};
ghost use Rattle.prop_store.specs.Changing.{DropsAll, HasElement, HasKey, UnsetsValue};
ghost use Rattle.prop_store.specs.Changing.{released_blocks};
ghost use Rattle.rec_bytes.specs.Fault.{HasFaultCause, NotDamaged, OnDamage};
ghost use Rattle.rec_bytes.specs.Space.{SameButReads};
ghost use Rattle.prop_store.specs.Fault.{BlamesBroken};
ghost use Rattle.prop_store.specs.Finding.{FreesMet};
ghost use Rattle.prop_store.specs.Owner.{IsInUse, IsOwner};
ghost use Rattle.prop_store.specs.Touching.{LeavesElement, TouchesProperties};

use crate::dropping::{drop_chain, drop_property};
use crate::finding::{Search, find};
use crate::property_row::PropertyRow;
use crate::{Owner, SetFault};
use plain_graph::Value;
use rec_bytes::{Fault, NIL, PROPERTY_NEXT, Reads, Space, set_number};

/// What a change gave back.
#[derive(Clone, Copy, PartialEq, Eq)]
pub struct Dropped {
    pub properties: u32,
    pub blocks: u32,
}

/// Takes the value of a key of an element away, and answers how many blocks it had; none where the
/// element hasn't the key.
pub fn unset<S: Space>(space: &mut S, owner: Owner, key: u32) -> Result<Option<u32>, Fault>
    requires owner { IsOwner owner }
    ensures unset { S.tells → IfOk result (λ released. HasKey (S.state space.old) owner key
        → UnsetsValue (S.state space.old) (S.state space.new) owner key released) }
    ensures not_damaged { S.tells → HasKey (S.state space.old) owner key → NotDamaged result }
    ensures owned { S.tells → (es : List Property) → OwnsProperties (S.state space.old) owner es
        → IfOk result (UnsetsAlone (S.state space.old) (S.state space.new) owner es key) }
    ensures owned_not_damaged { S.tells → (es : List Property)
        → OwnsProperties (S.state space.old) owner es → NotDamaged result }
    ensures damaged { S.tells → IsInUse (S.state space.old).records owner
        → IfErr result (BlamesBroken (S.state space.old).records (S.state space.old).shape) }
    // the property of the key that the records led to is in use no more
    ensures gone { S.tells → OnOk result
        (FreesMet (S.state space.old).records (S.state space.new).records owner key) }
    ensures few { IfOk result (λ released. released_blocks released ≤ 22) }
    ensures writes { IfOk result (λ released. WritesAtMost (2 + released_blocks released)
        (S.state space.old) (S.state space.new)) }
    ensures touches { IfOk result (λ released. TouchesProperties S.tells (owner.key ∷ [])
        2 (released_blocks released) (S.state space.old) (S.state space.new)) }
    ensures at_most { TouchesProperties S.tells (owner.key ∷ []) 2 22
        (S.state space.old) (S.state space.new) }
    ensures few_writes { WritesAtMost 24 (S.state space.old) (S.state space.new) }
    ensures onward { S.onward space.old space.new }
    ensures cause { HasFaultCause (S.faults space.old) (S.faults space.new) result }
{
    let mut row = PropertyRow::BLANK;
    match find(space, owner, key, &mut row)? {
        Search::Absent(_) => Ok(None),
        Search::Found(link) => {
            let released = drop_property(space, &row)?;
            let next = row.rec.number(PROPERTY_NEXT);
            set_number(space, link.key, link.field, next)?;
            Ok(Some(released))
        }
    }
}

/// Takes all properties of an element away, and answers how many there were, and blocks.
pub fn drop_all<S: Space>(space: &mut S, owner: Owner) -> Result<Dropped, Fault>
    requires owner { IsOwner owner }
    ensures dropped { S.tells → IfOk result (λ dropped. HasElement (S.state space.old) owner
        → DropsAll (S.state space.old) (S.state space.new) owner dropped) }
    ensures not_damaged { S.tells → HasElement (S.state space.old) owner → NotDamaged result }
    ensures owned { S.tells → (es : List Property) → OwnsProperties (S.state space.old) owner es
        → IfOk result (DropsAllAlone (S.state space.old) (S.state space.new) owner es) }
    ensures owned_not_damaged { S.tells → (es : List Property)
        → OwnsProperties (S.state space.old) owner es → NotDamaged result }
    ensures damaged { S.tells → IsInUse (S.state space.old).records owner
        → IfErr result (BlamesBroken (S.state space.old).records (S.state space.old).shape) }
    ensures unwritten { OnDamage result (SameButReads (S.state space.old) (S.state space.new)) }
    ensures few_properties { IfOk result (λ dropped. dropped.properties ≤ 32) }
    ensures few_blocks { IfOk result (λ dropped. dropped.blocks ≤ 704) }
    ensures writes { IfOk result (λ dropped.
        WritesBeside owner.key (dropped.properties + dropped.blocks)
        (S.state space.old) (S.state space.new)) }
    ensures touches { IfOk result (λ dropped. TouchesProperties S.tells (owner.key ∷ [])
        dropped.properties dropped.blocks (S.state space.old) (S.state space.new)) }
    ensures at_most { TouchesProperties S.tells (owner.key ∷ []) 32 704
        (S.state space.old) (S.state space.new) }
    ensures leaves { S.tells
        → LeavesElement (S.state space.old) (S.state space.new) owner }
    ensures onward { S.onward space.old space.new }
    ensures cause { HasFaultCause (S.faults space.old) (S.faults space.new) result }
{
    let first = owner.first(space)?;
    let dropped = drop_chain(space, owner, first)?;
    if first != NIL {
        set_number(space, owner.key, owner.field, NIL)?;
    }
    Ok(dropped)
}
