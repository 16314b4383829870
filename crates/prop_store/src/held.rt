//! The records that an element's properties and the blocks of their values take.

ghost use Rattle.std.specs.Prelude.{◌≡◌, ◌<◌, ◌≤◌, ◌+◌, ◌++◌, ◌⊎◌, List, [], ◌∷◌, IfErr};
ghost use Rattle.std.specs.Prelude.{IfOk, IfSome, IsTrue, Some, length};
ghost use Rattle.rec_bytes.specs.Fault.{HasFaultCause, NotDamaged};
ghost use Rattle.store_rules.specs.Chains.{In};
ghost use Rattle.store_rules.specs.Properties.{Property};
ghost use Rattle.prop_store.specs.Fault.{BlamesBroken};
ghost use Rattle.prop_store.specs.Held.{AreHeldBy, FitsIds};
ghost use Rattle.prop_store.specs.Owner.{HasProperties, IsInUse, IsOwner, first_of};
ghost use Rattle.prop_store.specs.Reading.{ReadsAtMost};

use crate::Owner;
use crate::damaged::damaged;
use crate::property_row::{PropertyRow, property_at};
use crate::values::value_blocks;
use arrayvec::ArrayVec;
use rec_bytes::{
    Fault, Key, MOST_PROPERTIES, NIL, PROPERTIES, PROPERTY_NEXT, PROPERTY_RULE, Reads, STRINGS,
};

/// The identifiers of an element's properties, and those of the blocks of all their values, in
/// order. They take no memory of their own.
#[derive(Drop)]
pub(crate) struct HeldIds {
    pub ids: ArrayVec<u32, 32>,
    pub blocks: ArrayVec<u32, 704>,
}

impl HeldIds {
    /// None.
    fn new() -> HeldIds
        ensures ids { result.ids.items ≡ [] }
        ensures blocks { result.blocks.items ≡ [] }
    {
        HeldIds {
            ids: ArrayVec::new(),
            blocks: ArrayVec::new(),
        }
    }

    /// Puts a property after the others, and its blocks after theirs.
    fn push(&mut self, id: u32, blocks: &[u32])
        requires few { length self.old.ids.items < 32 }
        requires room { length self.old.blocks.items + length blocks.now ≤ 704 }
        ensures ids { self.new.ids.items ≡ self.old.ids.items ++ id ∷ [] }
        ensures blocks { self.new.blocks.items ≡ self.old.blocks.items ++ blocks.now }
    {
        self.ids.push(id);
        let _all = self.blocks.try_extend_from_slice(blocks);
    }
}

/// Finds the properties of an element from its first one on, and the blocks of their values. A
/// block that two of them have is damaged: each of the two texts was found right.
pub(crate) fn find_held<R: Reads>(space: &mut R, owner: Owner, first: u32) -> Result<HeldIds, Fault>
    requires owner { IsOwner owner }
    requires first { R.tells → first ≡ first_of (R.state space.old).records owner }
    ensures found { R.tells → (es : List Property)
        → HasProperties (R.state space.old).records owner es → IfOk result (AreHeldBy es) }
    ensures not_damaged { R.tells → (es : List Property)
        → HasProperties (R.state space.old).records owner es → NotDamaged result }
    ensures damaged { R.tells → IsInUse (R.state space.old).records owner
        → IfErr result (BlamesBroken (R.state space.old).records (R.state space.old).shape) }
    ensures fits { IfOk result FitsIds }
    ensures at_most { ReadsAtMost 736 (R.state space.old) (R.state space.new) }
    ensures onward { R.onward space.old space.new }
    ensures cause { HasFaultCause (R.faults space.old) (R.faults space.new) result }
{
    let mut held = HeldIds::new();
    let mut shared = None;
    let mut row = PropertyRow::BLANK;
    let mut from = owner.key;
    let mut at = first;
    while at != NIL {
        let count = held.ids.len();
        if count == MOST_PROPERTIES as usize {
            return Err(damaged(owner.key.file, owner.key.id, PROPERTY_RULE));
        }
        property_at(space, owner.key, from, at, &mut row)?;
        let blocks = value_blocks(space, &row)?;
        let own = blocks.as_slice();
        let passed = held.blocks.as_slice();
        shared = shared_block(shared, passed, own);
        held.push(at, own);
        from = Key {
            file: PROPERTIES,
            id: at,
        };
        at = row.rec.number(PROPERTY_NEXT);
    }
    match shared {
        Some(block) => Err(damaged(STRINGS, block, PROPERTY_RULE)),
        None => Ok(held),
    }
}

/// The block that is known, or else one that is among both, if there is one.
fn shared_block(known: Option<u32>, blocks: &[u32], more: &[u32]) -> Option<u32>
    ensures { IfSome result (λ b. (known ≡ Some b) ⊎ (In b blocks.now × In b more.now)) }
{
    if known.is_some() {
        return known;
    }
    for id in more {
        if has_id(blocks, *id) {
            return Some(*id);
        }
    }
    None
}

/// Whether the identifier is one of these.
fn has_id(ids: &[u32], id: u32) -> bool
    ensures { IsTrue result → In id ids.now }
{
    for other in ids {
        if *other == id {
            return true;
        }
    }
    false
}
