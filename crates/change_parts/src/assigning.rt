//! The pairs of a line as properties of a new element.

ghost use Rattle.std.specs.Prelude.{◌≡◌, ◌≤◌, ◌+◌, ◌-◌, ◌++◌, ◌∷◌, [], ℕ, List, Contains, Some};
ghost use Rattle.std.specs.Prelude.{Err, true, false, IfErr, IfOk, OnErr, OnOk, length, nat_eq};
ghost use Rattle.std.specs.Prelude.{position, slice_get, take};
ghost use Rattle.plain_graph.specs.Forms.{ArePairs};
ghost use Rattle.plain_graph.specs.Graph.{UsesName, UsesNames};
ghost use Rattle.plain_graph.specs.Names.{IsShortName};
ghost use Rattle.plain_graph.specs.Properties.{keys_in};
ghost use Rattle.plain_graph.specs.Refusals.{most_names};
ghost use Rattle.plain_graph.specs.declared.command.Target.{Target};
ghost use Rattle.plain_graph.specs.declared.command.Target.TheVariants as targets;
ghost use Rattle.name_store.specs.InternFault.{HasInternCause};
ghost use Rattle.name_store.specs.Interning.{IsFullFault, interned};
ghost use Rattle.name_store.specs.NameRecord.{name_key};
ghost use Rattle.name_store.specs.Names.{AreHeldNames};
ghost use Rattle.prop_store.specs.Owner.{IsOwner};
ghost use Rattle.prop_store.specs.Touching.{LeavesElement};
ghost use Rattle.rec_bytes.specs.Format.{names_file};
ghost use Rattle.rec_bytes.specs.RecordFiles.{meta_key_of};
ghost use Rattle.rec_bytes.specs.Space.{WritesOnly};
ghost use Rattle.change_parts.specs.Assigning.{
  AreAssigned,
  ArePlaced,
  CanPut,
  HasPropertyRoom,
  IsAssignCount,
  IsAssignFault,
  IsPutCause,
  IsReserveFault,
  PutsPairs,
  assigned_blocks,
  pairs_of,
  with_place,
};
ghost use Rattle.store_rules.specs.Writes.{WritesAtMost, WritesBeside};
ghost use Rattle.change_parts.specs.ChangeFault.{HasChangeCause, IsOutside, MayComeLate};
ghost use Rattle.change_parts.specs.Damage.{BlamesBroken, IfBlames, IsOfLists, KeepsButNames};
ghost use Rattle.change_parts.specs.Damage.{LeavesIndexes};
ghost use Rattle.change_parts.specs.Owners.{owner_of};
ghost use Rattle.change_parts.specs.Rooms.{KeepsElementMetas};
ghost use Rattle.change_parts.specs.GivenValues.{GivesValues};
ghost use Rattle.change_parts.specs.Store.{IsMidway, KeepsElements, KeepsIndexes};

use crate::ChangeFault;
use crate::blocks::block_count;
use crate::rooms::test_room;
use arrayvec::ArrayVec;
use name_store::{InternFault, Names};
use plain_graph::Pair;
use prop_store::{Owner, add};
use rec_bytes::{MOST_PROPERTIES, PROPERTIES, Reads, STRINGS, Space};

/// The number of a key, with the place of the pair whose value the key gets.
#[derive(Clone, Copy, Default)]
pub struct Assignment {
    pub key: u32,
    pub pair: usize,
}

/// Gives the keys of the pairs their numbers, and each different key the last of its pairs. All
/// keys are names then, before it is told that they are too many; those after the 33rd different
/// key get no records.
pub(crate) fn assign_pairs<S: Space>(
    space: &mut S,
    names: &mut Names,
    pairs: &[Pair],
) -> Result<ArrayVec<Assignment, 33>, ChangeFault>
    requires pairs { ArePairs pairs.now }
    requires names { AreHeldNames names.old.names }
    ensures uses { OnOk result (UsesNames names.old.names (keys_in pairs.now) names.new.names) }
    ensures assigned { IfOk result (λ assigned.
        AreAssigned names.new.names pairs.now assigned.items) }
    ensures few { IfOk result (λ assigned. length assigned.items ≤ MOST_PROPERTIES) }
    ensures held { OnOk result (AreHeldNames names.new.names) }
    ensures kept { S.tells → OnOk result (IsMidway (S.state space.old) names.old.names
        → KeepsElements (S.state space.old) (S.state space.new) names.new.names) }
    ensures refused { IfErr result (IsAssignFault names.old.names pairs.now) }
    ensures counts { IfErr result IsAssignCount }
    ensures prefix { (rest : List (List ℕ)) × (names.new.names ≡ names.old.names ++ rest) }
    ensures few_names { IfOk result (λ assigned.
        length names.new.names ≤ length names.old.names + length assigned.items) }
    ensures metas { S.tells → OnOk result
        (KeepsElementMetas (S.state space.old) (S.state space.new)) }
    ensures stays { S.tells
        → OnOk result (KeepsButNames (S.state space.old) (S.state space.new)) }
    ensures writes { OnOk result (WritesAtMost (length names.new.names - length names.old.names)
        (S.state space.old) (S.state space.new)) }
    ensures few_writes { WritesAtMost 33 (S.state space.old) (S.state space.new) }
    ensures onward { S.onward space.old space.new }
    ensures cause { HasChangeCause (S.faults space.old) (S.faults space.new) result }
{
    let mut assigned = ArrayVec::new();
    for (place, pair) in pairs.iter().enumerate() {
        let are_few = !assigned.is_full();
        let key = number_key(space, names, pair.key.as_bytes(), are_few)?;
        assign(&mut assigned, key, place);
    }
    if assigned.len() > MOST_PROPERTIES as usize {
        return Err(ChangeFault::PropsFull {
            count: MOST_PROPERTIES,
        });
    }
    Ok(assigned)
}

/// Gives a key its number. One that is new gets a record where the keys are few; else it is only
/// counted, for the line is refused.
fn number_key<S: Space>(
    space: &mut S,
    names: &mut Names,
    key: &[u8],
    are_few: bool,
) -> Result<u32, InternFault>
    requires { IsShortName key.now }
    ensures ok { S.tells → are_few ≡ true → OnOk result
        (S.state space.new ≡ interned (S.state space.old) names.old.names key.now) }
    ensures names { OnOk result (UsesName names.old.names key.now names.new.names) }
    ensures number { IfOk result (λ id. slice_get names.new.names id ≡ Some key.now) }
    ensures full { length names.old.names ≡ most_names → (¬ Contains names.old.names key.now)
        → result ≡ Err (InternFault.NamesFull most_names) }
    ensures full_only { IfErr result (IsFullFault names.old.names key.now) }
    ensures err { OnErr result (names.new.names ≡ names.old.names) }
    ensures known { Contains names.old.names key.now → S.state space.new ≡ S.state space.old }
    ensures held { are_few ≡ false → S.state space.new ≡ S.state space.old }
    ensures metas { S.tells → OnOk result
        (KeepsElementMetas (S.state space.old) (S.state space.new)) }
    ensures writes { WritesOnly (S.state space.old) (S.state space.new)
        (name_key (length names.old.names) ∷ meta_key_of names_file ∷ []) }
    ensures onward { S.onward space.old space.new }
    ensures cause { HasInternCause (S.faults space.old) (S.faults space.new) result }
{
    if are_few {
        names.intern(space, key)
    } else {
        names.hold(key)
    }
}

/// Puts the place of a pair at its key, or behind the others where the key is new. One of more than
/// 33 keys is left out.
fn assign(assigned: &mut ArrayVec<Assignment, 33>, key: u32, pair: usize)
    ensures { assigned.new.items ≡ take 33 (with_place assigned.old.items key pair) }
{
    match place_of(assigned, key) {
        Some(at) => assigned[at] = Assignment { key, pair },
        None => {
            if !assigned.is_full() {
                assigned.push(Assignment { key, pair });
            }
        }
    }
}

/// The place of a key among the assignments.
fn place_of(assigned: &[Assignment], key: u32) -> Option<usize>
    ensures { result ≡ position (λ assignment. nat_eq assignment.key key) assigned.now }
{
    assigned.iter().position(|assignment| assignment.key == key)
}

/// Tests whether the store has room for the properties, and then for the blocks of their values,
/// and answers how many blocks those are.
pub(crate) fn reserve_properties<R: Reads>(
    space: &R,
    assigned: &[Assignment],
    pairs: &[Pair],
) -> Result<u32, ChangeFault>
    requires few { length assigned.now ≤ MOST_PROPERTIES }
    requires placed { ArePlaced pairs.now assigned.now }
    requires pairs { ArePairs pairs.now }
    ensures blocks { IfOk result (λ blocks. blocks ≡ assigned_blocks pairs.now assigned.now) }
    ensures few_blocks { IfOk result (λ blocks. blocks ≤ 704) }
    ensures room { OnOk result (HasPropertyRoom (R.state space.now) (length assigned.now)
        (assigned_blocks pairs.now assigned.now)) }
    ensures refused { IfErr result (IsReserveFault (R.state space.now) (length assigned.now)
        (assigned_blocks pairs.now assigned.now)) }
{
    test_room(space, PROPERTIES, assigned.len() as u32)?;
    let blocks = block_total(assigned, pairs);
    test_room(space, STRINGS, blocks)?;
    Ok(blocks)
}

/// How many blocks the values take together.
fn block_total(assigned: &[Assignment], pairs: &[Pair]) -> u32
    requires few { length assigned.now ≤ MOST_PROPERTIES }
    requires placed { ArePlaced pairs.now assigned.now }
    requires pairs { ArePairs pairs.now }
    ensures is { result ≡ assigned_blocks pairs.now assigned.now }
    ensures few { result ≤ 704 }
{
    let mut blocks = 0;
    for assignment in assigned {
        blocks += block_count(&pairs[assignment.pair].value);
    }
    blocks
}

/// Puts the properties at an element that has none: the keys with the values of their pairs.
pub fn put_properties<S: Space>(
    space: &mut S,
    owner: Owner,
    assigned: &[Assignment],
    pairs: &[Pair],
) -> Result<(), ChangeFault>
    requires owner { IsOwner owner }
    requires few { length assigned.now ≤ MOST_PROPERTIES }
    requires placed { ArePlaced pairs.now assigned.now }
    requires pairs { ArePairs pairs.now }
    ensures put { S.tells → OnOk result ((names : List (List ℕ)) (target : Target)
        → owner ≡ owner_of target → CanPut (S.state space.old) names target pairs.now assigned.now
        → PutsPairs (S.state space.old) (S.state space.new) names target
        (pairs_of names pairs.now assigned.now)) }
    ensures values { S.tells → OnOk result ((names : List (List ℕ)) (id : ℕ)
        → owner ≡ owner_of (targets.Node id)
        → CanPut (S.state space.old) names (targets.Node id) pairs.now assigned.now
        → GivesValues (S.state space.old) (S.state space.new) id pairs.now assigned.now) }
    ensures leaves_indexes { S.tells → OnOk result
        (LeavesIndexes (S.state space.old) (S.state space.new)) }
    ensures leaves { S.tells
        → OnOk result (LeavesElement (S.state space.old) (S.state space.new) owner) }
    ensures indexes { S.tells → OnOk result ((names : List (List ℕ)) (id : ℕ)
        → owner ≡ owner_of (targets.Edge id)
        → CanPut (S.state space.old) names (targets.Edge id) pairs.now assigned.now
        → KeepsIndexes (S.state space.old) (S.state space.new)) }
    ensures not_damaged { S.tells → (names : List (List ℕ)) (target : Target)
        → owner ≡ owner_of target → CanPut (S.state space.old) names target pairs.now assigned.now
        → HasPropertyRoom (S.state space.old) (length assigned.now)
        (assigned_blocks pairs.now assigned.now) → IfErr result IsOutside }
    ensures writes { OnOk result (WritesBeside owner.key
        (length assigned.now + assigned_blocks pairs.now assigned.now)
        (S.state space.old) (S.state space.new)) }
    ensures err_writes { OnErr result (WritesAtMost
        (2 + length assigned.now + assigned_blocks pairs.now assigned.now)
        (S.state space.old) (S.state space.new)) }
    ensures caused { S.tells → IfErr result (IsPutCause (S.state space.new) (length assigned.now)
        (assigned_blocks pairs.now assigned.now)) }
    ensures damaged { S.tells → IfErr result (IfBlames (IsOfLists (S.state space.old))) }
    ensures damaged_after { S.tells → IfErr result (BlamesBroken (S.state space.new)) }
    ensures may_come_late { S.tells → IfErr result MayComeLate }
    ensures onward { S.onward space.old space.new }
    ensures cause { HasChangeCause (S.faults space.old) (S.faults space.new) result }
{
    for assignment in assigned {
        add(space, owner, assignment.key, &pairs[assignment.pair].value)?;
    }
    Ok(())
}
