//! The eighth rule of a store with indexes: definitions, their lists, and what the nodes have.

ghost use Rattle.std.specs.Prelude.{◌≡◌, ◌<◌, ◌≤◌, IfNone, IfOk, IfSome, get_or, length, map, ℕ};
ghost use Rattle.std.specs.List.{All};
ghost use Rattle.rec_bytes.specs.Fault.{HasFaultCause, NotDamaged};
ghost use Rattle.rec_bytes.specs.Format.{index_file, most_ids};
ghost use Rattle.rec_bytes.specs.Frame.{IsRead};
ghost use Rattle.rec_bytes.specs.Space.{HasCause};
ghost use Rattle.record_lists.specs.Deciding.{AreMarksLow, DecidesRule};
ghost use Rattle.record_lists.specs.Seen.{is_among, is_seen};
ghost use Rattle.store_rules.specs.Chains.{In};
ghost use Rattle.store_rules.specs.IndexBreaking.{AreDefinitions};
ghost use Rattle.store_rules.specs.Indexes.{AreIndexed, wanted_in};
ghost use Rattle.store_rules.specs.Rules.{IsWellFormed};
ghost use Rattle.store_rules.specs.Views.{high};
ghost use Rattle.index_check.specs.Definitions.{definition_at};
ghost use Rattle.index_check.specs.Indexing.{
  AreAllHeld,
  AreAllSeen,
  BreaksIndexRule,
  DecidesIndexRule,
  IsGiven,
  IsRight,
};
ghost use Rattle.index_check.specs.Values.{AreReadable};

use crate::buckets::{BUCKETS, Buckets};
use crate::definitions::{Definition, find_definitions, find_twin, read_definitions};
use crate::head_records::HeadRecords;
use crate::index::{broken, check_index};
use rec_bytes::{DEFINITION_HEAD_COUNT, Damage, Fault, INDEX, META, NIL, Reads, SpaceFault};
use record_lists::{Broke, find_unseen, list_heads, seen_of};
use std::alloc::Global;

/// The definition at a place among these; there is one where the space tells.
fn named_at(ids: &[u32], at: u32) -> u32
    ensures { at < length ids.now → result ≡ get_or ids.now at 0 }
{
    match ids.get(at as usize) {
        Some(id) => *id,
        None => NIL,
    }
}

/// Sees the records of heads and the entries of these definitions, or finds what breaks the eighth
/// rule of them.
fn see_lists<R: Reads>(
    alloc: Global,
    space: &mut R,
    ids: &[u32],
    seen: &mut [bool],
) -> Result<Option<Damage>, SpaceFault>
    requires few { length ids.now ≤ 16 }
    requires ids { All (λ x. x < most_ids) ids.now }
    requires low { AreMarksLow (R.state space.old).records }
    requires seen { length seen.old ≡ high (R.state space.old).records index_file }
    requires told { (p : ℕ) → is_seen seen.old p ≡ is_among ids.now p }
    requires listed { R.tells → AreDefinitions (R.state space.old).records ids.now }
    ensures right { R.tells → IfOk result (λ found. IfNone found
        (AreAllSeen (R.state space.old).records ids.now seen.new)) }
    ensures broken { R.tells → IfOk result (λ found. IfSome found
        (BreaksIndexRule (R.state space.old).records)) }
    ensures len { length seen.new ≡ length seen.old }
    ensures read { IsRead R.Reads space.old space.new }
    ensures cause { HasCause (R.faults space.old) (R.faults space.new) result }
{
    let records = space.meta(INDEX).high;
    let count = ids.len() as u32;
    let heads = HeadRecords { ids, records };
    let twelve = DEFINITION_HEAD_COUNT as u32;
    match list_heads(alloc, space, &heads, twelve * count, seen)? {
        Some(Broke::Head(id)) => return Ok(Some(broken(INDEX, named_at(ids, id / twelve)))),
        Some(Broke::Item(id)) => return Ok(Some(broken(INDEX, id))),
        None => {}
    }
    let buckets = Buckets { ids, records };
    let number = BUCKETS as u32;
    match list_heads(alloc, space, &buckets, number * count, seen)? {
        Some(Broke::Head(id)) => Ok(Some(broken(INDEX, named_at(ids, id / number)))),
        Some(Broke::Item(id)) => Ok(Some(broken(INDEX, id))),
        None => Ok(None),
    }
}

/// Finds what breaks the eighth rule of the lists of these definitions, or a record in use that is
/// in none of them, with the definitions seen.
fn check_seen<R: Reads>(
    alloc: Global,
    space: &mut R,
    ids: &[u32],
    seen: &mut [bool],
) -> Result<Option<Damage>, SpaceFault>
    requires few { length ids.now ≤ 16 }
    requires ids { All (λ x. x < most_ids) ids.now }
    requires low { AreMarksLow (R.state space.old).records }
    requires seen { length seen.old ≡ high (R.state space.old).records index_file }
    requires told { (p : ℕ) → is_seen seen.old p ≡ is_among ids.now p }
    requires listed { R.tells → AreDefinitions (R.state space.old).records ids.now }
    ensures right { R.tells → IfOk result (λ found. IfNone found
        (AreAllHeld (R.state space.old).records ids.now)) }
    ensures broken { R.tells → IfOk result (λ found. IfSome found
        (BreaksIndexRule (R.state space.old).records)) }
    ensures read { IsRead R.Reads space.old space.new }
    ensures cause { HasCause (R.faults space.old) (R.faults space.new) result }
{
    if let Some(damage) = see_lists(alloc, space, ids, seen)? {
        return Ok(Some(damage));
    }
    match find_unseen(space, INDEX, seen)? {
        Some(id) => Ok(Some(broken(INDEX, id))),
        None => Ok(None),
    }
}

/// Finds what breaks the eighth rule of the lists of these definitions, or a record in use that is
/// in none of them.
fn check_lists<R: Reads>(
    alloc: Global,
    space: &mut R,
    ids: &[u32],
) -> Result<Option<Damage>, SpaceFault>
    requires few { length ids.now ≤ 16 }
    requires ids { All (λ x. x < high (R.state space.old).records index_file) ids.now }
    requires low { AreMarksLow (R.state space.old).records }
    requires listed { R.tells → AreDefinitions (R.state space.old).records ids.now }
    ensures right { R.tells → IfOk result (λ found. IfNone found
        (AreAllHeld (R.state space.old).records ids.now)) }
    ensures broken { R.tells → IfOk result (λ found. IfSome found
        (BreaksIndexRule (R.state space.old).records)) }
    ensures read { IsRead R.Reads space.old space.new }
    ensures cause { HasCause (R.faults space.old) (R.faults space.new) result }
{
    let Ok(mut seen) = seen_of(alloc, space.meta(INDEX).high as usize, ids) else {
        return Err(SpaceFault::Memory);
    };
    check_seen(alloc, space, ids, &mut seen)
}

/// Finds what breaks the eighth rule of the entries and the nodes of these definitions.
fn check_each<R: Reads>(
    alloc: Global,
    space: &mut R,
    definitions: &[Definition],
) -> Result<Option<Damage>, Fault>
    requires ids { All (λ d. d.id < most_ids) definitions.now }
    requires given { R.tells → All (IsGiven (R.state space.old).records) definitions.now }
    requires low { AreMarksLow (R.state space.old).records }
    ensures right { R.tells → IfOk result (λ found. IfNone found ((d : ℕ)
        → In d (map (λ a. a.id) definitions.now) → IsRight (R.state space.old).records d)) }
    ensures broken { R.tells → IfOk result (λ found. IfSome found
        (BreaksIndexRule (R.state space.old).records)) }
    ensures not_damaged { R.tells → AreReadable (R.state space.old).records → NotDamaged result }
    ensures read { IsRead R.Reads space.old space.new }
    ensures cause { HasFaultCause (R.faults space.old) (R.faults space.new) result }
{
    for definition in definitions {
        if let Some(damage) = check_index(alloc, space, definition)? {
            return Ok(Some(damage));
        }
    }
    Ok(None)
}

/// Decides the eighth rule of a store with these definitions.
fn check_definitions<R: Reads>(
    alloc: Global,
    space: &mut R,
    ids: &[u32],
    definitions: &[Definition],
) -> Result<Option<Damage>, Fault>
    requires few { length ids.now ≤ 16 }
    requires ids { All (λ x. x < high (R.state space.old).records index_file) ids.now }
    requires low { AreMarksLow (R.state space.old).records }
    requires listed { R.tells → AreDefinitions (R.state space.old).records ids.now }
    requires named { map (λ d. d.id) definitions.now ≡ ids.now }
    requires are { R.tells → definitions.now
        ≡ map (definition_at (R.state space.old).records) ids.now }
    ensures decided { R.tells → IfOk result (DecidesIndexRule (R.state space.old).records) }
    ensures not_damaged { R.tells → AreReadable (R.state space.old).records → NotDamaged result }
    ensures read { IsRead R.Reads space.old space.new }
    ensures cause { HasFaultCause (R.faults space.old) (R.faults space.new) result }
{
    if let Some(id) = find_twin(definitions) {
        return Ok(Some(broken(INDEX, id)));
    }
    if let Some(damage) = check_lists(alloc, space, ids)? {
        return Ok(Some(damage));
    }
    match check_each(alloc, space, definitions)? {
        Some(damage) => Ok(Some(damage)),
        None => Ok(None),
    }
}

/// Decides the eighth rule, where the properties of nodes can be read.
fn decide<R: Reads>(alloc: Global, space: &mut R) -> Result<Option<Damage>, Fault>
    requires { AreMarksLow (R.state space.old).records }
    ensures decided { R.tells → IfOk result (DecidesIndexRule (R.state space.old).records) }
    ensures not_damaged { R.tells → AreReadable (R.state space.old).records → NotDamaged result }
    ensures read { IsRead R.Reads space.old space.new }
    ensures cause { HasFaultCause (R.faults space.old) (R.faults space.new) result }
{
    let records = space.meta(INDEX).high;
    let Some(ids) = find_definitions(alloc, space, records)? else {
        return Ok(Some(broken(META, INDEX as u32)));
    };
    let definitions = read_definitions(alloc, space, &ids)?;
    check_definitions(alloc, space, &ids, &definitions)
}

/// Decides the eighth rule, where the other seven are kept. It only reads.
pub fn check_indexes<R: Reads>(alloc: Global, space: &mut R) -> Result<Option<Damage>, SpaceFault>
    requires low { AreMarksLow (R.state space.old).records }
    requires rules { R.tells
        → IsWellFormed (R.state space.old).records (R.state space.old).shape }
    ensures decided { R.tells → IfOk result
        (DecidesRule (R.state space.old).records (R.state space.old).shape 8) }
    ensures only { R.tells → AreIndexed (R.state space.old).records
        (wanted_in (R.state space.old).records) → IfOk result (λ found. found ≡ None) }
    ensures read { IsRead R.Reads space.old space.new }
    ensures cause { HasCause (R.faults space.old) (R.faults space.new) result }
{
    match decide(alloc, space) {
        Ok(found) => Ok(found),
        Err(Fault::Damaged(damage)) => Ok(Some(damage)),
        Err(Fault::Memory) => Err(SpaceFault::Memory),
        Err(Fault::Disk) => Err(SpaceFault::Disk),
    }
}
