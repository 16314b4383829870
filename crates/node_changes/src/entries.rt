//! The entries that the indexes have of the values of a node.

ghost use Rattle.std.specs.Prelude.{◌≡◌, ◌≢◌, ◌++◌, ◌+◌, ◌*◌, ◌<◌, ◌≤◌, [], IfErr, IfOk};
ghost use Rattle.std.specs.Prelude.{IfSome, OnOk, Some, false, true};
ghost use Rattle.std.specs.Prelude.{length, map};
ghost use Rattle.plain_graph.specs.Forms.{IsKept};
ghost use Rattle.plain_graph.specs.declared.command.Target.TheVariants as targets;
ghost use Rattle.prop_index.specs.Listing.{pair_of};
ghost use Rattle.prop_index.specs.Naming.{IsDefinitionOrList};
ghost use Rattle.prop_index.specs.Sparing.{SparesDefinitions};
ghost use Rattle.prop_index.specs.Touching.{TouchesIndex};
ghost use Rattle.prop_store.specs.Owner.{IsInUse};
ghost use Rattle.prop_store.specs.Reading.{ReadsAtMost};
ghost use Rattle.rec_bytes.specs.Format.{index_file, node_label, nodes_file};
ghost use Rattle.rec_bytes.specs.Key.{IsKey};
ghost use Rattle.rec_bytes.specs.Record.{field};
ghost use Rattle.rec_bytes.specs.Space.{SameButReads, meta_of};
ghost use Rattle.store_rules.specs.Graph.{indexes_of};
ghost use Rattle.store_rules.specs.IndexBreaking.{HasDefinitions};
ghost use Rattle.store_rules.specs.Indexes.{AreIndexed, Entries, IsIndexed};
ghost use Rattle.store_rules.specs.Rows.{option_list};
ghost use Rattle.store_rules.specs.Views.{high, key_in, rec_at};
ghost use Rattle.change_parts.specs.Assigning.{ArePlaced};
ghost use Rattle.change_parts.specs.Causes.{IsNodeTarget};
ghost use Rattle.change_parts.specs.ChangeFault.{HasChangeCause, IsFailure, IsOutside, MayComeLate};
ghost use Rattle.change_parts.specs.Damage.{BlamesBroken, BlamesEntry, BlamesUntouched, IfBlames};
ghost use Rattle.change_parts.specs.Damage.{IsListOrFound, IsOfIndex};
ghost use Rattle.node_changes.specs.Entries.{AreKeysOnce, ArePairsOf, HasMet, IsEntryFault};
ghost use Rattle.node_changes.specs.Entries.{IsEntryRefusal, IsEntryUndamaged, IsIndexedValue};
ghost use Rattle.node_changes.specs.Entries.{LacksEntries, LacksHeld, WantsHeld, held_at};
ghost use Rattle.node_changes.specs.Entries.{held_is_listed, held_of, held_weight, indexed_of};
ghost use Rattle.node_changes.specs.Entries.{is_listed, new_weight, old_weight, value_weight};
ghost use Rattle.node_changes.specs.Entries.{with_new, without_held, without_old};
ghost use Rattle.change_parts.specs.GivenValues.{with_assigned};
ghost use Rattle.change_parts.specs.Owners.{owner_of};
ghost use Rattle.change_parts.specs.Rooms.{HasRoom};
ghost use Rattle.store_rules.specs.Rules.{IsWhole};

use change_parts::{Assignment, ChangeFault, node_owner};
use plain_graph::{Pair, Target, Value};
use prop_index::{IndexPair, enter, indexes, leave};
use prop_store::read_key;
use rec_bytes::{INDEX, MOST_PROPERTIES, Reads, Space};
use std::alloc::Global;

/// What an entry is changed for: a value that an index has of a node, or the place of one.
#[derive(Drop)]
pub(crate) struct IndexedValue {
    pub label: u32,
    pub key: u32,
    pub node: u32,
    /// None where the node hasn't the key.
    pub value: Option<Value>,
}

// ---- the pairs that have an index

/// The pairs of label and key that have an index. Nothing is read where no record of the indexes is
/// in use.
pub(crate) fn listed_pairs<R: Reads>(
    alloc: Global,
    space: &mut R,
) -> Result<Vec<IndexPair>, ChangeFault>
    ensures listed { R.tells → (wanted : Entries)
        → (ix : AreIndexed (R.state space.old).records wanted) → IsWhole (R.state space.old)
        → IfOk result (λ pairs. pairs.items
        ≡ map (pair_of (R.state space.old).records) ix.definitions) }
    ensures not_damaged { R.tells → (wanted : Entries)
        → AreIndexed (R.state space.old).records wanted
        → IsWhole (R.state space.old) → IfErr result IsOutside }
    ensures failure { IfErr result IsFailure }
    ensures damaged { R.tells → IfErr result (BlamesBroken (R.state space.old)) }
    ensures names { R.tells → IfErr result (IfBlames IsOfIndex) }
    ensures walked { R.tells → IfOk result (λ pairs. 0 < length pairs.items
        → HasDefinitions (R.state space.old).records) }
    ensures few { IfOk result (λ pairs. length pairs.items ≤ 16) }
    ensures none { (meta_of (R.state space.old) index_file).live ≡ 0
        → IfOk result (λ pairs. pairs.items ≡ []) }
    ensures unread { (meta_of (R.state space.old) index_file).live ≡ 0
        → R.state space.new ≡ R.state space.old }
    ensures same { SameButReads (R.state space.old) (R.state space.new) }
    ensures reads { ReadsAtMost 17 (R.state space.old) (R.state space.new) }
    ensures onward { R.onward space.old space.new }
    ensures cause { HasChangeCause (R.faults space.old) (R.faults space.new) result }
{
    if space.meta(INDEX).live == 0 {
        return Ok(Vec::new(alloc));
    }
    let pairs = indexes(alloc, space)?;
    Ok(pairs)
}

/// Whether the label and the key are one of the pairs.
pub(crate) fn has_pair(pairs: &[IndexPair], label: u32, key: u32) -> bool
    ensures { result ≡ is_listed pairs.now label key }
{
    pairs
        .iter()
        .any(|pair| pair.label == label && pair.key == key)
}

// ---- the values of a new node

/// How many of the assignments have a key that an index has with the label.
pub(crate) fn entry_count(listed: &[IndexPair], label: u32, assigned: &[Assignment]) -> u32
    requires { length assigned.now ≤ MOST_PROPERTIES }
    ensures is { result ≡ length (indexed_of listed.now label assigned.now) }
    ensures few { result ≤ length assigned.now }
{
    let mut count = 0;
    for assignment in assigned {
        if has_pair(listed, label, assignment.key) {
            count += 1;
        }
    }
    count
}

/// Adds an entry for each value that a new node has of a key with an index of its label.
pub(crate) fn enter_values<S: Space>(
    space: &mut S,
    listed: &[IndexPair],
    label: u32,
    node: u32,
    assigned: &[Assignment],
    pairs: &[Pair],
) -> Result<(), ChangeFault>
    requires placed { ArePlaced pairs.now assigned.now }
    ensures entered { S.tells → (wanted : Entries)
        → ArePairsOf (S.state space.old) wanted listed.now
        → node < high (S.state space.old).records nodes_file → LacksEntries wanted node
        → AreKeysOnce assigned.now → OnOk result (AreIndexed (S.state space.new).records
        (with_assigned wanted label node pairs.now assigned.now)) }
    ensures keeps { S.tells → (wanted : Entries)
        → ArePairsOf (S.state space.old) wanted listed.now
        → node < high (S.state space.old).records nodes_file → LacksEntries wanted node
        → AreKeysOnce assigned.now → OnOk result (IsWhole (S.state space.new)) }
    ensures not_damaged { S.tells → (wanted : Entries)
        → ArePairsOf (S.state space.old) wanted listed.now
        → node < high (S.state space.old).records nodes_file → LacksEntries wanted node
        → AreKeysOnce assigned.now → HasRoom (S.state space.old) index_file
        (length (indexed_of listed.now label assigned.now)) → IfErr result IsOutside }
    ensures graph { S.tells → (wanted : Entries)
        → ArePairsOf (S.state space.old) wanted listed.now
        → node < high (S.state space.old).records nodes_file → LacksEntries wanted node
        → AreKeysOnce assigned.now → OnOk result
        (indexes_of (S.state space.new).records ≡ indexes_of (S.state space.old).records) }
    ensures full { S.tells → IfErr result (IsEntryFault (S.state space.new)) }
    ensures some { IfErr result (λ _. 0 < length assigned.now) }
    ensures may_come_late { S.tells → IfErr result MayComeLate }
    ensures touches { TouchesIndex S.tells (3 * length (indexed_of listed.now label assigned.now))
        (S.state space.old) (S.state space.new) }
    ensures blames { S.tells → IfErr result (BlamesEntry (S.state space.new)) }
    ensures found { S.tells
        → (0 < length listed.now → HasDefinitions (S.state space.old).records)
        → IfErr result (IfBlames (IsListOrFound (S.state space.old) (S.state space.new))) }
    ensures onward { S.onward space.old space.new }
    ensures cause { HasChangeCause (S.faults space.old) (S.faults space.new) result }
{
    for assignment in assigned {
        if has_pair(listed, label, assignment.key) {
            let value = &pairs[assignment.pair].value;
            enter(space, label, assignment.key, node, value)?;
        }
    }
    Ok(())
}

// ---- the values of a node that is deleted

/// The values that a node of this label has in indexes.
pub(crate) fn held_values<R: Reads>(
    alloc: Global,
    space: &mut R,
    label: u32,
    node: u32,
) -> Result<Vec<IndexedValue>, ChangeFault>
    requires { IsKey (key_in nodes_file node) }
    ensures held { R.tells → (ix : IsIndexed (R.state space.old).records
        (R.state space.old).shape)
        → IsInUse (R.state space.old).records (owner_of (targets.Node node))
        → label ≡ field 4 (rec_at (R.state space.old).records nodes_file node) node_label
        → IfOk result (λ held. held.items ≡ held_of (R.state space.old).records label node
        (map (pair_of (R.state space.old).records) ix.indexes.definitions)) }
    ensures not_damaged { R.tells → IsIndexed (R.state space.old).records (R.state space.old).shape
        → IsInUse (R.state space.old).records (owner_of (targets.Node node))
        → IfErr result IsOutside }
    ensures failure { IfErr result IsFailure }
    ensures damaged { R.tells
        → IsInUse (R.state space.old).records (owner_of (targets.Node node))
        → IfErr result (BlamesBroken (R.state space.old)) }
    ensures walked { R.tells → IfOk result (λ held. 0 < length held.items
        → HasDefinitions (R.state space.old).records) }
    ensures few { IfOk result (λ held. length held.items ≤ 16) }
    ensures same { SameButReads (R.state space.old) (R.state space.new) }
    ensures onward { R.onward space.old space.new }
    ensures cause { HasChangeCause (R.faults space.old) (R.faults space.new) result }
{
    let listed = listed_pairs(alloc, space)?;
    let mut held = Vec::new(alloc);
    for pair in &listed {
        let value = held_value(alloc, space, *pair, label, node)?;
        hold(&mut held, value)?;
    }
    Ok(held)
}

/// The value that a node of this label has in the index of a pair.
fn held_value<R: Reads>(
    alloc: Global,
    space: &mut R,
    pair: IndexPair,
    label: u32,
    node: u32,
) -> Result<Option<IndexedValue>, ChangeFault>
    requires { IsKey (key_in nodes_file node) }
    ensures held { R.tells
        → IsInUse (R.state space.old).records (owner_of (targets.Node node))
        → label ≡ field 4 (rec_at (R.state space.old).records nodes_file node) node_label
        → IfOk result (λ held. held
        ≡ held_at (R.state space.old).records label node pair) }
    ensures not_damaged { R.tells → IsWhole (R.state space.old)
        → IsInUse (R.state space.old).records (owner_of (targets.Node node))
        → IfErr result IsOutside }
    ensures failure { IfErr result IsFailure }
    ensures damaged { R.tells
        → IsInUse (R.state space.old).records (owner_of (targets.Node node))
        → IfErr result (BlamesBroken (R.state space.old)) }
    ensures same { SameButReads (R.state space.old) (R.state space.new) }
    ensures onward { R.onward space.old space.new }
    ensures cause { HasChangeCause (R.faults space.old) (R.faults space.new) result }
{
    if pair.label != label {
        return Ok(None);
    }
    let Some(value) = read_key(alloc, space, node_owner(node), pair.key)? else {
        return Ok(None);
    };
    Ok(Some(IndexedValue {
        label,
        key: pair.key,
        node,
        value: Some(value),
    }))
}

/// Adds a value to those that are held, where there is one.
fn hold(held: &mut Vec<IndexedValue>, value: Option<IndexedValue>) -> Result<(), ChangeFault>
    ensures held { OnOk result (held.new.items ≡ held.old.items ++ option_list value) }
    ensures memory { IfErr result (λ fault. fault ≡ ChangeFault.Memory) }
{
    let Some(value) = value else {
        return Ok(());
    };
    match held.push(value) {
        Ok(()) => Ok(()),
        Err(_) => Err(ChangeFault::Memory),
    }
}

/// Takes the entries of these values out of the indexes, and answers what they weigh.
pub(crate) fn leave_values<S: Space>(
    space: &mut S,
    held: &[IndexedValue],
) -> Result<u32, ChangeFault>
    requires { length held.now ≤ 16 }
    ensures left { S.tells → (wanted : Entries) → AreIndexed (S.state space.old).records wanted
        → IsWhole (S.state space.old) → OnOk result (AreIndexed (S.state space.new).records
        (without_held wanted held.now)) }
    ensures keeps { S.tells → (wanted : Entries) → AreIndexed (S.state space.old).records wanted
        → IsWhole (S.state space.old) → OnOk result (IsWhole (S.state space.new)) }
    ensures graph { S.tells → (wanted : Entries) → AreIndexed (S.state space.old).records wanted
        → IsWhole (S.state space.old) → OnOk result
        (indexes_of (S.state space.new).records ≡ indexes_of (S.state space.old).records) }
    ensures not_damaged { S.tells → (wanted : Entries)
        → AreIndexed (S.state space.old).records wanted
        → IsWhole (S.state space.old) → IfErr result IsOutside }
    ensures failure { IfErr result IsFailure }
    ensures blames { S.tells → IfErr result (BlamesEntry (S.state space.new)) }
    ensures found { S.tells
        → (0 < length held.now → HasDefinitions (S.state space.old).records)
        → IfErr result (IfBlames (IsListOrFound (S.state space.old) (S.state space.new))) }
    ensures weight { IfOk result (λ weight. weight ≡ held_weight held.now) }
    ensures few { IfOk result (λ weight. weight ≤ 48) }
    ensures touches { IfOk result (λ weight. TouchesIndex S.tells weight
        (S.state space.old) (S.state space.new)) }
    ensures at_most { TouchesIndex S.tells 48 (S.state space.old) (S.state space.new) }
    ensures onward { S.onward space.old space.new }
    ensures cause { HasChangeCause (S.faults space.old) (S.faults space.new) result }
{
    let mut weight = 0;
    for value in held {
        let more = leave_held(space, value)?;
        weight += more;
    }
    Ok(weight)
}

// ---- one value

/// The value that a node has of a key, where an index has the node's label and the key.
pub(crate) fn indexed_value<R: Reads>(
    alloc: Global,
    space: &mut R,
    target: Target,
    key: u32,
) -> Result<Option<IndexedValue>, ChangeFault>
    ensures held { R.tells → (wanted : Entries)
        → (ix : AreIndexed (R.state space.old).records wanted) → IsWhole (R.state space.old)
        → IsInUse (R.state space.old).records (owner_of target)
        → IfOk result (IsIndexedValue (R.state space.old).records
        (map (pair_of (R.state space.old).records) ix.definitions) target key) }
    ensures not_damaged { R.tells → (wanted : Entries)
        → AreIndexed (R.state space.old).records wanted
        → IsWhole (R.state space.old) → IsInUse (R.state space.old).records (owner_of target)
        → IfErr result IsOutside }
    ensures failure { IfErr result IsFailure }
    ensures damaged { R.tells → IsInUse (R.state space.old).records (owner_of target)
        → IfErr result (BlamesBroken (R.state space.old)) }
    ensures of_node { IfOk result (λ held. IfSome held (λ _. IsNodeTarget target)) }
    ensures kept { IfOk result (λ held. IfSome held (λ indexed. IfSome indexed.value IsKept)) }
    ensures met { R.tells → IfOk result (λ held. IfSome held
        (HasMet (R.state space.old) target key)) }
    ensures walked { R.tells → IfOk result (λ held. IfSome held
        (λ _. HasDefinitions (R.state space.old).records)) }
    ensures unread { (meta_of (R.state space.old) index_file).live ≡ 0
        → R.state space.new ≡ R.state space.old }
    ensures same { SameButReads (R.state space.old) (R.state space.new) }
    ensures onward { R.onward space.old space.new }
    ensures cause { HasChangeCause (R.faults space.old) (R.faults space.new) result }
{
    let Target::Node(node) = target else {
        return Ok(None);
    };
    let listed = listed_pairs(alloc, space)?;
    if listed.is_empty() {
        return Ok(None);
    }
    let Some(row) = node_store::load(space, node)? else {
        return Ok(None);
    };
    if !has_pair(&listed, row.label, key) {
        return Ok(None);
    }
    let value = read_key(alloc, space, node_owner(node), key)?;
    Ok(Some(IndexedValue {
        label: row.label,
        key,
        node,
        value,
    }))
}

/// Puts the entry of the new value in the place of that of the value that was held, and answers
/// what both weigh.
pub(crate) fn change_entry<S: Space>(
    space: &mut S,
    held: &Option<IndexedValue>,
    new: &Value,
) -> Result<u32, ChangeFault>
    ensures changed { S.tells → (wanted : Entries) → AreIndexed (S.state space.old).records wanted
        → IsWhole (S.state space.old) → WantsHeld wanted held.now
        → OnOk result (AreIndexed (S.state space.new).records
        (with_new (without_old wanted held.now) held.now new.now)) }
    ensures keeps { S.tells → (wanted : Entries) → AreIndexed (S.state space.old).records wanted
        → IsWhole (S.state space.old)
        → IfSome held.now (λ h. h.node < high (S.state space.old).records nodes_file)
        → OnOk result (IsWhole (S.state space.new)) }
    ensures weight { IfOk result (λ weight. weight ≡ old_weight held.now + new_weight held.now) }
    ensures few { IfOk result (λ weight. weight ≤ 6) }
    ensures touches { IfOk result (λ weight. TouchesIndex S.tells weight
        (S.state space.old) (S.state space.new)) }
    ensures at_most { TouchesIndex S.tells 6 (S.state space.old) (S.state space.new) }
    ensures full { S.tells → IfErr result (IsEntryFault (S.state space.new)) }
    ensures refused { S.tells → (wanted : Entries) → AreIndexed (S.state space.old).records wanted
        → IsWhole (S.state space.old) → WantsHeld wanted held.now
        → IfSome held.now (λ h. h.node < high (S.state space.old).records nodes_file)
        → IfErr result (IsEntryRefusal (S.state space.old) held.now) }
    ensures some { IfErr result (λ _. held.now ≢ None) }
    ensures may_come_late { S.tells → IfErr result MayComeLate }
    ensures graph { S.tells → (wanted : Entries) → AreIndexed (S.state space.old).records wanted
        → IsWhole (S.state space.old) → OnOk result
        (indexes_of (S.state space.new).records ≡ indexes_of (S.state space.old).records) }
    ensures idle { held.now ≡ None → S.state space.new ≡ S.state space.old }
    ensures blames { S.tells → IfErr result (BlamesEntry (S.state space.new)) }
    ensures found { S.tells
        → IfSome held.now (λ _. HasDefinitions (S.state space.old).records)
        → IfErr result (IfBlames (IsListOrFound (S.state space.old) (S.state space.new))) }
    ensures onward { S.onward space.old space.new }
    ensures cause { HasChangeCause (S.faults space.old) (S.faults space.new) result }
{
    let left = leave_entry(space, held)?;
    let entered = enter_entry(space, held, new)?;
    Ok(left + entered)
}

/// Takes the entry of the value that was held out of its index, where there is one, and answers
/// what it weighs.
pub(crate) fn leave_entry<S: Space>(
    space: &mut S,
    held: &Option<IndexedValue>,
) -> Result<u32, ChangeFault>
    ensures left { S.tells → (wanted : Entries) → AreIndexed (S.state space.old).records wanted
        → IsWhole (S.state space.old) → OnOk result (AreIndexed (S.state space.new).records
        (without_old wanted held.now)) }
    ensures keeps { S.tells → (wanted : Entries) → AreIndexed (S.state space.old).records wanted
        → IsWhole (S.state space.old) → OnOk result (IsWhole (S.state space.new)) }
    ensures not_damaged { S.tells → (wanted : Entries)
        → AreIndexed (S.state space.old).records wanted
        → IsWhole (S.state space.old) → IfErr result IsOutside }
    ensures failure { IfErr result IsFailure }
    ensures weight { IfOk result (λ weight. weight ≡ old_weight held.now) }
    ensures few { IfOk result (λ weight. weight ≤ 3) }
    ensures touches { IfOk result (λ weight. TouchesIndex S.tells weight
        (S.state space.old) (S.state space.new)) }
    ensures at_most { TouchesIndex S.tells 3 (S.state space.old) (S.state space.new) }
    ensures graph { S.tells → (wanted : Entries) → AreIndexed (S.state space.old).records wanted
        → IsWhole (S.state space.old) → OnOk result
        (indexes_of (S.state space.new).records ≡ indexes_of (S.state space.old).records) }
    ensures unlisted { S.tells → (wanted : Entries)
        → (ix : AreIndexed (S.state space.old).records wanted)
        → held_is_listed (map (pair_of (S.state space.old).records) ix.definitions) held.now
        ≡ false → OnOk result (SameButReads (S.state space.old) (S.state space.new)) }
    ensures gone { S.tells → (wanted : Entries)
        → (ix : AreIndexed (S.state space.old).records wanted) → IsWhole (S.state space.old)
        → WantsHeld wanted held.now
        → held_is_listed (map (pair_of (S.state space.old).records) ix.definitions) held.now
        ≡ true
        → 0 < old_weight held.now → OnOk result ((meta_of (S.state space.new) index_file).live
        < (meta_of (S.state space.old) index_file).live) }
    ensures calm { old_weight held.now ≡ 0 → S.state space.new ≡ S.state space.old }
    ensures some { IfErr result (λ _. held.now ≢ None) }
    ensures idle { held.now ≡ None → S.state space.new ≡ S.state space.old }
    ensures blames { S.tells → IfErr result (BlamesEntry (S.state space.new)) }
    ensures untouched { S.tells → IfErr result
        (BlamesUntouched (S.state space.old) (S.state space.new)) }
    ensures named { S.tells → IfSome held.now (λ _. HasDefinitions (S.state space.old).records)
        → IfErr result (IfBlames (IsDefinitionOrList (S.state space.old))) }
    ensures spares { S.tells
        → OnOk result (SparesDefinitions (S.state space.old) (S.state space.new)) }
    ensures onward { S.onward space.old space.new }
    ensures cause { HasChangeCause (S.faults space.old) (S.faults space.new) result }
{
    match held {
        Some(held) => leave_held(space, held),
        None => Ok(0),
    }
}

/// Takes the entry of a value that was held out of its index, and answers what it weighs.
fn leave_held<S: Space>(space: &mut S, held: &IndexedValue) -> Result<u32, ChangeFault>
    ensures left { S.tells → (wanted : Entries) → AreIndexed (S.state space.old).records wanted
        → IsWhole (S.state space.old) → OnOk result (AreIndexed (S.state space.new).records
        (without_old wanted (Some held.now))) }
    ensures keeps { S.tells → (wanted : Entries) → AreIndexed (S.state space.old).records wanted
        → IsWhole (S.state space.old) → OnOk result (IsWhole (S.state space.new)) }
    ensures not_damaged { S.tells → (wanted : Entries)
        → AreIndexed (S.state space.old).records wanted
        → IsWhole (S.state space.old) → IfErr result IsOutside }
    ensures failure { IfErr result IsFailure }
    ensures weight { IfOk result (λ weight. weight ≡ value_weight held.now.value) }
    ensures few { IfOk result (λ weight. weight ≤ 3) }
    ensures touches { IfOk result (λ weight. TouchesIndex S.tells weight
        (S.state space.old) (S.state space.new)) }
    ensures at_most { TouchesIndex S.tells 3 (S.state space.old) (S.state space.new) }
    ensures graph { S.tells → (wanted : Entries) → AreIndexed (S.state space.old).records wanted
        → IsWhole (S.state space.old) → OnOk result
        (indexes_of (S.state space.new).records ≡ indexes_of (S.state space.old).records) }
    ensures unlisted { S.tells → (wanted : Entries)
        → (ix : AreIndexed (S.state space.old).records wanted)
        → is_listed (map (pair_of (S.state space.old).records) ix.definitions)
        held.now.label held.now.key ≡ false
        → OnOk result (SameButReads (S.state space.old) (S.state space.new)) }
    ensures gone { S.tells → (wanted : Entries)
        → (ix : AreIndexed (S.state space.old).records wanted) → IsWhole (S.state space.old)
        → WantsHeld wanted (Some held.now)
        → is_listed (map (pair_of (S.state space.old).records) ix.definitions)
        held.now.label held.now.key ≡ true
        → 0 < value_weight held.now.value
        → OnOk result ((meta_of (S.state space.new) index_file).live
        < (meta_of (S.state space.old) index_file).live) }
    ensures calm { value_weight held.now.value ≡ 0 → S.state space.new ≡ S.state space.old }
    ensures blames { S.tells → IfErr result (BlamesEntry (S.state space.new)) }
    ensures untouched { S.tells → IfErr result
        (BlamesUntouched (S.state space.old) (S.state space.new)) }
    ensures named { S.tells → HasDefinitions (S.state space.old).records
        → IfErr result (IfBlames (IsDefinitionOrList (S.state space.old))) }
    ensures spares { S.tells
        → OnOk result (SparesDefinitions (S.state space.old) (S.state space.new)) }
    ensures onward { S.onward space.old space.new }
    ensures cause { HasChangeCause (S.faults space.old) (S.faults space.new) result }
{
    let Some(value) = &held.value else {
        return Ok(0);
    };
    leave(space, held.label, held.key, held.node, value)?;
    Ok(3)
}

/// Adds an entry of the new value where the value that was held has an index, and answers what it
/// weighs.
fn enter_entry<S: Space>(
    space: &mut S,
    held: &Option<IndexedValue>,
    new: &Value,
) -> Result<u32, ChangeFault>
    ensures entered { S.tells → (wanted : Entries) → AreIndexed (S.state space.old).records wanted
        → IsWhole (S.state space.old) → LacksHeld wanted held.now new.now
        → OnOk result (AreIndexed (S.state space.new).records
        (with_new wanted held.now new.now)) }
    ensures keeps { S.tells → (wanted : Entries) → AreIndexed (S.state space.old).records wanted
        → IsWhole (S.state space.old)
        → IfSome held.now (λ h. h.node < high (S.state space.old).records nodes_file)
        → OnOk result (IsWhole (S.state space.new)) }
    ensures weight { IfOk result (λ weight. weight ≡ new_weight held.now) }
    ensures few { IfOk result (λ weight. weight ≤ 3) }
    ensures touches { IfOk result (λ weight. TouchesIndex S.tells weight
        (S.state space.old) (S.state space.new)) }
    ensures at_most { TouchesIndex S.tells 3 (S.state space.old) (S.state space.new) }
    ensures not_damaged { S.tells → (wanted : Entries)
        → AreIndexed (S.state space.old).records wanted
        → IsWhole (S.state space.old) → IfErr result (IsEntryUndamaged (S.state space.old)) }
    ensures full { S.tells → IfErr result (IsEntryFault (S.state space.new)) }
    ensures unlisted { S.tells → (wanted : Entries)
        → (ix : AreIndexed (S.state space.old).records wanted)
        → held_is_listed (map (pair_of (S.state space.old).records) ix.definitions) held.now
        ≡ false → IfErr result IsFailure }
    ensures some { IfErr result (λ _. held.now ≢ None) }
    ensures graph { S.tells → (wanted : Entries) → AreIndexed (S.state space.old).records wanted
        → IsWhole (S.state space.old) → OnOk result
        (indexes_of (S.state space.new).records ≡ indexes_of (S.state space.old).records) }
    ensures idle { held.now ≡ None → S.state space.new ≡ S.state space.old }
    ensures blames { S.tells → IfErr result (BlamesEntry (S.state space.new)) }
    ensures untouched { S.tells → IfErr result
        (BlamesUntouched (S.state space.old) (S.state space.new)) }
    ensures named { S.tells → IfSome held.now (λ _. HasDefinitions (S.state space.old).records)
        → IfErr result (IfBlames (IsDefinitionOrList (S.state space.old))) }
    ensures onward { S.onward space.old space.new }
    ensures cause { HasChangeCause (S.faults space.old) (S.faults space.new) result }
{
    let Some(held) = held else {
        return Ok(0);
    };
    enter(space, held.label, held.key, held.node, new)?;
    Ok(3)
}
