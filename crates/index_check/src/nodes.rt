//! The nodes of the entries of an index: each has a value of its entry's hash, none has two
//! entries, and each node of the label with the key has one.

ghost use Rattle.std.specs.Prelude.{◌≡◌, ◌<◌, ◌≤◌, IfNone, IfOk, IfSome, false, length, true, ℕ};
ghost use Rattle.std.specs.Bool.{Decides};
ghost use Rattle.std.specs.List.{All};
ghost use Rattle.rec_bytes.specs.Fault.{HasFaultCause, NotDamaged};
ghost use Rattle.rec_bytes.specs.Format.{most_ids, nodes_file};
ghost use Rattle.rec_bytes.specs.Frame.{IsRead};
ghost use Rattle.record_lists.specs.Seen.{is_among, is_seen};
ghost use Rattle.store_rules.specs.Indexes.{wanted_in};
ghost use Rattle.store_rules.specs.Properties.{AreOnce};
ghost use Rattle.store_rules.specs.Views.{high};
ghost use Rattle.index_check.specs.Nodes.{
  AreNodesLow,
  AreNodesOf,
  AreNodesRight,
  HasValue,
  IsMissing,
  IsNodeOf,
  IsTwice,
  IsWrongNode,
  said_by,
};
ghost use Rattle.index_check.specs.Values.{AreReadable};

use crate::definitions::Definition;
use crate::values::{has_hash, value_at};
use rec_bytes::{Fault, INDEX, INDEXED_HASH, INDEXED_NODE, Key, NODES, Reads};
use record_lists::none_seen;
use std::alloc::Global;

/// The nodes of entries, or the first of these whose node hasn't a value of its hash.
#[derive(Drop)]
pub(crate) enum Entered {
    Nodes(Vec<u32>),
    Unwanted(u32),
}

/// The node of an entry, or none where the node hasn't a value of the entry's hash.
fn node_of<R: Reads>(
    alloc: Global,
    space: &mut R,
    definition: &Definition,
    id: u32,
) -> Result<Option<u32>, Fault>
    requires id { id < most_ids }
    requires low { high (R.state space.old).records nodes_file ≤ most_ids }
    ensures wanted { R.tells → IfOk result (λ found. IfSome found
        (IsNodeOf (R.state space.old).records definition.now id)) }
    ensures unwanted { R.tells → IfOk result (λ found. IfNone found
        (wanted_in (R.state space.old).records
        (said_by (R.state space.old).records definition.now id) ≡ false)) }
    ensures low { IfOk result (λ found. IfSome found
        (λ node. node < high (R.state space.old).records nodes_file)) }
    ensures not_damaged { R.tells → AreReadable (R.state space.old).records → NotDamaged result }
    ensures read { IsRead R.Reads space.old space.new }
    ensures cause { HasFaultCause (R.faults space.old) (R.faults space.new) result }
{
    let rec = space.get(Key { file: INDEX, id })?;
    let node = rec.number(INDEXED_NODE);
    let value = value_at(alloc, space, node, definition.label, definition.key)?;
    if has_hash(&value, rec.wide(INDEXED_HASH)) {
        Ok(Some(node))
    } else {
        Ok(None)
    }
}

/// The nodes of these entries, where each has a value of its entry's hash.
pub(crate) fn nodes_of<R: Reads>(
    alloc: Global,
    space: &mut R,
    definition: &Definition,
    entries: &[u32],
) -> Result<Entered, Fault>
    requires entries { All (λ x. x < most_ids) entries.now }
    requires low { high (R.state space.old).records nodes_file ≤ most_ids }
    ensures told { R.tells → IfOk result
        (AreNodesOf (R.state space.old).records definition.now entries.now) }
    ensures low { IfOk result (AreNodesLow (high (R.state space.old).records nodes_file)) }
    ensures not_damaged { R.tells → AreReadable (R.state space.old).records → NotDamaged result }
    ensures read { IsRead R.Reads space.old space.new }
    ensures cause { HasFaultCause (R.faults space.old) (R.faults space.new) result }
{
    let mut nodes = Vec::new(alloc);
    for id in entries {
        match node_of(alloc, space, definition, *id)? {
            Some(node) => nodes.push(node)?,
            None => return Ok(Entered::Unwanted(*id)),
        }
    }
    Ok(Entered::Nodes(nodes))
}

/// Sees all these, or finds one that comes twice.
fn see_once(seen: &mut [bool], numbers: &[u32]) -> Option<u32>
    requires low { All (λ x. x < length seen.old) numbers.now }
    requires clear { (p : ℕ) → is_seen seen.old p ≡ false }
    ensures once { IfNone result (AreOnce numbers.now) }
    ensures seen { IfNone result ((p : ℕ) → is_seen seen.new p ≡ is_among numbers.now p) }
    ensures twice { IfSome result (λ n. IsTwice n numbers.now) }
    ensures len { length seen.new ≡ length seen.old }
{
    for number in numbers {
        if seen[*number as usize] {
            return Some(*number);
        }
        seen[*number as usize] = true;
    }
    None
}

/// Whether a node has a value, and was not seen.
fn is_missing<R: Reads>(
    alloc: Global,
    space: &mut R,
    definition: &Definition,
    node: u32,
    met: bool,
) -> Result<bool, Fault>
    requires { high (R.state space.old).records nodes_file ≤ most_ids }
    ensures told { R.tells → IfOk result (λ missing. Decides missing
        (IsMissing (R.state space.old).records definition.now node met)) }
    ensures not_damaged { R.tells → AreReadable (R.state space.old).records → NotDamaged result }
    ensures read { IsRead R.Reads space.old space.new }
    ensures cause { HasFaultCause (R.faults space.old) (R.faults space.new) result }
{
    if met {
        return Ok(false);
    }
    let value = value_at(alloc, space, node, definition.label, definition.key)?;
    Ok(value.is_some())
}

/// The first node of the label with the key that was not seen.
fn find_missing<R: Reads>(
    alloc: Global,
    space: &mut R,
    definition: &Definition,
    seen: &[bool],
) -> Result<Option<u32>, Fault>
    requires seen { length seen.now ≡ high (R.state space.old).records nodes_file }
    requires low { high (R.state space.old).records nodes_file ≤ most_ids }
    ensures none { R.tells → IfOk result (λ found. IfNone found
        ((n : ℕ) → HasValue (R.state space.old).records definition.now n
        → is_seen seen.now n ≡ true)) }
    ensures found { R.tells → IfOk result (λ found. IfSome found
        (λ n. IsMissing (R.state space.old).records definition.now n (is_seen seen.now n))) }
    ensures not_damaged { R.tells → AreReadable (R.state space.old).records → NotDamaged result }
    ensures read { IsRead R.Reads space.old space.new }
    ensures cause { HasFaultCause (R.faults space.old) (R.faults space.new) result }
{
    for node in 0..space.meta(NODES).high {
        if is_missing(alloc, space, definition, node, seen[node as usize])? {
            return Ok(Some(node));
        }
    }
    Ok(None)
}

/// The first of these nodes that comes twice, or a node of the label with the key that is none of
/// them, with a bit for each node, none of them seen.
fn check_seen<R: Reads>(
    alloc: Global,
    space: &mut R,
    definition: &Definition,
    nodes: &[u32],
    seen: &mut [bool],
) -> Result<Option<u32>, Fault>
    requires nodes { All (λ n. n < length seen.old) nodes.now }
    requires seen { length seen.old ≡ high (R.state space.old).records nodes_file }
    requires clear { (p : ℕ) → is_seen seen.old p ≡ false }
    requires low { high (R.state space.old).records nodes_file ≤ most_ids }
    ensures none { R.tells → IfOk result (λ found. IfNone found
        (AreNodesRight (R.state space.old).records definition.now nodes.now)) }
    ensures found { R.tells → IfOk result (λ found. IfSome found
        (IsWrongNode (R.state space.old).records definition.now nodes.now)) }
    ensures not_damaged { R.tells → AreReadable (R.state space.old).records → NotDamaged result }
    ensures read { IsRead R.Reads space.old space.new }
    ensures cause { HasFaultCause (R.faults space.old) (R.faults space.new) result }
{
    if let Some(node) = see_once(seen, nodes) {
        return Ok(Some(node));
    }
    match find_missing(alloc, space, definition, seen)? {
        Some(node) => Ok(Some(node)),
        None => Ok(None),
    }
}

/// The first of these nodes that comes twice, or a node of the label with the key that is none of
/// them.
pub(crate) fn check_nodes<R: Reads>(
    alloc: Global,
    space: &mut R,
    definition: &Definition,
    nodes: &[u32],
) -> Result<Option<u32>, Fault>
    requires nodes { All (λ n. n < high (R.state space.old).records nodes_file) nodes.now }
    requires low { high (R.state space.old).records nodes_file ≤ most_ids }
    ensures none { R.tells → IfOk result (λ found. IfNone found
        (AreNodesRight (R.state space.old).records definition.now nodes.now)) }
    ensures found { R.tells → IfOk result (λ found. IfSome found
        (IsWrongNode (R.state space.old).records definition.now nodes.now)) }
    ensures not_damaged { R.tells → AreReadable (R.state space.old).records → NotDamaged result }
    ensures read { IsRead R.Reads space.old space.new }
    ensures cause { HasFaultCause (R.faults space.old) (R.faults space.new) result }
{
    let mut seen = none_seen(alloc, space.meta(NODES).high as usize)?;
    check_seen(alloc, space, definition, nodes, &mut seen)
}
