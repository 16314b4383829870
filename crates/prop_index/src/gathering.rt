//! The nodes of a bucket that have a value.

ghost use Rattle.std.specs.Prelude.{◌≡◌, ◌+◌, ◌*◌, ◌++◌, ℕ, List, [], ◌∷◌, IfErr, IfOk, OnOk, cond};
ghost use Rattle.std.specs.Prelude.{length};
ghost use Rattle.prop_index.specs.Blaming.{IsEntryAt};
ghost use Rattle.prop_index.specs.Gathering.{
  AreEntries,
  AreReadable,
  IsEntryMet,
  IsListedNode,
  count_hashed,
  is_hashed,
  is_picked,
  nodes_with,
};
ghost use Rattle.rec_bytes.specs.Fault.{HasFaultCause, NotDamaged};
ghost use Rattle.rec_bytes.specs.Space.{SameButReads};
ghost use Rattle.prop_index.specs.Blaming.{BlamesBroken};
ghost use Rattle.prop_store.specs.Reading.{ReadsAtMost};
ghost use Rattle.store_rules.specs.Indexes.{entry_hash, entry_node, index_rec};

use crate::holding::holds;
use crate::reading::{damaged, out_of_range, record_at};
use plain_graph::Value;
use rec_bytes::{
    Damage, Fault, INDEX, INDEX_RULE, INDEXED, INDEXED_HASH, INDEXED_NEXT, INDEXED_NODE, NIL,
    Reads, Rec,
};
use std::alloc::Global;

/// What is sought: a key, and its value with the hash of it.
#[derive(Clone, Copy)]
pub(crate) struct Sought<'a> {
    pub key: u32,
    pub value: &'a Value,
    pub hash: u64,
}

/// The nodes of the entries from one on that have the value, in the order of the chain.
pub(crate) fn gather<R: Reads>(
    alloc: Global,
    space: &mut R,
    first: u32,
    sought: &Sought,
    named: Damage,
) -> Result<Vec<u32>, Fault>
    ensures found { R.tells → (xs : List ℕ) → AreEntries (R.state space.old) first xs
        → IfOk result (λ nodes. nodes.items ≡ nodes_with (R.state space.old).records sought.now.key
        sought.now.hash sought.now.value.now xs) }
    ensures not_damaged { R.tells → (xs : List ℕ) → AreEntries (R.state space.old) first xs
        → AreReadable (R.state space.old) sought.now.hash xs → NotDamaged result }
    ensures cost { R.tells → (xs : List ℕ) → AreEntries (R.state space.old) first xs
        → ReadsAtMost (length xs + 55 * count_hashed (R.state space.old).records sought.now.hash xs)
        (R.state space.old) (R.state space.new) }
    ensures damaged { R.tells → (d b : ℕ) → IsEntryAt (R.state space.old) d b 0 first named
        → IfErr result (BlamesBroken (R.state space.old).records (R.state space.old).shape) }
    ensures same { SameButReads (R.state space.old) (R.state space.new) }
    ensures onward { R.onward space.old space.new }
    ensures cause { HasFaultCause (R.faults space.old) (R.faults space.new) result }
{
    let mut nodes = Vec::new(alloc);
    let mut rec = Rec::ZEROS;
    let mut named = named;
    let mut at = first;
    for _ in 0..space.meta(INDEX).high {
        if at == NIL {
            return Ok(nodes);
        }
        record_at(space, at, INDEXED, named, &mut rec)?;
        add_node(alloc, space, &rec, sought, at, &mut nodes)?;
        named = out_of_range(at);
        at = rec.number(INDEXED_NEXT);
    }
    if at != NIL {
        return Err(damaged(INDEX, at, INDEX_RULE));
    }
    Ok(nodes)
}

/// Adds the node of an entry where it has the value.
fn add_node<R: Reads>(
    alloc: Global,
    space: &mut R,
    rec: &Rec,
    sought: &Sought,
    entry: u32,
    nodes: &mut Vec<u32>,
) -> Result<(), Fault>
    ensures added { R.tells → (x : ℕ) → rec.now ≡ index_rec (R.state space.old).records x
        → OnOk result (nodes.new.items ≡ nodes.old.items ++ cond
        (is_picked (R.state space.old).records sought.now.key sought.now.hash
        sought.now.value.now x)
        (entry_node (R.state space.old).records x ∷ []) []) }
    ensures not_damaged { R.tells → (x : ℕ) → rec.now ≡ index_rec (R.state space.old).records x
        → (entry_hash (R.state space.old).records x ≡ sought.now.hash
        → IsListedNode (R.state space.old) (entry_node (R.state space.old).records x))
        → NotDamaged result }
    ensures damaged { R.tells → (d b count : ℕ)
        → IsEntryMet (R.state space.old).records d b count entry rec.now → IfErr result
        (BlamesBroken (R.state space.old).records (R.state space.old).shape) }
    ensures cost { (x : ℕ) → rec.now ≡ index_rec (R.state space.old).records x
        → ReadsAtMost (55 * cond (is_hashed (R.state space.old).records sought.now.hash x) 1 0)
        (R.state space.old) (R.state space.new) }
    ensures at_most { ReadsAtMost 55 (R.state space.old) (R.state space.new) }
    ensures onward { R.onward space.old space.new }
    ensures cause { HasFaultCause (R.faults space.old) (R.faults space.new) result }
{
    if rec.wide(INDEXED_HASH) != sought.hash {
        return Ok(());
    }
    let node = rec.number(INDEXED_NODE);
    if holds(alloc, space, node, sought.key, sought.value, entry)? {
        nodes.push(node)?;
    }
    Ok(())
}
