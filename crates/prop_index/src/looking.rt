//! The nodes of a label whose key has a value.

ghost use Rattle.std.specs.Prelude.{◌≡◌, IfErr, IfOk, IsPermutation, OnOk};
ghost use Rattle.std.specs.List.Sorted.{IsNonDecreasing};
ghost use Rattle.rec_bytes.specs.Space.{SameButReads};
ghost use Rattle.prop_index.specs.Looking.{
  AreNumbered,
  BlamesBroken,
  HasLookupCause,
  IsLookupCause,
  IsRefusal,
  ReadsForLookup,
  ReadsForRefusal,
  found_in,
  nodes_in,
};
ghost use Rattle.store_rules.specs.Indexes.{IsIndexed};

use crate::LookupFault;
use crate::gathering::{Sought, gather};
use crate::hashing::hash_of;
use crate::heads::find_bucket;
use crate::reading::out_of_range;
use plain_graph::Value;
use rec_bytes::{Fault, Reads};
use std::alloc::Global;

/// The nodes of a label whose key has a value, by ascending identifier.
pub fn lookup<R: Reads>(
    alloc: Global,
    space: &mut R,
    label: u32,
    key: u32,
    value: &Value,
) -> Result<Vec<u32>, LookupFault>
    ensures found { R.tells → IsIndexed (R.state space.old).records (R.state space.old).shape
        → IfOk result (λ nodes. nodes.items
        ≡ found_in (R.state space.old).records label key value.now) }
    ensures graph { R.tells → IsIndexed (R.state space.old).records (R.state space.old).shape
        → AreNumbered (R.state space.old).records label key → IfOk result (λ nodes. nodes.items
        ≡ nodes_in (R.state space.old).records label key value.now) }
    ensures refused { R.tells → IsIndexed (R.state space.old).records (R.state space.old).shape
        → IfErr result (IsRefusal (R.state space.old).records label key) }
    ensures caused { R.tells → IfErr result
        (IsLookupCause (R.state space.old).records label key) }
    ensures cost { R.tells → IsIndexed (R.state space.old).records (R.state space.old).shape
        → OnOk result (ReadsForLookup label key value.now
        (R.state space.old) (R.state space.new)) }
    ensures cost_refused { R.tells
        → IsIndexed (R.state space.old).records (R.state space.old).shape
        → IfErr result (ReadsForRefusal label key value.now
        (R.state space.old) (R.state space.new)) }
    ensures damaged { R.tells → IfErr result
        (BlamesBroken (R.state space.old).records (R.state space.old).shape) }
    ensures same { SameButReads (R.state space.old) (R.state space.new) }
    ensures onward { R.onward space.old space.new }
    ensures cause { HasLookupCause (R.faults space.old) (R.faults space.new) result }
{
    let hash = hash_of(value);
    let Some(bucket) = find_bucket(space, label, key, hash)? else {
        return Err(LookupFault::NoIndex);
    };
    let named = out_of_range(bucket.slot.id);
    let mut nodes = gather(
        alloc,
        space,
        bucket.first,
        &Sought { key, value, hash },
        named,
    )?;
    put_in_order(&mut nodes)?;
    Ok(nodes)
}

/// Puts identifiers into ascending order.
fn put_in_order(nodes: &mut Vec<u32>) -> Result<(), Fault>
    ensures moved { IsPermutation nodes.old.items nodes.new.items }
    ensures sorted { OnOk result (IsNonDecreasing nodes.new.items) }
    ensures memory { IfErr result (λ fault. fault ≡ Fault.Memory) }
{
    nodes.sort()?;
    Ok(())
}
