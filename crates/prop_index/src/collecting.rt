//! The nodes of a label that have a key, and the hashes of their values.

ghost use Rattle.std.specs.Prelude.{◌≡◌, ◌≢◌, ◌↔◌, ◌<◌, ◌≤◌, ◌++◌, List, [], ◌∷◌};
ghost use Rattle.std.specs.Prelude.{IfErr, IfOk, IsTrue, OnOk, length};
ghost use Rattle.prop_index.specs.Collecting.{AreNodesReadable, contents_in, hash_at};
ghost use Rattle.prop_index.specs.MakeFault as makes;
ghost use Rattle.prop_index.specs.MakeFault.{HasMakeCause, IsCollectCause, IsCollectFault};
ghost use Rattle.prop_index.specs.Blaming.{BlamesBroken};
ghost use Rattle.prop_store.specs.Finding.{value_of};
ghost use Rattle.prop_store.specs.Owner.{HasProperties, IsInUse, IsOwner};
ghost use Rattle.prop_store.specs.Reading.{ReadsAtMost, properties_met};
ghost use Rattle.rec_bytes.specs.Fault.{HasFaultCause, NotDamaged};
ghost use Rattle.rec_bytes.specs.Format.{nodes_file};
ghost use Rattle.rec_bytes.specs.Record.{field};
ghost use Rattle.rec_bytes.specs.Space.{SameButReads};
ghost use Rattle.std.specs.Option.{option_map};
ghost use Rattle.store_rules.specs.Hashes.{hash_of};
ghost use Rattle.store_rules.specs.Properties.{Property};
ghost use Rattle.store_rules.specs.Views.{high};

use crate::MakeFault;
use crate::entry_row::Content;
use crate::hashing::hash_of;
use crate::holding::owner_of;
use crate::reading::out_of_range;
use plain_graph::Value;
use prop_store::{Owner, read_key};
use rec_bytes::{FREE, Fault, KIND, NODE_LABEL, NODES, Reads, Rec};
use std::alloc::Global;

/// How many entries an index is made with at most.
const MOST_ENTRIES: u32 = 1024;

/// What the entries of an index of a label and a key are to say, by ascending node.
pub(crate) fn collect<R: Reads>(
    alloc: Global,
    space: &mut R,
    label: u32,
    key: u32,
) -> Result<Vec<Content>, MakeFault>
    ensures found { R.tells → IfOk result (λ contents. contents.items
        ≡ contents_in (R.state space.old).records label key
        (high (R.state space.old).records nodes_file)) }
    ensures few { IfOk result (λ contents. length contents.items ≤ 1024) }
    ensures refused { R.tells → AreNodesReadable (R.state space.old)
        → IfErr result (IsCollectFault (R.state space.old).records label key) }
    ensures caused { R.tells → IfErr result
        (IsCollectCause (R.state space.old).records label key) }
    ensures damaged { R.tells → IfErr result
        (makes.BlamesBroken (R.state space.old).records (R.state space.old).shape) }
    ensures same { SameButReads (R.state space.old) (R.state space.new) }
    ensures onward { R.onward space.old space.new }
    ensures cause { HasMakeCause (R.faults space.old) (R.faults space.new) result }
{
    let mut contents = Vec::new(alloc);
    let mut count = 0;
    for node in 0..space.meta(NODES).high {
        if let Some(hash) = hash_at(alloc, space, node, label, key)? {
            if count < MOST_ENTRIES {
                push(&mut contents, Content { node, hash })?;
            }
            count += 1;
        }
    }
    if count > MOST_ENTRIES {
        return Err(MakeFault::TooLarge { count });
    }
    Ok(contents)
}

/// Adds what an entry is to say.
fn push(contents: &mut Vec<Content>, content: Content) -> Result<(), Fault>
    ensures pushed { OnOk result (contents.new.items ≡ contents.old.items ++ content ∷ []) }
    ensures memory { IfErr result (λ fault. fault ≡ Fault.Memory) }
{
    contents.push(content)?;
    Ok(())
}

/// The hash of the value of a key, where the node has the label and the key.
fn hash_at<R: Reads>(
    alloc: Global,
    space: &mut R,
    node: u32,
    label: u32,
    key: u32,
) -> Result<Option<u64>, Fault>
    ensures found { R.tells → node < high (R.state space.old).records nodes_file
        → IfOk result (λ hash. hash ≡ hash_at (R.state space.old).records label key node) }
    ensures not_damaged { R.tells → node < high (R.state space.old).records nodes_file
        → AreNodesReadable (R.state space.old) → NotDamaged result }
    ensures damaged { R.tells → node < high (R.state space.old).records nodes_file
        → IfErr result (BlamesBroken (R.state space.old).records (R.state space.old).shape) }
    ensures at_most { ReadsAtMost 56 (R.state space.old) (R.state space.new) }
    ensures onward { R.onward space.old space.new }
    ensures cause { HasFaultCause (R.faults space.old) (R.faults space.new) result }
{
    let owner = owner_of(space, node, out_of_range(node))?;
    let mut rec = Rec::ZEROS;
    space.get_into(owner.key, &mut rec)?;
    if is_labelled(&rec, label) {
        return value_hash(alloc, space, owner, key);
    }
    Ok(None)
}

/// Whether the record is that of a node in use with the label.
fn is_labelled(rec: &Rec, label: u32) -> bool
    ensures { IsTrue result ↔ (field 1 rec.now KIND ≢ FREE) × (field 4 rec.now NODE_LABEL ≡ label) }
{
    rec.byte(KIND) != FREE && rec.number(NODE_LABEL) == label
}

/// The hash of the value of a key.
fn value_hash<R: Reads>(
    alloc: Global,
    space: &mut R,
    owner: Owner,
    key: u32,
) -> Result<Option<u64>, Fault>
    requires { IsOwner owner }
    ensures met { R.tells → IfOk result (λ hash. hash
        ≡ option_map hash_of (value_of (properties_met (R.state space.old).records owner) key)) }
    ensures not_damaged { R.tells → (es : List Property)
        → HasProperties (R.state space.old).records owner es → NotDamaged result }
    ensures damaged { R.tells → IsInUse (R.state space.old).records owner
        → IfErr result (BlamesBroken (R.state space.old).records (R.state space.old).shape) }
    ensures at_most { ReadsAtMost 55 (R.state space.old) (R.state space.new) }
    ensures onward { R.onward space.old space.new }
    ensures cause { HasFaultCause (R.faults space.old) (R.faults space.new) result }
{
    let value = read_key(alloc, space, owner, key)?;
    Ok(hash_if(&value))
}

/// The hash of a value, where there is one.
fn hash_if(value: &Option<Value>) -> Option<u64>
    ensures { result ≡ option_map hash_of value.now }
{
    match value {
        Some(value) => Some(hash_of(value)),
        None => None,
    }
}
