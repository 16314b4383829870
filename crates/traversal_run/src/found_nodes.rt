ghost use Rattle.std.specs.Prelude.{◌≡◌, IfErr, IfOk, map};
ghost use Rattle.plain_graph.specs.Indexes.{scan};
ghost use Rattle.plain_graph.specs.Meaning.{meaning};
ghost use Rattle.plain_graph.specs.declared.item.Item.TheVariants as items;
ghost use Rattle.prop_index.specs.Looking.{BlamesBroken, HasLookupCause};
ghost use Rattle.store_rules.specs.Graph.{graph_of};
ghost use Rattle.traversal_run.specs.FoundNodes.{HasIndex, IsIndexRefusal, ReadsForFind};
ghost use Rattle.traversal_run.specs.Reading.{IsNamedStore, IsRead};

use crate::naming::text_number;
use name_store::Names;
use plain_graph::{Text, Value};
use prop_index::{LookupFault, lookup};
use rec_bytes::Reads;
use std::alloc::Global;

/// The nodes of a label whose key has a value, by their index. A label or a key that is no name of
/// the store has no index.
pub fn find_nodes<R: Reads>(
    alloc: Global,
    space: &mut R,
    names: &Names,
    label: &Text,
    key: &Text,
    value: &Value,
) -> Result<Vec<u32>, LookupFault>
    ensures found { R.tells
        → IsNamedStore (R.state space.old).records (R.state space.old).shape names.now.names
        → IfOk result (λ nodes. map items.Vertex nodes.items
        ≡ meaning (graph_of (R.state space.old).records) (scan label.now key.now value.now)) }
    ensures there { R.tells
        → IsNamedStore (R.state space.old).records (R.state space.old).shape names.now.names
        → IfOk result (λ nodes.
        HasIndex (graph_of (R.state space.old).records) label.now key.now) }
    ensures refused { R.tells
        → IsNamedStore (R.state space.old).records (R.state space.old).shape names.now.names
        → IfErr result (IsIndexRefusal (graph_of (R.state space.old).records)
        label.now key.now) }
    // A record that is said to be damaged breaks a rule, in whatever store.
    ensures damaged { R.tells → IfErr result
        (BlamesBroken (R.state space.old).records (R.state space.old).shape) }
    ensures cost { R.tells
        → IsNamedStore (R.state space.old).records (R.state space.old).shape names.now.names
        → ReadsForFind label.now key.now value.now (R.state space.old) (R.state space.new) }
    ensures read { IsRead R.Reads space.old space.new }
    ensures cause { HasLookupCause (R.faults space.old) (R.faults space.new) result }
{
    let Some(label_number) = text_number(space, names, label) else {
        return Err(LookupFault::NoIndex);
    };
    let Some(key_number) = text_number(space, names, key) else {
        return Err(LookupFault::NoIndex);
    };
    lookup(alloc, space, label_number, key_number, value)
}
