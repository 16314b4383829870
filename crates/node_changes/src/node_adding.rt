ghost use Rattle.std.specs.Prelude.{◌≡◌, ◌++◌, ◌+◌, ◌-◌, ◌<◌, ◌≤◌, ℕ, List, ◌∷◌, Some, IfErr, IfOk};
ghost use Rattle.std.specs.Prelude.{IsErr, OnErr, OnOk, length, slice_get};
ghost use Rattle.std.specs.FinMap as maps;
ghost use Rattle.plain_graph.specs.Changes.{most_weight, properties_weight, start_weight};
ghost use Rattle.plain_graph.specs.Graph.{UsesNames};
ghost use Rattle.plain_graph.specs.Lines.{HasForm};
ghost use Rattle.plain_graph.specs.Properties.{keys_in, no_properties, with_pairs};
ghost use Rattle.plain_graph.specs.Refusals.{most_names};
ghost use Rattle.plain_graph.specs.Reply.{NodeMade};
ghost use Rattle.plain_graph.specs.declared.command.Command.TheVariants as commands;
ghost use Rattle.rec_bytes.specs.Format.{index_file, nodes_file};
ghost use Rattle.id_freelist.specs.Taking.{IsTakeDamage, taken_id};
ghost use Rattle.prop_store.specs.FileChange.{IsSameBeside};
ghost use Rattle.rec_bytes.specs.Key.{IsKey};
ghost use Rattle.rec_bytes.specs.Space.{meta_of};
ghost use Rattle.store_rules.specs.Views.{key_in};
ghost use Rattle.store_rules.specs.Writes.{WritesAtMost, WritesBeside};
ghost use Rattle.change_parts.specs.Causes.{IsCaused, IsCausedAfter};
ghost use Rattle.change_parts.specs.Change.{IsCounted, IsRefusal, MakesChange};
ghost use Rattle.change_parts.specs.ChangeFault.{HasChangeCause, IsFailure, IsOutside, LeavesSpace};
ghost use Rattle.change_parts.specs.Damage.{BlamesEntries, BlamesBroken, IfBlames};
ghost use Rattle.node_changes.specs.Entries.{WeighsNode};
ghost use Rattle.node_changes.specs.NodeAdding.{IsFullOfNodes, IsNodeLabelled, IsNodeOf};
ghost use Rattle.node_changes.specs.NodeAdding.{PutsNode, new_row};
ghost use Rattle.change_parts.specs.Rooms.{HasRoom};
ghost use Rattle.change_parts.specs.Store.{IsMidway, IsStore};
ghost use Rattle.store_rules.specs.Graph.{graph_in};

use crate::entries::{enter_values, entry_count, listed_pairs};
use change_parts::{Added, ChangeFault, node_owner, prepare, put_properties, test_room};
use id_freelist::take;
use name_store::Names;
use node_store::{NodeRow, save};
use plain_graph::{Pairs, Text};
use rec_bytes::{INDEX, NIL, NODES, Reads, Space};
use std::alloc::Global;

/// Adds a node with properties, and their entries to the indexes. Of a key that comes twice the
/// last value stands.
pub fn add_node<S: Space>(
    alloc: Global,
    space: &mut S,
    names: &mut Names,
    label: &Text,
    pairs: &Pairs,
) -> Result<Added, ChangeFault>
    requires { HasForm (commands.Node label.now pairs.now) }
    ensures made { S.tells → IfOk result (λ added. IsStore (S.state space.old) names.old.names
        → MakesChange (commands.Node label.now pairs.now) (NodeMade added.id) added.weight
        (S.state space.old) (S.state space.new) names.new.names) }
    // its identifier is the free one that was given back last, or else the mark
    ensures taken { S.tells → IfOk result (λ added.
        added.id ≡ taken_id (meta_of (S.state space.old) nodes_file)) }
    // Whatever the records are, it is in use, and has the label. It becomes dense only where it
    // gets more edges than a sparse one may have.
    ensures stands { S.tells → IfOk result (λ added. IsNodeLabelled
        (S.state space.new).records names.new.names added.id label.now) }
    ensures refused { S.tells → IsStore (S.state space.old) names.old.names
        → IfErr result (IsRefusal (S.state space.old).shape.limit (graph_in (S.state space.old))
        (commands.Node label.now pairs.now)) }
    ensures caused { S.tells → IfErr result (IsCaused (commands.Node label.now pairs.now)
        (S.state space.old) (S.state space.new) names.old.names names.new.names) }
    ensures caused_after { S.tells → IfErr result (IsCausedAfter (commands.Node label.now pairs.now)
        (S.state space.new) names.old.names names.new.names) }
    ensures damaged { S.tells → IfErr result
        (BlamesEntries (S.state space.old) (S.state space.new)) }
    ensures counts { S.tells → IsStore (S.state space.old) names.old.names
        → IfErr result (IsCounted (S.state space.old)) }
    ensures full { IsStore (S.state space.old) names.old.names → IsFullOfNodes (S.state space.old)
        → result ≡ Err (ChangeFault.Full nodes_file (S.state space.old).shape.limit) }
    ensures names_full { (used : List (List ℕ))
        → UsesNames names.old.names (label.now ∷ keys_in pairs.now) used
        → most_names < length used → IsErr result }
    ensures leaves { S.tells → IfErr result (LeavesSpace (S.state space.old) (S.state space.new)) }
    ensures weight { IfOk result (λ added. WeighsNode pairs.now
        (length names.new.names - length names.old.names) added.weight) }
    ensures unindexed { S.tells → (meta_of (S.state space.old) index_file).live ≡ 0
        → IfOk result (λ added. added.weight
        ≡ 1 + properties_weight (with_pairs no_properties pairs.now)
        + (length names.new.names - length names.old.names)) }
    ensures light { IfOk result (λ added. added.weight + start_weight ≤ most_weight) }
    ensures prefix { (rest : List (List ℕ)) × (names.new.names ≡ names.old.names ++ rest) }
    ensures writes { IfOk result (λ added.
        WritesAtMost added.weight (S.state space.old) (S.state space.new)) }
    ensures refused_writes { OnErr result (WritesAtMost 868
        (S.state space.old) (S.state space.new)) }
    ensures onward { S.onward space.old space.new }
    ensures cause { HasChangeCause (S.faults space.old) (S.faults space.new) result }
{
    let pairs = pairs.as_slice();
    test_room(space, NODES, 1)?;
    let prepared = prepare(space, names, label, pairs)?;
    let listed = listed_pairs(alloc, space)?;
    let entries = entry_count(&listed, prepared.label, &prepared.assigned);
    test_room(space, INDEX, entries)?;
    let id = put_node(space, prepared.label)?;
    put_properties(space, node_owner(id), &prepared.assigned, pairs)?;
    enter_values(
        space,
        &listed,
        prepared.label,
        id,
        &prepared.assigned,
        pairs,
    )?;
    Ok(Added {
        id,
        weight: 1 + prepared.weight + 3 * entries,
    })
}

/// Writes the record of a new node without relationships and properties, and answers its
/// identifier.
fn put_node<S: Space>(space: &mut S, label: u32) -> Result<u32, ChangeFault>
    ensures put { S.tells → IfOk result (λ id. (names : List (List ℕ)) (text : List ℕ)
        → IsMidway (S.state space.old) names → slice_get names label ≡ Some text
        → PutsNode (S.state space.old) (S.state space.new) names label text id) }
    ensures is { IfOk result (λ id. id ≡ taken_id (meta_of (S.state space.old) nodes_file)) }
    ensures stands { S.tells → IfOk result
        (λ id. IsNodeOf (S.state space.new).records id label) }
    ensures not_damaged { S.tells → (names : List (List ℕ)) → IsMidway (S.state space.old) names
        → HasRoom (S.state space.old) nodes_file 1 → IfErr result IsOutside }
    ensures failure { S.tells → HasRoom (S.state space.old) nodes_file 1
        → IfErr result IsFailure }
    ensures damaged { S.tells → IfErr result
        (IfBlames (IsTakeDamage (S.state space.old) nodes_file)) }
    ensures damaged_after { S.tells → IfErr result (BlamesBroken (S.state space.new)) }
    ensures other_files { S.tells → OnOk result (IsSameBeside nodes_file (S.state space.old).records
        (S.state space.new).records) }
    ensures key { IfOk result (λ id. IsKey (key_in nodes_file id)) }
    ensures writes { IfOk result (λ id. WritesBeside (key_in nodes_file id) 0
        (S.state space.old) (S.state space.new)) }
    ensures err_writes { OnErr result (WritesAtMost 1 (S.state space.old) (S.state space.new)) }
    ensures onward { S.onward space.old space.new }
    ensures cause { HasChangeCause (S.faults space.old) (S.faults space.new) result }
{
    let id = take(space, NODES)?;
    save(space, &new_row(id, label))?;
    Ok(id)
}

/// A node without relationships and properties.
fn new_row(id: u32, label: u32) -> NodeRow
    ensures { result ≡ new_row id label }
{
    NodeRow {
        id,
        label,
        dense: false,
        first: NIL,
        props: NIL,
        degree: 0,
    }
}
