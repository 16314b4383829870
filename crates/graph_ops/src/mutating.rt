ghost use Rattle.std.specs.Prelude.{◌≡◌, ◌++◌, ◌+◌, ◌<◌, ◌≤◌, [], ◌∷◌, ℕ, List, min, IfErr, IfOk};
ghost use Rattle.std.specs.Prelude.{OnOk};
ghost use Rattle.std.specs.List.{AllByRecursion};
ghost use Rattle.plain_graph.specs.Forms.{ArePairs, HasMutationForm, IsShown};
ghost use Rattle.plain_graph.specs.Names.{IsShortName};
ghost use Rattle.plain_graph.specs.declared.command.Command.TheVariants as commands;
ghost use Rattle.rec_bytes.specs.Format.{nodes_file, relationships_file};
ghost use Rattle.rec_bytes.specs.Space.{meta_of};
ghost use Rattle.store_rules.specs.Writes.{WritesAtMost};
ghost use Rattle.id_freelist.specs.Taking.{taken_id};
ghost use Rattle.change_parts.specs.Change.{IsRefusal};
ghost use Rattle.change_parts.specs.ChangeFault.{HasChangeCause};
ghost use Rattle.change_parts.specs.Store.{IsStore};
ghost use Rattle.change_parts.specs.Causes.{IsCausedAfter};
ghost use Rattle.graph_ops.specs.ChangeLeft.{LeavesMutation};
ghost use Rattle.graph_ops.specs.MutateFault.{BlamesNone, HasMutateCause, IfRefused};
ghost use Rattle.graph_ops.specs.MutateFault.{IsMutateRefusal};
ghost use Rattle.graph_ops.specs.Mutating.{IsListCaused, IsListRefusal};
ghost use Rattle.graph_ops.specs.Mutating.{MakesMutation, MakesPart};
ghost use Rattle.graph_ops.specs.Mutating.{any_replies, command_from, most_drafted, most_told};
ghost use Rattle.graph_ops.specs.Mutating.{steps_for};
ghost use Rattle.graph_ops.specs.NewIds.{GetsFreeIds, ShowsIds};
ghost use Rattle.plain_graph.specs.Mutations.{changes_of, deletions, new_elements, settings};
ghost use Rattle.plain_graph.specs.declared.mutation.Mutation.TheVariants as mutations;
ghost use Rattle.store_rules.specs.Graph.{graph_in};

use crate::MutateFault;
use crate::distinct::distinct_elements;
use change_parts::{Added, ChangeFault};
use edge_changes::{add_edge, delete_edge};
use name_store::Names;
use node_changes::{add_node, delete_node, set};
use plain_graph::{Item, Mutation, Pair, Pairs, Target, Text};
use rec_bytes::Space;
use std::alloc::Global;

/// The greatest weight that is told; a transaction may weigh half of it.
const MOST_TOLD: u32 = 4_096;

/// What the changes of a line may weigh before memory is said to lack: eight transactions.
const MOST_DRAFTED: u32 = 16_384;

/// What a mutation shows, and its weight: how many records it puts, meta records aside, or 4,096
/// where that is less.
#[derive(Drop)]
pub struct Mutated {
    pub items: Vec<Item>,
    pub weight: u32,
}

/// What the new edges of a step have, whichever vertices they come from.
#[derive(Clone, Copy)]
struct NewEdge<'a> {
    label: &'a Text,
    to: u32,
    pairs: &'a Pairs,
}

/// Makes the changes that the steps ask for on the results of a query, one after the other. After a
/// refusal the caller drops the draft and cuts the names. Where they would write more than eight
/// transactions may, the answer is want of memory, whatever a later change would be refused for.
pub fn mutate<S: Space>(
    alloc: Global,
    space: &mut S,
    names: &mut Names,
    items: Vec<Item>,
    mutation: &Mutation,
) -> Result<Mutated, MutateFault>
    requires { HasMutationForm mutation.now }
    ensures made { S.tells → IfOk result (λ mutated. IsStore (S.state space.old) names.old.names
        → MakesMutation mutation.now items.items mutated.items.items mutated.weight
        (S.state space.old) (S.state space.new) names.new.names) }
    ensures refused { S.tells → IsStore (S.state space.old) names.old.names
        → IfErr result (IsMutateRefusal (S.state space.old).shape.limit
        (graph_in (S.state space.old)) (changes_of mutation.now items.items)) }
    // what it leaves of the records, whatever they are
    ensures leaves { S.tells → IfOk result (λ mutated.
        LeavesMutation mutation.now items.items mutated.items.items
        (S.state space.old).records (S.state space.new).records names.new.names) }
    // its new elements have the identifiers of the free list, and then those from the mark on
    ensures ids { S.tells → IfOk result (λ mutated.
        GetsFreeIds mutation.now mutated.items.items (S.state space.old).records) }
    // What it shows has a line where the results have.
    ensures shown { AllByRecursion IsShown items.items
        → IfOk result (λ mutated. AllByRecursion IsShown mutated.items.items) }
    ensures few { IfOk result (λ mutated. mutated.weight ≤ 4096) }
    ensures writes { IfOk result (λ mutated. mutated.weight < 4096
        → WritesAtMost mutated.weight (S.state space.old) (S.state space.new)) }
    ensures prefix { (rest : List (List ℕ)) × (names.new.names ≡ names.old.names ++ rest) }
    ensures caused_after { S.tells → IfErr result (IfRefused (IsListCaused
        (changes_of mutation.now items.items)
        (S.state space.new) names.old.names names.new.names)) }
    // A refusal names no damaged record.
    ensures unnamed { IfErr result (IfRefused BlamesNone) }
    ensures onward { S.onward space.old space.new }
    ensures cause { HasMutateCause (S.faults space.old) (S.faults space.new) result }
{
    match make_changes(alloc, space, names, items, mutation) {
        Ok(mutated) => Ok(mutated),
        Err(ChangeFault::Damaged(_)) => Err(MutateFault::Damaged),
        Err(fault) => Err(MutateFault::Refused(fault)),
    }
}

/// Makes the changes, one after the other. A record that is called damaged may have been changed.
fn make_changes<S: Space>(
    alloc: Global,
    space: &mut S,
    names: &mut Names,
    items: Vec<Item>,
    mutation: &Mutation,
) -> Result<Mutated, ChangeFault>
    requires { HasMutationForm mutation.now }
    ensures made { S.tells → IfOk result (λ mutated. IsStore (S.state space.old) names.old.names
        → MakesMutation mutation.now items.items mutated.items.items mutated.weight
        (S.state space.old) (S.state space.new) names.new.names) }
    ensures refused { S.tells → IsStore (S.state space.old) names.old.names
        → IfErr result (IsListRefusal (S.state space.old).shape.limit
        (graph_in (S.state space.old)) (changes_of mutation.now items.items)) }
    ensures leaves { S.tells → IfOk result (λ mutated.
        LeavesMutation mutation.now items.items mutated.items.items
        (S.state space.old).records (S.state space.new).records names.new.names) }
    ensures ids { S.tells → IfOk result (λ mutated.
        GetsFreeIds mutation.now mutated.items.items (S.state space.old).records) }
    ensures shown { AllByRecursion IsShown items.items
        → IfOk result (λ mutated. AllByRecursion IsShown mutated.items.items) }
    ensures few { IfOk result (λ mutated. mutated.weight ≤ 4096) }
    ensures writes { IfOk result (λ mutated. mutated.weight < 4096
        → WritesAtMost mutated.weight (S.state space.old) (S.state space.new)) }
    ensures prefix { (rest : List (List ℕ)) × (names.new.names ≡ names.old.names ++ rest) }
    ensures caused_after { S.tells → IfErr result (IsListCaused
        (changes_of mutation.now items.items)
        (S.state space.new) names.old.names names.new.names) }
    ensures onward { S.onward space.old space.new }
    ensures cause { HasChangeCause (S.faults space.old) (S.faults space.new) result }
{
    match mutation {
        Mutation::AddV { label, pairs } => {
            let mut vertices = Vec::new(alloc);
            let weight = add_vertex(alloc, space, names, label, pairs, &mut vertices)?;
            Ok(Mutated {
                items: vertices,
                weight: told_weight(weight),
            })
        }
        Mutation::AddE { label, to, pairs } => {
            let mut edges = Vec::new(alloc);
            let to = *to;
            let edge = NewEdge { label, to, pairs };
            let weight = add_edges(alloc, space, names, &items, &edge, &mut edges)?;
            Ok(Mutated {
                items: edges,
                weight: told_weight(weight),
            })
        }
        Mutation::Property(pairs) => {
            let weight = set_each(alloc, space, names, &items, pairs.as_slice())?;
            Ok(Mutated {
                items,
                weight: told_weight(weight),
            })
        }
        Mutation::Drop => {
            let weight = drop_each(alloc, space, names, &items)?;
            Ok(Mutated {
                items: Vec::new(alloc),
                weight: told_weight(weight),
            })
        }
    }
}

/// Both weights together. There is memory for so many records of one line, and no more.
fn both_weights(one: u32, other: u32) -> Result<u32, ChangeFault>
    requires one { one ≤ most_drafted }
    requires other { other ≤ most_drafted }
    ensures sum { IfOk result (λ both. both ≡ one + other) }
    ensures few { IfOk result (λ both. both ≤ most_drafted) }
    ensures memory { IfErr result (λ fault. fault ≡ ChangeFault.Memory) }
{
    let both = one + other;
    if both <= MOST_DRAFTED {
        Ok(both)
    } else {
        Err(ChangeFault::Memory)
    }
}

/// The weight as far as it is told.
fn told_weight(weight: u32) -> u32
    ensures is { result ≡ min weight most_told }
    ensures few { result ≤ most_told }
{
    if weight < MOST_TOLD {
        weight
    } else {
        MOST_TOLD
    }
}

/// Adds an element to those that are shown.
fn show(shown: &mut Vec<Item>, item: Item) -> Result<(), ChangeFault>
    ensures shown { OnOk result (shown.new.items ≡ shown.old.items ++ item ∷ []) }
    ensures lines { AllByRecursion IsShown shown.old.items → IsShown item
        → OnOk result (AllByRecursion IsShown shown.new.items) }
    ensures memory { IfErr result (λ fault. fault ≡ ChangeFault.Memory) }
{
    match shown.push(item) {
        Ok(()) => Ok(()),
        Err(_) => Err(ChangeFault::Memory),
    }
}

// ---- elements taken away

/// Deletes each different element of the results.
fn drop_each<S: Space>(
    alloc: Global,
    space: &mut S,
    names: &Names,
    items: &[Item],
) -> Result<u32, ChangeFault>
    ensures part { IfOk result (λ weight. MakesPart S.tells (changes_of mutations.Drop items.now)
        any_replies weight (S.state space.old) (S.state space.new)
        names.now.names names.now.names) }
    ensures refused { S.tells → IsStore (S.state space.old) names.now.names
        → IfErr result (IsListRefusal (S.state space.old).shape.limit
        (graph_in (S.state space.old)) (changes_of mutations.Drop items.now)) }
    ensures caused_after { S.tells → IfErr result (IsListCaused
        (changes_of mutations.Drop items.now)
        (S.state space.new) names.now.names names.now.names) }
    ensures onward { S.onward space.old space.new }
    ensures cause { HasChangeCause (S.faults space.old) (S.faults space.new) result }
{
    let Ok(targets) = distinct_elements(alloc, items) else {
        return Err(ChangeFault::Memory);
    };
    delete_each(alloc, space, names, &targets)
}

/// Deletes these elements, one after the other.
fn delete_each<S: Space>(
    alloc: Global,
    space: &mut S,
    names: &Names,
    targets: &[Target],
) -> Result<u32, ChangeFault>
    ensures part { IfOk result (λ weight. MakesPart S.tells (deletions targets.now)
        any_replies weight (S.state space.old) (S.state space.new)
        names.now.names names.now.names) }
    ensures refused { S.tells → IsStore (S.state space.old) names.now.names
        → IfErr result (IsListRefusal (S.state space.old).shape.limit
        (graph_in (S.state space.old)) (deletions targets.now)) }
    ensures caused_after { S.tells → IfErr result (IsListCaused (deletions targets.now)
        (S.state space.new) names.now.names names.now.names) }
    ensures onward { S.onward space.old space.new }
    ensures cause { HasChangeCause (S.faults space.old) (S.faults space.new) result }
{
    let mut weight = 0;
    for target in targets {
        let more = delete(alloc, space, names, *target)?;
        let both = both_weights(weight, more)?;
        weight = both;
    }
    Ok(weight)
}

/// Deletes an element.
fn delete<S: Space>(
    alloc: Global,
    space: &mut S,
    names: &Names,
    target: Target,
) -> Result<u32, ChangeFault>
    ensures part { IfOk result (λ weight. MakesPart S.tells (commands.Delete target ∷ [])
        any_replies weight (S.state space.old) (S.state space.new)
        names.now.names names.now.names) }
    ensures refused { S.tells → IsStore (S.state space.old) names.now.names
        → IfErr result (IsRefusal (S.state space.old).shape.limit
        (graph_in (S.state space.old)) (commands.Delete target)) }
    ensures caused_after { S.tells → IfErr result (IsCausedAfter (commands.Delete target)
        (S.state space.new) names.now.names names.now.names) }
    ensures onward { S.onward space.old space.new }
    ensures cause { HasChangeCause (S.faults space.old) (S.faults space.new) result }
{
    match target {
        Target::Node(id) => delete_node(alloc, space, names, id),
        Target::Edge(id) => delete_edge(space, names, id),
    }
}

// ---- values

/// Sets the pairs, from left to right, on each element of the results in turn.
fn set_each<S: Space>(
    alloc: Global,
    space: &mut S,
    names: &mut Names,
    items: &[Item],
    pairs: &[Pair],
) -> Result<u32, ChangeFault>
    requires { ArePairs pairs.now }
    ensures part { IfOk result (λ weight. MakesPart S.tells
        (changes_of (mutations.Property pairs.now) items.now)
        any_replies weight (S.state space.old) (S.state space.new)
        names.old.names names.new.names) }
    ensures refused { S.tells → IsStore (S.state space.old) names.old.names
        → IfErr result (IsListRefusal (S.state space.old).shape.limit
        (graph_in (S.state space.old)) (changes_of (mutations.Property pairs.now) items.now)) }
    ensures prefix { (rest : List (List ℕ)) × (names.new.names ≡ names.old.names ++ rest) }
    ensures caused_after { S.tells → IfErr result (IsListCaused
        (changes_of (mutations.Property pairs.now) items.now)
        (S.state space.new) names.old.names names.new.names) }
    ensures onward { S.onward space.old space.new }
    ensures cause { HasChangeCause (S.faults space.old) (S.faults space.new) result }
{
    let mut weight = 0;
    for item in items {
        let more = set_item(alloc, space, names, item, pairs)?;
        let both = both_weights(weight, more)?;
        weight = both;
    }
    Ok(weight)
}

/// Sets the pairs, from left to right, on a result; a value has none.
fn set_item<S: Space>(
    alloc: Global,
    space: &mut S,
    names: &mut Names,
    item: &Item,
    pairs: &[Pair],
) -> Result<u32, ChangeFault>
    requires { ArePairs pairs.now }
    ensures part { IfOk result (λ weight. MakesPart S.tells
        (changes_of (mutations.Property pairs.now) (item.now ∷ []))
        any_replies weight (S.state space.old) (S.state space.new)
        names.old.names names.new.names) }
    ensures refused { S.tells → IsStore (S.state space.old) names.old.names
        → IfErr result (IsListRefusal (S.state space.old).shape.limit
        (graph_in (S.state space.old))
        (changes_of (mutations.Property pairs.now) (item.now ∷ []))) }
    ensures prefix { (rest : List (List ℕ)) × (names.new.names ≡ names.old.names ++ rest) }
    ensures caused_after { S.tells → IfErr result (IsListCaused
        (changes_of (mutations.Property pairs.now) (item.now ∷ []))
        (S.state space.new) names.old.names names.new.names) }
    ensures onward { S.onward space.old space.new }
    ensures cause { HasChangeCause (S.faults space.old) (S.faults space.new) result }
{
    match item {
        Item::Vertex(id) => set_pairs(alloc, space, names, Target::Node(*id), pairs),
        Item::Edge { id, .. } => set_pairs(alloc, space, names, Target::Edge(*id), pairs),
        Item::Value(_) => Ok(0),
    }
}

/// Sets the pairs, from left to right, on an element.
fn set_pairs<S: Space>(
    alloc: Global,
    space: &mut S,
    names: &mut Names,
    target: Target,
    pairs: &[Pair],
) -> Result<u32, ChangeFault>
    requires { ArePairs pairs.now }
    ensures part { IfOk result (λ weight. MakesPart S.tells (settings pairs.now target)
        any_replies weight (S.state space.old) (S.state space.new)
        names.old.names names.new.names) }
    ensures refused { S.tells → IsStore (S.state space.old) names.old.names
        → IfErr result (IsListRefusal (S.state space.old).shape.limit
        (graph_in (S.state space.old)) (settings pairs.now target)) }
    ensures prefix { (rest : List (List ℕ)) × (names.new.names ≡ names.old.names ++ rest) }
    ensures caused_after { S.tells → IfErr result (IsListCaused (settings pairs.now target)
        (S.state space.new) names.old.names names.new.names) }
    ensures onward { S.onward space.old space.new }
    ensures cause { HasChangeCause (S.faults space.old) (S.faults space.new) result }
{
    let mut weight = 0;
    for pair in pairs {
        let more = set(alloc, space, names, target, &pair.key, &pair.value)?;
        let both = both_weights(weight, more)?;
        weight = both;
    }
    Ok(weight)
}

// ---- new elements

/// Adds a vertex.
fn add_vertex<S: Space>(
    alloc: Global,
    space: &mut S,
    names: &mut Names,
    label: &Text,
    pairs: &Pairs,
    shown: &mut Vec<Item>,
) -> Result<u32, ChangeFault>
    requires label { IsShortName label.now }
    requires pairs { ArePairs pairs.now }
    ensures part { IfOk result (λ weight. MakesPart S.tells
        (commands.Node label.now pairs.now ∷ [])
        (λ replies. shown.new.items ≡ shown.old.items
        ++ new_elements (commands.Node label.now pairs.now ∷ []) replies)
        weight (S.state space.old) (S.state space.new) names.old.names names.new.names) }
    ensures lines { AllByRecursion IsShown shown.old.items
        → OnOk result (AllByRecursion IsShown shown.new.items) }
    ensures refused { S.tells → IsStore (S.state space.old) names.old.names
        → IfErr result (IsRefusal (S.state space.old).shape.limit
        (graph_in (S.state space.old)) (commands.Node label.now pairs.now)) }
    ensures ids { S.tells → OnOk result (shown.new.items ≡ shown.old.items
        ++ Item.Vertex (taken_id (meta_of (S.state space.old) nodes_file)) ∷ []) }
    ensures prefix { (rest : List (List ℕ)) × (names.new.names ≡ names.old.names ++ rest) }
    ensures caused_after { S.tells → IfErr result (IsListCaused
        (commands.Node label.now pairs.now ∷ [])
        (S.state space.new) names.old.names names.new.names) }
    ensures onward { S.onward space.old space.new }
    ensures cause { HasChangeCause (S.faults space.old) (S.faults space.new) result }
{
    let Added { id, weight } = add_node(alloc, space, names, label, pairs)?;
    show(shown, Item::Vertex(id))?;
    Ok(weight)
}

/// Adds an edge from each vertex of the results in turn.
fn add_edges<S: Space>(
    alloc: Global,
    space: &mut S,
    names: &mut Names,
    items: &[Item],
    edge: &NewEdge,
    shown: &mut Vec<Item>,
) -> Result<u32, ChangeFault>
    requires label { IsShortName edge.now.label.now }
    requires pairs { ArePairs edge.now.pairs.now }
    ensures part { IfOk result (λ weight. MakesPart S.tells
        (changes_of (steps_for edge.now) items.now)
        (λ replies. shown.new.items ≡ shown.old.items
        ++ new_elements (changes_of (steps_for edge.now) items.now) replies)
        weight (S.state space.old) (S.state space.new) names.old.names names.new.names) }
    ensures lines { AllByRecursion IsShown shown.old.items
        → OnOk result (AllByRecursion IsShown shown.new.items) }
    ensures refused { S.tells → IsStore (S.state space.old) names.old.names
        → IfErr result (IsListRefusal (S.state space.old).shape.limit
        (graph_in (S.state space.old)) (changes_of (steps_for edge.now) items.now)) }
    ensures ids { S.tells → OnOk result (ShowsIds (S.state space.old).records
        (S.state space.new).records relationships_file shown.old.items shown.new.items) }
    ensures prefix { (rest : List (List ℕ)) × (names.new.names ≡ names.old.names ++ rest) }
    ensures caused_after { S.tells → IfErr result (IsListCaused
        (changes_of (steps_for edge.now) items.now)
        (S.state space.new) names.old.names names.new.names) }
    ensures onward { S.onward space.old space.new }
    ensures cause { HasChangeCause (S.faults space.old) (S.faults space.new) result }
{
    let mut weight = 0;
    for item in items {
        let more = add_edge_from(alloc, space, names, item, edge, shown)?;
        let both = both_weights(weight, more)?;
        weight = both;
    }
    Ok(weight)
}

/// Adds an edge from a result that is a vertex.
fn add_edge_from<S: Space>(
    alloc: Global,
    space: &mut S,
    names: &mut Names,
    item: &Item,
    edge: &NewEdge,
    shown: &mut Vec<Item>,
) -> Result<u32, ChangeFault>
    requires label { IsShortName edge.now.label.now }
    requires pairs { ArePairs edge.now.pairs.now }
    ensures part { IfOk result (λ weight. MakesPart S.tells
        (changes_of (steps_for edge.now) (item.now ∷ []))
        (λ replies. shown.new.items ≡ shown.old.items
        ++ new_elements (changes_of (steps_for edge.now) (item.now ∷ [])) replies)
        weight (S.state space.old) (S.state space.new) names.old.names names.new.names) }
    ensures lines { AllByRecursion IsShown shown.old.items
        → OnOk result (AllByRecursion IsShown shown.new.items) }
    ensures refused { S.tells → IsStore (S.state space.old) names.old.names
        → IfErr result (IsListRefusal (S.state space.old).shape.limit
        (graph_in (S.state space.old)) (changes_of (steps_for edge.now) (item.now ∷ []))) }
    ensures ids { S.tells → OnOk result (ShowsIds (S.state space.old).records
        (S.state space.new).records relationships_file shown.old.items shown.new.items) }
    ensures prefix { (rest : List (List ℕ)) × (names.new.names ≡ names.old.names ++ rest) }
    ensures caused_after { S.tells → IfErr result (IsListCaused
        (changes_of (steps_for edge.now) (item.now ∷ []))
        (S.state space.new) names.old.names names.new.names) }
    ensures onward { S.onward space.old space.new }
    ensures cause { HasChangeCause (S.faults space.old) (S.faults space.new) result }
{
    match item {
        Item::Vertex(from) => add_one_edge(alloc, space, names, *from, edge, shown),
        Item::Edge { .. } | Item::Value(_) => Ok(0),
    }
}

/// Adds an edge, and shows it.
fn add_one_edge<S: Space>(
    alloc: Global,
    space: &mut S,
    names: &mut Names,
    from: u32,
    edge: &NewEdge,
    shown: &mut Vec<Item>,
) -> Result<u32, ChangeFault>
    requires label { IsShortName edge.now.label.now }
    requires pairs { ArePairs edge.now.pairs.now }
    ensures part { IfOk result (λ weight. MakesPart S.tells (command_from from edge.now ∷ [])
        (λ replies. shown.new.items ≡ shown.old.items
        ++ new_elements (command_from from edge.now ∷ []) replies)
        weight (S.state space.old) (S.state space.new) names.old.names names.new.names) }
    ensures lines { AllByRecursion IsShown shown.old.items
        → OnOk result (AllByRecursion IsShown shown.new.items) }
    ensures refused { S.tells → IsStore (S.state space.old) names.old.names
        → IfErr result (IsRefusal (S.state space.old).shape.limit
        (graph_in (S.state space.old)) (command_from from edge.now)) }
    ensures ids { S.tells → OnOk result (ShowsIds (S.state space.old).records
        (S.state space.new).records relationships_file shown.old.items shown.new.items) }
    ensures prefix { (rest : List (List ℕ)) × (names.new.names ≡ names.old.names ++ rest) }
    ensures caused_after { S.tells → IfErr result (IsListCaused (command_from from edge.now ∷ [])
        (S.state space.new) names.old.names names.new.names) }
    ensures onward { S.onward space.old space.new }
    ensures cause { HasChangeCause (S.faults space.old) (S.faults space.new) result }
{
    let NewEdge { label, to, pairs } = *edge;
    let Ok(own_label) = label.copy(alloc) else {
        return Err(ChangeFault::Memory);
    };
    let Added { id, weight } = add_edge(space, names, from, label, to, pairs)?;
    show(
        shown,
        Item::Edge {
            id,
            label: own_label,
            from,
            to,
        },
    )?;
    Ok(weight)
}
