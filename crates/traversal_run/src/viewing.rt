//! Elements that are shown with their labels and properties.

ghost use Rattle.std.specs.Prelude.{◌≡◌, ◌+◌, ℕ, List, [], All, IfErr, IfOk, IfSome, OnOk};
ghost use Rattle.std.specs.Borrow.{Bor};
ghost use Rattle.std.specs.Option.{option_map};
ghost use Rattle.plain_graph.specs.ElementMaps.{element_map, pairs_of};
ghost use Rattle.plain_graph.specs.Forms.{HasKept, IsKept, IsShown};
ghost use Rattle.plain_graph.specs.Graph.{properties_at};
ghost use Rattle.plain_graph.specs.Meaning.{properties_of};
ghost use Rattle.plain_graph.specs.Properties.{Properties};
ghost use Rattle.plain_graph.specs.declared.command.Target.TheVariants as targets;
ghost use Rattle.plain_graph.specs.declared.pairs.Pair.{Pair as PairRow};
ghost use Rattle.prop_store.specs.Fault.{BlamesBroken};
ghost use Rattle.prop_store.specs.Reading.{ReadsAtMost};
ghost use Rattle.prop_store.specs.declared.prop.Prop.{Prop as PropRow};
ghost use Rattle.rec_bytes.specs.Fault.{HasFaultCause};
ghost use Rattle.store_rules.specs.Graph.{graph_of};
ghost use Rattle.traversal_run.specs.Elements.{IsLoaded, IsRowOf, owner_reads};
ghost use Rattle.traversal_run.specs.KeyValues.{AreRead};
ghost use Rattle.traversal_run.specs.Reading.{IsNamedStore, IsRead};
ghost use Rattle.traversal_run.specs.Viewing.{property_reads, view_of, view_reads};

use crate::elements::{edge_owner, label_of};
use crate::finding::{edge_row, typed_edge, vertex_row};
use crate::key_values::{pairs_of, read_owned, read_properties, rows_of};
use crate::naming::text_of;
use crate::text_set::distinct_texts;
use name_store::Names;
use node_store::NodeRow;
use plain_graph::{ElementMap, Item, Pairs, Target, Text};
use prop_store::Prop;
use rec_bytes::{Fault, Reads};
use std::alloc::{AllocError, Global};

/// The element that a line names, with its label and all its properties; none where it isn't there.
pub fn view_element<R: Reads>(
    alloc: Global,
    space: &mut R,
    names: &Names,
    target: &Target,
) -> Result<Option<(Item, ElementMap)>, Fault>
    ensures found { R.tells
        → IsNamedStore (R.state space.old).records (R.state space.old).shape names.now.names
        → IfOk result (λ viewed. viewed
        ≡ view_of (graph_of (R.state space.old).records) target.now) }
    // It has a line.
    ensures kept { IfOk result (λ viewed. IfSome viewed (λ row. HasKept row.0 row.1.pairs)) }
    // One read of the element, and one for each property and each block of their texts.
    ensures cost { R.tells
        → IsNamedStore (R.state space.old).records (R.state space.old).shape names.now.names
        → OnOk result (ReadsAtMost
        (view_reads (properties_at (graph_of (R.state space.old).records) target.now))
        (R.state space.old) (R.state space.new)) }
    ensures at_most { ReadsAtMost 737 (R.state space.old) (R.state space.new) }
    // A record that is said to be damaged breaks the rule that is named, in whatever store.
    ensures damaged { R.tells → IfErr result
        (BlamesBroken (R.state space.old).records (R.state space.old).shape) }
    ensures read { IsRead R.Reads space.old space.new }
    ensures cause { HasFaultCause (R.faults space.old) (R.faults space.new) result }
{
    match target {
        Target::Node(id) => view_node(alloc, space, names, *id),
        Target::Edge(id) => view_edge(alloc, space, names, *id),
    }
}

fn view_node<R: Reads>(
    alloc: Global,
    space: &mut R,
    names: &Names,
    id: u32,
) -> Result<Option<(Item, ElementMap)>, Fault>
    ensures found { R.tells
        → IsNamedStore (R.state space.old).records (R.state space.old).shape names.now.names
        → IfOk result (λ viewed. viewed
        ≡ view_of (graph_of (R.state space.old).records) (targets.Node id)) }
    ensures kept { IfOk result (λ viewed. IfSome viewed (λ row. HasKept row.0 row.1.pairs)) }
    ensures cost { R.tells
        → IsNamedStore (R.state space.old).records (R.state space.old).shape names.now.names
        → OnOk result (ReadsAtMost
        (view_reads (properties_at (graph_of (R.state space.old).records) (targets.Node id)))
        (R.state space.old) (R.state space.new)) }
    ensures at_most { ReadsAtMost 737 (R.state space.old) (R.state space.new) }
    ensures damaged { R.tells → IfErr result
        (BlamesBroken (R.state space.old).records (R.state space.old).shape) }
    ensures read { IsRead R.Reads space.old space.new }
    ensures cause { HasFaultCause (R.faults space.old) (R.faults space.new) result }
{
    let row = vertex_row(space, id)?;
    if row.is_none() {
        return Ok(None);
    }
    let item = Item::Vertex(id);
    let map = loaded_map(alloc, space, names, &item, &row, &[])?;
    Ok(Some((item, map)))
}

fn view_edge<R: Reads>(
    alloc: Global,
    space: &mut R,
    names: &Names,
    id: u32,
) -> Result<Option<(Item, ElementMap)>, Fault>
    ensures found { R.tells
        → IsNamedStore (R.state space.old).records (R.state space.old).shape names.now.names
        → IfOk result (λ viewed. viewed
        ≡ view_of (graph_of (R.state space.old).records) (targets.Edge id)) }
    ensures kept { IfOk result (λ viewed. IfSome viewed (λ row. HasKept row.0 row.1.pairs)) }
    ensures cost { R.tells
        → IsNamedStore (R.state space.old).records (R.state space.old).shape names.now.names
        → OnOk result (ReadsAtMost
        (view_reads (properties_at (graph_of (R.state space.old).records) (targets.Edge id)))
        (R.state space.old) (R.state space.new)) }
    ensures at_most { ReadsAtMost 737 (R.state space.old) (R.state space.new) }
    ensures damaged { R.tells → IfErr result
        (BlamesBroken (R.state space.old).records (R.state space.old).shape) }
    ensures read { IsRead R.Reads space.old space.new }
    ensures cause { HasFaultCause (R.faults space.old) (R.faults space.new) result }
{
    let Some(row) = edge_row(space, id)? else {
        return Ok(None);
    };
    let item = typed_edge(alloc, names, &row)?;
    let props = read_owned(alloc, space, edge_owner(id, &row))?;
    let label = text_of(names, row.label);
    let map = map_of(alloc, space, names, Some(label), &[], props)?;
    Ok(Some((item.into_item(), map)))
}

/// The label of an item, and its properties of these keys, or of all where none is written. A key
/// that is written twice counts once.
pub fn read_map<R: Reads>(
    alloc: Global,
    space: &mut R,
    names: &Names,
    item: &Item,
    keys: &[Text],
) -> Result<ElementMap, Fault>
    ensures found { R.tells
        → IsNamedStore (R.state space.old).records (R.state space.old).shape names.now.names
        → IfOk result (λ map. map
        ≡ element_map (graph_of (R.state space.old).records) keys.now item.now) }
    // Where the item has a line, so it has with them.
    ensures kept { IsShown item.now → IfOk result (λ map. HasKept item.now map.pairs) }
    // One read of the element, and one for each property and each block of their texts.
    ensures cost { R.tells
        → IsNamedStore (R.state space.old).records (R.state space.old).shape names.now.names
        → OnOk result (ReadsAtMost
        (view_reads (properties_of (graph_of (R.state space.old).records) item.now))
        (R.state space.old) (R.state space.new)) }
    ensures at_most { ReadsAtMost 737 (R.state space.old) (R.state space.new) }
    // A record that is said to be damaged breaks the rule that is named, in whatever store.
    ensures damaged { R.tells → IfErr result
        (BlamesBroken (R.state space.old).records (R.state space.old).shape) }
    ensures read { IsRead R.Reads space.old space.new }
    ensures cause { HasFaultCause (R.faults space.old) (R.faults space.new) result }
{
    let Item::Vertex(id) = item else {
        return loaded_map(alloc, space, names, item, &None, keys);
    };
    let row = vertex_row(space, *id)?;
    if row.is_none() {
        return Ok(ElementMap {
            label: None,
            pairs: Pairs::new(Vec::new(alloc)),
        });
    }
    loaded_map(alloc, space, names, item, &row, keys)
}

/// The same of an item whose row is known, where it is a vertex.
fn loaded_map<R: Reads>(
    alloc: Global,
    space: &mut R,
    names: &Names,
    item: &Item,
    row: &Option<NodeRow>,
    keys: &[Text],
) -> Result<ElementMap, Fault>
    requires row { IsRowOf R.tells (R.state space.old).records item.now row.now }
    requires loaded { IsLoaded item.now row.now }
    ensures found { R.tells
        → IsNamedStore (R.state space.old).records (R.state space.old).shape names.now.names
        → IfOk result (λ map. map
        ≡ element_map (graph_of (R.state space.old).records) keys.now item.now) }
    ensures kept { IfOk result (λ map. All (λ (pair : PairRow). IsKept pair.value) map.pairs) }
    ensures cost { R.tells
        → IsNamedStore (R.state space.old).records (R.state space.old).shape names.now.names
        → OnOk result (ReadsAtMost (owner_reads row.now
        + property_reads (properties_of (graph_of (R.state space.old).records) item.now))
        (R.state space.old) (R.state space.new)) }
    ensures at_most { ReadsAtMost (owner_reads row.now + 736)
        (R.state space.old) (R.state space.new) }
    ensures damaged { R.tells → IfErr result
        (BlamesBroken (R.state space.old).records (R.state space.old).shape) }
    ensures read { IsRead R.Reads space.old space.new }
    ensures cause { HasFaultCause (R.faults space.old) (R.faults space.new) result }
{
    let label = label_of(space, names, item, row)?;
    let props = read_properties(alloc, space, names, item, row)?;
    let map = map_of(alloc, space, names, label, keys, props)?;
    Ok(map)
}

/// A label with these properties of these keys, or with all where none is written.
fn map_of<R: Reads>(
    alloc: Global,
    space: &R,
    names: &Names,
    label: Option<&[u8]>,
    keys: &[Text],
    props: Vec<Prop>,
) -> Result<ElementMap, AllocError>
    requires kept { All (λ (prop : PropRow). IsKept prop.value) props.items }
    ensures found { IsNamedStore (R.state space.now).records (R.state space.now).shape
        names.now.names → (properties : Properties)
        → AreRead (R.state space.now).records props.items properties
        → IfOk result (λ map.
        (map.label ≡ option_map (λ (text : Bor (List ℕ)). text.now) label.entry)
        × (map.pairs ≡ pairs_of properties keys.now)) }
    ensures kept { IfOk result (λ map. All (λ (pair : PairRow). IsKept pair.value) map.pairs) }
{
    let label = own_text(alloc, label)?;
    let keys = distinct_texts(alloc, keys)?;
    let rows = rows_of(alloc, space, names, &keys, props)?;
    let pairs = pairs_of(alloc, rows)?;
    Ok(ElementMap { label, pairs })
}

/// A text of its own, where there is one.
fn own_text(alloc: Global, text: Option<&[u8]>) -> Result<Option<Text>, AllocError>
    ensures { IfOk result (λ own.
        own ≡ option_map (λ (bytes : Bor (List ℕ)). bytes.now) text.entry) }
{
    match text {
        Some(bytes) => Ok(Some(Text::new(Vec::from_slice(alloc, bytes)?))),
        None => Ok(None),
    }
}
