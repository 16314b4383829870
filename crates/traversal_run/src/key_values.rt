ghost use Rattle.std.specs.Prelude.{◌≡◌, ◌<◌, ◌+◌, All, IfErr, IfOk, IfSome, OnOk};
ghost use Rattle.std.specs.Prelude.{find, length, map, nat_eq, nat_lt};
ghost use Rattle.std.specs.FinMap as maps;
ghost use Rattle.std.specs.List.{filter_map, list_all};
ghost use Rattle.std.specs.Option.{option_map};
ghost use Rattle.plain_graph.specs.ElementMaps.{pair_of};
ghost use Rattle.plain_graph.specs.Forms.{IsKept};
ghost use Rattle.plain_graph.specs.Meaning.{properties_of};
ghost use Rattle.plain_graph.specs.Properties.{Properties};
ghost use Rattle.plain_graph.specs.Sorting.{sorted};
ghost use Rattle.plain_graph.specs.declared.item.Item.{Item as AnItem};
ghost use Rattle.plain_graph.specs.declared.pairs.Pair.{Pair as PairRow};
ghost use Rattle.prop_store.specs.Fault.{BlamesBroken};
ghost use Rattle.prop_store.specs.Owner.{IsOwner};
ghost use Rattle.prop_store.specs.Reading.{ReadsAtMost, block_total};
ghost use Rattle.prop_store.specs.declared.prop.Prop.{Prop as PropRow};
ghost use Rattle.rec_bytes.specs.Fault.{HasFaultCause};
ghost use Rattle.rec_bytes.specs.declared.shape.Shape.{Shape};
ghost use Rattle.store_rules.specs.Graph.{graph_of};
ghost use Rattle.store_rules.specs.Rules.{IsWellFormed};
ghost use Rattle.store_rules.specs.Views.{Records};
ghost use Rattle.traversal_run.specs.Elements.{IsRowOf, Owns, owner_reads};
ghost use Rattle.traversal_run.specs.KeyValues.{AreRead, entries_of, entry_at, entry_below};
ghost use Rattle.traversal_run.specs.KeyValues.{entry_item, entry_of, named_entry, row_below};
ghost use Rattle.traversal_run.specs.Mapping.{distinct_values};
ghost use Rattle.traversal_run.specs.Naming.{name_count};
ghost use Rattle.traversal_run.specs.Reading.{IsNamedStore, IsRead};
ghost use Rattle.traversal_run.specs.Owing.{values_reads};

use crate::elements::{Owned, owner_of};
use crate::kept_value::KeptValue;
use crate::naming::{name_mark, number_of, text_of, unnamed};
use crate::sought::Guess;
use crate::waiting::Waiting;
use name_store::Names;
use node_store::NodeRow;
use plain_graph::{Item, Pair, Pairs, Text, Value};
use prop_store::{Prop, read_all_from};
use rec_bytes::{Fault, Reads};
use std::alloc::{AllocError, Global};

/// A value with the text of its key.
#[derive(Drop)]
pub(crate) struct Named<'a> {
    pub(crate) key: &'a [u8],
    pub(crate) value: KeptValue,
}

/// The values of these keys of an item, each of which is written once, in their order; of all keys,
/// by ascending text, where none is written.
pub(crate) fn several_values<R: Reads>(
    alloc: Global,
    space: &mut R,
    names: &Names,
    keys: &[Text],
    item: &Item,
    row: &Option<NodeRow>,
) -> Result<Waiting, Fault>
    requires row { IsRowOf R.tells (R.state space.old).records item.now row.now }
    ensures found { R.tells
        → IsNamedStore (R.state space.old).records (R.state space.old).shape names.now.names
        → IfOk result (λ values. values
        ≡ distinct_values (graph_of (R.state space.old).records) keys.now item.now) }
    ensures damaged { R.tells → IfErr result
        (BlamesBroken (R.state space.old).records (R.state space.old).shape) }
    ensures at_most { ReadsAtMost values_reads (R.state space.old) (R.state space.new) }
    ensures read { IsRead R.Reads space.old space.new }
    ensures cause { HasFaultCause (R.faults space.old) (R.faults space.new) result }
{
    let props = read_properties(alloc, space, names, item, row)?;
    let rows = rows_of(alloc, space, names, keys, props)?;
    let values = values_of(alloc, rows)?;
    Ok(values)
}

/// The properties of an item, in the order of their chain; none where it has no owner of them.
pub(crate) fn read_properties<R: Reads>(
    alloc: Global,
    space: &mut R,
    names: &Names,
    item: &Item,
    row: &Option<NodeRow>,
) -> Result<Vec<Prop>, Fault>
    requires row { IsRowOf R.tells (R.state space.old).records item.now row.now }
    ensures found { R.tells
        → IsNamedStore (R.state space.old).records (R.state space.old).shape names.now.names
        → IfOk result (λ props. AreRead (R.state space.old).records props.items
        (properties_of (graph_of (R.state space.old).records) item.now)) }
    ensures damaged { R.tells → IfErr result
        (BlamesBroken (R.state space.old).records (R.state space.old).shape) }
    ensures kept { IfOk result (λ props. All (λ (prop : PropRow). IsKept prop.value) props.items) }
    ensures reads { IfOk result (λ props. ReadsAtMost
        (owner_reads row.now + length props.items + block_total props.items)
        (R.state space.old) (R.state space.new)) }
    ensures at_most { ReadsAtMost (owner_reads row.now + 736)
        (R.state space.old) (R.state space.new) }
    ensures read { IsRead R.Reads space.old space.new }
    ensures cause { HasFaultCause (R.faults space.old) (R.faults space.new) result }
{
    let Some(owned) = owner_of(space, item, row)? else {
        return Ok(Vec::new(alloc));
    };
    let props = read_owned(alloc, space, owned)?;
    Ok(props)
}

/// The properties of an owner, in the order of their chain. It costs no read of the owner.
pub(crate) fn read_owned<R: Reads>(
    alloc: Global,
    space: &mut R,
    owned: Owned,
) -> Result<Vec<Prop>, Fault>
    requires owner { IsOwner owned.owner }
    requires owns { R.tells → (item : AnItem) × Owns (R.state space.old) item owned }
    ensures found { R.tells → IsWellFormed (R.state space.old).records (R.state space.old).shape
        → IfOk result (λ props. (item : AnItem) → Owns (R.state space.old) item owned
        → AreRead (R.state space.old).records props.items
        (properties_of (graph_of (R.state space.old).records) item)) }
    ensures damaged { R.tells → IfErr result
        (BlamesBroken (R.state space.old).records (R.state space.old).shape) }
    ensures kept { IfOk result (λ props. All (λ (prop : PropRow). IsKept prop.value) props.items) }
    ensures reads { IfOk result (λ props. ReadsAtMost
        (length props.items + block_total props.items) (R.state space.old) (R.state space.new)) }
    ensures at_most { ReadsAtMost 736 (R.state space.old) (R.state space.new) }
    ensures read { IsRead R.Reads space.old space.new }
    ensures cause { HasFaultCause (R.faults space.old) (R.faults space.new) result }
{
    let mark = name_mark(space);
    let props = read_all_from(alloc, space, owned.owner, owned.first)?;
    if !have_keys_below(mark, &props) {
        return Err(unnamed(owned.owner.key.file, owned.owner.key.id));
    }
    Ok(props)
}

/// Whether each of their keys is below this mark.
fn have_keys_below(mark: u32, props: &[Prop]) -> bool
    ensures { result ≡ list_all (λ (prop : PropRow). nat_lt prop.key mark) props.now }
{
    props.iter().all(|prop| prop.key < mark)
}

/// These properties with the texts of their keys: those of these keys, in their order, or where
/// none is written all, by ascending text.
pub(crate) fn rows_of<'a, R: Reads>(
    alloc: Global,
    space: &R,
    names: &'a Names,
    keys: &'a [Text],
    props: Vec<Prop>,
) -> Result<Vec<Named<'a>>, AllocError>
    requires kept { All (λ (prop : PropRow). IsKept prop.value) props.items }
    ensures { IsNamedStore (R.state space.now).records (R.state space.now).shape names.now.names
        → (properties : Properties)
        → AreRead (R.state space.now).records props.items properties
        → IfOk result (λ rows. map entry_of rows.items ≡ entries_of properties keys.now) }
{
    if keys.is_empty() {
        return ordered_rows(alloc, names, props);
    }
    rows_among(alloc, space, names, keys, &props)
}

/// All of these properties, by ascending text of their keys.
fn ordered_rows<'a>(
    alloc: Global,
    names: &'a Names,
    props: Vec<Prop>,
) -> Result<Vec<Named<'a>>, AllocError>
    requires { All (λ (prop : PropRow). IsKept prop.value) props.items }
    ensures { (records : Records) (shape : Shape)
        → IsNamedStore records shape names.now.names
        → All (λ (prop : PropRow). prop.key < name_count records) props.items
        → IfOk result (λ rows. map entry_of rows.items
        ≡ sorted entry_below (map (named_entry records) props.items)) }
{
    let mut rows = named_rows(alloc, names, props)?;
    sort(&mut rows)?;
    Ok(rows)
}

/// The values with the texts of their keys.
fn named_rows<'a>(
    alloc: Global,
    names: &'a Names,
    props: Vec<Prop>,
) -> Result<Vec<Named<'a>>, AllocError>
    requires { All (λ (prop : PropRow). IsKept prop.value) props.items }
    ensures { (records : Records) (shape : Shape) → IsNamedStore records shape names.now.names
        → All (λ (prop : PropRow). prop.key < name_count records) props.items
        → IfOk result (λ rows. map entry_of rows.items ≡ map (named_entry records) props.items) }
{
    let mut rows = Vec::new(alloc);
    for prop in props {
        let key = text_of(names, prop.key);
        let value = KeptValue::new(prop.value);
        rows.push(Named { key, value })?;
    }
    Ok(rows)
}

/// Puts them in the order of their keys.
fn sort(rows: &mut Vec<Named<'_>>) -> Result<(), AllocError>
    ensures { OnOk result (rows.new.items ≡ sorted row_below rows.old.items) }
{
    rows.sort_by(|a, b| a.key.cmp(b.key))?;
    Ok(())
}

/// The values without their keys.
fn values_of(alloc: Global, rows: Vec<Named<'_>>) -> Result<Waiting, AllocError>
    ensures { IfOk result (λ values. values ≡ map entry_item (map entry_of rows.entry.items)) }
{
    let mut values = Waiting::new(alloc);
    for row in rows {
        values.push(row.value.into_shown())?;
    }
    Ok(values)
}

/// The rows as pairs of their own.
pub(crate) fn pairs_of(alloc: Global, rows: Vec<Named<'_>>) -> Result<Pairs, AllocError>
    ensures are { IfOk result (λ pairs. pairs ≡ map pair_of (map entry_of rows.entry.items)) }
    ensures kept { IfOk result (λ pairs. All (λ (pair : PairRow). IsKept pair.value) pairs) }
{
    let mut pairs = Vec::new(alloc);
    for row in rows {
        let key = Text::new(Vec::from_slice(alloc, row.key)?);
        let value = row.value.into_value();
        pairs.push(Pair { key, value })?;
    }
    Ok(Pairs::new(pairs))
}

/// The rows of these keys among these properties, in the order of the keys.
fn rows_among<'a, R: Reads>(
    alloc: Global,
    space: &R,
    names: &Names,
    keys: &'a [Text],
    props: &[Prop],
) -> Result<Vec<Named<'a>>, AllocError>
    requires kept { All (λ (prop : PropRow). IsKept prop.value) props.now }
    ensures { IsNamedStore (R.state space.now).records (R.state space.now).shape names.now.names
        → (properties : Properties)
        → AreRead (R.state space.now).records props.now properties
        → IfOk result (λ rows. map entry_of rows.items
        ≡ filter_map (entry_at properties) keys.now) }
{
    let mut rows = Vec::new(alloc);
    for key in keys {
        if let Some(value) = value_among(alloc, space, names, key.as_bytes(), props)? {
            let value = KeptValue::new(value);
            rows.push(Named {
                key: key.as_bytes(),
                value,
            })?;
        }
    }
    Ok(rows)
}

/// The value of a key among these properties.
fn value_among<R: Reads>(
    alloc: Global,
    space: &R,
    names: &Names,
    key: &[u8],
    props: &[Prop],
) -> Result<Option<Value>, AllocError>
    requires kept { All (λ (prop : PropRow). IsKept prop.value) props.now }
    ensures found { IsNamedStore (R.state space.now).records (R.state space.now).shape
        names.now.names
        → (properties : Properties)
        → AreRead (R.state space.now).records props.now properties
        → IfOk result (λ value. value ≡ maps.get properties key.now) }
    ensures kept { IfOk result (λ value. IfSome value IsKept) }
{
    let Some(number) = number_of(space, names, &Guess::new(), key) else {
        return Ok(None);
    };
    value_numbered(alloc, props, number)
}

/// The value of a key's number among these properties.
fn value_numbered(alloc: Global, props: &[Prop], number: u32) -> Result<Option<Value>, AllocError>
    requires kept { All (λ (prop : PropRow). IsKept prop.value) props.now }
    ensures found { IfOk result (λ value. value ≡ option_map (λ (prop : PropRow). prop.value)
        (find (λ (prop : PropRow). nat_eq prop.key number) props.now)) }
    ensures kept { IfOk result (λ value. IfSome value IsKept) }
{
    match props.iter().find(|prop| prop.key == number) {
        Some(prop) => {
            let value = prop.value.copy(alloc)?;
            Ok(Some(value))
        }
        None => Ok(None),
    }
}
