ghost use Rattle.std.specs.Prelude.{◌≡◌, ℕ, [], ◌∷◌, IfErr, IfOk, List};
ghost use Rattle.std.specs.Borrow.{Bor};
ghost use Rattle.std.specs.Option.{option_map};
ghost use Rattle.std.specs.List.{list_any};
ghost use Rattle.plain_graph.specs.Meaning.{label_value, own_rank, passes};
ghost use Rattle.plain_graph.specs.Values.{is_text};
ghost use Rattle.store_rules.specs.Graph.{graph_of};
ghost use Rattle.rec_bytes.specs.Fault.{HasFaultCause};
ghost use Rattle.prop_store.specs.Fault.{BlamesBroken};
ghost use Rattle.traversal_run.specs.Elements.{IsRowOf};
ghost use Rattle.traversal_run.specs.Lookups.{passes_label, passes_value, asked_key};
ghost use Rattle.traversal_run.specs.Mapping.{distinct_values};
ghost use Rattle.traversal_run.specs.Reading.{IsNamedStore, IsRead};
ghost use Rattle.traversal_run.specs.Stage.{rank_in};
ghost use Rattle.traversal_run.specs.Owing.{filter_reads, key_reads, keys_reads, rank_reads};
ghost use Rattle.prop_store.specs.Reading.{ReadsAtMost};

use crate::comparing::{is_related, is_text};
use crate::elements::{label_of, value_of};
use crate::key_values::several_values;
use crate::shown::Shown;
use crate::sought::{Sought, SoughtName};
use crate::waiting::Waiting;
use name_store::Names;
use node_store::NodeRow;
use plain_graph::{Filter, Item, Text, Texts, Value};
use rec_bytes::{Fault, Reads};
use std::alloc::{AllocError, Global};

/// Whether an item passes a filter.
pub(crate) fn passes<R: Reads>(
    alloc: Global,
    space: &mut R,
    names: &Names,
    filter: &Sought<Filter>,
    item: &Item,
    row: &Option<NodeRow>,
) -> Result<bool, Fault>
    requires row { IsRowOf R.tells (R.state space.old).records item.now row.now }
    ensures found { R.tells
        → IsNamedStore (R.state space.old).records (R.state space.old).shape names.now.names
        → IfOk result (λ value. value
        ≡ passes (graph_of (R.state space.old).records) filter.now item.now) }
    ensures damaged { R.tells → IfErr result
        (BlamesBroken (R.state space.old).records (R.state space.old).shape) }
    ensures at_most { ReadsAtMost (filter_reads filter.now)
        (R.state space.old) (R.state space.new) }
    ensures read { IsRead R.Reads space.old space.new }
    ensures cause { HasFaultCause (R.faults space.old) (R.faults space.new) result }
{
    let Some(key) = asked_key(&filter.what) else {
        let label = label_of(space, names, item, row)?;
        return Ok(passes_label(&filter.what, label));
    };
    let name = SoughtName {
        text: key.as_bytes(),
        guess: &filter.guess,
    };
    let value = value_of(alloc, space, names, &name, item, row)?;
    Ok(passes_value(&filter.what, &value))
}

/// The key whose value decides whether an item passes a filter, unless its label does.
fn asked_key(filter: &Filter) -> Option<&Text>
    ensures { option_map (λ (key : Bor (List ℕ)). key.now) result ≡ asked_key filter.now }
{
    match filter {
        Filter::Has(key) => Some(key),
        Filter::HasValue { key, .. } => Some(key),
        Filter::HasLabel(_) => None,
    }
}

/// Whether an item with this value of the key passes a filter.
pub(crate) fn passes_value(filter: &Filter, value: &Option<Value>) -> bool
    ensures { result ≡ passes_value filter.now value.now }
{
    match filter {
        Filter::Has(_) => value.is_some(),
        Filter::HasValue {
            relation,
            value: written,
            ..
        } => match value {
            Some(own) => is_related(*relation, own, written),
            None => false,
        },
        Filter::HasLabel(_) => false,
    }
}

/// Whether an item with this label passes a filter.
fn passes_label(filter: &Filter, label: Option<&[u8]>) -> bool
    ensures { result ≡ passes_label filter.now
        (option_map (λ (text : Bor (List ℕ)). text.now) label.entry) }
{
    match filter {
        Filter::HasLabel(labels) => match label {
            Some(label) => is_among(label, labels.as_slice()),
            None => false,
        },
        Filter::Has(_) => false,
        Filter::HasValue { .. } => false,
    }
}

/// Whether a label is one of these.
fn is_among(label: &[u8], labels: &[Text]) -> bool
    ensures { result ≡ list_any (λ other. is_text other label.now) labels.now }
{
    labels.iter().any(|other| is_text(other.as_bytes(), label))
}

/// The values of these keys of an item, or of all where none is written.
pub(crate) fn distinct_values<R: Reads>(
    alloc: Global,
    space: &mut R,
    names: &Names,
    keys: &Sought<Texts>,
    item: &Item,
    row: &Option<NodeRow>,
) -> Result<Waiting, Fault>
    requires row { IsRowOf R.tells (R.state space.old).records item.now row.now }
    ensures found { R.tells
        → IsNamedStore (R.state space.old).records (R.state space.old).shape names.now.names
        → IfOk result (λ value. value
        ≡ distinct_values (graph_of (R.state space.old).records) keys.now item.now) }
    ensures damaged { R.tells → IfErr result
        (BlamesBroken (R.state space.old).records (R.state space.old).shape) }
    ensures at_most { ReadsAtMost (keys_reads keys.now) (R.state space.old) (R.state space.new) }
    ensures read { IsRead R.Reads space.old space.new }
    ensures cause { HasFaultCause (R.faults space.old) (R.faults space.new) result }
{
    match keys.what.as_slice() {
        [key] => {
            let name = SoughtName {
                text: key.as_bytes(),
                guess: &keys.guess,
            };
            one_value(alloc, space, names, &name, item, row)
        }
        several => several_values(alloc, space, names, several, item, row),
    }
}

/// The value of one key of an item, where it has it. Only this one is read.
fn one_value<R: Reads>(
    alloc: Global,
    space: &mut R,
    names: &Names,
    key: &SoughtName,
    item: &Item,
    row: &Option<NodeRow>,
) -> Result<Waiting, Fault>
    requires row { IsRowOf R.tells (R.state space.old).records item.now row.now }
    ensures found { R.tells
        → IsNamedStore (R.state space.old).records (R.state space.old).shape names.now.names
        → IfOk result (λ value. value
        ≡ distinct_values (graph_of (R.state space.old).records) (key.now.text.now ∷ []) item.now) }
    ensures damaged { R.tells → IfErr result
        (BlamesBroken (R.state space.old).records (R.state space.old).shape) }
    ensures at_most { ReadsAtMost key_reads (R.state space.old) (R.state space.new) }
    ensures read { IsRead R.Reads space.old space.new }
    ensures cause { HasFaultCause (R.faults space.old) (R.faults space.new) result }
{
    match value_of(alloc, space, names, key, item, row)? {
        Some(value) => { Ok(Waiting::one(alloc, Shown::value(value))) }
        None => Ok(Waiting::new(alloc)),
    }
}

/// The label of an item, where it has one.
pub(crate) fn label_value<R: Reads>(
    alloc: Global,
    space: &mut R,
    names: &Names,
    item: &Shown,
    row: &Option<NodeRow>,
) -> Result<Waiting, Fault>
    requires row { IsRowOf R.tells (R.state space.old).records item.now row.now }
    ensures found { R.tells
        → IsNamedStore (R.state space.old).records (R.state space.old).shape names.now.names
        → IfOk result (λ outs. outs
        ≡ label_value (graph_of (R.state space.old).records) item.now) }
    ensures damaged { R.tells → IfErr result
        (BlamesBroken (R.state space.old).records (R.state space.old).shape) }
    ensures at_most { ReadsAtMost 1 (R.state space.old) (R.state space.new) }
    ensures read { IsRead R.Reads space.old space.new }
    ensures cause { HasFaultCause (R.faults space.old) (R.faults space.new) result }
{
    let Some(label) = label_of(space, names, item.as_item(), row)? else {
        return Ok(Waiting::new(alloc));
    };
    let bytes = Vec::from_slice(alloc, label)?;
    let label = Shown::value(Value::Text(Text::new(bytes)));
    Ok(Waiting::one(alloc, label))
}

/// What gives an item its place in an order.
pub(crate) fn rank<R: Reads>(
    alloc: Global,
    space: &mut R,
    names: &Names,
    key: &Sought<Option<Text>>,
    item: &Item,
    row: &Option<NodeRow>,
) -> Result<Option<Value>, Fault>
    requires row { IsRowOf R.tells (R.state space.old).records item.now row.now }
    ensures found { R.tells
        → IsNamedStore (R.state space.old).records (R.state space.old).shape names.now.names
        → IfOk result (λ value. value
        ≡ rank_in (graph_of (R.state space.old).records) key.now item.now) }
    ensures damaged { R.tells → IfErr result
        (BlamesBroken (R.state space.old).records (R.state space.old).shape) }
    ensures at_most { ReadsAtMost (rank_reads key.now) (R.state space.old) (R.state space.new) }
    ensures read { IsRead R.Reads space.old space.new }
    ensures cause { HasFaultCause (R.faults space.old) (R.faults space.new) result }
{
    match &key.what {
        Some(text) => {
            let name = SoughtName {
                text: text.as_bytes(),
                guess: &key.guess,
            };
            value_of(alloc, space, names, &name, item, row)
        }
        None => {
            let rank = own_rank(alloc, item)?;
            Ok(Some(rank))
        }
    }
}

/// The identifier of an element, or the value itself.
fn own_rank(alloc: Global, item: &Item) -> Result<Value, AllocError>
    ensures { IfOk result (λ rank. rank ≡ own_rank item.now) }
{
    match item {
        Item::Vertex(id) => Ok(Value::Int(i64::from(*id))),
        Item::Edge { id, .. } => Ok(Value::Int(i64::from(*id))),
        Item::Value(value) => value.copy(alloc),
    }
}
