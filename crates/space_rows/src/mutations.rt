ghost use Rattle.std.specs.Prelude.{IfOk};
ghost use Rattle.plain_graph.specs.Forms.{ArePairs, HasMutationForm};
ghost use Rattle.plain_graph.specs.Names.{IsShortName};

use crate::call::Call;
use crate::error::RowError;
use crate::names::name_in;
use crate::properties::value_in;
use crate::spelling::spell_fault;
use graph_ops::mutate;
use name_store::Names;
use plain_graph::{Item, Mutation, Pair, Pairs, Text};
use rec_bytes::MapSpace;
use std::alloc::Global;

/// The calls of `mutate`, each with a mutating step as its verb. How many elements are shown is
/// answered, and the weight.
pub(crate) fn answer(
    alloc: Global,
    space: &mut MapSpace,
    names: &mut Names,
    call: &Call,
) -> Result<String, RowError> {
    let mutation = mutation_in(alloc, call)?;
    let items = items_in(alloc, call)?;
    match mutate(alloc, space, names, items, &mutation) {
        Ok(made) => Ok(format!(in alloc;
            "Ok: {} shown, weight {}",
            made.items.len(),
            made.weight
        )?),
        Err(fault) => spell_fault(alloc, &fault),
    }
}

/// The step of a call: its name is the label, and the key of its value where it has one.
fn mutation_in(alloc: Global, call: &Call) -> Result<Mutation, RowError>
    ensures { IfOk result HasMutationForm }
{
    match (call.verb, call.count()) {
        (b"addV", 0) => Ok(Mutation::AddV {
            label: text_in(alloc, call)?,
            pairs: pairs_in(alloc, call)?,
        }),
        (b"addE", 4) => Ok(Mutation::AddE {
            label: text_in(alloc, call)?,
            to: call.at(3),
            pairs: pairs_in(alloc, call)?,
        }),
        (b"property", 3) => Ok(Mutation::Property(pairs_in(alloc, call)?)),
        (b"drop", 3) => Ok(Mutation::Drop),
        _ => Err(RowError::Malformed),
    }
}

fn text_in(alloc: Global, call: &Call) -> Result<Text, RowError>
    ensures { IfOk result IsShortName }
{
    Ok(Text::new(Vec::from_slice(alloc, name_in(call)?)?))
}

/// The value of a call under its name, or nothing where it has none.
fn pairs_in(alloc: Global, call: &Call) -> Result<Pairs, RowError>
    ensures { IfOk result ArePairs }
{
    if call.value.is_empty() {
        return Ok(Pairs::new(Vec::new(alloc)));
    }
    let key = text_in(alloc, call)?;
    let value = value_in(alloc, call)?;
    Ok(Pairs::new(vec![in alloc; Pair { key, value }]?))
}

/// The results on which a step works: so many nodes from this one on, or this edge so many times.
fn items_in(alloc: Global, call: &Call) -> Result<Vec<Item>, RowError> {
    let mut items = Vec::new(alloc);
    for place in 0..call.at(2) {
        items.push(item_in(alloc, call, place))?;
    }
    Ok(items)
}

fn item_in(alloc: Global, call: &Call, place: u32) -> Item {
    if call.at(0) == 1 {
        return Item::Vertex(call.at(1).saturating_add(place));
    }
    Item::Edge {
        id: call.at(1),
        label: Text::new(Vec::new(alloc)),
        from: 0,
        to: 0,
    }
}
