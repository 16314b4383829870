//! The elements of a list, each once.

ghost use Rattle.std.specs.Prelude.{◌≡◌, ◌||◌, [], not, IfOk, OnOk};
ghost use Rattle.plain_graph.specs.declared.command.Target.{Target};
ghost use Rattle.graph_ops.specs.Distinct.{Agree, is_met, with_item, with_target};
ghost use Rattle.plain_graph.specs.Mutations.{elements_of, is_target, target_of, targets_once};

use indexmap::IndexSet;
use plain_graph::{Item, Target};
use std::alloc::{AllocError, Global};

/// The different elements of a list, where each first stands. A value is none.
pub(crate) fn distinct_elements(alloc: Global, items: &[Item]) -> Result<Vec<Target>, AllocError>
    ensures { IfOk result (λ distinct. distinct.items
        ≡ targets_once [] (elements_of items.now)) }
{
    let mut nodes = IndexSet::new(alloc);
    let mut edges = IndexSet::new(alloc);
    let mut distinct = Vec::new(alloc);
    for item in items {
        add_item(&mut nodes, &mut edges, &mut distinct, item)?;
    }
    Ok(distinct)
}

/// Adds the element of an item where it wasn't met.
fn add_item(
    nodes: &mut IndexSet<u32>,
    edges: &mut IndexSet<u32>,
    distinct: &mut Vec<Target>,
    item: &Item,
) -> Result<(), AllocError>
    requires { Agree nodes.old.keys edges.old.keys distinct.old.items }
    ensures agree { OnOk result (Agree nodes.new.keys edges.new.keys distinct.new.items) }
    ensures added { OnOk result (distinct.new.items
        ≡ with_item distinct.old.items (target_of item.now)) }
{
    match item {
        Item::Vertex(id) => add_target(nodes, edges, distinct, Target::Node(*id)),
        Item::Edge { id, .. } => add_target(nodes, edges, distinct, Target::Edge(*id)),
        Item::Value(_) => Ok(()),
    }
}

/// Adds an element where it wasn't met.
fn add_target(
    nodes: &mut IndexSet<u32>,
    edges: &mut IndexSet<u32>,
    distinct: &mut Vec<Target>,
    target: Target,
) -> Result<(), AllocError>
    requires { Agree nodes.old.keys edges.old.keys distinct.old.items }
    ensures agree { OnOk result (Agree nodes.new.keys edges.new.keys distinct.new.items) }
    ensures added { OnOk result (distinct.new.items ≡ with_target distinct.old.items target) }
{
    if meet(nodes, edges, target)? {
        distinct.push(target)?;
    }
    Ok(())
}

/// Meets an element, and tells whether it wasn't met before.
fn meet(
    nodes: &mut IndexSet<u32>,
    edges: &mut IndexSet<u32>,
    target: Target,
) -> Result<bool, AllocError>
    ensures is_new { IfOk result (λ is_new. is_new
        ≡ not (is_met nodes.old.keys edges.old.keys target)) }
    ensures met { OnOk result ((other : Target) → is_met nodes.new.keys edges.new.keys other
        ≡ is_met nodes.old.keys edges.old.keys other || is_target other target) }
{
    match target {
        Target::Node(id) => {
            let (_, is_new) = nodes.insert_full(id)?;
            Ok(is_new)
        }
        Target::Edge(id) => {
            let (_, is_new) = edges.insert_full(id)?;
            Ok(is_new)
        }
    }
}
