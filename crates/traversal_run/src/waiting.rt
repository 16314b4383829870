ghost use Rattle.std.specs.Prelude.{◌≡◌, ◌++◌, [], ◌∷◌, true, IfNone, IfOk, IfSome, OnOk, length};
ghost use Rattle.std.specs.Prelude.{map};
ghost use Rattle.std.specs.List.{cons_option};
ghost use Rattle.std.specs.VecDeque.{deque_items};
ghost use Rattle.plain_graph.specs.declared.item.Item.TheVariants as items;
ghost use Rattle.traversal_run.specs.Held.{elements_in};

use crate::shown::Shown;
use std::alloc::{AllocError, Global};
use std::collections::VecDeque;
use std::marker::Model;

/// Items that wait, the first one first: vertices by their identifiers, and then any items. A
/// single item is kept in place, with no memory of its own. Contracts see the list of items.
#[derive(Drop)]
pub(crate) struct Waiting {
    vertices: VecDeque<u32>,
    first: Option<Shown>,
    later: VecDeque<Shown>,
}

impl Model for Waiting {
    ghost use Rattle.std.specs.Prelude.{List, ◌++◌, map};
    ghost use Rattle.std.specs.List.{cons_option};
    ghost use Rattle.std.specs.VecDeque.{deque_items};
    ghost use Rattle.plain_graph.specs.declared.item.Item.{Item};
    ghost use Rattle.plain_graph.specs.declared.item.Item.TheVariants as items;

    ghost Value = { List Item };

    ghost view = { λ w. map items.Vertex (deque_items w.vertices)
        ++ cons_option w.first (deque_items w.later) };
}

impl Waiting {
    /// No items. It takes no memory.
    pub(crate) fn new(alloc: Global) -> Waiting
        ensures { result ≡ [] }
    {
        Waiting {
            vertices: VecDeque::new(alloc),
            first: None,
            later: VecDeque::new(alloc),
        }
    }

    /// No items, with room for so many, of which the first needs none.
    pub(crate) fn with_room(alloc: Global, count: usize) -> Result<Waiting, AllocError>
        ensures { IfOk result (λ waiting. waiting ≡ []) }
    {
        let later = VecDeque::with_capacity(alloc, count.saturating_sub(1))?;
        Ok(Waiting {
            vertices: VecDeque::new(alloc),
            first: None,
            later,
        })
    }

    /// The vertices of these identifiers. It takes no memory of its own.
    pub(crate) fn of_vertices(alloc: Global, ids: Vec<u32>) -> Waiting
        ensures { result ≡ map items.Vertex ids.items }
    {
        Waiting {
            vertices: VecDeque::from(ids),
            first: None,
            later: VecDeque::new(alloc),
        }
    }

    /// This one item. It takes no memory.
    pub(crate) fn one(alloc: Global, item: Shown) -> Waiting
        ensures { result ≡ item ∷ [] }
    {
        Waiting {
            vertices: VecDeque::new(alloc),
            first: Some(item),
            later: VecDeque::new(alloc),
        }
    }

    /// Takes the first.
    pub(crate) fn take_first(&mut self) -> Option<Shown>
        ensures some { IfSome result (λ item. self.old ≡ item ∷ self.new) }
        ensures none { IfNone result ((self.old ≡ []) × (self.new ≡ [])) }
    {
        if let Some(id) = self.vertices.pop_front() {
            return Some(Shown::vertex(id));
        }
        match self.first.take() {
            Some(item) => Some(item),
            None => self.later.pop_front(),
        }
    }

    /// Puts one after the others.
    pub(crate) fn push(&mut self, item: Shown) -> Result<(), AllocError>
        ensures { OnOk result (self.new ≡ self.old ++ item ∷ []) }
    {
        if self.is_empty() {
            self.first = Some(item);
        } else {
            self.later.push_back(item)?;
        }
        Ok(())
    }

    /// How many they are.
    pub(crate) fn len(&self) -> usize
        ensures { result ≡ length self.now }
    {
        self.vertices.len() + usize::from(self.first.is_some()) + self.later.len()
    }

    /// How many of them are vertices or edges.
    pub(crate) fn elements(&self) -> usize
        ensures { result ≡ elements_in self.now }
    {
        self.vertices.len() + elements_of(&self.first, &self.later)
    }

    /// Whether no item waits.
    pub(crate) fn is_empty(&self) -> bool
        ensures yes { result ≡ true → self.now ≡ [] }
        ensures no { self.now ≡ [] → result ≡ true }
    {
        self.len() == 0
    }
}

// How many of an item and those behind it are vertices or edges.
fn elements_of(first: &Option<Shown>, later: &VecDeque<Shown>) -> usize
    ensures { result ≡ elements_in (cons_option first.now (deque_items later.now)) }
{
    let behind = later.iter().filter(|item| item.is_element()).count();
    match first {
        Some(item) => behind + usize::from(item.is_element()),
        None => behind,
    }
}
