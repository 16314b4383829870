ghost use Rattle.std.specs.Prelude.{◌≡◌, ◌++◌, [], ◌∷◌, ℕ, List, IfOk, cond};
ghost use Rattle.plain_graph.specs.Meaning.{unseen};
ghost use Rattle.plain_graph.specs.declared.item.Item.{Item};
ghost use Rattle.plain_graph.specs.declared.item.Item.TheVariants as items;
ghost use Rattle.traversal_run.specs.Seen.{IsInRange, code_of};

use crate::id_set::IdSet;
use crate::text_set::TextSet;
use plain_graph::{Item, Value};
use std::alloc::{AllocError, Global};
use std::marker::Model;

/// Items that were seen: elements by their identifiers, a value by a code of a few bytes, or of a
/// text's and one more. Contracts see the list of items, of an edge its identifier alone.
#[derive(Drop)]
pub(crate) struct Seen {
    vertices: IdSet,
    edges: IdSet,
    codes: TextSet,
}

impl Model for Seen {
    ghost use Rattle.std.specs.Prelude.{List};
    ghost use Rattle.plain_graph.specs.declared.item.Item.{Item};
    ghost use Rattle.traversal_run.specs.Seen.{AreCodes, seen_items};

    ghost Value = { List Item };

    ghost view = { λ s. seen_items s.vertices s.edges s.codes };

    ghost invariant = { λ s. AreCodes s.codes };
}

impl Seen {
    /// No items. It takes no memory.
    pub(crate) fn new(alloc: Global) -> Seen
        ensures { result ≡ [] }
    {
        Seen {
            vertices: IdSet::new(alloc),
            edges: IdSet::new(alloc),
            codes: TextSet::new(alloc),
        }
    }

    /// Adds an item, and tells whether none that was seen is the same.
    pub(crate) fn add(&mut self, alloc: Global, item: &Item) -> Result<bool, AllocError>
        ensures { IfOk result (λ is_new. (later : List Item)
            → unseen self.old (item.now ∷ later)
            ≡ cond is_new (item.now ∷ []) [] ++ unseen self.new later) }
    {
        match item {
            Item::Vertex(id) => self.add_vertex(*id),
            Item::Edge { id, .. } => self.add_edge(*id),
            Item::Value(value) => self.add_value(alloc, value),
        }
    }

    fn add_vertex(&mut self, id: u32) -> Result<bool, AllocError>
        ensures { IfOk result (λ is_new. (later : List Item)
            → unseen self.old (items.Vertex id ∷ later)
            ≡ cond is_new (items.Vertex id ∷ []) [] ++ unseen self.new later) }
    {
        let is_new = self.vertices.add(id)?;
        Ok(is_new)
    }

    /// Adds an edge, of whatever type and ends.
    fn add_edge(&mut self, id: u32) -> Result<bool, AllocError>
        ensures { (label : List ℕ) (from to : ℕ) → IfOk result (λ is_new. (later : List Item)
            → unseen self.old (items.Edge id label from to ∷ later)
            ≡ cond is_new (items.Edge id label from to ∷ []) [] ++ unseen self.new later) }
    {
        let is_new = self.edges.add(id)?;
        Ok(is_new)
    }

    fn add_value(&mut self, alloc: Global, value: &Value) -> Result<bool, AllocError>
        ensures { IfOk result (λ is_new. (later : List Item)
            → unseen self.old (items.Value value.now ∷ later)
            ≡ cond is_new (items.Value value.now ∷ []) [] ++ unseen self.new later) }
    {
        let code = code_of(alloc, value)?;
        let is_new = self.codes.add(code)?;
        Ok(is_new)
    }
}

/// The type of a value, and its content.
fn code_of(alloc: Global, value: &Value) -> Result<Vec<u8>, AllocError>
    ensures is { IfOk result (λ code. code.items ≡ code_of value.now) }
    ensures range { IsInRange value.now }
{
    match value {
        Value::Int(number) => with_kind(alloc, 0, &number.cast_unsigned().to_le_bytes()),
        Value::Bool(truth) => with_kind(alloc, 1, &[u8::from(*truth)]),
        Value::Text(text) => with_kind(alloc, 2, text.as_bytes()),
    }
}

/// These bytes with the kind before them.
fn with_kind(alloc: Global, kind: u8, bytes: &[u8]) -> Result<Vec<u8>, AllocError>
    ensures { IfOk result (λ code. code.items ≡ kind ∷ bytes.now) }
{
    let mut code = Vec::new(alloc);
    code.push(kind)?;
    code.extend_from_slice(bytes)?;
    Ok(code)
}
