use crate::{Pairs, Text};

/// What a query makes of the graph with its last steps.
#[derive(Drop)]
pub enum Mutation {
    /// A new node: `addV`.
    AddV { label: Text, pairs: Pairs },
    /// A new edge from each of the vertices to this node: `addE`.
    AddE { label: Text, to: u32, pairs: Pairs },
    /// These values for each of the elements: `property`.
    Property(Pairs),
    /// The graph without the elements: `drop`.
    Drop,
}
