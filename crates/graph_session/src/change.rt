use plain_graph::{Mutation, Pairs, Query, Target, Text, Value};

/// A change of the graph, as a command asks for it.
#[derive(Clone, Copy)]
pub(crate) enum Change<'a> {
    /// A new node.
    Node {
        label: &'a Text,
        pairs: &'a Pairs,
    },
    /// A new edge.
    Edge {
        from: u32,
        label: &'a Text,
        to: u32,
        pairs: &'a Pairs,
    },
    /// A value for a key of an element.
    Set {
        target: Target,
        key: &'a Text,
        value: &'a Value,
    },
    /// No value for it.
    Unset {
        target: Target,
        key: &'a Text,
    },
    /// The graph without an element.
    Delete(Target),
    /// An index.
    Index {
        label: &'a Text,
        key: &'a Text,
    },
    /// The changes of a mutating query.
    Mutate {
        reading: &'a Option<Query>,
        mutation: &'a Mutation,
    },
}
