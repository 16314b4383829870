use crate::{Direction, Mutation, Pairs, Query, Text, Value};

/// An element of the graph that a line names.
#[derive(Clone, Copy)]
pub enum Target {
    /// The node of this identifier.
    Node(u32),
    /// The edge of this identifier.
    Edge(u32),
}

/// What a line of the console asks for.
#[derive(Drop)]
pub enum Command {
    /// Nothing: a line of blanks.
    Blank,
    /// A transaction, which later lines change the graph in.
    Begin,
    /// The open transaction's changes, for good.
    Commit,
    /// The graph without the open transaction's changes.
    Rollback,
    /// All records in their files, and an empty log.
    Checkpoint,
    /// Whether the store keeps all its rules.
    Check,
    /// How many there are of each part of the graph.
    Stats,
    /// The store anew, as the disk holds it.
    Reopen,
    /// The graph that is committed, for the session's later lines.
    Snapshot,
    /// No snapshot any more.
    Release,
    /// The end of the run.
    Quit,
    /// A new node with this label and these properties.
    Node {
        label: Text,
        pairs: Pairs,
    },
    /// A new edge of this type, from one node to another, with these properties.
    Edge {
        from: u32,
        label: Text,
        to: u32,
        pairs: Pairs,
    },
    /// This value for a key of an element.
    Set {
        target: Target,
        key: Text,
        value: Value,
    },
    /// No value for a key of an element.
    Unset {
        target: Target,
        key: Text,
    },
    /// The graph without this element.
    Delete(Target),
    /// An index of the nodes of a label by a key.
    Index {
        label: Text,
        key: Text,
    },
    /// The nodes of a label whose key has a value, by its index.
    Find {
        label: Text,
        key: Text,
        value: Value,
    },
    /// The edges of a type at a node, in a direction.
    Expand {
        id: u32,
        direction: Direction,
        label: Text,
    },
    /// How many edges a node has in a direction, of a type or of all types.
    Degree {
        id: u32,
        direction: Direction,
        label: Option<Text>,
    },
    /// A shortest walk from one node to another, by edges of a direction, and of a type or of all.
    Path {
        from: u32,
        to: u32,
        direction: Direction,
        label: Option<Text>,
    },
    /// The levels of nodes that prove that no walk is shorter.
    Levels {
        from: u32,
        to: u32,
        direction: Direction,
        label: Option<Text>,
    },
    /// An element, as the line that makes it again.
    View(Target),
    /// The names of the graph.
    ViewNames,
    /// The indexes of the graph.
    ViewIndexes,
    /// The results of a query.
    Query(Query),
    /// Changes of what a query gives, one after the other; of none for a new node.
    Mutate {
        reading: Option<Query>,
        mutation: Mutation,
    },
}
