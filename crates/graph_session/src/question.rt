use plain_graph::{Direction, Query, Target, Text, Value};

/// What is read of the graph, as a command asks for it.
#[derive(Clone, Copy)]
pub(crate) enum Question<'a> {
    /// Whether the store keeps all its rules.
    Check,
    /// How many there are of each part of the graph.
    Stats,
    /// The nodes of a label whose key has a value, by its index.
    Find {
        label: &'a Text,
        key: &'a Text,
        value: &'a Value,
    },
    /// The edges of a type at a node.
    Expand {
        id: u32,
        direction: Direction,
        label: &'a Text,
    },
    /// How many edges a node has.
    Degree {
        id: u32,
        direction: Direction,
        label: &'a Option<Text>,
    },
    /// A shortest walk.
    Path(Route<'a>),
    /// The levels that prove it.
    Levels(Route<'a>),
    /// An element.
    View(Target),
    /// The names of the graph.
    ViewNames,
    /// Its indexes.
    ViewIndexes,
    /// The results of a query.
    Query(&'a Query),
}

/// Which walks are looked for: from a node to another, by edges of a type or of all types.
#[derive(Clone, Copy)]
pub(crate) struct Route<'a> {
    pub(crate) from: u32,
    pub(crate) to: u32,
    pub(crate) direction: Direction,
    pub(crate) label: &'a Option<Text>,
}
