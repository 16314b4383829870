ghost use Rattle.std.specs.Prelude.{◌≡◌};
ghost use Rattle.edge_changes.specs.EdgeEnds.{source_of, target_of};

use chain_edit::Head;

/// The ends of a relationship: two nodes, or the one node that it both leaves and enters.
#[derive(Clone, Copy)]
pub(crate) enum Ends<T> {
    Loop(T),
    Two { source: T, target: T },
}

/// A node at an end of a relationship, and how many relationships it has.
#[derive(Clone, Copy)]
pub(crate) struct EndDegree {
    pub node: u32,
    pub degree: u32,
}

/// The same, and the head of its chain where the relationship stands.
#[derive(Clone, Copy)]
pub(crate) struct EdgeEnd {
    pub node: u32,
    pub head: Head,
    pub degree: u32,
}

impl Ends<EdgeEnd> {
    /// The node that the relationship leaves, and the one that it enters.
    pub fn nodes(self) -> (u32, u32)
        ensures { result ≡ ((source_of self).node, (target_of self).node) }
    {
        match self {
            Ends::Loop(end) => (end.node, end.node),
            Ends::Two { source, target } => (source.node, target.node),
        }
    }
}

/// What a new relationship joins: its type, and its ends with their degrees before. An end whose
/// degree is the threshold becomes dense.
#[derive(Clone, Copy)]
pub(crate) struct Joint {
    pub label: u32,
    pub threshold: u32,
    pub ends: Ends<EndDegree>,
}
