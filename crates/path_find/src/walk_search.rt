use plain_graph::Direction;

/// The walks that are sought: from a node to another, by edges of a direction and of the types with
/// these numbers, or of all types where none is given.
#[derive(Clone, Copy)]
pub struct WalkSearch<'a> {
    pub from: u32,
    pub to: u32,
    pub direction: Direction,
    pub labels: &'a [u32],
}
