/// A node by its identifier, and the least number of edges on a walk to it.
#[derive(Clone, Copy)]
pub struct NodeLevel {
    pub node: u32,
    pub level: u32,
}
