use rec_bytes::Key;

/// A chain of relationships of a node, from its first link on.
#[derive(Clone, Copy)]
pub struct Chain {
    /// The record that has the first link: the node's, or that of a group. It is the one that is
    /// said to be damaged where the chain is broken.
    pub owner: Key,
    /// The node by whose links the chain goes on.
    pub node: u32,
    /// The first relationship, or `NIL`.
    pub first: u32,
}
