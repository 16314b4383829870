//! The edges of a node, in the order of the model: by ascending identifier, those that leave it
//! before those that enter it. A call reads the node's record and those of a sparse node's
//! relationships, or of a dense one's groups and the relationships that match. It takes memory for
//! their rows.
#![tactic(auto)]

mod degrees;
mod expand_fault;
mod expanding;
mod first_links;
mod loading;
mod matching;
mod unknown_types;
mod walking;

pub use degrees::degree;
pub use expand_fault::ExpandFault;
pub use expanding::expand;
