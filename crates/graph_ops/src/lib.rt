//! The changes of the graph over a space of records: each is the plain change or a refusal, and
//! keeps the rules.
#![tactic(auto)]

mod distinct;
mod mutate_fault;
mod mutating;

pub use change_parts::{Added, ChangeFault};
pub use edge_changes::{add_edge, delete_edge};
pub use mutate_fault::MutateFault;
pub use mutating::{Mutated, mutate};
pub use node_changes::{add_node, delete_node, index, set, unset};
