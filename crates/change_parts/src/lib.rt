//! What changes of nodes and of edges have in common: why one is refused, elements as owners of
//! properties, and the names and the properties of a new element.
#![tactic(auto)]

mod added;
mod assigning;
mod blocks;
mod change_fault;
mod owners;
mod preparing;
mod rooms;

pub use added::Added;
pub use assigning::{Assignment, put_properties};
pub use blocks::block_count;
pub use change_fault::ChangeFault;
pub use owners::{edge_owner, find_owner, node_owner};
pub use preparing::{Prepared, prepare};
pub use rooms::test_room;
