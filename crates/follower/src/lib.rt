//! A follower: a store that takes over, one after the other, the transactions that were shipped
//! from another one. A shipment is tested in one pass over its bytes, and applied as one
//! transaction.
#![tactic(auto)]

mod accept;
mod applying;
mod follower;
mod running;
mod shipment;
mod shipping;
mod slot;
mod taken;

pub use accept::Accept;
pub use follower::Follower;
pub use running::keeps_to_what_was_sent;
pub use shipping::{reads_back, write_shipment};
