//! Snapshots of a space of records. For each open one the old records are kept that commits have
//! replaced since it was taken. A read of a record that wasn't replaced mostly looks at one byte;
//! any other finds the key in each layer from the snapshot's own on, at most seven. A release moves
//! each record of the next older layer once.
#![tactic(auto)]

mod keeping;
mod layer;
mod marks;
mod pending;
mod releasing;
mod snap_state;
mod snaps;
mod view;

pub use keeping::keep_old;
pub use pending::Pending;
pub use snap_state::SnapState;
pub use snaps::Snaps;
pub use view::View;
