//! Identifiers of a file of records: the last one given back is the first one taken, and the mark
//! follows. A take costs at most two reads and a write, a give a read and two writes. Neither takes
//! memory of its own. Only where the count is too low for an empty free list, a take reads up to
//! the mark, so as to name the record that is on no list.
#![tactic(auto)]

mod giving;
mod take_fault;
mod taking;

pub use giving::give;
pub use take_fault::TakeFault;
pub use taking::take;
