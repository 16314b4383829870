//! Indexes of the nodes of a label by the value of a key: an entry for each node, in one of 180
//! buckets by the hash of its value. A lookup reads the definitions, one bucket, and the value of
//! each node in it with the hash that is sought. A lookup, a list and an index that is made take
//! memory of their own.
#![tactic(auto)]

mod collecting;
mod defining;
mod definition_record;
mod entering;
mod entry_record;
mod entry_row;
mod filling;
mod finding;
mod gathering;
mod hashing;
mod heads;
mod holding;
mod leaving;
mod linking;
mod listing;
mod looking;
mod lookup_fault;
mod make_fault;
mod making;
mod naming;
mod opening;
mod reading;
mod unlinking;

pub use entering::enter;
pub use hashing::{bucket_of, hash_of};
pub use leaving::leave;
pub use listing::{IndexPair, indexes};
pub use looking::lookup;
pub use lookup_fault::LookupFault;
pub use make_fault::MakeFault;
pub use making::make;
