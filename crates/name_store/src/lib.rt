//! The names of a store, each once, in the order of first use: in memory, where a name is found by
//! its hash, and in a space. A load reads each record once, and a new name costs two writes.
#![tactic(auto)]

mod again;
mod holding;
mod intern_fault;
mod interning;
mod loading;
mod name_record;
mod names;

pub use intern_fault::InternFault;
pub use loading::load;
pub use names::Names;
pub use rec_bytes::Fault;
