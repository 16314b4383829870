//! The rules of a well-formed store of records, and the graph that its records in use are.
//! Definitions of specs/ and their laws; there is no code that runs.
#![tactic(auto)]

mod laws;

pub use laws::blames_nobody;
