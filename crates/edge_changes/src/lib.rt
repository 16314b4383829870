//! Edges that are added and deleted over a space of records: each is the plain change or a refusal,
//! and keeps the rules.
#![tactic(auto)]

mod edge_adding;
mod edge_deleting;
mod edge_end;
mod edge_joining;
mod edge_opening;
mod edge_parting;
mod edge_placing;

pub use edge_adding::add_edge;
pub use edge_deleting::delete_edge;
