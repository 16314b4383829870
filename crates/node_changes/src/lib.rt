//! Nodes that are added and deleted, values that are set and taken away, and indexes that are made,
//! over a space of records: each is the plain change or a refusal, and keeps the rules.
#![tactic(auto)]

mod entries;
mod indexing;
mod node_adding;
mod node_deleting;
mod property_setting;

pub use indexing::index;
pub use node_adding::add_node;
pub use node_deleting::delete_node;
pub use property_setting::{set, unset};
