//! Nodes: the record of a node as a row of named fields, read from a space and written to one.
//! A load costs at most one read, a save one write. Neither takes memory of its own.
#![tactic(auto)]

mod loading;
mod node_record;
mod node_row;
mod node_row_impl;
mod saving;

pub use loading::load;
pub use node_row::NodeRow;
pub use saving::save;
