//! Relationships: the record of a relationship as a row of named fields, read from a space and
//! written to one, and the links in it. A load costs at most one read, a save one write. Neither
//! takes memory of its own.
#![tactic(auto)]

mod edge_row;
mod linked;
mod links;
mod loading;
mod rel_record;
mod rel_row;
mod rel_row_impl;
mod saving;

pub use edge_row::EdgeRow;
pub use linked::Linked;
pub use links::{end_links, place_of};
pub use loading::load;
pub use rel_row::RelRow;
pub use saving::save;
