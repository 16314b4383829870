//! Whether the records of a space are those of a well-formed store with its indexes. A check reads
//! the records below the high-water marks, each a few times, and keeps a few bytes for each.
#![tactic(auto)]

mod checking;
mod definitions;
mod elements;
mod free;
mod layout;
mod names;
mod pieces;
mod properties;
mod ranges;
mod texts;
mod verdict;

pub use checking::check;
pub use verdict::Verdict;
