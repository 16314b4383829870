//! Whether the indexes of a space have just the entries that its nodes ask for. A check reads each
//! record of the indexes a few times, each node once for each index, and the value of a node once
//! for each of its entries. It keeps a byte for each record and node, and four for each entry.
#![tactic(auto)]

mod buckets;
mod checking;
mod definitions;
mod entries;
mod head_records;
mod index;
mod nodes;
mod values;

pub use checking::check_indexes;
