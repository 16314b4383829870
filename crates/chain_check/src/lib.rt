//! The rules of relationships: whether the chains of nodes and groups have just the relationships
//! at them, whether groups and their counts are whole, and whether degrees are exact.
#![tactic(auto)]

mod chained;
mod chains;
mod counts;
mod degrees;
mod groups;
mod kinds;
mod link_rows;
mod row_chains;

pub use chains::check_chains;
pub use degrees::check_degrees;
pub use groups::check_groups;
