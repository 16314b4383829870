//! Groups of dense nodes: the record of a group as a row of named fields, and the chain of a node's
//! groups, of which one is found, made or dropped. A walk and a search cost a read for each group,
//! a change at most five reads and four writes. A node becomes dense at the cost of two reads, a
//! search and two changes for each of its relationships. Only a walk takes memory of its own, for
//! its rows.
#![tactic(auto)]

mod closing;
mod counting;
mod densing;
mod dropping;
mod finding;
mod group_record;
mod group_row;
mod links;
mod loading;
mod making;
mod members;
mod moved;
mod open_fault;
mod opening;
mod raising;
mod side;
mod sparse_chain;
mod twins;
mod walking;

pub use closing::close_chain;
pub use counting::{push_counted, unlink_counted};
pub use densing::make_dense;
pub use dropping::drop_if_empty;
pub use finding::find_group;
pub use group_row::GroupRow;
pub use loading::load;
pub use making::make_group;
pub use open_fault::OpenFault;
pub use opening::{open_chain, open_head};
pub use side::Side;
pub use walking::groups;
