//! Properties of nodes and relationships, in chains of records; a long text stands in a chain of
//! blocks. A read costs at most 33 records of the chain and the blocks of what it answers, and a
//! change what it finds, gives back and writes. Only a read takes memory of its own, for its
//! values.
#![tactic(auto)]

mod block_list;
mod block_record;
mod block_writing;
mod blocks;
mod changing;
mod damaged;
mod dropping;
mod finding;
mod form;
mod given_out;
mod held;
mod link;
mod owner;
mod prop;
mod property_record;
mod property_row;
mod reading;
mod releasing;
mod set_fault;
mod setting;
mod values;

pub use changing::{Dropped, drop_all, unset};
pub use owner::Owner;
pub use prop::Prop;
pub use reading::{read_all, read_all_from, read_key, read_key_from};
pub use rec_bytes::Fault;
pub use set_fault::SetFault;
pub use setting::{add, set};
