//! The run of a query: its results come one by one. Each step keeps the items that wait for it, and
//! the next one is made from the last step that has some, so nothing makes the whole list first.
//! The first step takes those of the source with none that waits, unless it is a limit.
//! Only an order and the texts of a dedup grow with what comes to them.
#![tactic(auto)]

mod asked_ids;
mod comparing;
mod counter;
mod edge_items;
mod elements;
mod feeding;
mod finding;
mod found_nodes;
mod hopping;
mod id_set;
mod items;
mod kept;
mod kept_value;
mod key_values;
mod lookups;
mod mapping;
mod naming;
mod numbered_filter;
mod row;
mod run;
mod seen;
mod shown;
mod sought;
mod source;
mod stage;
mod starting;
mod stop;
mod text_set;
mod viewing;
mod waiting;

pub use found_nodes::find_nodes;
pub use items::items_of;
pub use run::{Next, Run};
pub use viewing::{read_map, view_element};
