//! The plain property graph: what a graph is, what a change and a query mean, and the bytes of each
//! reply. Definitions of specs/ say it with lists; the Rust types are commands, items, refusals and
//! texts.
#![tactic(auto)]

mod byte_buffer;
mod command;
mod counts;
mod direction;
mod element_map;
mod filter;
mod item;
mod limits;
mod mutation;
mod name;
mod node_level;
mod pairs;
mod query;
mod refusal;
mod reply;
mod text;
mod texts;
mod value;

pub use byte_buffer::ByteBuffer;
pub use command::{Command, Target};
pub use counts::Counts;
pub use direction::Direction;
pub use element_map::{ElementMap, making_line, map_line};
pub use filter::{Filter, Relation};
pub use item::Item;
pub use limits::{MOST_WEIGHT, NAME_BYTES, START_WEIGHT, TEXT_BYTES};
pub use mutation::Mutation;
pub use name::{is_name_byte, is_name_start, is_short_name};
pub use node_level::NodeLevel;
pub use pairs::{Pair, Pairs};
pub use query::{Body, BodyStep, Hop, Ids, Query, Source, Step, StepList};
pub use refusal::Refusal;
pub use reply::{
    Prefix, ResultLine, ShortText, broken, configuration, counted, damaged, degree, disk_fault,
    done, edge_made, end_of_results, index_line, level_line, name_line, no_memory, no_path,
    node_made, not_a_store, past_count, path, prefix_of, refused, result_line, sound,
};
pub use text::Text;
pub use texts::Texts;
pub use value::Value;
