//! Lists that records make by their links, bits for what was seen in them, and what is said of each
//! record of a file: the parts of which checks of a store are made. A list costs one read for each
//! of its records, and four bytes; a bit takes one byte.
#![tactic(auto)]

mod deciding;
mod distinct;
mod heads;
mod line;
mod live_line;
mod numbers;
mod seen;
mod sentence;
mod unseen;

pub use deciding::broken;
pub use distinct::are_distinct;
pub use heads::{Broke, Found, Heads, list_heads};
pub use line::{Line, follow};
pub use live_line::LiveLine;
pub use numbers::numbers_of;
pub use seen::{first_seen, none_seen, see_all, seen_of};
pub use sentence::{Sentence, find_false};
pub use unseen::find_unseen;
