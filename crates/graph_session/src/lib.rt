//! The console of all sessions, of which one writes and the others read snapshots: a line in, one
//! step of the console, its reply out. When a step returns, a change that was answered is on the
//! disk. Nothing of the graph is kept in memory but its names and the old records that open
//! snapshots need; a query reads the records as it goes.
#![tactic(auto)]

mod answer;
mod change;
mod changing;
mod context;
mod giving;
mod health;
mod job;
mod line_buffer;
mod opening;
mod question;
mod questions;
mod reading;
mod reply_lines;
mod results;
mod session;
mod sight_reading;
mod storing;
mod tapping;
mod transacting;
mod turn;
mod type_numbers;

pub use health::Health;
pub use session::Session;
pub use turn::Turn;
pub use txn_core::{Config, NotOpened, OpenFault};
