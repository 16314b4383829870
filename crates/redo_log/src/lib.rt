//! The redo log: entries of written records, each behind a gate byte. An entry is there once its
//! gate is open on the disk, and the gate is opened in a write of its own when all behind it is
//! stable.
#![tactic(auto)]

mod appending;
mod decoding;
mod entry;
mod entry_answer;
mod log_reader;
mod payload;
mod piece;
mod reading;
mod resetting;

pub use appending::append;
pub use entry::{LAST_PLACE, fits};
pub use entry_answer::EntryAnswer;
pub use log_reader::LogReader;
pub use reading::{entry_at, write_at};
pub use resetting::reset;
