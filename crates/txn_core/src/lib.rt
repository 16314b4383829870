//! A store over a disk: what is committed, the open transaction, and the draft of one change over
//! both. A commit is one entry of the redo log, with two syncs; a read costs at most three searches
//! in memory and one call of the disk.
#![tactic(auto)]

mod again_fault;
mod base;
mod changed;
mod checking_point;
mod committed;
mod committing;
mod config;
mod fetching;
mod health;
mod keeping;
mod marks;
mod not_opened;
mod old_records;
mod open_fault;
mod opening;
mod reading;
mod recovering_again;
mod space;
mod store;
mod tapping;
mod transacting;

pub use again_fault::AgainFault;
pub use committed::Committed;
pub use config::Config;
pub use health::Health;
pub use not_opened::NotOpened;
pub use open_fault::OpenFault;
pub use store::Store;
pub use tapping::{TAKEN_KEY, is_kept_back, is_shipped};
