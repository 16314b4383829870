//! Recovery: what the log says comes into the files of records, at a checkpoint and after a stop. A
//! checkpoint costs a write for each run of at most 64 changed records that stand one behind the
//! other in a file, and nine syncs; recovery reads the log twice and syncs all files, and does so
//! once more where the log has an entry.
#![tactic(auto)]

mod checkpointing;
mod finding;
mod found;
mod logged_metas;
mod recover_fault;
mod recovering;
mod redoing;
mod syncing;
mod writing;

pub use checkpointing::checkpoint;
pub use found::Found;
pub use recover_fault::RecoverFault;
pub use recovering::recover;
pub use syncing::{sync_files, sync_record_files};
pub use writing::write_records;
