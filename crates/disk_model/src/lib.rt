//! A disk of nine files that can fail and can lose power, as every layer above sees it, and two
//! disks in memory. One fails only past its room; the other fails by a plan too, and tells what a
//! loss of power may leave. No call but the ones that make a disk takes memory.
#![tactic(auto)]

mod call_log;
mod calls;
mod disk;
mod fault_plan;
mod generator;
mod marks;
mod memory_disk;
mod plain_disk;
mod plain_file;
mod poke_times;
mod rooms;

pub use call_log::Room;
pub use calls::Calls;
pub use disk::Disk;
pub use fault_plan::FaultPlan;
pub use memory_disk::{Crash, MemoryDisk};
pub use plain_disk::PlainDisk;
