use crate::error::RowError;
use crate::text::{cut, number_of};
use disk_model::{Calls, Crash, FaultPlan, MemoryDisk, Room};
use std::alloc::{AllocError, Global};

/// What a disk that fails keeps of its calls.
const ROOM: Room = Room {
    calls: 8_192,
    bytes: 4_194_304,
};

/// A new empty disk with room for a store of so many nodes. The calls of these numbers fail, and
/// all from the number of the stop on.
pub(crate) fn failing_disk(
    alloc: Global,
    room: u32,
    fails: &[u64],
    stop: Option<u64>,
) -> Result<Box<MemoryDisk>, AllocError> {
    let plan = plan(alloc, fails, stop)?;
    let disk = MemoryDisk::new(alloc, room, ROOM, plan)?;
    Ok(Box::new(alloc, disk)?)
}

/// What such a loss of power leaves of the disk. None of its calls fails.
pub(crate) fn left_by(
    alloc: Global,
    disk: &MemoryDisk,
    crash: Crash,
) -> Result<Box<MemoryDisk>, AllocError> {
    let plan = plan(alloc, &[], None)?;
    let left = disk.after_crash(alloc, crash, ROOM, plan)?;
    Ok(Box::new(alloc, left)?)
}

fn plan(alloc: Global, fails: &[u64], stop: Option<u64>) -> Result<FaultPlan, AllocError> {
    let fails = Calls::new(Vec::from_slice(alloc, fails)?);
    Ok(FaultPlan { fails, stop })
}

/// The loss of power that the text names.
pub(crate) fn crash_of(text: &[u8]) -> Result<Crash, RowError> {
    match text {
        b"old" => Ok(Crash::Old),
        b"new" => Ok(Crash::New),
        _ => numbered_crash_of(text),
    }
}

/// One that has a number: the byte at each place, or the seed of the bytes.
fn numbered_crash_of(text: &[u8]) -> Result<Crash, RowError> {
    let (word, number) = cut(text)?;
    let number = number_of(number)?;
    match (word, u8::try_from(number)) {
        (b"fill", Ok(byte)) => Ok(Crash::Fill(byte)),
        (b"mixed", _) => Ok(Crash::Mixed(number)),
        _ => Err(RowError::Malformed),
    }
}
