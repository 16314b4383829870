ghost use Rattle.std.specs.Prelude.{◌≤◌, ◌+◌, ◌^◌, length};
ghost use Rattle.fault_count.specs.Cause.{HasCause};
ghost use Rattle.disk_model.specs.Contents.{IsFile};

use disk_model::{Calls, Crash, Disk, FaultPlan, MemoryDisk, Room};
use fault_count::{Count, Failed};
use rec_bytes::INDEX;
use std::alloc::{AllocError, Global};

/// A disk in memory of which no contract says what it holds, in a box: the proof of a test grows
/// with the size of its variables, and with what is known of them.
#[derive(Drop)]
pub(crate) struct QuietDisk {
    disk: Box<MemoryDisk>,
    faults: Count,
}

/// The calls of these numbers fail, and all from the number of the stop on.
pub(crate) fn plan(
    alloc: Global,
    fails: &[u64],
    stop: Option<u64>,
) -> Result<FaultPlan, AllocError> {
    let fails = Calls::new(Vec::from_slice(alloc, fails)?);
    Ok(FaultPlan { fails, stop })
}

impl QuietDisk {
    /// A disk of zeros, with the room of a store whose limit is 16.
    pub(crate) fn new(alloc: Global, room: Room, plan: FaultPlan) -> Result<QuietDisk, AllocError> {
        QuietDisk::of_limit(alloc, 16, room, plan)
    }

    /// One with the room of a store of this limit.
    pub(crate) fn of_limit(
        alloc: Global,
        limit: u32,
        room: Room,
        plan: FaultPlan,
    ) -> Result<QuietDisk, AllocError> {
        let disk = Box::new(alloc, MemoryDisk::new(alloc, limit, room, plan)?)?;
        Ok(QuietDisk {
            disk,
            faults: Count::new(),
        })
    }

    /// What this loss of power leaves.
    pub(crate) fn after_crash(
        &self,
        alloc: Global,
        choice: Crash,
        room: Room,
        plan: FaultPlan,
    ) -> Result<QuietDisk, AllocError> {
        let disk = Box::new(alloc, self.disk.after_crash(alloc, choice, room, plan)?)?;
        Ok(QuietDisk {
            disk,
            faults: Count::new(),
        })
    }

    /// How many bytes the file has room for.
    pub(crate) fn room(&self, file: u8) -> u64
        requires { IsFile file }
    {
        self.disk.room(file)
    }

    /// Puts these bytes, each at a place of a file, if it has the place.
    pub(crate) fn poke_all(&mut self, pokes: &[(u8, u64, u8)]) {
        for (file, at, byte) in pokes.iter() {
            if *file <= INDEX && *at < self.disk.room(*file) {
                self.disk.poke(*file, *at, *byte);
            }
        }
    }
}

impl Disk for QuietDisk {
    ghost tells_reads = { ⊥ };

    ghost reads = { λ _ _ _. 0 };

    ghost tells_images = { ⊥ };

    ghost may_leave = { λ _ _. ⊥ };

    ghost moment = { λ _. 0 };

    ghost left_since = { λ _ _ _. ⊥ };

    ghost faults = { λ quiet. quiet.faults };

    fn read(&mut self, file: u8, at: u64, out: &mut [u8]) -> Result<(), Failed>
        requires file { IsFile file }
        requires within { at + length out.old ≤ 2 ^ 40 }
        ensures cause { HasCause self.old.faults self.new.faults result }
    {
        let answer = self.disk.read(file, at, out);
        told(answer, &mut self.faults)
    }

    fn write(&mut self, file: u8, at: u64, bytes: &[u8]) -> Result<(), Failed>
        requires file { IsFile file }
        requires within { at + length bytes.now ≤ 2 ^ 40 }
        ensures cause { HasCause self.old.faults self.new.faults result }
    {
        let answer = self.disk.write(file, at, bytes);
        told(answer, &mut self.faults)
    }

    fn sync(&mut self, file: u8) -> Result<(), Failed>
        requires file { IsFile file }
        ensures cause { HasCause self.old.faults self.new.faults result }
    {
        let answer = self.disk.sync(file);
        told(answer, &mut self.faults)
    }

    ghost read_is_image = { λ _ tells _. absurd tells };

    ghost counts_now = { λ _ _ _ tells _ _. absurd tells };

    ghost only_now = { λ _ _ tells _. absurd tells };
}

/// The answer of a call, which is counted where it failed.
fn told(answer: Result<(), Failed>, faults: &mut Count) -> Result<(), Failed>
    ensures { HasCause faults.old faults.new result }
{
    match answer {
        Ok(()) => Ok(()),
        Err(_) => {
            faults.raise();
            Err(Failed)
        }
    }
}
