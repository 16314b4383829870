ghost use Rattle.std.specs.Prelude.{◌≤◌, ◌+◌, ◌^◌, length};
ghost use Rattle.fault_count.specs.Cause.{HasCause};
ghost use Rattle.disk_model.specs.Contents.{IsFile};

use crate::quiet_disk::QuietDisk;
use disk_model::Disk;
use fault_count::{Count, Failed};

/// A disk in memory that has other bytes as soon as a call of it failed.
#[derive(Drop)]
pub(crate) struct TurnedDisk {
    disk: QuietDisk,
    pokes: Vec<(u8, u64, u8)>,
    faults: Count,
}

impl TurnedDisk {
    pub(crate) fn new(disk: QuietDisk, pokes: Vec<(u8, u64, u8)>) -> TurnedDisk {
        TurnedDisk {
            disk,
            pokes,
            faults: Count::new(),
        }
    }
}

// The answer of a call. Where it failed, the other bytes are put.
fn told(
    answer: Result<(), Failed>,
    faults: &mut Count,
    disk: &mut QuietDisk,
    pokes: &[(u8, u64, u8)],
) -> Result<(), Failed>
    ensures { HasCause faults.old faults.new result }
{
    match answer {
        Ok(()) => Ok(()),
        Err(_) => {
            disk.poke_all(pokes);
            faults.raise();
            Err(Failed)
        }
    }
}

impl Disk for TurnedDisk {
    ghost tells_reads = { ⊥ };

    ghost reads = { λ _ _ _. 0 };

    ghost tells_images = { ⊥ };

    ghost may_leave = { λ _ _. ⊥ };

    ghost moment = { λ _. 0 };

    ghost left_since = { λ _ _ _. ⊥ };

    ghost faults = { λ turned. turned.faults };

    fn read(&mut self, file: u8, at: u64, out: &mut [u8]) -> Result<(), Failed>
        requires file { IsFile file }
        requires within { at + length out.old ≤ 2 ^ 40 }
        ensures cause { HasCause self.old.faults self.new.faults result }
    {
        let answer = self.disk.read(file, at, out);
        told(answer, &mut self.faults, &mut self.disk, &self.pokes)
    }

    fn write(&mut self, file: u8, at: u64, bytes: &[u8]) -> Result<(), Failed>
        requires file { IsFile file }
        requires within { at + length bytes.now ≤ 2 ^ 40 }
        ensures cause { HasCause self.old.faults self.new.faults result }
    {
        let answer = self.disk.write(file, at, bytes);
        told(answer, &mut self.faults, &mut self.disk, &self.pokes)
    }

    fn sync(&mut self, file: u8) -> Result<(), Failed>
        requires file { IsFile file }
        ensures cause { HasCause self.old.faults self.new.faults result }
    {
        let answer = self.disk.sync(file);
        told(answer, &mut self.faults, &mut self.disk, &self.pokes)
    }

    ghost read_is_image = { λ _ tells _. absurd tells };

    ghost counts_now = { λ _ _ _ tells _ _. absurd tells };

    ghost only_now = { λ _ _ tells _. absurd tells };
}
