ghost use Rattle.std.specs.Prelude.{
  ◌≡◌,
  ◌≤◌,
  ◌<◌,
  ◌+◌,
  ◌^◌,
  ◌↔◌,
  length,
  IsOk,
  IsErr,
  IfOk,
  OnOk,
  OnErr,
};
ghost use Rattle.fault_count.specs.Cause.{raised, HasCause};
ghost use Rattle.disk_model.specs.Contents.{Holds, SameOutside, IsFile};
ghost use Rattle.disk_model.specs.PlainDisk.{file_of, rooms_of, contents, rooms, AllZeros};

use crate::disk::Disk;
use crate::plain_file::PlainFile;
use crate::rooms::{FILES, rooms};
use fault_count::{Count, Failed};
use std::alloc::{AllocError, Global};
use std::marker::Model;

/// A disk in memory. It fails only where a write passes the room of its file, and a write then
/// leaves all bytes as they are. It tells no images, since no loss of power leaves it anything.
#[derive(Drop)]
pub struct PlainDisk {
    files: Vec<PlainFile>,
    faults: Count,
}

impl Model for PlainDisk {
    ghost use Rattle.std.specs.Prelude.{◌≡◌, length};
    ghost use Rattle.disk_model.specs.PlainDisk.{PlainDiskState, rooms};

    ghost Value = { PlainDiskState };

    ghost view = { λ d. record { files = d.files.items; faults = d.faults } };

    ghost invariant = { λ d. length d.files.items ≡ length (rooms 0) };
}

impl PlainDisk {
    /// A disk of zeros, with room for a store of at most `limit` records of each kind.
    pub fn new(alloc: Global, limit: u32) -> Result<PlainDisk, AllocError>
        ensures rooms { IfOk result (λ disk. rooms_of disk.files ≡ rooms limit) }
        ensures zeros { IfOk result (λ disk. AllZeros disk.files) }
        ensures faults { IfOk result (λ disk. disk.faults ≡ 0) }
    {
        Ok(PlainDisk {
            files: files_of_zeros(alloc, limit)?,
            faults: Count::new(),
        })
    }
}

// One file of zeros for each place of the table of rooms.
pub(crate) fn files_of_zeros(alloc: Global, limit: u32) -> Result<Vec<PlainFile>, AllocError>
    ensures rooms { IfOk result (λ files. rooms_of files.items ≡ rooms limit) }
    ensures zeros { IfOk result (λ files. AllZeros files.items) }
{
    let mut files = Vec::with_capacity(alloc, FILES)?;
    for room in rooms(limit) {
        files.push(PlainFile::zeros(alloc, room)?)?;
    }
    Ok(files)
}

impl Disk for PlainDisk {
    ghost tells_reads = { Unit {0} };

    ghost reads = { λ disk. contents disk.files };

    ghost tells_images = { ⊥ };

    ghost may_leave = { λ _ _. ⊥ };

    ghost moment = { λ _. 0 };

    ghost left_since = { λ _ _ _. ⊥ };

    ghost faults = { λ disk. disk.faults };

    ghost read_is_image = { λ _ _ told. absurd told };

    ghost counts_now = { λ _ _ _ told _ _. absurd told };

    ghost only_now = { λ _ _ told _. absurd told };

    /// Never fails, and changes nothing.
    fn read(&mut self, file: u8, at: u64, out: &mut [u8]) -> Result<(), Failed>
        requires file { IsFile file }
        requires within { at + length out.old ≤ 2 ^ 40 }
        ensures succeeds { IsOk result }
        ensures unchanged { self.new ≡ self.old }
        ensures bytes { Holds file at out.new (contents self.old.files) }
        ensures cause { HasCause self.old.faults self.new.faults result }
    {
        self.files[file as usize].read(at as usize, out);
        Ok(())
    }

    /// Fails where the bytes pass the file's room, and then changes nothing but the count.
    fn write(&mut self, file: u8, at: u64, bytes: &[u8]) -> Result<(), Failed>
        requires file { IsFile file }
        requires within { at + length bytes.now ≤ 2 ^ 40 }
        ensures fails { IsErr result
            ↔ (length (file_of self.old.files file) < at + length bytes.now) }
        ensures err { OnErr result (self.new
            ≡ record self.old { faults = raised self.old.faults }) }
        ensures written { OnOk result (Holds file at bytes.now (contents self.new.files)) }
        ensures elsewhere { SameOutside file at (length bytes.now) (contents self.old.files)
            (contents self.new.files) }
        ensures rooms { rooms_of self.new.files ≡ rooms_of self.old.files }
        ensures count { OnOk result (self.new.faults ≡ self.old.faults) }
        ensures cause { HasCause self.old.faults self.new.faults result }
    {
        let room = self.files[file as usize].room() as u64;
        if room < at + bytes.len() as u64 {
            self.faults.raise();
            return Err(Failed);
        }
        self.files[file as usize].write(at as usize, bytes);
        Ok(())
    }

    /// Never fails, and changes nothing: each write is done at once.
    fn sync(&mut self, _file: u8) -> Result<(), Failed>
        ensures succeeds { IsOk result }
        ensures unchanged { self.new ≡ self.old }
        ensures cause { HasCause self.old.faults self.new.faults result }
    {
        Ok(())
    }
}
