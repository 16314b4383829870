ghost use Rattle.std.specs.Prelude.{
  ◌≡◌,
  ◌≤◌,
  ◌<◌,
  ◌+◌,
  ◌^◌,
  ◌↔◌,
  ◌⊎◌,
  ◌++◌,
  ◌∷◌,
  [],
  ℕ,
  length,
  IsErr,
  IfOk,
  OnOk,
  OnErr,
};
ghost use Rattle.fault_count.specs.Cause.{raised, HasCause};
ghost use Rattle.disk_model.specs.Calls.{Wrote, Synced};
ghost use Rattle.disk_model.specs.Contents.{
  Holds,
  Same,
  SameOutside,
  poked,
  IsFile,
  number_of_files,
};
ghost use Rattle.disk_model.specs.Disk.{TornIn, NoMore, Settled, Elapses};
ghost use Rattle.disk_model.specs.Crash.{left_by};
ghost use Rattle.disk_model.specs.MemoryDisk.{
  content_of,
  MayLeave,
  LeftSince,
  ArePoked,
  NextFails,
  PassesFile,
  PassesBytes,
  IsFull,
  IsAfterFailedWrite,
  reads_image,
  image_counts,
  image_only,
};
ghost use Rattle.disk_model.specs.PlainDisk.{file_of, rooms_of, rooms, contents, AllZeros};

use crate::call_log::{CallLog, Room};
use crate::disk::Disk;
use crate::fault_plan::{FaultPlan, next_call_fails};
use crate::marks::{draw_marked, no_marks};
use crate::plain_disk::files_of_zeros;
use crate::plain_file::{PlainFile, copies};
use crate::poke_times::{PokeTimes, never_poked};
use fault_count::{Count, Failed};
use std::alloc::{AllocError, Global};
use std::marker::Model;

/// Which image a loss of power leaves. At each place that is not pending it has what a read gives.
#[derive(Clone, Copy, Debug)]
pub enum Crash {
    /// Each pending byte as it was at the file's last sync that succeeded or at the place's last
    /// poke, whichever came later, or at first.
    Old,
    /// Each pending byte as a read gives it.
    New,
    /// This byte at each pending place.
    Fill(u8),
    /// At each pending place the next byte of a generator with this seed. A draw sets its state x,
    /// of 64 bits, to x * 6364136223846793005 + 1442695040888963407, and the byte is bits 33 to 40
    /// of that. The files are taken by their numbers, and in a file the places from 0 on.
    Mixed(u64),
}

/// A disk in memory that fails in the calls of its plan, and tells what a loss of power may leave.
/// It keeps each write, each write that its plan made fail, and each sync that succeeded.
#[derive(Drop)]
pub struct MemoryDisk {
    // The files as they were on the disk at first.
    base: Vec<PlainFile>,
    // When each place of them was poked.
    pokes: Vec<PokeTimes>,
    // The files as they are read.
    files: Vec<PlainFile>,
    log: CallLog,
    plan: FaultPlan,
    made: Count,
    faults: Count,
}

impl Model for MemoryDisk {
    ghost use Rattle.disk_model.specs.MemoryDisk.{MemoryDiskState, IsRead};

    ghost Value = { MemoryDiskState };

    ghost view = { λ d. record {
      base = d.base.items;
      pokes = d.pokes.items;
      calls = d.log.calls;
      fails = d.plan.fails;
      stop = d.plan.stop;
      most_calls = d.log.most_calls;
      most_bytes = d.log.most_bytes;
      made = d.made;
      faults = d.faults;
    } };

    ghost invariant = { λ d. IsRead d.base.items d.pokes.items d.files.items d.log.calls };
}

impl MemoryDisk {
    /// A disk of zeros, with room for a store of at most `limit` records of each kind.
    pub fn new(
        alloc: Global,
        limit: u32,
        room: Room,
        plan: FaultPlan,
    ) -> Result<MemoryDisk, AllocError>
        ensures rooms { IfOk result (λ disk. rooms_of disk.base ≡ rooms limit) }
        ensures zeros { IfOk result (λ disk. AllZeros disk.base) }
        ensures unpoked { IfOk result (λ disk. AllZeros disk.pokes) }
        ensures fresh { IfOk result (λ disk. disk
            ≡ record {
              base = disk.base;
              pokes = disk.pokes;
              calls = [];
              fails = plan.fails;
              stop = plan.stop;
              most_calls = room.calls;
              most_bytes = room.bytes;
              made = 0;
              faults = 0;
            }) }
    {
        MemoryDisk::of(alloc, files_of_zeros(alloc, limit)?, room, plan)
    }

    /// A disk with one of the images that a loss of power at this moment may leave.
    pub fn after_crash(
        &self,
        alloc: Global,
        choice: Crash,
        room: Room,
        plan: FaultPlan,
    ) -> Result<MemoryDisk, AllocError>
        ensures image { IfOk result (λ disk. MayLeave self.now (contents disk.base)) }
        ensures exact { IfOk result (λ disk. Same (left_by choice self.now) (contents disk.base)) }
        ensures rooms { IfOk result (λ disk. rooms_of disk.base ≡ rooms_of self.now.base) }
        ensures unpoked { IfOk result (λ disk. AllZeros disk.pokes) }
        ensures fresh { IfOk result (λ disk. disk
            ≡ record {
              base = disk.base;
              pokes = disk.pokes;
              calls = [];
              fails = plan.fails;
              stop = plan.stop;
              most_calls = room.calls;
              most_bytes = room.bytes;
              made = 0;
              faults = 0;
            }) }
    {
        MemoryDisk::of(alloc, self.image(alloc, choice)?, room, plan)
    }

    /// How many bytes the file has room for.
    pub fn room(&self, file: u8) -> u64
        requires { IsFile file }
        ensures { result ≡ length (file_of self.now.base file) }
    {
        self.base[file as usize].room() as u64
    }

    /// Changes one byte in what a read gives and in every image alike, of this moment and of each
    /// one before, for tests of damage. The place isn't pending until a later write covers it. The
    /// kept calls, their room, the plan and the counts stay.
    pub fn poke(&mut self, file: u8, at: u64, byte: u8)
        requires file { IsFile file }
        requires within { at < length (file_of self.old.base file) }
        ensures read { Same (poked file at byte (content_of self.old)) (content_of self.new) }
        ensures image { ArePoked file at byte (MayLeave self.old) (MayLeave self.new) }
        ensures since { (t : ℕ) → ArePoked file at byte (LeftSince self.old t)
            (LeftSince self.new t) }
        ensures base { Same (poked file at byte (contents self.old.base))
            (contents self.new.base) }
        ensures pokes { Same (poked file at (length self.old.calls) (contents self.old.pokes))
            (contents self.new.pokes) }
        ensures rooms { rooms_of self.new.base ≡ rooms_of self.old.base }
        ensures others { self.new
            ≡ record self.old { base = self.new.base; pokes = self.new.pokes } }
    {
        self.base[file as usize].write(at as usize, &[byte]);
        self.files[file as usize].write(at as usize, &[byte]);
        self.pokes[file as usize].poke(at as usize, self.log.count());
    }

    // The files that this choice of an image leaves.
    fn image(&self, alloc: Global, choice: Crash) -> Result<Vec<PlainFile>, AllocError>
        ensures count { IfOk result (λ files. length files.items ≡ number_of_files) }
        ensures rooms { IfOk result (λ files. rooms_of files.items ≡ rooms_of self.now.base) }
        ensures exact { IfOk result (λ files.
            Same (left_by choice self.now) (contents files.items)) }
    {
        match choice {
            Crash::Old => self.settled(alloc),
            Crash::New => copies(alloc, &self.files),
            Crash::Fill(byte) => self.filled(alloc, byte),
            Crash::Mixed(seed) => self.mixed(alloc, seed),
        }
    }

    // The files as they were at their last syncs.
    fn settled(&self, alloc: Global) -> Result<Vec<PlainFile>, AllocError>
        ensures count { IfOk result (λ files. length files.items ≡ number_of_files) }
        ensures rooms { IfOk result (λ files. rooms_of files.items ≡ rooms_of self.now.base) }
        ensures exact { IfOk result (λ files.
            Same (left_by Crash.Old self.now) (contents files.items)) }
    {
        let mut files = copies(alloc, &self.base)?;
        self.log.lay_synced(&mut files, &self.pokes);
        Ok(files)
    }

    // The files as they are read, with this byte at each pending place.
    fn filled(&self, alloc: Global, byte: u8) -> Result<Vec<PlainFile>, AllocError>
        ensures count { IfOk result (λ files. length files.items ≡ number_of_files) }
        ensures rooms { IfOk result (λ files. rooms_of files.items ≡ rooms_of self.now.base) }
        ensures exact { IfOk result (λ files.
            Same (left_by (Crash.Fill byte) self.now) (contents files.items)) }
    {
        let mut files = copies(alloc, &self.files)?;
        self.log.fill(&mut files, &self.pokes, byte);
        Ok(files)
    }

    // The files as they are read, with the next byte drawn from the seed at each pending place.
    fn mixed(&self, alloc: Global, seed: u64) -> Result<Vec<PlainFile>, AllocError>
        ensures count { IfOk result (λ files. length files.items ≡ number_of_files) }
        ensures rooms { IfOk result (λ files. rooms_of files.items ≡ rooms_of self.now.base) }
        ensures exact { IfOk result (λ files.
            Same (left_by (Crash.Mixed seed) self.now) (contents files.items)) }
    {
        let mut marks = no_marks(alloc, &self.files)?;
        self.log.fill(&mut marks, &self.pokes, 1);
        let mut files = copies(alloc, &self.files)?;
        draw_marked(&mut files, &marks, seed);
        Ok(files)
    }

    // A disk of these files on which no call was made.
    fn of(
        alloc: Global,
        base: Vec<PlainFile>,
        room: Room,
        plan: FaultPlan,
    ) -> Result<MemoryDisk, AllocError>
        requires { length base.items ≡ number_of_files }
        ensures unpoked { IfOk result (λ disk. AllZeros disk.pokes) }
        ensures fresh { IfOk result (λ disk. disk
            ≡ record {
              base = base.items;
              pokes = disk.pokes;
              calls = [];
              fails = plan.fails;
              stop = plan.stop;
              most_calls = room.calls;
              most_bytes = room.bytes;
              made = 0;
              faults = 0;
            }) }
    {
        Ok(MemoryDisk {
            files: copies(alloc, &base)?,
            pokes: never_poked(alloc, &base)?,
            base,
            log: CallLog::new(alloc, room)?,
            plan,
            made: Count::new(),
            faults: Count::new(),
        })
    }

    // Writes, by the clauses of `Disk::write` that say when it fails and what is kept.
    fn put(&mut self, file: u8, at: u64, bytes: &[u8]) -> Result<(), Failed>
        requires file { IsFile file }
        requires within { at + length bytes.now ≤ 2 ^ 40 }
        ensures fails { IsErr result
            ↔ (NextFails self.old ⊎ (PassesFile self.old file at (length bytes.now)
            ⊎ (IsFull self.old ⊎ PassesBytes self.old (length bytes.now)))) }
        ensures ok { OnOk result (self.new
            ≡ record self.old {
              calls = self.old.calls ++ Wrote file at bytes.now ∷ [];
              made = raised self.old.made;
            }) }
        ensures err { OnErr result (IsAfterFailedWrite self.old file at
            (length bytes.now) self.new) }
        ensures written { OnOk result (Holds file at bytes.now (content_of self.new)) }
        ensures cause { HasCause self.old.faults self.new.faults result }
    {
        let planned = next_call_fails(&self.plan, &mut self.made);
        let room = self.base[file as usize].room() as u64;
        if room < at + bytes.len() as u64 {
            self.faults.raise();
            return Err(Failed);
        }
        if planned && !self.log.is_full() {
            self.log.tore(file, at, bytes.len());
            self.faults.raise();
            return Err(Failed);
        }
        if planned || !self.log.has_room(bytes.len()) {
            self.faults.raise();
            return Err(Failed);
        }
        self.files[file as usize].write(at as usize, bytes);
        self.log.wrote(file, at, bytes);
        Ok(())
    }

    // Syncs, by the clauses of `Disk::sync` that say when it fails and what is kept.
    fn settle(&mut self, file: u8) -> Result<(), Failed>
        requires { IsFile file }
        ensures fails { IsErr result ↔ (NextFails self.old ⊎ IsFull self.old) }
        ensures ok { OnOk result (self.new
            ≡ record self.old {
              calls = self.old.calls ++ Synced file ∷ [];
              made = raised self.old.made;
            }) }
        ensures err { OnErr result (self.new
            ≡ record self.old { made = raised self.old.made; faults = raised self.old.faults }) }
        ensures cause { HasCause self.old.faults self.new.faults result }
    {
        if next_call_fails(&self.plan, &mut self.made) || self.log.is_full() {
            self.faults.raise();
            return Err(Failed);
        }
        self.log.synced(file);
        Ok(())
    }
}

impl Disk for MemoryDisk {
    ghost tells_reads = { Unit {0} };

    ghost reads = { λ disk. content_of disk };

    ghost tells_images = { Unit {0} };

    ghost may_leave = { λ disk image. MayLeave disk image };

    ghost moment = { λ disk. length disk.calls };

    ghost left_since = { λ disk t image. LeftSince disk t image };

    ghost faults = { λ disk. disk.faults };

    ghost read_is_image = { λ disk _ _. reads_image disk };

    ghost counts_now = { λ disk t image _ earlier leaves.
        image_counts disk t image earlier leaves };

    ghost only_now = { λ disk image _ since. image_only disk image since };

    /// Fails in the calls of the plan, and changes nothing but the counts.
    fn read(&mut self, file: u8, at: u64, out: &mut [u8]) -> Result<(), Failed>
        requires file { IsFile file }
        requires within { at + length out.old ≤ 2 ^ 40 }
        ensures fails { IsErr result ↔ NextFails self.old }
        ensures ok { OnOk result (self.new ≡ record self.old { made = raised self.old.made }) }
        ensures err { OnErr result (self.new
            ≡ record self.old { made = raised self.old.made; faults = raised self.old.faults }) }
        ensures bytes { OnOk result (Holds file at out.new (content_of self.old)) }
        ensures keeps { Same (content_of self.old) (content_of self.new) }
        ensures crash { NoMore (MayLeave self.old) (MayLeave self.new) }
        ensures time { Elapses (length self.old.calls) (length self.new.calls) (LeftSince self.old)
            (LeftSince self.new) (MayLeave self.new) }
        ensures cause { HasCause self.old.faults self.new.faults result }
    {
        if next_call_fails(&self.plan, &mut self.made) {
            self.faults.raise();
            return Err(Failed);
        }
        self.files[file as usize].read(at as usize, out);
        Ok(())
    }

    /// Fails in the calls of the plan, and where the bytes pass the file's room or what may be
    /// kept. A failing write changes nothing but the counts, and is kept where the plan made it
    /// fail, its bytes don't pass the file's room, and one more call has room.
    fn write(&mut self, file: u8, at: u64, bytes: &[u8]) -> Result<(), Failed>
        requires file { IsFile file }
        requires within { at + length bytes.now ≤ 2 ^ 40 }
        ensures fails { IsErr result
            ↔ (NextFails self.old ⊎ (PassesFile self.old file at (length bytes.now)
            ⊎ (IsFull self.old ⊎ PassesBytes self.old (length bytes.now)))) }
        ensures ok { OnOk result (self.new
            ≡ record self.old {
              calls = self.old.calls ++ Wrote file at bytes.now ∷ [];
              made = raised self.old.made;
            }) }
        ensures err { OnErr result (IsAfterFailedWrite self.old file at
            (length bytes.now) self.new) }
        ensures written { OnOk result (Holds file at bytes.now (content_of self.new)) }
        ensures elsewhere { SameOutside file at (length bytes.now) (content_of self.old)
            (content_of self.new) }
        ensures crash { TornIn file at (length bytes.now) (MayLeave self.old) (MayLeave self.new) }
        ensures time { Elapses (length self.old.calls) (length self.new.calls) (LeftSince self.old)
            (LeftSince self.new) (MayLeave self.new) }
        ensures cause { HasCause self.old.faults self.new.faults result }
    {
        self.put(file, at, bytes)
    }

    /// Fails in the calls of the plan, and where no call more has room. A failing sync changes
    /// nothing but the counts.
    fn sync(&mut self, file: u8) -> Result<(), Failed>
        requires file { IsFile file }
        ensures fails { IsErr result ↔ (NextFails self.old ⊎ IsFull self.old) }
        ensures ok { OnOk result (self.new
            ≡ record self.old {
              calls = self.old.calls ++ Synced file ∷ [];
              made = raised self.old.made;
            }) }
        ensures err { OnErr result (self.new
            ≡ record self.old { made = raised self.old.made; faults = raised self.old.faults }) }
        ensures keeps { Same (content_of self.old) (content_of self.new) }
        ensures crash { NoMore (MayLeave self.old) (MayLeave self.new) }
        ensures settled { OnOk result (Settled file (content_of self.old) (MayLeave self.new)) }
        ensures time { Elapses (length self.old.calls) (length self.new.calls) (LeftSince self.old)
            (LeftSince self.new) (MayLeave self.new) }
        ensures cause { HasCause self.old.faults self.new.faults result }
    {
        self.settle(file)
    }
}
