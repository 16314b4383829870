ghost use Rattle.std.specs.Prelude.{
  ◌≡◌,
  ◌≤◌,
  ◌<◌,
  ◌+◌,
  ◌++◌,
  ◌↔◌,
  ◌∷◌,
  [],
  ℕ,
  false,
  not,
  ◌&&◌,
  ◌||◌,
  if◌then◌else◌,
  nat_lt,
  nat_le,
  length,
  slice_index,
  slice_index_or,
  drop,
  ◌-◌,
  ◌^◌,
  IfOk,
  IsTrue,
};
ghost use Rattle.std.specs.List.{All, AllByRecursion};
ghost use Rattle.disk_model.specs.CallLog.{
  kept_file,
  kept_covers,
  kept_syncs,
  kept_pending,
  call_of,
  calls_of,
  sync_count,
  IsKeptWithin,
};
ghost use Rattle.disk_model.specs.Calls.{
  Wrote,
  Tore,
  Synced,
  bytes_kept,
  in_range,
  pending_since,
  laid,
  synced_since,
  FitsFile,
};
ghost use Rattle.disk_model.specs.PlainDisk.{file_of, rooms_of, contents};
ghost use Rattle.disk_model.specs.Contents.{IsFile, number_of_files};

use crate::plain_file::PlainFile;
use crate::poke_times::PokeTimes;
use crate::rooms::FILES;
use std::alloc::{AllocError, Global};
use std::marker::Model;

/// How many calls a disk in memory keeps, and how many bytes of writes.
#[derive(Clone, Copy, Debug)]
pub struct Room {
    /// How many calls.
    pub calls: u32,
    /// How many bytes all kept writes may have.
    pub bytes: u32,
}

// A kept call. The bytes of a write stand in one vector for all of them.
#[derive(Clone, Copy)]
enum KeptCall {
    Wrote {
        file: u8,
        at: u64,
        start: usize,
        len: usize,
    },
    Tore {
        file: u8,
        at: u64,
        len: usize,
    },
    Synced {
        file: u8,
    },
}

// A range of a file.
#[derive(Clone, Copy)]
struct FileRange {
    file: u8,
    at: u64,
    len: usize,
}

// What a call wrote, and where.
#[derive(Clone, Copy)]
struct KeptWrite<'a> {
    file: u8,
    at: u64,
    bytes: &'a [u8],
}

/// The calls that a disk keeps, the oldest first. Its memory is taken when it is made.
#[derive(Drop)]
pub(crate) struct CallLog {
    calls: Vec<KeptCall>,
    bytes: Vec<u8>,
    room: Room,
}

impl Model for CallLog {
    ghost use Rattle.std.specs.Prelude.{◌≤◌, vec_len, vec_capacity};
    ghost use Rattle.disk_model.specs.CallLog.{CallLogState, calls_of, IsLog};

    ghost Value = { CallLogState };

    ghost view = { λ l. record {
      calls = calls_of l.calls.items l.bytes.items;
      most_calls = l.room.calls;
      most_bytes = l.room.bytes;
    } };

    ghost invariant = { λ l. IsLog l.calls.items l.bytes.items
        × (vec_len l.calls ≤ l.room.calls) × (l.room.calls ≤ vec_capacity l.calls)
        × (vec_len l.bytes ≤ l.room.bytes) × (l.room.bytes ≤ vec_capacity l.bytes) };
}

impl CallLog {
    /// A log of no call.
    pub(crate) fn new(alloc: Global, room: Room) -> Result<CallLog, AllocError>
        ensures { IfOk result (λ log. log
            ≡ record { calls = []; most_calls = room.calls; most_bytes = room.bytes }) }
    {
        Ok(CallLog {
            calls: Vec::with_capacity(alloc, room.calls as usize)?,
            bytes: Vec::with_capacity(alloc, room.bytes as usize)?,
            room,
        })
    }

    /// Whether no call more has room.
    pub(crate) fn is_full(&self) -> bool
        ensures { IsTrue result ↔ (self.now.most_calls ≤ length self.now.calls) }
    {
        self.room.calls as usize <= self.calls.len()
    }

    /// Whether one more call has room, with so many bytes.
    pub(crate) fn has_room(&self, len: usize) -> bool
        ensures { IsTrue result ↔ ((length self.now.calls < self.now.most_calls)
            × (bytes_kept self.now.calls + len ≤ self.now.most_bytes)) }
    {
        self.calls.len() < self.room.calls as usize
            && len <= self.room.bytes as usize - self.bytes.len()
    }

    /// Keeps a write that succeeded.
    pub(crate) fn wrote(&mut self, file: u8, at: u64, bytes: &[u8])
        requires file { IsFile file }
        requires calls { length self.old.calls < self.old.most_calls }
        requires bytes { bytes_kept self.old.calls + length bytes.now ≤ self.old.most_bytes }
        ensures { self.new ≡ record self.old {
          calls = self.old.calls ++ Wrote file at bytes.now
              ∷ [];
        } }
    {
        let start = self.bytes.len();
        self.bytes.extend_from_slice(bytes).unwrap();
        self.calls
            .push(KeptCall::Wrote {
                file,
                at,
                start,
                len: bytes.len(),
            })
            .unwrap();
    }

    /// Keeps a write that failed by the plan.
    pub(crate) fn tore(&mut self, file: u8, at: u64, len: usize)
        requires file { IsFile file }
        requires room { length self.old.calls < self.old.most_calls }
        ensures { self.new ≡ record self.old { calls = self.old.calls ++ Tore file at len ∷ [] } }
    {
        self.calls.push(KeptCall::Tore { file, at, len }).unwrap();
    }

    /// Keeps a sync that succeeded.
    pub(crate) fn synced(&mut self, file: u8)
        requires file { IsFile file }
        requires room { length self.old.calls < self.old.most_calls }
        ensures { self.new ≡ record self.old { calls = self.old.calls ++ Synced file ∷ [] } }
    {
        self.calls.push(KeptCall::Synced { file }).unwrap();
    }

    /// How many calls are kept.
    pub(crate) fn count(&self) -> u32
        ensures { result ≡ length self.now.calls }
    {
        prove!(self.calls.len() <= self.room.calls as usize);
        self.calls.len() as u32
    }

    /// Puts this byte at each place of the files that is pending.
    pub(crate) fn fill(&self, files: &mut [PlainFile], pokes: &[PokeTimes], byte: u8)
        requires files { length files.old ≡ number_of_files }
        requires pokes { length pokes.now ≡ number_of_files }
        ensures rooms { rooms_of files.new ≡ rooms_of files.old }
        ensures bytes { (file place : ℕ)
            → contents files.new file place
            ≡ (if pending_since (contents pokes.now) self.now.calls file place && nat_lt place
            (length (file_of files.old file)) then byte else contents files.old file place) }
    {
        fill_pending(&self.calls, files, pokes, byte);
    }

    /// Lays over the files the bytes of each write that counts and that a later call synced.
    pub(crate) fn lay_synced(&self, files: &mut [PlainFile], pokes: &[PokeTimes])
        requires files { length files.old ≡ number_of_files }
        requires pokes { length pokes.now ≡ number_of_files }
        requires fits { AllByRecursion (FitsFile files.old) self.now.calls }
        ensures rooms { rooms_of files.new ≡ rooms_of files.old }
        ensures bytes { (file place : ℕ)
            → contents files.new file place
            ≡ synced_since (contents files.old) (contents pokes.now) self.now.calls file place }
    {
        lay_all(&self.calls, &self.bytes, files, pokes);
    }
}

// How many of the calls synced each file.
fn sync_counts(calls: &[KeptCall]) -> [usize; FILES]
    requires { All (λ call. IsFile (kept_file call)) calls.now }
    ensures { (file : ℕ) → slice_index result file ≡ sync_count calls.now file }
{
    let mut counts = [0; FILES];
    let mut i = calls.len();
    while i > 0 {
        i -= 1;
        count_sync(calls[i], &mut counts);
    }
    counts
}

// Counts a sync.
fn count_sync(call: KeptCall, counts: &mut [usize; FILES])
    requires call { IsFile (kept_file call) }
    requires counts { (file : ℕ) → slice_index counts.old file < 2 ^ 64 - 1 }
    ensures { (file : ℕ) → slice_index counts.new file
        ≡ (if kept_syncs call file then 1 else 0) + slice_index counts.old file }
{
    if let KeptCall::Synced { file } = call {
        counts[file as usize] += 1;
    }
}

// Lays over the files the bytes of each write that counts and that a later call synced.
fn lay_all(calls: &[KeptCall], bytes: &[u8], files: &mut [PlainFile], pokes: &[PokeTimes])
    requires calls { All (λ call. IsFile (kept_file call)) calls.now }
    requires within { AllByRecursion (IsKeptWithin (length bytes.now)) calls.now }
    requires fits { AllByRecursion (FitsFile files.old) (calls_of calls.now bytes.now) }
    requires files { length files.old ≡ number_of_files }
    requires pokes { length pokes.now ≡ number_of_files }
    ensures rooms { rooms_of files.new ≡ rooms_of files.old }
    ensures bytes { (file place : ℕ)
        → contents files.new file place
        ≡ synced_since (contents files.old) (contents pokes.now) (calls_of calls.now bytes.now) file
        place }
{
    let mut counts = sync_counts(calls);
    for i in 0..calls.len() {
        lay_call(calls[i], i, bytes, &mut counts, files, pokes);
    }
}

// Lays the bytes of a write over its file where it counts and a later call syncs it, or takes a
// sync off the count.
fn lay_call(
    call: KeptCall,
    number: usize,
    bytes: &[u8],
    counts: &mut [usize; FILES],
    files: &mut [PlainFile],
    pokes: &[PokeTimes],
)
    requires within { IsKeptWithin (length bytes.now) call }
    requires fits { FitsFile files.old (call_of bytes.now call) }
    requires files { length files.old ≡ number_of_files }
    requires pokes { length pokes.now ≡ number_of_files }
    requires counts { (file : ℕ) → IsTrue (kept_syncs call file) → 0 < slice_index counts.old file }
    ensures counts { (file : ℕ) → slice_index counts.old file
        ≡ (if kept_syncs call file then 1 else 0) + slice_index counts.new file }
    ensures rooms { rooms_of files.new ≡ rooms_of files.old }
    ensures bytes { (file place : ℕ)
        → contents files.new file place
        ≡ (if nat_lt 0 (slice_index counts.new file) && nat_le
        (contents pokes.now file place) number
        then laid (call_of bytes.now call) (contents files.old) file place
        else contents files.old file place) }
{
    match call {
        KeptCall::Wrote {
            file,
            at,
            start,
            len,
        } => {
            let bytes = &bytes[start..start + len];
            lay_write(KeptWrite { file, at, bytes }, number, counts, files, pokes)
        }
        KeptCall::Tore { .. } => {}
        KeptCall::Synced { file } => counts[file as usize] -= 1,
    }
}

// Lays the bytes of a write over its file, where it counts and a later call syncs the file.
fn lay_write(
    write: KeptWrite<'_>,
    number: usize,
    counts: &[usize; FILES],
    files: &mut [PlainFile],
    pokes: &[PokeTimes],
)
    requires file { IsFile write.file }
    requires fits { write.at + length write.bytes.now
        ≤ length (file_of files.old write.file) }
    requires files { length files.old ≡ number_of_files }
    requires pokes { length pokes.now ≡ number_of_files }
    ensures rooms { rooms_of files.new ≡ rooms_of files.old }
    ensures bytes { (other place : ℕ)
        → contents files.new other place
        ≡ (if nat_lt 0 (slice_index counts.now other) && nat_le
        (contents pokes.now other place) number
        then laid (Wrote write.entry.file write.entry.at write.entry.bytes.now)
        (contents files.old) other place
        else contents files.old other place) }
{
    let KeptWrite { file, at, bytes } = write;
    if counts[file as usize] > 0 {
        files[file as usize].lay(at as usize, bytes, &pokes[file as usize], number);
    }
}

// Fills each range that no later call synced, where its call counts, from the newest call to the
// oldest.
fn fill_pending(calls: &[KeptCall], files: &mut [PlainFile], pokes: &[PokeTimes], byte: u8)
    requires calls { All (λ call. IsFile (kept_file call)) calls.now }
    requires files { length files.old ≡ number_of_files }
    requires pokes { length pokes.now ≡ number_of_files }
    ensures rooms { rooms_of files.new ≡ rooms_of files.old }
    ensures bytes { (file place : ℕ)
        → contents files.new file place
        ≡ (if kept_pending (drop (contents pokes.now file place) calls.now) file place && nat_lt
        place (length (file_of files.old file)) then byte else contents files.old file place) }
{
    let mut synced = [false; FILES];
    let mut i = calls.len();
    while i > 0 {
        i -= 1;
        fill_call(calls[i], i, &mut synced, files, pokes, byte);
    }
}

// Fills the range of a kept call where it counts and no later call synced its file, or notes its
// sync.
fn fill_call(
    call: KeptCall,
    number: usize,
    synced: &mut [bool; FILES],
    files: &mut [PlainFile],
    pokes: &[PokeTimes],
    byte: u8,
)
    requires call { IsFile (kept_file call) }
    requires files { length files.old ≡ number_of_files }
    requires pokes { length pokes.now ≡ number_of_files }
    ensures synced { (file : ℕ) → slice_index_or synced.new file false
        ≡ (kept_syncs call file || slice_index_or synced.old file false) }
    ensures rooms { rooms_of files.new ≡ rooms_of files.old }
    ensures bytes { (file place : ℕ)
        → contents files.new file place
        ≡ (if ((kept_covers call file place && not (slice_index_or synced.old file false)) && nat_le
        (contents pokes.now file place) number) && nat_lt place (length (file_of files.old file))
        then byte else contents files.old file place) }
{
    match call {
        KeptCall::Wrote { file, at, len, .. } => {
            let range = FileRange { file, at, len };
            fill_range(range, number, synced, files, pokes, byte)
        }
        KeptCall::Tore { file, at, len } => {
            let range = FileRange { file, at, len };
            fill_range(range, number, synced, files, pokes, byte)
        }
        KeptCall::Synced { file } => synced[file as usize] = true,
    }
}

// Fills a range of a file where its call counts and no later call synced the file.
fn fill_range(
    range: FileRange,
    number: usize,
    synced: &[bool; FILES],
    files: &mut [PlainFile],
    pokes: &[PokeTimes],
    byte: u8,
)
    requires file { IsFile range.file }
    requires files { length files.old ≡ number_of_files }
    requires pokes { length pokes.now ≡ number_of_files }
    ensures rooms { rooms_of files.new ≡ rooms_of files.old }
    ensures bytes { (other place : ℕ)
        → contents files.new other place
        ≡ (if ((in_range range.file range.at range.len other place && not
        (slice_index_or synced.now other false)) && nat_le (contents pokes.now other place) number)
        && nat_lt place (length (file_of files.old other))
        then byte else contents files.old other place) }
{
    let FileRange { file, at, len } = range;
    if synced[file as usize] {
        return;
    }
    files[file as usize].fill(at as usize, len, byte, &pokes[file as usize], number);
}
