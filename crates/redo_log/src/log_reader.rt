ghost use Rattle.std.specs.Prelude.{
  ◌≡◌,
  ◌≢◌,
  ◌≤◌,
  ◌<◌,
  ◌+◌,
  ◌^◌,
  ◌↔◌,
  [],
  length,
  None,
  Some,
  IfOk,
  OnOk,
  IsTrue,
};
ghost use Rattle.std.specs.List.{slice_get};
ghost use Rattle.fault_count.specs.Cause.{HasCause, Rose};
ghost use Rattle.disk_model.specs.Contents.{Files};
ghost use Rattle.disk_model.specs.Spans.{OnlyReads};
ghost use Rattle.redo_log.specs.Entries.{
  count_at,
  entry_at,
  log_bytes,
  write_at,
  write_place,
  writes_from,
};
ghost use Rattle.redo_log.specs.Reading.{
  AreRisingAbove,
  Covers,
  HasContent,
  IsEntrySize,
  IsInLog,
  IsNextKey,
  IsPieceOf,
  KeepsContent,
  Tells,
};

use crate::decoding::{head_of, key_of, write_of};
use crate::entry::{
    HEAD_BYTES, KEY_BYTES, LAST_PLACE, PIECE_BYTES, WRITE_BYTES, fits, place_of_write,
};
use crate::entry_answer::EntryAnswer;
use disk_model::Disk;
use fault_count::Failed;
use rec_bytes::{DiskFault, Key, LOG, MOST_WRITES, Rec};
use std::marker::Model;

/// Reads the log in pieces of 4 KiB, and keeps the last, so that reading entry after entry costs
/// about one device call for each piece. Contracts see the kept bytes and their place.
#[derive(Drop)]
pub struct LogReader {
    start: u64,
    len: usize,
    bytes: [u8; PIECE_BYTES],
}

impl Model for LogReader {
    ghost use Rattle.std.specs.Prelude.{◌≤◌, take};
    ghost use Rattle.redo_log.specs.declared.entry.TheConstants.{PIECE_BYTES};
    ghost use Rattle.redo_log.specs.Reading.{Piece};

    ghost Value = { Piece };

    ghost view = { λ r. record { start = r.start; bytes = take r.len r.bytes } };

    ghost invariant = { λ r. r.len ≤ PIECE_BYTES };
}

impl LogReader {
    /// A reader that keeps nothing yet.
    pub fn new() -> LogReader
        ensures { result ≡ record { start = 0; bytes = [] } }
    {
        LogReader {
            start: 0,
            len: 0,
            bytes: [0; PIECE_BYTES],
        }
    }

    /// What stands at a place of the log. It holds of the disk as it is read, as long as nothing
    /// was written to the log since the reader was made.
    pub fn entry_at<D: Disk>(&mut self, disk: &mut D, place: u64) -> EntryAnswer
        requires { place ≤ 1048575 }
        ensures tells { D.tells_reads → IsPieceOf (D.reads disk.old) self.old
            → Tells (D.reads disk.old) place result }
        ensures keeps { D.tells_reads → IsPieceOf (D.reads disk.old) self.old
            → IsPieceOf (D.reads disk.new) self.new }
        ensures in_log { IsInLog place result }
        ensures only_reads { OnlyReads D.Disk disk.old disk.new }
        ensures cause { result ≡ EntryAnswer.Disk → Rose (D.faults disk.old) (D.faults disk.new) }
        ensures later { D.faults disk.old ≤ D.faults disk.new }
    {
        match self.answer_at(disk, place) {
            Ok(answer) => answer,
            Err(Failed) => EntryAnswer::Disk,
        }
    }

    /// The record of this index in the entry at a place, with its key.
    pub fn write_at<D: Disk>(
        &mut self,
        disk: &mut D,
        place: u64,
        index: u16,
    ) -> Result<(Key, Rec), DiskFault>
        requires { place ≤ 1048575 }
        ensures bytes { D.tells_reads → IsPieceOf (D.reads disk.old) self.old
            → IfOk result (λ write. write ≡ write_at (D.reads disk.old) (write_place place index)) }
        ensures of_entry { D.tells_reads → IsPieceOf (D.reads disk.old) self.old
            → index < count_at (D.reads disk.old) place
            → IfOk result (λ write. slice_get (entry_at (D.reads disk.old) place) index
            ≡ Some write) }
        ensures keeps { D.tells_reads → IsPieceOf (D.reads disk.old) self.old
            → IsPieceOf (D.reads disk.new) self.new }
        ensures only_reads { OnlyReads D.Disk disk.old disk.new }
        ensures cause { HasCause (D.faults disk.old) (D.faults disk.new) result }
    {
        let at = place_of_write(place, index);
        self.cover(disk, at, WRITE_BYTES)?;
        Ok(write_of(self.bytes_at(at, WRITE_BYTES)))
    }

    // What stands at a place, or that the disk failed.
    fn answer_at<D: Disk>(&mut self, disk: &mut D, place: u64) -> Result<EntryAnswer, Failed>
        requires { place ≤ 1048575 }
        ensures tells { D.tells_reads → (content : Files)
            → HasContent content (D.reads disk.old) self.old → IfOk result (Tells content place) }
        ensures in_log { IfOk result (IsInLog place) }
        ensures known { IfOk result (λ answer. answer ≢ EntryAnswer.Disk) }
        ensures keeps { D.tells_reads
            → KeepsContent (D.reads disk.old) (D.reads disk.new) self.old self.new }
        ensures only_reads { OnlyReads D.Disk disk.old disk.new }
        ensures cause { HasCause (D.faults disk.old) (D.faults disk.new) result }
    {
        self.cover(disk, place, HEAD_BYTES as usize)?;
        let head = head_of(self.bytes_at(place, HEAD_BYTES as usize));
        if !head.is_open {
            return Ok(EntryAnswer::End);
        }
        if !is_entry_size(place, head.count) {
            return Ok(EntryAnswer::Damaged { place });
        }
        if !self.has_entry_keys(disk, place, head.count)? {
            return Ok(EntryAnswer::Damaged { place });
        }
        Ok(EntryAnswer::Entry {
            count: head.count,
            next: place + HEAD_BYTES + (WRITE_BYTES * head.count as usize) as u64,
        })
    }

    // Whether the keys of the entry at a place rise, and a store can have each. One read covers an
    // entry that is no longer than a piece.
    fn has_entry_keys<D: Disk>(
        &mut self,
        disk: &mut D,
        place: u64,
        count: u16,
    ) -> Result<bool, Failed>
        requires { place ≤ 1048575 }
        ensures keys { D.tells_reads → (content : Files)
            → HasContent content (D.reads disk.old) self.old
            → IfOk result (λ rising. IsTrue rising
            ↔ AreRisingAbove None (writes_from content (place + 3) count)) }
        ensures keeps { D.tells_reads
            → KeepsContent (D.reads disk.old) (D.reads disk.new) self.old self.new }
        ensures only_reads { OnlyReads D.Disk disk.old disk.new }
        ensures cause { HasCause (D.faults disk.old) (D.faults disk.new) result }
    {
        let len = HEAD_BYTES as usize + WRITE_BYTES * count as usize;
        self.cover(disk, place, len.min(PIECE_BYTES))?;
        self.has_rising_keys(disk, place + HEAD_BYTES, count)
    }

    // Whether the kept bytes have these.
    fn covers(&self, at: u64, len: usize) -> bool
        ensures { IsTrue result ↔ Covers self.now at len }
    {
        self.start <= at && len <= self.len && at - self.start <= (self.len - len) as u64
    }

    // These of the kept bytes.
    fn bytes_at(&self, at: u64, len: usize) -> &[u8]
        requires { Covers self.now at len }
        ensures len { length result.now ≡ len }
        ensures bytes { (content : Files) → IsPieceOf content self.now
            → result.now ≡ log_bytes content at len }
    {
        let from = (at - self.start) as usize;
        &self.bytes[from..from + len]
    }

    // Keeps these bytes of the log in the place of those before. After a failure it keeps none.
    fn fill<D: Disk>(&mut self, disk: &mut D, at: u64, len: usize) -> Result<(), Failed>
        requires place { at ≤ 2 ^ 32 }
        requires piece { len ≤ PIECE_BYTES }
        ensures covers { OnOk result (Covers self.new at len) }
        ensures keeps { D.tells_reads
            → KeepsContent (D.reads disk.old) (D.reads disk.new) self.old self.new }
        ensures only_reads { OnlyReads D.Disk disk.old disk.new }
        ensures cause { HasCause (D.faults disk.old) (D.faults disk.new) result }
    {
        self.len = 0;
        disk.read(LOG, at, &mut self.bytes[..len])?;
        self.start = at;
        self.len = len;
        Ok(())
    }

    // Has these bytes of the log among the kept ones, by one read where they aren't.
    fn cover<D: Disk>(&mut self, disk: &mut D, at: u64, len: usize) -> Result<(), Failed>
        requires place { at ≤ 2 ^ 32 }
        requires piece { len ≤ PIECE_BYTES }
        ensures covers { OnOk result (Covers self.new at len) }
        ensures keeps { D.tells_reads
            → KeepsContent (D.reads disk.old) (D.reads disk.new) self.old self.new }
        ensures only_reads { OnlyReads D.Disk disk.old disk.new }
        ensures cause { HasCause (D.faults disk.old) (D.faults disk.new) result }
    {
        if self.covers(at, len) {
            return Ok(());
        }
        self.fill(disk, at, piece_len(at, len))
    }

    // The key of the record that stands at a place.
    fn key_at<D: Disk>(&mut self, disk: &mut D, at: u64) -> Result<Key, Failed>
        requires place { at ≤ 2 ^ 32 }
        ensures key { D.tells_reads → (content : Files)
            → HasContent content (D.reads disk.old) self.old
            → IfOk result (λ key. key ≡ (write_at content at).0) }
        ensures keeps { D.tells_reads
            → KeepsContent (D.reads disk.old) (D.reads disk.new) self.old self.new }
        ensures only_reads { OnlyReads D.Disk disk.old disk.new }
        ensures cause { HasCause (D.faults disk.old) (D.faults disk.new) result }
    {
        self.cover(disk, at, KEY_BYTES)?;
        Ok(key_of(self.bytes_at(at, KEY_BYTES)))
    }

    // Whether the keys of so many records from a place on rise, and a store can have each.
    fn has_rising_keys<D: Disk>(
        &mut self,
        disk: &mut D,
        start: u64,
        count: u16,
    ) -> Result<bool, Failed>
        requires { start ≤ 1048578 }
        ensures keys { D.tells_reads → (content : Files)
            → HasContent content (D.reads disk.old) self.old
            → IfOk result (λ rising. IsTrue rising
            ↔ AreRisingAbove None (writes_from content start count)) }
        ensures keeps { D.tells_reads
            → KeepsContent (D.reads disk.old) (D.reads disk.new) self.old self.new }
        ensures only_reads { OnlyReads D.Disk disk.old disk.new }
        ensures cause { HasCause (D.faults disk.old) (D.faults disk.new) result }
    {
        let mut last = None;
        for index in 0..count {
            let key = self.key_at(disk, start + (WRITE_BYTES * index as usize) as u64)?;
            if !is_next_key(last, key) {
                return Ok(false);
            }
            last = Some(key);
        }
        Ok(true)
    }
}

// Whether an entry of so many records can stand at a place.
fn is_entry_size(place: u64, count: u16) -> bool
    ensures { IsTrue result ↔ IsEntrySize place count }
{
    count > 0 && count as usize <= MOST_WRITES && fits(place, count as usize)
}

// How many bytes to read from a place on for this many of them: a piece, but for what lies past the
// log's room.
fn piece_len(at: u64, len: usize) -> usize
    requires { len ≤ PIECE_BYTES }
    ensures enough { len ≤ result }
    ensures piece { result ≤ PIECE_BYTES }
{
    let left = (LAST_PLACE + 1).saturating_sub(at);
    len.max(left.min(PIECE_BYTES as u64) as usize)
}

// Whether a store can have the key, and it is greater than the one before.
fn is_next_key(last: Option<Key>, key: Key) -> bool
    ensures { IsTrue result ↔ IsNextKey last key }
{
    key.is_valid() && last.is_none_or(|last| last < key)
}
