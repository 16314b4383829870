ghost use Rattle.std.specs.Prelude.{◌≡◌, ◌↔◌, [], None, OnOk, IsTrue, false};
ghost use Rattle.fault_count.specs.Cause.{HasCause};
ghost use Rattle.disk_model.specs.Contents.{Files};
ghost use Rattle.disk_model.specs.Disk.{Elapses};
ghost use Rattle.rec_bytes.specs.declared.key.Key.{Key as AKey};
ghost use Rattle.rec_bytes.specs.Key.{IsKey, key_eq};
ghost use Rattle.rec_bytes.specs.Pairs.{FindsPut, find_pair};
ghost use Rattle.rec_bytes.specs.Space.{laid_over, put};
ghost use Rattle.record_file.specs.Records.{IsTornInRecords, SameButRecords, record_at};
ghost use Rattle.record_file.specs.Runs.{Takes};

use crate::place::place_of;
use disk_model::Disk;
use rec_bytes::{DiskFault, Key, META, RECORD_BYTES, Rec};
use std::marker::Model;

/// How many records a run has at most.
const MOST_RECORDS: usize = 64;

/// Records that stand one behind the other in a file and wait to be written, by one call of the
/// disk. Contracts see the pairs of them.
#[derive(Drop)]
pub struct Run {
    first: Key,
    count: usize,
    bytes: [u8; MOST_RECORDS * RECORD_BYTES],
}

impl Model for Run {
    ghost use Rattle.std.specs.Prelude.{◌≤◌};
    ghost use Rattle.rec_bytes.specs.Key.{IsKey};
    ghost use Rattle.rec_bytes.specs.Pairs.{Pairs};
    ghost use Rattle.record_file.specs.Runs.{run_pairs, run_records};

    ghost Value = { Pairs };

    ghost view = { λ r. run_pairs r.first r.bytes r.count };

    ghost invariant = { λ r. IsKey r.first × (r.count ≤ run_records) };
}

impl Run {
    /// No records.
    pub fn new() -> Run
        ensures { result ≡ [] }
    {
        Run {
            first: Key { file: META, id: 0 },
            count: 0,
            bytes: [0; MOST_RECORDS * RECORD_BYTES],
        }
    }

    /// Puts a record over what is read and what waits. Where it doesn't stand behind those that
    /// wait, or 64 of them do, they are written first.
    pub fn put<D: Disk>(&mut self, disk: &mut D, key: Key, rec: Rec) -> Result<(), DiskFault>
        requires { IsKey key }
        ensures written { D.tells_reads
            → OnOk result (laid_over (record_at (D.reads disk.new)) self.new
            ≡ put (laid_over (record_at (D.reads disk.old)) self.old) key rec) }

        // Where it stands behind those that wait, the disk is left alone.
        ensures joins { Takes self.old key → disk.new ≡ disk.old }

        // None waits but those from before, and this one.
        ensures waits { (q : AKey) → find_pair self.old q ≡ None → key_eq q key ≡ false
            → find_pair self.new q ≡ None }

        ensures elsewhere { SameButRecords self.old (D.reads disk.old) (D.reads disk.new) }
        ensures crash { D.tells_images → (image : Files) → D.may_leave disk.new image
            → IsTornInRecords (D.may_leave disk.old) self.old image }
        ensures time { D.tells_images
            → Elapses (D.moment disk.old) (D.moment disk.new) (D.left_since disk.old)
            (D.left_since disk.new) (D.may_leave disk.new) }
        ensures cause { HasCause (D.faults disk.old) (D.faults disk.new) result }
    {
        if self.takes(key) {
            self.push(key, rec);
            return Ok(());
        }
        self.write(disk)?;
        self.push(key, rec);
        Ok(())
    }

    /// Writes those that wait. Until a sync of their file succeeds, an image has any bytes there.
    pub fn write<D: Disk>(&mut self, disk: &mut D) -> Result<(), DiskFault>
        ensures written { D.tells_reads
            → OnOk result (record_at (D.reads disk.new)
            ≡ laid_over (record_at (D.reads disk.old)) self.old) }
        ensures emptied { self.new ≡ [] }
        ensures elsewhere { SameButRecords self.old (D.reads disk.old) (D.reads disk.new) }
        ensures crash { D.tells_images → (image : Files) → D.may_leave disk.new image
            → IsTornInRecords (D.may_leave disk.old) self.old image }
        ensures time { D.tells_images
            → Elapses (D.moment disk.old) (D.moment disk.new) (D.left_since disk.old)
            (D.left_since disk.new) (D.may_leave disk.new) }
        ensures cause { HasCause (D.faults disk.old) (D.faults disk.new) result }
    {
        let count = self.count;
        self.count = 0;
        if count == 0 {
            return Ok(());
        }
        let at = place_of(self.first);
        disk.write(self.first.file, at, &self.bytes[..count * RECORD_BYTES])
    }

    // Whether a record of this key may stand behind those that wait.
    fn takes(&self, key: Key) -> bool
        ensures { IsTrue result ↔ Takes self.now key }
    {
        self.count == 0
            || (self.count < MOST_RECORDS
                && key.file == self.first.file
                && key.id == self.first.id + self.count as u32)
    }

    // Puts a record behind those that wait.
    fn push(&mut self, key: Key, rec: Rec)
        requires key { IsKey key }
        requires takes { Takes self.old key }
        ensures { FindsPut self.old self.new key rec }
    {
        if self.count == 0 {
            self.first = key;
        }
        let start = self.count * RECORD_BYTES;
        self.bytes[start..start + RECORD_BYTES].copy_from_slice(&rec.bytes);
        self.count += 1;
    }
}
