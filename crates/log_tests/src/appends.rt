//! Appends that are stopped, or fail, at each of their calls of the disk.
ghost use Rattle.std.specs.Prelude.{◌≡◌, ◌<◌, ◌^◌, length, IfOk};
ghost use Rattle.redo_log.specs.Entries.{IsEntryOf};

use crate::quiet_disk::{QuietDisk, plan};
use disk_model::{Crash, Disk, FaultPlan, Room};
use fault_count::Failed;
use rec_bytes::{Key, LOG, NODES, Rec, WriteSet};
use redo_log::{EntryAnswer, append, entry_at, write_at};
use std::alloc::{AllocError, Global};
use std::process::Abort;
use std::test::Fail;

const ROOM: Room = Room {
    calls: 64,
    bytes: 8_192,
};

// The places after the first entry and after the second.
const TAIL: u64 = 72;

const NEXT: u64 = 144;

// The write of one node.
fn writes_of(alloc: Global, id: u32) -> Result<WriteSet, AllocError>
    requires { id < 2 ^ 25 }
    ensures form { IfOk result (λ set. IsEntryOf set.pairs) }
    ensures one { IfOk result (λ set. length set.pairs ≡ 1) }
{
    let mut writes = WriteSet::new(alloc);
    let rec = Rec { bytes: [1; 64] };
    writes.put(Key { file: NODES, id }, rec)?;
    Ok(writes)
}

// A disk whose log has an entry, of the node 5. An old entry, of the node 7, stands where the
// second is to end. This takes the calls 1 to 6, so a second append makes the calls 7 to 10: its
// record is written and synced, and then its gate.
fn disk_with_entry(alloc: Global, plan: FaultPlan) -> Result<QuietDisk, Fail> {
    let mut disk = QuietDisk::new(alloc, ROOM, plan)?;
    disk.write(LOG, NEXT, &[1, 1, 0, NODES, 7])?;
    disk.sync(LOG)?;
    append(&mut disk, 0, &writes_of(alloc, 5)?)?;
    Ok(disk)
}

// The numbers of the nodes that the log's entries write, one an entry, and what stands after them.
fn log_of(disk: &mut QuietDisk) -> Result<([u32; 3], EntryAnswer), Fail> {
    let mut ids = [0; 3];
    let mut place = 0;
    for id in ids.iter_mut() {
        let EntryAnswer::Entry { next, .. } = entry_at(disk, place) else {
            break;
        };
        *id = write_at(disk, place, 0)?.0.id;
        place = next;
    }
    Ok((ids, entry_at(disk, place)))
}

// Stops the disk in each call of the second append, and in none, and lets it lose power then. The
// log that is left has the second entry where the stop came in the call `first` or later.
fn try_stops(rt: &impl Abort, alloc: Global, choice: Crash, first: u64) -> Result<(), Fail> {
    for stop in 7..12 {
        let mut disk = disk_with_entry(alloc, plan(alloc, &[], Some(stop))?)?;
        let answer = append(&mut disk, TAIL, &writes_of(alloc, 9)?);
        assert!(rt; answer.is_ok() == (stop > 10), "{choice:?} at call {stop}");
        let mut left = disk.after_crash(alloc, choice, ROOM, plan(alloc, &[], None)?)?;
        let second = if stop < first { 0 } else { 9 };
        assert!(rt;
            log_of(&mut left)? == ([5, second, 0], EntryAnswer::End),
            "{choice:?} at call {stop}"
        );
    }
    Ok(())
}

#[test]
fn a_stop_leaves_the_old_entries_or_one_more(rt: HostRuntime) -> Result<(), Fail> {
    // The crash, and the first call whose stop leaves the second entry. 11 is a call after the
    // append.
    let table = [
        (Crash::Old, 11),
        (Crash::New, 10),
        (Crash::Fill(0), 11),
        (Crash::Fill(1), 9),
        (Crash::Fill(7), 11),
        (Crash::Mixed(1), 11),
    ];
    for (choice, first) in table {
        try_stops(&rt, rt.alloc(), choice, first)?;
    }
    Ok(())
}

#[test]
fn a_call_that_fails_leaves_the_old_entries_or_one_more(rt: HostRuntime) -> Result<(), Fail> {
    for call in 7..11 {
        let mut disk = disk_with_entry(rt.alloc(), plan(rt.alloc(), &[call], None)?)?;
        let writes = writes_of(rt.alloc(), 9)?;
        assert!(rt;
            append(&mut disk, TAIL, &writes) == Err(Failed),
            "call {call}"
        );
        // Only the last sync comes after the gate.
        let second = if call < 10 { 0 } else { 9 };
        assert!(rt;
            log_of(&mut disk)? == ([5, second, 0], EntryAnswer::End),
            "call {call}"
        );
        if call < 10 {
            assert!(rt; append(&mut disk, TAIL, &writes) == Ok(NEXT), "call {call}");
            assert!(rt;
                log_of(&mut disk)? == ([5, 9, 0], EntryAnswer::End),
                "call {call}"
            );
        }
    }
    Ok(())
}
