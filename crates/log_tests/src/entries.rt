//! What stands in the log, and the gate that is closed.
ghost use Rattle.std.specs.Prelude.{◌≤◌, length};

use crate::quiet_disk::{QuietDisk, plan};
use disk_model::{Disk, Room};
use fault_count::Failed;
use rec_bytes::{Key, LOG, NODES, Rec};
use redo_log::{EntryAnswer, LAST_PLACE, LogReader, entry_at, reset, write_at};
use std::alloc::{AllocError, Global};
use std::test::Fail;

const ROOM: Room = Room {
    calls: 256,
    bytes: 2_048,
};

// A disk of zeros, which stops at this call.
fn disk_of(alloc: Global, stop: Option<u64>) -> Result<QuietDisk, AllocError> {
    QuietDisk::new(alloc, ROOM, plan(alloc, &[], stop)?)
}

fn key(file: u8, id: u32) -> Key {
    Key { file, id }
}

// Writes an entry's gate, its count, and for each key the key and the first byte of its record,
// which is its index.
fn put_entry(
    disk: &mut QuietDisk,
    place: u64,
    gate: u8,
    count: u16,
    keys: &[Key],
) -> Result<(), Failed>
    requires place { place ≤ 1048575 }
    requires few { length keys.now ≤ 100 }
{
    let [low, high] = count.to_le_bytes();
    disk.write(LOG, place, &[gate, low, high])?;
    for (index, key) in keys.iter().enumerate() {
        let [a, b, c, d] = key.id.to_le_bytes();
        let at = place + 3 + 69 * index as u64;
        disk.write(LOG, at, &[key.file, a, b, c, d, index as u8])?;
    }
    Ok(())
}

#[test]
fn tells_what_stands_at_a_place(rt: HostRuntime) -> Result<(), Fail> {
    let damaged = |place| EntryAnswer::Damaged { place };
    let cases: [(&str, u64, u8, u16, &[Key], EntryAnswer); 15] = [
        ("a closed gate", 0, 0, 1, &[key(1, 5)], EntryAnswer::End),
        (
            "another closed gate",
            0,
            7,
            1,
            &[key(1, 5)],
            EntryAnswer::End,
        ),
        (
            "one record",
            0,
            1,
            1,
            &[key(1, 5)],
            EntryAnswer::Entry { count: 1, next: 72 },
        ),
        (
            "the greatest key",
            9,
            1,
            1,
            &[key(8, 0x1ff_ffff)],
            EntryAnswer::Entry { count: 1, next: 81 },
        ),
        (
            "three",
            0,
            1,
            3,
            &[key(1, 7), key(1, 8), key(2, 0)],
            EntryAnswer::Entry {
                count: 3,
                next: 210,
            },
        ),
        ("no record", 0, 1, 0, &[], damaged(0)),
        ("too many", 0, 1, 2_049, &[], damaged(0)),
        ("the log's file", 0, 1, 1, &[key(7, 5)], damaged(0)),
        ("no file", 0, 1, 1, &[key(9, 5)], damaged(0)),
        ("no number", 0, 1, 1, &[key(1, 1 << 25)], damaged(0)),
        ("a key twice", 0, 1, 2, &[key(1, 5), key(1, 5)], damaged(0)),
        ("falling keys", 0, 1, 2, &[key(2, 0), key(1, 5)], damaged(0)),
        (
            "falling at the end",
            3,
            1,
            3,
            &[key(1, 1), key(1, 3), key(1, 2)],
            damaged(3),
        ),
        (
            "up to the end of the log",
            1_048_503,
            1,
            1,
            &[key(1, 5)],
            EntryAnswer::Entry {
                count: 1,
                next: LAST_PLACE,
            },
        ),
        (
            "past the end of the log",
            1_048_504,
            1,
            1,
            &[key(1, 5)],
            damaged(1_048_504),
        ),
    ];
    for (name, place, gate, count, keys, wanted) in cases {
        assert!(rt; place <= LAST_PLACE && keys.len() <= 3);
        let mut disk = disk_of(rt.alloc(), None)?;
        put_entry(&mut disk, place, gate, count, keys)?;
        assert!(rt; entry_at(&mut disk, place) == wanted, "{name}");
    }
    Ok(())
}

#[test]
fn gives_the_record_of_an_index(rt: HostRuntime) -> Result<(), Fail> {
    let keys = [key(1, 5), key(3, 0x0b_0a09)];
    let mut wanted = Rec::ZEROS;
    wanted.set_byte(0, 1);
    let mut disk = disk_of(rt.alloc(), None)?;
    put_entry(&mut disk, 7, 1, 2, &keys)?;
    assert!(rt; write_at(&mut disk, 7, 1)? == (keys[1], wanted));
    assert!(rt; write_at(&mut disk, 7, 0)? == (keys[0], Rec::ZEROS));
    Ok(())
}

#[test]
fn a_reader_makes_one_call_for_a_piece(rt: HostRuntime) -> Result<(), Fail> {
    // Two entries of one record each are written by the calls 1 to 4, so a second read would be the
    // call 6, at which the disk stops.
    let mut disk = disk_of(rt.alloc(), Some(6))?;
    put_entry(&mut disk, 0, 1, 1, &[key(1, 5)])?;
    put_entry(&mut disk, 72, 1, 1, &[key(2, 6)])?;
    let mut reader = LogReader::new();
    assert!(rt; reader.entry_at(&mut disk, 0) == EntryAnswer::Entry { count: 1, next: 72 });
    assert!(rt; reader.write_at(&mut disk, 0, 0)? == (key(1, 5), Rec::ZEROS));
    assert!(rt;
        reader.entry_at(&mut disk, 72)
            == EntryAnswer::Entry {
                count: 1,
                next: 144
            }
    );
    assert!(rt; reader.write_at(&mut disk, 72, 0)? == (key(2, 6), Rec::ZEROS));
    assert!(rt; reader.entry_at(&mut disk, 144) == EntryAnswer::End);
    assert!(rt; reader.entry_at(&mut disk, 4_096) == EntryAnswer::Disk);
    assert!(rt; entry_at(&mut disk, 0) == EntryAnswer::Disk);
    assert!(rt; write_at(&mut disk, 0, 0) == Err(Failed));
    Ok(())
}

#[test]
fn reads_an_entry_of_several_pieces(rt: HostRuntime) -> Result<(), Fail> {
    let mut disk = disk_of(rt.alloc(), None)?;
    let mut keys = [key(1, 0); 100];
    for index in 0..100 {
        keys[index].id = index as u32;
    }
    put_entry(&mut disk, 0, 1, 100, &keys)?;
    let mut reader = LogReader::new();
    assert!(rt;
        reader.entry_at(&mut disk, 0)
            == EntryAnswer::Entry {
                count: 100,
                next: 6_903
            }
    );
    assert!(rt; reader.write_at(&mut disk, 0, 99)?.0 == key(1, 99));
    assert!(rt; reader.write_at(&mut disk, 0, 0)?.0 == key(1, 0));
    keys[80].id = 79;
    put_entry(&mut disk, 0, 1, 100, &keys)?;
    assert!(rt; entry_at(&mut disk, 0) == EntryAnswer::Damaged { place: 0 });
    Ok(())
}

#[test]
fn closes_an_open_gate_alone(rt: HostRuntime) -> Result<(), Fail> {
    let entry = EntryAnswer::Entry { count: 1, next: 72 };
    for (gate, before, after) in [
        (1, entry, 0),
        (0, EntryAnswer::End, 0),
        (7, EntryAnswer::End, 7),
    ] {
        let mut disk = disk_of(rt.alloc(), None)?;
        disk.write(LOG, 0, &[gate, 1, 0, NODES, 5])?;
        assert!(rt; entry_at(&mut disk, 0) == before, "gate {gate}");
        reset(&mut disk)?;
        let mut bytes = [9; 5];
        disk.read(LOG, 0, &mut bytes)?;
        assert!(rt; bytes == [after, 1, 0, NODES, 5], "gate {gate}");
        assert!(rt; entry_at(&mut disk, 0) == EntryAnswer::End, "gate {gate}");
    }
    Ok(())
}
