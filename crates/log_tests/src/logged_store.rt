//! Recoveries and checkpoints over a disk in memory, whose log and records are written here byte by
//! byte.
use crate::quiet_disk::{QuietDisk, plan};
use disk_model::{Crash, Disk, Room};
use rec_bytes::{Key, LOG, META, NAMES, NODES, Rec, Shape};
use record_file::read_record;
use std::alloc::{AllocError, Global};
use std::process::Abort;
use std::test::Fail;

/// The shape that `OWN` says.
pub(crate) const SHAPE: Shape = Shape {
    threshold: 50,
    limit: 16,
};

/// The fields of the store's own record: the mark, the version 1, the threshold and the limit.
const OWN: &[u8] = b"GRS1\x01\0\x32\0\x10\0\0\0";

pub(crate) const ROOM: Room = Room {
    calls: 64,
    bytes: 4_096,
};

/// The meta record of a file in which so many records were given out, and none is free.
fn meta_rec(count: u8) -> Rec {
    let mut rec = Rec::ZEROS;
    rec.bytes[0] = count;
    rec.bytes[4..8].fill(0xff);
    rec.bytes[8] = count;
    rec
}

/// A log of two entries, at the places 0 and 141. After the second stands a closed gate, at 351,
/// over what an older entry left there: its count, and a record of the node 9.
fn log_bytes(alloc: Global) -> Result<Vec<u8>, AllocError> {
    let pieces: [&[u8]; 15] = [
        b"\x01\x02\0",
        b"\0\x01\0\0\0",
        &meta_rec(1).bytes,
        b"\x01\0\0\0\0",
        &[3; 64],
        b"\x01\x03\0",
        b"\0\x01\0\0\0",
        &meta_rec(2).bytes,
        b"\x01\0\0\0\0",
        &[5; 64],
        b"\x06\0\0\0\0",
        &[7; 64],
        b"\0\x01\0",
        b"\x01\x09\0\0\0",
        &[9; 64],
    ];
    let mut bytes = Vec::new(alloc);
    for piece in pieces {
        bytes.extend_from_slice(piece)?;
    }
    Ok(bytes)
}

/// The records that the entries have, each as the last one has it.
pub(crate) fn logged() -> [(Key, Rec); 3] {
    [
        (Key { file: META, id: 1 }, meta_rec(2)),
        (Key { file: NODES, id: 0 }, Rec { bytes: [5; 64] }),
        (Key { file: NAMES, id: 0 }, Rec { bytes: [7; 64] }),
    ]
}

/// A disk in which all calls from the stop on fail, with what a loss of power leaves of this one.
pub(crate) fn left_of(
    alloc: Global,
    disk: &QuietDisk,
    choice: Crash,
    stop: Option<u64>,
) -> Result<QuietDisk, AllocError> {
    disk.after_crash(alloc, choice, ROOM, plan(alloc, &[], stop)?)
}

/// A disk of zeros.
pub(crate) fn blank_disk(alloc: Global) -> Result<QuietDisk, AllocError> {
    QuietDisk::new(alloc, ROOM, plan(alloc, &[], None)?)
}

/// A store whose log has the entries. In their files the meta record of the nodes is out of range,
/// and the node 0 is an old one.
pub(crate) fn logged_store(rt: &impl Abort, alloc: Global) -> Result<QuietDisk, Fail> {
    let mut disk = blank_disk(alloc)?;
    disk.write(META, 0, OWN)?;
    for file in 1..7 {
        disk.write(META, 64 * file, &meta_rec(0).bytes)?;
    }
    disk.write(META, 64, b"\x11")?;
    disk.write(NODES, 0, &[2; 64])?;
    let log = log_bytes(alloc)?;
    assert!(rt; log.len() < 4_096);
    disk.write(LOG, 0, &log)?;
    Ok(disk)
}

/// Whether no entry is open, each record is as the last entry has it, and the older entry's node
/// isn't there.
pub(crate) fn is_recovered(rt: &impl Abort, disk: &mut QuietDisk) -> Result<bool, Fail> {
    let mut gate = [1];
    disk.read(LOG, 0, &mut gate)?;
    let mut right = gate[0] != 1;
    for (key, rec) in logged() {
        assert!(rt; key.is_valid());
        right = right && read_record(disk, key)? == rec;
    }
    let older = read_record(disk, Key { file: NODES, id: 9 })?;
    Ok(right && older == Rec::ZEROS)
}
