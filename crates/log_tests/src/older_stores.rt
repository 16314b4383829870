//! Stores of older versions, which an opening brings to the newest one.
use crate::quiet_disk::QuietDisk;
use crate::stores::{byte_at, checkpoint, close, left_of, new_disk, older, open};
use disk_model::{Crash, Disk};
use rec_bytes::{
    INDEX, Key, LOG, Meta, NAMES, NODES, OWN_KEY, RELATIONSHIPS, Reads, Rec, meta_key,
};
use std::alloc::Global;
use std::process::Abort;
use std::test::Fail;

/// A disk with the store that an older version made, and has brought into its files. It stops at
/// this call.
fn older_disk(
    rt: &impl Abort,
    alloc: Global,
    version: u8,
    stop: Option<u64>,
) -> Result<QuietDisk, Fail> {
    let mut disk = new_disk(alloc, &[], None)?;
    let mut store = open(alloc, &mut disk)?;
    assert!(rt; checkpoint(rt, &mut store) == Ok(()));
    let _ = close(store);
    disk.poke_all(&older(version));
    Ok(left_of(alloc, &disk, Crash::New, stop)?)
}

/// Stops an opening of an older store at this call, and opens what this loss of power leaves. Says
/// whether the first opening came to its end.
fn try_raising(rt: &impl Abort, alloc: Global, choice: Crash, stop: u64) -> Result<bool, Fail> {
    let mut disk = older_disk(rt, alloc, 1, Some(stop))?;
    let opened = match open(alloc, &mut disk) {
        Ok(store) => {
            let _ = close(store);
            true
        }
        Err(_) => false,
    };
    let mut left = left_of(alloc, &disk, choice, None)?;
    let mut store = open(alloc, &mut left)?;
    let own = store.get(OWN_KEY).map(|rec| rec.short(4));
    assert!(rt; own == Ok(3), "{choice:?} at call {stop}");
    assert!(rt; store.meta(INDEX) == Meta::EMPTY);
    let _ = close(store);
    Ok(opened)
}

#[test]
fn a_stopped_raise_is_made_good(rt: HostRuntime) -> Result<(), Fail> {
    // An opening reads the meta records in call 13, and appends the entry in the calls 14 to 17.
    for choice in [Crash::Old, Crash::New, Crash::Fill(1)] {
        for stop in 1..19 {
            let opened = try_raising(&rt, rt.alloc(), choice, stop)?;
            assert!(rt; opened == (stop == 18), "{choice:?} at call {stop}");
        }
    }
    Ok(())
}

#[test]
fn an_older_store_is_raised_by_one_entry(rt: HostRuntime) -> Result<(), Fail> {
    for version in [1, 2] {
        let mut disk = older_disk(&rt, rt.alloc(), version, None)?;
        let _ = close(open(rt.alloc(), &mut disk)?);
        let mut head = [9; 14];
        disk.read(LOG, 0, &mut head)?;
        assert!(rt; head == [1, 2, 0, 0, 0, 0, 0, 0, 0x47, 0x52, 0x53, 0x31, 3, 0]);
        assert!(rt; byte_at(&rt, &mut disk, LOG, 141) == 0);
        // The next opening finds the newest version, and adds no entry.
        let _ = close(open(rt.alloc(), &mut disk)?);
        assert!(rt; byte_at(&rt, &mut disk, LOG, 0) == 0);
    }
    Ok(())
}

/// The bytes of the log that a program of version 1 left after its first line, `node person`, each
/// run of them at its place. All other bytes of its files are zeros.
const FIRST_LINE: &[(u64, &[u8])] = &[
    (0, b"\x01\x07"),
    (8, b"GRS1\x01\x002\x00\x00\x00\x10"),
    (73, b"\x01"),
    (81, b"\xff\xff\xff\xff"),
    (142, b"\x02"),
    (150, b"\xff\xff\xff\xff"),
    (211, b"\x03"),
    (219, b"\xff\xff\xff\xff"),
    (280, b"\x04"),
    (288, b"\xff\xff\xff\xff"),
    (349, b"\x05"),
    (357, b"\xff\xff\xff\xff"),
    (418, b"\x06"),
    (426, b"\xff\xff\xff\xff"),
    (486, b"\x01\x04\0\0\x01\0\0\0\x01\0\0\0\xff\xff\xff\xff\x01"),
    (559, b"\x06\0\0\0\x01\0\0\0\xff\xff\xff\xff\x01"),
    (627, b"\x01"),
    (632, b"\x01"),
    (640, b"\xff\xff\xff\xff\xff\xff\xff\xff"),
    (696, b"\x06"),
    (701, b"\x01\x06"),
    (709, b"person"),
];

#[test]
fn a_store_of_version_1_keeps_its_records(rt: HostRuntime) -> Result<(), Fail> {
    let mut disk = new_disk(rt.alloc(), &[], None)?;
    for (at, bytes) in FIRST_LINE {
        assert!(rt; *at < 1_024);
        disk.write(LOG, *at, bytes)?;
    }
    let mut store = open(rt.alloc(), &mut disk)?;
    let mut node = Rec::ZEROS;
    node.bytes[0] = 1;
    node.bytes[8..16].fill(255);
    let mut name = Rec::ZEROS;
    name.bytes[..2].copy_from_slice(&[1, 6]);
    name.bytes[8..14].copy_from_slice(b"person");
    for (key, rec) in [
        (Key { file: NODES, id: 0 }, node),
        (Key { file: NAMES, id: 0 }, name),
        (meta_key(RELATIONSHIPS), Meta::EMPTY.to_record()),
    ] {
        assert!(rt; key.is_valid());
        assert!(rt; store.get(key) == Ok(rec));
    }
    assert!(rt; store.get(OWN_KEY).map(|rec| rec.short(4)) == Ok(3));
    assert!(rt; store.meta(NODES).live == 1 && store.meta(NAMES).live == 1);
    let _ = close(store);
    Ok(())
}
