//! Disks that are refused, and disks over which a recovery has nothing to write.
use crate::logged_store::{SHAPE, blank_disk, logged_store};
use crate::quiet_disk::{QuietDisk, plan};
use disk_model::{Crash, Disk, Room};
use rec_bytes::{Damage, LOG, META, NODES};
use recovery::{Found, RecoverFault, recover};
use std::alloc::Global;
use std::process::Abort;
use std::test::Fail;

/// Room for no byte, so each write fails.
const NO_WRITES: Room = Room {
    calls: 64,
    bytes: 0,
};

/// Bytes that are put into a file, at a place.
type Patch = (u8, u64, &'static [u8]);

/// What a loss of power leaves of the disk with these bytes in it. No write to it succeeds.
fn patched(
    rt: &impl Abort,
    alloc: Global,
    mut disk: QuietDisk,
    patches: &[Patch],
) -> Result<QuietDisk, Fail> {
    for (file, at, bytes) in patches {
        assert!(rt; *file <= 8 && *at < 576 && bytes.len() <= 576);
        disk.write(*file, *at, bytes)?;
    }
    Ok(disk.after_crash(alloc, Crash::New, NO_WRITES, plan(alloc, &[], None)?)?)
}

/// The first 576 bytes of each file, which are all of the first.
fn first_bytes(alloc: Global, disk: &mut QuietDisk) -> Result<Vec<u8>, Fail> {
    let mut all = Vec::new(alloc);
    for file in 0..9 {
        let mut bytes = [0; 576];
        disk.read(file, 0, &mut bytes)?;
        all.extend_from_slice(&bytes)?;
    }
    Ok(all)
}

/// A recovery answers this, twice, and changes nothing.
fn check_untouched(
    rt: &impl Abort,
    alloc: Global,
    disk: &mut QuietDisk,
    want: Result<Found, RecoverFault>,
    patches: &[Patch],
) -> Result<(), Fail> {
    let before = first_bytes(alloc, disk)?;
    for _ in 0..2 {
        assert!(rt; recover(disk) == want, "{patches:?}");
        assert!(rt;
            first_bytes(alloc, disk)?.as_slice() == before.as_slice(),
            "{patches:?}"
        );
    }
    Ok(())
}

/// The meta record of this file is out of range.
fn meta_damage(file: u32) -> RecoverFault {
    RecoverFault::Damaged(Damage {
        file: META,
        id: file,
        rule: 1,
    })
}

/// The open gate at this place stands over no entry.
fn log_damage(place: u32) -> RecoverFault {
    RecoverFault::Damaged(Damage {
        file: LOG,
        id: place,
        rule: 0,
    })
}

#[test]
fn a_refusal_writes_nothing(rt: HostRuntime) -> Result<(), Fail> {
    let alloc = rt.alloc();
    // What stands in the files of the store, in which the log has the entries at 0 and 141.
    let cases: [(&[Patch], RecoverFault); 24] = [
        // Another file's first bytes, another version, a threshold that isn't allowed, a byte after
        // the fields, and nothing.
        (
            &[(LOG, 0, b"\0"), (META, 0, b"\x89PNG\r\n\x1a\n")],
            RecoverFault::NotAStore,
        ),
        (&[(META, 4, b"\0")], RecoverFault::NotAStore),
        (&[(META, 4, b"\x04")], RecoverFault::NotAStore),
        (&[(META, 6, b"\x01")], RecoverFault::NotAStore),
        (&[(META, 63, b"\x01")], RecoverFault::NotAStore),
        (&[(META, 0, &[0; 576])], RecoverFault::NotAStore),
        // No record, too many, the log's file, the number 2^25, and a key twice.
        (&[(LOG, 1, b"\0")], log_damage(0)),
        (&[(LOG, 142, b"\x01\x08")], log_damage(141)),
        (&[(LOG, 351, b"\x01\x01\0\x07")], log_damage(351)),
        (&[(LOG, 73, b"\0\0\0\x02")], log_damage(0)),
        (&[(LOG, 72, b"\0\x01")], log_damage(0)),
        // The log comes first.
        (&[(META, 0, b"ABCD"), (LOG, 1, b"\0")], log_damage(0)),
        // More groups than twice the limit, more names than there may be, a free record of none, a
        // byte after the numbers, the least of two files, and by the second entry more nodes than
        // the limit.
        (&[(META, 192, b"\x21")], meta_damage(3)),
        (&[(META, 384, b"\x01\x10")], meta_damage(6)),
        (&[(META, 132, b"\0\0\0\0")], meta_damage(2)),
        (&[(META, 383, b"\x01")], meta_damage(5)),
        (
            &[(META, 383, b"\x01"), (META, 192, b"\x21")],
            meta_damage(3),
        ),
        (&[(LOG, 149, b"\x11")], meta_damage(1)),
        // A byte after the number of the last transaction that was taken over, an index before
        // version 3, none in it, and an index of more records than twice the limit.
        (&[(META, 456, b"\x01")], meta_damage(7)),
        (&[(META, 512, b"\x01")], meta_damage(8)),
        (&[(META, 4, b"\x02"), (META, 575, b"\x01")], meta_damage(8)),
        (&[(META, 4, b"\x03")], meta_damage(8)),
        (
            &[
                (META, 4, b"\x03"),
                (
                    META,
                    512,
                    b"\x21\0\0\0\xff\xff\xff\xff\0\0\0\0\xff\xff\xff\xff",
                ),
            ],
            meta_damage(8),
        ),
        // The meta record of the nodes is out of range in its file.
        (&[(LOG, 0, b"\0")], meta_damage(1)),
    ];
    for (patches, want) in cases {
        let store = logged_store(&rt, alloc)?;
        let mut disk = patched(&rt, alloc, store, patches)?;
        check_untouched(&rt, alloc, &mut disk, Err(want), patches)?;
    }
    Ok(())
}

#[test]
fn with_no_entry_nothing_is_written(rt: HostRuntime) -> Result<(), Fail> {
    let alloc = rt.alloc();
    // Whether the disk is that of the store, and what stands in it. Each byte but 1 is a closed
    // gate.
    let cases: [(bool, &[Patch], Found); 8] = [
        (false, &[], Found::Unmade),
        (false, &[(LOG, 0, b"\x02\x01\0\x01")], Found::Unmade),
        (false, &[(LOG, 0, b"\xff")], Found::Unmade),
        (
            false,
            &[(NODES, 0, b"\x01"), (LOG, 1, b"\x01")],
            Found::Unmade,
        ),
        // As many nodes as the limit, groups as twice the limit, and names as there may be.
        (
            true,
            &[(LOG, 0, b"\0"), (META, 64, b"\x10")],
            Found::Made(SHAPE),
        ),
        (
            true,
            &[(LOG, 0, b"\x02"), (META, 64, b"\0"), (META, 192, b"\x20")],
            Found::Made(SHAPE),
        ),
        (
            true,
            &[(LOG, 0, b"\xff"), (META, 64, b"\0"), (META, 384, b"\0\x10")],
            Found::Made(SHAPE),
        ),
        // A store of the newest version, with a number of the last transaction that was taken over.
        (
            true,
            &[
                (LOG, 0, b"\0"),
                (META, 4, b"\x03"),
                (META, 64, b"\0"),
                (META, 448, b"\x09\0\0\0\0\0\0\x01"),
                (META, 512, b"\x20\0\0\0\xff\xff\xff\xff\0\0\0\0\x1f\0\0\0"),
            ],
            Found::Made(SHAPE),
        ),
    ];
    for (made, patches, want) in cases {
        let disk = if made {
            logged_store(&rt, alloc)?
        } else {
            blank_disk(alloc)?
        };
        let mut disk = patched(&rt, alloc, disk, patches)?;
        check_untouched(&rt, alloc, &mut disk, Ok(want), patches)?;
    }
    Ok(())
}
