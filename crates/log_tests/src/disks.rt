//! The disks of plain memory: what they keep, fail to do, and leave after a loss of power.
use crate::quiet_disk::{QuietDisk, plan};
use disk_model::{Crash, Disk, PlainDisk, Room};
use fault_count::Failed;
use std::alloc::{AllocError, Global};
use std::process::Abort;
use std::test::Fail;

const ROOM: Room = Room {
    calls: 8,
    bytes: 16,
};

// What four bytes of file 2 read.
fn front(disk: &mut QuietDisk) -> [u8; 4] {
    let mut out = [9; 4];
    let _ = disk.read(2, 0, &mut out);
    out
}

// What is read now, and what this loss of power leaves.
fn fronts(
    alloc: Global,
    mut disk: QuietDisk,
    choice: Crash,
) -> Result<([u8; 4], [u8; 4]), AllocError> {
    let read = front(&mut disk);
    let mut left = disk.after_crash(alloc, choice, ROOM, plan(alloc, &[], None)?)?;
    Ok((read, front(&mut left)))
}

// What is read after some calls of which these fail, and what this loss of power then leaves.
fn fronts_after_faults(
    alloc: Global,
    fails: u64,
    stop: Option<u64>,
    choice: Crash,
) -> Result<([u8; 4], [u8; 4]), AllocError> {
    let mut disk = QuietDisk::of_limit(alloc, 1, ROOM, plan(alloc, &[fails], stop)?)?;
    let _ = disk.write(2, 0, b"ab");
    let _ = disk.sync(2);
    let _ = disk.write(2, 1, b"x");
    let _ = disk.write(2, 1, b"bxy");
    let _ = disk.write(1, 5, b"q");
    fronts(alloc, disk, choice)
}

#[test]
fn leaves_each_image_after_the_faults_of_a_plan(rt: HostRuntime) -> Result<(), Fail> {
    // The calls are write, sync, write, write, a write to file 1, read. The call that fails, the
    // byte at pending places, and what is read before a loss of power and after it. The first draw
    // goes to file 1.
    let cases: [(u64, Option<u64>, Crash, &[u8], &[u8]); 11] = [
        (0, None, Crash::New, b"abxy", b"abxy"),
        (0, None, Crash::Fill(7), b"abxy", b"a\x07\x07\x07"),
        (2, None, Crash::Fill(7), b"abxy", b"\x07\x07\x07\x07"),
        (3, None, Crash::Fill(7), b"abxy", b"a\x07\x07\x07"),
        (4, None, Crash::Fill(7), b"ax\0\0", b"a\x07\x07\x07"),
        (0, None, Crash::Old, b"abxy", b"ab\0\0"),
        (2, None, Crash::Old, b"abxy", b"\0\0\0\0"),
        (4, None, Crash::Old, b"ax\0\0", b"ab\0\0"),
        (0, None, Crash::Mixed(1), b"abxy", b"a\x59\xcc\xe6"),
        (2, None, Crash::Mixed(1), b"abxy", b"\x59\xcc\xe6\x5a"),
        (9, Some(3), Crash::New, b"\x09\x09\x09\x09", b"ab\0\0"),
    ];
    for (fails, stop, choice, before, after) in cases {
        let (read, left) = fronts_after_faults(rt.alloc(), fails, stop, choice)?;
        assert!(rt;
            read.as_slice() == before && left.as_slice() == after,
            "call {fails} fails"
        );
    }
    Ok(())
}

// What is read after a poke between pending bytes and a later write, and what this loss of power
// then leaves. Of the calls that are kept, no more has room.
fn fronts_after_poke(
    rt: &impl Abort,
    alloc: Global,
    later: &[u8],
    choice: Crash,
) -> Result<([u8; 4], [u8; 4]), Fail> {
    let room = Room {
        calls: if later.is_empty() { 3 } else { 4 },
        bytes: 6,
    };
    let mut disk = QuietDisk::of_limit(alloc, 1, room, plan(alloc, &[], None)?)?;
    disk.write(2, 0, b"uv")?;
    disk.sync(2)?;
    disk.write(2, 0, b"abc")?;
    assert!(rt; disk.room(2) == 64);
    disk.poke_all(&[(2, 1, b'z')]);
    assert!(rt; &front(&mut disk) == b"azc\0");
    assert!(rt; later.len() < 4);
    if !later.is_empty() {
        disk.write(2, 1, later)?;
    }
    Ok(fronts(alloc, disk, choice)?)
}

#[test]
fn a_poked_byte_is_read_and_left_by_each_crash(rt: HostRuntime) -> Result<(), Fail> {
    // Three bytes are pending when the second is poked, and no call more has room. In the last rows
    // a later write covers it. What is read before a loss of power and after it.
    let cases: [(&[u8], Crash, &[u8], &[u8]); 7] = [
        (b"", Crash::Old, b"azc\0", b"uz\0\0"),
        (b"", Crash::New, b"azc\0", b"azc\0"),
        (b"", Crash::Fill(7), b"azc\0", b"\x07z\x07\0"),
        (b"", Crash::Mixed(1), b"azc\0", b"\xd6z\x59\0"),
        (b"q", Crash::Old, b"aqc\0", b"uz\0\0"),
        (b"q", Crash::New, b"aqc\0", b"aqc\0"),
        (b"q", Crash::Fill(7), b"aqc\0", b"\x07\x07\x07\0"),
    ];
    for (later, choice, before, after) in cases {
        let (read, left) = fronts_after_poke(&rt, rt.alloc(), later, choice)?;
        assert!(rt;
            read.as_slice() == before && left.as_slice() == after,
            "{choice:?}"
        );
    }
    Ok(())
}

#[test]
fn writes_up_to_the_room_of_each_file(rt: HostRuntime) -> Result<(), Fail> {
    let mut disk = PlainDisk::new(rt.alloc(), 3)?;
    for (file, room) in [
        (0, 576),
        (1, 192),
        (3, 384),
        (5, 192),
        (6, 262_144),
        (7, 1_048_576),
        (8, 384),
    ] {
        assert!(rt; file <= 8 && 3 <= room && room <= 1_048_576);
        disk.write(file, room - 3, b"abc")?;
        assert!(rt;
            disk.write(file, room - 2, b"xyz") == Err(Failed),
            "file {file}"
        );
        let mut out = [9; 7];
        disk.read(file, room - 5, &mut out)?;
        assert!(rt; &out == b"\0\0abc\0\0", "file {file}");
        disk.sync(file)?;
    }
    let mut out = [9; 4];
    disk.read(2, 190, &mut out)?;
    assert!(rt; out == [0; 4]);
    Ok(())
}
