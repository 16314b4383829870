//! Records in their files, and through the pages that were used last.
use crate::quiet_disk::{QuietDisk, plan};
use disk_model::{Disk, Room};
use page_cache::PageCache;
use rec_bytes::{Key, META, NAMES, NODES, Rec};
use record_file::{read_record, write_record};
use std::alloc::{AllocError, Global};
use std::test::Fail;

const ROOM: Room = Room {
    calls: 8,
    bytes: 512,
};

#[test]
fn a_written_record_is_read_back_and_no_other_changes(rt: HostRuntime) -> Result<(), Fail> {
    let mut disk = QuietDisk::new(rt.alloc(), ROOM, plan(rt.alloc(), &[], None)?)?;
    for (file, id) in [(META, 6), (NODES, 3), (NODES, 15), (NAMES, 4_095)] {
        let key = Key { file, id };
        assert!(rt; key.is_valid());
        write_record(&mut disk, key, Rec { bytes: [7; 64] })?;
        assert!(rt; read_record(&mut disk, key)? == Rec { bytes: [7; 64] });
        let before = Key { file, id: id - 1 };
        assert!(rt; before.is_valid());
        assert!(rt; read_record(&mut disk, before)? == Rec::ZEROS);
        let mut byte = [0];
        disk.read(file, 64 * id as u64 + 63, &mut byte)?;
        assert!(rt; byte == [7]);
    }
    Ok(())
}

// Which of these node records are got, one after another, through so many pages from a disk that
// stops at this call.
fn got(alloc: Global, pages: usize, stop: u64, ids: &[u32]) -> Result<Vec<bool>, AllocError> {
    let mut disk = QuietDisk::of_limit(alloc, 512, ROOM, plan(alloc, &[], Some(stop))?)?;
    let mut cache = PageCache::new(alloc, pages)?;
    let mut got = Vec::new(alloc);
    for id in ids {
        let key = Key {
            file: NODES,
            id: *id,
        };
        got.push(key.is_valid() && cache.get(&mut disk, key) == Ok(Rec::ZEROS))?;
    }
    Ok(got)
}

#[test]
fn the_page_that_was_used_last_stays(rt: HostRuntime) -> Result<(), Fail> {
    let got_all = got(rt.alloc(), 2, 4, &[0, 64, 0, 128, 0])?;
    assert!(rt; got_all.as_slice() == [true, true, true, true, true].as_slice());
    let one_gone = got(rt.alloc(), 2, 4, &[0, 64, 128, 0])?;
    assert!(rt; one_gone.as_slice() == [true, true, true, false].as_slice());
    let one_kept = got(rt.alloc(), 0, 4, &[0, 1, 64, 0, 64])?;
    assert!(rt; one_kept.as_slice() == [true, true, true, true, false].as_slice());
    let five_kept = got(
        rt.alloc(),
        5,
        6,
        &[0, 64, 128, 192, 256, 256, 192, 128, 64, 0],
    )?;
    assert!(rt; five_kept.as_slice() == [true; 10].as_slice());
    Ok(())
}

#[test]
fn a_written_record_is_got_once_its_page_is_forgotten(rt: HostRuntime) -> Result<(), Fail> {
    let mut disk = QuietDisk::of_limit(rt.alloc(), 256, ROOM, plan(rt.alloc(), &[], None)?)?;
    let mut cache = PageCache::new(rt.alloc(), 2)?;
    let key = Key {
        file: NODES,
        id: 65,
    };
    let before = Key {
        file: NODES,
        id: 64,
    };
    assert!(rt; key.is_valid() && before.is_valid());
    for byte in [7, 8] {
        let rec = Rec { bytes: [byte; 64] };
        write_record(&mut disk, key, rec)?;
        cache.forget(key);
        assert!(rt; cache.get(&mut disk, key)? == rec);
        assert!(rt; cache.get(&mut disk, before)? == Rec::ZEROS);
    }
    let last = Rec { bytes: [9; 64] };
    write_record(&mut disk, key, last)?;
    cache.clear();
    assert!(rt; cache.get(&mut disk, key)? == last);
    Ok(())
}
