//! A store over a disk in memory, whose calls are counted from 1: making a store takes 16, and a
//! commit of a few records 4.
use crate::quiet_disk::{QuietDisk, plan};
use crate::turned_disk::TurnedDisk;
use disk_model::{Crash, Disk, Room};
use rec_bytes::{
    Damage, DiskFault, GROUPS, INDEX, Key, LOG, META, Meta, NAMES, NIL, NODES, RELATIONSHIPS,
    Reads, Rec, STRINGS, Space, meta_key,
};
use snap_store::Snaps;
use std::alloc::{AllocError, Global};
use std::process::Abort;
use std::test::Fail;
use txn_core::{AgainFault, Committed, Config, Health, OpenFault, Store};

const ROOM: Room = Room {
    calls: 256,
    bytes: 32_768,
};

const CONFIG: Config = Config {
    threshold: None,
    limit: None,
};

/// How many records the smaller transaction writes, and how many the greater one.
const FOUR: usize = 4;

const EIGHT: usize = 8;

pub(crate) fn new_disk(
    alloc: Global,
    fails: &[u64],
    stop: Option<u64>,
) -> Result<QuietDisk, AllocError> {
    QuietDisk::new(alloc, ROOM, plan(alloc, fails, stop)?)
}

/// The disk that a loss of power leaves, which stops at this call.
pub(crate) fn left_of(
    alloc: Global,
    disk: &QuietDisk,
    choice: Crash,
    stop: Option<u64>,
) -> Result<QuietDisk, AllocError> {
    disk.after_crash(alloc, choice, ROOM, plan(alloc, &[], stop)?)
}

/// Opens a store. It is in a box, since a test's proof grows with the size of its variables.
pub(crate) fn open<D: Disk>(alloc: Global, disk: &mut D) -> Result<Box<Store<'_, D>>, OpenFault> {
    match Store::open(alloc, disk, CONFIG) {
        Ok(store) => match boxed(alloc, store) {
            Ok(store) => Ok(store),
            Err(AllocError) => Err(OpenFault::Memory),
        },
        Err(refusal) => Err(refusal.why),
    }
}

fn boxed<'d, D: Disk>(alloc: Global, store: Store<'d, D>) -> Result<Box<Store<'d, D>>, AllocError> {
    let store = Box::new(alloc, store)?;
    Ok(store)
}

pub(crate) fn close<'d, D: Disk>(store: Box<Store<'d, D>>) -> &'d mut D {
    Box::into_inner(store).close()
}

/// What a transaction writes, by ascending key: first the meta record of the nodes, and then
/// records.
const KEYS: [Key; EIGHT] = [
    Key {
        file: META,
        id: NODES as u32,
    },
    Key { file: NODES, id: 0 },
    Key {
        file: NODES,
        id: 15,
    },
    Key {
        file: RELATIONSHIPS,
        id: 7,
    },
    Key {
        file: GROUPS,
        id: 31,
    },
    Key {
        file: STRINGS,
        id: 3,
    },
    Key {
        file: NAMES,
        id: 4_095,
    },
    Key {
        file: INDEX,
        id: 31,
    },
];

/// The record that the first transaction writes at this key, or the second. At 0 it is what a new
/// store has.
fn record(key: Key, count: u8) -> Rec {
    if key.file != META {
        return Rec { bytes: [count; 64] };
    }
    let meta = Meta {
        high: count as u32,
        free: NIL,
        live: count as u32,
    };
    meta.to_record()
}

/// Begins a transaction, and puts the first of these records.
fn begin<D: Disk>(rt: &impl Abort, store: &mut Store<'_, D>, count: u8, few: usize) {
    assert!(rt; store.health() == Health::Live && !store.in_transaction());
    store.begin();
    for key in KEYS.iter().take(few) {
        assert!(rt; key.is_valid());
        assert!(rt; store.put(*key, record(*key, count)) == Ok(()));
    }
    assert!(rt; store.in_transaction());
}

/// Begins one, puts the first of these records, and keeps them for a commit.
fn prepare<D: Disk>(rt: &impl Abort, store: &mut Store<'_, D>, count: u8, few: usize) {
    begin(rt, store, count, few);
    keep(rt, store);
}

/// Keeps what the transaction has put for a commit.
fn keep<D: Disk>(rt: &impl Abort, store: &mut Store<'_, D>) {
    assert!(rt; store.in_transaction() && store.keep() == Ok(()));
}

/// Commits the open transaction of a live store.
fn commit<D: Disk>(rt: &impl Abort, store: &mut Store<'_, D>) -> Result<(), DiskFault> {
    assert!(rt; store.health() == Health::Live && store.in_transaction());
    store.commit()
}

/// Commits the first of these records, in a transaction of their own.
fn change<D: Disk>(
    rt: &impl Abort,
    store: &mut Store<'_, D>,
    count: u8,
    few: usize,
) -> Result<(), DiskFault> {
    prepare(rt, store, count, few);
    commit(rt, store)
}

pub(crate) fn checkpoint<D: Disk>(
    rt: &impl Abort,
    store: &mut Store<'_, D>,
) -> Result<(), DiskFault> {
    assert!(rt; store.health() == Health::Live && !store.in_transaction());
    store.checkpoint()
}

fn recover_again<D: Disk>(rt: &impl Abort, store: &mut Store<'_, D>) -> Result<(), AgainFault> {
    assert!(rt; !store.in_transaction());
    store.recover_again()
}

/// The transaction of which the store has the first records, all of them.
fn shown(rt: &impl Abort, store: &mut Store<'_, QuietDisk>, few: usize) -> Option<u8> {
    for count in 0..3 {
        if shows(rt, store, count, few) {
            return Some(count);
        }
    }
    None
}

fn shows(rt: &impl Abort, store: &mut Store<'_, QuietDisk>, count: u8, few: usize) -> bool {
    for key in KEYS.iter().take(few) {
        assert!(rt; key.is_valid());
        if store.get(*key) != Ok(record(*key, count)) {
            return false;
        }
    }
    store.meta(NODES).live == count as u32
}

pub(crate) fn byte_at(rt: &impl Abort, disk: &mut QuietDisk, file: u8, at: u64) -> u8 {
    assert!(rt; file <= INDEX && at < 1_048_576);
    let mut byte = [0];
    assert!(rt; disk.read(file, at, &mut byte) == Ok(()));
    byte[0]
}

/// The log of a new store: an entry of 555 bytes.
fn first_entry() -> [u8; 555] {
    let mut entry = [0; 555];
    entry[..3].copy_from_slice(&[1, 8, 0]);
    entry[8..20].copy_from_slice(&[0x47, 0x52, 0x53, 0x31, 3, 0, 0x32, 0, 0, 0, 0x10, 0]);
    for file in 1..7 {
        let start = 3 + 69 * file;
        entry[start + 1] = file as u8;
        entry[start + 9..start + 13].fill(255);
    }
    entry[487] = 8;
    entry[495..499].fill(255);
    entry[503..507].fill(255);
    entry
}

#[test]
fn a_commit_is_one_entry(rt: HostRuntime) -> Result<(), Fail> {
    // How many records are committed to a new store, what stands after its entry, and where a gate
    // is closed.
    let table = [(0, [0, 0, 0], 555), (FOUR, [1, 4, 0], 834)];
    for (few, head, end) in table {
        let mut disk = new_disk(rt.alloc(), &[], None)?;
        let mut store = open(rt.alloc(), &mut disk)?;
        assert!(rt; change(&rt, &mut store, 1, few) == Ok(()));
        let disk = close(store);
        let mut first = [9; 555];
        disk.read(LOG, 0, &mut first)?;
        assert!(rt; first.as_slice() == first_entry().as_slice());
        let mut next = [9; 3];
        disk.read(LOG, 555, &mut next)?;
        assert!(rt; next == head);
        assert!(rt; byte_at(&rt, disk, LOG, end) == 0);
    }
    Ok(())
}

/// Stops a commit in each of its calls, and in none, and opens what this loss of power leaves. It
/// has the transaction where the stop came in the call `first` or later.
fn check_stops(rt: &impl Abort, alloc: Global, choice: Crash, first: u64) -> Result<(), Fail> {
    for stop in 17..22 {
        let mut disk = new_disk(alloc, &[], Some(stop))?;
        let mut store = open(alloc, &mut disk)?;
        let answer = change(rt, &mut store, 1, FOUR);
        assert!(rt; answer.is_ok() == (stop == 21), "{choice:?} at call {stop}");
        let mut left = left_of(alloc, close(store), choice, None)?;
        let mut store = open(alloc, &mut left)?;
        let count = if stop < first { 0 } else { 1 };
        assert!(rt;
            shown(rt, &mut store, FOUR) == Some(count),
            "{choice:?} at call {stop}"
        );
        let _ = close(store);
    }
    Ok(())
}

#[test]
fn a_stopped_commit_is_whole_or_nothing(rt: HostRuntime) -> Result<(), Fail> {
    // The crash, and the first call whose stop leaves the transaction. The calls are the write of
    // the records and its sync, and the write of the gate and its sync. 21 is a call after them.
    let table = [
        (Crash::Old, 21),
        (Crash::New, 20),
        (Crash::Fill(0), 21),
        (Crash::Fill(1), 19),
        (Crash::Fill(7), 21),
        (Crash::Mixed(1), 21),
    ];
    for (choice, first) in table {
        check_stops(&rt, rt.alloc(), choice, first)?;
    }
    Ok(())
}

/// A transaction of four records and a checkpoint, and then one of eight, whose end stands over the
/// first one's gate.
fn disk_with_old_gate(rt: &impl Abort, alloc: Global) -> Result<QuietDisk, Fail> {
    let mut disk = new_disk(alloc, &[], None)?;
    let mut store = open(alloc, &mut disk)?;
    assert!(rt; change(rt, &mut store, 1, FOUR) == Ok(()));
    assert!(rt; checkpoint(rt, &mut store) == Ok(()));
    assert!(rt; change(rt, &mut store, 2, EIGHT) == Ok(()));
    assert!(rt; shown(rt, &mut store, EIGHT) == Some(2));
    let _ = close(store);
    Ok(disk)
}

#[test]
fn an_entry_is_closed_over_an_old_gate(rt: HostRuntime) -> Result<(), Fail> {
    // The crash, two bytes that it leaves, and the call in which the opening is stopped. Its third
    // write of a record is call 15, and its write of the gate call 30. At 556 the old entry has its
    // count.
    let table = [
        (Crash::New, (LOG, 555, 0), (LOG, 556, 4), Some(15)),
        (
            Crash::Fill(9),
            (NODES, 960, 9),
            (RELATIONSHIPS, 448, 1),
            Some(30),
        ),
        (Crash::Fill(1), (LOG, 0, 1), (RELATIONSHIPS, 448, 2), None),
    ];
    let mut disk = disk_with_old_gate(&rt, rt.alloc())?;
    for (choice, first, second, stop) in table {
        let mut seen = left_of(rt.alloc(), &disk, choice, None)?;
        for (file, at, byte) in [first, second] {
            assert!(rt;
                byte_at(&rt, &mut seen, file, at) == byte,
                "{choice:?}: {file} {at}"
            );
        }
        disk = left_of(rt.alloc(), &disk, choice, stop)?;
        match open(rt.alloc(), &mut disk) {
            Ok(mut store) => {
                assert!(rt; (shown(&rt, &mut store, EIGHT), stop) == (Some(2), None));
                let _ = close(store);
            }
            Err(fault) => assert!(rt; (fault, stop.is_some()) == (OpenFault::Disk, true)),
        }
    }
    Ok(())
}

/// A store is live, or after a failed call recovers. Says whether the call failed.
fn has_failed<E>(
    rt: &impl Abort,
    store: &mut Store<'_, QuietDisk>,
    answer: &Result<(), E>,
) -> bool {
    let failed = answer.is_err();
    let health = if failed { Health::Failed } else { Health::Live };
    assert!(rt; (store.health(), store.in_transaction()) == (health, false));
    if failed {
        assert!(rt; recover_again(rt, store) == Ok(()));
        assert!(rt; store.health() == Health::Live);
    }
    failed
}

/// Opens a store whose disk fails in this call, and then again. Says whether the first opening
/// failed.
fn try_opening(rt: &impl Abort, alloc: Global, call: u64) -> Result<bool, Fail> {
    let mut disk = new_disk(alloc, &[call], None)?;
    let failed = match open(alloc, &mut disk) {
        Ok(store) => {
            let _ = close(store);
            false
        }
        Err(_) => true,
    };
    let mut store = open(alloc, &mut disk)?;
    assert!(rt; shown(rt, &mut store, FOUR) == Some(0), "call {call}");
    let _ = close(store);
    Ok(failed)
}

/// Commits, runs a checkpoint, recovers, and opens the store again, while one call of the disk
/// fails. Says in which of these steps that was, and of which transaction the store has the records
/// from the commit on.
fn try_failing(rt: &impl Abort, alloc: Global, call: u64) -> Result<([bool; 3], Option<u8>), Fail> {
    let mut disk = new_disk(alloc, &[call], None)?;
    let mut store = open(alloc, &mut disk)?;
    let committed = change(rt, &mut store, 1, FOUR);
    let committing = has_failed(rt, &mut store, &committed);
    let count = shown(rt, &mut store, FOUR);
    let checked = checkpoint(rt, &mut store);
    let checking = has_failed(rt, &mut store, &checked);
    let recovered = recover_again(rt, &mut store);
    let recovering = has_failed(rt, &mut store, &recovered);
    assert!(rt; shown(rt, &mut store, FOUR) == count, "call {call}");
    let mut store = open(alloc, close(store))?;
    assert!(rt; shown(rt, &mut store, FOUR) == count, "call {call}");
    let _ = close(store);
    Ok(([committing, checking, recovering], count))
}

#[test]
fn each_call_of_the_disk_may_fail(rt: HostRuntime) -> Result<(), Fail> {
    for call in 1..17 {
        assert!(rt; try_opening(&rt, rt.alloc(), call)?, "call {call}");
    }
    // The first call of each step and its last, the step, and the transaction that the store then
    // has. The commit is stored once its gate is written, so also where the sync after that fails.
    let table = [
        (17, 19, [true, false, false], 0),
        (20, 20, [true, false, false], 1),
        (21, 36, [false, true, false], 1),
        (37, 49, [false, false, true], 1),
    ];
    for (first, last, step, count) in table {
        for call in first..=last {
            let found = try_failing(&rt, rt.alloc(), call)?;
            assert!(rt; found == (step, Some(count)), "call {call}");
        }
    }
    Ok(())
}

/// Commits four records of a new store for which a snapshot is open, while this call of the disk
/// fails. Says what the store is then, and of which transaction it has the records once it serves
/// commits. The snapshot sees none of them.
fn try_keeping(rt: &impl Abort, alloc: Global, call: u64) -> Result<(Health, Option<u8>), Fail> {
    let mut disk = new_disk(alloc, &[call], None)?;
    let mut store = open(alloc, &mut disk)?;
    let mut snaps = Snaps::new(alloc);
    assert!(rt; !snaps.is_open(1));
    snaps.take(1)?;
    prepare(rt, &mut store, 1, FOUR);
    assert!(rt; store.health() == Health::Live && store.in_transaction());
    assert!(rt; store.commit_kept(&mut snaps).is_err(), "call {call}");
    let health = store.health();
    if health == Health::Failed {
        assert!(rt; recover_again(rt, &mut store) == Ok(()), "call {call}");
    }
    let count = shown(rt, &mut store, FOUR);
    assert!(rt; snaps.is_open(1), "call {call}");
    let mut committed = Committed { store: &mut store };
    let mut view = snaps.view(1, &mut committed);
    assert!(rt; view.meta(NODES) == Meta::EMPTY, "call {call}");
    let _ = close(store);
    Ok((health, count))
}

#[test]
fn a_commit_that_keeps_fails_as_it_reads_or_writes(rt: HostRuntime) -> Result<(), Fail> {
    // The calls that fail, and the health of the store. Two pages are read, and then an entry is
    // appended in four calls.
    let table = [
        (17, 18, Health::Live, 0),
        (19, 21, Health::Failed, 0),
        (22, 22, Health::Failed, 1),
    ];
    for (first, last, health, count) in table {
        for call in first..=last {
            let found = try_keeping(&rt, rt.alloc(), call)?;
            assert!(rt; found == (health, Some(count)), "call {call}");
        }
    }
    Ok(())
}

/// Goes through a transaction that takes in so many records, and maybe keeps them, and is maybe
/// committed. What is committed meanwhile is that of the new store.
fn go(
    rt: &impl Abort,
    store: &mut Store<'_, QuietDisk>,
    few: usize,
    keeps: bool,
    commits: bool,
) -> Result<(), DiskFault> {
    begin(rt, store, 1, few);
    if keeps {
        keep(rt, store);
    }
    assert!(rt; store.old(meta_key(NODES)) == Ok(Meta::EMPTY.to_record()));
    assert!(rt; Committed { store }.meta(NODES) == Meta::EMPTY);
    if commits {
        return commit(rt, store);
    }
    assert!(rt; store.in_transaction());
    store.rollback();
    Ok(())
}

#[test]
fn only_a_commit_of_records_calls_the_disk(rt: HostRuntime) -> Result<(), Fail> {
    // How many records a transaction takes in, whether they are kept, whether it is committed, and
    // whether that is answered.
    let table = [
        (0, false, false, true),
        (FOUR, false, false, true),
        (FOUR, true, false, true),
        (0, true, true, true),
        (FOUR, false, true, true),
        (FOUR, true, true, false),
    ];
    // All calls after those of the opening fail.
    let mut disk = new_disk(rt.alloc(), &[], Some(17))?;
    let mut store = open(rt.alloc(), &mut disk)?;
    for (few, keeps, commits, is_answered) in table {
        let answer = go(&rt, &mut store, few, keeps, commits);
        assert!(rt; answer.is_ok() == is_answered);
        assert!(rt; !store.in_transaction() && store.meta(NODES) == Meta::EMPTY);
    }
    let _ = close(store);
    Ok(())
}

/// Commits all names.
fn change_names(rt: &impl Abort, store: &mut Store<'_, QuietDisk>) -> Result<(), DiskFault> {
    assert!(rt; store.health() == Health::Live && !store.in_transaction());
    store.begin();
    for id in 0..2_048 {
        assert!(rt; store.put(Key { file: NAMES, id }, Rec { bytes: [1; 64] }) == Ok(()));
    }
    keep(rt, store);
    commit(rt, store)
}

#[test]
fn a_full_log_is_emptied_by_a_commit(rt: HostRuntime) -> Result<(), Fail> {
    // How many transactions of 2,048 records are committed, and then the log's first entry. Each is
    // an entry of 141,315 bytes, and after 555 bytes seven of them have room in the log's
    // 1,048,576, since 8 * 141,315 = 1,130,520.
    let table = [(7, [1, 8, 0]), (8, [1, 0, 8])];
    for (commits, head) in table {
        let room = Room {
            calls: 4_096,
            bytes: 2_097_152,
        };
        let mut disk = QuietDisk::new(rt.alloc(), room, plan(rt.alloc(), &[], None)?)?;
        let mut store = open(rt.alloc(), &mut disk)?;
        for _ in 0..commits {
            assert!(rt; change_names(&rt, &mut store) == Ok(()));
        }
        let disk = close(store);
        let mut bytes = [9; 3];
        disk.read(LOG, 0, &mut bytes)?;
        assert!(rt; bytes == head);
    }
    Ok(())
}

/// This version where a store has the newest, and no meta record of the index.
pub(crate) fn older(version: u8) -> [(u8, u64, u8); 9] {
    [
        (META, 4, version),
        (META, 516, 0),
        (META, 517, 0),
        (META, 518, 0),
        (META, 519, 0),
        (META, 524, 0),
        (META, 525, 0),
        (META, 526, 0),
        (META, 527, 0),
    ]
}

/// A failed store whose disk then is given these bytes is recovered.
fn recover_poked(
    rt: &impl Abort,
    alloc: Global,
    pokes: &[(u8, u64, u8)],
) -> Result<Result<(), AgainFault>, Fail> {
    // The calls of the opening, and of a checkpoint of eight records in two runs. The next one
    // fails.
    let mut disk = TurnedDisk::new(
        new_disk(alloc, &[30], None)?,
        Vec::from_slice(alloc, pokes)?,
    );
    let mut store = open(alloc, &mut disk)?;
    assert!(rt; checkpoint(rt, &mut store) == Ok(()));
    assert!(rt; change(rt, &mut store, 1, FOUR).is_err());
    let answer = recover_again(rt, &mut store);
    let _ = close(store);
    Ok(answer)
}

#[test]
fn another_content_is_not_recovered(rt: HostRuntime) -> Result<(), Fail> {
    let damaged = |file, id, rule| Err(AgainFault::Damaged(Damage { file, id, rule }));
    let (first, second) = (older(1), older(2));
    let cases: [(&str, &[(u8, u64, u8)], Result<(), AgainFault>); 8] = [
        ("as it was", &[], Ok(())),
        ("no mark", &[(META, 0, 0)], damaged(META, 0, 1)),
        ("another threshold", &[(META, 6, 51)], damaged(META, 0, 1)),
        ("version 1", &first, damaged(META, 0, 1)),
        ("version 2", &second, damaged(META, 0, 1)),
        (
            "a byte after the first definition",
            &[(META, 528, 1)],
            damaged(META, 8, 1),
        ),
        (
            "too many relationships",
            &[(META, 131, 1)],
            damaged(META, 2, 1),
        ),
        (
            "an entry of no record",
            &[(LOG, 1, 0), (LOG, 0, 1)],
            damaged(LOG, 0, 0),
        ),
    ];
    for (name, pokes, wanted) in cases {
        assert!(rt; recover_poked(&rt, rt.alloc(), pokes)? == wanted, "{name}");
    }
    Ok(())
}
