//! A follower over a disk in memory, and the shipments that come to it.
ghost use Rattle.std.specs.Prelude.{◌≤◌, length};

use crate::quiet_disk::QuietDisk;
use crate::stores::{left_of, new_disk};
use disk_model::{Crash, Disk};
use follower::{Accept, Follower};
use rec_bytes::{INDEX, LOG, META, NAMES, NODES, RELATIONSHIPS};
use std::alloc::{AllocError, Global};
use std::process::Abort;
use std::test::Fail;
use txn_core::{AgainFault, Config, Health, OpenFault};

const CONFIG: Config = Config {
    threshold: None,
    limit: Some(16),
};

/// A shipment of one record of zeros for each key.
fn shipment(alloc: Global, number: u8, keys: &[(u8, u8)]) -> Result<Vec<u8>, AllocError>
    requires { length keys.now ≤ 255 }
{
    let mut bytes = Vec::new(alloc);
    bytes.push(number)?;
    for _ in 0..7 {
        bytes.push(0)?;
    }
    bytes.push(keys.len() as u8)?;
    bytes.push(0)?;
    for (file, id) in keys.iter() {
        bytes.push(*file)?;
        bytes.push(*id)?;
        for _ in 0..67 {
            bytes.push(0)?;
        }
    }
    Ok(bytes)
}

/// Opens a follower. It is in a box, since a test's proof grows with the size of its variables.
fn open(alloc: Global, disk: &mut QuietDisk) -> Result<Box<Follower<'_, QuietDisk>>, OpenFault> {
    match Follower::open(alloc, disk, CONFIG) {
        Ok(follower) => match boxed(alloc, follower) {
            Ok(follower) => Ok(follower),
            Err(AllocError) => Err(OpenFault::Memory),
        },
        Err(refusal) => Err(refusal.why),
    }
}

fn boxed<'d, D: Disk>(
    alloc: Global,
    follower: Follower<'d, D>,
) -> Result<Box<Follower<'d, D>>, AllocError> {
    let follower = Box::new(alloc, follower)?;
    Ok(follower)
}

/// Brings a shipment to a follower that takes shipments.
fn deliver(rt: &impl Abort, follower: &mut Follower<'_, QuietDisk>, bytes: &[u8]) -> Accept {
    assert!(rt; follower.health() == Health::Live);
    follower.accept(bytes)
}

#[test]
fn a_follower_takes_shipments_in_order(rt: HostRuntime) -> Result<(), Fail> {
    let mut disk = new_disk(rt.alloc(), &[], None)?;
    let mut follower = open(rt.alloc(), &mut disk)?;
    let wanted = [
        (2, Accept::Gap { have: 0 }),
        (1, Accept::Applied { number: 1 }),
        (1, Accept::Old { have: 1 }),
        (3, Accept::Gap { have: 1 }),
        (2, Accept::Applied { number: 2 }),
    ];
    for (number, answer) in wanted {
        let bytes = shipment(rt.alloc(), number, &[(NODES, 0), (NAMES, 1), (INDEX, 31)])?;
        assert!(rt; deliver(&rt, &mut follower, &bytes) == answer, "{number}");
    }
    let _ = Box::into_inner(follower).close();

    let mut left = left_of(rt.alloc(), &disk, Crash::Old, None)?;
    let again = open(rt.alloc(), &mut left)?;
    assert!(rt; again.have() == 2);
    Ok(())
}

/// Stops a follower in each call of the disk that its first shipment makes, and in none, and opens
/// what this loss of power leaves. It has the shipment where the stop came in the call `first` or
/// later.
fn check_stops(rt: &impl Abort, alloc: Global, choice: Crash, first: u64) -> Result<(), Fail> {
    let bytes = shipment(alloc, 1, &[(NODES, 0), (NAMES, 1)])?;
    for stop in 17..22 {
        let mut disk = new_disk(alloc, &[], Some(stop))?;
        let mut follower = open(alloc, &mut disk)?;
        let answer = deliver(rt, &mut follower, &bytes);
        let _ = Box::into_inner(follower).close();
        let wanted = if stop == 21 {
            Accept::Applied { number: 1 }
        } else {
            Accept::Disk
        };
        assert!(rt; answer == wanted, "{choice:?} at call {stop}");
        let mut left = left_of(alloc, &disk, choice, None)?;
        let again = open(alloc, &mut left)?;
        let have = if stop < first { 0 } else { 1 };
        assert!(rt; again.have() == have, "{choice:?} at call {stop}");
        let _ = Box::into_inner(again).close();
    }
    Ok(())
}

#[test]
fn a_stopped_shipment_is_whole_or_nothing(rt: HostRuntime) -> Result<(), Fail> {
    // The crash, and the first call whose stop leaves the shipment, as for a commit.
    for (choice, first) in [(Crash::Old, 21), (Crash::New, 20), (Crash::Fill(1), 19)] {
        check_stops(&rt, rt.alloc(), choice, first)?;
    }
    Ok(())
}

#[test]
fn a_failed_shipment_is_found_again(rt: HostRuntime) -> Result<(), Fail> {
    // The call of the shipment that fails, whether the first call after it fails too, and the
    // number that the follower then has.
    let table = [(17, false, 0), (18, true, 0), (19, false, 0), (20, true, 1)];
    let bytes = shipment(rt.alloc(), 1, &[(NODES, 0), (NAMES, 1)])?;
    for (call, twice, have) in table {
        let next = if twice { call + 1 } else { call };
        let mut disk = new_disk(rt.alloc(), &[call, next], None)?;
        let mut follower = open(rt.alloc(), &mut disk)?;
        assert!(rt;
            deliver(&rt, &mut follower, &bytes) == Accept::Disk,
            "call {call}"
        );
        assert!(rt; follower.health() == Health::Failed, "call {call}");
        if twice {
            assert!(rt; follower.reopen() == Err(AgainFault::Disk), "call {call}");
        }
        assert!(rt;
            follower.reopen() == Ok(()) && follower.have() == have,
            "call {call}"
        );
        let wanted = if have == 0 {
            Accept::Applied { number: 1 }
        } else {
            Accept::Old { have }
        };
        assert!(rt;
            deliver(&rt, &mut follower, &bytes) == wanted,
            "call {call}"
        );
        let _ = Box::into_inner(follower).close();
    }
    Ok(())
}

#[test]
fn a_follower_tells_what_is_no_shipment(rt: HostRuntime) -> Result<(), Fail> {
    let mut disk = new_disk(rt.alloc(), &[], None)?;
    let mut follower = open(rt.alloc(), &mut disk)?;
    let cases: [(&str, &[(u8, u8)], usize); 7] = [
        ("the store's own record", &[(META, 0)], 11),
        ("the number", &[(META, 7)], 11),
        ("no file of records", &[(LOG, 0)], 10),
        ("past the room of its file", &[(NODES, 16)], 11),
        ("a key twice", &[(NODES, 3), (NODES, 3)], 80),
        ("a lower key", &[(RELATIONSHIPS, 0), (NODES, 3)], 79),
        (
            "the last key, and one more",
            &[(INDEX, 31), (INDEX, 31)],
            11,
        ),
    ];
    for (name, keys, at) in cases {
        assert!(rt; keys.len() <= 255);
        let bytes = shipment(rt.alloc(), 1, keys)?;
        let answer = deliver(&rt, &mut follower, &bytes);
        assert!(rt; answer == Accept::Bad { at }, "{name}");
    }
    assert!(rt; follower.have() == 0);
    Ok(())
}
