//! Checkpoints and recoveries that are stopped, or fail, at each of their calls of the disk.
use crate::logged_store::{ROOM, SHAPE, is_recovered, left_of, logged, logged_store};
use crate::quiet_disk::{QuietDisk, plan};
use disk_model::Crash;
use fault_count::Failed;
use rec_bytes::WriteSet;
use recovery::{Found, RecoverFault, checkpoint, recover};
use std::alloc::{AllocError, Global};
use std::process::Abort;
use std::test::Fail;

/// Three records, eight syncs, and the gate is read, written and synced.
const CHECKPOINT_CALLS: u64 = 14;

/// Nine syncs, a read of the meta file and two of the log, five records, and what a checkpoint
/// does after its records.
const RECOVERY_CALLS: u64 = 28;

const CHOICES: [Crash; 5] = [
    Crash::Old,
    Crash::New,
    Crash::Fill(0),
    Crash::Fill(1),
    Crash::Mixed(1),
];

/// The records that the entries have, as a checkpoint is given them.
fn changed_records(rt: &impl Abort, alloc: Global) -> Result<WriteSet, AllocError> {
    let mut changed = WriteSet::new(alloc);
    for (key, rec) in logged() {
        assert!(rt; key.is_valid());
        changed.put(key, rec)?;
    }
    Ok(changed)
}

/// Whether a recovery finds the store, and each loss of power after it leaves what the entries
/// said.
fn recovers(rt: &impl Abort, alloc: Global, disk: &mut QuietDisk) -> Result<bool, Fail> {
    let is_found = recover(disk) == Ok(Found::Made(SHAPE));
    let mut old = left_of(alloc, disk, Crash::Old, None)?;
    let mut filled = left_of(alloc, disk, Crash::Fill(1), None)?;
    Ok(is_found && is_recovered(rt, &mut old)? && is_recovered(rt, &mut filled)?)
}

/// Stops a recovery at this call. Gives what it answers, and whether the next one, over what the
/// loss of power leaves, makes it good.
fn stopped_recovery(
    rt: &impl Abort,
    alloc: Global,
    disk: &QuietDisk,
    choice: Crash,
    stop: u64,
) -> Result<(Result<Found, RecoverFault>, bool), Fail> {
    let mut stopped = left_of(alloc, disk, choice, Some(stop))?;
    let answer = recover(&mut stopped);
    let mut left = left_of(alloc, &stopped, choice, None)?;
    Ok((answer, recovers(rt, alloc, &mut left)?))
}

/// A recovery is stopped at each call, and the next one comes to its end. Gives how many calls the
/// recovery makes.
fn check_stopped_recoveries(
    rt: &impl Abort,
    alloc: Global,
    disk: &QuietDisk,
    choice: Crash,
) -> Result<u64, Fail> {
    for stop in 1..=RECOVERY_CALLS + 1 {
        let (answer, made_good) = stopped_recovery(rt, alloc, disk, choice, stop)?;
        assert!(rt; made_good, "{choice:?} at call {stop}");
        if answer.is_ok() {
            return Ok(stop - 1);
        }
        assert!(rt;
            answer == Err(RecoverFault::Disk),
            "{choice:?} at call {stop}"
        );
    }
    Ok(RECOVERY_CALLS + 1)
}

/// Stops a checkpoint at this call, and then each recovery of what is left.
fn check_stopped_checkpoint(
    rt: &impl Abort,
    alloc: Global,
    store: &QuietDisk,
    changed: &WriteSet,
    choice: Crash,
    stop: u64,
) -> Result<(), Fail> {
    let mut stopped = left_of(alloc, store, Crash::New, Some(stop))?;
    let answer = checkpoint(&mut stopped, changed);
    assert!(rt;
        answer.is_ok() == (stop > CHECKPOINT_CALLS),
        "{choice:?} at call {stop}"
    );
    check_stopped_recoveries(rt, alloc, &stopped, choice)?;
    Ok(())
}

/// Stops a recovery, and a checkpoint, at each of their calls.
fn check_choice(
    rt: &impl Abort,
    alloc: Global,
    store: &QuietDisk,
    changed: &WriteSet,
    choice: Crash,
) -> Result<(), Fail> {
    let settled = left_of(alloc, store, Crash::New, None)?;
    let calls = check_stopped_recoveries(rt, alloc, &settled, choice)?;
    assert!(rt; calls == RECOVERY_CALLS, "{choice:?}");
    for stop in 1..=CHECKPOINT_CALLS + 1 {
        check_stopped_checkpoint(rt, alloc, store, changed, choice, stop)?;
    }
    Ok(())
}

/// A store of which the call of this number fails.
fn failing_store(alloc: Global, store: &QuietDisk, call: u64) -> Result<QuietDisk, AllocError> {
    store.after_crash(alloc, Crash::New, ROOM, plan(alloc, &[call], None)?)
}

/// A checkpoint fails in this call, and a recovery then finds the store.
fn check_failed_checkpoint(
    rt: &impl Abort,
    alloc: Global,
    store: &QuietDisk,
    changed: &WriteSet,
    call: u64,
) -> Result<(), Fail> {
    let mut disk = failing_store(alloc, store, call)?;
    assert!(rt;
        checkpoint(&mut disk, changed) == Err(Failed),
        "call {call}"
    );
    assert!(rt; recovers(rt, alloc, &mut disk)?, "call {call}");
    Ok(())
}

/// A recovery fails in this call, and the next one finds the store.
fn check_failed_recovery(
    rt: &impl Abort,
    alloc: Global,
    store: &QuietDisk,
    call: u64,
) -> Result<(), Fail> {
    let mut disk = failing_store(alloc, store, call)?;
    assert!(rt;
        recover(&mut disk) == Err(RecoverFault::Disk),
        "call {call}"
    );
    assert!(rt; recovers(rt, alloc, &mut disk)?, "call {call}");
    Ok(())
}

#[test]
fn each_call_may_fail_or_be_the_stop(rt: HostRuntime) -> Result<(), Fail> {
    let store = logged_store(&rt, rt.alloc())?;
    let changed = changed_records(&rt, rt.alloc())?;
    for choice in CHOICES {
        check_choice(&rt, rt.alloc(), &store, &changed, choice)?;
    }
    for call in 1..=CHECKPOINT_CALLS {
        check_failed_checkpoint(&rt, rt.alloc(), &store, &changed, call)?;
    }
    for call in 1..=RECOVERY_CALLS {
        check_failed_recovery(&rt, rt.alloc(), &store, call)?;
    }
    Ok(())
}
