//! Scripts in which a call of the disk fails.
use crate::runs::{CALLS, Ended, new_disk, run, run_words};
use disk_model::MemoryDisk;
use graph_console::Exit;
use std::alloc::{AllocError, Global};
use std::test::Fail;

/// A run of the input, with these words, in which one call of the disk fails.
fn run_failing(
    alloc: Global,
    words: &[&str],
    input: &[u8],
    call: u64,
) -> Result<(Ended, Box<MemoryDisk>), AllocError> {
    let mut disk = new_disk(alloc, &[call], None)?;
    let ended = run_words(alloc, words, input, &mut *disk)?;
    Ok((ended, disk))
}

#[test]
fn each_call_of_the_disk_may_fail(rt: HostRuntime) -> Result<(), Fail> {
    let alloc = rt.alloc();
    let script: &[u8] = b"node a\n@1 snapshot\nbegin\nnode b\ndelete node 0\ncommit\ncheckpoint\n\
        reopen\nreopen\n@1 g.V().label()\nstats\n";
    let replies: &[u8] = b"node 0\n@1 ok\nok\nnode 1\nok\nok\nok\nok\nok\n@1 ==>'a'\n@1 end\n\
        nodes 1 edges 0 properties 0 blocks 0 names 2\n";
    let mut statuses = Vec::new(alloc);
    for call in 1..=CALLS {
        let (ended, mut disk) = run_failing(alloc, &["nipakeel", "run"], script, call)?;
        let status = ended.exit.code();
        statuses.push(status)?;
        let taken = ended.output.taken();
        if taken == replies {
            break;
        }
        let again = run(alloc, b"stats\n", &mut *disk)?;
        assert!(rt; again.exit == Exit::Done, "call {call}");
        if status == 0 {
            // What the run last saw is what is stored, and a snapshot shows what it showed before.
            assert!(rt;
                taken.ends_with(again.output.taken()) && is_shown(taken, b"@1 ==>'a'"),
                "call {call}: {taken:?}"
            );
        }
    }
    // The opening's calls come first. A fault before the first `reopen` or in it is over with the
    // second, and one in that isn't.
    statuses.dedup();
    assert!(rt; statuses.as_slice() == [8, 0, 1, 0].as_slice());
    Ok(())
}

/// A node with a long text becomes dense by loops, loses one of them and the text, and one more
/// after a checkpoint. The store is opened again after each line. A snapshot from before all this
/// but the text is checked at the end.
const REOPENED: &[u8] = b"node a x='TTTTTTTTTTTTTTTTTTTTTTTTTTTTTTTTTTTTTTTTT'\nreopen\n\
    @1 snapshot\nedge 0 S 0\nreopen\nedge 0 A 0\nreopen\nedge 0 B 0\nreopen\ndelete edge 1\n\
    reopen\nset node 0 x 1\nreopen\ncheckpoint\nreopen\ndelete edge 0\nreopen\n@1 check\ncheck\n\
    check\nstats\n";

/// How often the text has this line.
fn count_lines(text: &[u8], line: &[u8]) -> usize {
    text.split(|byte| *byte == b'\n')
        .filter(|it| *it == line)
        .count()
}

/// The session that reads has seen this line, if it has got a snapshot and the disk has failed in
/// no line of its own.
fn is_shown(text: &[u8], line: &[u8]) -> bool {
    let taken = count_lines(text, b"@1 ok");
    count_lines(text, line).saturating_add(count_lines(text, b"@1 fault disk")) == taken
}

#[test]
fn a_store_is_opened_again_after_each_fault(rt: HostRuntime) -> Result<(), Fail> {
    let alloc = rt.alloc();
    let words = ["nipakeel", "run", "--threshold", "2"];
    let mut has_failed = false;
    for call in 1..=CALLS {
        let (ended, mut disk) = run_failing(alloc, &words, REOPENED, call)?;
        let taken = ended.output.taken();
        if ended.exit == Exit::DiskFault {
            assert!(rt;
                !has_failed && taken == b"fault disk\n".as_slice(),
                "call {call}"
            );
            continue;
        }
        let faults = count_lines(taken, b"fault disk").saturating_add(count_lines(
            taken,
            b"@1 fault disk",
        ));
        if faults == 0 {
            assert!(rt; has_failed, "call {call}");
            break;
        }
        has_failed = true;
        let again = run(alloc, b"check\nstats\n", &mut *disk)?;
        let found = again.output.taken();
        assert!(rt; faults == 1 && found.starts_with(b"sound\n"), "call {call}");
        if ended.exit == Exit::StoreFailed {
            // It was the last line that opens the store again.
            assert!(rt; taken.ends_with(b"error failed\n"), "call {call}");
            continue;
        }
        assert!(rt; ended.exit == Exit::Done, "call {call}");
        assert!(rt; count_lines(taken, b"error failed") <= 1, "call {call}");
        assert!(rt;
            taken.ends_with(found) && is_shown(taken, b"@1 sound"),
            "call {call}: {taken:?}"
        );
    }
    Ok(())
}
