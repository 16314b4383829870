//! Scripts that are stopped at each call of the disk: what is opened afterwards is what was
//! answered, with the line in which the stop came or without it.
use crate::runs::{CALLS, COUNT, Ended, Streams, left_of, new_disk, run, run_over, run_words};
use disk_model::{Crash, MemoryDisk};
use graph_console::Exit;
use std::alloc::{AllocError, Global};
use std::process::Abort;
use std::test::Fail;

/// A line, its reply, and what a later run answers to the probe once the line is stored.
type Row<'a> = (&'a [u8], &'a [u8], &'a [u8]);

/// The rows of a script, its probe, and what is answered to that where nothing is stored.
#[derive(Clone, Copy, Drop)]
struct Script<'a> {
    rows: &'a [Row<'a>],
    probe: &'a [u8],
    nothing: &'a [u8],
}

/// Counts, and deletes the edge and the node that were made first. No session has a snapshot.
const PROBE: &[u8] = b"@1 g.V()\nstats\ndelete edge 0\ndelete node 0\n";

const NOTHING: &[u8] =
    b"@1 error no snapshot\nnodes 0 edges 0 properties 0 blocks 0 names 0\nerror no edge 0\n\
    error no node 0\n";

/// Node 0 alone, and node 1 alone.
const FIRST: &[u8] =
    b"@1 error no snapshot\nnodes 1 edges 0 properties 0 blocks 0 names 1\nerror no edge 0\nok\n";

const SECOND: &[u8] =
    b"@1 error no snapshot\nnodes 1 edges 0 properties 0 blocks 0 names 2\nerror no edge 0\n\
    error no node 0\n";

/// A change alone, a transaction that is rolled back, one that is committed, and one that is open
/// at the end. Snapshots are taken before the second one and while it is open, and show what they
/// did after it, a checkpoint and a reopen.
const NODES: &[Row] = &[
    (b"node a\n", b"node 0\n", FIRST),
    (b"begin\n", b"ok\n", FIRST),
    (b"node temp\n", b"node 1\n", FIRST),
    (b"@1 snapshot\n", b"@1 ok\n", FIRST),
    (b"rollback\n", b"ok\n", FIRST),
    (b"begin\n", b"ok\n", FIRST),
    (b"node b\n", b"node 1\n", FIRST),
    (b"@7 snapshot\n", b"@7 ok\n", FIRST),
    (b"delete node 0\n", b"ok\n", FIRST),
    (b"commit\n", b"ok\n", SECOND),
    (b"checkpoint\n", b"ok\n", SECOND),
    (b"@1 g.V().label()\n", b"@1 ==>'a'\n@1 end\n", SECOND),
    (b"@1 release\n", b"@1 ok\n", SECOND),
    (b"reopen\n", b"ok\n", SECOND),
    (
        b"stats\n",
        b"nodes 1 edges 0 properties 0 blocks 0 names 2\n",
        SECOND,
    ),
    (b"@7 g.V().label()\n", b"@7 ==>'a'\n@7 end\n", SECOND),
    (b"begin\n", b"ok\n", SECOND),
    (b"node c\n", b"node 0\n", SECOND),
];

/// A loop at node 0.
const LOOP: &[u8] =
    b"@1 error no snapshot\nnodes 1 edges 1 properties 0 blocks 0 names 2\nok\nok\n";

/// Edge 1 alone, from node 0 to node 1.
const BETWEEN: &[u8] =
    b"@1 error no snapshot\nnodes 2 edges 1 properties 0 blocks 0 names 2\nerror no edge 0\n\
    error node 0 has relationships\n";

/// Two nodes without edges.
const APART: &[u8] =
    b"@1 error no snapshot\nnodes 2 edges 0 properties 0 blocks 0 names 2\nerror no edge 0\nok\n";

/// Edge 1 alone, from node 1 to node 0, of another type.
const BACK: &[u8] =
    b"@1 error no snapshot\nnodes 2 edges 1 properties 0 blocks 0 names 3\nerror no edge 0\n\
    error node 0 has relationships\n";

/// Edge 0 beside it.
const BOTH: &[u8] = b"@1 error no snapshot\nnodes 2 edges 2 properties 0 blocks 0 names 3\nok\n\
    error node 0 has relationships\n";

/// Edges that come and go, alone and in transactions, of which the last is open at the end.
const EDGES: &[Row] = &[
    (b"node a\n", b"node 0\n", FIRST),
    (b"edge 0 t 0\n", b"edge 0\n", LOOP),
    (b"begin\n", b"ok\n", LOOP),
    (b"node a\n", b"node 1\n", LOOP),
    (b"edge 0 t 1\n", b"edge 1\n", LOOP),
    (b"delete edge 0\n", b"ok\n", LOOP),
    (b"commit\n", b"ok\n", BETWEEN),
    (b"delete edge 1\n", b"ok\n", APART),
    (b"edge 1 u 0\n", b"edge 1\n", BACK),
    (b"checkpoint\n", b"ok\n", BACK),
    (b"edge 0 u 1\n", b"edge 0\n", BOTH),
    (b"begin\n", b"ok\n", BOTH),
    (b"delete edge 1\n", b"ok\n", BOTH),
];

/// Shows the edges of two nodes, and checks the store.
const EDGES_PROBE: &[u8] = b"g.V(0).bothE()\ng.V(1).bothE()\ncheck\n";

const NO_EDGES: &[u8] = b"end\nend\nsound\n";

/// A loop at node 0, and edge 1 from there to node 1.
const TWO: &[u8] =
    b"==>e[0][0-S->0]\n==>e[1][0-A->1]\n==>e[0][0-S->0]\nend\n==>e[1][0-A->1]\nend\nsound\n";

/// Edge 2 besides, back to node 0.
const THREE: &[u8] =
    b"==>e[0][0-S->0]\n==>e[1][0-A->1]\n==>e[0][0-S->0]\n==>e[2][1-B->0]\nend\n==>e[2][1-B->0]\n\
    ==>e[1][0-A->1]\nend\nsound\n";

/// Edge 2 beside edge 1.
const DOUBLE: &[u8] =
    b"==>e[0][0-S->0]\n==>e[1][0-A->1]\n==>e[2][0-A->1]\n==>e[0][0-S->0]\nend\n==>e[1][0-A->1]\n\
    ==>e[2][0-A->1]\nend\nsound\n";

/// The same without the loop, with edge 3 back to node 0.
const LOOPLESS: &[u8] =
    b"==>e[1][0-A->1]\n==>e[2][0-A->1]\n==>e[3][1-A->0]\nend\n==>e[3][1-A->0]\n==>e[1][0-A->1]\n\
    ==>e[2][0-A->1]\nend\nsound\n";

/// Node 0 becomes dense and has a group less again, and then node 1 becomes dense in a transaction.
/// The last one is open at the end. A snapshot from before sees no group.
const DENSE: &[Row] = &[
    (b"begin\n", b"ok\n", NO_EDGES),
    (b"node a\n", b"node 0\n", NO_EDGES),
    (b"node a\n", b"node 1\n", NO_EDGES),
    (b"edge 0 S 0\n", b"edge 0\n", NO_EDGES),
    (b"edge 0 A 1\n", b"edge 1\n", NO_EDGES),
    (b"commit\n", b"ok\n", TWO),
    (b"@1 snapshot\n", b"@1 ok\n", TWO),
    (b"edge 1 B 0\n", b"edge 2\n", THREE),
    (b"delete edge 2\n", b"ok\n", TWO),
    (b"checkpoint\n", b"ok\n", TWO),
    (b"edge 0 A 1\n", b"edge 2\n", DOUBLE),
    (b"begin\n", b"ok\n", DOUBLE),
    (b"edge 1 A 0\n", b"edge 3\n", DOUBLE),
    (b"delete edge 0\n", b"ok\n", DOUBLE),
    (b"commit\n", b"ok\n", LOOPLESS),
    (
        b"@1 g.V(0).bothE()\n",
        b"@1 ==>e[0][0-S->0]\n@1 ==>e[1][0-A->1]\n@1 ==>e[0][0-S->0]\n@1 end\n",
        LOOPLESS,
    ),
    (b"begin\n", b"ok\n", LOOPLESS),
    (b"delete edge 1\n", b"ok\n", LOOPLESS),
];

/// Counts, shows the edges of node 0 and the values of a key, and checks the store.
const LOOPS_PROBE: &[u8] = b"stats\ng.V(0).outE().id()\ng.V().values('x')\ncheck\n";

const NO_LOOPS: &[u8] = b"nodes 0 edges 0 properties 0 blocks 0 names 0\nend\nend\nsound\n";

/// A node with a text in a block.
const LONG_TEXT: &[u8] = b"nodes 1 edges 0 properties 1 blocks 1 names 2\nend\n\
    ==>'TTTTTTTTTTTTTTTTTTTTTTTTTTTTTTTTTTTTTTTTT'\nend\nsound\n";

/// Its first loops, of three types. With the third it is dense.
const ONE_LOOP: &[u8] = b"nodes 1 edges 1 properties 1 blocks 1 names 3\n==>0\nend\n\
    ==>'TTTTTTTTTTTTTTTTTTTTTTTTTTTTTTTTTTTTTTTTT'\nend\nsound\n";

const TWO_LOOPS: &[u8] = b"nodes 1 edges 2 properties 1 blocks 1 names 4\n==>0\n==>1\nend\n\
    ==>'TTTTTTTTTTTTTTTTTTTTTTTTTTTTTTTTTTTTTTTTT'\nend\nsound\n";

const THREE_LOOPS: &[u8] = b"nodes 1 edges 3 properties 1 blocks 1 names 5\n==>0\n==>1\n==>2\nend\n\
    ==>'TTTTTTTTTTTTTTTTTTTTTTTTTTTTTTTTTTTTTTTTT'\nend\nsound\n";

/// Without the second, with the text, and with a number in its place.
const LOOPS_APART: &[u8] = b"nodes 1 edges 2 properties 1 blocks 1 names 5\n==>0\n==>2\nend\n\
    ==>'TTTTTTTTTTTTTTTTTTTTTTTTTTTTTTTTTTTTTTTTT'\nend\nsound\n";

const SHORT_VALUE: &[u8] =
    b"nodes 1 edges 2 properties 1 blocks 0 names 5\n==>0\n==>2\nend\n==>1\nend\nsound\n";

/// Without the first.
const LAST_LOOP: &[u8] =
    b"nodes 1 edges 1 properties 1 blocks 0 names 5\n==>2\nend\n==>1\nend\nsound\n";

/// A node becomes dense by loops, and a group goes with the last relationship of its type. A text
/// gives its block back.
const LOOPS: &[Row] = &[
    (
        b"node a x='TTTTTTTTTTTTTTTTTTTTTTTTTTTTTTTTTTTTTTTTT'\n",
        b"node 0\n",
        LONG_TEXT,
    ),
    (b"edge 0 S 0\n", b"edge 0\n", ONE_LOOP),
    (b"edge 0 A 0\n", b"edge 1\n", TWO_LOOPS),
    (b"edge 0 B 0\n", b"edge 2\n", THREE_LOOPS),
    (b"delete edge 1\n", b"ok\n", LOOPS_APART),
    (b"set node 0 x 1\n", b"ok\n", SHORT_VALUE),
    (b"checkpoint\n", b"ok\n", SHORT_VALUE),
    (b"delete edge 0\n", b"ok\n", LAST_LOOP),
];

const LOOPS_SCRIPT: Script = Script {
    rows: LOOPS,
    probe: LOOPS_PROBE,
    nothing: NO_LOOPS,
};

const SCRIPTS: [Script; 4] = [
    Script {
        rows: NODES,
        probe: PROBE,
        nothing: NOTHING,
    },
    Script {
        rows: EDGES,
        probe: PROBE,
        nothing: NOTHING,
    },
    Script {
        rows: DENSE,
        probe: EDGES_PROBE,
        nothing: NO_EDGES,
    },
    LOOPS_SCRIPT,
];

fn lines_of(alloc: Global, rows: &[Row]) -> Result<Vec<u8>, AllocError> {
    let mut lines = Vec::new(alloc);
    for (line, _, _) in rows {
        lines.extend_from_slice(line)?;
    }
    Ok(lines)
}

fn replies_of(alloc: Global, rows: &[Row]) -> Result<Vec<u8>, AllocError> {
    let mut replies = Vec::new(alloc);
    for (_, reply, _) in rows {
        replies.extend_from_slice(reply)?;
    }
    Ok(replies)
}

/// What a later run answers to the probe is what was answered, with the line in which the stop came
/// or without it.
fn is_kept(script: Script, ended: &Ended, probed: &[u8]) -> bool {
    let mut rest = ended.output.taken();
    let mut stored = script.nothing;
    for (_, reply, after) in script.rows {
        match rest.strip_prefix(reply) {
            Some(later) => {
                rest = later;
                stored = after;
            }
            None => return probed == stored || ended.exit != Exit::DiskFault && probed == *after,
        }
    }
    probed == stored
}

/// Opens what a loss of power leaves.
fn check_left(
    rt: &impl Abort,
    alloc: Global,
    script: Script,
    ended: &Ended,
    disk: &MemoryDisk,
    choice: Crash,
) -> Result<(), AllocError> {
    let mut left = left_of(alloc, disk, choice, None)?;
    let again = run(alloc, script.probe, &mut *left)?;
    let probed = again.output.taken();
    assert!(rt; again.exit == Exit::Done, "{choice:?}");
    assert!(rt; is_kept(script, ended, probed), "{choice:?}: {probed:?}");
    Ok(())
}

/// The words of a run in which a node with a third edge is dense.
const DENSE_AT_THREE: [&str; 4] = ["nipakeel", "run", "--threshold", "2"];

/// The lines over a disk that stops at this call.
fn run_stopped(
    alloc: Global,
    lines: &[u8],
    stop: u64,
) -> Result<(Ended, Box<MemoryDisk>), AllocError> {
    let mut disk = new_disk(alloc, &[], Some(stop))?;
    let ended = run_words(alloc, &DENSE_AT_THREE, lines, &mut *disk)?;
    Ok((ended, disk))
}

/// What stands after a loss of power at the places that were under way: old bytes, new ones, zeros,
/// open gates, and drawn ones.
const CHOICES: [Crash; 5] = [
    Crash::Old,
    Crash::New,
    Crash::Fill(0),
    Crash::Fill(1),
    Crash::Mixed(1),
];

/// Opens what each of these leaves of a run that stopped at this call; and what a stopped opening
/// leaves of it.
fn check_stop(
    rt: &impl Abort,
    alloc: Global,
    script: Script,
    ended: &Ended,
    disk: &MemoryDisk,
    stop: u64,
) -> Result<(), AllocError> {
    for choice in CHOICES {
        check_left(rt, alloc, script, ended, disk, choice)?;
    }
    let mut left = left_of(alloc, disk, Crash::Fill(1), Some(1 + stop % 32))?;
    let _ = run(alloc, b"stats\n", &mut *left)?;
    check_left(rt, alloc, script, ended, &left, Crash::Fill(7))
}

/// Stops the script at each of its calls.
fn check_script(rt: &impl Abort, alloc: Global, script: Script) -> Result<(), AllocError> {
    let lines = lines_of(alloc, script.rows)?;
    let replies = replies_of(alloc, script.rows)?;
    for stop in 1..=CALLS {
        let (ended, disk) = run_stopped(alloc, &lines, stop)?;
        check_stop(rt, alloc, script, &ended, &disk, stop)?;
        if ended.output.taken() == replies.as_slice() {
            return Ok(());
        }
    }
    assert!(rt; false, "the script makes more calls");
    Ok(())
}

#[test]
fn stops_leave_any_bytes(rt: HostRuntime) -> Result<(), Fail> {
    for script in SCRIPTS {
        check_script(&rt, rt.alloc(), script)?;
    }
    Ok(())
}

/// Stops the opening of what a stop left at each of its calls, and opens what this leaves.
fn check_each_opening(
    rt: &impl Abort,
    alloc: Global,
    script: Script,
    ended: &Ended,
    disk: &MemoryDisk,
) -> Result<(), AllocError> {
    for stop in 1..=CALLS {
        let mut left = left_of(alloc, disk, Crash::Fill(1), Some(stop))?;
        let again = run(alloc, b"stats\n", &mut *left)?;
        check_left(rt, alloc, script, ended, &left, Crash::Fill(1))?;
        if again.exit == Exit::Done {
            return Ok(());
        }
    }
    assert!(rt; false, "the opening makes more calls");
    Ok(())
}

#[test]
fn each_opening_is_stopped_at_each_call(rt: HostRuntime) -> Result<(), Fail> {
    let alloc = rt.alloc();
    let lines = lines_of(alloc, LOOPS)?;
    for stop in 1..=CALLS {
        let (ended, disk) = run_stopped(alloc, &lines, stop)?;
        check_each_opening(&rt, alloc, LOOPS_SCRIPT, &ended, &disk)?;
        if ended.exit == Exit::Done {
            break;
        }
    }
    Ok(())
}

/// Lets a call of the source or of the sink fail, and opens what the run left.
fn check_streams(
    rt: &impl Abort,
    alloc: Global,
    script: Script,
    fails: Streams,
    exit: Exit,
) -> Result<bool, AllocError> {
    let lines = lines_of(alloc, script.rows)?;
    let mut disk = new_disk(alloc, &[], None)?;
    let ended = run_over(alloc, &DENSE_AT_THREE, &lines, fails, &mut *disk)?;
    check_left(rt, alloc, script, &ended, &disk, Crash::Old)?;
    assert!(rt; ended.exit == exit || ended.exit == Exit::Done, "{fails:?}");
    Ok(ended.exit == Exit::Done)
}

#[test]
fn each_call_of_a_stream_may_fail(rt: HostRuntime) -> Result<(), Fail> {
    let alloc = rt.alloc();
    for call in 1..=CALLS {
        let fails = Streams {
            source: Some(call),
            sink: None,
        };
        if check_streams(&rt, alloc, LOOPS_SCRIPT, fails, Exit::InputFault)? {
            break;
        }
    }
    for call in 1..=CALLS {
        let fails = Streams {
            source: None,
            sink: Some(call),
        };
        if check_streams(&rt, alloc, LOOPS_SCRIPT, fails, Exit::OutputFault)? {
            break;
        }
    }
    Ok(())
}

/// Opens what a loss of power leaves, up to this call, and counts its nodes.
fn count_left(
    alloc: Global,
    disk: &MemoryDisk,
    choice: Crash,
    stop: Option<u64>,
) -> Result<(Ended, Box<MemoryDisk>), AllocError> {
    let mut left = left_of(alloc, disk, choice, stop)?;
    let ended = run(alloc, COUNT, &mut *left)?;
    Ok((ended, left))
}

/// Stops the opening of the disk at this call, and the next opening too, and then counts the nodes.
/// Says whether the first opening came to its end.
fn check_stopped_twice(
    rt: &impl Abort,
    alloc: Global,
    disk: &MemoryDisk,
    stop: u64,
    counted: &[u8],
) -> Result<bool, AllocError> {
    let (first, left) = count_left(alloc, disk, Crash::Fill(9), Some(stop))?;
    let (_, left_again) = count_left(alloc, &left, Crash::Fill(9), Some(stop))?;
    let (last, _) = count_left(alloc, &left_again, Crash::Fill(1), None)?;
    assert!(rt; last.output.taken() == counted, "stop {stop}");
    Ok(first.output.taken() == counted)
}

#[test]
fn an_entry_stands_over_an_old_gate(rt: HostRuntime) -> Result<(), Fail> {
    let alloc = rt.alloc();
    let script: &[u8] =
        b"node a\ncheckpoint\nbegin\nnode a\nnode a\nnode a\nnode a\nnode a\nnode a\nnode a\n\
        commit\n";
    let mut disk = new_disk(alloc, &[], None)?;
    let made = run(alloc, script, &mut *disk)?;
    assert!(rt; made.exit == Exit::Done);
    for stop in 1..=CALLS {
        if check_stopped_twice(&rt, alloc, &disk, stop, b"==>8\nend\n")? {
            break;
        }
    }
    Ok(())
}
