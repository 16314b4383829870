//! Runs of the program over a source, a sink and a disk in memory.
use disk_model::{Calls, Crash, Disk, FaultPlan, MemoryDisk, Room};
use graph_console::{Exit, graph_main};
use std::alloc::{AllocError, Global};
use stream_io::{Bytes, Page};

/// Asks how many nodes there are.
pub(crate) const COUNT: &[u8] = b"g.V().count()\n";

/// More calls than any script here makes.
pub(crate) const CALLS: u64 = 400;

/// What a disk keeps of its calls.
const ROOM: Room = Room {
    calls: 512,
    bytes: 65_536,
};

/// The greatest piece of a read, in bytes.
const PIECE: usize = 16;

/// The bytes that the sink has room for.
const OUTPUT: usize = 131_072;

/// How a run ended, and what it wrote.
#[derive(Drop)]
pub(crate) struct Ended {
    pub(crate) exit: Exit,
    pub(crate) output: Page,
}

/// A new disk with room for a store of 16 nodes. The calls of these numbers fail, and all from the
/// number of the stop on.
pub(crate) fn new_disk(
    alloc: Global,
    fails: &[u64],
    stop: Option<u64>,
) -> Result<Box<MemoryDisk>, AllocError> {
    let disk = MemoryDisk::new(alloc, 16, ROOM, plan(alloc, fails, stop)?)?;
    Ok(Box::new(alloc, disk)?)
}

/// The disk that a loss of power leaves, which stops again at this call.
pub(crate) fn left_of(
    alloc: Global,
    disk: &MemoryDisk,
    choice: Crash,
    stop: Option<u64>,
) -> Result<Box<MemoryDisk>, AllocError> {
    let left = disk.after_crash(alloc, choice, ROOM, plan(alloc, &[], stop)?)?;
    Ok(Box::new(alloc, left)?)
}

fn plan(alloc: Global, fails: &[u64], stop: Option<u64>) -> Result<FaultPlan, AllocError> {
    let fails = Calls::new(Vec::from_slice(alloc, fails)?);
    Ok(FaultPlan { fails, stop })
}

/// Which call of the source and which of the sink fails.
#[derive(Clone, Copy, Debug)]
pub(crate) struct Streams {
    pub(crate) source: Option<u64>,
    pub(crate) sink: Option<u64>,
}

/// A run of these words over a disk that may hold a store, and over such streams.
pub(crate) fn run_over<D: Disk>(
    alloc: Global,
    words: &[&str],
    input: &[u8],
    fails: Streams,
    disk: &mut D,
) -> Result<Ended, AllocError> {
    let words = words_of(alloc, words)?;
    let source_fails = Vec::from_slice(alloc, fails.source.as_slice())?;
    let sink_fails = Vec::from_slice(alloc, fails.sink.as_slice())?;
    let mut source = Bytes::new(Vec::from_slice(alloc, input)?, PIECE, source_fails)?;
    let mut output = Page::new(alloc, OUTPUT, sink_fails)?;
    let exit = graph_main(alloc, words, &mut source, &mut output, disk);
    Ok(Ended { exit, output })
}

/// A run of these words, whose streams don't fail.
pub(crate) fn run_words<D: Disk>(
    alloc: Global,
    words: &[&str],
    input: &[u8],
    disk: &mut D,
) -> Result<Ended, AllocError> {
    let fails = Streams {
        source: None,
        sink: None,
    };
    run_over(alloc, words, input, fails, disk)
}

/// A run with no option.
pub(crate) fn run<D: Disk>(alloc: Global, input: &[u8], disk: &mut D) -> Result<Ended, AllocError> {
    run_words(alloc, &["nipakeel", "run"], input, disk)
}

fn words_of(alloc: Global, words: &[&str]) -> Result<Vec<String>, AllocError> {
    let mut all = Vec::new(alloc);
    for word in words {
        all.push(String::from_str(alloc, word)?)?;
    }
    Ok(all)
}
