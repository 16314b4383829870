use crate::error::RowError;
use crate::script::{Script, Shown};
use crate::text::{put, put_number, words_of};
use disk_model::{Disk, PlainDisk};
use graph_console::{Exit, graph_main};
use std::alloc::{AllocError, Global};
use stream_io::{Bytes, Page};

/// The bytes that an output has room for.
const OUTPUT: usize = 262_144;

/// The greatest piece of a read, in bytes.
const PIECE: usize = 16;

/// Those of the runs in pieces.
const PIECES: [usize; 5] = [1, 2, 3, 7, 65_536];

/// How a run ended, and what it wrote.
#[derive(Drop)]
struct Ended {
    exit: Exit,
    output: Page,
}

/// Carries out a run on this disk, and writes what it wrote.
pub(crate) fn put_run<D: Disk>(
    alloc: Global,
    out: &mut Vec<u8>,
    script: &Script,
    disk: &mut D,
) -> Result<(), RowError> {
    let ended = run(alloc, script, PIECE, disk)?;
    Ok(put_ended(out, &ended, script.settings.shown)?)
}

/// Carries out a run with the pieces of each size, each on a new disk, and writes what they wrote.
pub(crate) fn put_run_in_pieces(
    alloc: Global,
    out: &mut Vec<u8>,
    script: &Script,
    room: u32,
) -> Result<(), RowError> {
    let ended = run_anew(alloc, script, PIECES[0], room)?;
    for piece in &PIECES[1..] {
        let again = run_anew(alloc, script, *piece, room)?;
        if again.exit != ended.exit || again.output.taken() != ended.output.taken() {
            return Ok(put(out, &[b"differs\n"])?);
        }
    }
    Ok(put_ended(out, &ended, script.settings.shown)?)
}

fn run_anew(alloc: Global, script: &Script, piece: usize, room: u32) -> Result<Ended, RowError> {
    let mut disk = PlainDisk::new(alloc, room)?;
    run(alloc, script, piece, &mut disk)
}

fn run<D: Disk>(
    alloc: Global,
    script: &Script,
    piece: usize,
    disk: &mut D,
) -> Result<Ended, RowError> {
    let words = words_of(alloc, &script.asked)?;
    let input = Vec::from_slice(alloc, &script.input)?;
    let failing_reads = Vec::from_slice(alloc, &[script.settings.failing_read])?;
    let failing_puts = Vec::from_slice(alloc, &[script.settings.failing_put])?;
    let mut source = Bytes::new(input, piece.max(1), failing_reads)?;
    let mut output = Page::new(alloc, OUTPUT, failing_puts)?;
    let exit = graph_main(alloc, words, &mut source, &mut output, disk);
    Ok(Ended { exit, output })
}

/// Writes what is shown of an output, and the status.
fn put_ended(out: &mut Vec<u8>, ended: &Ended, shown: Shown) -> Result<(), AllocError> {
    let output = ended.output.taken();
    put_shown(out, output, shown)?;
    if !output.is_empty() && !output.ends_with(b"\n") {
        put(out, &[b"\n\\ no newline\n"])?;
    }
    put_number(out, b"exit ", ended.exit.code())?;
    put(out, &[b"\n"])
}

fn put_shown(out: &mut Vec<u8>, output: &[u8], shown: Shown) -> Result<(), AllocError> {
    match shown {
        Shown::All => put(out, &[output]),
        Shown::First(count) => put_lines(out, output, 0, count),
        Shown::Last(count) => {
            let lines = output.split_inclusive(|byte| *byte == b'\n').count() as u64;
            put_lines(out, output, lines.saturating_sub(count), lines)
        }
    }
}

/// Writes the lines from one to before another, which are numbered from 0.
fn put_lines(out: &mut Vec<u8>, output: &[u8], from: u64, to: u64) -> Result<(), AllocError> {
    let mut number = 0u64;
    for line in output.split_inclusive(|byte| *byte == b'\n') {
        if from <= number && number < to {
            put(out, &[line])?;
        }
        number = number.saturating_add(1);
    }
    Ok(())
}
