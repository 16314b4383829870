//! Rows of the calls of the graph's crates over a space of plain memory, as data. The lines of the
//! input:
//!
//! - `# TITLE`: is written as it is. There is a new store of the shape 50 and 64, with no names,
//!   and nothing else that a call left.
//! - `=WORD NUMBER`: from here on the word stands for the number.
//! - `:WORD CALL`: the word stands for one more call, after those for which it stood before.
//! - `.WORD`: the calls are made for which the word stands. Only those are written whose answer
//!   doesn't begin with `Ok`.
//! - `-TEXT` and an empty line mean nothing.
//! - Any other line is a call: a crate or a thing at hand, a verb, and what it is given, with a
//!   blank between two. It is written with `->` and the answer, as Rust's `{:?}` spells it, or `bad
//!   line` where there is no such call or a condition of the call doesn't hold.
//!
//! What a call is given are numbers and words that stand for them; a name after a quote; and after
//! an equals sign a value: `true`, `false`, a number, or `97x`, a text of so many letters. The file
//! of each layer says which verbs there are.
#![tactic(auto)]

mod bench;
mod call;
mod chains;
mod counted;
mod edges_met;
mod error;
mod forms;
mod graphs;
mod groups;
mod identifiers;
mod indexes;
mod mutations;
mod names;
mod nodes;
mod paths;
mod progress;
mod properties;
mod reading;
mod records;
mod relationships;
mod runs;
mod spaces;
mod spelling;
mod write_sets;

use crate::error::{ProgramError, RowError};
use crate::progress::Progress;
use std::alloc::Global;
use std::io::{Read, Write};

fn main(rt: HostRuntime) -> Result<(), ProgramError> {
    let alloc = rt.alloc();
    let mut rows = Vec::new(alloc);
    rt.stdin().read_to_end(&mut rows)?;
    let mut answers = Vec::new(alloc);
    if answer(alloc, &rows, &mut answers).is_err() {
        return Err(ProgramError::Memory);
    }
    rt.stdout().write_all(&answers)?;
    Ok(())
}

/// Carries out all rows.
fn answer(alloc: Global, rows: &[u8], out: &mut Vec<u8>) -> Result<(), RowError> {
    let mut progress = Progress::new(alloc)?;
    take_all(&mut progress, rows, out)
}

fn take_all<'a>(
    progress: &mut Progress<'a>,
    rows: &'a [u8],
    out: &mut Vec<u8>,
) -> Result<(), RowError> {
    for line in rows.split(|byte| *byte == b'\n') {
        progress.take(line, out)?;
    }
    Ok(())
}
