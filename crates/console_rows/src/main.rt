//! Rows of whole runs of the console, as data: standard input has what the runs are given, over
//! streams and disks in memory, and standard output gets what they write. The lines of the input:
//!
//! - `# TITLE`: is written as it is. There is a new empty disk with room for a store of 16 nodes,
//!   and nothing that was set before holds any more.
//! - `@disk N`: there is a new empty disk with room for a store of so many nodes.
//! - `@fail-call N`, `@stop N`: there is a new empty disk, with the room of the one before, of
//!   which the Nth call fails, or all from the Nth on. `@poke` and `@show` aren't for it.
//! - `@left KIND`: there is what a loss of power leaves of such a disk, and none of its calls
//!   fails. What was under way has `old` bytes, `new` ones, the byte of `fill BYTE`, or those that
//!   `mixed SEED` draws.
//! - `@poke FILE PLACE BYTES`: these bytes are put into a file of the disk.
//! - `@show FILE PLACE COUNT`: so many bytes of a file are written, as numbers.
//! - `@pieces`: from here on each run is five runs, each on a new disk, whose input comes in pieces
//!   of 1, 2, 3, 7 and 65,536 bytes. What they write is written once if it is the same, and
//!   `differs` if it isn't.
//! - `@fail-read N`, `@fail-put N`: in the next run this call of the input or of the output fails.
//! - `@first N`, `@last N`: of what the next run writes only so many lines are written.
//! - `$ WORDS`: a run with these command-line arguments, each after a blank, the program's name
//!   first. The lines after it give its input, which comes in pieces of 16 bytes:
//!     - `>TEXT`: the text and a newline;
//!     - `|TEXT`: the text alone;
//!     - `*N TEXT`: the text and a newline, so many times;
//!     - `+N TEXT`: the text alone, so many times;
//!     - `%BYTES`: these bytes.
//!
//! A run is carried out when its input is complete. After what it wrote comes a line with `exit`
//! and its status. BYTES are numbers from 0 to 255 with a blank between two, and `N*COUNT` among
//! them is so many equal ones. Empty lines mean nothing. Any other line, and one that asks for what
//! isn't there, ends the program with the status 1, after what was to be written before.
#![tactic(auto)]

mod error;
mod failing;
mod progress;
mod run;
mod script;
mod text;

use crate::error::ProgramError;
use crate::progress::Progress;
use std::io::{Read, Write};

fn main(rt: HostRuntime) -> Result<(), ProgramError> {
    let alloc = rt.alloc();
    let mut rows = Vec::new(alloc);
    rt.stdin().read_to_end(&mut rows)?;
    let mut progress = Progress::new(alloc)?;
    let answered = answer(&mut progress, &rows);
    rt.stdout().write_all(progress.written())?;
    answered
}

/// Carries out all rows.
fn answer(progress: &mut Progress, rows: &[u8]) -> Result<(), ProgramError> {
    let mut number = 0u64;
    for line in rows.split(|byte| *byte == b'\n') {
        number = number.saturating_add(1);
        if let Err(why) = progress.take(line) {
            return Err(ProgramError::Row { number, why });
        }
    }
    match progress.end_run() {
        Ok(()) => Ok(()),
        Err(why) => Err(ProgramError::Row { number, why }),
    }
}
