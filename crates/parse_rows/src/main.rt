//! Rows of the two parsers, as data. For each line of standard input the program writes a line:
//! - for a line of the console the command as a line spells it, `blank`, or the leftmost fault with
//!   its place, each after the session that the line names;
//! - for `$` and words, each after a blank, what they ask for, or `usage`;
//! - a title, which begins with `#`, as it is.
#![tactic(auto)]

mod command;
mod fault;
mod mutation;
mod query;
mod text;
mod words;

use crate::command::put_command;
use crate::fault::put_fault;
use crate::text::put;
use crate::words::put_asked;
use gremlin_parse::{ParsedLine, parse_line};
use plain_graph::prefix_of;
use std::alloc::{AllocError, Global};
use std::io::{self, Read, Write};

fn main(rt: HostRuntime) -> io::Result<()> {
    let alloc = rt.alloc();
    let mut rows = Vec::new(alloc);
    rt.stdin().read_to_end(&mut rows)?;
    let mut answers = Vec::new(alloc);
    let rows = rows.strip_suffix(b"\n").unwrap_or(&rows);
    for line in rows.split(|byte| *byte == b'\n') {
        put_answer(alloc, &mut answers, line)?;
    }
    rt.stdout().write_all(&answers)
}

/// Writes what a row is, on a line of its own.
fn put_answer(alloc: Global, answers: &mut Vec<u8>, line: &[u8]) -> Result<(), AllocError> {
    if line.starts_with(b"#") {
        put(answers, &[line])?;
    } else if line.starts_with(b"$") {
        put_asked(alloc, answers, line)?;
    } else {
        let ParsedLine { session, command } = parse_line(alloc, line);
        put(answers, &[prefix_of(session).as_bytes()])?;
        match command {
            Ok(command) => put_command(answers, &command)?,
            Err(fault) => put_fault(answers, fault)?,
        }
    }
    put(answers, &[b"\n"])
}
