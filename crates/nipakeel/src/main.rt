//! The console program: `main` gives `graph_main` the real source, sink and disk.
#![tactic(auto)]

use graph_console::{end_without_memory, graph_main};
use host_edge::{FileDisk, StdSink, StdSource};
use std::alloc::AllocError;
use std::process::ExitCode;
use std::rt::Env;
use std::{env, io};

/// The program's words. Where one isn't text they are none, since no command has such a word.
fn words(rt: &(impl Env + AllocGlobal)) -> Result<Vec<String>, AllocError> {
    match env::args(rt) {
        Ok(args) => args.collect(rt.alloc()),
        Err(fault) if fault.kind() == io::ErrorKind::OutOfMemory => Err(AllocError),
        Err(_) => Ok(Vec::new(rt.alloc())),
    }
}

fn main(rt: HostRuntime) -> ExitCode {
    let mut input = StdSource::new(rt.stdin());
    let mut output = StdSink::new(rt.stdout());
    let words = words(&rt);
    let alloc = rt.alloc();
    let mut disk = FileDisk::new(rt);
    let exit = match words {
        Ok(words) => graph_main(alloc, words, &mut input, &mut output, &mut disk),
        Err(AllocError) => end_without_memory(&mut output),
    };
    ExitCode::from(exit.code())
}
