//! The files, standard input and standard output of the system: the one crate that reaches them. No
//! call takes memory. No contract says what a file or a stream holds, only when a call counts a
//! fault.
#![tactic(auto)]

mod counting;
mod file_disk;
mod named_file;
mod std_sink;
mod std_source;

pub use file_disk::FileDisk;
pub use std_sink::StdSink;
pub use std_source::StdSource;
