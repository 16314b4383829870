//! The console over any source, sink and disk: lines of the input in, replies out. `graph_main` is
//! the whole program, and each of its exits has a status.
#![tactic(auto)]

mod exit;
mod follow;
mod lives;
mod program;
mod sample;
mod sending;
mod serve;

pub use exit::Exit;
pub use lives::keeps_over_runs;
pub use program::{end_without_memory, graph_main};
pub use sending::sends_what_it_commits;
