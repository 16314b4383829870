//! Which graph the files of a store have: what a content of the disk stands for. Definitions of
//! specs/ and their laws; there is no code that runs.
#![tactic(auto)]

mod laws;

pub use laws::stands_for_one_graph;
