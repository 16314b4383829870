//! What the words behind the program's name ask for. A call goes over the words twice, and builds
//! clap's command anew.
#![tactic(auto)]

mod asked;
mod command;
mod run_options;
mod sample_options;
mod words;
mod words_fault;

pub use asked::Asked;
pub use run_options::RunOptions;
pub use sample_options::SampleOptions;
pub use words::read_words;
pub use words_fault::WordsFault;
