//! Sources and sinks of bytes as every layer above sees them, both in memory for tests, and a
//! reader of lines. The reader takes its one buffer when it is made, asks the source for large
//! pieces, and copies a byte twice at most.
#![tactic(auto)]

mod bytes;
mod calls;
mod line_reader;
mod page;
mod streams;
mod window;

pub use bytes::Bytes;
pub use line_reader::{LineAnswer, LineReader, MAX_INPUT_BYTES, MAX_LINE_BYTES};
pub use page::Page;
pub use streams::{Sink, Source};
