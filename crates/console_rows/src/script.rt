use crate::error::RowError;
use crate::text::{cut, number_of, push_bytes, put};
use std::alloc::{AllocError, Global};

/// Which lines of an output are written.
#[derive(Clone, Copy, Drop)]
pub(crate) enum Shown {
    All,
    First(u64),
    Last(u64),
}

/// What is set for the next run: the calls of its input and of its output that fail, from 1 on and
/// 0 for none, and what is shown of its output.
#[derive(Clone, Copy, Drop)]
pub(crate) struct Settings {
    pub(crate) failing_read: u64,
    pub(crate) failing_put: u64,
    pub(crate) shown: Shown,
}

/// Nothing fails, and all is shown.
pub(crate) const PLAIN: Settings = Settings {
    failing_read: 0,
    failing_put: 0,
    shown: Shown::All,
};

/// What a run is given.
#[derive(Drop)]
pub(crate) struct Script {
    /// The row that asks for it, with its words.
    pub(crate) asked: Vec<u8>,
    pub(crate) settings: Settings,
    pub(crate) input: Vec<u8>,
}

impl Script {
    /// The run that this row asks for, with no input yet.
    pub(crate) fn new(
        alloc: Global,
        asked: &[u8],
        settings: Settings,
    ) -> Result<Script, AllocError> {
        Ok(Script {
            asked: Vec::from_slice(alloc, asked)?,
            settings,
            input: Vec::new(alloc),
        })
    }

    /// Adds what a row says to the input.
    pub(crate) fn add(&mut self, row: &[u8]) -> Result<(), RowError> {
        match row.split_first() {
            Some((b'>', text)) => Ok(put(&mut self.input, &[text, b"\n"])?),
            Some((b'|', text)) => Ok(put(&mut self.input, &[text])?),
            Some((b'*', rest)) => self.add_many(rest, b"\n"),
            Some((b'+', rest)) => self.add_many(rest, b""),
            Some((b'%', bytes)) => push_bytes(&mut self.input, bytes),
            _ => Err(RowError::Malformed),
        }
    }

    /// Adds the text that stands after a number and a blank so many times, each with this end.
    fn add_many(&mut self, rest: &[u8], end: &[u8]) -> Result<(), RowError> {
        let (count, text) = cut(rest)?;
        for _ in 0..number_of(count)? {
            put(&mut self.input, &[text, end])?;
        }
        Ok(())
    }
}
