use std::alloc::{AllocError, AllocFailed};
use std::io;

/// Why a row isn't carried out.
#[derive(Debug, Drop)]
pub(crate) enum RowError {
    Memory,
    /// It has no form of a row, or asks for what the disk hasn't.
    Malformed,
}

impl From<AllocError> for RowError {
    fn from(_: AllocError) -> RowError {
        RowError::Memory
    }
}

impl<T: Drop> From<AllocFailed<T>> for RowError {
    fn from(_: AllocFailed<T>) -> RowError {
        RowError::Memory
    }
}

/// Why the program ends before all rows are carried out.
#[derive(Debug, Drop)]
pub(crate) enum ProgramError {
    Memory,
    Stream(io::Error),
    /// The row in the line of this number, from 1 on.
    Row { number: u64, why: RowError },
}

impl From<AllocError> for ProgramError {
    fn from(_: AllocError) -> ProgramError {
        ProgramError::Memory
    }
}

impl From<io::Error> for ProgramError {
    fn from(error: io::Error) -> ProgramError {
        ProgramError::Stream(error)
    }
}
