use std::alloc::{AllocError, AllocFailed};
use std::io;

/// Why a call has no answer.
#[derive(Debug, Drop)]
pub(crate) enum RowError {
    Memory,
    /// There is no such call, or a condition of the call doesn't hold.
    Malformed,
}

impl From<AllocError> for RowError {
    fn from(_: AllocError) -> RowError {
        RowError::Memory
    }
}

impl<T: Drop> From<AllocFailed<T>> for RowError {
    fn from(_: AllocFailed<T>) -> RowError {
        RowError::Memory
    }
}

/// Why the program ends before all rows are carried out.
#[derive(Debug, Drop)]
pub(crate) enum ProgramError {
    Memory,
    Stream(io::Error),
}

impl From<AllocError> for ProgramError {
    fn from(_: AllocError) -> ProgramError {
        ProgramError::Memory
    }
}

impl From<io::Error> for ProgramError {
    fn from(error: io::Error) -> ProgramError {
        ProgramError::Stream(error)
    }
}
