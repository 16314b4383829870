use thiserror::Error;

/// A disk, a source or a sink failed in this call; its count of faults tells that it did.
#[derive(Clone, Copy, Debug, PartialEq, Eq, Error)]
#[error("the device failed")]
pub struct Failed;
