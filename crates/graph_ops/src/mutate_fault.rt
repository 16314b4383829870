use change_parts::ChangeFault;
use thiserror::Error;

/// Why changes were not made.
#[derive(Clone, Copy, Debug, Error)]
pub enum MutateFault {
    /// A change is refused so, or there was no memory, or the disk failed. It is never
    /// `ChangeFault::Damaged`.
    #[error("{0}")]
    Refused(ChangeFault),
    /// A record breaks a rule of the store. It isn't named: changes may have been made by then. Who
    /// drops them can ask `check`.
    #[error("a record of the store is damaged")]
    Damaged,
}
