use crate::damage::Damage;

/// Why a row is not read.
#[derive(Clone, Copy, Debug, PartialEq, Eq)]
pub enum RowFault {
    /// The disk failed.
    Disk,
    /// A record breaks a rule of the store.
    Damaged(Damage),
}
