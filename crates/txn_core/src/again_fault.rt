use rec_bytes::Damage;
use thiserror::Error;

/// Why a store is not recovered again.
#[derive(Clone, Copy, Debug, PartialEq, Eq, Error)]
pub enum AgainFault {
    /// The disk failed.
    #[error("the disk failed")]
    Disk,
    /// A record breaks a rule of the store, or the files hold another one or none.
    #[error("a record of the store is damaged")]
    Damaged(Damage),
}
