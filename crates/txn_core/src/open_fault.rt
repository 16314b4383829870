use crate::Config;
use fault_count::Failed;
use rec_bytes::{Damage, Shape};
use thiserror::Error;

/// Why a store is not opened.
#[derive(Clone, Copy, Debug, PartialEq, Eq, Error)]
pub enum OpenFault {
    /// There was no memory for it.
    #[error("no memory for the store")]
    Memory,
    /// The disk failed.
    #[error("the disk failed")]
    Disk,
    /// The files hold something else.
    #[error("the files hold no store")]
    NotAStore,
    /// A record breaks a rule of the store.
    #[error("a record of the store is damaged")]
    Damaged(Damage),
    /// The store has another shape than the one that is asked for.
    #[error("the store has another shape")]
    ConfigDiffers { stored: Shape, asked: Config },
}

impl From<Failed> for OpenFault {
    ghost use Rattle.std.specs.Prelude.{◌≡◌};
    ghost use Rattle.txn_core.specs.declared.open_fault.OpenFault.TheVariants as faults;

    ghost from_gives = { λ _ fault. fault ≡ faults.Disk };

    fn from(_: Failed) -> OpenFault {
        OpenFault::Disk
    }
}
