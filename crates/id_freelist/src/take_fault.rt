use rec_bytes::{Damage, SpaceFault};
use thiserror::Error;

/// Why no identifier was taken.
#[derive(Clone, Copy, Debug, PartialEq, Eq, Error)]
pub enum TakeFault {
    /// As many are live as the file has room for.
    #[error("the file is full")]
    Full { file: u8, live: u32 },
    /// There was no memory for another record.
    #[error("out of memory")]
    Memory,
    /// The disk failed.
    #[error("the disk failed")]
    Disk,
    /// A record breaks a rule of the store.
    #[error("a record of the store is damaged")]
    Damaged(Damage),
}

impl From<SpaceFault> for TakeFault {
    ghost from_gives = { λ s r. r ≡ of_space s };

    ghost use Rattle.std.specs.Prelude.{◌≡◌};
    ghost use Rattle.id_freelist.specs.TakeFault.{of_space};

    fn from(fault: SpaceFault) -> TakeFault {
        match fault {
            SpaceFault::Memory => TakeFault::Memory,
            SpaceFault::Disk => TakeFault::Disk,
        }
    }
}
