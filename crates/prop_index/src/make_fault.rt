use rec_bytes::{Damage, Fault};
use thiserror::Error;

/// Why no index is made.
#[derive(Clone, Copy, Debug, PartialEq, Eq, Error)]
pub enum MakeFault {
    /// There is an index of the label and the key.
    #[error("there is such an index")]
    There,
    /// There are as many indexes as there may be.
    #[error("there are as many indexes as there may be")]
    Many,
    /// More nodes of the label have the key than an index is made for.
    #[error("too many nodes have the key")]
    TooLarge { count: u32 },
    /// The file has no room for the records that it would need.
    #[error("the file is full")]
    Full { live: u32 },
    /// There was no memory for the entries, for a value, or for another record.
    #[error("no memory for the index")]
    Memory,
    /// The disk failed.
    #[error("the disk failed")]
    Disk,
    /// A record breaks a rule of the store.
    #[error("a record of the store is damaged")]
    Damaged(Damage),
}

impl From<Fault> for MakeFault {
    ghost use Rattle.std.specs.Prelude.{◌≡◌};
    ghost use Rattle.prop_index.specs.MakeFault.{of_fault};

    ghost from_gives = { λ fault result. result ≡ of_fault fault };

    fn from(fault: Fault) -> MakeFault {
        match fault {
            Fault::Memory => MakeFault::Memory,
            Fault::Disk => MakeFault::Disk,
            Fault::Damaged(damage) => MakeFault::Damaged(damage),
        }
    }
}
