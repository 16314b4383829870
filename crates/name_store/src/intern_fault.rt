use rec_bytes::SpaceFault;
use thiserror::Error;

/// Why a name gets no number.
#[derive(Clone, Copy, Debug, PartialEq, Eq, Error)]
pub enum InternFault {
    /// There are as many names as a store may have, and it is none of them.
    #[error("the store has as many names as it may have")]
    NamesFull { count: u32 },
    /// There was no memory for it.
    #[error("no memory for the name")]
    Memory,
    /// The disk failed.
    #[error("the disk failed")]
    Disk,
}

impl From<SpaceFault> for InternFault {
    ghost use Rattle.std.specs.Prelude.{◌≡◌};
    ghost use Rattle.name_store.specs.InternFault.{fault_of};

    ghost from_gives = { λ fault result. result ≡ fault_of fault };

    fn from(fault: SpaceFault) -> InternFault {
        match fault {
            SpaceFault::Memory => InternFault::Memory,
            SpaceFault::Disk => InternFault::Disk,
        }
    }
}
