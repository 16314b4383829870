use rec_bytes::{Damage, Fault};
use thiserror::Error;

/// Why no nodes are answered.
#[derive(Clone, Copy, Debug, PartialEq, Eq, Error)]
pub enum LookupFault {
    /// There is no index of the label and the key.
    #[error("there is no such index")]
    NoIndex,
    /// There was no memory for the answer, or for a value.
    #[error("no memory for the answer")]
    Memory,
    /// The disk failed.
    #[error("the disk failed")]
    Disk,
    /// A record breaks a rule of the store.
    #[error("a record of the store is damaged")]
    Damaged(Damage),
}

impl From<Fault> for LookupFault {
    ghost use Rattle.std.specs.Prelude.{◌≡◌};
    ghost use Rattle.prop_index.specs.Looking.{of_fault};

    ghost from_gives = { λ fault result. result ≡ of_fault fault };

    fn from(fault: Fault) -> LookupFault {
        match fault {
            Fault::Memory => LookupFault::Memory,
            Fault::Disk => LookupFault::Disk,
            Fault::Damaged(damage) => LookupFault::Damaged(damage),
        }
    }
}
