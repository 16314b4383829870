use rec_bytes::{Damage, Fault, RowFault};
use std::alloc::AllocError;
use thiserror::Error;

/// Why the edges of a node are not known.
#[derive(Clone, Copy, Debug, PartialEq, Eq, Error)]
pub enum ExpandFault {
    /// No node has the identifier.
    #[error("there is no such node")]
    NoNode { id: u32 },
    /// There was no memory for another row.
    #[error("out of memory")]
    Memory,
    /// The disk failed.
    #[error("the disk failed")]
    Disk,
    /// A record breaks a rule of the store.
    #[error("a record of the store is damaged")]
    Damaged(Damage),
}

impl From<RowFault> for ExpandFault {
    ghost from_gives = { λ fault result. result ≡ of_row fault };

    ghost use Rattle.std.specs.Prelude.{◌≡◌};
    ghost use Rattle.expand.specs.ExpandFault.{of_row};

    fn from(fault: RowFault) -> ExpandFault {
        match fault {
            RowFault::Disk => ExpandFault::Disk,
            RowFault::Damaged(damage) => ExpandFault::Damaged(damage),
        }
    }
}

impl From<Fault> for ExpandFault {
    ghost from_gives = { λ fault result. result ≡ of_fault fault };

    ghost use Rattle.std.specs.Prelude.{◌≡◌};
    ghost use Rattle.expand.specs.ExpandFault.{of_fault};

    fn from(fault: Fault) -> ExpandFault {
        match fault {
            Fault::Memory => ExpandFault::Memory,
            Fault::Disk => ExpandFault::Disk,
            Fault::Damaged(damage) => ExpandFault::Damaged(damage),
        }
    }
}

impl From<AllocError> for ExpandFault {
    ghost from_gives = { λ fault result. result ≡ of_memory };

    ghost use Rattle.std.specs.Prelude.{◌≡◌};
    ghost use Rattle.expand.specs.ExpandFault.{of_memory};

    fn from(_: AllocError) -> ExpandFault {
        ExpandFault::Memory
    }
}
