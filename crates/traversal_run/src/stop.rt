use rec_bytes::{Damage, Fault};
use std::alloc::AllocError;

/// Why a run gives nothing more.
#[derive(Clone, Copy, Debug, PartialEq, Eq)]
pub(crate) enum Stop {
    /// All was given.
    End,
    /// There was no memory for an item.
    Memory,
    /// The disk failed.
    Disk,
    /// A record breaks a rule of the store.
    Damaged(Damage),
    /// A count would pass the greatest number of a value.
    PastCount,
}

impl From<Fault> for Stop {
    ghost use Rattle.std.specs.Prelude.{◌≡◌};
    ghost use Rattle.traversal_run.specs.Stop.{of_fault};

    ghost from_gives = { λ fault result. result ≡ of_fault fault };

    fn from(fault: Fault) -> Stop {
        match fault {
            Fault::Memory => Stop::Memory,
            Fault::Disk => Stop::Disk,
            Fault::Damaged(damage) => Stop::Damaged(damage),
        }
    }
}

impl From<AllocError> for Stop {
    ghost use Rattle.std.specs.Prelude.{◌≡◌};
    ghost use Rattle.traversal_run.specs.Stop.{of_memory};

    ghost from_gives = { λ fault result. result ≡ of_memory };

    fn from(_: AllocError) -> Stop {
        Stop::Memory
    }
}
