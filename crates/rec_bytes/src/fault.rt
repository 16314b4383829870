use crate::damage::Damage;
use crate::row_fault::RowFault;
use crate::space::SpaceFault;
use std::alloc::{AllocError, AllocFailed};
use thiserror::Error;

/// Why a call over a space gave up.
#[derive(Clone, Copy, Debug, PartialEq, Eq, Error)]
pub enum Fault {
    /// There was no memory for a record, a row or a list.
    #[error("out of memory")]
    Memory,
    /// The disk failed.
    #[error("the disk failed")]
    Disk,
    /// A record breaks a rule of the store.
    #[error("a record of the store is damaged")]
    Damaged(Damage),
}

impl From<SpaceFault> for Fault {
    ghost from_gives = { λ s r. r ≡ of_space s };

    ghost use Rattle.std.specs.Prelude.{◌≡◌};
    ghost use Rattle.rec_bytes.specs.Fault.{of_space};

    fn from(fault: SpaceFault) -> Fault {
        match fault {
            SpaceFault::Memory => Fault::Memory,
            SpaceFault::Disk => Fault::Disk,
        }
    }
}

impl From<RowFault> for Fault {
    ghost from_gives = { λ s r. r ≡ of_row s };

    ghost use Rattle.std.specs.Prelude.{◌≡◌};
    ghost use Rattle.rec_bytes.specs.Fault.{of_row};

    fn from(fault: RowFault) -> Fault {
        match fault {
            RowFault::Disk => Fault::Disk,
            RowFault::Damaged(damage) => Fault::Damaged(damage),
        }
    }
}

impl From<Damage> for Fault {
    ghost from_gives = { λ s r. r ≡ Damaged s };

    ghost use Rattle.std.specs.Prelude.{◌≡◌};
    ghost use Rattle.rec_bytes.specs.declared.fault.Fault.TheVariants.{Damaged};

    fn from(damage: Damage) -> Fault {
        Fault::Damaged(damage)
    }
}

impl From<AllocError> for Fault {
    ghost from_gives = { λ _ r. r ≡ Memory };

    ghost use Rattle.std.specs.Prelude.{◌≡◌};
    ghost use Rattle.rec_bytes.specs.declared.fault.Fault.TheVariants.{Memory};

    fn from(_: AllocError) -> Fault {
        Fault::Memory
    }
}

impl<T: Drop> From<AllocFailed<T>> for Fault {
    ghost from_gives = { λ _ r. r ≡ Memory };

    ghost use Rattle.std.specs.Prelude.{◌≡◌};
    ghost use Rattle.rec_bytes.specs.declared.fault.Fault.TheVariants.{Memory};

    fn from(_: AllocFailed<T>) -> Fault {
        Fault::Memory
    }
}
