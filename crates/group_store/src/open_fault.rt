use id_freelist::TakeFault;
use rec_bytes::{Damage, Fault, RowFault, SpaceFault};
use thiserror::Error;

/// Why a head isn't opened, or a group isn't made.
#[derive(Clone, Copy, Debug, PartialEq, Eq, Error)]
pub enum OpenFault {
    /// As many groups are live as their file has room for.
    #[error("the file of groups is full")]
    Full { live: u32 },
    /// There was no memory for another record.
    #[error("out of memory")]
    Memory,
    /// The disk failed.
    #[error("the disk failed")]
    Disk,
    /// A record breaks a rule of the store.
    #[error("a record of the store is damaged")]
    Damaged(Damage),
}

impl From<Fault> for OpenFault {
    ghost from_gives = { λ fault result. result ≡ of_fault fault };

    ghost use Rattle.std.specs.Prelude.{◌≡◌};
    ghost use Rattle.group_store.specs.OpenFault.{of_fault};

    fn from(fault: Fault) -> OpenFault {
        match fault {
            Fault::Memory => OpenFault::Memory,
            Fault::Disk => OpenFault::Disk,
            Fault::Damaged(damage) => OpenFault::Damaged(damage),
        }
    }
}

impl From<SpaceFault> for OpenFault {
    ghost from_gives = { λ fault result. result ≡ of_space fault };

    ghost use Rattle.std.specs.Prelude.{◌≡◌};
    ghost use Rattle.group_store.specs.OpenFault.{of_space};

    fn from(fault: SpaceFault) -> OpenFault {
        match fault {
            SpaceFault::Memory => OpenFault::Memory,
            SpaceFault::Disk => OpenFault::Disk,
        }
    }
}

impl From<RowFault> for OpenFault {
    ghost from_gives = { λ fault result. result ≡ of_row fault };

    ghost use Rattle.std.specs.Prelude.{◌≡◌};
    ghost use Rattle.group_store.specs.OpenFault.{of_row};

    fn from(fault: RowFault) -> OpenFault {
        match fault {
            RowFault::Disk => OpenFault::Disk,
            RowFault::Damaged(damage) => OpenFault::Damaged(damage),
        }
    }
}

impl From<TakeFault> for OpenFault {
    ghost from_gives = { λ fault result. result ≡ of_take fault };

    ghost use Rattle.std.specs.Prelude.{◌≡◌};
    ghost use Rattle.group_store.specs.OpenFault.{of_take};

    fn from(fault: TakeFault) -> OpenFault {
        match fault {
            TakeFault::Full { live, .. } => OpenFault::Full { live },
            TakeFault::Memory => OpenFault::Memory,
            TakeFault::Disk => OpenFault::Disk,
            TakeFault::Damaged(damage) => OpenFault::Damaged(damage),
        }
    }
}

impl From<Damage> for OpenFault {
    ghost from_gives = { λ damage result. result ≡ Damaged damage };

    ghost use Rattle.std.specs.Prelude.{◌≡◌};
    ghost use Rattle.group_store.specs.declared.open_fault.OpenFault.TheVariants.{Damaged};

    fn from(damage: Damage) -> OpenFault {
        OpenFault::Damaged(damage)
    }
}
