use id_freelist::TakeFault;
use rec_bytes::{Damage, Fault, SpaceFault};
use thiserror::Error;

/// Why a property is not set.
#[derive(Clone, Copy, Debug, PartialEq, Eq, Error)]
pub enum SetFault {
    /// The element has as many properties as it may, and the key is none of theirs.
    #[error("the element has as many properties as it may have")]
    PropsFull { count: u32 },
    /// The file has no room for the records that it would need.
    #[error("the file is full")]
    Full { file: u8, live: u32 },
    /// There was no memory for another record.
    #[error("no memory for the property")]
    Memory,
    /// The disk failed.
    #[error("the disk failed")]
    Disk,
    /// A record breaks a rule of the store.
    #[error("a record of the properties is damaged")]
    Damaged(Damage),
}

impl From<Fault> for SetFault {
    ghost use Rattle.std.specs.Prelude.{◌≡◌};
    ghost use Rattle.prop_store.specs.SetFault.{of_fault};

    ghost from_gives = { λ fault result. result ≡ of_fault fault };

    fn from(fault: Fault) -> SetFault {
        match fault {
            Fault::Memory => SetFault::Memory,
            Fault::Disk => SetFault::Disk,
            Fault::Damaged(damage) => SetFault::Damaged(damage),
        }
    }
}

impl From<SpaceFault> for SetFault {
    ghost use Rattle.std.specs.Prelude.{◌≡◌};
    ghost use Rattle.prop_store.specs.SetFault.{of_space};

    ghost from_gives = { λ fault result. result ≡ of_space fault };

    fn from(fault: SpaceFault) -> SetFault {
        match fault {
            SpaceFault::Memory => SetFault::Memory,
            SpaceFault::Disk => SetFault::Disk,
        }
    }
}

impl From<TakeFault> for SetFault {
    ghost use Rattle.std.specs.Prelude.{◌≡◌};
    ghost use Rattle.prop_store.specs.SetFault.{of_take};

    ghost from_gives = { λ fault result. result ≡ of_take fault };

    fn from(fault: TakeFault) -> SetFault {
        match fault {
            TakeFault::Full { file, live } => SetFault::Full { file, live },
            TakeFault::Memory => SetFault::Memory,
            TakeFault::Disk => SetFault::Disk,
            TakeFault::Damaged(damage) => SetFault::Damaged(damage),
        }
    }
}
