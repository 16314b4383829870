use group_store::OpenFault;
use id_freelist::TakeFault;
use name_store::InternFault;
use prop_index::MakeFault;
use prop_store::SetFault;
use rec_bytes::{Damage, Fault, GROUPS, INDEX, RowFault, SpaceFault};
use thiserror::Error;

/// Why a change was refused.
#[derive(Clone, Copy, Debug, PartialEq, Eq, Error)]
pub enum ChangeFault {
    /// No node has the identifier.
    #[error("there is no such node")]
    NoNode { id: u32 },
    /// No edge has the identifier.
    #[error("there is no such edge")]
    NoEdge { id: u32 },
    /// The node has so many relationships.
    #[error("the node has relationships")]
    HasRelationships { id: u32, degree: u32 },
    /// The label and the key have an index.
    #[error("there is such an index")]
    IndexThere,
    /// There are as many indexes as a store may have.
    #[error("the store has as many indexes as it may have")]
    TooManyIndexes,
    /// So many nodes have the label and the key, which is more than an index may begin with.
    #[error("too many nodes have the label and the key")]
    IndexTooLarge { count: u32 },
    /// As many records of the file are live as it has room for.
    #[error("the file is full")]
    Full { file: u8, live: u32 },
    /// There are as many names as a store may have, and the change asks for one more.
    #[error("the store has as many names as it may have")]
    NamesFull { count: u32 },
    /// The element has as many properties as it may have, and the change asks for one more.
    #[error("the element has as many properties as it may have")]
    PropsFull { count: u32 },
    /// There was no memory for another record or name.
    #[error("out of memory")]
    Memory,
    /// The disk failed.
    #[error("the disk failed")]
    Disk,
    /// A record breaks a rule of the store.
    #[error("a record of the store is damaged")]
    Damaged(Damage),
}

impl From<SpaceFault> for ChangeFault {
    ghost from_gives = { λ fault result. result ≡ of_space fault };

    ghost use Rattle.std.specs.Prelude.{◌≡◌};
    ghost use Rattle.change_parts.specs.ChangeFault.{of_space};

    fn from(fault: SpaceFault) -> ChangeFault {
        match fault {
            SpaceFault::Memory => ChangeFault::Memory,
            SpaceFault::Disk => ChangeFault::Disk,
        }
    }
}

impl From<TakeFault> for ChangeFault {
    ghost from_gives = { λ fault result. result ≡ of_take fault };

    ghost use Rattle.std.specs.Prelude.{◌≡◌};
    ghost use Rattle.change_parts.specs.ChangeFault.{of_take};

    fn from(fault: TakeFault) -> ChangeFault {
        match fault {
            TakeFault::Full { file, live } => ChangeFault::Full { file, live },
            TakeFault::Memory => ChangeFault::Memory,
            TakeFault::Disk => ChangeFault::Disk,
            TakeFault::Damaged(damage) => ChangeFault::Damaged(damage),
        }
    }
}

impl From<InternFault> for ChangeFault {
    ghost from_gives = { λ fault result. result ≡ of_intern fault };

    ghost use Rattle.std.specs.Prelude.{◌≡◌};
    ghost use Rattle.change_parts.specs.ChangeFault.{of_intern};

    fn from(fault: InternFault) -> ChangeFault {
        match fault {
            InternFault::NamesFull { count } => ChangeFault::NamesFull { count },
            InternFault::Memory => ChangeFault::Memory,
            InternFault::Disk => ChangeFault::Disk,
        }
    }
}

impl From<RowFault> for ChangeFault {
    ghost from_gives = { λ fault result. result ≡ of_row fault };

    ghost use Rattle.std.specs.Prelude.{◌≡◌};
    ghost use Rattle.change_parts.specs.ChangeFault.{of_row};

    fn from(fault: RowFault) -> ChangeFault {
        match fault {
            RowFault::Disk => ChangeFault::Disk,
            RowFault::Damaged(damage) => ChangeFault::Damaged(damage),
        }
    }
}

impl From<Fault> for ChangeFault {
    ghost from_gives = { λ fault result. result ≡ of_fault fault };

    ghost use Rattle.std.specs.Prelude.{◌≡◌};
    ghost use Rattle.change_parts.specs.ChangeFault.{of_fault};

    fn from(fault: Fault) -> ChangeFault {
        match fault {
            Fault::Memory => ChangeFault::Memory,
            Fault::Disk => ChangeFault::Disk,
            Fault::Damaged(damage) => ChangeFault::Damaged(damage),
        }
    }
}

impl From<OpenFault> for ChangeFault {
    ghost from_gives = { λ fault result. result ≡ of_open fault };

    ghost use Rattle.std.specs.Prelude.{◌≡◌};
    ghost use Rattle.change_parts.specs.ChangeFault.{of_open};

    fn from(fault: OpenFault) -> ChangeFault {
        match fault {
            OpenFault::Full { live } => ChangeFault::Full { file: GROUPS, live },
            OpenFault::Memory => ChangeFault::Memory,
            OpenFault::Disk => ChangeFault::Disk,
            OpenFault::Damaged(damage) => ChangeFault::Damaged(damage),
        }
    }
}

impl From<SetFault> for ChangeFault {
    ghost from_gives = { λ fault result. result ≡ of_set fault };

    ghost use Rattle.std.specs.Prelude.{◌≡◌};
    ghost use Rattle.change_parts.specs.ChangeFault.{of_set};

    fn from(fault: SetFault) -> ChangeFault {
        match fault {
            SetFault::PropsFull { count } => ChangeFault::PropsFull { count },
            SetFault::Full { file, live } => ChangeFault::Full { file, live },
            SetFault::Memory => ChangeFault::Memory,
            SetFault::Disk => ChangeFault::Disk,
            SetFault::Damaged(damage) => ChangeFault::Damaged(damage),
        }
    }
}

impl From<MakeFault> for ChangeFault {
    ghost from_gives = { λ fault result. result ≡ of_make fault };

    ghost use Rattle.std.specs.Prelude.{◌≡◌};
    ghost use Rattle.change_parts.specs.ChangeFault.{of_make};

    fn from(fault: MakeFault) -> ChangeFault {
        match fault {
            MakeFault::There => ChangeFault::IndexThere,
            MakeFault::Many => ChangeFault::TooManyIndexes,
            MakeFault::TooLarge { count } => ChangeFault::IndexTooLarge { count },
            MakeFault::Full { live } => ChangeFault::Full { file: INDEX, live },
            MakeFault::Memory => ChangeFault::Memory,
            MakeFault::Disk => ChangeFault::Disk,
            MakeFault::Damaged(damage) => ChangeFault::Damaged(damage),
        }
    }
}
