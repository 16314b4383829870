use fault_count::Failed;
use rec_bytes::Damage;
use thiserror::Error;

/// Why a store can't be recovered.
#[derive(Clone, Copy, Debug, PartialEq, Eq, Error)]
pub enum RecoverFault {
    /// The disk failed.
    #[error("the disk failed")]
    Disk,
    /// The files hold something else than a store.
    #[error("the files hold no store")]
    NotAStore,
    /// A record breaks a rule. Rule 0 is that of the log: an open gate stands over an entry, and
    /// the record's number is the place of the gate. Rule 1 is that of the meta records.
    #[error("a record of the store is damaged")]
    Damaged(Damage),
}

impl From<Failed> for RecoverFault {
    ghost use Rattle.std.specs.Prelude.{◌≡◌};
    ghost use Rattle.recovery.specs.declared.recover_fault.RecoverFault.TheVariants as faults;

    ghost from_gives = { λ _ fault. fault ≡ faults.Disk };

    fn from(_: Failed) -> RecoverFault {
        RecoverFault::Disk
    }
}
