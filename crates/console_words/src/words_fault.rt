use std::alloc::AllocError;
use thiserror::Error;

/// Why the words give nothing to do.
#[derive(Clone, Copy, Debug, Error)]
pub enum WordsFault {
    /// There was no memory to read the words.
    #[error("no memory for the words")]
    Memory,
    /// The words ask for nothing that the program does.
    #[error("the words are no command")]
    Usage,
}

impl From<AllocError> for WordsFault {
    ghost use Rattle.std.specs.Prelude.{◌≡◌};
    ghost use Rattle.console_words.specs.declared.words_fault.WordsFault.TheVariants.{Memory};

    ghost from_gives = { λ _ fault. fault ≡ Memory };

    fn from(_: AllocError) -> WordsFault {
        WordsFault::Memory
    }
}
