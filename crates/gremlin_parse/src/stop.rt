use crate::bad_token::BadToken;
use std::alloc::{AllocError, AllocFailed};

/// Why reading stopped. `left` is the number of bytes from there to the line's end.
#[derive(Clone, Copy)]
pub(crate) enum Stop {
    /// There was no memory for the command.
    Memory,
    /// No line of the grammar goes on so.
    Syntax { left: usize },
    /// Such a token stands there.
    Bad { token: BadToken, left: usize },
}

impl From<AllocError> for Stop {
    ghost use Rattle.std.specs.Prelude.{◌≡◌};
    ghost use Rattle.gremlin_parse.specs.declared.stop.Stop.TheVariants.{Memory};

    ghost from_gives = { λ _ stop. stop ≡ Memory };

    fn from(_: AllocError) -> Stop {
        Stop::Memory
    }
}

impl<T: Drop> From<AllocFailed<T>> for Stop {
    ghost use Rattle.std.specs.Prelude.{◌≡◌};
    ghost use Rattle.gremlin_parse.specs.declared.stop.Stop.TheVariants.{Memory};

    ghost from_gives = { λ _ stop. stop ≡ Memory };

    fn from(_: AllocFailed<T>) -> Stop {
        Stop::Memory
    }
}
