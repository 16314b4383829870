//! What steps seek by a name.

ghost use Rattle.std.specs.Prelude.{◌≡◌, Contains, IfNone, IfSome, Some, slice_get};

use crate::comparing::is_text;
use name_store::Names;
use std::cell::Cell;
use std::marker::Model;

/// The number that a name had when it was last found. Each use looks whether the name of that
/// number is the one that is sought, so a run keeps it from one result to the next.
#[derive(Drop)]
pub(crate) struct Guess {
    number: Cell<u32>,
}

impl Guess {
    /// No name was found.
    pub(crate) fn new() -> Guess {
        Guess {
            number: Cell::new(u32::MAX),
        }
    }

    /// The number of a name. The names are searched only where the last number is none of its.
    #[inline(always)]
    pub(crate) fn find(&self, names: &Names, text: &[u8]) -> Option<u32>
        ensures some { IfSome result (λ id. slice_get names.now.names id ≡ Some text.now) }
        ensures none { IfNone result (¬ Contains names.now.names text.now) }
    {
        let last = self.number.get();
        if last < names.count() && is_text(names.text(last), text) {
            return Some(last);
        }
        let number = names.find(text)?;
        self.number.set(number);
        Some(number)
    }
}

/// A name that is sought, with the number that it had last.
#[derive(Clone, Copy)]
pub(crate) struct SoughtName<'a> {
    pub(crate) text: &'a [u8],
    pub(crate) guess: &'a Guess,
}

/// What a step seeks, with the number that its name had last. Contracts see what it seeks.
#[derive(Drop)]
pub(crate) struct Sought<T> {
    pub(crate) what: T,
    pub(crate) guess: Guess,
}

impl<T> Model for Sought<T> {
    ghost Value = { T };

    ghost view = { λ s. s.what };
}

impl<T> Sought<T> {
    /// Nothing was found yet.
    pub(crate) fn new(what: T) -> Sought<T>
        ensures { result ≡ what }
    {
        Sought {
            what,
            guess: Guess::new(),
        }
    }
}
