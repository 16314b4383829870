ghost use Rattle.std.specs.Prelude.{◌≡◌, ◌<◌, ◌≤◌, ℕ, [], ◌∷◌, IfNone, IfOk, IfSome};
ghost use Rattle.std.specs.Prelude.{length, nat_eq};
ghost use Rattle.std.specs.List.{AllByRecursion, list_any};

use std::alloc::{AllocError, Global};
use std::marker::Model;

/// Identifiers by ascending number, each once. Contracts see the list of numbers.
#[derive(Drop)]
pub(crate) struct AskedIds {
    /// The greatest one first.
    ids: Vec<u32>,
}

impl Model for AskedIds {
    ghost use Rattle.std.specs.Prelude.{List, ℕ, reverse};
    ghost use Rattle.traversal_run.specs.AskedIds.{Ascends};

    ghost Value = { List ℕ };

    ghost view = { λ a. reverse a.ids.items };

    ghost invariant = { λ a. Ascends (reverse a.ids.items) };
}

impl AskedIds {
    /// These identifiers.
    pub(crate) fn new(alloc: Global, ids: &[u32]) -> Result<AskedIds, AllocError>
        ensures asked { IfOk result (λ asked. (id : ℕ)
            → list_any (nat_eq id) asked ≡ list_any (nat_eq id) ids.now) }
        ensures few { IfOk result (λ asked. length asked ≤ length ids.now) }
    {
        let mut ids = Vec::from_slice(alloc, ids)?;
        ids.sort()?;
        ids.dedup();
        ids.reverse();
        Ok(AskedIds { ids })
    }

    /// Takes the least.
    pub(crate) fn take_first(&mut self) -> Option<u32>
        ensures some { IfSome result (λ id. self.old ≡ id ∷ self.new) }
        ensures ascends { IfSome result (λ id. AllByRecursion (λ later. id < later) self.new) }
        ensures none { IfNone result ((self.old ≡ []) × (self.new ≡ [])) }
    {
        self.ids.pop()
    }
}
