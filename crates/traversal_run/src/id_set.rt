ghost use Rattle.std.specs.Prelude.{◌≡◌, ◌++◌, [], ◌∷◌, cond, nat_eq, not, IfOk, OnErr};
ghost use Rattle.std.specs.List.{list_any};

use indexmap::IndexSet;
use std::alloc::{AllocError, Global};
use std::marker::Model;

/// Identifiers, each once, where one is found by its hash. Contracts see the list of them.
#[derive(Drop)]
pub(crate) struct IdSet {
    ids: IndexSet<u32>,
}

impl Model for IdSet {
    ghost use Rattle.std.specs.Prelude.{List, ℕ};

    ghost Value = { List ℕ };

    ghost view = { λ s. s.ids.keys };
}

impl IdSet {
    /// No identifiers. It takes no memory.
    pub(crate) fn new(alloc: Global) -> IdSet
        ensures { result ≡ [] }
    {
        IdSet {
            ids: IndexSet::new(alloc),
        }
    }

    /// Adds an identifier, and tells whether it wasn't there.
    pub(crate) fn add(&mut self, id: u32) -> Result<bool, AllocError>
        ensures is_new { IfOk result (λ is_new. is_new ≡ not (list_any (nat_eq id) self.old)) }
        ensures added { IfOk result (λ is_new. self.new
            ≡ cond is_new (self.old ++ id ∷ []) self.old) }
        ensures err { OnErr result (self.new ≡ self.old) }
    {
        let (_, is_new) = self.ids.insert_full(id)?;
        Ok(is_new)
    }
}
