ghost use Rattle.std.specs.Prelude.{◌≡◌, ◌≤◌, ◌<◌, ◌++◌, ◌∷◌, []};
ghost use Rattle.std.specs.Prelude.{false, length, take, slice_get, Some, Contains};
ghost use Rattle.std.specs.Prelude.{IfSome, IfNone, IfOk, IsTrue, OnOk, OnErr};
ghost use Rattle.plain_graph.specs.Names.{IsShortName};
ghost use Rattle.rec_bytes.specs.Format.{most_names};
ghost use Rattle.name_store.specs.Names.{AreHeldNames};

use indexmap::IndexSet;
use std::alloc::{AllocError, Global};
use std::marker::Model;

/// The names in the order of their first use, each once. Contracts see their texts, and for how
/// many more there is room.
#[derive(Drop)]
pub struct Names {
    texts: IndexSet<Vec<u8>>,
}

impl Model for Names {
    ghost use Rattle.indexmap.specs.IndexSet.{spare};
    ghost use Rattle.name_store.specs.Names.{AreHeldNames, HeldNames, name_bytes};

    ghost Value = { HeldNames };

    ghost view = { λ n. record { names = name_bytes n.texts.keys; room = spare n.texts } };

    ghost invariant = { λ n. AreHeldNames (name_bytes n.texts.keys) };
}

impl Names {
    /// No names. It takes no memory.
    pub(crate) fn new(alloc: Global) -> Names
        ensures { result.names ≡ [] }
    {
        Names {
            texts: IndexSet::new(alloc),
        }
    }

    /// How many names there are.
    pub fn count(&self) -> u32
        ensures value { result ≡ length self.now.names }
        ensures few { result ≤ most_names }
        ensures are_names { AreHeldNames self.now.names }
    {
        self.texts.len() as u32
    }

    /// The number of a name.
    pub fn find(&self, text: &[u8]) -> Option<u32>
        ensures some { IfSome result (λ id. slice_get self.now.names id ≡ Some text.now) }
        ensures none { IfNone result (¬ Contains self.now.names text.now) }
    {
        let id = self.texts.get_index_of(text)?;
        Some(id as u32)
    }

    /// The name of a number.
    pub fn text(&self, id: u32) -> &[u8]
        requires { id < length self.now.names }
        ensures is { slice_get self.now.names id ≡ Some result.now }
        ensures short { IsShortName result.now }
    {
        match self.texts.get_index(id as usize) {
            Some(text) => text,
            None => unreachable!(),
        }
    }

    /// Keeps so many of the first names, or all of them. It takes no memory.
    pub fn cut(&mut self, to: u32)
        ensures { self.new.names ≡ take to self.old.names }
    {
        self.texts.truncate(to as usize);
    }

    /// The bytes of a text that is to become a name, and room for one more name.
    pub(crate) fn reserve(&mut self, text: &[u8]) -> Result<Vec<u8>, AllocError>
        ensures names { self.new.names ≡ self.old.names }
        ensures room { OnOk result (0 < self.new.room) }
        ensures text { IfOk result (λ name. name.items ≡ text.now) }
    {
        self.texts.reserve(1)?;
        Vec::from_slice(*self.texts.allocator(), text)
    }

    /// Puts a name after the others, in the room that is there.
    pub(crate) fn push_reserved(&mut self, name: Vec<u8>)
        requires short { IsShortName name.items }
        requires few { length self.old.names < most_names }
        requires new { ¬ Contains self.old.names name.items }
        requires room { 0 < self.old.room }
        ensures { self.new.names ≡ self.old.names ++ name.items ∷ [] }
    {
        match self.texts.insert_full(name) {
            Ok(_) => {}
            Err(_) => unreachable!(),
        }
    }

    /// Puts a name after the others, unless it is there already.
    pub(crate) fn push(&mut self, name: Vec<u8>) -> Result<bool, AllocError>
        requires short { IsShortName name.items }
        requires few { length self.old.names < most_names }
        ensures new { IfOk result (λ is_new. IsTrue is_new
            → self.new.names ≡ self.old.names ++ name.items ∷ []) }
        ensures known { IfOk result (λ is_new. is_new ≡ false
            → Contains self.old.names name.items × (self.new.names ≡ self.old.names)) }
        ensures err { OnErr result (self.new.names ≡ self.old.names) }
    {
        let (_, is_new) = self.texts.insert_full(name)?;
        Ok(is_new)
    }
}
