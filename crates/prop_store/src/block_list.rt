ghost use Rattle.std.specs.Prelude.{◌≡◌, ◌<◌, ◌≤◌, [], ◌∷◌, ◌++◌, length};
ghost use Rattle.rec_bytes.specs.Format.{most_ids};
ghost use Rattle.prop_store.specs.BlockList.{AreSmall};

use arrayvec::ArrayVec;
use std::marker::Model;

/// How many blocks the longest text takes.
pub(crate) const MOST_BLOCKS: usize = 22;

/// The identifiers of the blocks of a text, in order. Contracts see the list. It takes no memory of
/// its own.
#[derive(Drop)]
pub(crate) struct BlockList {
    ids: ArrayVec<u32, MOST_BLOCKS>,
}

impl Model for BlockList {
    ghost use Rattle.std.specs.Prelude.{List, ℕ};
    ghost use Rattle.prop_store.specs.BlockList.{AreSmall};

    ghost Value = { List ℕ };

    ghost view = { λ b. b.ids.items };

    ghost invariant = { λ b. AreSmall b.ids.items };
}

impl BlockList {
    /// No blocks.
    pub(crate) fn new() -> BlockList
        ensures { result ≡ [] }
    {
        BlockList {
            ids: ArrayVec::new(),
        }
    }

    /// Puts a block after the others.
    pub(crate) fn push(&mut self, id: u32)
        requires small { id < most_ids }
        requires room { length self.old < MOST_BLOCKS }
        ensures { self.new ≡ self.old ++ id ∷ [] }
    {
        self.ids.push(id);
    }

    /// The identifiers, the first block's first.
    pub(crate) fn as_slice(&self) -> &[u32]
        ensures is { result.now ≡ self.now }
        ensures few { length result.now ≤ MOST_BLOCKS }
        ensures small { AreSmall result.now }
    {
        self.ids.as_slice()
    }
}
