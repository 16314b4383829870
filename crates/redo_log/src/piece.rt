ghost use Rattle.std.specs.Prelude.{
  ◌≡◌,
  ◌+◌,
  ◌*◌,
  ◌-◌,
  ◌≤◌,
  ◌++◌,
  [],
  flat_map,
  length,
  take,
  drop,
  min,
};
ghost use Rattle.byteorder.specs.Endian.{little_bytes};
ghost use Rattle.redo_log.specs.Appending.{write_bytes, AreWholeFrom};

use crate::entry::PIECE_BYTES;
use byteorder::{ByteOrder, LittleEndian};
use rec_bytes::{Key, Rec, WriteSet};
use std::marker::Model;

/// How many records a piece takes. The count before them and a closed gate after them have room
/// too.
const MOST_IN_PIECE: usize = 59;

/// Bytes that go out in one write. Contracts see the list of them.
#[derive(Drop)]
pub(crate) struct Piece {
    bytes: [u8; PIECE_BYTES],
    len: usize,
}

impl Model for Piece {
    ghost use Rattle.std.specs.Prelude.{ℕ, ◌≤◌, List, take};
    ghost use Rattle.redo_log.specs.declared.entry.TheConstants.{PIECE_BYTES};

    ghost Value = { List ℕ };

    ghost view = { λ p. take p.len p.bytes };

    ghost invariant = { λ p. p.len ≤ PIECE_BYTES };
}

impl Piece {
    /// A piece of no bytes.
    pub(crate) fn new() -> Piece
        ensures { result ≡ [] }
    {
        Piece {
            bytes: [0; PIECE_BYTES],
            len: 0,
        }
    }

    /// The bytes.
    pub(crate) fn bytes(&self) -> &[u8]
        ensures { result.now ≡ self.now }
    {
        &self.bytes[..self.len]
    }

    /// Forgets the bytes.
    pub(crate) fn clear(&mut self)
        ensures { self.new ≡ [] }
    {
        self.len = 0;
    }

    /// Adds bytes.
    pub(crate) fn push(&mut self, bytes: &[u8])
        requires { length self.old + length bytes.now ≤ PIECE_BYTES }
        ensures { self.new ≡ self.old ++ bytes.now }
    {
        let end = self.len + bytes.len();
        self.bytes[self.len..end].copy_from_slice(bytes);
        self.len = end;
    }

    /// Adds how many records an entry has.
    pub(crate) fn push_count(&mut self, count: u16)
        requires { length self.old + 2 ≤ PIECE_BYTES }
        ensures { self.new ≡ self.old ++ little_bytes 2 count }
    {
        let mut number = [0; 2];
        LittleEndian::write_u16(&mut number, count);
        self.push(&number);
    }

    // Adds a written record: its file, its number and its bytes.
    fn push_write(&mut self, write: &(Key, Rec))
        requires { length self.old + 69 ≤ PIECE_BYTES }
        ensures bytes { self.new ≡ self.old ++ write_bytes write.now }
        ensures length { length self.new ≡ length self.old + 69 }
    {
        let mut number = [0; 4];
        LittleEndian::write_u32(&mut number, write.0.id);
        self.push(&[write.0.file]);
        self.push(&number);
        self.push(&write.1.bytes);
    }

    /// Adds the records from this one on that have room, and gives the number of the one after
    /// them.
    pub(crate) fn fill(&mut self, writes: &WriteSet, from: usize) -> usize
        requires from { from ≤ length writes.now.pairs }
        requires room { length self.old + 69 * 59 ≤ PIECE_BYTES }
        ensures next { result ≡ from + min 59 (length writes.now.pairs - from) }
        ensures added { self.new ≡ self.old ++ flat_map write_bytes
            (take (result - from) (drop from writes.now.pairs)) }
        ensures length { length self.new ≡ length self.old + 69 * (result - from) }
        ensures whole { AreWholeFrom writes.now.pairs from result }
    {
        let end = from + MOST_IN_PIECE.min(writes.len() - from);
        for i in from..end {
            let write = writes.at(i);
            self.push_write(&write);
        }
        end
    }
}
