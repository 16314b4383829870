ghost use Rattle.std.specs.Prelude.{◌≡◌, ◌≤◌, ◌+◌, ◌++◌, ◌↔◌, IsTrue, [], length};

use std::marker::Model;

/// At most `N` bytes, which take no memory. Contracts see the list of bytes.
#[derive(Drop)]
pub struct ByteBuffer<const N: usize> {
    bytes: [u8; N],
    len: usize,
}

impl<const N: usize> Model for ByteBuffer<N> {
    ghost use Rattle.std.specs.Prelude.{List, ℕ, ◌≡◌, ◌≤◌, length, take};

    ghost Value = { List ℕ };

    ghost view = { λ b. take b.len b.bytes };

    ghost invariant = { λ b. b.len ≤ N };
}

impl<const N: usize> ByteBuffer<N> {
    /// No bytes.
    pub fn new() -> ByteBuffer<N>
        ensures { result ≡ [] }
    {
        ByteBuffer {
            bytes: [0; N],
            len: 0,
        }
    }

    /// Its bytes.
    pub fn as_bytes(&self) -> &[u8]
        ensures { result.now ≡ self.now }
    {
        &self.bytes[..self.len]
    }

    /// Whether so many bytes more have room.
    pub fn has_room(&self, more: usize) -> bool
        ensures { IsTrue result ↔ (length self.now + more ≤ N) }
    {
        more <= N - self.len
    }

    /// Puts the bytes at the end.
    pub fn push(&mut self, bytes: &[u8])
        requires { length self.old + length bytes.now ≤ N }
        ensures { self.new ≡ self.old ++ bytes.now }
    {
        let end = self.len + bytes.len();
        let all: &mut [u8] = &mut self.bytes;
        all[self.len..end].copy_from_slice(bytes);
        self.len = end;
    }

    /// Forgets its bytes.
    pub fn clear(&mut self)
        ensures { self.new ≡ [] }
    {
        self.len = 0;
    }
}
