ghost use Rattle.std.specs.Prelude.{◌≡◌, ◌+◌, ◌≤◌, length, nat_eq};
ghost use Rattle.std.specs.List.{list_all};
ghost use Rattle.rec_bytes.specs.Record.{field, text_in, with_field, with_text, zeros_from};

use byteorder::{ByteOrder, LittleEndian};

/// A record of 64 bytes. A number in it stands with the lowest byte first.
#[derive(Clone, Copy, Debug, PartialEq, Eq)]
pub struct Rec {
    pub bytes: [u8; 64],
}

impl Rec {
    pub const ZEROS: Rec = Rec { bytes: [0; 64] };

    /// The byte at a place.
    pub fn byte(&self, at: u8) -> u8
        requires { at + 1 ≤ 64 }
        ensures { result ≡ field 1 self.now at }
    {
        self.bytes[at as usize]
    }

    /// The number in the two bytes from a place on.
    pub fn short(&self, at: u8) -> u16
        requires { at + 2 ≤ 64 }
        ensures { result ≡ field 2 self.now at }
    {
        LittleEndian::read_u16(&self.bytes[at as usize..])
    }

    /// The number in the four bytes from a place on.
    pub fn number(&self, at: u8) -> u32
        requires { at + 4 ≤ 64 }
        ensures { result ≡ field 4 self.now at }
    {
        LittleEndian::read_u32(&self.bytes[at as usize..])
    }

    /// The number in the eight bytes from a place on.
    pub fn wide(&self, at: u8) -> u64
        requires { at + 8 ≤ 64 }
        ensures { result ≡ field 8 self.now at }
    {
        LittleEndian::read_u64(&self.bytes[at as usize..])
    }

    /// Whether zeros stand from a place on.
    pub fn is_zero_from(&self, at: u8) -> bool
        requires { at ≤ 64 }
        ensures { result ≡ zeros_from at self.now }
    {
        are_zeros(&self.bytes[at as usize..])
    }

    /// So many bytes from a place on.
    pub fn text(&self, at: u8, len: u8) -> &[u8]
        requires { at + len ≤ 64 }
        ensures { result.now ≡ text_in self.now at len }
    {
        &self.bytes[at as usize..at as usize + len as usize]
    }

    /// Writes the byte at a place.
    pub fn set_byte(&mut self, at: u8, value: u8)
        requires { at + 1 ≤ 64 }
        ensures set { self.new ≡ with_field 1 self.old at value }
        ensures got { field 1 self.new at ≡ value }
    {
        self.bytes[at as usize] = value;
    }

    /// Writes the two bytes from a place on.
    pub fn set_short(&mut self, at: u8, value: u16)
        requires { at + 2 ≤ 64 }
        ensures set { self.new ≡ with_field 2 self.old at value }
        ensures got { field 2 self.new at ≡ value }
    {
        LittleEndian::write_u16(&mut self.bytes[at as usize..], value);
    }

    /// Writes the four bytes from a place on.
    pub fn set_number(&mut self, at: u8, value: u32)
        requires { at + 4 ≤ 64 }
        ensures set { self.new ≡ with_field 4 self.old at value }
        ensures got { field 4 self.new at ≡ value }
    {
        LittleEndian::write_u32(&mut self.bytes[at as usize..], value);
    }

    /// Writes the eight bytes from a place on.
    pub fn set_wide(&mut self, at: u8, value: u64)
        requires { at + 8 ≤ 64 }
        ensures set { self.new ≡ with_field 8 self.old at value }
        ensures got { field 8 self.new at ≡ value }
    {
        LittleEndian::write_u64(&mut self.bytes[at as usize..], value);
    }

    /// Writes bytes from a place on.
    pub fn set_text(&mut self, at: u8, text: &[u8])
        requires { at + length text.now ≤ 64 }
        ensures { self.new ≡ with_text self.old at text.now }
    {
        let from = at as usize;
        self.bytes[from..from + text.len()].copy_from_slice(text);
    }
}

fn are_zeros(bytes: &[u8]) -> bool
    ensures { result ≡ list_all (λ b. nat_eq b 0) bytes.now }
{
    bytes.iter().all(|b| *b == 0)
}
