ghost use Rattle.std.specs.Prelude.{
  ◌≡◌,
  ◌+◌,
  ◌≤◌,
  ◌<◌,
  ◌%◌,
  ℕ,
  List,
  length,
  slice_index,
  take,
  drop,
  ◌++◌,
  replicate,
  IfOk,
  nat_le,
  nat_lt,
  ◌&&◌,
  ◌-◌,
  if◌then◌else◌,
};
ghost use Rattle.disk_model.specs.Generator.{drawn, state_after};
ghost use Rattle.disk_model.specs.Marks.{is_marked};
ghost use Rattle.disk_model.specs.Places.{count_below};

use crate::generator::Generator;
use crate::poke_times::PokeTimes;
use std::alloc::{AllocError, Global};
use std::marker::Model;

/// A file of bytes whose room stands from the start. Contracts see the bytes.
#[derive(Drop)]
pub(crate) struct PlainFile {
    bytes: Vec<u8>,
}

impl Model for PlainFile {
    ghost Value = { List ℕ };

    ghost view = { λ f. f.bytes.items };
}

impl PlainFile {
    /// A file of this many zeros.
    pub(crate) fn zeros(alloc: Global, room: usize) -> Result<PlainFile, AllocError>
        ensures { IfOk result (λ f. f ≡ replicate room 0) }
    {
        Ok(PlainFile {
            bytes: vec![in alloc; 0; room]?,
        })
    }

    /// How many bytes the file has room for.
    pub(crate) fn room(&self) -> usize
        ensures { result ≡ length self.now }
    {
        self.bytes.len()
    }

    /// Fills `out` with the bytes from `at` on, zeros past the end.
    pub(crate) fn read(&self, at: usize, out: &mut [u8])
        ensures { (i : ℕ) → i < length out.old
            → slice_index out.new i ≡ slice_index self.now (at + i) }
    {
        let start = at.min(self.bytes.len());
        let count = out.len().min(self.bytes.len() - start);
        let (front, rest) = out.split_at_mut(count);
        front.copy_from_slice(&self.bytes[start..start + count]);
        rest.fill(0);
    }

    /// Puts the bytes in the place of those from `at` on.
    pub(crate) fn write(&mut self, at: usize, bytes: &[u8])
        requires { at + length bytes.now ≤ length self.old }
        ensures { self.new ≡ take at self.old ++ bytes.now ++ drop
            (at + length bytes.now) self.old }
    {
        self.bytes[at..at + bytes.len()].copy_from_slice(bytes);
    }

    /// Puts the bytes in the place of those from `at` on, at each place where the kept call of this
    /// number counts.
    pub(crate) fn lay(&mut self, at: usize, bytes: &[u8], pokes: &PokeTimes, call: usize)
        requires { at + length bytes.now ≤ length self.old }
        ensures room { length self.new ≡ length self.old }
        ensures bytes { (i : ℕ) → slice_index self.new i
            ≡ (if (nat_le at i && nat_lt i (at + length bytes.now)) && nat_le
            (slice_index pokes.now i) call then slice_index bytes.now (i - at)
            else slice_index self.old i) }
    {
        lay_bytes(&mut self.bytes, at, bytes, pokes, call);
    }

    /// Puts this byte at each place from `at` on, up to `len` of them or the end, where the kept
    /// call of this number counts.
    pub(crate) fn fill(&mut self, at: usize, len: usize, byte: u8, pokes: &PokeTimes, call: usize)
        ensures room { length self.new ≡ length self.old }
        ensures bytes { (i : ℕ) → slice_index self.new i
            ≡ (if ((nat_le at i && nat_lt i (at + len)) && nat_lt i (length self.old)) && nat_le
            (slice_index pokes.now i) call then byte else slice_index self.old i) }
    {
        let start = at.min(self.bytes.len());
        let count = len.min(self.bytes.len() - start);
        fill_bytes(&mut self.bytes, start, start + count, byte, pokes, call);
    }

    /// Puts the next drawn byte at each place that is marked.
    pub(crate) fn draw_marked(&mut self, marks: &PlainFile, generator: &mut Generator)
        requires { length marks.now ≡ length self.old }
        ensures room { length self.new ≡ length self.old }
        ensures bytes { (i : ℕ) → slice_index self.new i
            ≡ (if is_marked marks.now i
            then drawn generator.old (count_below (is_marked marks.now) i) % 256
            else slice_index self.old i) }
        ensures draws { generator.new
            ≡ state_after generator.old (count_below (is_marked marks.now) (length marks.now)) }
    {
        draw_bytes(&mut self.bytes, &marks.bytes, generator);
    }

    /// A file of the same bytes.
    pub(crate) fn copy(&self, alloc: Global) -> Result<PlainFile, AllocError>
        ensures { IfOk result (λ f. f ≡ self.now) }
    {
        Ok(PlainFile {
            bytes: Vec::from_slice(alloc, &self.bytes)?,
        })
    }
}

// Puts the next drawn byte at each place that is marked.
fn draw_bytes(bytes: &mut [u8], marks: &[u8], generator: &mut Generator)
    requires { length marks.now ≡ length bytes.old }
    ensures bytes { (i : ℕ) → slice_index bytes.new i
        ≡ (if is_marked marks.now i then drawn generator.old
        (count_below (is_marked marks.now) i) % 256 else slice_index bytes.old i) }
    ensures draws { generator.new
        ≡ state_after generator.old (count_below (is_marked marks.now) (length marks.now)) }
{
    for i in 0..bytes.len() {
        if marks[i] > 0 {
            bytes[i] = (generator.draw() % 256) as u8;
        }
    }
}

// Puts the bytes in the place of those from `at` on, where the call counts.
fn lay_bytes(bytes: &mut [u8], at: usize, part: &[u8], pokes: &PokeTimes, call: usize)
    requires { at + length part.now ≤ length bytes.old }
    ensures { (i : ℕ) → slice_index bytes.new i
        ≡ (if (nat_le at i && nat_lt i (at + length part.now)) && nat_le
        (slice_index pokes.now i) call then slice_index part.now (i - at)
        else slice_index bytes.old i) }
{
    for k in 0..part.len() {
        if pokes.counts(at + k, call) {
            bytes[at + k] = part[k];
        }
    }
}

// Puts this byte at each place from `start` on and before `end`, where the call counts.
fn fill_bytes(bytes: &mut [u8], start: usize, end: usize, byte: u8, pokes: &PokeTimes, call: usize)
    requires order { start ≤ end }
    requires within { end ≤ length bytes.old }
    ensures { (i : ℕ) → slice_index bytes.new i
        ≡ (if (nat_le start i && nat_lt i end) && nat_le (slice_index pokes.now i) call then byte
        else slice_index bytes.old i) }
{
    for i in start..end {
        if pokes.counts(i, call) {
            bytes[i] = byte;
        }
    }
}

/// The same files once more.
pub(crate) fn copies(alloc: Global, files: &[PlainFile]) -> Result<Vec<PlainFile>, AllocError>
    ensures { IfOk result (λ copies. copies.items ≡ files.now) }
{
    let mut copies = Vec::with_capacity(alloc, files.len())?;
    for file in files {
        copies.push(file.copy(alloc)?)?;
    }
    Ok(copies)
}
