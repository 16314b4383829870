ghost use Rattle.std.specs.Prelude.{
  ◌≡◌,
  ◌≤◌,
  ◌<◌,
  ◌+◌,
  ◌-◌,
  length,
  take,
  drop,
  slice_range,
  IfOk,
  OnOk,
  OnErr,
};
ghost use Rattle.stream_io.specs.Streams.{GivesNext};
ghost use Rattle.fault_count.specs.Cause.{HasCause};

use crate::{MAX_LINE_BYTES, Source};
use fault_count::Failed;
use std::alloc::{AllocError, Global};

/// The least room that a read is given.
const READ_BYTES: usize = 65_536;

/// With room for a read and two lines a byte is moved to the front at most once.
pub(crate) const BUFFER_BYTES: usize = READ_BYTES + 2 * MAX_LINE_BYTES;

/// Bytes in a buffer, from `start` to `end`; no newline stands before `searched`.
#[derive(Drop)]
pub(crate) struct Window {
    pub(crate) buffer: Vec<u8>,
    pub(crate) start: usize,
    pub(crate) searched: usize,
    pub(crate) end: usize,
}

impl Window {
    ghost use Rattle.stream_io.specs.Window.{held_bytes, IsInOrder};
    ghost use Rattle.stream_io.specs.Found.{Grows};

    /// Holds nothing. It takes the buffer's memory.
    pub(crate) fn new(alloc: Global) -> Result<Window, AllocError>
        ensures order { IfOk result IsInOrder }
        ensures empty { IfOk result (λ w. (w.start ≡ 0) × (w.end ≡ 0)) }
    {
        Ok(Window {
            buffer: vec![in alloc; 0; BUFFER_BYTES]?,
            start: 0,
            searched: 0,
            end: 0,
        })
    }

    /// Makes room for a read behind the bytes.
    fn make_room(&mut self)
        requires order { IsInOrder self.old }
        requires short { length (held_bytes self.old) ≤ 8192 }
        ensures order { IsInOrder self.new }
        ensures held { held_bytes self.new ≡ held_bytes self.old }
        ensures room { self.new.end ≤ 16384 }
    {
        if BUFFER_BYTES - self.end < READ_BYTES {
            move_to_front(&mut self.buffer, self.start, self.end);
            self.searched -= self.start;
            self.end -= self.start;
            self.start = 0;
        }
    }

    /// Asks the source once for the bytes behind those held, at most as many as are wanted.
    pub(crate) fn grow<I: Source>(&mut self, wanted: usize, source: &mut I) -> Result<usize, Failed>
        requires order { IsInOrder self.old }
        requires short { length (held_bytes self.old) ≤ 8192 }
        requires wanted { 0 < wanted }
        ensures order { IsInOrder self.new }
        ensures grown { IfOk result (λ count. (count ≤ wanted)
            × Grows I.tells (held_bytes self.old) (held_bytes self.new) (I.left source.old)
            (I.left source.new) count) }
        ensures held { OnErr result (held_bytes self.new ≡ held_bytes self.old) }
        ensures none_lost { I.tells → OnErr result (I.left source.new ≡ I.left source.old) }
        ensures quiet { OnOk result (I.faults source.new ≡ I.faults source.old) }
        ensures cause { HasCause (I.faults source.old) (I.faults source.new) result }
    {
        self.make_room();
        let to = self.end + wanted.min(BUFFER_BYTES - self.end);
        let count = read_into(&mut self.buffer, self.end, to, source)?;
        self.end += count;
        Ok(count)
    }
}

/// Moves a part of the buffer to its front.
fn move_to_front(buffer: &mut [u8], from: usize, to: usize)
    requires order { from ≤ to }
    requires within { to ≤ length buffer.old }
    ensures { slice_range buffer.new 0 (to - from) ≡ slice_range buffer.old from to }
{
    buffer.copy_within(from..to, 0);
}

/// Reads into a part of the buffer.
fn read_into<I: Source>(
    buffer: &mut [u8],
    from: usize,
    to: usize,
    source: &mut I,
) -> Result<usize, Failed>
    requires order { from < to }
    requires within { to ≤ length buffer.old }
    ensures stays { take from buffer.new ≡ take from buffer.old }
    ensures count { IfOk result (λ count. from + count ≤ to) }
    ensures quiet { OnOk result (I.faults source.new ≡ I.faults source.old) }
    ensures given { I.tells → GivesNext (I.left source.old) (I.left source.new)
        (drop from buffer.new) result }
    ensures cause { HasCause (I.faults source.old) (I.faults source.new) result }
{
    source.read(&mut buffer[from..to])
}
