ghost use Rattle.std.specs.Prelude.{
  ◌≡◌,
  ◌<◌,
  ◌↔◌,
  ◌⊎◌,
  ◌+◌,
  ◌++◌,
  [],
  length,
  IsErr,
  IfOk,
  OnOk,
  OnErr,
};
ghost use Rattle.fault_count.specs.Cause.{raised, HasCause};
ghost use Rattle.stream_io.specs.Streams.{Takes};
ghost use Rattle.stream_io.specs.Memory.{NextFails};

use crate::calls::next_call_fails;
use crate::streams::Sink;
use fault_count::{Count, Failed};
use std::alloc::{AllocError, Global};
use std::marker::Model;

/// A sink in memory whose room is taken when it is made. It fails in the calls that it was told to,
/// and where the bytes pass its room.
#[derive(Drop)]
pub struct Page {
    taken: Vec<u8>,
    room: usize,
    fails: Vec<u64>,
    calls: Count,
    faults: Count,
}

impl Model for Page {
    ghost use Rattle.std.specs.Prelude.{◌≤◌, vec_len, vec_capacity};
    ghost use Rattle.stream_io.specs.Memory.{Receipt};

    ghost Value = { Receipt };

    ghost view = { λ p. record {
      taken = p.taken.items;
      room = p.room;
      fails = p.fails.items;
      calls = p.calls;
      faults = p.faults;
    } };

    ghost invariant = { λ p. (vec_len p.taken ≤ p.room) × (p.room ≤ vec_capacity p.taken) };
}

impl Page {
    /// A sink with room for so many bytes that fails in the calls whose numbers are among `fails`.
    /// The first call has the number 1, and the number stays at 2^64 - 1.
    pub fn new(alloc: Global, room: usize, fails: Vec<u64>) -> Result<Page, AllocError>
        ensures { IfOk result (λ page. page
            ≡ record { taken = []; room = room; fails = fails.items; calls = 0; faults = 0 }) }
    {
        Ok(Page {
            taken: Vec::with_capacity(alloc, room)?,
            room,
            fails,
            calls: Count::new(),
            faults: Count::new(),
        })
    }

    /// The bytes taken so far.
    pub fn taken(&self) -> &[u8]
        ensures { result.now ≡ self.now.taken }
    {
        &self.taken
    }
}

impl Sink for Page {
    ghost tells = { Unit {0} };

    ghost taken = { λ page. page.taken };

    ghost faults = { λ page. page.faults };

    /// Takes all of the bytes or, where it fails, none.
    fn put(&mut self, bytes: &[u8]) -> Result<(), Failed>
        ensures fails { IsErr result
            ↔ (NextFails self.old.fails self.old.calls
            ⊎ (self.old.room < length self.old.taken + length bytes.now)) }
        ensures err { OnErr result (self.new
            ≡ record self.old { calls = raised self.old.calls; faults = raised self.old.faults }) }
        ensures ok { OnOk result (self.new
            ≡ record self.old {
              taken = self.old.taken ++ bytes.now;
              calls = raised self.old.calls;
            }) }
        ensures takes { Takes self.old.taken self.new.taken bytes.now result }
        ensures cause { HasCause self.old.faults self.new.faults result }
    {
        let fails = next_call_fails(&self.fails, &mut self.calls);
        if fails || self.room - self.taken.len() < bytes.len() {
            self.faults.raise();
            return Err(Failed);
        }
        self.taken.extend_from_slice(bytes).unwrap();
        Ok(())
    }
}
