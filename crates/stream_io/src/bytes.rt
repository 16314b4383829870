ghost use Rattle.std.specs.Prelude.{
  ◌≡◌,
  ◌<◌,
  ◌≤◌,
  ◌↔◌,
  length,
  take,
  drop,
  min,
  IsErr,
  IsOkAnd,
  IfOk,
  OnOk,
  OnErr,
};
ghost use Rattle.fault_count.specs.Cause.{raised, HasCause};
ghost use Rattle.stream_io.specs.Streams.{GivesNext};
ghost use Rattle.stream_io.specs.Memory.{NextFails};

use crate::calls::next_call_fails;
use crate::streams::Source;
use fault_count::{Count, Failed};
use std::alloc::AllocError;
use std::marker::Model;

/// A source of bytes in memory, which fails in the calls that it was told to. No call takes memory,
/// and a read copies the bytes that it gives and no others.
#[derive(Drop)]
pub struct Bytes {
    bytes: Vec<u8>,
    // The place of the next byte.
    at: usize,
    piece: usize,
    fails: Vec<u64>,
    calls: Count,
    faults: Count,
}

impl Model for Bytes {
    ghost use Rattle.std.specs.Prelude.{◌≤◌, ◌<◌, drop, vec_len};
    ghost use Rattle.stream_io.specs.Memory.{Supply};

    ghost Value = { Supply };

    ghost view = { λ b. record {
      rest = drop b.at b.bytes.items;
      piece = b.piece;
      fails = b.fails.items;
      calls = b.calls;
      faults = b.faults;
    } };

    ghost invariant = { λ b. (b.at ≤ vec_len b.bytes) × (0 < b.piece) };
}

impl Bytes {
    /// A source of these bytes that gives at most `piece` bytes in a call, and fails in the calls
    /// whose numbers are among `fails`. The first call has the number 1, and the number stays at
    /// 2^64 - 1.
    pub fn new(bytes: Vec<u8>, piece: usize, fails: Vec<u64>) -> Result<Bytes, AllocError>
        requires { 0 < piece }
        ensures { IsOkAnd result (λ source. source
            ≡ record {
              rest = bytes.items;
              piece = piece;
              fails = fails.items;
              calls = 0;
              faults = 0;
            }) }
    {
        Ok(Bytes {
            bytes,
            at: 0,
            piece,
            fails,
            calls: Count::new(),
            faults: Count::new(),
        })
    }
}

impl Source for Bytes {
    ghost tells = { Unit {0} };

    ghost left = { λ source. source.rest };

    ghost faults = { λ source. source.faults };

    /// Fails in the calls that were named, and then only counts the call and the fault.
    fn read(&mut self, out: &mut [u8]) -> Result<usize, Failed>
        requires room { 0 < length out.old }
        ensures fails { IsErr result ↔ NextFails self.old.fails self.old.calls }
        ensures err { OnErr result (self.new
            ≡ record self.old { calls = raised self.old.calls; faults = raised self.old.faults }) }
        ensures count { IfOk result (λ n. n
            ≡ min self.old.piece (min (length out.old) (length self.old.rest))) }
        ensures bytes { IfOk result (λ n. take n out.new ≡ take n self.old.rest) }
        ensures goes_on { IfOk result
            (λ n. self.new ≡ record self.old {
              rest = drop n self.old.rest;
              calls = raised self.old.calls;
            }) }
        ensures within { IfOk result (λ n. n ≤ length out.old) }
        ensures given { GivesNext self.old.rest self.new.rest out.new result }
        ensures quiet { OnOk result (self.new.faults ≡ self.old.faults) }
        ensures cause { HasCause self.old.faults self.new.faults result }
    {
        if next_call_fails(&self.fails, &mut self.calls) {
            self.faults.raise();
            return Err(Failed);
        }
        let rest = &self.bytes[self.at..];
        let count = self.piece.min(out.len().min(rest.len()));
        out[..count].copy_from_slice(&rest[..count]);
        self.at += count;
        Ok(count)
    }
}
