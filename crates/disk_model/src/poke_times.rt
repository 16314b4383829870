ghost use Rattle.std.specs.Prelude.{
  ◌≡◌,
  ◌+◌,
  ◌-◌,
  ◌<◌,
  ◌≤◌,
  ◌++◌,
  length,
  slice_index,
  slice_set,
  replicate,
  nat_le,
  vec_len,
  vec_capacity,
  IfOk,
};
ghost use Rattle.disk_model.specs.PlainDisk.{rooms_of, AllZeros};

use crate::plain_file::PlainFile;
use std::alloc::{AllocError, Global};
use std::marker::Model;

/// When each place of a file was poked last: how many calls had been kept then. A place that never
/// was has 0. Contracts see the list of these numbers.
#[derive(Drop)]
pub(crate) struct PokeTimes {
    // The numbers up to the last place that was poked. The memory of all stands from the start.
    times: Vec<u32>,
    room: usize,
}

impl Model for PokeTimes {
    ghost use Rattle.std.specs.Prelude.{
      List,
      ℕ,
      ◌++◌,
      ◌-◌,
      ◌≤◌,
      replicate,
      vec_len,
      vec_capacity,
    };

    ghost Value = { List ℕ };

    ghost view = { λ t. t.times.items ++ replicate (t.room - vec_len t.times) 0 };

    ghost invariant = { λ t. (vec_len t.times ≤ t.room) × (t.room ≤ vec_capacity t.times) };
}

impl PokeTimes {
    /// Those of a file that never was poked, with so many places.
    pub(crate) fn never(alloc: Global, room: usize) -> Result<PokeTimes, AllocError>
        ensures { IfOk result (λ t. t ≡ replicate room 0) }
    {
        Ok(PokeTimes {
            times: Vec::with_capacity(alloc, room)?,
            room,
        })
    }

    /// Whether the kept call of this number counts at the place. The oldest one has the number 0.
    pub(crate) fn counts(&self, place: usize, call: usize) -> bool
        ensures { result ≡ nat_le (slice_index self.now place) call }
    {
        match self.times.get(place) {
            Some(time) => *time as usize <= call,
            None => true,
        }
    }

    /// Notes that the place is poked, with so many calls kept.
    pub(crate) fn poke(&mut self, place: usize, kept: u32)
        requires { place < length self.old }
        ensures { self.new ≡ slice_set self.old place kept }
    {
        reach(&mut self.times, place);
        self.times[place] = kept;
    }
}

// Puts zeros behind the numbers up to this place, where it isn't reached.
fn reach(times: &mut Vec<u32>, place: usize)
    requires { place < vec_capacity times.old }
    ensures items { times.new.items
        ≡ times.old.items ++ replicate ((place + 1) - vec_len times.old) 0 }
    ensures reached { place < vec_len times.new }
    ensures capacity { vec_capacity times.old ≤ vec_capacity times.new }
{
    if times.len() <= place {
        times.resize(place + 1, 0).unwrap();
    }
}

/// Those of files with the rooms of these that never were poked.
pub(crate) fn never_poked(alloc: Global, files: &[PlainFile]) -> Result<Vec<PokeTimes>, AllocError>
    ensures rooms { IfOk result (λ pokes. rooms_of pokes.items ≡ rooms_of files.now) }
    ensures zeros { IfOk result (λ pokes. AllZeros pokes.items) }
{
    let mut pokes = Vec::with_capacity(alloc, files.len())?;
    for file in files {
        pokes.push(PokeTimes::never(alloc, file.room())?)?;
    }
    Ok(pokes)
}
