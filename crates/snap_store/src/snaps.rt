ghost use Rattle.std.specs.Prelude.{
  ◌≡◌,
  ◌≤◌,
  ◌<◌,
  ◌&&◌,
  OnErr,
  OnOk,
  false,
  is_some,
  length,
  slice_set,
  true,
  ℕ,
};
ghost use Rattle.rec_bytes.specs.Format.{most_kept};
ghost use Rattle.rec_bytes.specs.declared.key.Key.{Key as AKey};
ghost use Rattle.rec_bytes.specs.declared.record.Rec.{Rec as ARec};
ghost use Rattle.rec_bytes.specs.Key.{IsKey};
ghost use Rattle.rec_bytes.specs.Pairs.{find_pair};
ghost use Rattle.snap_store.specs.Layers.{AreDistinct, SameSights, any_open, from, is_open};
ghost use Rattle.snap_store.specs.Layers.{lacks_room, released, sees, total, with_kept, youngest};
ghost use Rattle.snap_store.specs.View.{seen_state};
ghost use Rattle.snap_store.specs.Sums.{AreCovered, EndsOverfull, risen};

use crate::layer::{Layer, layers_from, place_of};
use crate::marks::{MarkedLayers, no_marks, set_mark};
use crate::releasing::take_away;
use crate::snap_state::SnapState;
use crate::view::View;
use rec_bytes::{Key, MOST_KEPT, Reads, Rec};
use std::alloc::{AllocError, Global};
use std::marker::Model;

/// How many sessions there are. The first one writes, and each other one may have a snapshot.
const SESSIONS: usize = 8;

/// The snapshots of the readers 1 to 7. Contracts see the layers of the open ones, the oldest
/// first, and of each session whether its snapshot has ended. Only `take` needs memory.
#[derive(Drop)]
pub struct Snaps {
    layers: Vec<Layer>,
    ended: [bool; SESSIONS],
    // Of each key that a layer has a record of the mark is set. Marks are cleared where none is
    // open.
    marks: Vec<bool>,
    alloc: Global,
}

impl Model for Snaps {
    ghost use Rattle.snap_store.specs.Marks.{AreHeld};
    ghost use Rattle.snap_store.specs.Snaps.{Snapshots, layers_of};

    ghost Value = { Snapshots };

    ghost view = { λ s. record { open_ones = layers_of s.layers.items; ended = s.ended } };

    ghost invariant = { λ s. AreHeld s.layers.items s.marks.items };
}

impl Snaps {
    ghost use Rattle.snap_store.specs.Snaps.{
      EndsOldest,
      IsPlaceOf,
      IsReader,
      layers_of,
      no_snapshots,
      state_of,
      taken,
      with_room,
    };

    /// No snapshots.
    pub fn new(alloc: Global) -> Snaps
        ensures { result ≡ no_snapshots }
    {
        Snaps {
            layers: Vec::new(alloc),
            ended: [false; SESSIONS],
            marks: Vec::new(alloc),
            alloc,
        }
    }

    /// Whether a reader has a snapshot.
    pub fn state(&self, reader: u8) -> SnapState
        requires { IsReader reader }
        ensures { result ≡ state_of self.now reader }
    {
        if self.is_open(reader) {
            SnapState::Open
        } else if self.ended[reader as usize] {
            SnapState::Ended
        } else {
            SnapState::Absent
        }
    }

    /// Whether a reader's snapshot is open.
    pub fn is_open(&self, reader: u8) -> bool
        ensures { result ≡ is_open reader self.now.open_ones }
    {
        for layer in &self.layers {
            if layer.reader == reader {
                return true;
            }
        }
        false
    }

    /// The reader's snapshot is open from now on, as the youngest.
    pub fn take(&mut self, reader: u8) -> Result<(), AllocError>
        requires reader { IsReader reader }
        requires closed { is_open reader self.old.open_ones ≡ false }
        ensures ok { OnOk result (self.new ≡ taken reader self.old) }
        ensures err { OnErr result (self.new ≡ self.old) }

        // It sees what is committed, and each other one what it saw.
        ensures own { OnOk result ((committed : AKey → ARec)
            → sees self.new.open_ones reader committed ≡ committed) }
        ensures sights { (other : ℕ) (committed : AKey → ARec)
            → is_open other self.old.open_ones ≡ true
            → sees self.new.open_ones other committed
            ≡ sees self.old.open_ones other committed }
        ensures covered { (sums : ℕ → ℕ)
            → AreCovered sums self.old.open_ones → AreCovered sums self.new.open_ones }
    {
        self.clear_marks()?;
        let layer = Layer::new(self.alloc, reader)?;
        self.layers.push(layer)?;
        self.ended[reader as usize] = false;
        Ok(())
    }

    /// Whether the youngest open snapshot has an old record of the key.
    pub fn has(&self, key: Key) -> bool
        ensures { result ≡ is_some (find_pair (youngest self.now.open_ones) key) }
    {
        let open = self.layers.len();
        open > 0 && self.layers[open - 1].set.find(key).is_some()
    }

    /// Keeps an old record for the youngest open snapshot.
    pub fn put(&mut self, key: Key, rec: Rec)
        requires key { IsKey key }
        requires open { any_open self.old.open_ones ≡ true }
        requires room { total self.old.open_ones < most_kept }
        requires absent { is_some (find_pair (youngest self.old.open_ones) key) ≡ false }
        ensures kept { self.new.open_ones ≡ with_kept self.old.open_ones key rec }
        ensures ended { self.new.ended ≡ self.old.ended }

        // If it is the committed one, each snapshot sees what it saw.
        ensures sights { (reader : ℕ) (committed : AKey → ARec) → committed key ≡ rec
            → sees self.new.open_ones reader committed
            ≡ sees self.old.open_ones reader committed }
        ensures covered { (sums : ℕ → ℕ)
            → AreCovered sums self.old.open_ones
            → AreCovered (risen 1 sums) self.new.open_ones }
    {
        let last = self.layers.len() - 1;
        let layer = &mut self.layers[last];
        layer.set.put_reserved(key, rec);
        set_mark(&mut self.marks, key);
    }

    /// Ends the oldest open snapshots, just so many that the old records of the others and so many
    /// new ones may be kept.
    pub fn make_room(&mut self, new: usize)
        ensures ended { self.new ≡ with_room new self.old.open_ones self.old.ended }
        ensures sights { SameSights self.old.open_ones self.new.open_ones }

        // One that ends had a sum of weights that the new records take past the bound.
        ensures covered { (sums : ℕ → ℕ)
            → AreCovered sums self.old.open_ones → AreCovered sums self.new.open_ones }
        ensures overfull { (sums : ℕ → ℕ) (weight : ℕ) → new ≤ weight
            → AreCovered sums self.old.open_ones
            → EndsOverfull weight sums self.old.open_ones self.new.open_ones }
    {
        let _kept = self.kept_count(); // Its contract says that no reader has two snapshots.
        while self.lacks_room(new) {
            self.end_oldest();
        }
    }

    /// Whether a snapshot is open.
    pub fn any_open(&self) -> bool
        ensures { result ≡ any_open self.now.open_ones }
    {
        !self.layers.is_empty()
    }

    // Makes the marks anew, where no snapshot is open.
    fn clear_marks(&mut self) -> Result<(), AllocError>
        ensures { self.new ≡ self.old }
    {
        if self.layers.is_empty() {
            self.marks = no_marks(self.alloc)?;
        }
        Ok(())
    }

    // Whether one is open, and with so many new records more would be kept than may be.
    fn lacks_room(&self, new: usize) -> bool
        ensures { result ≡ (any_open self.now.open_ones && lacks_room new self.now.open_ones) }
    {
        self.any_open() && MOST_KEPT - self.kept_count() < new
    }

    // How many old records are kept.
    fn kept_count(&self) -> usize
        ensures is { result ≡ total self.now.open_ones }
        ensures few { result ≤ most_kept }
        ensures distinct { AreDistinct self.now.open_ones }
    {
        let mut kept = 0;
        for layer in &self.layers {
            kept += layer.set.len();
        }
        kept
    }

    // Ends the oldest open snapshot.
    fn end_oldest(&mut self)
        requires { 0 < length self.old.open_ones }
        ensures { EndsOldest self.old self.new }
    {
        let oldest = self.layers.remove(0);
        self.ended[oldest.reader as usize] = true;
    }

    /// The reader has no snapshot from now on. The old records of an open one go to the next older
    /// one, unless that has them, and are dropped if it was the oldest.
    pub fn release(&mut self, reader: u8)
        requires { IsReader reader }
        ensures open_ones { self.new.open_ones ≡ released reader self.old.open_ones }
        ensures ended { self.new.ended ≡ slice_set self.old.ended reader false }

        // Each other snapshot sees what it saw.
        ensures sights { SameSights self.old.open_ones self.new.open_ones }
        ensures covered { (sums : ℕ → ℕ)
            → AreCovered sums self.old.open_ones → AreCovered sums self.new.open_ones }
        ensures closed { is_open reader self.new.open_ones ≡ false }
    {
        self.ended[reader as usize] = false;
        if self.is_open(reader) {
            let place = place_of(&self.layers, reader);
            take_away(&mut self.layers, reader, place);
        }
    }

    /// What the reader's snapshot sees of a committed space.
    pub fn view<'v, R: Reads>(&'v self, reader: u8, committed: &'v mut R) -> View<'v, R>
        requires { is_open reader self.now.open_ones ≡ true }
        ensures sees { ⟦<View<'v, R> as Reads>⟧.state result
            ≡ seen_state (from reader self.now.open_ones) 0 (R.state committed.old) }
        ensures same_space { result.committed.ghost_name ≡ committed.entry.ghost_name }
        ensures committed { result.committed.now ≡ committed.old }
    {
        View {
            kept: MarkedLayers {
                layers: layers_from(&self.layers, reader),
                marks: &self.marks,
            },
            committed,
            reads: 0,
        }
    }
}
