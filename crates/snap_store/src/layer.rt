ghost use Rattle.std.specs.Prelude.{
  ◌≡◌,
  ◌≤◌,
  ◌<◌,
  [],
  drop,
  is_some,
  length,
  true,
  unwrap_or,
  IfOk,
};
ghost use Rattle.rec_bytes.specs.Format.{most_kept};
ghost use Rattle.snap_store.specs.Layers.{from, is_open, kept_at};
ghost use Rattle.snap_store.specs.Snaps.{IsPlaceOf, layers_of};

use rec_bytes::{Key, MOST_KEPT, Rec, WriteSet};
use std::alloc::{AllocError, Global};

/// Of an open snapshot: its reader, and the old records that are kept for it.
#[derive(Drop)]
pub(crate) struct Layer {
    pub(crate) reader: u8,
    pub(crate) set: WriteSet,
}

impl Layer {
    // A layer with room for all records that may be kept, and none yet. So nothing that is done
    // with it later needs memory.
    pub(crate) fn new(alloc: Global, reader: u8) -> Result<Layer, AllocError>
        ensures reader { IfOk result (λ layer. layer.reader ≡ reader) }
        ensures empty { IfOk result (λ layer. layer.set.pairs ≡ []) }
        ensures room { IfOk result (λ layer. most_kept ≤ layer.set.room) }
    {
        let mut set = WriteSet::new(alloc);
        set.reserve(MOST_KEPT)?;
        Ok(Layer { reader, set })
    }
}

// Reads the record of the first layer that has the key into the caller's, which stays where none
// has it, and says whether one has.
pub(crate) fn find_into(layers: &[Layer], key: Key, rec: &mut Rec) -> bool
    ensures found { result ≡ is_some (kept_at (layers_of layers.now) key) }
    ensures rec { rec.new ≡ unwrap_or (kept_at (layers_of layers.now) key) rec.old }
{
    for layer in layers {
        if layer.set.find_into(key, rec) {
            return true;
        }
    }
    false
}

// Where the reader's layer is.
pub(crate) fn place_of(layers: &[Layer], reader: u8) -> usize
    requires { is_open reader (layers_of layers.now) ≡ true }
    ensures { IsPlaceOf reader (layers_of layers.now) result }
{
    let mut place = 0;
    while layers[place].reader != reader {
        place += 1;
    }
    place
}

// The layers from the reader's own on.
pub(crate) fn layers_from(layers: &[Layer], reader: u8) -> &[Layer]
    requires { is_open reader (layers_of layers.now) ≡ true }
    ensures { layers_of result.now ≡ from reader (layers_of layers.now) }
{
    from_place(layers, place_of(layers, reader))
}

// The layers from a place on.
fn from_place(layers: &[Layer], place: usize) -> &[Layer]
    requires { place < length layers.now }
    ensures { result.now ≡ drop place layers.now }
{
    &layers[place..]
}
