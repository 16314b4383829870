//! Marks of keys: where a key's mark isn't set, no layer has a record of it. So a read of a record
//! that wasn't replaced looks into no layer, however many there are.

ghost use Rattle.std.specs.Prelude.{◌≡◌, true};
ghost use Rattle.rec_bytes.specs.declared.key.Key.{Key as AKey};
ghost use Rattle.snap_store.specs.Marks.{AreMarked, mark_of, may_have};
ghost use Rattle.snap_store.specs.Snaps.{layers_of};

use crate::layer::Layer;
use rec_bytes::Key;
use std::alloc::{AllocError, Global};

// How many marks there are: four for each old record that may be kept, so that few keys share one.
const MARKS: usize = 65_536;

// Marks of which none is set.
pub(crate) fn no_marks(alloc: Global) -> Result<Vec<bool>, AllocError> {
    let mut marks = Vec::new(alloc);
    marks.resize(MARKS, false)?;
    Ok(marks)
}

// Sets the mark of a key, and leaves those of others.
pub(crate) fn set_mark(marks: &mut Vec<bool>, key: Key)
    ensures own { may_have marks.new.items key ≡ true }
    ensures others { (other : AKey) → may_have marks.old.items other ≡ true
        → may_have marks.new.items other ≡ true }
{
    let mark = mark_of(key);
    if mark < marks.len() {
        marks[mark] = true;
    }
}

/// Layers, and marks of their keys.
#[derive(Drop)]
pub(crate) struct MarkedLayers<'v> {
    pub(crate) layers: &'v [Layer],
    pub(crate) marks: &'v Vec<bool>,
    ghost marked: { AreMarked marks.now.items (layers_of layers.now) },
}

// Whether the mark of a key is set, or there are no marks. If not, no layer has the key.
pub(crate) fn may_have(marks: &Vec<bool>, key: Key) -> bool
    ensures { result ≡ may_have marks.now.items key }
{
    let mark = mark_of(key);
    mark >= marks.len() || marks[mark]
}

// Where the mark of a key is. Records that lie side by side have marks that do.
fn mark_of(key: Key) -> usize
    ensures { result ≡ mark_of key }
{
    (key.id as usize + key.file as usize * 7_283) & (MARKS - 1)
}
