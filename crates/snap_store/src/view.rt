ghost use Rattle.std.specs.Prelude.{◌≡◌};
ghost use Rattle.snap_store.specs.Snaps.{layers_of};
ghost use Rattle.snap_store.specs.View.{seen_state};

use crate::layer::find_into;
use crate::marks::{MarkedLayers, may_have};
use rec_bytes::{Key, Meta, Reads, Rec, Shape, SpaceFault, meta_key};

/// What a snapshot sees of a committed space.
#[derive(Drop)]
pub struct View<'v, R: Reads> {
    pub(crate) kept: MarkedLayers<'v>,
    pub(crate) committed: &'v mut R,
    /// How many records were asked for.
    pub(crate) reads: u64,
}

impl<'v, R: Reads> Reads for View<'v, R> {
    ghost use Rattle.snap_store.specs.Onward.{OnwardView, onward_more, onward_none};

    ghost tells = { R.tells };

    ghost state = { λ v. seen_state (layers_of v.kept.layers.now) v.reads
        (R.state v.committed.now) };

    ghost faults = { λ v. R.faults v.committed.now };

    ghost onward = { λ a b. OnwardView R.onward a b };

    ghost stays_onward = { λ a. onward_none R.onward a (R.stays_onward a.committed.now) };

    ghost further_onward = { λ a b c first more. onward_more
        R.onward
        a
        b
        c
        (R.further_onward a.committed.now b.committed.now c.committed.now)
        first
        more };

    ghost onward_shape = { λ a b on. R.onward_shape a.committed.now b.committed.now on.beneath };

    fn get(&mut self, key: Key) -> Result<Rec, SpaceFault> {
        let mut rec = Rec::ZEROS;
        self.get_into(key, &mut rec)?;
        Ok(copy_of(&rec))
    }

    fn get_into(&mut self, key: Key, rec: &mut Rec) -> Result<(), SpaceFault> {
        self.reads = self.reads.saturating_add(1);
        if may_have(self.kept.marks, key) && find_into(self.kept.layers, key, rec) {
            return Ok(());
        }
        self.committed.get_into(key, rec)
    }

    fn meta(&self, file: u8) -> Meta {
        let key = meta_key(file);
        if may_have(self.kept.marks, key) {
            let mut rec = Rec::ZEROS;
            if find_into(self.kept.layers, key, &mut rec) {
                return Meta::of(&rec);
            }
        }
        self.committed.meta(file)
    }

    fn shape(&self) -> Shape {
        self.committed.shape()
    }
}

// A copy of a record. The type of what a call gives says that it is whole.
fn copy_of(rec: &Rec) -> Rec
    ensures { result ≡ rec.now }
{
    *rec
}
