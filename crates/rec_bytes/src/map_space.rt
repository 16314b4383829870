ghost use Rattle.std.specs.Prelude.{◌≡◌, IfOk, true};
ghost use Rattle.std.proofs.Common.{◌∙◌, refl};
ghost use Rattle.rec_bytes.specs.MapSpace.{map_state, new_state};
ghost use Rattle.rec_bytes.specs.Shape.{is_allowed};

use crate::allowed_shape::AllowedShape;
use crate::creating::creation;
use crate::key::Key;
use crate::meta::Meta;
use crate::record::Rec;
use crate::record_files::meta_key;
use crate::shape::Shape;
use crate::space::{Reads, Space, SpaceFault};
use crate::write_set::WriteSet;
use std::alloc::{AllocError, Global};

/// A space in memory: a store with its first records, and zeros where nothing was written.
#[derive(Drop)]
pub struct MapSpace {
    set: WriteSet,
    shape: AllowedShape,
    reads: u64,
}

impl MapSpace {
    /// A new store of a shape.
    pub fn new(alloc: Global, shape: Shape) -> Result<Self, AllocError>
        requires { is_allowed shape ≡ true }
        ensures { IfOk result (λ space. map_state space ≡ new_state shape) }
    {
        Ok(MapSpace {
            set: creation(alloc, shape)?,
            shape: AllowedShape::new(shape),
            reads: 0,
        })
    }
}

impl Reads for MapSpace {
    ghost tells = { Unit {0} };

    ghost state = { map_state };

    ghost faults = { λ _. 0 };

    ghost onward = { λ a b. b.shape.shape ≡ a.shape.shape };

    ghost stays_onward = { λ _. refl };

    ghost further_onward = { λ _ _ _ first more. more ∙ first };

    ghost onward_shape = { λ _ _ same. same };

    fn get(&mut self, key: Key) -> Result<Rec, SpaceFault> {
        self.reads = self.reads.saturating_add(1);
        Ok(self.set.find(key).unwrap_or(Rec::ZEROS))
    }

    fn meta(&self, file: u8) -> Meta {
        Meta::of(&self.set.find(meta_key(file)).unwrap_or(Rec::ZEROS))
    }

    fn shape(&self) -> Shape {
        self.shape.shape
    }
}

impl Space for MapSpace {
    fn put(&mut self, key: Key, rec: Rec) -> Result<(), SpaceFault> {
        match self.set.put(key, rec) {
            Ok(()) => Ok(()),
            Err(_) => Err(SpaceFault::Memory),
        }
    }

    fn edit(&mut self, key: Key) -> Result<&mut Rec, SpaceFault> {
        self.reads = self.reads.saturating_add(1);
        match self.set.edit(key, Rec::ZEROS) {
            Ok(rec) => Ok(rec),
            Err(_) => Err(SpaceFault::Memory),
        }
    }
}
