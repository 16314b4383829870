ghost use Rattle.std.proofs.Common.{◌∙◌, refl};
ghost use Rattle.std.specs.Prelude.{◌≡◌};
ghost use Rattle.rec_bytes.specs.MapSpace.{map_state};

use rec_bytes::{Key, MapSpace, Meta, Reads, Rec, Shape, SpaceFault};

/// A space that counts the reads.
#[derive(Drop)]
pub(crate) struct Counted {
    pub(crate) space: MapSpace,
    pub(crate) reads: u32,
}

impl Reads for Counted {
    ghost tells = { Unit {0} };

    ghost state = { λ counted. map_state counted.space };

    ghost faults = { λ _. 0 };

    ghost onward = { λ a b. (map_state b.space).shape ≡ (map_state a.space).shape };

    ghost stays_onward = { λ _. refl };

    ghost further_onward = { λ _ _ _ first more. more ∙ first };

    ghost onward_shape = { λ _ _ same. same };

    fn get(&mut self, key: Key) -> Result<Rec, SpaceFault> {
        self.reads = self.reads.saturating_add(1);
        self.space.get(key)
    }

    fn meta(&self, file: u8) -> Meta {
        self.space.meta(file)
    }

    fn shape(&self) -> Shape {
        self.space.shape()
    }
}
