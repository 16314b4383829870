ghost use Rattle.std.specs.Prelude.{◌≡◌, IfErr, IfOk};
ghost use Rattle.rec_bytes.specs.Space.{HasCause, after_get};
ghost use Rattle.prop_store.specs.Owner.{IsOwner, first_of};

use rec_bytes::{Key, Reads, Rec, SpaceFault};

/// The place of an element's first property: its record, and the field.
#[derive(Clone, Copy)]
pub struct Owner {
    pub key: Key,
    pub field: u8,
}

impl Owner {
    /// Reads which property is the first, or `NIL`.
    pub(crate) fn first<R: Reads>(&self, space: &mut R) -> Result<u32, SpaceFault>
        requires { IsOwner self.now }
        ensures got { R.tells
            → IfOk result (λ first. first ≡ first_of (R.state space.old).records self.now) }
        ensures state { R.state space.new ≡ after_get (R.state space.old) }
        ensures refused { IfErr result (λ fault. fault ≡ SpaceFault.Disk) }
        ensures onward { R.onward space.old space.new }
        ensures cause { HasCause (R.faults space.old) (R.faults space.new) result }
    {
        let mut rec = Rec::ZEROS;
        space.get_into(self.key, &mut rec)?;
        Ok(rec.number(self.field))
    }
}
