//! The sixth rule: names have their form, and none comes twice.

ghost use Rattle.std.specs.Prelude.{IfOk};
ghost use Rattle.rec_bytes.specs.Frame.{IsRead};
ghost use Rattle.rec_bytes.specs.Space.{HasCause};
ghost use Rattle.store_rules.specs.Ranges.{AreInRange};
ghost use Rattle.record_lists.specs.Deciding.{DecidesRule};

use name_store::{Fault, load};
use rec_bytes::{Damage, Reads, SpaceFault};
use std::alloc::Global;

/// Decides the sixth rule, where the first is kept.
pub(crate) fn check_names<R: Reads>(
    alloc: Global,
    space: &mut R,
) -> Result<Option<Damage>, SpaceFault>
    requires { R.tells → AreInRange (R.state space.old).records (R.state space.old).shape }
    ensures decided { R.tells → IfOk result
        (DecidesRule (R.state space.old).records (R.state space.old).shape 6) }
    ensures read { IsRead R.Reads space.old space.new }
    ensures cause { HasCause (R.faults space.old) (R.faults space.new) result }
{
    match load(alloc, space) {
        Ok(_) => Ok(None),
        Err(Fault::Damaged(damage)) => Ok(Some(damage)),
        Err(Fault::Memory) => Err(SpaceFault::Memory),
        Err(Fault::Disk) => Err(SpaceFault::Disk),
    }
}
