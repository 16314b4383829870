//! The fifth rule: properties and blocks are held, and keys, labels and types are names, those of
//! definitions too.

ghost use Rattle.std.specs.Prelude.{IfOk};
ghost use Rattle.rec_bytes.specs.Frame.{IsRead};
ghost use Rattle.rec_bytes.specs.Space.{HasCause};
ghost use Rattle.record_lists.specs.Deciding.{AreMarksLow, DecidesRule};

use crate::definitions::check_definitions;
use crate::elements::check_elements;
use crate::texts::check_texts;
use rec_bytes::{Damage, Reads, SpaceFault};
use std::alloc::Global;

/// Decides the fifth rule.
pub(crate) fn check_properties<R: Reads>(
    alloc: Global,
    space: &mut R,
) -> Result<Option<Damage>, SpaceFault>
    requires { AreMarksLow (R.state space.old).records }
    ensures decided { R.tells → IfOk result
        (DecidesRule (R.state space.old).records (R.state space.old).shape 5) }
    ensures read { IsRead R.Reads space.old space.new }
    ensures cause { HasCause (R.faults space.old) (R.faults space.new) result }
{
    if let Some(damage) = check_elements(alloc, space)? {
        return Ok(Some(damage));
    }
    if let Some(damage) = check_texts(alloc, space)? {
        return Ok(Some(damage));
    }
    match check_definitions(space)? {
        Some(damage) => Ok(Some(damage)),
        None => Ok(None),
    }
}
