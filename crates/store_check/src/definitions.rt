//! The fifth rule of definitions of indexes: their labels and keys are names.

ghost use Rattle.std.specs.Prelude.{IfNone, IfOk, IfSome};
ghost use Rattle.rec_bytes.specs.Frame.{IsRead};
ghost use Rattle.rec_bytes.specs.Space.{HasCause};
ghost use Rattle.record_lists.specs.Deciding.{AreMarksLow, BreaksRule};
ghost use Rattle.store_check.specs.Definitions.{HasNames, IsOnIndex};
ghost use Rattle.store_check.specs.Holding.{AreDefinitionsRight};

use rec_bytes::{
    DEFINITION, DEFINITION_KEY, DEFINITION_LABEL, Damage, INDEX, KIND, Key, NAMES, PROPERTY_RULE,
    Reads, SpaceFault,
};
use record_lists::{Sentence, broken, find_false};

/// The label and the key of a definition are names.
#[derive(Drop)]
pub struct Defined {
    pub(crate) mark: u32,
}

impl Sentence for Defined {
    ghost suits = { IsOnIndex };

    ghost count = { λ sentence. sentence.mark };

    ghost says = { HasNames };

    fn holds<R: Reads>(&self, space: &mut R, id: u32) -> Result<bool, SpaceFault> {
        let rec = space.get(Key { file: INDEX, id })?;
        let names = space.meta(NAMES).high;
        let label = rec.number(DEFINITION_LABEL);
        let key = rec.number(DEFINITION_KEY);
        Ok(rec.byte(KIND) != DEFINITION || label < names && key < names)
    }
}

/// Finds a definition whose label or whose key is no name.
pub(crate) fn check_definitions<R: Reads>(space: &mut R) -> Result<Option<Damage>, SpaceFault>
    requires { AreMarksLow (R.state space.old).records }
    ensures none { R.tells → IfOk result (λ found. IfNone found
        (AreDefinitionsRight (R.state space.old).records)) }
    ensures found { R.tells → IfOk result (λ found. IfSome found
        (BreaksRule (R.state space.old).records (R.state space.old).shape 5)) }
    ensures read { IsRead R.Reads space.old space.new }
    ensures cause { HasCause (R.faults space.old) (R.faults space.new) result }
{
    let mark = space.meta(INDEX).high;
    match find_false(space, &Defined { mark }, mark)? {
        Some(id) => Ok(Some(broken(INDEX, id, PROPERTY_RULE))),
        None => Ok(None),
    }
}
