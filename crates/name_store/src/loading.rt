ghost use Rattle.std.specs.Prelude.{◌≡◌, ◌+◌, ◌<◌, ◌++◌, ◌∷◌, [], length, IfErr, IfOk, OnOk};
ghost use Rattle.rec_bytes.specs.Format.{most_names};
ghost use Rattle.rec_bytes.specs.Space.{after_get};
ghost use Rattle.store_rules.specs.Graph.{names_of};
ghost use Rattle.rec_bytes.specs.Fault.{HasFaultCause, NotDamaged};
ghost use Rattle.name_store.specs.Loading.{AreLoadable, HasNoForm, HoldsFirst, IsDamageAt};
ghost use Rattle.name_store.specs.Loading.{IsFirstDamage, IsLoadFault, ReadsAtMost};
ghost use Rattle.name_store.specs.Loading.{after_names, most_reads, name_damage, name_mark};
ghost use Rattle.name_store.specs.Loading.{text_at};

use crate::name_record::{has_name_form, text_of};
use crate::{Fault, Names};
use plain_graph::is_short_name;
use rec_bytes::{Damage, Key, META, MOST_NAMES, NAME_RULE, NAMES, RANGE_RULE, Reads};
use std::alloc::Global;

/// Loads the names of a space. A record is damaged where it can't be a name's or has the name of an
/// earlier one, and the meta record of the names where it counts more than there may be.
pub fn load<R: Reads>(alloc: Global, space: &mut R) -> Result<Names, Fault>
    ensures loaded { R.tells
        → IfOk result (λ names. names.names ≡ names_of (R.state space.old).records) }
    ensures damaged { R.tells → IfErr result (IsLoadFault (R.state space.old).records) }
    ensures first { R.tells → IfErr result (IsFirstDamage (R.state space.old).records) }
    ensures right { R.tells → OnOk result (AreLoadable (R.state space.old).records) }
    ensures not_damaged { R.tells → AreLoadable (R.state space.old).records → NotDamaged result }
    ensures reads { OnOk result (R.state space.new ≡ after_names (R.state space.old)) }
    ensures at_most { ReadsAtMost (most_reads (R.state space.old))
        (R.state space.old) (R.state space.new) }
    ensures onward { R.onward space.old space.new }
    ensures cause { HasFaultCause (R.faults space.old) (R.faults space.new) result }
{
    let high = space.meta(NAMES).high;
    if high > MOST_NAMES {
        return Err(Fault::Damaged(Damage {
            file: META,
            id: NAMES as u32,
            rule: RANGE_RULE,
        }));
    }
    let mut names = Names::new(alloc);
    'each: while names.count() < high {
        load_next(alloc, space, &mut names)?;
    }
    Ok(names)
}

/// Loads the name after those that are there.
fn load_next<R: Reads>(alloc: Global, space: &mut R, names: &mut Names) -> Result<(), Fault>
    requires few { length names.old.names < most_names }
    requires below { length names.old.names < name_mark (R.state space.old).records }
    ensures next { R.tells → OnOk result (names.new.names
        ≡ names.old.names ++ text_at (R.state space.old).records (length names.old.names) ∷ []) }
    ensures count { OnOk result (length names.new.names ≡ length names.old.names + 1) }
    ensures form { R.tells
        → OnOk result (¬ HasNoForm (R.state space.old).records (length names.old.names)) }
    ensures at { IfErr result (IsDamageAt (length names.old.names)) }
    ensures damaged { R.tells → HoldsFirst (R.state space.old).records names.old.names
        → IfErr result (IsLoadFault (R.state space.old).records) }
    ensures state { R.state space.new ≡ after_get (R.state space.old) }
    ensures onward { R.onward space.old space.new }
    ensures cause { HasFaultCause (R.faults space.old) (R.faults space.new) result }
{
    let id = names.count();
    let Ok(rec) = space.get(Key { file: NAMES, id }) else {
        return Err(Fault::Disk);
    };
    if !has_name_form(&rec) {
        return Err(damaged(id, RANGE_RULE));
    }
    let text = text_of(&rec);
    if !is_short_name(text) {
        return Err(damaged(id, NAME_RULE));
    }
    let Ok(name) = Vec::from_slice(alloc, text) else {
        return Err(Fault::Memory);
    };
    match names.push(name) {
        Ok(true) => Ok(()),
        Ok(false) => Err(damaged(id, NAME_RULE)),
        Err(_) => Err(Fault::Memory),
    }
}

/// The record of a name breaks a rule.
fn damaged(id: u32, rule: u8) -> Fault
    ensures { result ≡ Fault.Damaged (name_damage id rule) }
{
    Fault::Damaged(Damage {
        file: NAMES,
        id,
        rule,
    })
}
