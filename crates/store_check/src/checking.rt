//! One rule after another: the first that is broken ends the check.

ghost use Rattle.std.specs.Prelude.{◌≡◌, ◌<◌, ◌≤◌, IfNone, IfOk};
ghost use Rattle.rec_bytes.specs.Frame.{IsRead};
ghost use Rattle.rec_bytes.specs.RuleNumbers.{chain_rule, degree_rule, index_rule, range_rule};
ghost use Rattle.rec_bytes.specs.Space.{HasCause, SameButReads};
ghost use Rattle.store_rules.specs.Ranges.{AreInRange};
ghost use Rattle.store_rules.specs.Rules.{IsWellFormed};
ghost use Rattle.store_rules.specs.Breaking.{AreChained};
ghost use Rattle.store_rules.specs.Indexes.{IsIndexed};
ghost use Rattle.record_lists.specs.Deciding.{AreMarksLow, DecidesRule};
ghost use Rattle.store_check.specs.Verdicts.{BrokenIs};

use crate::Verdict;
use crate::free::check_split;
use crate::names::check_names;
use crate::properties::check_properties;
use crate::ranges::check_ranges;
use chain_check::{check_chains, check_degrees, check_groups};
use index_check::check_indexes;
use rec_bytes::{
    CHAIN_RULE, DEGREE_RULE, Damage, GROUP_RULE, INDEX_RULE, NAME_RULE, PROPERTY_RULE, RANGE_RULE,
    Reads, SPLIT_RULE, SpaceFault,
};
use std::alloc::Global;

/// Decides the rule of this number, where the first is kept if it is another, the third if it is
/// after that, and all the others if it is the last.
fn decide<R: Reads>(alloc: Global, space: &mut R, rule: u8) -> Result<Option<Damage>, SpaceFault>
    requires from { range_rule ≤ rule }
    requires to { rule ≤ index_rule }
    requires low { range_rule < rule → AreMarksLow (R.state space.old).records }
    requires ranges { R.tells → range_rule < rule
        → AreInRange (R.state space.old).records (R.state space.old).shape }
    requires chained { R.tells → chain_rule < rule
        → AreChained (R.state space.old).records }
    requires rules { R.tells → degree_rule < rule
        → IsWellFormed (R.state space.old).records (R.state space.old).shape }
    ensures decided { R.tells → IfOk result
        (DecidesRule (R.state space.old).records (R.state space.old).shape rule) }
    ensures low { rule ≡ range_rule → IfOk result
        (λ found. IfNone found (AreMarksLow (R.state space.old).records)) }
    ensures read { IsRead R.Reads space.old space.new }
    ensures cause { HasCause (R.faults space.old) (R.faults space.new) result }
{
    match rule {
        RANGE_RULE => check_ranges(space),
        SPLIT_RULE => check_split(alloc, space),
        CHAIN_RULE => check_chains(alloc, space),
        GROUP_RULE => check_groups(alloc, space),
        PROPERTY_RULE => check_properties(alloc, space),
        NAME_RULE => check_names(alloc, space),
        DEGREE_RULE => check_degrees(alloc, space),
        _ => check_indexes(alloc, space),
    }
}

/// Decides whether the records of a space are those of a store with its indexes: Sound exactly
/// where all rules hold, else the least rule that is broken and a record that breaks it. It only
/// reads.
pub fn check<R: Reads>(alloc: Global, space: &mut R) -> Result<Verdict, SpaceFault>
    ensures sound { R.tells → IfOk result (λ v. v ≡ Verdict.Sound
        → IsIndexed (R.state space.old).records (R.state space.old).shape) }
    ensures only { R.tells → IsIndexed (R.state space.old).records (R.state space.old).shape
        → IfOk result (λ v. v ≡ Verdict.Sound) }
    ensures broken { R.tells → IfOk result
        (BrokenIs (R.state space.old).records (R.state space.old).shape) }
    ensures same { SameButReads (R.state space.old) (R.state space.new) }
    ensures onward { R.onward space.old space.new }
    ensures cause { HasCause (R.faults space.old) (R.faults space.new) result }
{
    for rule in RANGE_RULE..=INDEX_RULE {
        if let Some(damage) = decide(alloc, space, rule)? {
            return Ok(Verdict::Broken(damage));
        }
    }
    Ok(Verdict::Sound)
}
