//! The counts of groups: a group that has counts has as many relationships in each of its chains as
//! they say. Where the third rule is kept, these are those of its type and side at its owner.

ghost use Rattle.std.specs.Prelude.{◌+◌, ◌<◌, ◌≤◌, IfNone, IfOk, IfSome, ℕ};
ghost use Rattle.std.specs.Bool.{Decides};
ghost use Rattle.rec_bytes.specs.Format.{groups_file, most_ids};
ghost use Rattle.rec_bytes.specs.Frame.{IsRead};
ghost use Rattle.rec_bytes.specs.Space.{HasCause};
ghost use Rattle.store_rules.specs.Views.{high};
ghost use Rattle.chain_check.specs.Counts.{AreAsLong, AreOfGroups, CountsHold, IsAsLong};
ghost use Rattle.record_lists.specs.Deciding.{AreMarksLow};

use crate::chains::{ChainLine, side_at};
use rec_bytes::{
    COUNTED, GROUP_FIRST_IN, GROUP_FIRST_LOOP, GROUP_FIRST_OUT, GROUP_IN_COUNT, GROUP_LOOP_COUNT,
    GROUP_OUT_COUNT, GROUP_OWNER, GROUP_TYPE, GROUPS, KIND, Key, RELATIONSHIPS, Reads, Rec,
    SpaceFault,
};
use record_lists::{Sentence, find_false, follow};
use std::alloc::Global;

/// Whether the chain that begins at one place of a group has as many relationships as the number at
/// another place says.
fn is_as_long<R: Reads>(
    alloc: Global,
    space: &mut R,
    rec: &Rec,
    first: u8,
    count: u8,
    high: u32,
) -> Result<bool, SpaceFault>
    requires high { high ≤ most_ids }
    requires first { first + 4 ≤ 64 }
    requires count { count + 4 ≤ 64 }
    ensures told { R.tells → IfOk result (λ is. Decides is
        (IsAsLong (R.state space.old).records high rec.now first count)) }
    ensures read { IsRead R.Reads space.old space.new }
    ensures cause { HasCause (R.faults space.old) (R.faults space.new) result }
{
    let line = ChainLine {
        node: rec.number(GROUP_OWNER),
        side: side_at(first, rec.number(GROUP_TYPE)),
    };
    let start = rec.number(first);
    match follow(alloc, space, &line, start, high)? {
        Some(ids) => Ok(rec.number(count) as usize == ids.len()),
        None => Ok(false),
    }
}

/// Whether each of the three chains of a group has as many relationships as its count says.
fn are_as_long<R: Reads>(
    alloc: Global,
    space: &mut R,
    rec: &Rec,
    high: u32,
) -> Result<bool, SpaceFault>
    requires { high ≤ most_ids }
    ensures told { R.tells → IfOk result
        (λ are. Decides are (AreAsLong (R.state space.old).records high rec.now)) }
    ensures read { IsRead R.Reads space.old space.new }
    ensures cause { HasCause (R.faults space.old) (R.faults space.new) result }
{
    let out = is_as_long(alloc, space, rec, GROUP_FIRST_OUT, GROUP_OUT_COUNT, high)?;
    let into = is_as_long(alloc, space, rec, GROUP_FIRST_IN, GROUP_IN_COUNT, high)?;
    let loops = is_as_long(alloc, space, rec, GROUP_FIRST_LOOP, GROUP_LOOP_COUNT, high)?;
    Ok(out && into && loops)
}

/// The groups that have counts, and what a walk of their chains takes.
#[derive(Drop)]
pub struct Counts {
    alloc: Global,
    groups: u32,
    relationships: u32,
}

impl Sentence for Counts {
    ghost suits = { AreOfGroups };

    ghost count = { λ counts. counts.groups };

    ghost says = { λ _. CountsHold };

    fn holds<R: Reads>(&self, space: &mut R, id: u32) -> Result<bool, SpaceFault> {
        let rec = space.get(Key { file: GROUPS, id })?;
        if rec.byte(KIND) != COUNTED {
            return Ok(true);
        }
        are_as_long(self.alloc, space, &rec, self.relationships)
    }
}

/// The first group with a count that is not that of its chain.
pub(crate) fn find_inexact<R: Reads>(
    alloc: Global,
    space: &mut R,
) -> Result<Option<u32>, SpaceFault>
    requires { AreMarksLow (R.state space.old).records }
    ensures none { R.tells → IfOk result (λ found. IfNone found
        ((g : ℕ) → g < high (R.state space.old).records groups_file
        → CountsHold (R.state space.old).records g)) }
    ensures found { R.tells → IfOk result (λ found. IfSome found
        (λ g. ¬ CountsHold (R.state space.old).records g)) }
    ensures read { IsRead R.Reads space.old space.new }
    ensures cause { HasCause (R.faults space.old) (R.faults space.new) result }
{
    let groups = space.meta(GROUPS).high;
    let relationships = space.meta(RELATIONSHIPS).high;
    let counts = Counts {
        alloc,
        groups,
        relationships,
    };
    find_false(space, &counts, groups)
}
