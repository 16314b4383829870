//! The fourth rule: each group is in the group chain of a dense node, and its counts are exact if
//! it has any.

ghost use Rattle.std.specs.Prelude.{◌≡◌, ◌≤◌, IfNone, IfOk, IfSome, [], false, length, ℕ};
ghost use Rattle.rec_bytes.specs.Format.{groups_file, most_ids, nodes_file};
ghost use Rattle.rec_bytes.specs.Frame.{IsRead};
ghost use Rattle.rec_bytes.specs.Space.{HasCause};
ghost use Rattle.store_rules.specs.Rules.{IsGrouped, is_filled};
ghost use Rattle.store_rules.specs.Views.{first_link, group_at, high, kind_at, rec_at};
ghost use Rattle.store_rules.specs.Breaking.{AreChained, IsGroupChain};
ghost use Rattle.chain_check.specs.Groups.{AreOwners, GroupsFound, group_line};
ghost use Rattle.record_lists.specs.Heads.{FoundBelow};
ghost use Rattle.record_lists.specs.Seen.{is_seen};
ghost use Rattle.chain_check.specs.NodeChains.{IsDense};
ghost use Rattle.record_lists.specs.Deciding.{AreMarksLow, BreaksRule, DecidesRule};

use crate::counts::find_inexact;
use rec_bytes::{
    DENSE, Damage, FREE, GROUP_FIRST_IN, GROUP_FIRST_LOOP, GROUP_FIRST_OUT, GROUP_NEXT,
    GROUP_OWNER, GROUP_PREVIOUS, GROUP_RULE, GROUP_TYPE, GROUPS, KIND, Key, NIL, NODE_FIRST_LINK,
    NODES, Reads, Rec, SpaceFault,
};
use record_lists::{
    Broke, Found, Heads, Line, are_distinct, broken, find_unseen, follow, list_heads, none_seen,
    numbers_of,
};
use std::alloc::Global;

/// Whether one of the chains of a group has a relationship.
fn is_filled(rec: &Rec) -> bool
    ensures { result ≡ is_filled rec.now }
{
    !(rec.number(GROUP_FIRST_OUT) == NIL
        && rec.number(GROUP_FIRST_IN) == NIL
        && rec.number(GROUP_FIRST_LOOP) == NIL)
}

/// The group chain of a node.
#[derive(Drop)]
struct GroupLine {
    node: u32,
}

impl Line for GroupLine {
    ghost kind = { λ line. group_line line.node };

    fn file(&self) -> u8 {
        GROUPS
    }

    fn next(&self, rec: &Rec) -> u32 {
        rec.number(GROUP_NEXT)
    }

    fn fits(&self, before: u32, _at: u32, rec: &Rec) -> bool {
        rec.byte(KIND) != FREE
            && rec.number(GROUP_OWNER) == self.node
            && is_filled(rec)
            && rec.number(GROUP_PREVIOUS) == before
    }
}

/// The groups of a node from one on.
fn groups_from<R: Reads>(
    alloc: Global,
    space: &mut R,
    node: u32,
    first: u32,
    high: u32,
) -> Result<Found, SpaceFault>
    requires { high ≤ most_ids }
    ensures told { R.tells → IfOk result
        (GroupsFound (R.state space.old).records high node first) }
    ensures low { IfOk result (FoundBelow high) }
    ensures read { IsRead R.Reads space.old space.new }
    ensures cause { HasCause (R.faults space.old) (R.faults space.new) result }
{
    let Some(ids) = follow(alloc, space, &GroupLine { node }, first, high)? else {
        return Ok(Found::Missing);
    };
    let mut types = numbers_of(alloc, space, GROUPS, GROUP_TYPE, &ids)?;
    if !are_distinct(&mut types) {
        return Ok(Found::Missing);
    }
    Ok(Found::Items(ids))
}

/// The dense nodes, at which group chains start.
#[derive(Drop)]
pub struct Owners {
    nodes: u32,
    groups: u32,
}

impl Heads for Owners {
    ghost has = { λ _. IsDense };

    ghost lists = { λ _. IsGroupChain };

    ghost suits = { AreOwners };

    ghost count = { λ owners. owners.nodes };

    ghost bound = { λ owners. owners.groups };

    fn list<R: Reads>(&self, alloc: Global, space: &mut R, id: u32) -> Result<Found, SpaceFault> {
        let rec = space.get(Key { file: NODES, id })?;
        if rec.byte(KIND) != DENSE {
            return Ok(Found::Nothing);
        }
        let first = rec.number(NODE_FIRST_LINK);
        let found = groups_from(alloc, space, id, first, self.groups)?;
        Ok(found)
    }
}

/// Finds a dense node that has no group chain, or a group that is in none, with a bit for each
/// group, none of them set.
fn find_ungrouped<R: Reads>(
    alloc: Global,
    space: &mut R,
    seen: &mut [bool],
) -> Result<Option<Damage>, SpaceFault>
    requires low { AreMarksLow (R.state space.old).records }
    requires seen { length seen.old ≡ high (R.state space.old).records groups_file }
    requires clear { (p : ℕ) → is_seen seen.old p ≡ false }
    ensures grouped { R.tells → IfOk result (λ found. IfNone found (IsGrouped
        (kind_at (R.state space.old).records nodes_file) (first_link (R.state space.old).records)
        (rec_at (R.state space.old).records groups_file)
        (group_at (R.state space.old).records) [])) }
    ensures broken { R.tells → IfOk result (λ found. IfSome found
        (BreaksRule (R.state space.old).records (R.state space.old).shape 4)) }
    ensures read { IsRead R.Reads space.old space.new }
    ensures cause { HasCause (R.faults space.old) (R.faults space.new) result }
{
    let nodes = space.meta(NODES).high;
    let groups = space.meta(GROUPS).high;
    match list_heads(alloc, space, &Owners { nodes, groups }, nodes, seen)? {
        Some(Broke::Head(id)) => return Ok(Some(broken(NODES, id, GROUP_RULE))),
        Some(Broke::Item(group)) => return Ok(Some(broken(GROUPS, group, GROUP_RULE))),
        None => {}
    }
    match find_unseen(space, GROUPS, seen)? {
        Some(id) => Ok(Some(broken(GROUPS, id, GROUP_RULE))),
        None => Ok(None),
    }
}

/// Decides the fourth rule, where the third is kept.
pub fn check_groups<R: Reads>(alloc: Global, space: &mut R) -> Result<Option<Damage>, SpaceFault>
    requires low { AreMarksLow (R.state space.old).records }
    requires chained { R.tells → AreChained (R.state space.old).records }
    ensures decided { R.tells → IfOk result
        (DecidesRule (R.state space.old).records (R.state space.old).shape 4) }
    ensures read { IsRead R.Reads space.old space.new }
    ensures cause { HasCause (R.faults space.old) (R.faults space.new) result }
{
    let groups = space.meta(GROUPS).high as usize;
    let Ok(mut seen) = none_seen(alloc, groups) else {
        return Err(SpaceFault::Memory);
    };
    if let Some(damage) = find_ungrouped(alloc, space, &mut seen)? {
        return Ok(Some(damage));
    }
    match find_inexact(alloc, space)? {
        Some(id) => Ok(Some(broken(GROUPS, id, GROUP_RULE))),
        None => Ok(None),
    }
}
