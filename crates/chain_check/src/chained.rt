//! Which groups are on the group chain of their owner. Each such chain is followed from its node
//! on, until it ends, leads to a record that is no group of the node, or leads back.

ghost use Rattle.std.specs.Prelude.{◌≡◌, ◌<◌, ◌≤◌, IfNone, IfOk, IfSome, OnOk, false, length, ℕ};
ghost use Rattle.rec_bytes.specs.Format.{groups_file, most_ids, nodes_file};
ghost use Rattle.rec_bytes.specs.Frame.{IsRead};
ghost use Rattle.rec_bytes.specs.Space.{HasCause};
ghost use Rattle.store_rules.specs.Breaking.{IsOwnedBy};
ghost use Rattle.store_rules.specs.Views.{first_link, high};
ghost use Rattle.record_lists.specs.Deciding.{AreMarksLow};
ghost use Rattle.record_lists.specs.Seen.{is_seen};
ghost use Rattle.chain_check.specs.Chained.{SeesChain, SeesChains, next_group};
ghost use Rattle.chain_check.specs.NodeChains.{IsDense};

use rec_bytes::{
    DENSE, FREE, GROUP_NEXT, GROUP_OWNER, GROUPS, KIND, Key, NODE_FIRST_LINK, NODES, Reads,
    SpaceFault,
};
use record_lists::none_seen;
use std::alloc::Global;

/// The link of a group to the next one, if the record is in use and the node owns it.
fn next_owned<R: Reads>(space: &mut R, node: u32, id: u32) -> Result<Option<u32>, SpaceFault>
    requires id { id < high (R.state space.old).records groups_file }
    requires low { high (R.state space.old).records groups_file ≤ most_ids }
    ensures owned { R.tells → IfOk result (λ next. IfSome next
        (λ k. IsOwnedBy (R.state space.old).records node id
        × (next_group (R.state space.old).records id ≡ k))) }
    ensures none { R.tells → IfOk result
        (λ next. IfNone next (¬ IsOwnedBy (R.state space.old).records node id)) }
    ensures read { IsRead R.Reads space.old space.new }
    ensures cause { HasCause (R.faults space.old) (R.faults space.new) result }
{
    let rec = space.get(Key { file: GROUPS, id })?;
    if rec.byte(KIND) == FREE {
        return Ok(None);
    }
    if rec.number(GROUP_OWNER) != node {
        return Ok(None);
    }
    Ok(Some(rec.number(GROUP_NEXT)))
}

/// Sees the groups on the chain from a dense node's first link on, none of which was seen.
fn see_from<R: Reads>(
    space: &mut R,
    node: u32,
    first: u32,
    seen: &mut [bool],
) -> Result<(), SpaceFault>
    requires low { AreMarksLow (R.state space.old).records }
    requires seen { length seen.old ≡ high (R.state space.old).records groups_file }
    requires dense { R.tells → IsDense (R.state space.old).records node }
    requires first { R.tells → first_link (R.state space.old).records node ≡ first }
    requires clear { R.tells → (g : ℕ) → IsOwnedBy (R.state space.old).records node g
        → is_seen seen.old g ≡ false }
    ensures seen { R.tells
        → OnOk result (SeesChain (R.state space.old).records node seen.old seen.new) }
    ensures len { length seen.new ≡ length seen.old }
    ensures read { IsRead R.Reads space.old space.new }
    ensures cause { HasCause (R.faults space.old) (R.faults space.new) result }
{
    let mut at = first;
    while (at as usize) < seen.len() && !seen[at as usize] {
        let Some(next) = next_owned(space, node, at)? else {
            return Ok(());
        };
        seen[at as usize] = true;
        at = next;
    }
    Ok(())
}

/// Sees the groups on the group chain of a node, none of which was seen.
fn see_chain<R: Reads>(space: &mut R, node: u32, seen: &mut [bool]) -> Result<(), SpaceFault>
    requires low { AreMarksLow (R.state space.old).records }
    requires node { node < high (R.state space.old).records nodes_file }
    requires seen { length seen.old ≡ high (R.state space.old).records groups_file }
    requires clear { R.tells → (g : ℕ) → IsOwnedBy (R.state space.old).records node g
        → is_seen seen.old g ≡ false }
    ensures seen { R.tells
        → OnOk result (SeesChain (R.state space.old).records node seen.old seen.new) }
    ensures len { length seen.new ≡ length seen.old }
    ensures read { IsRead R.Reads space.old space.new }
    ensures cause { HasCause (R.faults space.old) (R.faults space.new) result }
{
    let rec = space.get(Key {
        file: NODES,
        id: node,
    })?;
    if rec.byte(KIND) != DENSE {
        return Ok(());
    }
    see_from(space, node, rec.number(NODE_FIRST_LINK), seen)
}

/// Sees the groups that are on the group chain of their owner, where none was seen.
fn see_chains<R: Reads>(space: &mut R, seen: &mut [bool]) -> Result<(), SpaceFault>
    requires low { AreMarksLow (R.state space.old).records }
    requires seen { length seen.old ≡ high (R.state space.old).records groups_file }
    requires clear { (g : ℕ) → is_seen seen.old g ≡ false }
    ensures seen { R.tells → OnOk result (SeesChains (R.state space.old).records seen.new) }
    ensures len { length seen.new ≡ length seen.old }
    ensures read { IsRead R.Reads space.old space.new }
    ensures cause { HasCause (R.faults space.old) (R.faults space.new) result }
{
    for node in 0..space.meta(NODES).high {
        see_chain(space, node, seen)?;
    }
    Ok(())
}

/// Which groups are on the group chain of their owner.
pub(crate) fn chained_groups<R: Reads>(
    alloc: Global,
    space: &mut R,
) -> Result<Vec<bool>, SpaceFault>
    requires { AreMarksLow (R.state space.old).records }
    ensures seen { R.tells → IfOk result
        (λ seen. SeesChains (R.state space.old).records seen.items) }
    ensures len { IfOk result
        (λ seen. length seen.items ≡ high (R.state space.old).records groups_file) }
    ensures read { IsRead R.Reads space.old space.new }
    ensures cause { HasCause (R.faults space.old) (R.faults space.new) result }
{
    let groups = space.meta(GROUPS).high as usize;
    let Ok(mut seen) = none_seen(alloc, groups) else {
        return Err(SpaceFault::Memory);
    };
    see_chains(space, &mut seen)?;
    Ok(seen)
}
