//! Walks of several chains of a dense node.

ghost use Rattle.std.specs.Prelude.{◌≡◌, ◌++◌, ℕ, List, length, IfErr, IfOk, OnOk};
ghost use Rattle.rec_bytes.specs.Space.{after_gets};
ghost use Rattle.rel_store.specs.Loading.{rel_mark};
ghost use Rattle.chain_edit.specs.Walking.{ReadsAtMost};
ghost use Rattle.expand.specs.ExpandFault.{HasExpandCause, of_fault};
ghost use Rattle.expand.specs.Expanding.{Blames};
ghost use Rattle.expand.specs.FirstLinks.{have_twins, numbers_of};
ghost use Rattle.expand.specs.Walking.{
  AreOfGroups,
  AreSoundWalks,
  HaveWalked,
  chain_blamed,
  chains_damage,
  with_node,
};

use crate::ExpandFault;
use crate::first_links::{FirstLink, all_belong, have_twins};
use chain_edit::{Chain, walk};
use rec_bytes::{CHAIN_RULE, Damage, Fault, GROUP_RULE, GROUPS, Key, NODES, RELATIONSHIPS, Reads};
use rel_store::EdgeRow;
use std::alloc::{AllocError, Global};

/// The relationships of chains of the groups of a dense node, one chain after the other, each from
/// its first link on. A group is damaged where a chain of it leads nowhere, or has a relationship
/// that doesn't belong there. The node is, where two groups have one type and a chain doesn't end
/// within what was given out.
pub(crate) fn walk_all<R: Reads>(
    alloc: Global,
    space: &mut R,
    node: u32,
    links: &[FirstLink],
) -> Result<Vec<EdgeRow>, ExpandFault>
    ensures rows { R.tells → IfOk result
        (λ rows. HaveWalked (R.state space.old) node (numbers_of links.now) rows.items) }
    ensures reads { IfOk result
        (λ rows. R.state space.new ≡ after_gets (length rows.items) (R.state space.old)) }
    ensures few_reads { R.tells → (xs : List ℕ)
        → AreSoundWalks (R.state space.old) node (numbers_of links.now)
        (rel_mark (R.state space.old)) xs
        → ReadsAtMost (length xs) (R.state space.old) (R.state space.new) }
    ensures at_most { ReadsAtMost (rel_mark (R.state space.old))
        (R.state space.old) (R.state space.new) }
    ensures damaged { R.tells → AreOfGroups (R.state space.old) node links.now
        → IfErr result (Blames (R.state space.old)) }
    ensures onward { R.onward space.old space.new }
    ensures cause { HasExpandCause (R.faults space.old) (R.faults space.new) result }
{
    let mark = space.meta(RELATIONSHIPS).high;
    let mut rows = Vec::new(alloc);
    for link in links {
        // What is left of the mark. No relationship stands in two chains of the node.
        let budget = (mark as usize).saturating_sub(rows.len()) as u32;
        let first = Chain {
            owner: Key {
                file: GROUPS,
                id: link.group,
            },
            node,
            first: link.first,
        };
        let chain = match walk(alloc, space, &first, budget) {
            Ok(chain) => chain,
            Err(fault) => return Err(with_node(fault, node, links)),
        };
        if !all_belong(&chain, node, *link) {
            return Err(ExpandFault::Damaged(chains_damage(link.group)));
        }
        add_chain(&mut rows, chain)?;
    }
    Ok(rows)
}

/// Puts the relationships of a chain after the others. The first chain's list is kept as it is.
fn add_chain(rows: &mut Vec<EdgeRow>, chain: Vec<EdgeRow>) -> Result<(), AllocError>
    ensures { OnOk result (rows.new.items ≡ rows.old.items ++ chain.items) }
{
    if rows.is_empty() {
        *rows = chain;
        Ok(())
    } else {
        rows.extend_from_slice(&chain)
    }
}

/// The fault of a walk of a group's chain, with the record that is damaged.
fn with_node(fault: Fault, node: u32, links: &[FirstLink]) -> ExpandFault
    ensures { result ≡ of_fault (with_node node (have_twins links.now) fault) }
{
    match fault {
        Fault::Memory => ExpandFault::Memory,
        Fault::Disk => ExpandFault::Disk,
        Fault::Damaged(damage) => {
            ExpandFault::Damaged(chain_blamed(damage, node, have_twins(links)))
        }
    }
}

/// The record that is damaged: of a group's chain it is the node, if its groups are twins.
fn chain_blamed(damage: Damage, node: u32, twins: bool) -> Damage
    ensures { result ≡ chain_blamed node twins damage }
{
    if damage.rule == CHAIN_RULE && twins {
        Damage {
            file: NODES,
            id: node,
            rule: GROUP_RULE,
        }
    } else {
        damage
    }
}

/// The damage of a group whose chains break their rule.
fn chains_damage(group: u32) -> Damage
    ensures { result ≡ chains_damage group }
{
    Damage {
        file: GROUPS,
        id: group,
        rule: CHAIN_RULE,
    }
}
