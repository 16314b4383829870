//! Where the chains of a dense node's groups begin.

ghost use Rattle.std.specs.Prelude.{◌≡◌, ◌++◌, IfOk, OnOk};
ghost use Rattle.std.specs.List.{list_all, list_any};
ghost use Rattle.expand.specs.FirstLinks.{
  are_twins,
  belongs,
  first_links,
  have_twins,
  is_on,
  link_on,
  links_of,
};

use crate::matching::is_wanted;
use group_store::{GroupRow, Side};
use plain_graph::Direction;
use rel_store::EdgeRow;
use std::alloc::{AllocError, Global};

/// The first link of a chain of a group, which has the relationships of the group's type on a side.
#[derive(Clone, Copy)]
pub(crate) struct FirstLink {
    pub group: u32,
    pub label: u32,
    pub side: Side,
    pub first: u32,
}

/// The first links of the groups' chains in which relationships stand that are met in a direction,
/// of these types, or of all types where none is given. A loop is met in each direction.
pub(crate) fn first_links(
    alloc: Global,
    groups: &[GroupRow],
    direction: Direction,
    labels: &[u32],
) -> Result<Vec<FirstLink>, AllocError>
    ensures { IfOk result (λ links. links.items ≡ first_links direction labels.now groups.now) }
{
    let mut links = Vec::new(alloc);
    for group in groups {
        if is_wanted(labels, group.label) {
            add_links(&mut links, group, direction)?;
        }
    }
    Ok(links)
}

/// Adds those of one group.
fn add_links(
    links: &mut Vec<FirstLink>,
    group: &GroupRow,
    direction: Direction,
) -> Result<(), AllocError>
    ensures { OnOk result (links.new.items ≡ links.old.items ++ links_of direction group.now) }
{
    let leaving = link_on(group, Side::Out);
    let entering = link_on(group, Side::In);
    let loops = link_on(group, Side::Loop);
    match direction {
        Direction::Outgoing => links.extend_from_slice(&[leaving, loops]),
        Direction::Incoming => links.extend_from_slice(&[entering, loops]),
        Direction::Both => links.extend_from_slice(&[leaving, entering, loops]),
    }
}

/// The first link of a group's chain on a side.
fn link_on(group: &GroupRow, side: Side) -> FirstLink
    ensures { result ≡ link_on group.now side }
{
    let first = match side {
        Side::Out => group.first_out,
        Side::In => group.first_in,
        Side::Loop => group.first_loop,
    };
    FirstLink {
        group: group.id,
        label: group.label,
        side,
        first,
    }
}

/// Whether each relationship belongs into the chain of the node, by its type and its side.
pub(crate) fn all_belong(rows: &[EdgeRow], node: u32, link: FirstLink) -> bool
    ensures { result ≡ list_all (belongs link node) rows.now }
{
    rows.iter().all(|row| belongs(link, node, row))
}

fn belongs(link: FirstLink, node: u32, row: &EdgeRow) -> bool
    ensures { result ≡ belongs link node row.now }
{
    row.label == link.label && is_on(link.side, node, row)
}

/// Whether the relationship is on this side of the node.
fn is_on(side: Side, node: u32, row: &EdgeRow) -> bool
    ensures { result ≡ is_on side node row.now }
{
    match side {
        Side::Out => row.from == node && row.to != node,
        Side::In => row.from != node && row.to == node,
        Side::Loop => row.from == node && row.to == node,
    }
}

/// Whether two of the links are in different groups of one type.
pub(crate) fn have_twins(links: &[FirstLink]) -> bool
    ensures { result ≡ have_twins links.now }
{
    links.iter().any(|link| has_twin(links, link))
}

fn has_twin(links: &[FirstLink], link: &FirstLink) -> bool
    ensures { result ≡ list_any (are_twins link.now) links.now }
{
    links.iter().any(|other| other.label == link.label && other.group != link.group)
}
