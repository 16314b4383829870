//! Levels by their nodes.

ghost use Rattle.std.specs.Prelude.{◌≡◌, ℕ, false, IfOk, IfSome, IfNone, Contains, map};
ghost use Rattle.std.specs.Bool.{OnTrue, OnFalse};
ghost use Rattle.path_find.specs.Checking.{AreDistinct, AreIn, HaveEnds, is_last};
ghost use Rattle.plain_graph.specs.Levels.{HasLevel, HasLevelUpTo, level_of};
ghost use Rattle.path_find.specs.Reading.{node_of};

use crate::places::Places;
use plain_graph::NodeLevel;
use std::alloc::{AllocError, Global};

/// The places of the nodes, or none where one stands twice.
pub(crate) fn places_of(alloc: Global, levels: &[NodeLevel]) -> Result<Option<Places>, AllocError>
    ensures some { IfOk result (λ found. IfSome found (λ places. places ≡ map node_of levels.now)) }
    ensures distinct { IfOk result (λ found. IfSome found (λ places. AreDistinct levels.now)) }
    ensures none { IfOk result (λ found. IfNone found (¬ AreDistinct levels.now)) }
{
    let mut places = Places::new(alloc);
    for level in levels {
        let is_new = places.add(level.node)?;
        if !is_new {
            return Ok(None);
        }
    }
    Ok(Some(places))
}

/// The level of a node.
pub(crate) fn find_level(places: &Places, levels: &[NodeLevel], node: u32) -> Option<u32>
    requires { places.now ≡ map node_of levels.now }
    ensures some { IfSome result (λ level. Contains levels.now (level_of node level)) }
    ensures none { IfNone result (¬ HasLevel levels.now node) }
{
    match places.find(node) {
        Some(place) => Some(levels[place].level),
        None => None,
    }
}

/// Whether a node has this level.
fn has_level(places: &Places, levels: &[NodeLevel], node: u32, level: usize) -> bool
    requires places { places.now ≡ map node_of levels.now }
    requires distinct { AreDistinct levels.now }
    ensures yes { OnTrue result (Contains levels.now (level_of node level)) }
    ensures no { OnFalse result (¬ Contains levels.now (level_of node level)) }
{
    match find_level(places, levels, node) {
        Some(found) => found as usize == level,
        None => false,
    }
}

/// Whether the ends have the levels that the rules ask for.
pub(crate) fn have_ends(
    places: &Places,
    levels: &[NodeLevel],
    from: u32,
    to: u32,
    edges: Option<usize>,
) -> bool
    requires places { places.now ≡ map node_of levels.now }
    requires distinct { AreDistinct levels.now }
    ensures yes { OnTrue result (HaveEnds levels.now from to edges) }
    ensures no { OnFalse result (¬ HaveEnds levels.now from to edges) }
{
    match edges {
        Some(edges) => {
            has_level(places, levels, from, 0) && has_level(places, levels, to, edges)
        }
        None => {
            find_level(places, levels, from).is_some() && find_level(places, levels, to).is_none()
        }
    }
}

/// Whether the neighbours of a row's node are in the levels, where it isn't at the last one.
pub(crate) fn are_held(
    places: &Places,
    levels: &[NodeLevel],
    ends: &[u32],
    row: NodeLevel,
    edges: Option<usize>,
) -> bool
    requires places { places.now ≡ map node_of levels.now }
    requires distinct { AreDistinct levels.now }
    requires inner { is_last row edges ≡ false }
    ensures yes { OnTrue result (AreIn levels.now edges row ends.now) }
    ensures no { OnFalse result (¬ AreIn levels.now edges row ends.now) }
{
    match edges {
        Some(_) => are_near(places, levels, ends, row.level as usize + 1),
        None => are_known(places, levels, ends),
    }
}

/// Whether each of these nodes has a level.
pub(crate) fn are_known(places: &Places, levels: &[NodeLevel], ends: &[u32]) -> bool
    requires { places.now ≡ map node_of levels.now }
    ensures yes { OnTrue result ((end : ℕ) → Contains ends.now end → HasLevel levels.now end) }
    ensures no { OnFalse result (¬ ((end : ℕ) → Contains ends.now end → HasLevel levels.now end)) }
{
    for end in ends {
        match find_level(places, levels, *end) {
            Some(_) => {}
            None => return false,
        }
    }
    true
}

/// Whether each of these nodes has a level of at most so many.
pub(crate) fn are_near(places: &Places, levels: &[NodeLevel], ends: &[u32], most: usize) -> bool
    requires places { places.now ≡ map node_of levels.now }
    requires distinct { AreDistinct levels.now }
    ensures yes { OnTrue result ((end : ℕ) → Contains ends.now end
        → HasLevelUpTo levels.now end most) }
    ensures no { OnFalse result (¬ ((end : ℕ) → Contains ends.now end
        → HasLevelUpTo levels.now end most)) }
{
    for end in ends {
        match find_level(places, levels, *end) {
            Some(level) => {
                if level as usize > most {
                    return false;
                }
            }
            None => return false,
        }
    }
    true
}
