//! The nodes that two searches have found.

ghost use Rattle.std.specs.Prelude.{◌<◌, Contains, IfNone, IfSome};
ghost use Rattle.std.specs.Bool.{OnFalse, OnTrue};
ghost use Rattle.path_find.specs.Meeting.{AreApartFrom, HaveMet, IsShared};
ghost use Rattle.path_find.specs.Tree.{row_count};

use crate::tree::Tree;

/// From a row on, the first one whose node another search has found.
pub(crate) fn first_shared(tree: &Tree, from: usize, other: &Tree) -> Option<usize>
    ensures low { IfSome result (λ row. row < row_count tree.now) }
    ensures shared { IfSome result (IsShared tree.now other.now) }
    ensures before { IfSome result (λ row. AreApartFrom tree.now from row other.now) }
    ensures none { IfNone result (AreApartFrom tree.now from (row_count tree.now) other.now) }
{
    for row in from..tree.len() {
        if has_found(other, tree.node(row)) {
            return Some(row);
        }
    }
    None
}

/// Whether another search has found the node of a row, from a row on.
pub(crate) fn has_shared(tree: &Tree, from: usize, other: &Tree) -> bool
    ensures yes { OnTrue result (HaveMet tree.now other.now) }
    ensures no { OnFalse result (AreApartFrom tree.now from (row_count tree.now) other.now) }
{
    match first_shared(tree, from, other) {
        Some(_) => true,
        None => false,
    }
}

/// Whether a search has found a node.
fn has_found(tree: &Tree, node: u32) -> bool
    ensures yes { OnTrue result (Contains tree.now.nodes node) }
    ensures no { OnFalse result (¬ Contains tree.now.nodes node) }
{
    match tree.find(node) {
        Some(_) => true,
        None => false,
    }
}
