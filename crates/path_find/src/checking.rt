//! Whether levels prove what they are to prove.

ghost use Rattle.std.specs.Prelude.{◌≡◌, ◌↔◌, IfErr, IfOk, IsTrue, List, ℕ, map};
ghost use Rattle.std.specs.List.{sum_by};
ghost use Rattle.std.specs.Bool.{OnFalse, OnTrue};
ghost use Rattle.plain_graph.specs.Levels.{IsCertified, IsShortestOrNone};
ghost use Rattle.rec_bytes.specs.Fault.{HasFaultCause};
ghost use Rattle.rec_bytes.specs.Frame.{IsRead};
ghost use Rattle.path_find.specs.Checking.{
  AllSpread,
  AreDistinct,
  IsSpreadAt,
  edges_of,
  is_last,
  is_past,
};
ghost use Rattle.chain_edit.specs.Walking.{ReadsAtMost};
ghost use Rattle.path_find.specs.Costs.{check_reads, row_reads};
ghost use Rattle.path_find.specs.Damage.{BlamesBroken};
ghost use Rattle.path_find.specs.Reading.{node_of};
ghost use Rattle.path_find.specs.Reads.{StandFor, adjacency_of};
ghost use Rattle.path_find.specs.WalkSearch.{neighbours_for};
ghost use Rattle.store_rules.specs.Rules.{IsWhole};

use crate::known::{are_held, have_ends, places_of};
use crate::neighbours::neighbours;
use crate::node_test::is_node;
use crate::places::Places;
use crate::stepping::is_walk;
use crate::{Answer, WalkSearch};
use plain_graph::NodeLevel;
use rec_bytes::{Fault, Reads};
use std::alloc::Global;

/// Levels, and the number of edges of the walk that they are to prove shortest; none where they are
/// to prove that there is no walk.
#[derive(Clone, Copy)]
struct Claim<'a> {
    levels: &'a [NodeLevel],
    edges: Option<usize>,
}

/// Whether the levels prove that no walk that is sought is shorter, or where no walk is given, that
/// there is none.
///
/// It costs what `expand` reads at each node of the walk but the last, and once more at each node
/// of the levels that is nearer than the target, or at each of them where no walk is given. The
/// others cost a read each.
pub fn check_levels<R: Reads>(
    alloc: Global,
    reads: &mut R,
    sought: &WalkSearch,
    answer: &Answer,
) -> Result<bool, Fault>
    ensures decides { R.tells → IsWhole (R.state reads.old) → (types : List (List ℕ))
        → StandFor (R.state reads.old).records sought.now.labels.now types
        → IfOk result (λ yes. IsTrue yes
        ↔ IsCertified (adjacency_of (R.state reads.old) sought.now.direction types)
        sought.now.from sought.now.to answer.now.walk answer.now.levels) }
    // so it is true only of a shortest walk, or where there is none
    ensures proves { R.tells → IsWhole (R.state reads.old) → (types : List (List ℕ))
        → StandFor (R.state reads.old).records sought.now.labels.now types
        → IfOk result (λ yes. IsTrue yes
        → IsShortestOrNone (adjacency_of (R.state reads.old) sought.now.direction types)
        sought.now.from sought.now.to answer.now.walk) }
    // whatever is answered
    ensures cost { R.tells → IsWhole (R.state reads.old) → ReadsAtMost
        (check_reads (R.state reads.old) sought.now.direction sought.now.labels.now
        answer.now.walk answer.now.levels) (R.state reads.old) (R.state reads.new) }
    ensures damaged { R.tells → IfErr result (BlamesBroken (R.state reads.old)) }
    ensures read { IsRead R.Reads reads.old reads.new }
    ensures cause { HasFaultCause (R.faults reads.old) (R.faults reads.new) result }
{
    let walk = answer.walk.as_slice();
    let levels = answer.levels.as_slice();
    let edges = edges_of(walk);
    let found = places_of(alloc, levels)?;
    let Some(places) = found else {
        return Ok(false);
    };
    if !have_ends(&places, levels, sought.from, sought.to, edges) {
        return Ok(false);
    }
    let leads = is_walk(alloc, reads, walk, sought)?;
    if !leads {
        return Ok(false);
    }
    all_spread(alloc, reads, &places, &Claim { levels, edges }, sought)
}

/// The number of edges of a walk, and none where no walk is given.
fn edges_of(walk: &[u32]) -> Option<usize>
    ensures { result ≡ edges_of walk.now }
{
    if walk.is_empty() {
        None
    } else {
        Some(walk.len() - 1)
    }
}

/// Whether each row is a node's whose neighbours are in the levels.
fn all_spread<R: Reads>(
    alloc: Global,
    reads: &mut R,
    places: &Places,
    claim: &Claim,
    sought: &WalkSearch,
) -> Result<bool, Fault>
    requires places { places.now ≡ map node_of claim.now.levels.now }
    requires distinct { AreDistinct claim.now.levels.now }
    ensures yes { R.tells → IsWhole (R.state reads.old) → IfOk result (λ yes. OnTrue yes
        (AllSpread (neighbours_for (R.state reads.old) sought.now)
        claim.now.levels.now claim.now.edges)) }
    ensures no { R.tells → IsWhole (R.state reads.old) → IfOk result (λ yes. OnFalse yes
        (¬ AllSpread (neighbours_for (R.state reads.old) sought.now)
        claim.now.levels.now claim.now.edges)) }
    ensures cost { R.tells → IsWhole (R.state reads.old) → ReadsAtMost
        (sum_by (row_reads (R.state reads.old) sought.now.direction sought.now.labels.now
        claim.now.edges) claim.now.levels.now) (R.state reads.old) (R.state reads.new) }
    ensures damaged { R.tells → IfErr result (BlamesBroken (R.state reads.old)) }
    ensures read { IsRead R.Reads reads.old reads.new }
    ensures cause { HasFaultCause (R.faults reads.old) (R.faults reads.new) result }
{
    for row in claim.levels {
        let spreads = is_spread(alloc, reads, places, claim, *row, sought)?;
        if !spreads {
            return Ok(false);
        }
    }
    Ok(true)
}

/// Whether a row is a node's whose neighbours are in the levels. At the last level they needn't be.
fn is_spread<R: Reads>(
    alloc: Global,
    reads: &mut R,
    places: &Places,
    claim: &Claim,
    row: NodeLevel,
    sought: &WalkSearch,
) -> Result<bool, Fault>
    requires places { places.now ≡ map node_of claim.now.levels.now }
    requires distinct { AreDistinct claim.now.levels.now }
    ensures yes { R.tells → IsWhole (R.state reads.old) → IfOk result (λ yes. OnTrue yes
        (IsSpreadAt (neighbours_for (R.state reads.old) sought.now)
        claim.now.levels.now claim.now.edges row)) }
    ensures no { R.tells → IsWhole (R.state reads.old) → IfOk result (λ yes. OnFalse yes
        (¬ IsSpreadAt (neighbours_for (R.state reads.old) sought.now)
        claim.now.levels.now claim.now.edges row)) }
    ensures cost { R.tells → IsWhole (R.state reads.old) → ReadsAtMost
        (row_reads (R.state reads.old) sought.now.direction sought.now.labels.now
        claim.now.edges row) (R.state reads.old) (R.state reads.new) }
    ensures damaged { R.tells → IfErr result (BlamesBroken (R.state reads.old)) }
    ensures read { IsRead R.Reads reads.old reads.new }
    ensures cause { HasFaultCause (R.faults reads.old) (R.faults reads.new) result }
{
    if is_past(row, claim.edges) {
        return Ok(false);
    }
    if is_last(row, claim.edges) {
        let there = is_node(reads, row.node)?;
        return Ok(there);
    }
    let found = neighbours(alloc, reads, row.node, sought.direction, sought.labels)?;
    match found {
        Some(ends) => Ok(are_held(places, claim.levels, &ends, row, claim.edges)),
        None => Ok(false),
    }
}

/// Whether the row has the last level or one past it.
fn is_last(row: NodeLevel, edges: Option<usize>) -> bool
    ensures { result ≡ is_last row edges }
{
    match edges {
        Some(edges) => row.level as usize >= edges,
        None => false,
    }
}

/// Whether it has one past it.
fn is_past(row: NodeLevel, edges: Option<usize>) -> bool
    ensures { result ≡ is_past row edges }
{
    match edges {
        Some(edges) => row.level as usize > edges,
        None => false,
    }
}
