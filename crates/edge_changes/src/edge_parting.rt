//! What is taken away with an edge: its record, and its place in the chains of its ends.

ghost use Rattle.std.specs.Prelude.{◌≡◌, ◌∷◌, ℕ, List, Some, IfErr, OnOk};
ghost use Rattle.rec_bytes.specs.Format.{relationships_file};
ghost use Rattle.rec_bytes.specs.Key.{IsKey};
ghost use Rattle.rec_bytes.specs.Space.{WritesOnly};
ghost use Rattle.rel_store.specs.RelRecord.{rel_key};
ghost use Rattle.store_rules.specs.Views.{RelRow, key_in, rel_at};
ghost use Rattle.chain_edit.specs.Heads.{head_of};
ghost use Rattle.group_store.specs.Leaving.{KeepsHeads};
ghost use Rattle.change_parts.specs.ChangeFault.{HasChangeCause, IsFailure, IsOutside};
ghost use Rattle.change_parts.specs.Damage.{BlamesBroken, IfBlames};
ghost use Rattle.edge_changes.specs.EdgeDeleting.{HasPlace, IsBareEdge, IsCutDamage};
ghost use Rattle.edge_changes.specs.EdgeDeleting.{IsPartedDamage};
ghost use Rattle.edge_changes.specs.EdgeDeleting.{IsPlacedEdge, IsUnusedEdge, KeepsGroups};
ghost use Rattle.edge_changes.specs.EdgeDeleting.{PartsEdge, WritesEnds};
ghost use Rattle.edge_changes.specs.EdgeEnds.{AreEdgeEnds, AtEach, HasRightLinks, HaveRightLinks};
ghost use Rattle.edge_changes.specs.EdgeEnds.{HasHead, IsEdgeEnd, end_keys, end_parted};
ghost use Rattle.edge_changes.specs.EdgeEnds.{ends_parted};
ghost use Rattle.change_parts.specs.Store.{IsMidway};

use crate::edge_end::{EdgeEnd, Ends};
use change_parts::ChangeFault;
use group_store::unlink_counted;
use id_freelist::give;
use rec_bytes::{Key, NODE_DEGREE, NODES, RELATIONSHIPS, Space, set_number};

/// Takes an edge without properties out of the chains of its ends, and gives its identifier back.
/// The degrees are those before. A group that the edge stood in stays, even if it is empty now.
pub(crate) fn part_edge<S: Space>(
    space: &mut S,
    id: u32,
    ends: Ends<EdgeEnd>,
) -> Result<(), ChangeFault>
    requires id { IsKey (key_in relationships_file id) }
    requires ends { AreEdgeEnds ends }
    ensures parted { S.tells
        → OnOk result ((names : List (List ℕ)) → IsMidway (S.state space.old) names
        → IsBareEdge (S.state space.old) id ends
        → PartsEdge (S.state space.old) (S.state space.new) names id ends) }
    ensures not_damaged { S.tells → (names : List (List ℕ)) → IsMidway (S.state space.old) names
        → IsBareEdge (S.state space.old) id ends → IfErr result IsOutside }
    ensures damaged { S.tells → (row : RelRow)
        → IsPlacedEdge (S.state space.old).records id row ends
        → IfErr result (IfBlames (IsPartedDamage (S.state space.old) id row.from row.to)) }
    ensures damaged_after { S.tells → (row : RelRow)
        → IsPlacedEdge (S.state space.old).records id row ends
        → IfErr result (BlamesBroken (S.state space.new)) }
    ensures heads { S.tells → AtEach (HasHead (S.state space.old).records) ends
        → OnOk result (KeepsHeads (S.state space.old) (S.state space.new)) }
    ensures groups { S.tells → AtEach (HasHead (S.state space.old).records) ends
        → OnOk result (KeepsGroups (S.state space.old) (S.state space.new)) }
    ensures gone { S.tells → OnOk result (IsUnusedEdge (S.state space.new).records id) }
    ensures writes { WritesEnds (S.state space.old) (S.state space.new) id ends }
    ensures failure { IfErr result IsFailure }
    ensures onward { S.onward space.old space.new }
    ensures cause { HasChangeCause (S.faults space.old) (S.faults space.new) result }
{
    part_ends(space, id, ends)?;
    give(space, RELATIONSHIPS, id)?;
    Ok(())
}

/// Takes a relationship out of the chains of its ends, and writes their degrees. The chain of a
/// loop has it once, by its source.
fn part_ends<S: Space>(space: &mut S, rel: u32, ends: Ends<EdgeEnd>) -> Result<(), ChangeFault>
    requires rel { IsKey (key_in relationships_file rel) }
    requires ends { AreEdgeEnds ends }
    ensures ok { S.tells
        → OnOk result (S.state space.new ≡ ends_parted (S.state space.old) ends rel) }
    ensures not_damaged { S.tells
        → HaveRightLinks (S.state space.old) ends rel → IfErr result IsOutside }
    ensures damaged { S.tells → (row : RelRow)
        → IsPlacedEdge (S.state space.old).records rel row ends
        → IfErr result (IfBlames (IsPartedDamage (S.state space.old) rel row.from row.to)) }
    ensures damaged_after { S.tells → (row : RelRow)
        → IsPlacedEdge (S.state space.old).records rel row ends
        → IfErr result (BlamesBroken (S.state space.new)) }
    ensures heads { S.tells → AtEach (HasHead (S.state space.old).records) ends
        → OnOk result (KeepsHeads (S.state space.old) (S.state space.new)) }
    ensures groups { S.tells → AtEach (HasHead (S.state space.old).records) ends
        → OnOk result (KeepsGroups (S.state space.old) (S.state space.new)) }
    ensures writes { WritesEnds (S.state space.old) (S.state space.new) rel ends }
    ensures failure { IfErr result IsFailure }
    ensures onward { S.onward space.old space.new }
    ensures cause { HasChangeCause (S.faults space.old) (S.faults space.new) result }
{
    match ends {
        Ends::Loop(end) => part_end(space, rel, end),
        Ends::Two { source, target } => {
            part_end(space, rel, source)?;
            part_end(space, rel, target)
        }
    }
}

/// Takes a relationship out of a chain of a node, and writes the node's degree.
#[tactic(auto, unfolding(crate::specs::EdgeEnds::parted))]
fn part_end<S: Space>(space: &mut S, rel: u32, end: EdgeEnd) -> Result<(), ChangeFault>
    requires rel { IsKey (key_in relationships_file rel) }
    requires end { IsEdgeEnd end }
    ensures ok { S.tells
        → OnOk result (S.state space.new ≡ end_parted (S.state space.old) end rel) }
    ensures not_damaged { S.tells
        → HasRightLinks (S.state space.old) end rel → IfErr result IsOutside }
    ensures damaged { S.tells → IfErr result (IfBlames (IsCutDamage (S.state space.old)
        (head_of end.head) end.node rel)) }
    ensures damaged_after { S.tells → (row : RelRow)
        → rel_at (S.state space.old).records rel ≡ Some row
        → HasPlace (S.state space.old).records row end
        → IfErr result (BlamesBroken (S.state space.new)) }
    ensures heads { S.tells → HasHead (S.state space.old).records end
        → OnOk result (KeepsHeads (S.state space.old) (S.state space.new)) }
    ensures groups { S.tells → HasHead (S.state space.old).records end
        → OnOk result (KeepsGroups (S.state space.old) (S.state space.new)) }
    ensures writes { (before after : ℕ) × WritesOnly (S.state space.old) (S.state space.new)
        (rel_key rel ∷ end_keys before after end) }
    ensures failure { IfErr result IsFailure }
    ensures onward { S.onward space.old space.new }
    ensures cause { HasChangeCause (S.faults space.old) (S.faults space.new) result }
{
    let key = Key {
        file: NODES,
        id: end.node,
    };
    unlink_counted(space, end.head, end.node, rel)?;
    set_number(space, key, NODE_DEGREE, end.degree.saturating_sub(1))?;
    Ok(())
}
