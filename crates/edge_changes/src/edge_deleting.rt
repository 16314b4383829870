ghost use Rattle.std.specs.Prelude.{◌≡◌, ◌≢◌, ◌⊎◌, ◌∷◌, [], ℕ, List, None, ◌+◌, ◌≤◌, IfErr, IfOk};
ghost use Rattle.std.specs.Prelude.{OnErr, OnOk};
ghost use Rattle.plain_graph.specs.Changes.{most_weight, start_weight};
ghost use Rattle.plain_graph.specs.Reply.{Done};
ghost use Rattle.plain_graph.specs.declared.command.Command.TheVariants as commands;
ghost use Rattle.plain_graph.specs.declared.command.Target.TheVariants as targets;
ghost use Rattle.rec_bytes.specs.Format.{nodes_file, relationships_file};
ghost use Rattle.rec_bytes.specs.Key.{IsKey};
ghost use Rattle.store_rules.specs.Views as views;
ghost use Rattle.store_rules.specs.Views.{key_in};
ghost use Rattle.rec_bytes.specs.Space.{SameButReads, WritesOnly};
ghost use Rattle.node_store.specs.Loading.{IsReadable, row_at};
ghost use Rattle.rel_store.specs.Loading as rels;
ghost use Rattle.rel_store.specs.RelRecord.{rel_key};
ghost use Rattle.rel_store.specs.declared.rel_row.RelRow.{RelRow};
ghost use Rattle.group_store.specs.Densing.{IsSparse};
ghost use Rattle.group_store.specs.GroupChain.{IsDense};
ghost use Rattle.group_store.specs.GroupRecord.{group_key};
ghost use Rattle.group_store.specs.Leaving.{KeepsHeads, LeavesCounted};
ghost use Rattle.store_rules.specs.Writes.{WritesAtMost, WritesBeside};
ghost use Rattle.change_parts.specs.Causes.{IsCaused, IsCausedAfter};
ghost use Rattle.change_parts.specs.Change.{IsRefusal, MakesChange};
ghost use Rattle.change_parts.specs.ChangeFault.{HasChangeCause, IsFailure, IsOutside, LeavesSpace};
ghost use Rattle.change_parts.specs.Damage.{BlamesBroken, IfBlames};
ghost use Rattle.edge_changes.specs.EdgeDeleting.{BlamesEnd, FindsEnd, FindsEnds};
ghost use Rattle.edge_changes.specs.EdgeDeleting.{HasBareRow, HasPlace, HasRow, IsBareEdge};
ghost use Rattle.edge_changes.specs.EdgeDeleting.{IsPartedDamage, IsPlacedEdge, IsTakenDamage};
ghost use Rattle.edge_changes.specs.EdgeDeleting.{IsUndroppedDamage, IsUnusedEdge, KeepsKinds};
ghost use Rattle.edge_changes.specs.EdgeDeleting.{LeavesEdge};
ghost use Rattle.edge_changes.specs.EdgeDeleting.{TakesEdge, WritesTaken, with_property};
ghost use Rattle.edge_changes.specs.EdgeEnds.{AreEdgeEnds, AtEach, HasHead, IsEdgeEnd, source_of};
ghost use Rattle.edge_changes.specs.EdgeEnds.{target_of};
ghost use Rattle.change_parts.specs.Degrees.{HasDegree};
ghost use Rattle.change_parts.specs.Store.{IsMidway, IsStore};
ghost use Rattle.store_rules.specs.Graph.{graph_in};

use crate::edge_end::{EdgeEnd, Ends};
use crate::edge_parting::part_edge;
use change_parts::{ChangeFault, edge_owner};
use group_store::{Side, close_chain, open_head};
use name_store::Names;
use prop_store::drop_all;
use rec_bytes::{CHAIN_RULE, Damage, RELATIONSHIPS, Reads, Space};
use rel_store::{RelRow, load};

/// Deletes an edge with its properties, and answers the weight of the change. Its nodes and the
/// names stay.
pub fn delete_edge<S: Space>(space: &mut S, names: &Names, id: u32) -> Result<u32, ChangeFault>
    ensures made { S.tells → IfOk result (λ weight. IsStore (S.state space.old) names.now.names
        → MakesChange (commands.Delete (targets.Edge id)) Done weight
        (S.state space.old) (S.state space.new) names.now.names) }
    ensures refused { S.tells → IsStore (S.state space.old) names.now.names
        → IfErr result (IsRefusal (S.state space.old).shape.limit (graph_in (S.state space.old))
        (commands.Delete (targets.Edge id))) }
    ensures caused { S.tells → IfErr result (IsCaused (commands.Delete (targets.Edge id))
        (S.state space.old) (S.state space.new) names.now.names names.now.names) }
    ensures caused_after { S.tells → IfErr result (IsCausedAfter (commands.Delete (targets.Edge id))
        (S.state space.new) names.now.names names.now.names) }
    ensures damaged { S.tells → IfErr result (BlamesBroken (S.state space.old)) }
    ensures broken { S.tells → IfErr result (BlamesBroken (S.state space.new)) }
    // whatever the records are, the edge was there, and is in use no more
    ensures there { S.tells → OnOk result (rels.row_at (S.state space.old).records id ≢ None) }
    ensures gone { S.tells → OnOk result (IsUnusedEdge (S.state space.new).records id) }
    // a dense node stays so, however few relationships it has
    ensures kinds { S.tells → IfOk result (λ _. IsStore (S.state space.old) names.now.names
        → KeepsKinds (S.state space.old) (S.state space.new)) }
    ensures leaves { IfErr result (LeavesSpace (S.state space.old) (S.state space.new)) }
    ensures light { IfOk result (λ weight. weight + start_weight ≤ most_weight) }
    ensures writes { IfOk result (λ weight.
        WritesAtMost weight (S.state space.old) (S.state space.new)) }
    ensures refused_writes { OnErr result (WritesAtMost 749
        (S.state space.old) (S.state space.new)) }
    ensures onward { S.onward space.old space.new }
    ensures cause { HasChangeCause (S.faults space.old) (S.faults space.new) result }
{
    let Some(rel) = load(space, id)? else {
        return Err(ChangeFault::NoEdge { id });
    };
    let dropped = drop_all(space, edge_owner(id))?;
    take_edge(space, id, rel)?;
    Ok(13 + dropped.properties + dropped.blocks)
}

/// Takes an edge without properties out of the chains of its ends, gives its identifier back, and
/// drops the groups at its ends that are empty then. A group that stays has counts.
fn take_edge<S: Space>(space: &mut S, id: u32, rel: RelRow) -> Result<(), ChangeFault>
    requires { IsKey (key_in relationships_file id) }
    ensures taken { S.tells
        → OnOk result ((names : List (List ℕ)) → IsMidway (S.state space.old) names
        → HasBareRow (S.state space.old).records id rel
        → TakesEdge (S.state space.old) (S.state space.new) names id) }
    ensures not_damaged { S.tells → (names : List (List ℕ)) → IsMidway (S.state space.old) names
        → HasBareRow (S.state space.old).records id rel → IfErr result IsOutside }
    ensures damaged { S.tells → HasRow (S.state space.old).records id rel → IfErr result
        (IfBlames (IsTakenDamage (S.state space.old) id rel)) }
    ensures damaged_after { S.tells → HasRow (S.state space.old).records id rel
        → IfErr result (BlamesBroken (S.state space.new)) }
    ensures gone { S.tells → OnOk result (IsUnusedEdge (S.state space.new).records id) }
    ensures writes { WritesBeside (rel_key id) 12 (S.state space.old) (S.state space.new) }
    ensures failure { IfErr result IsFailure }
    ensures onward { S.onward space.old space.new }
    ensures cause { HasChangeCause (S.faults space.old) (S.faults space.new) result }
{
    let ends = edge_ends(space, id, rel)?;
    unlink_edge(space, id, ends)
}

/// The ends of a relationship. The group that it stands in at an end gets counts where it has none.
fn edge_ends<S: Space>(space: &mut S, id: u32, rel: RelRow) -> Result<Ends<EdgeEnd>, ChangeFault>
    ensures found { S.tells → IfOk result (λ ends. (names : List (List ℕ))
        → IsMidway (S.state space.old) names
        → HasBareRow (S.state space.old).records id rel
        → FindsEnds (S.state space.old) (S.state space.new) names id ends) }
    ensures not_damaged { S.tells → (names : List (List ℕ)) → IsMidway (S.state space.old) names
        → HasBareRow (S.state space.old).records id rel → IfErr result IsOutside }
    ensures damaged { S.tells → IfErr result
        (IfBlames (IsTakenDamage (S.state space.old) id rel)) }
    ensures damaged_after { S.tells → HasRow (S.state space.old).records id rel
        → IfErr result (BlamesBroken (S.state space.new)) }
    ensures counts { S.tells → OnOk result
        (LeavesEdge (S.state space.old) (S.state space.new) id) }
    ensures nodes { IfOk result (λ ends. ((source_of ends).node ≡ rel.from)
        × ((target_of ends).node ≡ rel.to)) }
    ensures heads { S.tells → IfOk result (AtEach (HasHead (S.state space.new).records)) }
    ensures placed { S.tells → (property : ℕ) → IfOk result (AtEach
        (HasPlace (S.state space.new).records (with_property id rel property))) }
    ensures ends { IfOk result AreEdgeEnds }
    ensures wrote { IfOk result (λ ends. WritesOnly (S.state space.old) (S.state space.new)
        ((source_of ends).head.key ∷ (target_of ends).head.key ∷ [])) }
    ensures writes { (g k : ℕ) × WritesOnly (S.state space.old) (S.state space.new)
        (group_key g ∷ group_key k ∷ []) }
    ensures failure { IfErr result IsFailure }
    ensures onward { S.onward space.old space.new }
    ensures cause { HasChangeCause (S.faults space.old) (S.faults space.new) result }
{
    let source = edge_end(space, id, rel, rel.from)?;
    if rel.from == rel.to {
        return Ok(Ends::Loop(source));
    }
    let target = edge_end(space, id, rel, rel.to)?;
    Ok(Ends::Two { source, target })
}

/// The end of a relationship at a node.
fn edge_end<S: Space>(
    space: &mut S,
    id: u32,
    rel: RelRow,
    node: u32,
) -> Result<EdgeEnd, ChangeFault>
    ensures found { S.tells → IfOk result (λ end. (names : List (List ℕ))
        → IsMidway (S.state space.old) names
        → HasBareRow (S.state space.old).records id rel → (node ≡ rel.from) ⊎ (node ≡ rel.to)
        → FindsEnd (S.state space.old) (S.state space.new) names id end) }
    ensures not_damaged { S.tells → (names : List (List ℕ)) → IsMidway (S.state space.old) names
        → HasBareRow (S.state space.old).records id rel
        → (node ≡ rel.from) ⊎ (node ≡ rel.to) → IfErr result IsOutside }
    ensures damaged { S.tells → IfErr result
        (BlamesEnd (S.state space.old) id node rel.label) }
    ensures damaged_after { S.tells → HasRow (S.state space.old).records id rel
        → (node ≡ rel.from) ⊎ (node ≡ rel.to) → IfErr result (BlamesBroken (S.state space.new)) }
    ensures counts { S.tells → OnOk result
        (LeavesCounted (S.state space.old).records (S.state space.new).records) }
    ensures has { S.tells → IfOk result (HasHead (S.state space.new).records) }
    ensures placed { S.tells → (node ≡ rel.from) ⊎ (node ≡ rel.to) → (property : ℕ) → IfOk result
        (HasPlace (S.state space.new).records (with_property id rel property)) }
    ensures heads { S.tells → OnOk result (KeepsHeads (S.state space.old) (S.state space.new)) }
    ensures node { IfOk result (λ end. end.node ≡ node) }
    ensures end { IfOk result IsEdgeEnd }
    ensures wrote { IfOk result (λ end.
        WritesOnly (S.state space.old) (S.state space.new) (end.head.key ∷ [])) }
    ensures writes { (g : ℕ) × WritesOnly (S.state space.old) (S.state space.new)
        (group_key g ∷ []) }
    ensures failure { IfErr result IsFailure }
    ensures onward { S.onward space.old space.new }
    ensures cause { HasChangeCause (S.faults space.old) (S.faults space.new) result }
{
    let degree = end_degree(space, id, node)?;
    let side = Side::at(node, rel.from, rel.to);
    let head = open_head(space, node, id, rel.label, side)?;
    Ok(EdgeEnd { node, head, degree })
}

/// How many relationships an end of a relationship has. The relationship is damaged where its end
/// is no node.
fn end_degree<R: Reads>(space: &mut R, rel: u32, node: u32) -> Result<u32, ChangeFault>
    ensures found { R.tells
        → IfOk result (λ degree. HasDegree (R.state space.old).records node degree) }
    ensures not_damaged { R.tells → IsReadable (R.state space.old) node
        → (row_at (R.state space.old).records node ≢ None) → IfErr result IsOutside }
    ensures damaged { R.tells → (label : ℕ)
        → IfErr result (BlamesEnd (R.state space.old) rel node label) }
    ensures kind { R.tells → OnOk result (IsDense (R.state space.old).records node
        ⊎ IsSparse (R.state space.old).records node) }
    ensures key { IfOk result (λ degree. IsKey (key_in nodes_file node)) }
    ensures failure { IfErr result IsFailure }
    ensures state { SameButReads (R.state space.old) (R.state space.new) }
    ensures onward { R.onward space.old space.new }
    ensures cause { HasChangeCause (R.faults space.old) (R.faults space.new) result }
{
    let Some(row) = node_store::load(space, node)? else {
        return Err(ChangeFault::Damaged(Damage {
            file: RELATIONSHIPS,
            id: rel,
            rule: CHAIN_RULE,
        }));
    };
    Ok(row.degree)
}

/// The same, by the ends of the edge. The degrees are those before.
fn unlink_edge<S: Space>(space: &mut S, id: u32, ends: Ends<EdgeEnd>) -> Result<(), ChangeFault>
    requires id { IsKey (key_in relationships_file id) }
    requires ends { AreEdgeEnds ends }
    ensures taken { S.tells
        → OnOk result ((names : List (List ℕ)) → IsMidway (S.state space.old) names
        → IsBareEdge (S.state space.old) id ends
        → TakesEdge (S.state space.old) (S.state space.new) names id) }
    ensures not_damaged { S.tells → (names : List (List ℕ)) → IsMidway (S.state space.old) names
        → IsBareEdge (S.state space.old) id ends → IfErr result IsOutside }
    ensures damaged { S.tells → (row : views.RelRow)
        → IsPlacedEdge (S.state space.old).records id row ends → IfErr result
        (IfBlames (λ damage. IsPartedDamage (S.state space.old) id row.from row.to damage
        ⊎ IsUndroppedDamage (S.state space.old) damage)) }
    ensures damaged_after { S.tells → (row : views.RelRow)
        → IsPlacedEdge (S.state space.old).records id row ends
        → IfErr result (BlamesBroken (S.state space.new)) }
    ensures gone { S.tells → OnOk result (IsUnusedEdge (S.state space.new).records id) }
    ensures writes { WritesTaken (S.state space.old) (S.state space.new) id ends }
    ensures failure { IfErr result IsFailure }
    ensures onward { S.onward space.old space.new }
    ensures cause { HasChangeCause (S.faults space.old) (S.faults space.new) result }
{
    part_edge(space, id, ends)?;
    match ends {
        Ends::Loop(end) => close_chain(space, end.node, end.head)?,
        Ends::Two { source, target } => {
            close_chain(space, source.node, source.head)?;
            close_chain(space, target.node, target.head)?;
        }
    }
    Ok(())
}
