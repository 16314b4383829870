//! A new edge's record, without properties, and its place in the chains of its ends.

ghost use Rattle.std.specs.Prelude.{◌≡◌, ◌≢◌, ◌⊎◌, ◌<◌, ◌≤◌, ◌∷◌, [], ℕ, List, Some};
ghost use Rattle.std.specs.Prelude.{slice_get};
ghost use Rattle.std.specs.Prelude.{IfErr, IfOk, OnErr, OnOk};
ghost use Rattle.rec_bytes.specs.Format.{free_kind, kind, meta_file, relationships_file};
ghost use Rattle.rec_bytes.specs.declared.key.Key.{Key};
ghost use Rattle.rec_bytes.specs.Key.{IsKey};
ghost use Rattle.rec_bytes.specs.RecordFiles.{meta_key_of, room_of};
ghost use Rattle.rec_bytes.specs.Record.{field};
ghost use Rattle.rec_bytes.specs.Space.{SameButReads, State, WritesOnly, after_put, meta_of};
ghost use Rattle.rec_bytes.specs.declared.record.Rec.{Rec};
ghost use Rattle.id_freelist.specs.FreeLists.{IsFreeList};
ghost use Rattle.id_freelist.specs.ListDamage.{HarmsNoList, IsListDamage};
ghost use Rattle.id_freelist.specs.Taking.{HasTaken, taken, taken_id};
ghost use Rattle.rel_store.specs.Loading.{rel_mark};
ghost use Rattle.rel_store.specs.RelRecord.{rel_key};
ghost use Rattle.store_rules.specs.Rules.{KeepsRules, first_of};
ghost use Rattle.store_rules.specs.Views.{key_in, kind_at};
ghost use Rattle.store_rules.specs.Writes.{ChangesOnly, meta_keys};
ghost use Rattle.chain_edit.specs.Heads.{head_of};
ghost use Rattle.chain_edit.specs.Links.{IsRightLink};
ghost use Rattle.group_store.specs.Leaving.{KeepsHeads};
ghost use Rattle.group_store.specs.Naming.{IsOfMarks};
ghost use Rattle.change_parts.specs.ChangeFault.{HasChangeCause, IsFailure, IsOutside};
ghost use Rattle.change_parts.specs.Damage.{BlamesBroken, IfBlames};
ghost use Rattle.edge_changes.specs.EdgeEnds.{AreApart, AreEdgeEnds, AtEach, HasHead, IsEdgeEnd};
ghost use Rattle.edge_changes.specs.EdgeEnds.{source_of};
ghost use Rattle.edge_changes.specs.declared.edge_end.EdgeEnd.{EdgeEnd};
ghost use Rattle.edge_changes.specs.EdgeEnds.{target_of};
ghost use Rattle.edge_changes.specs.EdgeAdding.{IsChainDamage, KeepsButChains};
ghost use Rattle.edge_changes.specs.EdgeJoining.{AreRightFirsts, BlamesEndJoined, BlamesJoined};
ghost use Rattle.edge_changes.specs.EdgeJoining.{CanJoin, IsOfLost, KeepsBesideEnd};
ghost use Rattle.edge_changes.specs.EdgeJoining.{HasPlaced, WritesJoined};
ghost use Rattle.edge_changes.specs.EdgeJoining.{end_joined, ends_joined, joined_keys, new_row};
ghost use Rattle.edge_changes.specs.EdgePlacing.{IsEdgeBetween, PutsEdge, TakesFirst};
ghost use Rattle.change_parts.specs.Rooms.{HasRoom};

use crate::edge_end::{EdgeEnd, Ends};
use change_parts::ChangeFault;
use group_store::push_counted;
use id_freelist::{TakeFault, take};
use rec_bytes::{
    Damage, Key, META, NIL, NODE_DEGREE, NODES, RELATIONSHIPS, SPLIT_RULE, Space, set_number,
};
use rel_store::{RelRow, save};

/// Writes the record of a new relationship without properties, puts it into the chains of its ends,
/// and answers its identifier. The degrees are those before. A group of a head may be empty before.
pub(crate) fn join_edge<S: Space>(
    space: &mut S,
    label: u32,
    ends: Ends<EdgeEnd>,
) -> Result<u32, ChangeFault>
    requires { AreEdgeEnds ends }
    ensures joined { S.tells → IfOk result (λ id. (names : List (List ℕ)) (text : List ℕ)
        → CanJoin (S.state space.old) names label ends → slice_get names label ≡ Some text
        → PutsEdge (S.state space.old) (S.state space.new) names (source_of ends).node text
        (target_of ends).node id) }
    ensures is { IfOk result
        (λ id. id ≡ taken_id (meta_of (S.state space.old) relationships_file)) }
    ensures not_damaged { S.tells → (names : List (List ℕ)) (text : List ℕ)
        → CanJoin (S.state space.old) names label ends → slice_get names label ≡ Some text
        → HasRoom (S.state space.old) relationships_file 1 → IfErr result IsOutside }
    ensures damaged { S.tells → AtEach (HasHead (S.state space.old).records) ends
        → HasRoom (S.state space.old) relationships_file 1
        → IfErr result (BlamesBroken (S.state space.new)) }
    ensures leaves { S.tells → AtEach (HasHead (S.state space.old).records) ends
        → OnOk result (KeepsButChains (S.state space.old) (S.state space.new)
        (source_of ends).node (target_of ends).node) }
    ensures found { S.tells → AtEach (HasHead (S.state space.old).records) ends
        → IfErr result (IfBlames (IsChainDamage (S.state space.old) (S.state space.new)
        (IsOfLost (S.state space.old) ends))) }
    ensures stands { S.tells → IfOk result (λ id. IsEdgeBetween (S.state space.new).records id
        (source_of ends).node label (target_of ends).node) }
    ensures free { S.tells → OnOk result (TakesFirst
        (S.state space.old).records (S.state space.new).records relationships_file) }
    ensures key { IfOk result (λ id. IsKey (key_in relationships_file id)) }
    ensures writes { IfOk result (λ id.
        WritesJoined (S.state space.old) (S.state space.new) id ends) }
    ensures err_writes { OnErr result ((id : ℕ)
        × WritesJoined (S.state space.old) (S.state space.new) id ends) }
    ensures failure { IfErr result IsFailure }
    ensures onward { S.onward space.old space.new }
    ensures cause { HasChangeCause (S.faults space.old) (S.faults space.new) result }
{
    let (from, to) = ends.nodes();
    let id = place(space, label, from, to)?;
    join_ends(space, id, ends)?;
    Ok(id)
}

/// Writes the record of a new relationship, which is in no chain yet, and answers its identifier.
fn place<S: Space>(space: &mut S, label: u32, from: u32, to: u32) -> Result<u32, ChangeFault>
    ensures placed { S.tells → IfOk result (λ id.
        HasPlaced (S.state space.old) (S.state space.new) label from to id) }
    ensures is { IfOk result
        (λ id. id ≡ taken_id (meta_of (S.state space.old) relationships_file)) }
    ensures not_damaged { S.tells → (most : ℕ) (empty : List ℕ)
        → KeepsRules (S.state space.old).records (S.state space.old).shape most empty
        → HasRoom (S.state space.old) relationships_file 1 → IfErr result IsOutside }
    ensures damaged { S.tells → HasRoom (S.state space.old) relationships_file 1
        → IfErr result (BlamesBroken (S.state space.new)) }
    ensures leaves { S.tells
        → OnOk result (KeepsButChains (S.state space.old) (S.state space.new) from to) }
    ensures found { S.tells
        → IfErr result (IfBlames (IsChainDamage (S.state space.old) (S.state space.new)
        (λ damage. ⊥))) }
    ensures others { S.tells → OnOk result ((key : Key)
        → key.file ≢ relationships_file → key.file ≢ meta_file
        → (S.state space.new).records key ≡ (S.state space.old).records key) }
    ensures grown { S.tells
        → OnOk result (rel_mark (S.state space.old) ≤ rel_mark (S.state space.new)) }
    ensures lists { S.tells → OnOk result
        (HarmsNoList (S.state space.old) (S.state space.new) relationships_file) }
    ensures heads { S.tells
        → OnOk result (KeepsHeads (S.state space.old) (S.state space.new)) }
    ensures stands { S.tells
        → IfOk result (λ id. IsEdgeBetween (S.state space.new).records id from label to) }
    ensures key { IfOk result (λ id. IsKey (key_in relationships_file id)) }
    ensures writes { IfOk result (λ id.
        WritesOnly (S.state space.old) (S.state space.new) (rel_key id ∷ meta_keys)) }
    ensures err_writes { OnErr result ((id : ℕ)
        × WritesOnly (S.state space.old) (S.state space.new) (rel_key id ∷ meta_keys)) }
    ensures failure { IfErr result IsFailure }
    ensures onward { S.onward space.old space.new }
    ensures cause { HasChangeCause (S.faults space.old) (S.faults space.new) result }
{
    let id = take_id(space)?;
    save(space, &new_row(id, label, from, to))?;
    Ok(id)
}

/// Takes an identifier of a relationship. There was room for one before the first record was
/// written, and the space that tells its records has it still. So the file is never full.
fn take_id<S: Space>(space: &mut S) -> Result<u32, ChangeFault>
    ensures taken { S.tells → IfOk result (λ id. (free : List ℕ)
        → IsFreeList (S.state space.old).records relationships_file free
        → HasTaken (S.state space.old).records (S.state space.new).records
        relationships_file id free) }
    ensures is { IfOk result
        (λ id. id ≡ taken_id (meta_of (S.state space.old) relationships_file)) }
    ensures not_damaged { S.tells → (most : ℕ) (empty : List ℕ)
        → KeepsRules (S.state space.old).records (S.state space.old).shape most empty
        → HasRoom (S.state space.old) relationships_file 1 → IfErr result IsOutside }
    ensures damaged { S.tells → HasRoom (S.state space.old) relationships_file 1
        → IfErr result (BlamesBroken (S.state space.new)) }
    ensures found { S.tells → IfErr result (IfBlames (λ damage. IsOfMarks damage
        ⊎ IsListDamage (S.state space.old).records (S.state space.old).shape relationships_file
        damage)) }
    // where the identifier is put in use
    ensures lists { S.tells → IfOk result (λ id. (t : State) (rec : Rec)
        → t ≡ after_put (S.state space.new) (rel_key id) rec → field 1 rec kind ≢ free_kind
        → HarmsNoList (S.state space.old) t relationships_file) }
    ensures used { S.tells → IfOk result (λ id. (t : State) (rec : Rec)
        → t ≡ after_put (S.state space.new) (rel_key id) rec → field 1 rec kind ≢ free_kind
        → kind_at t.records relationships_file id ≢ free_kind) }
    ensures stays { S.tells → ChangesOnly (S.state space.old) (S.state space.new)
        (meta_key_of relationships_file ∷ []) }
    ensures grown { S.tells
        → OnOk result (rel_mark (S.state space.old) ≤ rel_mark (S.state space.new)) }
    ensures ok { S.tells
        → OnOk result (S.state space.new ≡ taken (S.state space.old) relationships_file) }
    ensures err { OnErr result (SameButReads (S.state space.old) (S.state space.new)) }
    ensures small { IfOk result
        (λ id. id < room_of (S.state space.old).shape relationships_file) }
    ensures key { IfOk result (λ id. IsKey (key_in relationships_file id)) }
    ensures writes { WritesOnly (S.state space.old) (S.state space.new)
        (meta_key_of relationships_file ∷ []) }
    ensures failure { IfErr result IsFailure }
    ensures onward { S.onward space.old space.new }
    ensures cause { HasChangeCause (S.faults space.old) (S.faults space.new) result }
{
    match take(space, RELATIONSHIPS) {
        Ok(id) => Ok(id),
        Err(TakeFault::Full { .. }) => Err(ChangeFault::Damaged(Damage {
            file: META,
            id: RELATIONSHIPS as u32,
            rule: SPLIT_RULE,
        })),
        Err(TakeFault::Memory) => Err(ChangeFault::Memory),
        Err(TakeFault::Disk) => Err(ChangeFault::Disk),
        Err(TakeFault::Damaged(damage)) => Err(ChangeFault::Damaged(damage)),
    }
}

/// A relationship without neighbours and without properties.
fn new_row(id: u32, label: u32, from: u32, to: u32) -> RelRow
    ensures { result ≡ new_row id label from to }
{
    RelRow {
        id,
        label,
        from,
        to,
        source_previous: NIL,
        source_next: NIL,
        target_previous: NIL,
        target_next: NIL,
        property: NIL,
    }
}

/// Puts a relationship at the front of the chains of its ends, and writes their degrees. The chain
/// of a loop has it once, by its source.
fn join_ends<S: Space>(space: &mut S, rel: u32, ends: Ends<EdgeEnd>) -> Result<(), ChangeFault>
    requires rel { IsKey (key_in relationships_file rel) }
    requires ends { AtEach IsEdgeEnd ends }
    ensures ok { S.tells
        → OnOk result (S.state space.new ≡ ends_joined (S.state space.old) ends rel) }
    ensures not_damaged { S.tells
        → AreRightFirsts (S.state space.old) ends rel → IfErr result IsOutside }
    ensures damaged { S.tells → AtEach (HasHead (S.state space.old).records) ends
        → IfErr result (BlamesBroken (S.state space.new)) }
    ensures leaves { S.tells → AtEach (HasHead (S.state space.old).records) ends
        → OnOk result (KeepsButChains (S.state space.old) (S.state space.new)
        (source_of ends).node (target_of ends).node) }
    ensures found { S.tells → AtEach (HasHead (S.state space.old).records) ends
        → AreApart (λ (end : EdgeEnd). end.node) ends
        → IfErr result (BlamesJoined (S.state space.old) (S.state space.new) ends) }
    ensures writes { WritesJoined (S.state space.old) (S.state space.new) rel ends }
    ensures failure { IfErr result IsFailure }
    ensures onward { S.onward space.old space.new }
    ensures cause { HasChangeCause (S.faults space.old) (S.faults space.new) result }
{
    match ends {
        Ends::Loop(end) => join_end(space, rel, end),
        Ends::Two { source, target } => {
            join_end(space, rel, source)?;
            join_end(space, rel, target)
        }
    }
}

/// Puts a relationship at the front of a chain of a node, and writes the node's degree.
#[tactic(auto, unfolding(crate::specs::EdgeEnds::joined))]
fn join_end<S: Space>(space: &mut S, rel: u32, end: EdgeEnd) -> Result<(), ChangeFault>
    requires rel { IsKey (key_in relationships_file rel) }
    requires end { IsEdgeEnd end }
    ensures ok { S.tells
        → OnOk result (S.state space.new ≡ end_joined (S.state space.old) end rel) }
    ensures not_damaged { S.tells
        → IsRightLink (S.state space.old) (first_of (S.state space.old).records (head_of end.head))
        → IfErr result IsOutside }
    ensures damaged { S.tells → HasHead (S.state space.old).records end
        → IfErr result (BlamesBroken (S.state space.new)) }
    ensures leaves { S.tells → HasHead (S.state space.old).records end
        → OnOk result
        (KeepsButChains (S.state space.old) (S.state space.new) end.node end.node) }
    ensures found { S.tells → HasHead (S.state space.old).records end
        → IfErr result (BlamesEndJoined (S.state space.old) (S.state space.new) end) }
    ensures others { S.tells
        → OnOk result (KeepsBesideEnd (S.state space.old) (S.state space.new) end) }
    ensures mark { S.tells → HasHead (S.state space.old).records end
        → OnOk result (rel_mark (S.state space.new) ≡ rel_mark (S.state space.old)) }
    ensures heads { S.tells → HasHead (S.state space.old).records end
        → OnOk result (KeepsHeads (S.state space.old) (S.state space.new)) }
    ensures writes { (first : ℕ) × WritesOnly (S.state space.old) (S.state space.new)
        (rel_key rel ∷ joined_keys first end) }
    ensures failure { IfErr result IsFailure }
    ensures onward { S.onward space.old space.new }
    ensures cause { HasChangeCause (S.faults space.old) (S.faults space.new) result }
{
    let key = Key {
        file: NODES,
        id: end.node,
    };
    push_counted(space, end.head, end.node, rel)?;
    set_number(space, key, NODE_DEGREE, end.degree.saturating_add(1))?;
    Ok(())
}
