ghost use Rattle.std.specs.Prelude.{◌≡◌, ◌≢◌, ◌⊎◌, ◌≤◌, ◌∷◌, [], ◌++◌, ◌+◌, ◌*◌, ℕ, List};
ghost use Rattle.std.specs.Prelude.{true, IfErr, IfOk, None, OnOk};
ghost use Rattle.node_store.specs.Loading as nodes;
ghost use Rattle.node_store.specs.NodeRecord.{node_key};
ghost use Rattle.rec_bytes.specs.Key.{IsKey};
ghost use Rattle.rec_bytes.specs.RecordFiles.{meta_key_of};
ghost use Rattle.rec_bytes.specs.Format.{groups_file, relationships_file};
ghost use Rattle.id_freelist.specs.ListDamage.{HarmsNoList};
ghost use Rattle.id_freelist.specs.Taking.{room};
ghost use Rattle.rec_bytes.specs.Space.{HasCause, SameButReads, WritesOnly, meta_of};
ghost use Rattle.rel_store.specs.Loading as rels;
ghost use Rattle.rel_store.specs.RelRecord.{rel_key};
ghost use Rattle.store_rules.specs.Ends.{Regroups};
ghost use Rattle.store_rules.specs.Chains.{In, IsWalk};
ghost use Rattle.store_rules.specs.Views.{degree, rec_at, rel_at};
ghost use Rattle.store_rules.specs.Writes.{WritesBeside};
ghost use Rattle.group_store.specs.Touching.{TouchesGroups};
ghost use Rattle.chain_edit.specs.Chains.{next_of};
ghost use Rattle.chain_edit.specs.Links.{prev_set};
ghost use Rattle.group_store.specs.Densing.{BecomesDense, CanBecomeDense, CanSpread, HasDenseRoom};
ghost use Rattle.group_store.specs.Densing.{HasSpreadRoom, SpreadsChain};
ghost use Rattle.group_store.specs.Densing.{IsEndFault, IsMoveFault, IsSparse};
ghost use Rattle.group_store.specs.GroupChain.{IsDense, IsGroupChain};
ghost use Rattle.group_store.specs.GroupRecord.{group_key};
ghost use Rattle.group_store.specs.Leaving.{KeepsHeads, KeepsOtherHeads, LeavesBeside};
ghost use Rattle.group_store.specs.Leaving.{IsLowLink, LeavesOthers};
ghost use Rattle.group_store.specs.Making.{IsOwnGroup};
ghost use Rattle.group_store.specs.Moving.{ComesIn, GrowsBy, HasAdded, HasFound, IsOwnTurn};
ghost use Rattle.group_store.specs.Moving.{turn_keys};
ghost use Rattle.group_store.specs.Naming.{NamesAt, NamesFound, NamesMeta, NamesNoGroup};
ghost use Rattle.group_store.specs.Naming.{NamesNoNode};
ghost use Rattle.group_store.specs.OpenFault.{HasOpenCause, NotRefused, OnRefusal};
ghost use Rattle.group_store.specs.Opening.{GrowsAtMost, IsOpenFault};
ghost use Rattle.group_store.specs.Raising.{IsGroupAt};
ghost use Rattle.group_store.specs.Spreading.{CanTakeEach, HasCountedList, HasEndRoom};
ghost use Rattle.group_store.specs.Spreading.{HasOpened, HasSpreadList, IsSpread};
ghost use Rattle.group_store.specs.Spreading.{IsSpreading, KeepsBut, LeadsAmong, cleared};
ghost use Rattle.group_store.specs.Walking.{group_row_at};

use crate::Side;
use crate::counting::push_counted;
use crate::finding::find_group;
use crate::making::{OwnGroup, make_own};
use crate::members::chain_damage;
use crate::moved::{Moved, Turn};
use crate::open_fault::OpenFault;
use crate::raising::degree_damage;
use crate::side::group_head;
use crate::sparse_chain::{rels_damage, test_chain};
use rec_bytes::{DENSE, KIND, Key, NIL, NODE_FIRST_LINK, NODES, RELATIONSHIPS, Space, SpaceFault};
use rel_store::{Linked, end_links, place_of};

/// Makes a sparse node dense: each of its relationships comes into the group of its type, at the
/// front of the chain of its direction. Its chain is read once before anything is written, and the
/// node is damaged where it isn't sparse, where its degree says more than so many, or where its
/// chain is broken or has more relationships than its degree says. What is damaged where it is read
/// later breaks a rule then, and the node's relationships never do. The file of groups is full
/// where one more is to be made than it has room for.
pub fn make_dense<S: Space>(space: &mut S, node: u32, threshold: u32) -> Result<(), OpenFault>
    requires { threshold ≤ 200 }
    ensures made { S.tells → OnOk result ((most : ℕ) (empty : List ℕ)
        → CanBecomeDense (S.state space.old) node most empty
        → BecomesDense (S.state space.old) (S.state space.new) node most empty) }
    ensures not_damaged { S.tells → (most : ℕ) (empty : List ℕ)
        → CanBecomeDense (S.state space.old) node most empty
        → HasDenseRoom (S.state space.old) node threshold empty → NotRefused result }
    ensures spread { S.tells → OnOk result ((members free : List ℕ)
        → CanSpread (S.state space.old) node members free
        → SpreadsChain (S.state space.old) (S.state space.new) node members) }
    ensures never { S.tells → (members free : List ℕ)
        → CanSpread (S.state space.old) node members free
        → HasSpreadRoom (S.state space.old) node threshold members → NotRefused result }
    ensures damaged { S.tells → IsSparse (S.state space.old).records node
        → (S.state space.old).shape.threshold ≤ threshold
        → IfErr result (IsOpenFault (S.state space.new)) }
    ensures told { S.tells → (¬ IsDense (S.state space.old).records node)
        → (S.state space.old).shape.threshold ≤ threshold
        → IfErr result (IsEndFault (S.state space.new) node) }
    ensures names { S.tells → IfErr result (NamesAt (S.state space.old) node) }
    ensures metas { S.tells
        → IfErr result (NamesMeta (S.state space.old) (S.state space.new) threshold) }
    ensures room { S.tells → OnOk result
        (GrowsAtMost (S.state space.old) (S.state space.new) threshold) }
    ensures lists { S.tells → OnOk result
        (HarmsNoList (S.state space.old) (S.state space.new) groups_file) }
    ensures named { S.tells
        → IfErr result (NamesFound (S.state space.old) (S.state space.new) node) }
    ensures list { S.tells → OnOk result (HasSpreadList (S.state space.new).records node) }
    ensures dense { S.tells → OnOk result (IsDense (S.state space.new).records node) }
    ensures heads { S.tells
        → OnOk result (KeepsOtherHeads (S.state space.old) (S.state space.new) node) }
    ensures leaves_others { S.tells → OnOk result
        (LeavesBeside (S.state space.old).records
        (S.state space.new).records node) }
    ensures stays { S.tells → OnRefusal result
        (LeavesBeside (S.state space.old).records
        (S.state space.new).records node) }
    ensures wrote { OnOk result (WritesBeside (node_key node) (2 * (threshold + 1))
        (S.state space.old) (S.state space.new)) }
    ensures writes { WritesBeside (node_key node) (2 * (threshold + 1) + 2)
        (S.state space.old) (S.state space.new) }
    ensures touches { TouchesGroups (S.state space.old) (S.state space.new) node
        (threshold + 2) (threshold + 2) }
    ensures few { S.tells → TouchesGroups (S.state space.old) (S.state space.new) node
        (degree (S.state space.old).records node + 2)
        (degree (S.state space.old).records node + 2) }
    ensures onward { S.onward space.old space.new }
    ensures cause { HasOpenCause (S.faults space.old) (S.faults space.new) result }
{
    let Some(row) = node_store::load(space, node)? else {
        return Err(OpenFault::Damaged(chain_damage(node)));
    };
    if row.dense {
        return Err(OpenFault::Damaged(chain_damage(node)));
    }
    if row.degree > threshold {
        return Err(OpenFault::Damaged(degree_damage(node)));
    }
    test_chain(space, node, row.first, row.degree)?;
    clear(space, node)?;
    let mut moved = Moved::new();
    let mut at = row.first;
    for _ in 0..row.degree {
        if at == NIL {
            return Ok(());
        }
        let turn = move_one(space, node, at)?;
        // What stood first was written too, and the bound counts only what came there.
        if !moved.note(at, &turn) {
            return Err(OpenFault::Damaged(rels_damage(node)));
        }
        at = turn.next;
    }
    if at != NIL {
        return Err(OpenFault::Damaged(rels_damage(node)));
    }
    Ok(())
}

/// Makes a node dense, with no group.
fn clear<S: Space>(space: &mut S, node: u32) -> Result<(), SpaceFault>
    requires { IsKey (node_key node) }
    ensures ok { S.tells → OnOk result (S.state space.new ≡ cleared (S.state space.old) node) }
    ensures writes { WritesOnly (S.state space.old) (S.state space.new) (node_key node ∷ []) }
    ensures onward { S.onward space.old space.new }
    ensures cause { HasCause (S.faults space.old) (S.faults space.new) result }
{
    let rec = space.edit(Key {
        file: NODES,
        id: node,
    })?;
    rec.set_byte(KIND, DENSE);
    rec.set_number(NODE_FIRST_LINK, NIL);
    Ok(())
}

/// Moves a relationship of a dense node into the group of its type.
fn move_one<S: Space>(space: &mut S, node: u32, rel: u32) -> Result<Turn, OpenFault>
    ensures moved { S.tells → IfOk result (λ turn. (rest : List ℕ) (most : ℕ) (empty : List ℕ)
        → IsSpread (S.state space.old) node rel (rel ∷ rest) most empty
        → IsSpread (S.state space.new) node turn.next rest most empty
        × Regroups (S.state space.old) (S.state space.new) node
        × LeavesOthers (S.state space.old) (S.state space.new) node) }
    ensures not_damaged { S.tells → (rest : List ℕ) (most : ℕ) (empty : List ℕ)
        → IsSpread (S.state space.old) node rel (rel ∷ rest) most empty
        → HasEndRoom (S.state space.old) empty → NotRefused result }
    ensures own { S.tells → IfOk result (λ turn. (rest : List ℕ) (most : ℕ) (empty : List ℕ)
        → IsSpread (S.state space.old) node rel (rel ∷ rest) most empty
        → IsOwnTurn (S.state space.old) (S.state space.new) node (rel ∷ rest) turn) }
    ensures local { S.tells → IfOk result (λ turn. (came rest groups free : List ℕ)
        → IsSpreading (S.state space.old) node rel came (rel ∷ rest) groups free
        → ComesIn (S.state space.old) (S.state space.new) node rel came rest groups turn) }
    ensures leads { S.tells → IfOk result (λ turn. (came groups : List ℕ)
        → LeadsAmong (S.state space.old).records node came groups
        → LeadsAmong (S.state space.new).records node (came ++ rel ∷ [])
        (groups ++ turn.group ∷ [])
        × (In turn.first came × In turn.before groups)) }
    ensures walk { S.tells → IfOk result (λ turn. (rest : List ℕ)
        → IsWalk (next_of (S.state space.old).records node) rel (rel ∷ rest)
        → IsWalk (next_of (S.state space.new).records node) turn.next rest) }
    ensures never { S.tells → (came rest groups free : List ℕ)
        → IsSpreading (S.state space.old) node rel came (rel ∷ rest) groups free
        → nodes.IsReadable (S.state space.old) node → rels.IsReadable (S.state space.old) rel
        → (meta_of (S.state space.old) groups_file).live ≢ room (S.state space.old) groups_file
        → NotRefused result }
    ensures damaged { S.tells → IsDense (S.state space.old).records node
        → IfErr result (IsMoveFault (S.state space.old) (S.state space.new) node rel) }
    ensures names { S.tells → IfErr result (NamesAt (S.state space.old) node) }
    ensures metas { S.tells
        → IfErr result (NamesMeta (S.state space.old) (S.state space.new) 1) }
    ensures room { S.tells → OnOk result
        (GrowsAtMost (S.state space.old) (S.state space.new) 1) }
    ensures lists { S.tells → OnOk result
        (HarmsNoList (S.state space.old) (S.state space.new) groups_file) }
    ensures listed { S.tells → IsDense (S.state space.old).records node
        → HasCountedList (S.state space.old).records node
        → rel_at (S.state space.old).records rel ≢ None → IfErr result NamesNoNode }
    ensures groups { S.tells → (came groups : List ℕ)
        → LeadsAmong (S.state space.old).records node came groups
        → ((x : ℕ) → In x came → IsLowLink (S.state space.old).records x)
        → IfErr result (NamesNoGroup (S.state space.old) (S.state space.new)) }
    ensures list { S.tells → OnOk result (IsDense (S.state space.old).records node
        → HasCountedList (S.state space.old).records node
        → HasCountedList (S.state space.new).records node) }
    ensures dense { S.tells → IsDense (S.state space.old).records node
        → OnOk result (IsDense (S.state space.new).records node) }
    ensures heads { S.tells
        → OnOk result (KeepsHeads (S.state space.old) (S.state space.new)) }
    ensures leaves_others { S.tells → OnOk result
        (LeavesBeside (S.state space.old).records
        (S.state space.new).records node) }
    ensures stays { S.tells → OnRefusal result
        (LeavesBeside (S.state space.old).records
        (S.state space.new).records node) }
    ensures wrote { IfOk result (λ turn.
        WritesOnly (S.state space.old) (S.state space.new) (turn_keys node rel turn)) }
    ensures touches { TouchesGroups (S.state space.old) (S.state space.new) node 2 2 }
    ensures onward { S.onward space.old space.new }
    ensures cause { HasOpenCause (S.faults space.old) (S.faults space.new) result }
{
    let Some(row) = rel_store::load(space, rel)? else {
        return Err(OpenFault::Damaged(rels_damage(node)));
    };
    let own = own_group(space, node, row.label)?;
    let head = group_head(own.row.id, Side::at(node, row.from, row.to));
    free_previous(space, node, rel)?;
    let first = push_counted(space, head, node, rel)?;
    let (_, next) = end_links(&row, node);
    Ok(Turn {
        next,
        group: own.row.id,
        before: own.first,
        first,
    })
}

/// The group of a type at a dense node, which is made where there is none.
pub(crate) fn own_group<S: Space>(
    space: &mut S,
    node: u32,
    label: u32,
) -> Result<OwnGroup, OpenFault>
    ensures opened { S.tells → IfOk result (λ own. (rest : List ℕ) (most : ℕ) (empty : List ℕ)
        → KeepsBut (S.state space.old).records (S.state space.old).shape node rest most empty
        → IsDense (S.state space.old).records node
        → KeepsBut (S.state space.new).records (S.state space.new).shape node rest most
        (own.row.id ∷ empty)
        × HasOpened (S.state space.old) (S.state space.new) node label own.row.id rest) }
    ensures not_damaged { S.tells → (rest : List ℕ) (most : ℕ) (empty : List ℕ)
        → KeepsBut (S.state space.old).records (S.state space.old).shape node rest most empty
        → IsDense (S.state space.old).records node
        → (meta_of (S.state space.old) groups_file).live ≢ room (S.state space.old) groups_file
        → NotRefused result }
    ensures local { S.tells → IfOk result (λ own. (groups free : List ℕ)
        → IsDense (S.state space.old).records node
        → IsGroupChain (S.state space.old).records node groups
        → CanTakeEach (S.state space.old) free
        → HasFound (S.state space.old) (S.state space.new) label groups own
        ⊎ HasAdded (S.state space.old) (S.state space.new) node label groups free own) }
    ensures leads { S.tells → IfOk result (λ own. (came groups : List ℕ)
        → LeadsAmong (S.state space.old).records node came groups
        → LeadsAmong (S.state space.new).records node came (groups ++ own.row.id ∷ [])
        × In own.first groups) }
    ensures rels { S.tells → OnOk result ((x : ℕ)
        → rec_at (S.state space.new).records relationships_file x
        ≡ rec_at (S.state space.old).records relationships_file x) }
    ensures never { S.tells → (groups free : List ℕ) → IsDense (S.state space.old).records node
        → IsGroupChain (S.state space.old).records node groups
        → CanTakeEach (S.state space.old) free → nodes.IsReadable (S.state space.old) node
        → (meta_of (S.state space.old) groups_file).live ≢ room (S.state space.old) groups_file
        → NotRefused result }
    ensures key { IfOk result (λ own. IsKey (group_key own.row.id)) }
    ensures row { S.tells → IfOk result (λ own. (rest : List ℕ) (most : ℕ) (empty : List ℕ)
        → KeepsBut (S.state space.old).records (S.state space.old).shape node rest most empty
        → IsDense (S.state space.old).records node
        → own.row ≡ group_row_at (S.state space.new).records own.row.id) }
    ensures damaged { S.tells → IsDense (S.state space.old).records node
        → IfErr result (IsOpenFault (S.state space.old)) }
    ensures names { S.tells → IfErr result (NamesAt (S.state space.old) node) }
    ensures metas { S.tells
        → IfErr result (NamesMeta (S.state space.old) (S.state space.new) 1) }
    ensures room { S.tells → OnOk result
        (GrowsAtMost (S.state space.old) (S.state space.new) 1) }
    ensures lists { S.tells → OnOk result
        (HarmsNoList (S.state space.old) (S.state space.new) groups_file) }
    ensures listed { S.tells → IsDense (S.state space.old).records node
        → HasCountedList (S.state space.old).records node → IfErr result NamesNoNode }
    ensures groups { S.tells
        → IfErr result (NamesNoGroup (S.state space.old) (S.state space.new)) }
    ensures list { S.tells → IfOk result (λ own. HasCountedList (S.state space.old).records node
        → HasCountedList (S.state space.new).records node × (own.row.counted ≡ true)) }
    ensures dense { S.tells → IsDense (S.state space.old).records node
        → OnOk result (IsDense (S.state space.new).records node) }
    ensures owns { S.tells → IfOk result (λ own.
        IsOwnGroup (S.state space.old).records (S.state space.new).records node own.row.id) }
    ensures heads { S.tells
        → OnOk result (KeepsHeads (S.state space.old) (S.state space.new)) }
    ensures leaves_others { S.tells → OnOk result
        (LeavesBeside (S.state space.old).records
        (S.state space.new).records node) }
    ensures unwritten { OnRefusal result (SameButReads (S.state space.old) (S.state space.new)) }
    ensures group { S.tells → IfOk result (λ own. IsDense (S.state space.old).records node
        → (own.row.counted ≡ true) ⊎ (IsGroupAt (S.state space.new) node own.row
        × SameButReads (S.state space.old) (S.state space.new))) }
    ensures grows { S.tells → IfOk result (λ own. (rest : List ℕ) (most : ℕ) (empty : List ℕ)
        → KeepsBut (S.state space.old).records (S.state space.old).shape node rest most empty
        → IsDense (S.state space.old).records node
        → GrowsBy (S.state space.old) (S.state space.new) node own.row.id own.first) }
    ensures wrote { IfOk result (λ own. WritesOnly (S.state space.old) (S.state space.new)
        (group_key own.row.id ∷ group_key own.first ∷ node_key node ∷ meta_key_of groups_file
        ∷ [])) }
    ensures writes { (first id : ℕ) × WritesOnly (S.state space.old) (S.state space.new)
        (group_key id ∷ group_key first ∷ node_key node ∷ meta_key_of groups_file ∷ []) }
    ensures onward { S.onward space.old space.new }
    ensures cause { HasOpenCause (S.faults space.old) (S.faults space.new) result }
{
    match find_group(space, node, label)? {
        Some(row) => Ok(OwnGroup { row, first: NIL }),
        None => make_own(space, node, label),
    }
}

/// Lets a relationship have none before it in a chain of the node.
fn free_previous<S: Space>(space: &mut S, node: u32, rel: u32) -> Result<(), SpaceFault>
    requires { IsKey (rel_key rel) }
    ensures ok { S.tells
        → OnOk result (S.state space.new ≡ prev_set (S.state space.old) node rel NIL) }
    ensures writes { WritesOnly (S.state space.old) (S.state space.new) (rel_key rel ∷ []) }
    ensures onward { S.onward space.old space.new }
    ensures cause { HasCause (S.faults space.old) (S.faults space.new) result }
{
    let rec = space.edit(Key {
        file: RELATIONSHIPS,
        id: rel,
    })?;
    let place = place_of(rec, node);
    rec.set_link(place, NIL);
    Ok(())
}
