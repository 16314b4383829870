//! The head of the chain that an end of a relationship stands in.

ghost use Rattle.std.specs.Prelude.{◌≡◌, ◌≢◌, ◌⊎◌, ◌≤◌, ◌+◌, ◌∷◌, [], true, ℕ, List, Some};
ghost use Rattle.std.specs.Prelude.{IfErr, IfOk, OnOk};
ghost use Rattle.std.specs.Bool.{Decides};
ghost use Rattle.rec_bytes.specs.Format.{groups_file};
ghost use Rattle.rec_bytes.specs.Key.{IsKey};
ghost use Rattle.rec_bytes.specs.RecordFiles.{is_meta_file};
ghost use Rattle.rec_bytes.specs.Space.{SameButReads, WritesOnly};
ghost use Rattle.id_freelist.specs.ListDamage.{HarmsNoList};
ghost use Rattle.store_rules.specs.Breaking.{IsHeadOf};
ghost use Rattle.store_rules.specs.Views.{RelRow, rel_at};
ghost use Rattle.store_rules.specs.Writes.{WritesBeside};
ghost use Rattle.node_store.specs.Loading.{IsReadable};
ghost use Rattle.node_store.specs.NodeRecord.{node_key};
ghost use Rattle.chain_edit.specs.Breaks.{IsBreakFault};
ghost use Rattle.chain_edit.specs.Heads.{head_of, IsHead};
ghost use Rattle.group_store.specs.Densing.{IsEndFault, IsSparse};
ghost use Rattle.group_store.specs.FirstGroup.{IsNodeFault};
ghost use Rattle.group_store.specs.GroupChain.{IsDense};
ghost use Rattle.group_store.specs.GroupRecord.{group_key};
ghost use Rattle.group_store.specs.Leaving.{KeepsHeads, KeepsOtherHeads, LeavesBeside};
ghost use Rattle.group_store.specs.Leaving.{KeepsOrLeads, LeavesCounted};
ghost use Rattle.group_store.specs.Naming.{NamesAt, NamesFound, NamesMeta, NamesNoGroup};
ghost use Rattle.group_store.specs.Naming.{NamesNoNode, NamesNoOther};
ghost use Rattle.group_store.specs.Spreading.{HasCountedList, HasSpreadList, OpensHead};
ghost use Rattle.rec_bytes.specs.Fault.{HasFaultCause, NotDamaged, OnDamage};
ghost use Rattle.group_store.specs.OpenFault.{HasOpenCause, NotRefused, OnRefusal};
ghost use Rattle.group_store.specs.Opening.{
  CanOpen,
  CanOpenGroup,
  FindsChain,
  GrowsAtMost,
  HasGroupRoom,
  IsAt,
  IsEndOf,
  IsHeadFault,
  IsOpenFault,
  IsPlaced,
  OpensChain,
  WritesOpened,
  end_damage,
  moved_writes,
};

use crate::Side;
use crate::densing::{make_dense, own_group};
use crate::finding::find_group;
use crate::members::first_group;
use crate::open_fault::OpenFault;
use crate::raising::count_group;
use crate::side::{group_head, node_head};
use chain_edit::Head;
use rec_bytes::{CHAIN_RULE, Damage, Fault, RELATIONSHIPS, Reads, Space};

/// Whether the node is in use and dense.
fn is_dense<R: Reads>(space: &mut R, node: u32) -> Result<bool, Fault>
    ensures is { R.tells
        → IfOk result (λ dense. Decides dense (IsDense (R.state space.old).records node)) }
    ensures damaged { R.tells → IfErr result (IsNodeFault (R.state space.old) node) }
    ensures not_damaged { R.tells → IsReadable (R.state space.old) node → NotDamaged result }
    ensures state { SameButReads (R.state space.old) (R.state space.new) }
    ensures onward { R.onward space.old space.new }
    ensures cause { HasFaultCause (R.faults space.old) (R.faults space.new) result }
{
    let first = first_group(space, node)?;
    Ok(first.is_some())
}

/// The head of the chain at a node in which a relationship stands: the node's own, or that of the
/// group of its type, which gets counts where it has none. The relationship, which is of the type
/// and on the side, is damaged where the node is dense and has no group of the type, and then
/// nothing is written.
pub fn open_head<S: Space>(
    space: &mut S,
    node: u32,
    rel: u32,
    label: u32,
    side: Side,
) -> Result<Head, Fault>
    requires { IsKey (node_key node) }
    ensures found { S.tells → IfOk result (λ head. (most : ℕ) (empty : List ℕ) (x : ℕ)
        (row : RelRow) → IsEndOf (S.state space.old) node label side most empty x row
        → FindsChain (S.state space.old) (S.state space.new) (head_of head) node row most empty) }
    ensures not_damaged { S.tells → (most : ℕ) (empty : List ℕ) (x : ℕ) (row : RelRow)
        → IsEndOf (S.state space.old) node label side most empty x row → NotDamaged result }
    ensures damaged { S.tells → IfErr result (IsHeadFault (S.state space.old) node rel label) }
    ensures breaks { S.tells → (row : RelRow) → rel_at (S.state space.old).records rel ≡ Some row
        → IsAt node label side row → IfErr result (IsBreakFault (S.state space.old)) }
    ensures unwritten { OnDamage result (SameButReads (S.state space.old) (S.state space.new)) }
    ensures owns { S.tells → IsDense (S.state space.old).records node
        ⊎ IsSparse (S.state space.old).records node
        → IfOk result (λ head. IsHeadOf (S.state space.new).records (head_of head) node) }
    ensures placed { S.tells → IsDense (S.state space.old).records node
        ⊎ IsSparse (S.state space.old).records node → (row : RelRow) → IsAt node label side row
        → IfOk result
        (λ head. IsPlaced (S.state space.new).records (head_of head) node row) }
    ensures heads { S.tells
        → OnOk result (KeepsHeads (S.state space.old) (S.state space.new)) }
    ensures counts { S.tells → OnOk result
        (LeavesCounted (S.state space.old).records (S.state space.new).records) }
    ensures head { IfOk result (λ head. IsHead (head_of head)) }
    ensures own { IfOk result (λ head. is_meta_file head.key.file ≡ true) }
    ensures wrote { IfOk result (λ head.
        WritesOnly (S.state space.old) (S.state space.new) (head.key ∷ [])) }
    ensures writes { (g : ℕ) × WritesOnly (S.state space.old) (S.state space.new)
        (group_key g ∷ []) }
    ensures onward { S.onward space.old space.new }
    ensures cause { HasFaultCause (S.faults space.old) (S.faults space.new) result }
{
    if !is_dense(space, node)? {
        return Ok(node_head(node));
    }
    let Some(group) = find_group(space, node, label)? else {
        return Err(Fault::Damaged(end_damage(rel)));
    };
    count_group(space, node, &group)?;
    Ok(group_head(group.id, side))
}

/// The damage of a relationship that no chain of an end can have.
fn end_damage(rel: u32) -> Damage
    ensures { result ≡ end_damage rel }
{
    Damage {
        file: RELATIONSHIPS,
        id: rel,
        rule: CHAIN_RULE,
    }
}

/// The head of a chain of a dense node's group of a type, which is made where there is none, and
/// gets counts where it has none.
fn open_group<S: Space>(space: &mut S, node: u32, label: u32, side: Side) -> Result<Head, OpenFault>
    requires { IsKey (node_key node) }
    ensures opened { S.tells → IfOk result (λ head. (row : RelRow) (empty : List ℕ)
        → CanOpenGroup (S.state space.old) node label side row empty
        → OpensChain (S.state space.old) (S.state space.new) (head_of head) node row empty) }
    ensures not_damaged { S.tells → (row : RelRow) (empty : List ℕ)
        → CanOpenGroup (S.state space.old) node label side row empty
        → HasGroupRoom (S.state space.old) empty → NotRefused result }
    ensures damaged { S.tells → IsDense (S.state space.old).records node
        → IfErr result (IsOpenFault (S.state space.old)) }
    ensures names { S.tells → IfErr result (NamesAt (S.state space.old) node) }
    ensures metas { S.tells
        → IfErr result (NamesMeta (S.state space.old) (S.state space.new) 1) }
    ensures room { S.tells → IsDense (S.state space.old).records node → OnOk result
        (GrowsAtMost (S.state space.old) (S.state space.new) 1) }
    ensures lists { S.tells → OnOk result
        (HarmsNoList (S.state space.old) (S.state space.new) groups_file) }
    ensures listed { S.tells → IsDense (S.state space.old).records node
        → HasCountedList (S.state space.old).records node → IfErr result NamesNoNode }
    ensures groups { S.tells → HasSpreadList (S.state space.old).records node
        → IfErr result (NamesNoGroup (S.state space.old) (S.state space.new)) }
    ensures others { S.tells → IsDense (S.state space.old).records node
        → IfErr result (NamesNoOther (S.state space.old) node) }
    ensures reaches { S.tells → IfOk result (λ head.
        OpensHead (S.state space.old).records (S.state space.new).records node (head_of head)) }
    ensures unwritten { S.tells → IsDense (S.state space.old).records node
        → OnRefusal result (SameButReads (S.state space.old) (S.state space.new)) }
    ensures owns { S.tells → IsDense (S.state space.old).records node
        → IfOk result (λ head. IsHeadOf (S.state space.new).records (head_of head) node) }
    ensures heads { S.tells
        → OnOk result (KeepsHeads (S.state space.old) (S.state space.new)) }
    ensures leaves_others { S.tells → OnOk result
        (LeavesBeside (S.state space.old).records
        (S.state space.new).records node) }
    ensures at { IfOk result (λ head. head.key.file ≡ groups_file) }
    ensures head { IfOk result (λ head. IsHead (head_of head)) }
    ensures own { IfOk result (λ head. is_meta_file head.key.file ≡ true) }
    ensures wrote { IfOk result (λ head.
        WritesOpened (S.state space.old) (S.state space.new) node head.key 1) }
    ensures writes { WritesBeside (node_key node) 2 (S.state space.old) (S.state space.new) }
    ensures onward { S.onward space.old space.new }
    ensures cause { HasOpenCause (S.faults space.old) (S.faults space.new) result }
{
    let own = own_group(space, node, label)?;
    count_group(space, node, &own.row)?;
    Ok(group_head(own.row.id, side))
}

/// The head of the chain at a node that a new relationship of a type and on a side comes into. The
/// node, which has this degree, becomes dense where it has as many relationships as a sparse one
/// may have, and a dense one gets a group of the type where it has none. A group that is found gets
/// counts where it has none. The file of groups is full where one more is to be made than it has
/// room for. The number of relationships that a sparse node may have, the threshold
/// of the store's shape, is what the caller weighed with.
pub fn open_chain<S: Space>(
    space: &mut S,
    node: u32,
    degree: u32,
    threshold: u32,
    label: u32,
    side: Side,
) -> Result<Head, OpenFault>
    requires node { IsKey (node_key node) }
    requires threshold { threshold ≤ 200 }
    ensures opened { S.tells → IfOk result (λ head. (row : RelRow) (empty : List ℕ)
        → CanOpen (S.state space.old) node degree threshold label side row empty
        → OpensChain (S.state space.old) (S.state space.new) (head_of head) node row empty) }
    ensures not_damaged { S.tells → (row : RelRow) (empty : List ℕ)
        → CanOpen (S.state space.old) node degree threshold label side row empty
        → HasGroupRoom (S.state space.old) empty → NotRefused result }
    ensures damaged { S.tells → IsDense (S.state space.old).records node ⊎ (degree ≢ threshold)
        → IfErr result (IsOpenFault (S.state space.old)) }
    ensures unwritten { S.tells → IsDense (S.state space.old).records node ⊎ (degree ≢ threshold)
        → OnRefusal result (SameButReads (S.state space.old) (S.state space.new)) }
    ensures blames { S.tells → IsDense (S.state space.old).records node
        ⊎ IsSparse (S.state space.old).records node
        → (S.state space.old).shape.threshold ≤ threshold
        → IfErr result (IsOpenFault (S.state space.new)) }
    ensures told { S.tells → (S.state space.old).shape.threshold ≤ threshold
        → IfErr result (IsEndFault (S.state space.new) node) }
    ensures names { S.tells → IfErr result (NamesAt (S.state space.old) node) }
    ensures metas { S.tells
        → IfErr result (NamesMeta (S.state space.old) (S.state space.new) (threshold + 1)) }
    ensures room { S.tells → OnOk result
        (GrowsAtMost (S.state space.old) (S.state space.new) (threshold + 1)) }
    ensures lists { S.tells → OnOk result
        (HarmsNoList (S.state space.old) (S.state space.new) groups_file) }
    ensures named { S.tells
        → IfErr result (NamesFound (S.state space.old) (S.state space.new) node) }
    ensures reaches { S.tells → IfOk result (λ head.
        KeepsOrLeads (S.state space.old).records (S.state space.new).records (head_of head)) }
    // where the head is the node's nothing is written
    ensures bare { S.tells → IfOk result (λ head. head.key ≡ node_key node
        → SameButReads (S.state space.old) (S.state space.new)) }
    ensures owns { S.tells → IsDense (S.state space.old).records node
        ⊎ IsSparse (S.state space.old).records node
        → IfOk result (λ head. IsHeadOf (S.state space.new).records (head_of head) node) }
    ensures heads { S.tells
        → OnOk result (KeepsOtherHeads (S.state space.old) (S.state space.new) node) }
    ensures leaves_others { S.tells → OnOk result
        (LeavesBeside (S.state space.old).records
        (S.state space.new).records node) }
    ensures stays { S.tells → OnRefusal result
        (LeavesBeside (S.state space.old).records
        (S.state space.new).records node) }
    ensures at { IfOk result
        (λ head. (head.key ≡ node_key node) ⊎ (head.key.file ≡ groups_file)) }
    ensures head { IfOk result (λ head. IsHead (head_of head)) }
    ensures own { IfOk result (λ head. is_meta_file head.key.file ≡ true) }
    ensures wrote { IfOk result (λ head. WritesOpened (S.state space.old) (S.state space.new)
        node head.key (moved_writes threshold degree + 1)) }
    ensures writes { WritesBeside (node_key node) (moved_writes threshold degree + 2)
        (S.state space.old) (S.state space.new) }
    ensures onward { S.onward space.old space.new }
    ensures cause { HasOpenCause (S.faults space.old) (S.faults space.new) result }
{
    if is_dense(space, node)? {
        return open_group(space, node, label, side);
    }
    if degree != threshold {
        return Ok(node_head(node));
    }
    make_dense(space, node, threshold)?;
    open_group(space, node, label, side)
}
