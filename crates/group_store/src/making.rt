ghost use Rattle.std.specs.Prelude.{◌≡◌, ◌≢◌, ◌∷◌, [], ◌++◌, ℕ, List, true, IfErr, IfOk};
ghost use Rattle.std.specs.Prelude.{IsErr, OnOk, Some};
ghost use Rattle.id_freelist.specs.ListDamage.{HarmsNoList};
ghost use Rattle.id_freelist.specs.Taking.{room};
ghost use Rattle.node_store.specs.Loading.{IsReadable};
ghost use Rattle.node_store.specs.NodeRecord.{node_key};
ghost use Rattle.rec_bytes.specs.Format.{groups_file};
ghost use Rattle.rec_bytes.specs.Key.{IsKey};
ghost use Rattle.rec_bytes.specs.RecordFiles.{meta_key_of};
ghost use Rattle.rec_bytes.specs.Space.{HasCause, SameButReads, WritesOnly, meta_of};
ghost use Rattle.group_store.specs.GroupChain.{IsDense, LacksGroup};
ghost use Rattle.group_store.specs.FirstGroup.{IsFirst};
ghost use Rattle.group_store.specs.GroupRecord.{group_key};
ghost use Rattle.group_store.specs.Leaving.{KeepsHeads};
ghost use Rattle.group_store.specs.Making.{CanMake, HasMade, IsEmptyOf, IsMakeFault, empty_group};
ghost use Rattle.group_store.specs.Making.{empty_row, led, made};
ghost use Rattle.group_store.specs.OpenFault.{HasOpenCause, NotRefused, OnRefusal};
ghost use Rattle.group_store.specs.Opening.{IsOpenFault};
ghost use Rattle.group_store.specs.Spreading.{HasCountedList, HasOpened, KeepsBut, LeadsAmong};

use crate::GroupRow;
use crate::links::{back, test_link};
use crate::members::{chain_damage, first_group};
use crate::open_fault::OpenFault;
use id_freelist::take;
use rec_bytes::{
    COUNTED, Damage, GROUP_FIRST_IN, GROUP_FIRST_LOOP, GROUP_FIRST_OUT, GROUP_IN_COUNT,
    GROUP_LOOP_COUNT, GROUP_NEXT, GROUP_OUT_COUNT, GROUP_OWNER, GROUP_PREVIOUS, GROUP_TYPE, GROUPS,
    KIND, Key, NIL, NODE_FIRST_LINK, NODES, RANGE_RULE, Rec, Space, SpaceFault, set_number,
};

/// Makes an empty group of a type at a dense node, first on its chain. The node is damaged where it
/// isn't dense or its first link leads nowhere, and the file of groups is full where as many are
/// live as there is room for. Then nothing is written.
pub fn make_group<S: Space>(space: &mut S, node: u32, label: u32) -> Result<GroupRow, OpenFault>
    ensures made { S.tells → IfOk result (λ row. (free xs : List ℕ)
        → CanMake (S.state space.old) node label free xs
        → HasMade (S.state space.old).records (S.state space.new).records node label row free xs) }
    ensures ok { S.tells → OnOk result (S.state space.new ≡ made (S.state space.old) node label) }
    ensures damaged { S.tells → IfErr result (IsMakeFault (S.state space.old) node) }
    ensures breaks { S.tells → IsDense (S.state space.old).records node
        → IfErr result (IsOpenFault (S.state space.old)) }
    ensures not_damaged { S.tells → IsReadable (S.state space.old) node → (free xs : List ℕ)
        → CanMake (S.state space.old) node label free xs → IsDense (S.state space.old).records node
        → (meta_of (S.state space.old) groups_file).live ≢ room (S.state space.old) groups_file
        → NotRefused result }
    ensures full { S.tells
        → (meta_of (S.state space.old) groups_file).live ≡ room (S.state space.old) groups_file
        → IsErr result }
    ensures unwritten { OnRefusal result (SameButReads (S.state space.old) (S.state space.new)) }
    ensures key { IfOk result (λ row. IsKey (group_key row.id)) }
    ensures rules { S.tells → IfOk result (λ row. (rest : List ℕ) (most : ℕ) (empty : List ℕ)
        → KeepsBut (S.state space.old).records (S.state space.old).shape node rest most empty
        → IsDense (S.state space.old).records node
        → LacksGroup (S.state space.old).records node label
        → KeepsBut (S.state space.new).records (S.state space.new).shape node rest most
        (row.id ∷ empty)
        × HasOpened (S.state space.old) (S.state space.new) node label row.id rest) }
    ensures shape { S.tells → (S.state space.new).shape ≡ (S.state space.old).shape }
    ensures wrote { IfOk result (λ row. (first : ℕ) × WritesOnly (S.state space.old)
        (S.state space.new) (group_key row.id ∷ group_key first ∷ node_key node
        ∷ meta_key_of groups_file ∷ [])) }
    ensures writes { (first id : ℕ) × WritesOnly (S.state space.old) (S.state space.new)
        (group_key first ∷ group_key id ∷ node_key node ∷ meta_key_of groups_file ∷ []) }
    ensures onward { S.onward space.old space.new }
    ensures cause { HasOpenCause (S.faults space.old) (S.faults space.new) result }
{
    let own = make_own(space, node, label)?;
    Ok(own.row)
}

/// A group of a type at a dense node, and the group that stood first on the node's chain where this
/// one was made, or `NIL`.
#[derive(Clone, Copy)]
pub(crate) struct OwnGroup {
    pub(crate) row: GroupRow,
    pub(crate) first: u32,
}

/// Makes a group as `make_group` does, and answers which one stood first.
pub(crate) fn make_own<S: Space>(
    space: &mut S,
    node: u32,
    label: u32,
) -> Result<OwnGroup, OpenFault>
    ensures made { S.tells → IfOk result (λ own. (free xs : List ℕ)
        → CanMake (S.state space.old) node label free xs
        → HasMade (S.state space.old).records (S.state space.new).records node label own.row free
        xs) }
    ensures ok { S.tells → OnOk result (S.state space.new ≡ made (S.state space.old) node label) }
    ensures damaged { S.tells → IfErr result (IsMakeFault (S.state space.old) node) }
    ensures not_damaged { S.tells → IsReadable (S.state space.old) node → (free xs : List ℕ)
        → CanMake (S.state space.old) node label free xs → IsDense (S.state space.old).records node
        → (meta_of (S.state space.old) groups_file).live ≢ room (S.state space.old) groups_file
        → NotRefused result }
    ensures full { S.tells
        → (meta_of (S.state space.old) groups_file).live ≡ room (S.state space.old) groups_file
        → IsErr result }
    ensures unwritten { OnRefusal result (SameButReads (S.state space.old) (S.state space.new)) }
    ensures key { IfOk result (λ own. IsKey (group_key own.row.id)) }
    ensures counted { IfOk result (λ own. own.row.counted ≡ true) }
    ensures rules { S.tells → IfOk result (λ own. (rest : List ℕ) (most : ℕ) (empty : List ℕ)
        → KeepsBut (S.state space.old).records (S.state space.old).shape node rest most empty
        → IsDense (S.state space.old).records node
        → LacksGroup (S.state space.old).records node label
        → KeepsBut (S.state space.new).records (S.state space.new).shape node rest most
        (own.row.id ∷ empty)
        × HasOpened (S.state space.old) (S.state space.new) node label own.row.id rest) }
    ensures shape { S.tells → (S.state space.new).shape ≡ (S.state space.old).shape }
    ensures owns { S.tells → IfOk result (λ own.
        IsEmptyOf (S.state space.new).records node own.row.id) }
    ensures heads { S.tells
        → OnOk result (KeepsHeads (S.state space.old) (S.state space.new)) }
    ensures first { S.tells
        → IfOk result (λ own. IsFirst (S.state space.old).records node (Some own.first)) }
    ensures leads { S.tells → IfOk result (λ own. (came groups : List ℕ)
        → LeadsAmong (S.state space.old).records node came groups
        → LeadsAmong (S.state space.new).records node came (groups ++ own.row.id ∷ [])) }
    ensures lists { S.tells → OnOk result
        (HarmsNoList (S.state space.old) (S.state space.new) groups_file) }
    ensures list { S.tells → OnOk result (HasCountedList (S.state space.old).records node
        → HasCountedList (S.state space.new).records node) }
    ensures wrote { IfOk result (λ own. WritesOnly (S.state space.old) (S.state space.new)
        (group_key own.row.id ∷ group_key own.first ∷ node_key node ∷ meta_key_of groups_file
        ∷ [])) }
    ensures writes { (first id : ℕ) × WritesOnly (S.state space.old) (S.state space.new)
        (group_key first ∷ group_key id ∷ node_key node ∷ meta_key_of groups_file ∷ []) }
    ensures onward { S.onward space.old space.new }
    ensures cause { HasOpenCause (S.faults space.old) (S.faults space.new) result }
{
    let Some(first) = first_group(space, node)? else {
        return Err(OpenFault::Damaged(chain_damage(node)));
    };
    let leads_nowhere = Damage {
        file: NODES,
        id: node,
        rule: RANGE_RULE,
    };
    test_link(space, first, leads_nowhere)?;
    let id = take(space, GROUPS)?;
    lead(space, node, first, id, empty_group(node, label, first))?;
    Ok(OwnGroup {
        row: empty_row(id, label),
        first,
    })
}

/// Writes the record of a group, and puts it before the first one of the node.
#[tactic(auto, unfolding(crate::specs::Making::led))]
fn lead<S: Space>(space: &mut S, node: u32, first: u32, id: u32, rec: Rec) -> Result<(), SpaceFault>
    requires node { IsKey (node_key node) }
    requires first { first ≢ NIL → IsKey (group_key first) }
    requires id { IsKey (group_key id) }
    ensures ok { S.tells
        → OnOk result (S.state space.new ≡ led (S.state space.old) node first id rec) }
    ensures writes { WritesOnly (S.state space.old) (S.state space.new)
        (group_key id ∷ group_key first ∷ node_key node ∷ []) }
    ensures onward { S.onward space.old space.new }
    ensures cause { HasCause (S.faults space.old) (S.faults space.new) result }
{
    space.put(Key { file: GROUPS, id }, rec)?;
    back(space, first, id)?;
    let key = Key {
        file: NODES,
        id: node,
    };
    set_number(space, key, NODE_FIRST_LINK, id)?;
    Ok(())
}

/// The record of an empty group, with the group after it.
#[tactic(auto, unfolding(rec_bytes::specs::Tables::with_fields))]
fn empty_group(node: u32, label: u32, next: u32) -> Rec
    ensures { result ≡ empty_group node label next }
{
    let mut rec = Rec::ZEROS;
    rec.set_byte(KIND, COUNTED);
    rec.set_number(GROUP_TYPE, label);
    rec.set_number(GROUP_OWNER, node);
    rec.set_number(GROUP_PREVIOUS, NIL);
    rec.set_number(GROUP_NEXT, next);
    rec.set_number(GROUP_FIRST_OUT, NIL);
    rec.set_number(GROUP_FIRST_IN, NIL);
    rec.set_number(GROUP_FIRST_LOOP, NIL);
    rec.set_number(GROUP_OUT_COUNT, 0);
    rec.set_number(GROUP_IN_COUNT, 0);
    rec.set_number(GROUP_LOOP_COUNT, 0);
    rec
}

/// The row of an empty group.
fn empty_row(id: u32, label: u32) -> GroupRow
    ensures { result ≡ empty_row id label }
{
    GroupRow {
        id,
        label,
        first_out: NIL,
        first_in: NIL,
        first_loop: NIL,
        counted: true,
        out_count: 0,
        in_count: 0,
        loop_count: 0,
    }
}
