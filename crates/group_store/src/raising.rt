//! Groups that get the numbers of the relationships in their chains. A group that was made before
//! there were such numbers lacks them until a change of one of its chains.

ghost use Rattle.std.specs.Prelude.{◌≡◌, ◌≢◌, ◌⊎◌, ◌≤◌, ◌∷◌, [], ℕ, List, true, IfErr, IfOk};
ghost use Rattle.std.specs.Prelude.{IsOk, OnOk};
ghost use Rattle.rec_bytes.specs.Fault.{HasFaultCause, NotDamaged, OnDamage};
ghost use Rattle.rec_bytes.specs.Format.{free_kind, groups_file};
ghost use Rattle.rec_bytes.specs.Key.{IsKey};
ghost use Rattle.rec_bytes.specs.Space.{HasCause, SameButReads, WritesOnly};
ghost use Rattle.node_store.specs.NodeRecord.{node_key};
ghost use Rattle.rel_store.specs.Loading.{rel_mark, rel_room};
ghost use Rattle.id_freelist.specs.ListDamage.{HarmsNoList};
ghost use Rattle.store_rules.specs.Views.{degree, kind_at};
ghost use Rattle.chain_edit.specs.Breaks.{IsBreakFault};
ghost use Rattle.chain_edit.specs.Length.{HasCounted, IsMemberChain};
ghost use Rattle.group_store.specs.GroupChain.{is_group_of};
ghost use Rattle.group_store.specs.GroupRecord.{group_key};
ghost use Rattle.group_store.specs.Leaving.{KeepsHeads, LeavesBeside, LeavesCounted};
ghost use Rattle.group_store.specs.Raising.{
  AreLengths,
  CanRaise,
  HasRaised,
  IsCountFault,
  IsGroupAt,
  LeadsLow,
  degree_damage,
  first_in,
  members_of,
  raised_state,
};

use crate::{GroupRow, Side};
use chain_edit::{Chain, Members, chain_length};
use rec_bytes::{
    COUNTED, DEGREE_RULE, Damage, Fault, GROUP_IN_COUNT, GROUP_LOOP_COUNT, GROUP_OUT_COUNT, GROUPS,
    KIND, Key, NODE_DEGREE, NODES, Reads, Space, SpaceFault,
};

/// How many relationships the chains of a group have.
#[derive(Clone, Copy)]
pub(crate) struct Counts {
    pub(crate) out: u32,
    pub(crate) into: u32,
    pub(crate) loops: u32,
}

/// Gives a group of a dense node its numbers where it lacks them. It reads each relationship of its
/// chains once, and no more than the node has by its degree, and one. The group is damaged where a
/// chain is broken, and the node where it has more relationships than its degree says. Then
/// nothing is written.
pub(crate) fn count_group<S: Space>(space: &mut S, node: u32, row: &GroupRow) -> Result<(), Fault>
    requires node { IsKey (node_key node) }
    requires group { IsKey (group_key row.now.id) }
    ensures raised { S.tells → OnOk result ((most : ℕ) (empty : List ℕ)
        → CanRaise (S.state space.old) node row.now most empty
        → HasRaised (S.state space.old) (S.state space.new) node row.now.id most empty) }
    ensures not_damaged { S.tells → (most : ℕ) (empty : List ℕ)
        → CanRaise (S.state space.old) node row.now most empty → NotDamaged result }
    ensures breaks { S.tells → IsGroupAt (S.state space.old) node row.now
        → IfErr result (IsBreakFault (S.state space.old)) }
    ensures names { S.tells → IfErr result (IsCountFault node row.now.id) }
    ensures counted { row.now.counted ≡ true → IsOk result }
    ensures kept { row.now.counted ≡ true
        → SameButReads (S.state space.old) (S.state space.new) }
    ensures low { S.tells → IsGroupAt (S.state space.old) node row.now
        → OnOk result ((row.now.counted ≡ true)
        ⊎ LeadsLow (S.state space.new).records row.now.id) }
    ensures unwritten { OnDamage result (SameButReads (S.state space.old) (S.state space.new)) }
    ensures heads { S.tells
        → OnOk result (KeepsHeads (S.state space.old) (S.state space.new)) }
    ensures leaves_others { S.tells
        → is_group_of ((S.state space.old).records (group_key row.now.id)) node ≡ true
        → OnOk result (LeavesBeside (S.state space.old).records
        (S.state space.new).records node) }
    ensures lists { S.tells
        → kind_at (S.state space.old).records groups_file row.now.id ≢ free_kind
        → OnOk result (HarmsNoList (S.state space.old) (S.state space.new) groups_file) }
    ensures counts { S.tells → IsGroupAt (S.state space.old) node row.now → OnOk result
        (LeavesCounted (S.state space.old).records (S.state space.new).records) }
    ensures writes { WritesOnly (S.state space.old) (S.state space.new)
        (group_key row.now.id ∷ []) }
    ensures onward { S.onward space.old space.new }
    ensures cause { HasFaultCause (S.faults space.old) (S.faults space.new) result }
{
    if row.counted {
        return Ok(());
    }
    let rec = space.get(Key {
        file: NODES,
        id: node,
    })?;
    let degree = rec.number(NODE_DEGREE);
    let counts = count_chains(space, node, row, degree)?;
    set_counts(space, row.id, counts)?;
    Ok(())
}

/// How many relationships the three chains of a group have, at a node of this degree.
fn count_chains<R: Reads>(
    space: &mut R,
    node: u32,
    row: &GroupRow,
    node_degree: u32,
) -> Result<Counts, Fault>
    ensures counts { R.tells
        → IfOk result (λ counts. AreLengths (R.state space.old) node row.now counts) }
    ensures not_damaged { R.tells → node_degree ≡ degree (R.state space.old).records node
        → (most : ℕ)
        (empty : List ℕ) → CanRaise (R.state space.old) node row.now most empty
        → NotDamaged result }
    ensures breaks { R.tells → node_degree ≡ degree (R.state space.old).records node
        → IsGroupAt (R.state space.old) node row.now
        → IfErr result (IsBreakFault (R.state space.old)) }
    ensures names { R.tells → IfErr result (IsCountFault node row.now.id) }
    ensures state { SameButReads (R.state space.old) (R.state space.new) }
    ensures onward { R.onward space.old space.new }
    ensures cause { HasFaultCause (R.faults space.old) (R.faults space.new) result }
{
    // One more than the node has, so that one too many is met.
    let limit = node_degree.saturating_add(1);
    let out = side_length(space, node, row, Side::Out, limit)?;
    let into = side_length(space, node, row, Side::In, limit - out)?;
    let loops = side_length(space, node, row, Side::Loop, limit - out - into)?;
    if limit - out - into == loops {
        return Err(Fault::Damaged(degree_damage(node)));
    }
    Ok(Counts { out, into, loops })
}

/// How many relationships one of the chains has, counted up to a budget.
fn side_length<R: Reads>(
    space: &mut R,
    node: u32,
    row: &GroupRow,
    side: Side,
    budget: u32,
) -> Result<u32, Fault>
    ensures counted { R.tells → IfOk result (λ n. HasCounted (R.state space.old)
        (first_in row.now side) node (members_of row.now.label side) budget n) }
    ensures few { IfOk result (λ n. n ≤ budget) }
    ensures not_damaged { R.tells → rel_mark (R.state space.old) ≤ rel_room (R.state space.old)
        → (xs : List ℕ) → IsMemberChain (R.state space.old) (first_in row.now side) node
        (members_of row.now.label side) xs → NotDamaged result }
    ensures breaks { R.tells → IsGroupAt (R.state space.old) node row.now
        → IfErr result (IsBreakFault (R.state space.old)) }
    ensures names { R.tells → IfErr result (IsCountFault node row.now.id) }
    ensures state { SameButReads (R.state space.old) (R.state space.new) }
    ensures onward { R.onward space.old space.new }
    ensures cause { HasFaultCause (R.faults space.old) (R.faults space.new) result }
{
    let chain = Chain {
        owner: Key {
            file: GROUPS,
            id: row.id,
        },
        node,
        first: first_in(row, side),
    };
    chain_length(space, &chain, members_of(row.label, side), budget)
}

/// The first link of a side's chain.
fn first_in(row: &GroupRow, side: Side) -> u32
    ensures { result ≡ first_in row.now side }
{
    match side {
        Side::Out => row.first_out,
        Side::In => row.first_in,
        Side::Loop => row.first_loop,
    }
}

/// Which relationships stand in it.
fn members_of(label: u32, side: Side) -> Members
    ensures { result ≡ members_of label side }
{
    match side {
        Side::Out => Members {
            label,
            leaves: true,
            enters: false,
        },
        Side::In => Members {
            label,
            leaves: false,
            enters: true,
        },
        Side::Loop => Members {
            label,
            leaves: true,
            enters: true,
        },
    }
}

/// Writes the numbers of a group.
fn set_counts<S: Space>(space: &mut S, id: u32, counts: Counts) -> Result<(), SpaceFault>
    requires { IsKey (group_key id) }
    ensures ok { S.tells → OnOk result
        (S.state space.new ≡ raised_state (S.state space.old) id counts) }
    ensures writes { WritesOnly (S.state space.old) (S.state space.new) (group_key id ∷ []) }
    ensures onward { S.onward space.old space.new }
    ensures cause { HasCause (S.faults space.old) (S.faults space.new) result }
{
    let rec = space.edit(Key { file: GROUPS, id })?;
    rec.set_byte(KIND, COUNTED);
    rec.set_number(GROUP_OUT_COUNT, counts.out);
    rec.set_number(GROUP_IN_COUNT, counts.into);
    rec.set_number(GROUP_LOOP_COUNT, counts.loops);
    Ok(())
}

/// The damage of a node that has more relationships than its degree says.
pub(crate) fn degree_damage(node: u32) -> Damage
    ensures { result ≡ degree_damage node }
{
    Damage {
        file: NODES,
        id: node,
        rule: DEGREE_RULE,
    }
}
