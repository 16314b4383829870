ghost use Rattle.std.specs.Prelude.{◌≡◌, ◌≢◌, ◌∷◌, [], ℕ, List, Some, not, true, false};
ghost use Rattle.std.specs.Prelude.{IfErr, IfOk, OnOk};
ghost use Rattle.node_store.specs.NodeRecord.{node_key};
ghost use Rattle.rec_bytes.specs.Format.{groups_file};
ghost use Rattle.rec_bytes.specs.Key.{IsKey};
ghost use Rattle.rec_bytes.specs.RecordFiles.{meta_key_of};
ghost use Rattle.rec_bytes.specs.Space.{HasCause, SameButReads, WritesOnly, after_get};
ghost use Rattle.store_rules.specs.Rules.{is_filled};
ghost use Rattle.store_rules.specs.Views.{GroupRow, group_at, rec_at};
ghost use Rattle.chain_edit.specs.Breaks.{IsBreakFault};
ghost use Rattle.chain_edit.specs.Walking.{ReadsAtMost};
ghost use Rattle.group_store.specs.Dropping.{CanDrop, HasDropped, HasLowLinks, IsAstrayFault};
ghost use Rattle.group_store.specs.Dropping.{IsBehind};
ghost use Rattle.group_store.specs.Dropping.{IsDropFault, IsLinkedIn, IsOnChain, astray_damage};
ghost use Rattle.group_store.specs.Dropping.{dropped, lead_key, leads_to, put_back, put_led, seen};
ghost use Rattle.rec_bytes.specs.Fault.{HasFaultCause, NotDamaged, OnDamage};
ghost use Rattle.group_store.specs.GroupRecord.{group_key};

use crate::links::test_link;
use crate::members::read_member;
use id_freelist::give;
use rec_bytes::{
    Damage, Fault, GROUP_FIRST_IN, GROUP_FIRST_LOOP, GROUP_FIRST_OUT, GROUP_NEXT, GROUP_PREVIOUS,
    GROUP_RULE, GROUPS, Key, NIL, NODE_FIRST_LINK, NODES, RANGE_RULE, Reads, Rec, Space,
    SpaceFault,
};

/// Takes a group of a dense node out of its chain and gives its identifier back, where none of its
/// three chains has a relationship. The node is damaged where the group isn't its own, and the
/// group where a link of it leads nowhere, or what it says is beside it doesn't lead to it. Then
/// nothing is written.
pub fn drop_if_empty<S: Space>(space: &mut S, node: u32, group: u32) -> Result<bool, Fault>
    requires { IsKey (node_key node) }
    ensures dropped { S.tells → OnOk result ((free xs : List ℕ)
        → CanDrop (S.state space.old) node group free xs
        → is_filled (rec_at (S.state space.old).records groups_file group) ≡ false
        → HasDropped (S.state space.old).records (S.state space.new).records node group free xs) }
    ensures is { S.tells → IfOk result (λ gone.
        gone ≡ not (is_filled (rec_at (S.state space.old).records groups_file group))) }
    ensures kept { IfOk result (λ gone. gone ≡ false
        → SameButReads (S.state space.old) (S.state space.new)) }
    ensures ok { S.tells → IfOk result (λ gone. gone ≡ true
        → S.state space.new ≡ dropped (S.state space.old) node group) }
    ensures linked { S.tells → IfOk result (λ gone. gone ≡ true
        → IsLinkedIn (S.state space.old).records node group) }
    ensures low { S.tells → IfOk result (λ gone. gone ≡ true
        → HasLowLinks (S.state space.old) group) }
    ensures damaged { S.tells → IfErr result (IsDropFault (S.state space.old) node group) }
    ensures breaks { S.tells → (row : GroupRow)
        → group_at (S.state space.old).records group ≡ Some row → row.owner ≡ node
        → IfErr result (IsBreakFault (S.state space.old)) }
    ensures not_damaged { S.tells → (xs : List ℕ) → IsOnChain (S.state space.old) node group xs
        → NotDamaged result }
    ensures unwritten { OnDamage result (SameButReads (S.state space.old) (S.state space.new)) }
    ensures writes { (before after : ℕ) × WritesOnly (S.state space.old) (S.state space.new)
        (group_key after ∷ lead_key node before ∷ group_key group ∷ meta_key_of groups_file
        ∷ []) }
    ensures onward { S.onward space.old space.new }
    ensures cause { HasFaultCause (S.faults space.old) (S.faults space.new) result }
{
    let rec = read_member(space, node, group)?;
    if is_filled(&rec) {
        return Ok(false);
    }
    let before = rec.number(GROUP_PREVIOUS);
    let after = rec.number(GROUP_NEXT);
    let leads_nowhere = Damage {
        file: GROUPS,
        id: group,
        rule: RANGE_RULE,
    };
    test_link(space, before, leads_nowhere)?;
    test_link(space, after, leads_nowhere)?;
    let behind = read_behind(space, group, before, after)?;
    let lead = read_lead(space, node, group, before)?;
    write_behind(space, after, before, behind)?;
    write_lead(space, node, before, after, lead)?;
    give(space, GROUPS, group)?;
    Ok(true)
}

/// Whether one of the group's three chains has a relationship.
fn is_filled(rec: &Rec) -> bool
    ensures { result ≡ is_filled rec.now }
{
    !(rec.number(GROUP_FIRST_OUT) == NIL
        && (rec.number(GROUP_FIRST_IN) == NIL && rec.number(GROUP_FIRST_LOOP) == NIL))
}

/// Reads the record of the group after one, which leads back to it. Where there is none, the answer
/// is of no use.
#[tactic(auto, unfolding(crate::specs::Dropping::seen))]
fn read_behind<R: Reads>(space: &mut R, group: u32, before: u32, after: u32) -> Result<Rec, Fault>
    requires { after ≢ NIL → IsKey (group_key after) }
    ensures got { R.tells → IfOk result (λ rec. after ≢ NIL
        → rec ≡ (R.state space.old).records (group_key after)) }
    ensures linked { R.tells → OnOk result (after ≢ NIL
        → IsBehind (R.state space.old).records group before after) }
    ensures state { OnOk result (R.state space.new ≡ seen (R.state space.old) after) }
    ensures at_most { ReadsAtMost 1 (R.state space.old) (R.state space.new) }
    ensures damaged { R.tells → IfErr result (IsAstrayFault ((after ≢ NIL)
        × ¬ IsBehind (R.state space.old).records group before after) group) }
    ensures onward { R.onward space.old space.new }
    ensures cause { HasFaultCause (R.faults space.old) (R.faults space.new) result }
{
    if after == NIL {
        return Ok(Rec::ZEROS);
    }
    if after == group {
        return Err(Fault::Damaged(astray_damage(group)));
    }
    if after == before {
        return Err(Fault::Damaged(astray_damage(group)));
    }
    let rec = space.get(Key {
        file: GROUPS,
        id: after,
    })?;
    if rec.number(GROUP_PREVIOUS) != group {
        return Err(Fault::Damaged(astray_damage(group)));
    }
    Ok(rec)
}

/// Reads the record that leads to a group: that of the one before it, or the node's where there is
/// none.
fn read_lead<R: Reads>(space: &mut R, node: u32, group: u32, before: u32) -> Result<Rec, Fault>
    requires node { IsKey (node_key node) }
    requires before { before ≢ NIL → IsKey (group_key before) }
    ensures got_node { R.tells → IfOk result (λ rec. before ≡ NIL
        → rec ≡ (R.state space.old).records (node_key node)) }
    ensures got_before { R.tells → IfOk result (λ rec. before ≢ NIL
        → rec ≡ (R.state space.old).records (group_key before)) }
    ensures linked { R.tells → OnOk result
        (leads_to (R.state space.old).records node before ≡ group) }
    ensures state { R.state space.new ≡ after_get (R.state space.old) }
    ensures damaged { R.tells → IfErr result (IsAstrayFault
        (leads_to (R.state space.old).records node before ≢ group) group) }
    ensures onward { R.onward space.old space.new }
    ensures cause { HasFaultCause (R.faults space.old) (R.faults space.new) result }
{
    if before == NIL {
        let rec = space.get(Key {
            file: NODES,
            id: node,
        })?;
        if rec.number(NODE_FIRST_LINK) != group {
            return Err(Fault::Damaged(astray_damage(group)));
        }
        return Ok(rec);
    }
    let rec = space.get(Key {
        file: GROUPS,
        id: before,
    })?;
    if rec.number(GROUP_NEXT) != group {
        return Err(Fault::Damaged(astray_damage(group)));
    }
    Ok(rec)
}

/// Changes what comes before a group whose record is at hand, where there is one.
#[tactic(auto, unfolding(crate::specs::Dropping::put_back))]
fn write_behind<S: Space>(space: &mut S, id: u32, to: u32, rec: Rec) -> Result<(), SpaceFault>
    requires { id ≢ NIL → IsKey (group_key id) }
    ensures ok { OnOk result (S.state space.new ≡ put_back (S.state space.old) id to rec) }
    ensures writes { WritesOnly (S.state space.old) (S.state space.new) (group_key id ∷ []) }
    ensures onward { S.onward space.old space.new }
    ensures cause { HasCause (S.faults space.old) (S.faults space.new) result }
{
    if id == NIL {
        return Ok(());
    }
    let mut rec = rec;
    rec.set_number(GROUP_PREVIOUS, to);
    space.put(Key { file: GROUPS, id }, rec)?;
    Ok(())
}

/// Changes what leads to the place of a group that is taken out, whose record is at hand: the one
/// before it, and the node where there is none.
#[tactic(auto, unfolding(crate::specs::Dropping::put_led))]
fn write_lead<S: Space>(
    space: &mut S,
    node: u32,
    before: u32,
    after: u32,
    rec: Rec,
) -> Result<(), SpaceFault>
    requires node { IsKey (node_key node) }
    requires before { before ≢ NIL → IsKey (group_key before) }
    ensures ok { OnOk result
        (S.state space.new ≡ put_led (S.state space.old) node before after rec) }
    ensures writes { WritesOnly (S.state space.old) (S.state space.new)
        (lead_key node before ∷ []) }
    ensures onward { S.onward space.old space.new }
    ensures cause { HasCause (S.faults space.old) (S.faults space.new) result }
{
    let mut rec = rec;
    if before == NIL {
        rec.set_number(NODE_FIRST_LINK, after);
        let key = Key {
            file: NODES,
            id: node,
        };
        space.put(key, rec)?;
        return Ok(());
    }
    rec.set_number(GROUP_NEXT, after);
    let key = Key {
        file: GROUPS,
        id: before,
    };
    space.put(key, rec)?;
    Ok(())
}

/// The damage of a group that isn't in its chain.
fn astray_damage(group: u32) -> Damage
    ensures { result ≡ astray_damage group }
{
    Damage {
        file: GROUPS,
        id: group,
        rule: GROUP_RULE,
    }
}
