//! Groups of a node, as its chain meets them.

ghost use Rattle.std.specs.Prelude.{◌≡◌, IfErr, IfOk, IfSome, OnOk};
ghost use Rattle.rec_bytes.specs.Format.{groups_file};
ghost use Rattle.rec_bytes.specs.Key.{IsKey};
ghost use Rattle.rec_bytes.specs.Space.{after_get};
ghost use Rattle.chain_edit.specs.Walking.{ReadsAtMost};
ghost use Rattle.node_store.specs.Loading.{IsReadable};
ghost use Rattle.node_store.specs.NodeRecord.{node_key};
ghost use Rattle.store_rules.specs.Views.{rec_at};
ghost use Rattle.group_store.specs.FirstGroup.{first_of, IsFirst, IsNodeFault};
ghost use Rattle.group_store.specs.GroupChain.{is_group_of, IsGroupOf};
ghost use Rattle.rec_bytes.specs.Fault.{HasFaultCause, NotDamaged};
ghost use Rattle.group_store.specs.Faults.{TakesNoMemory};
ghost use Rattle.group_store.specs.GroupRecord.{group_key};
ghost use Rattle.group_store.specs.Walking.{chain_damage, IsMemberFault, member_damage};

use node_store::NodeRow;
use rec_bytes::{
    COUNTED, Damage, FREE, Fault, GROUP_OWNER, GROUP_RULE, GROUPED, GROUPS, KIND, Key, META, NODES,
    RANGE_RULE, Reads, Rec, room_of,
};

/// The damage of a node whose groups break their rule.
pub(crate) fn chain_damage(node: u32) -> Damage
    ensures { result ≡ chain_damage node }
{
    Damage {
        file: NODES,
        id: node,
        rule: GROUP_RULE,
    }
}

/// The first link of a dense node, which is to a group. It is none where the node isn't dense.
pub(crate) fn first_group<R: Reads>(space: &mut R, node: u32) -> Result<Option<u32>, Fault>
    ensures first { R.tells
        → IfOk result (λ first. IsFirst (R.state space.old).records node first) }
    ensures key { IfOk result (λ first. IfSome first (λ _. IsKey (node_key node))) }
    ensures read { R.tells → IfOk result
        (λ first. IfSome first (λ _. R.state space.new ≡ after_get (R.state space.old))) }
    ensures at_most { ReadsAtMost 1 (R.state space.old) (R.state space.new) }
    ensures damaged { R.tells → IfErr result (IsNodeFault (R.state space.old) node) }
    ensures not_damaged { R.tells → IsReadable (R.state space.old) node → NotDamaged result }
    ensures no_memory { TakesNoMemory result }
    ensures onward { R.onward space.old space.new }
    ensures cause { HasFaultCause (R.faults space.old) (R.faults space.new) result }
{
    match node_store::load(space, node)? {
        Some(row) => Ok(first_of(&row)),
        None => Ok(None),
    }
}

/// The first link of a node's row, where it is to a group.
fn first_of(row: &NodeRow) -> Option<u32>
    ensures { result ≡ first_of row.now }
{
    if row.dense { Some(row.first) } else { None }
}

/// Reads the record of a group that the node owns. The node is damaged where it owns none of the
/// identifier, and the group where its record is of no kind.
pub(crate) fn read_member<R: Reads>(space: &mut R, node: u32, id: u32) -> Result<Rec, Fault>
    ensures got { R.tells
        → IfOk result (λ rec. rec ≡ rec_at (R.state space.old).records groups_file id) }
    ensures member { R.tells → OnOk result (IsGroupOf (R.state space.old).records node id) }
    ensures key { OnOk result (IsKey (group_key id)) }
    ensures read { OnOk result (R.state space.new ≡ after_get (R.state space.old)) }
    ensures at_most { ReadsAtMost 1 (R.state space.old) (R.state space.new) }
    ensures damaged { R.tells → IfErr result (IsMemberFault (R.state space.old) node id) }
    ensures no_memory { TakesNoMemory result }
    ensures onward { R.onward space.old space.new }
    ensures cause { HasFaultCause (R.faults space.old) (R.faults space.new) result }
{
    if id >= space.meta(GROUPS).high {
        return Err(Fault::Damaged(chain_damage(node)));
    }
    // A damaged mark may be so high that no record has the identifier.
    if id as u64 >= room_of(GROUPS, space.shape()) {
        return Err(Fault::Damaged(Damage {
            file: META,
            id: GROUPS as u32,
            rule: RANGE_RULE,
        }));
    }
    let mut rec = Rec::ZEROS;
    space.get_into(Key { file: GROUPS, id }, &mut rec)?;
    if !is_group_of(&rec, node) {
        return Err(Fault::Damaged(member_damage(&rec, node, id)));
    }
    Ok(rec)
}

/// Whether the record is of a group in use that the node owns.
fn is_group_of(rec: &Rec, node: u32) -> bool
    ensures { result ≡ is_group_of rec.now node }
{
    let kind = rec.byte(KIND);
    (kind == GROUPED || kind == COUNTED) && rec.number(GROUP_OWNER) == node
}

/// The damage of what stands where a group of the node is sought, and is none: the group's own, if
/// the record is of no kind.
fn member_damage(rec: &Rec, node: u32, id: u32) -> Damage
    ensures { result ≡ member_damage rec.now node id }
{
    let kind = rec.byte(KIND);
    if kind == FREE || kind == GROUPED || kind == COUNTED {
        chain_damage(node)
    } else {
        Damage {
            file: GROUPS,
            id,
            rule: RANGE_RULE,
        }
    }
}
