//! Groups of a node that have one type, of which a chain of groups has no two.

ghost use Rattle.std.specs.Prelude.{◌≡◌, ◌+◌, IfErr, IfOk};
ghost use Rattle.chain_edit.specs.Heads.{head_of, IsHead};
ghost use Rattle.chain_edit.specs.Walking.{ReadsAtMost};
ghost use Rattle.rec_bytes.specs.Fault.{HasFaultCause};
ghost use Rattle.rec_bytes.specs.Key.{IsKey};
ghost use Rattle.group_store.specs.GroupRecord.{group_key};
ghost use Rattle.group_store.specs.Loading.{group_mark};
ghost use Rattle.group_store.specs.Twins.{
  HasTwinIf,
  IsGroupsFault,
  IsMet,
  IsNamed,
  IsTwinFault,
  is_twin,
};
ghost use Rattle.group_store.specs.Walking.{IsWalkFault};

use crate::members::{chain_damage, first_group, read_member};
use chain_edit::Head;
use rec_bytes::{Damage, Fault, GROUP_NEXT, GROUP_TYPE, GROUPS, Key, NIL, Reads, Rec};

/// Which record is damaged where one is said to be at a head. A relationship isn't in the chain of
/// a group that was found by its type: then it is damaged, or the node has two groups of the type.
pub(crate) fn name_damage<R: Reads>(
    space: &mut R,
    head: Head,
    node: u32,
    damage: Damage,
) -> Result<Damage, Fault>
    requires { IsHead (head_of head) }
    ensures named { R.tells
        → IfOk result (IsNamed (R.state space.old) (head_of head) node damage) }
    ensures damaged { R.tells → IfErr result (IsTwinFault (R.state space.old) (head_of head) node) }
    ensures at_most { ReadsAtMost (2 + group_mark (R.state space.old)) (R.state space.old)
        (R.state space.new) }
    ensures onward { R.onward space.old space.new }
    ensures cause { HasFaultCause (R.faults space.old) (R.faults space.new) result }
{
    if head.key.file != GROUPS {
        return Ok(damage);
    }
    if has_twin(space, node, head.key.id)? {
        return Ok(chain_damage(node));
    }
    Ok(damage)
}

/// Whether another group on the chain of the dense node has the type of this one.
fn has_twin<R: Reads>(space: &mut R, node: u32, group: u32) -> Result<bool, Fault>
    requires { IsKey (group_key group) }
    ensures found { R.tells → IfOk result (HasTwinIf (R.state space.old).records node group) }
    ensures damaged { R.tells → IfErr result (IsGroupsFault (R.state space.old) node) }
    ensures at_most { ReadsAtMost (2 + group_mark (R.state space.old)) (R.state space.old)
        (R.state space.new) }
    ensures onward { R.onward space.old space.new }
    ensures cause { HasFaultCause (R.faults space.old) (R.faults space.new) result }
{
    let rec = space.get(Key {
        file: GROUPS,
        id: group,
    })?;
    let label = rec.number(GROUP_TYPE);
    match first_group(space, node)? {
        Some(first) => seek_twin(space, node, first, group, label),
        None => Ok(false),
    }
}

/// The same of those from the first one on, by the type.
fn seek_twin<R: Reads>(
    space: &mut R,
    node: u32,
    first: u32,
    group: u32,
    label: u32,
) -> Result<bool, Fault>
    ensures met { R.tells
        → IfOk result (IsMet (R.state space.old).records node first group label) }
    ensures damaged { R.tells → IfErr result (IsWalkFault (R.state space.old) node first) }
    ensures at_most { ReadsAtMost (group_mark (R.state space.old)) (R.state space.old)
        (R.state space.new) }
    ensures onward { R.onward space.old space.new }
    ensures cause { HasFaultCause (R.faults space.old) (R.faults space.new) result }
{
    let budget = space.meta(GROUPS).high;
    let mut at = first;
    for _ in 0..budget {
        if at == NIL {
            return Ok(false);
        }
        let rec = read_member(space, node, at)?;
        if is_twin(&rec, at, group, label) {
            return Ok(true);
        }
        at = rec.number(GROUP_NEXT);
    }
    if at != NIL {
        return Err(Fault::Damaged(chain_damage(node)));
    }
    Ok(false)
}

/// Whether the record, which is read of an identifier, is of another group than this one, and has
/// the type.
fn is_twin(rec: &Rec, at: u32, group: u32, label: u32) -> bool
    ensures { result ≡ is_twin rec.now at group label }
{
    rec.number(GROUP_TYPE) == label && at != group
}
