//! Links of groups, and of a node to its first one.

ghost use Rattle.std.specs.Prelude.{◌≡◌, ◌≢◌, ◌<◌, ◌∷◌, [], IfErr, IsOk, OnOk};
ghost use Rattle.rec_bytes.specs.Key.{IsKey};
ghost use Rattle.rec_bytes.specs.Space.{HasCause, WritesOnly};
ghost use Rattle.group_store.specs.GroupRecord.{group_key};
ghost use Rattle.group_store.specs.Links.{IsLinkDamage, IsRightLink, backed};
ghost use Rattle.group_store.specs.Loading.{group_mark};

use rec_bytes::{
    Damage, GROUP_PREVIOUS, GROUPS, Key, META, NIL, RANGE_RULE, Reads, Space, SpaceFault, room_of,
    set_number,
};

/// Tests a link. It is none, or it leads to a group below the mark, and there is room for as many.
/// Where it leads nowhere, the damage is the one that is named.
pub(crate) fn test_link<R: Reads>(space: &R, link: u32, named: Damage) -> Result<(), Damage>
    ensures key { OnOk result (link ≢ NIL → IsKey (group_key link)) }
    ensures low { OnOk result (link ≢ NIL → link < group_mark (R.state space.now)) }
    ensures not_damaged { IsRightLink (R.state space.now) link → IsOk result }
    ensures damaged { IfErr result (IsLinkDamage (R.state space.now) link named) }
{
    if link == NIL {
        return Ok(());
    }
    if link >= space.meta(GROUPS).high {
        return Err(named);
    }
    if link as u64 >= room_of(GROUPS, space.shape()) {
        return Err(Damage {
            file: META,
            id: GROUPS as u32,
            rule: RANGE_RULE,
        });
    }
    Ok(())
}

/// Changes what comes before a group, where there is one.
#[tactic(auto, unfolding(crate::specs::Links::backed))]
pub(crate) fn back<S: Space>(space: &mut S, id: u32, to: u32) -> Result<(), SpaceFault>
    requires { id ≢ NIL → IsKey (group_key id) }
    ensures ok { S.tells → OnOk result (S.state space.new ≡ backed (S.state space.old) id to) }
    ensures writes { WritesOnly (S.state space.old) (S.state space.new) (group_key id ∷ []) }
    ensures onward { S.onward space.old space.new }
    ensures cause { HasCause (S.faults space.old) (S.faults space.new) result }
{
    if id == NIL {
        return Ok(());
    }
    set_number(space, Key { file: GROUPS, id }, GROUP_PREVIOUS, to)?;
    Ok(())
}
