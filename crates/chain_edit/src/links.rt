//! Links of relationships, as the chains of one node use them.

ghost use Rattle.std.specs.Prelude.{◌≡◌, ◌≢◌, ◌∷◌, [], IfErr, IsOk, OnErr, OnOk};
ghost use Rattle.rec_bytes.specs.Key.{IsKey};
ghost use Rattle.rec_bytes.specs.Space.{after_get, HasCause, WritesOnly};
ghost use Rattle.rel_store.specs.RelRecord.{rel_key};
ghost use Rattle.chain_edit.specs.Links.{IsKnownLink, IsLinkDamage, IsRightLink, backed, next_set};
ghost use Rattle.chain_edit.specs.Links.{prev_set};
ghost use Rattle.chain_edit.specs.Reach.{IsReach};

use rec_bytes::{
    Damage, Key, META, NIL, RANGE_RULE, RELATIONSHIPS, Reads, Space, SpaceFault, room_of,
};
use rel_store::{Linked, place_of};

/// How far links may lead: below the mark of the relationships, and no further than there is room.
#[derive(Clone, Copy)]
pub(crate) struct Reach {
    mark: u32,
    room: u64,
}

/// How far the links of a space may lead. It takes no read, and stays while records are only read.
pub(crate) fn reach_of<R: Reads>(space: &R) -> Reach
    ensures { IsReach (R.state space.now) result }
{
    Reach {
        mark: space.meta(RELATIONSHIPS).high,
        room: room_of(RELATIONSHIPS, space.shape()),
    }
}

/// Tests a link. It is none, or it leads to a relationship below the mark, and there is room for as
/// many. Where it leads nowhere, the damage is the one that is named.
pub(crate) fn test_link<R: Reads>(space: &R, link: u32, named: Damage) -> Result<(), Damage>
    ensures key { OnOk result (link ≢ NIL → IsKey (rel_key link)) }
    ensures known { OnOk result (IsKnownLink (R.state space.now) link) }
    ensures not_damaged { IsRightLink (R.state space.now) link → IsOk result }
    ensures damaged { IfErr result (IsLinkDamage (R.state space.now) link named) }
{
    test_within(space, reach_of(space), link, named)
}

/// Tests a link as `test_link` does, given how far it may lead.
pub(crate) fn test_within<R: Reads>(
    space: &R,
    reach: Reach,
    link: u32,
    named: Damage,
) -> Result<(), Damage>
    requires { IsReach (R.state space.now) reach }
    ensures key { OnOk result (link ≢ NIL → IsKey (rel_key link)) }
    ensures known { OnOk result (IsKnownLink (R.state space.now) link) }
    ensures not_damaged { IsRightLink (R.state space.now) link → IsOk result }
    ensures damaged { IfErr result (IsLinkDamage (R.state space.now) link named) }
{
    if link == NIL {
        return Ok(());
    }
    if link >= reach.mark {
        return Err(named);
    }
    let _shape = space.shape(); // Its room has a key for each number.
    if link as u64 >= reach.room {
        return Err(Damage {
            file: META,
            id: RELATIONSHIPS as u32,
            rule: RANGE_RULE,
        });
    }
    Ok(())
}

/// Changes what comes after a relationship in a chain of the node.
pub(crate) fn set_next<S: Space>(
    space: &mut S,
    id: u32,
    node: u32,
    to: u32,
) -> Result<(), SpaceFault>
    requires { IsKey (rel_key id) }
    ensures ok { S.tells
        → OnOk result (S.state space.new ≡ next_set (S.state space.old) node id to) }
    ensures err { OnErr result (S.state space.new ≡ after_get (S.state space.old)) }
    ensures writes { WritesOnly (S.state space.old) (S.state space.new) (rel_key id ∷ []) }
    ensures onward { S.onward space.old space.new }
    ensures cause { HasCause (S.faults space.old) (S.faults space.new) result }
{
    let rec = space.edit(Key {
        file: RELATIONSHIPS,
        id,
    })?;
    let place = place_of(rec, node);
    rec.set_link(place + 4, to);
    Ok(())
}

/// Changes what comes before a relationship in a chain of the node.
fn set_previous<S: Space>(space: &mut S, id: u32, node: u32, to: u32) -> Result<(), SpaceFault>
    requires { IsKey (rel_key id) }
    ensures ok { S.tells
        → OnOk result (S.state space.new ≡ prev_set (S.state space.old) node id to) }
    ensures err { OnErr result (S.state space.new ≡ after_get (S.state space.old)) }
    ensures writes { WritesOnly (S.state space.old) (S.state space.new) (rel_key id ∷ []) }
    ensures onward { S.onward space.old space.new }
    ensures cause { HasCause (S.faults space.old) (S.faults space.new) result }
{
    let rec = space.edit(Key {
        file: RELATIONSHIPS,
        id,
    })?;
    let place = place_of(rec, node);
    rec.set_link(place, to);
    Ok(())
}

/// The same, where there is a relationship.
#[tactic(auto, unfolding(crate::specs::Links::backed))]
pub(crate) fn back<S: Space>(space: &mut S, id: u32, node: u32, to: u32) -> Result<(), SpaceFault>
    requires { id ≢ NIL → IsKey (rel_key id) }
    ensures ok { S.tells → OnOk result (S.state space.new ≡ backed (S.state space.old) node id to) }
    ensures writes { WritesOnly (S.state space.old) (S.state space.new) (rel_key id ∷ []) }
    ensures onward { S.onward space.old space.new }
    ensures cause { HasCause (S.faults space.old) (S.faults space.new) result }
{
    if id == NIL {
        return Ok(());
    }
    set_previous(space, id, node, to)?;
    Ok(())
}
