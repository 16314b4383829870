//! An entry out of its bucket.

ghost use Rattle.std.specs.Prelude.{◌≡◌, ◌≢◌, ◌+◌, ◌≤◌, OnOk};
ghost use Rattle.prop_index.specs.Touching.{TouchesIndex};
ghost use Rattle.prop_index.specs.Unlinking.{led_entry, unlinked_entry};
ghost use Rattle.rec_bytes.specs.Format.{index_file};
ghost use Rattle.rec_bytes.specs.Key.{IsKey};
ghost use Rattle.rec_bytes.specs.Space.{HasCause};
ghost use Rattle.store_rules.specs.Views.{key_in};

use crate::heads::Slot;
use crate::linking::back;
use id_freelist::give;
use rec_bytes::{INDEX, INDEXED_NEXT, Key, NIL, Space, SpaceFault, set_number};

/// Gives an entry back, and leads from what was before it to what came after it.
#[tactic(auto, unfolding(crate::specs::Unlinking::unlinked_entry))]
pub(crate) fn unlink<S: Space>(
    space: &mut S,
    slot: Slot,
    id: u32,
    before: u32,
    after: u32,
) -> Result<(), SpaceFault>
    requires slot { IsKey (key_in index_file slot.id) }
    requires place { slot.place + 4 ≤ 64 }
    requires id { IsKey (key_in index_file id) }
    requires before { before ≢ NIL → IsKey (key_in index_file before) }
    requires after { after ≢ NIL → IsKey (key_in index_file after) }
    ensures ok { S.tells → OnOk result (S.state space.new
        ≡ unlinked_entry (S.state space.old) slot id before after) }
    ensures touches { TouchesIndex S.tells 3 (S.state space.old) (S.state space.new) }
    ensures onward { S.onward space.old space.new }
    ensures cause { HasCause (S.faults space.old) (S.faults space.new) result }
{
    give(space, INDEX, id)?;
    back(space, after, before)?;
    lead(space, slot, before, after)?;
    Ok(())
}

/// Changes what leads to the place of an entry that was taken out.
#[tactic(auto, unfolding(crate::specs::Unlinking::led_entry))]
fn lead<S: Space>(space: &mut S, slot: Slot, before: u32, after: u32) -> Result<(), SpaceFault>
    requires slot { IsKey (key_in index_file slot.id) }
    requires place { slot.place + 4 ≤ 64 }
    requires before { before ≢ NIL → IsKey (key_in index_file before) }
    ensures ok { S.tells → OnOk result (S.state space.new
        ≡ led_entry (S.state space.old) slot before after) }
    ensures touches { TouchesIndex S.tells 1 (S.state space.old) (S.state space.new) }
    ensures onward { S.onward space.old space.new }
    ensures cause { HasCause (S.faults space.old) (S.faults space.new) result }
{
    if before == NIL {
        let key = Key {
            file: INDEX,
            id: slot.id,
        };
        set_number(space, key, slot.place, after)?;
        return Ok(());
    }
    let key = Key {
        file: INDEX,
        id: before,
    };
    set_number(space, key, INDEXED_NEXT, after)?;
    Ok(())
}
