ghost use Rattle.std.specs.Prelude.{◌≡◌, ◌∷◌, [], OnErr, OnOk};
ghost use Rattle.rec_bytes.specs.Key.{IsKey};
ghost use Rattle.rec_bytes.specs.Space.{after_put, HasCause, WritesOnly};
ghost use Rattle.store_rules.specs.Ranges.{IsBlankOutside};
ghost use Rattle.rel_store.specs.RelRecord.{rel_key, rel_record, rel_used, row_of};

use crate::RelRow;
use rec_bytes::{Space, SpaceFault};

/// Writes the record that the row is.
pub fn save<S: Space>(space: &mut S, row: &RelRow) -> Result<(), SpaceFault>
    requires { IsKey (rel_key row.now.id) }
    ensures ok { OnOk result (S.state space.new
        ≡ after_put (S.state space.old) (rel_key row.now.id) (rel_record row.now)) }
    ensures got { OnOk result
        (row_of ((S.state space.new).records (rel_key row.now.id)) row.now.id ≡ row.now) }
    ensures blank { OnOk result
        (IsBlankOutside rel_used ((S.state space.new).records (rel_key row.now.id))) }
    ensures err { OnErr result (S.state space.new ≡ S.state space.old) }
    ensures writes { WritesOnly (S.state space.old) (S.state space.new) (rel_key row.now.id ∷ []) }
    ensures onward { S.onward space.old space.new }
    ensures cause { HasCause (S.faults space.old) (S.faults space.new) result }
{
    row_store::save(space, row)
}
