ghost use Rattle.std.specs.Prelude.{◌≡◌, ◌∷◌, [], OnErr, OnOk};
ghost use Rattle.rec_bytes.specs.Key.{IsKey};
ghost use Rattle.rec_bytes.specs.Space.{after_put, HasCause, WritesOnly};
ghost use Rattle.node_store.specs.NodeRecord.{node_key, node_record, row_of};

use crate::NodeRow;
use rec_bytes::{Space, SpaceFault};

/// Writes the record that the row is.
pub fn save<S: Space>(space: &mut S, row: &NodeRow) -> Result<(), SpaceFault>
    requires { IsKey (node_key row.now.id) }
    ensures ok { OnOk result (S.state space.new
        ≡ after_put (S.state space.old) (node_key row.now.id) (node_record row.now)) }
    ensures got { OnOk result
        (row_of ((S.state space.new).records (node_key row.now.id)) row.now.id ≡ row.now) }
    ensures err { OnErr result (S.state space.new ≡ S.state space.old) }
    ensures writes { WritesOnly (S.state space.old) (S.state space.new) (node_key row.now.id ∷ []) }
    ensures onward { S.onward space.old space.new }
    ensures cause { HasCause (S.faults space.old) (S.faults space.new) result }
{
    row_store::save(space, row)
}
