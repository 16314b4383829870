//! Whether an identifier is a node's.

ghost use Rattle.std.specs.Prelude.{◌≡◌, IfErr, IfOk, None};
ghost use Rattle.std.specs.Bool.{OnFalse};
ghost use Rattle.plain_graph.specs.Graph.{has_node};
ghost use Rattle.rec_bytes.specs.Frame.{IsRead};
ghost use Rattle.rec_bytes.specs.RowFault.{HasRowCause};
ghost use Rattle.chain_edit.specs.Walking.{ReadsAtMost};
ghost use Rattle.node_store.specs.Loading.{IsNodeFault, row_at};
ghost use Rattle.store_rules.specs.Rules.{IsWhole};
ghost use Rattle.store_rules.specs.Graph.{graph_in};

use node_store::load;
use rec_bytes::{Reads, RowFault};

/// Whether a node has the identifier.
pub(crate) fn is_node<R: Reads>(reads: &mut R, id: u32) -> Result<bool, RowFault>
    ensures is { R.tells → IsWhole (R.state reads.old) → IfOk result (λ there.
        there ≡ has_node (graph_in (R.state reads.old)) id) }
    // so in a store that is damaged
    ensures row { R.tells → IfOk result (λ there. OnFalse there
        (row_at (R.state reads.old).records id ≡ None)) }
    ensures cost { ReadsAtMost 1 (R.state reads.old) (R.state reads.new) }
    ensures damaged { R.tells → IfErr result (IsNodeFault (R.state reads.old) id) }
    ensures read { IsRead R.Reads reads.old reads.new }
    ensures cause { HasRowCause (R.faults reads.old) (R.faults reads.new) result }
{
    match load(reads, id)? {
        Some(_) => Ok(true),
        None => Ok(false),
    }
}
