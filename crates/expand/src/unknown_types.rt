//! Types that are no names of the store. No edge has one of them.

ghost use Rattle.std.specs.Prelude.{◌≡◌, IfErr, not};
ghost use Rattle.std.specs.List.{list_any};
ghost use Rattle.plain_graph.specs.Graph.{has_node};
ghost use Rattle.chain_edit.specs.Walking.{ReadsAtMost};
ghost use Rattle.expand.specs.Costs.{are_no_names, is_below};
ghost use Rattle.expand.specs.ExpandFault.{HasExpandCause};
ghost use Rattle.expand.specs.Expanding.{IsExpandFault, TellsNode};
ghost use Rattle.store_rules.specs.Graph.{graph_in};

use crate::ExpandFault;
use node_store::load;
use rec_bytes::{NAMES, Reads};

/// Whether types are given by their numbers, and none of these is a name's.
pub(crate) fn are_no_names<R: Reads>(space: &R, labels: &[u32]) -> bool
    ensures { result ≡ are_no_names (R.state space.now).records labels.now }
{
    let mark = space.meta(NAMES).high;
    !labels.is_empty() && !any_below(labels, mark)
}

fn any_below(labels: &[u32], mark: u32) -> bool
    ensures { result ≡ list_any (is_below mark) labels.now }
{
    labels.iter().any(|label| *label < mark)
}

/// Finds out whether the node is there. It costs a read.
pub(crate) fn find_node<R: Reads>(space: &mut R, node: u32) -> Result<(), ExpandFault>
    ensures missing { R.tells
        → TellsNode result node (has_node (graph_in (R.state space.old)) node) }
    ensures damaged { R.tells → IfErr result (IsExpandFault (R.state space.old) node) }
    ensures reads { ReadsAtMost 1 (R.state space.old) (R.state space.new) }
    ensures onward { R.onward space.old space.new }
    ensures cause { HasExpandCause (R.faults space.old) (R.faults space.new) result }
{
    match load(space, node)? {
        Some(_) => Ok(()),
        None => Err(ExpandFault::NoNode { id: node }),
    }
}
