ghost use Rattle.std.specs.Prelude.{◌≡◌, IfErr, IfOk, None};
ghost use Rattle.std.specs.List.{AllByRecursion};
ghost use Rattle.plain_graph.specs.Forms.{IsShown};
ghost use Rattle.plain_graph.specs.Meaning.{meaning};
ghost use Rattle.store_rules.specs.Graph.{graph_of};
ghost use Rattle.prop_index.specs.Looking.{BlamesBroken, HasLookupCause};
ghost use Rattle.prop_store.specs.Fault as props;
ghost use Rattle.rec_bytes.specs.Fault.{HasFaultCause};
ghost use Rattle.traversal_run.specs.FoundNodes.{HasIndexOf, IsSourceRefusal};
ghost use Rattle.traversal_run.specs.Reading.{IsNamedStore, IsRead};
ghost use Rattle.traversal_run.specs.Run.{stopped_by, to_come};

use crate::{Next, Run};
use name_store::Names;
use plain_graph::{Item, Query};
use prop_index::LookupFault;
use rec_bytes::{Fault, Reads};
use std::alloc::Global;

/// All results of a query, in a list. Where a count would pass the greatest number of a value, the
/// list has no room for what it counts, which is want of memory. There is no list where the index
/// that the query begins with isn't there.
pub fn items_of<R: Reads>(
    alloc: Global,
    space: &mut R,
    names: &Names,
    query: &Query,
) -> Result<Vec<Item>, LookupFault>
    ensures items { R.tells
        → IsNamedStore (R.state space.old).records (R.state space.old).shape names.now.names
        → IfOk result (λ items. items.items
        ≡ meaning (graph_of (R.state space.old).records) query.now) }
    // Each has a line.
    ensures shown { IfOk result (λ items. AllByRecursion IsShown items.items) }
    // The graph has the index that the query begins with, and lacks it where that is said.
    ensures there { R.tells
        → IsNamedStore (R.state space.old).records (R.state space.old).shape names.now.names
        → IfOk result (λ items.
        HasIndexOf (graph_of (R.state space.old).records) query.now.source) }
    ensures refused { R.tells
        → IsNamedStore (R.state space.old).records (R.state space.old).shape names.now.names
        → IfErr result (IsSourceRefusal
        (graph_of (R.state space.old).records) query.now.source) }
    // A record that is said to be damaged breaks a rule, in whatever store.
    ensures damaged { R.tells → IfErr result
        (BlamesBroken (R.state space.old).records (R.state space.old).shape) }
    ensures cause { HasLookupCause (R.faults space.old) (R.faults space.new) result }
    ensures read { IsRead R.Reads space.old space.new }
{
    let mut run = Run::new(alloc, space, names, query)?;
    let items = take_all(alloc, &mut run, space, names)?;
    Ok(items)
}

/// All results that a run still gives.
fn take_all<R: Reads>(
    alloc: Global,
    run: &mut Run,
    space: &mut R,
    names: &Names,
) -> Result<Vec<Item>, Fault>
    requires { stopped_by run.old ≡ None }
    ensures items { R.tells
        → IsNamedStore (R.state space.old).records (R.state space.old).shape names.now.names
        → IfOk result (λ items. items.items
        ≡ (to_come (graph_of (R.state space.old).records) run.old).items) }
    ensures shown { IfOk result (λ items. AllByRecursion IsShown items.items) }
    ensures damaged { R.tells → IfErr result
        (props.BlamesBroken (R.state space.old).records (R.state space.old).shape) }
    ensures cause { HasFaultCause (R.faults space.old) (R.faults space.new) result }
    ensures read { IsRead R.Reads space.old space.new }
{
    let mut items = Vec::new(alloc);
    for _ in 0..u64::MAX {
        match run.next(space, names) {
            Next::Item(item) => items.push(item)?,
            Next::End => return Ok(items),
            Next::Memory | Next::PastCount => return Err(Fault::Memory),
            Next::Disk => return Err(Fault::Disk),
            Next::Damaged(damage) => return Err(Fault::Damaged(damage)),
        }
    }
    Err(Fault::Memory)
}
