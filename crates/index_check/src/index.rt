//! One index: its entries are those of the nodes of its label with its key, one for each.

ghost use Rattle.std.specs.Prelude.{◌≡◌, ◌<◌, IfNone, IfOk, IfSome};
ghost use Rattle.rec_bytes.specs.Fault.{HasFaultCause, NotDamaged};
ghost use Rattle.rec_bytes.specs.Format.{most_ids};
ghost use Rattle.rec_bytes.specs.Frame.{IsRead};
ghost use Rattle.record_lists.specs.Deciding.{AreMarksLow};
ghost use Rattle.store_rules.specs.Breaking.{damage};
ghost use Rattle.index_check.specs.Indexing.{BreaksIndexRule, IsGiven, IsRight};
ghost use Rattle.index_check.specs.Values.{AreReadable};

use crate::definitions::Definition;
use crate::entries::entries_of;
use crate::nodes::{Entered, check_nodes, nodes_of};
use rec_bytes::{Damage, Fault, INDEX, INDEX_RULE, NODES, Reads};
use std::alloc::Global;

/// The record of the identifier breaks the eighth rule.
pub(crate) fn broken(file: u8, id: u32) -> Damage
    ensures { result ≡ damage file id 8 }
{
    Damage {
        file,
        id,
        rule: INDEX_RULE,
    }
}

/// Finds what breaks the eighth rule of the nodes and the entries of an index.
pub(crate) fn check_index<R: Reads>(
    alloc: Global,
    space: &mut R,
    definition: &Definition,
) -> Result<Option<Damage>, Fault>
    requires id { definition.now.id < most_ids }
    requires given { R.tells → IsGiven (R.state space.old).records definition.now }
    requires low { AreMarksLow (R.state space.old).records }
    ensures right { R.tells → IfOk result (λ found. IfNone found
        (IsRight (R.state space.old).records definition.now.id)) }
    ensures broken { R.tells → IfOk result (λ found. IfSome found
        (BreaksIndexRule (R.state space.old).records)) }
    ensures not_damaged { R.tells → AreReadable (R.state space.old).records → NotDamaged result }
    ensures read { IsRead R.Reads space.old space.new }
    ensures cause { HasFaultCause (R.faults space.old) (R.faults space.new) result }
{
    let Some(entries) = entries_of(alloc, space, definition.id)? else {
        return Ok(Some(broken(INDEX, definition.id)));
    };
    match nodes_of(alloc, space, definition, &entries)? {
        Entered::Unwanted(id) => Ok(Some(broken(INDEX, id))),
        Entered::Nodes(nodes) => match check_nodes(alloc, space, definition, &nodes)? {
            Some(node) => Ok(Some(broken(NODES, node))),
            None => Ok(None),
        },
    }
}
