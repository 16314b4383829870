ghost use Rattle.std.specs.Prelude.{◌≡◌, ◌++◌, ◌+◌, ◌<◌, ◌≤◌, ℕ, List, [], ◌∷◌, IfErr, IfOk, IsErr};
ghost use Rattle.std.specs.Prelude.{OnErr, OnOk, length};
ghost use Rattle.plain_graph.specs.Changes.{most_weight, start_weight};
ghost use Rattle.name_store.specs.Interning.{interned};
ghost use Rattle.plain_graph.specs.Graph.{UsesNames};
ghost use Rattle.plain_graph.specs.Lines.{HasForm};
ghost use Rattle.plain_graph.specs.Refusals.{most_names};
ghost use Rattle.plain_graph.specs.Reply.{Done};
ghost use Rattle.plain_graph.specs.declared.command.Command.TheVariants as commands;
ghost use Rattle.store_rules.specs.Writes.{WritesAtMost};
ghost use Rattle.change_parts.specs.Causes.{IsCaused, IsCausedAfter};
ghost use Rattle.change_parts.specs.Change.{IsRefusal, IsSetCount, MakesChange};
ghost use Rattle.change_parts.specs.ChangeFault.{HasChangeCause, LeavesSpace};
ghost use Rattle.change_parts.specs.Damage.{BlamesGiven, BlamesEntries};
ghost use Rattle.change_parts.specs.Store.{IsStore};
ghost use Rattle.node_changes.specs.PropertySetting.{GivesKey, LosesKey};
ghost use Rattle.store_rules.specs.Graph.{graph_in};

use crate::entries::{change_entry, indexed_value, leave_entry};
use change_parts::{ChangeFault, block_count, find_owner};
use name_store::Names;
use plain_graph::{Target, Text, Value};
use rec_bytes::{Reads, Space};
use std::alloc::Global;

/// Gives a key of an element a value, and answers the weight of the change. A value that the key
/// had is gone, with its blocks and its entry in an index.
pub fn set<S: Space>(
    alloc: Global,
    space: &mut S,
    names: &mut Names,
    target: Target,
    key: &Text,
    value: &Value,
) -> Result<u32, ChangeFault>
    requires { HasForm (commands.Set target key.now value.now) }
    ensures made { S.tells → IfOk result (λ weight. IsStore (S.state space.old) names.old.names
        → MakesChange (commands.Set target key.now value.now) Done weight
        (S.state space.old) (S.state space.new) names.new.names) }
    ensures refused { S.tells → IsStore (S.state space.old) names.old.names
        → IfErr result (IsRefusal (S.state space.old).shape.limit (graph_in (S.state space.old))
        (commands.Set target key.now value.now)) }
    ensures caused { S.tells → IfErr result (IsCaused (commands.Set target key.now value.now)
        (S.state space.old) (S.state space.new) names.old.names names.new.names) }
    ensures caused_after { S.tells → IfErr result (IsCausedAfter
        (commands.Set target key.now value.now) (S.state space.new)
        names.old.names names.new.names) }
    ensures damaged { S.tells → IfErr result
        (BlamesGiven (S.state space.old)
        (interned (S.state space.old) names.old.names key.now) (S.state space.new)) }
    // the records lead to the value
    ensures gives { S.tells → OnOk result (GivesKey (S.state space.new).records names.new.names
        target key.now value.now) }
    ensures counts { S.tells → IfErr result (IsSetCount (S.state space.old).shape) }
    ensures names_full { (used : List (List ℕ)) → UsesNames names.old.names (key.now ∷ []) used
        → most_names < length used → IsErr result }
    ensures leaves { S.tells → IfErr result (LeavesSpace (S.state space.old) (S.state space.new)) }
    ensures light { IfOk result (λ weight. weight + start_weight ≤ most_weight) }
    ensures prefix { (rest : List (List ℕ)) × (names.new.names ≡ names.old.names ++ rest) }
    ensures writes { IfOk result (λ weight.
        WritesAtMost weight (S.state space.old) (S.state space.new)) }
    ensures refused_writes { OnErr result (WritesAtMost 53
        (S.state space.old) (S.state space.new)) }
    ensures onward { S.onward space.old space.new }
    ensures cause { HasChangeCause (S.faults space.old) (S.faults space.new) result }
{
    let owner = find_owner(space, target)?;
    let known = names.count();
    let number = names.intern(space, key.as_bytes())?;
    let held = indexed_value(alloc, space, target, number)?;
    let released = prop_store::set(space, owner, number, value)?;
    let entries = change_entry(space, &held, value)?;
    Ok(2 + block_count(value) + released + (names.count() - known) + entries)
}

/// Takes the value of a key of an element away, and answers the weight of the change. Where the
/// element hasn't the key nothing changes. Names stay.
pub fn unset<S: Space>(
    alloc: Global,
    space: &mut S,
    names: &Names,
    target: Target,
    key: &Text,
) -> Result<u32, ChangeFault>
    ensures made { S.tells → IfOk result (λ weight. IsStore (S.state space.old) names.now.names
        → MakesChange (commands.Unset target key.now) Done weight
        (S.state space.old) (S.state space.new) names.now.names) }
    ensures refused { S.tells → IsStore (S.state space.old) names.now.names
        → IfErr result (IsRefusal (S.state space.old).shape.limit (graph_in (S.state space.old))
        (commands.Unset target key.now)) }
    ensures caused { S.tells → IfErr result (IsCaused (commands.Unset target key.now)
        (S.state space.old) (S.state space.new) names.now.names names.now.names) }
    ensures caused_after { S.tells → IfErr result (IsCausedAfter (commands.Unset target key.now)
        (S.state space.new) names.now.names names.now.names) }
    ensures damaged { S.tells
        → IfErr result (BlamesEntries (S.state space.old) (S.state space.new)) }
    // the property of the key that the records led to is in use no more
    ensures gone { S.tells → OnOk result (LosesKey (S.state space.old).records
        (S.state space.new).records names.now.names target key.now) }
    ensures leaves { IfErr result (LeavesSpace (S.state space.old) (S.state space.new)) }
    ensures light { IfOk result (λ weight. weight + start_weight ≤ most_weight) }
    ensures writes { IfOk result (λ weight.
        WritesAtMost weight (S.state space.old) (S.state space.new)) }
    ensures refused_writes { OnErr result (WritesAtMost 27
        (S.state space.old) (S.state space.new)) }
    ensures onward { S.onward space.old space.new }
    ensures cause { HasChangeCause (S.faults space.old) (S.faults space.new) result }
{
    let owner = find_owner(space, target)?;
    let Some(number) = names.find(key.as_bytes()) else {
        return Ok(2);
    };
    let held = indexed_value(alloc, space, target, number)?;
    let Some(released) = prop_store::unset(space, owner, number)? else {
        return Ok(2);
    };
    let entries = leave_entry(space, &held)?;
    Ok(2 + released + entries)
}
