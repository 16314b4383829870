//! What a new element needs before its record is written.

ghost use Rattle.std.specs.Prelude.{◌≡◌, ◌+◌, ◌-◌, ◌<◌, ◌≤◌, ◌++◌, ◌∷◌, ℕ, List, IfErr, IfOk};
ghost use Rattle.std.specs.Prelude.{IsErr, OnOk, Some, length, slice_get};
ghost use Rattle.plain_graph.specs.Changes.{properties_weight};
ghost use Rattle.plain_graph.specs.Forms.{ArePairs};
ghost use Rattle.plain_graph.specs.Graph.{UsesNames};
ghost use Rattle.plain_graph.specs.Names.{IsShortName};
ghost use Rattle.plain_graph.specs.Properties.{keys_in, no_properties, with_pairs};
ghost use Rattle.plain_graph.specs.Refusals.{most_names};
ghost use Rattle.plain_graph.specs.declared.command.Command.TheVariants as commands;
ghost use Rattle.change_parts.specs.Assigning.{ArePlaced, assigned_blocks};
ghost use Rattle.rec_bytes.specs.Format.{properties_file, strings_file};
ghost use Rattle.store_rules.specs.Writes.{WritesAtMost};
ghost use Rattle.change_parts.specs.Change.{IsCounted, IsRefusedBy};
ghost use Rattle.change_parts.specs.ChangeFault.{HasChangeCause, LeavesSpace};
ghost use Rattle.change_parts.specs.Damage.{KeepsButNames};
ghost use Rattle.change_parts.specs.Preparing.{IsLineCause, IsPrepared, NeedForPairs, line_reasons};
ghost use Rattle.change_parts.specs.Rooms.{KeepsElementMetas};
ghost use Rattle.change_parts.specs.Store.{IsMidway};
ghost use Rattle.store_rules.specs.Graph.{graph_in};

use crate::ChangeFault;
use crate::assigning::{Assignment, assign_pairs, reserve_properties};
use arrayvec::ArrayVec;
use name_store::Names;
use plain_graph::{Pair, Text};
use rec_bytes::Space;

/// The names and the properties of a new element.
#[derive(Drop)]
pub struct Prepared {
    /// The number of the label.
    pub label: u32,
    /// Each different key with the pair whose value it gets.
    pub assigned: ArrayVec<Assignment, 33>,
    /// What the properties, their blocks and new names weigh.
    pub weight: u32,
}

/// Gives the label and the keys of the pairs their numbers, and tests whether the new element may
/// have its properties.
pub fn prepare<S: Space>(
    space: &mut S,
    names: &mut Names,
    label: &Text,
    pairs: &[Pair],
) -> Result<Prepared, ChangeFault>
    requires label { IsShortName label.now }
    requires pairs { ArePairs pairs.now }
    ensures prepared { S.tells → IfOk result (λ prepared.
        IsMidway (S.state space.old) names.old.names
        → IsPrepared (S.state space.old) (S.state space.new) names.new.names
        label.now pairs.now prepared) }
    ensures label { IfOk result (λ prepared.
        slice_get names.new.names prepared.label ≡ Some label.now) }
    ensures refused { S.tells → IsMidway (S.state space.old) names.old.names → IfErr result
        (IsRefusedBy line_reasons (S.state space.old).shape.limit (graph_in (S.state space.old))
        (commands.Node label.now pairs.now)) }
    ensures caused { S.tells → IfErr result
        (IsLineCause (S.state space.old) names.old.names label.now pairs.now) }
    ensures caused_after { S.tells → IfErr result
        (IsLineCause (S.state space.new) names.old.names label.now pairs.now) }
    ensures counts { S.tells → IfErr result (IsCounted (S.state space.old)) }
    ensures names_full { (used : List (List ℕ))
        → UsesNames names.old.names (label.now ∷ keys_in pairs.now) used
        → most_names < length used → IsErr result }
    ensures placed { IfOk result (λ prepared. ArePlaced pairs.now prepared.assigned.items) }
    ensures few { IfOk result (λ prepared. length prepared.assigned.items ≤ 32) }
    ensures weight { IfOk result (λ prepared. prepared.weight ≡ length prepared.assigned.items
        + assigned_blocks pairs.now prepared.assigned.items
        + (length names.new.names - length names.old.names)) }
    ensures weighs { IfOk result (λ prepared. prepared.weight
        ≡ properties_weight (with_pairs no_properties pairs.now)
        + (length names.new.names - length names.old.names)) }
    ensures needs { IfOk result (λ prepared.
        NeedForPairs pairs.now properties_file (length prepared.assigned.items)
        × NeedForPairs pairs.now strings_file
        (assigned_blocks pairs.now prepared.assigned.items)) }
    ensures light { IfOk result (λ prepared. prepared.weight ≤ 769) }
    ensures leaves { IfErr result (LeavesSpace (S.state space.old) (S.state space.new)) }
    ensures prefix { (rest : List (List ℕ)) × (names.new.names ≡ names.old.names ++ rest) }
    ensures writes { IfOk result (λ _.
        WritesAtMost (length names.new.names - length names.old.names)
        (S.state space.old) (S.state space.new)) }
    ensures few_writes { WritesAtMost 34 (S.state space.old) (S.state space.new) }
    ensures metas { S.tells → OnOk result
        (KeepsElementMetas (S.state space.old) (S.state space.new)) }
    ensures stays { S.tells
        → OnOk result (KeepsButNames (S.state space.old) (S.state space.new)) }
    ensures onward { S.onward space.old space.new }
    ensures cause { HasChangeCause (S.faults space.old) (S.faults space.new) result }
{
    let known = names.count();
    let label = names.intern(space, label.as_bytes())?;
    let assigned = assign_pairs(space, names, pairs)?;
    let blocks = reserve_properties(space, &assigned, pairs)?;
    let weight = assigned.len() as u32 + blocks + (names.count() - known);
    Ok(Prepared {
        label,
        assigned,
        weight,
    })
}
