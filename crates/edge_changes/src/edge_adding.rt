ghost use Rattle.std.specs.Prelude.{◌≡◌, ◌≤◌, ◌<◌, ◌++◌, ◌+◌, ◌-◌, ◌*◌, ◌∷◌, ◌⊎◌, ℕ, List};
ghost use Rattle.std.specs.Prelude.{IfErr, IfOk, IsErr, OnErr, OnOk, length};
ghost use Rattle.plain_graph.specs.Changes.{most_weight, properties_weight, start_weight};
ghost use Rattle.plain_graph.specs.Graph.{UsesNames};
ghost use Rattle.plain_graph.specs.Lines.{HasForm};
ghost use Rattle.plain_graph.specs.Properties.{keys_in, no_properties, with_pairs};
ghost use Rattle.plain_graph.specs.Refusals.{most_names};
ghost use Rattle.plain_graph.specs.Reply.{EdgeMade};
ghost use Rattle.plain_graph.specs.declared.command.Command.TheVariants as commands;
ghost use Rattle.plain_graph.specs.declared.command.Target.TheVariants as targets;
ghost use Rattle.plain_graph.specs.declared.pairs.Pair.{Pair};
ghost use Rattle.rec_bytes.specs.Format.{relationships_file};
ghost use Rattle.rec_bytes.specs.Space.{SameButReads, meta_of};
ghost use Rattle.id_freelist.specs.Taking.{taken_id};
ghost use Rattle.store_rules.specs.Writes.{WritesAtMost};
ghost use Rattle.change_parts.specs.Causes.{IsCaused, IsCausedAfter};
ghost use Rattle.change_parts.specs.Change.{IsCounted, IsRefusal, MakesChange};
ghost use Rattle.change_parts.specs.ChangeFault.{HasChangeCause, LeavesSpace};
ghost use Rattle.edge_changes.specs.EdgeAdding.{BlamesAdded, IsFullOfEdges};
ghost use Rattle.edge_changes.specs.EdgeAdding.{degree_weight, degrees_weight, groups_needed};
ghost use Rattle.edge_changes.specs.EdgeAdding.{HasEndDegree, IsNodeEnd, IsUsedEnd, LeadFrom};
ghost use Rattle.edge_changes.specs.EdgeEnds.{AtEach};
ghost use Rattle.edge_changes.specs.EdgeOpening.{ends_moved};
ghost use Rattle.edge_changes.specs.EdgePlacing.{HadFewGroups, IsEdgeLabelled, IsFirst};
ghost use Rattle.edge_changes.specs.EdgePlacing.{TakesFirst};
ghost use Rattle.change_parts.specs.Degrees.{HasDegree};
ghost use Rattle.change_parts.specs.Owners.{IsAbsent};
ghost use Rattle.change_parts.specs.Store.{IsMidway, IsStore};
ghost use Rattle.store_rules.specs.Graph.{graph_in};

use crate::edge_end::{EndDegree, Ends, Joint};
use crate::edge_placing::{node_degree, put_edge};
use change_parts::{Added, ChangeFault, edge_owner, prepare, put_properties, test_room};
use name_store::Names;
use plain_graph::{Pairs, Text};
use rec_bytes::{RELATIONSHIPS, Reads, Space};

/// Adds an edge with properties, from one node to another or to itself. Of a key that comes twice
/// the last value stands.
pub fn add_edge<S: Space>(
    space: &mut S,
    names: &mut Names,
    from: u32,
    label: &Text,
    to: u32,
    pairs: &Pairs,
) -> Result<Added, ChangeFault>
    requires { HasForm (commands.Edge from label.now to pairs.now) }
    ensures made { S.tells → IfOk result (λ added. IsStore (S.state space.old) names.old.names
        → MakesChange (commands.Edge from label.now to pairs.now) (EdgeMade added.id) added.weight
        (S.state space.old) (S.state space.new) names.new.names) }
    // its identifier is the free one that was given back last, or else the mark
    ensures taken { S.tells → IfOk result (λ added.
        added.id ≡ taken_id (meta_of (S.state space.old) relationships_file)) }
    // the other free ones are free still, and the mark is past it
    ensures free { S.tells → OnOk result (TakesFirst
        (S.state space.old).records (S.state space.new).records relationships_file) }
    // whatever the records are, it is in use, leads from one node to the other, and has the type
    ensures stands { S.tells → IfOk result (λ added. IsEdgeLabelled
        (S.state space.new).records names.new.names added.id from label.now to) }
    ensures refused { S.tells → IsStore (S.state space.old) names.old.names
        → IfErr result (IsRefusal (S.state space.old).shape.limit (graph_in (S.state space.old))
        (commands.Edge from label.now to pairs.now)) }
    ensures caused { S.tells → IfErr result (IsCaused
        (commands.Edge from label.now to pairs.now) (S.state space.old) (S.state space.new)
        names.old.names names.new.names) }
    ensures caused_after { S.tells → IfErr result (IsCausedAfter
        (commands.Edge from label.now to pairs.now) (S.state space.new)
        names.old.names names.new.names) }
    ensures damaged { S.tells → IfErr result
        (BlamesAdded (S.state space.old) (S.state space.new)) }
    // where the file of groups is full, it had room for fewer than an edge may need
    ensures short { S.tells → IfErr result (HadFewGroups (S.state space.old)
        (groups_needed (S.state space.old).shape.threshold)) }
    ensures counts { S.tells → IsStore (S.state space.old) names.old.names
        → IfErr result (IsCounted (S.state space.old)) }
    ensures full { IsStore (S.state space.old) names.old.names
        → IsFullOfEdges (S.state space.old) → IsErr result }
    ensures names_full { (used : List (List ℕ))
        → UsesNames names.old.names (label.now ∷ keys_in pairs.now) used
        → most_names < length used → IsErr result }
    ensures leaves { S.tells → IfErr result (LeavesSpace (S.state space.old) (S.state space.new)) }
    ensures weight { S.tells → (from_degree to_degree : ℕ)
        → HasDegree (S.state space.old).records from from_degree
        → HasDegree (S.state space.old).records to to_degree
        → IfOk result (λ added. added.weight
        ≡ 9 + properties_weight (with_pairs no_properties pairs.now)
        + (length names.new.names - length names.old.names)
        + degrees_weight (S.state space.old).shape.threshold from from_degree to to_degree) }
    // where it stands in the chains of its ends
    ensures first { S.tells → IfOk result (λ added. IsStore (S.state space.old) names.old.names
        → IsFirst (S.state space.new).records added.id from to) }
    ensures light { IfOk result (λ added. added.weight + start_weight ≤ most_weight) }
    ensures prefix { (rest : List (List ℕ)) × (names.new.names ≡ names.old.names ++ rest) }
    ensures writes { IfOk result (λ added.
        WritesAtMost added.weight (S.state space.old) (S.state space.new)) }
    ensures refused_writes { OnErr result (WritesAtMost 1584
        (S.state space.old) (S.state space.new)) }
    ensures onward { S.onward space.old space.new }
    ensures cause { HasChangeCause (S.faults space.old) (S.faults space.new) result }
{
    let pairs = pairs.as_slice();
    let ends = end_degrees(space, from, to)?;
    test_room(space, RELATIONSHIPS, 1)?;
    // What is weighed here bounds what the ends write, whatever the space says later.
    let threshold = space.shape().threshold as u32;
    let prepared = prepare(space, names, label, pairs)?;
    let joint = Joint {
        label: prepared.label,
        threshold,
        ends,
    };
    let moved = ends_weight(joint);
    let id = put_edge(space, joint)?;
    put_properties(space, edge_owner(id), &prepared.assigned, pairs)?;
    Ok(Added {
        id,
        weight: 9 + prepared.weight + moved,
    })
}

/// The ends of an edge from one node to another, as they are before it.
fn end_degrees<R: Reads>(space: &mut R, from: u32, to: u32) -> Result<Ends<EndDegree>, ChangeFault>
    ensures ends { IfOk result (λ ends. LeadFrom ends from to) }
    ensures keys { IfOk result (AtEach IsNodeEnd) }
    ensures found { R.tells → IfOk result (AtEach (HasEndDegree (R.state space.old).records)) }
    ensures used { R.tells → IfOk result (AtEach (IsUsedEnd (R.state space.old))) }
    ensures refused { R.tells → (names : List (List ℕ)) → IsMidway (R.state space.old) names
        → (label : List ℕ) (pairs : List Pair) → IfErr result (IsRefusal
        (R.state space.old).shape.limit (graph_in (R.state space.old))
        (commands.Edge from label to pairs)) }
    ensures absent { R.tells → IfErr result (λ fault.
        IsAbsent (R.state space.old) (targets.Node from) fault
        ⊎ IsAbsent (R.state space.old) (targets.Node to) fault) }
    ensures state { SameButReads (R.state space.old) (R.state space.new) }
    ensures onward { R.onward space.old space.new }
    ensures cause { HasChangeCause (R.faults space.old) (R.faults space.new) result }
{
    let from_degree = node_degree(space, from)?;
    let source = EndDegree {
        node: from,
        degree: from_degree,
    };
    if from == to {
        return Ok(Ends::Loop(source));
    }
    let to_degree = node_degree(space, to)?;
    let target = EndDegree {
        node: to,
        degree: to_degree,
    };
    Ok(Ends::Two { source, target })
}

/// What an end of a new edge weighs, by the degree that it had: where it is the threshold, each of
/// its edges comes into a group.
fn end_weight(threshold: u32, degree: u32) -> u32
    requires { threshold < 65536 }
    ensures is { result ≡ degree_weight threshold degree }
    ensures small { result ≤ 2 * (threshold + 1) }
{
    if degree == threshold {
        2 * (threshold + 1)
    } else {
        0
    }
}

/// What the ends weigh.
fn ends_weight(joint: Joint) -> u32
    requires { joint.threshold < 65536 }
    ensures is { result ≡ ends_moved joint.threshold joint.ends }
    ensures small { result ≤ 4 * (joint.threshold + 1) }
{
    match joint.ends {
        Ends::Loop(end) => end_weight(joint.threshold, end.degree),
        Ends::Two { source, target } => {
            end_weight(joint.threshold, source.degree) + end_weight(joint.threshold, target.degree)
        }
    }
}
