//! An index that is made.

ghost use Rattle.std.specs.Prelude.{◌≡◌, ◌++◌, ◌+◌, ◌-◌, ◌<◌, ◌≤◌, [], ◌∷◌, ℕ, List, IfErr, IfOk};
ghost use Rattle.std.specs.Prelude.{IsErr, OnErr, OnOk, length};
ghost use Rattle.plain_graph.specs.Changes.{most_weight, start_weight};
ghost use Rattle.name_store.specs.Interning.{interned};
ghost use Rattle.plain_graph.specs.Graph.{UsesName, UsesNames};
ghost use Rattle.plain_graph.specs.Lines.{HasForm};
ghost use Rattle.plain_graph.specs.Refusals.{most_names};
ghost use Rattle.plain_graph.specs.Reply.{Done};
ghost use Rattle.plain_graph.specs.declared.command.Command.TheVariants as commands;
ghost use Rattle.rec_bytes.specs.Space.{SameButReads};
ghost use Rattle.store_rules.specs.Writes.{WritesAtMost};
ghost use Rattle.change_parts.specs.Causes.{HasDefinition, IsCaused, IsCausedAfter};
ghost use Rattle.change_parts.specs.Change.{IsCounted, IsRefusal, IsRefusedBy, MakesChange};
ghost use Rattle.change_parts.specs.ChangeFault.{HasChangeCause, LeavesSpace};
ghost use Rattle.change_parts.specs.Damage.{BlamesBroken, BlamesMaking};
ghost use Rattle.node_changes.specs.Indexing.{
  IsNumberOf,
  IsPairOf,
  LacksIndex,
  MayIndex,
  pair_reasons,
};
ghost use Rattle.change_parts.specs.Store.{IsStore};
ghost use Rattle.store_rules.specs.Graph.{graph_in};

use crate::entries::has_pair;
use change_parts::ChangeFault;
use name_store::Names;
use plain_graph::Text;
use prop_index::{IndexPair, indexes, make};
use rec_bytes::{MOST_INDEXES, Reads, Space};
use std::alloc::Global;

/// Makes an index of the nodes of a label by the value of a key, and answers the weight of the
/// change. The label and the key become names.
pub fn index<S: Space>(
    alloc: Global,
    space: &mut S,
    names: &mut Names,
    label: &Text,
    key: &Text,
) -> Result<u32, ChangeFault>
    requires { HasForm (commands.Index label.now key.now) }
    ensures made { S.tells → IfOk result (λ weight. IsStore (S.state space.old) names.old.names
        → MakesChange (commands.Index label.now key.now) Done weight
        (S.state space.old) (S.state space.new) names.new.names) }
    ensures refused { S.tells → IsStore (S.state space.old) names.old.names
        → IfErr result (IsRefusal (S.state space.old).shape.limit (graph_in (S.state space.old))
        (commands.Index label.now key.now)) }
    ensures caused { S.tells → IfErr result (IsCaused (commands.Index label.now key.now)
        (S.state space.old) (S.state space.new) names.old.names names.new.names) }
    ensures caused_after { S.tells → IfErr result (IsCausedAfter (commands.Index label.now key.now)
        (S.state space.new) names.old.names names.new.names) }
    ensures damaged { S.tells → (known : List (List ℕ))
        → UsesName names.old.names label.now known
        → IfErr result (BlamesMaking (S.state space.old)
        (interned (interned (S.state space.old) names.old.names label.now) known key.now)) }
    ensures counts { S.tells → IsStore (S.state space.old) names.old.names
        → IfErr result (IsCounted (S.state space.old)) }
    ensures stands { S.tells → OnOk result (HasDefinition (S.state space.new).records
        names.new.names label.now key.now) }
    ensures names_full { (used : List (List ℕ))
        → UsesNames names.old.names (label.now ∷ key.now ∷ []) used
        → most_names < length used → IsErr result }
    ensures leaves { S.tells → IfErr result (LeavesSpace (S.state space.old) (S.state space.new)) }
    ensures light { IfOk result (λ weight. weight + start_weight ≤ most_weight) }
    ensures prefix { (rest : List (List ℕ)) × (names.new.names ≡ names.old.names ++ rest) }
    ensures writes { IfOk result (λ weight.
        WritesAtMost weight (S.state space.old) (S.state space.new)) }
    ensures refused_writes { OnErr result (WritesAtMost 1039
        (S.state space.old) (S.state space.new)) }
    ensures onward { S.onward space.old space.new }
    ensures cause { HasChangeCause (S.faults space.old) (S.faults space.new) result }
{
    test_pair(alloc, space, names, label, key)?;
    let known = names.count();
    let label = names.intern(space, label.as_bytes())?;
    let key = names.intern(space, key.as_bytes())?;
    let count = make(alloc, space, label, key)?;
    Ok(13 + (names.count() - known) + count)
}

/// Tests that no index has the numbers that the label and the key have, or get as they become
/// names, and that there may be one more. This comes before they become names.
fn test_pair<R: Reads>(
    alloc: Global,
    space: &mut R,
    names: &Names,
    label: &Text,
    key: &Text,
) -> Result<(), ChangeFault>
    ensures may { R.tells → IsStore (R.state space.old) names.now.names
        → OnOk result (MayIndex (R.state space.old) label.now key.now) }
    ensures tested { R.tells → OnOk result
        (LacksIndex (R.state space.old).records names.now.names label.now key.now) }
    ensures refused { R.tells → IsStore (R.state space.old) names.now.names → IfErr result
        (IsRefusedBy pair_reasons (R.state space.old).shape.limit (graph_in (R.state space.old))
        (commands.Index label.now key.now)) }
    ensures caused { R.tells → IfErr result (IsCaused (commands.Index label.now key.now)
        (R.state space.old) (R.state space.new) names.now.names names.now.names) }
    ensures damaged { R.tells → IfErr result (BlamesBroken (R.state space.old)) }
    ensures same { SameButReads (R.state space.old) (R.state space.new) }
    ensures onward { R.onward space.old space.new }
    ensures cause { HasChangeCause (R.faults space.old) (R.faults space.new) result }
{
    let pair = pair_of(names, label, key);
    let listed = indexes(alloc, space)?;
    if has_pair(&listed, pair.label, pair.key) {
        return Err(ChangeFault::IndexThere);
    }
    if listed.len() >= MOST_INDEXES {
        return Err(ChangeFault::TooManyIndexes);
    }
    Ok(())
}

/// The numbers that the label and the key have, or get as they become names.
fn pair_of(names: &Names, label: &Text, key: &Text) -> IndexPair
    ensures { IsPairOf names.now.names label.now key.now result }
{
    let label_number = number_of(names, label);
    let key_number = number_of(names, key);
    if label_number == key_number && label.as_bytes() != key.as_bytes() {
        // Both are new, and the key comes after the label.
        return IndexPair {
            label: label_number,
            key: key_number + 1,
        };
    }
    IndexPair {
        label: label_number,
        key: key_number,
    }
}

/// The number of a text among the names, or the one that it gets if it becomes the next name.
fn number_of(names: &Names, text: &Text) -> u32
    ensures is { IsNumberOf names.now.names text.now result }
    ensures few { result ≤ most_names }
{
    names.find(text.as_bytes()).unwrap_or(names.count())
}
