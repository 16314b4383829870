ghost use Rattle.std.specs.Prelude.{◌≡◌, ◌≤◌, ◌∷◌, [], is_some, length};
ghost use Rattle.plain_graph.specs.Lines.{types_of};
ghost use Rattle.rec_bytes.specs.Format.{most_names};
ghost use Rattle.rec_bytes.specs.declared.shape.Shape.{Shape as AShape};
ghost use Rattle.store_rules.specs.Rows.{option_list};
ghost use Rattle.store_rules.specs.Views.{Records};
ghost use Rattle.expand.proofs.ModelEdges.{StandFor};
ghost use Rattle.traversal_run.specs.Naming.{name_count};
ghost use Rattle.traversal_run.specs.Reading.{IsNamedStore};

use name_store::Names;
use plain_graph::Text;
use rec_bytes::{NAMES, Reads};

/// How many names the space has, which are the first of those in memory.
pub(crate) fn name_count<R: Reads>(space: &R, names: &Names) -> u32
    ensures is { IsNamedStore (R.state space.now).records (R.state space.now).shape
        names.now.names → result ≡ name_count (R.state space.now).records }
    ensures among { result ≤ length names.now.names }
    ensures few { result ≤ most_names }
{
    space.meta(NAMES).high.min(names.count())
}

/// The number of a type. Of a type that is no name of the store it is one that no edge has.
pub(crate) fn number_of(names: &Names, label: &Text) -> u32
    ensures { (records : Records) (shape : AShape) → IsNamedStore records shape names.now.names
        → StandFor records (result ∷ []) (label.now ∷ []) }
{
    // The number after the last name's is the type of no edge.
    names.find(label.as_bytes()).unwrap_or(names.count())
}

/// The number of the type that a line names, or none for all types.
pub(crate) fn number_in(names: &Names, label: &Option<Text>) -> Option<u32>
    ensures stands { (records : Records) (shape : AShape)
        → IsNamedStore records shape names.now.names
        → StandFor records (option_list result) (types_of label.now) }
    ensures given { is_some result ≡ is_some label.now }
{
    match label {
        Some(label) => Some(number_of(names, label)),
        None => None,
    }
}
