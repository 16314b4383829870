//! Laws of the definitions. The functions do nothing: what each says is its contract.

ghost use Rattle.std.specs.Prelude.{◌≤◌, ℕ, Option, Some, List};
ghost use Rattle.plain_graph.specs.ElementMaps.{making_text};
ghost use Rattle.plain_graph.specs.Forms.{ArePairs};
ghost use Rattle.plain_graph.specs.Names.{IsShortName};
ghost use Rattle.plain_graph.specs.declared.command.Command.TheVariants as commands;
ghost use Rattle.plain_graph.specs.declared.item.Item.TheVariants as items;
ghost use Rattle.plain_graph.specs.declared.pairs.Pair.{Pair};
ghost use Rattle.gremlin_parse.specs.Grammar.{most_id};
ghost use Rattle.gremlin_parse.specs.Lines.{Spells};

/// What is shown of an element that is viewed is a line that makes it again: a node of its label,
/// or an edge of its type between its nodes, with its pairs.
pub fn views_make_again()
    ensures node { (id : ℕ) (label : List ℕ) (pairs : List Pair)
        → IsShortName label → ArePairs pairs
        → Spells (making_text (items.Vertex id) (record { label = Some label; pairs = pairs }))
        (commands.Node label pairs) }
    ensures edge { (id : ℕ) (label : List ℕ) (from to : ℕ) (shown : Option (List ℕ))
        (pairs : List Pair) → from ≤ most_id → to ≤ most_id
        → IsShortName label → ArePairs pairs
        → Spells (making_text (items.Edge id label from to)
        (record { label = shown; pairs = pairs })) (commands.Edge from label to pairs) }
{}
