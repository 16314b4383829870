//! Laws of the definitions. The function does nothing: what it says is its contract.

ghost use Rattle.std.specs.Prelude.{◌≡◌};
ghost use Rattle.disk_model.specs.Contents.{Files};
ghost use Rattle.plain_graph.specs.Graph.{Graph, empty_graph};
ghost use Rattle.rec_bytes.specs.declared.shape.Shape.{Shape};
ghost use Rattle.stored_graph.specs.Stands.{IsZeros, Stands, StandsFor};

/// A content stands for one graph at most.
pub fn stands_for_one_graph()
    // Whatever the shapes are under which it stands for them, two graphs are the same.
    ensures one { (content : Files) (shape other : Shape) (a b : Graph)
        → Stands content shape a → Stands content other b → a ≡ b }
    // What it stands for as a store of the newest version is what it stands for.
    ensures newest { (content : Files) (shape : Shape) (graph : Graph)
        → StandsFor content shape graph → Stands content shape graph }
    // A disk of zeros stands for the empty graph, under every shape.
    ensures zeros { (content : Files) (shape : Shape)
        → IsZeros content → StandsFor content shape empty_graph }
{}
