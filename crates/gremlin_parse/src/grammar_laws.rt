//! That the table of places makes what the productions of the grammar make. The functions do
//! nothing: what each says is its contract.

ghost use Rattle.std.specs.Prelude.{ℕ, Option, List};
ghost use Rattle.plain_graph.specs.declared.command.Command.{Command};
ghost use Rattle.plain_graph.specs.declared.command.Command.TheVariants as commands;
ghost use Rattle.plain_graph.specs.declared.mutation.Mutation.{Mutation};
ghost use Rattle.plain_graph.specs.declared.query.Query.{Query};
ghost use Rattle.gremlin_parse.specs.Lines.{HasFault, Spells};
ghost use Rattle.gremlin_parse.specs.Productions.{IsProducedLine};
ghost use Rattle.gremlin_parse.specs.declared.line_fault.LineFault.{LineFault};

/// A line spells a query, or one that changes the graph, where the productions of the grammar make
/// it, each step takes what comes to it, and there are at most 32 of them; and only there. Such a
/// line has no fault.
pub fn queries_are_produced()
    ensures queries { (line : List ℕ) (query : Query)
        → Spells line (commands.Query query) → IsProducedLine line (commands.Query query) }
    ensures changes { (line : List ℕ) (reading : Option Query) (mutation : Mutation)
        → Spells line (commands.Mutate reading mutation)
        → IsProducedLine line (commands.Mutate reading mutation) }
    ensures spelled { (line : List ℕ) (command : Command)
        → IsProducedLine line command → Spells line command }
    ensures no_fault { (line : List ℕ) (command : Command) (fault : LineFault)
        → IsProducedLine line command → ¬ HasFault line fault }
{}
