ghost use Rattle.std.specs.Prelude.{◌≡◌, Bool, IfOk, IfErr};
ghost use Rattle.gremlin_parse.specs.Turns.{KeptFrom};
ghost use Rattle.gremlin_parse.specs.Queries.{FirstId, FoundLabel, Quote, Steps, StopsFrom};
ghost use Rattle.gremlin_parse.specs.Queries.{elements_of, opened_source, query_from};
ghost use Rattle.gremlin_parse.specs.Queries.{turn, is_loose, IsKeptQuery, StopsInQuery};

use crate::draft::Draft;
use crate::mutation::{read_change, read_new_vertex};
use crate::parts::skip_blanks;
use crate::source::{SourceKind, read_found, read_ids, read_source};
use crate::step::read_opening;
use crate::step_word::StepWord;
use crate::stop::Stop;
use plain_graph::{Command, Ids, Source};
use std::alloc::Global;

/// The query after its `g`, which may change the graph with its last steps.
///
/// # Errors
/// The leftmost fault, or `Memory`.
pub(crate) fn read_query(alloc: Global, bytes: &[u8]) -> Result<Command, Stop>
    ensures ok { IfOk result (λ command. IsKeptQuery command bytes.now) }
    ensures err { IfErr result (StopsInQuery bytes.now) }
{
    let at_source = skip_blanks(bytes);
    let (kind, rest) = read_source(at_source)?;
    read_from(alloc, kind, rest)
}

/// What is asked of what a query begins with, from its parenthesis to the line's end.
fn read_from(alloc: Global, kind: SourceKind, bytes: &[u8]) -> Result<Command, Stop>
    ensures ok { IfOk result (λ command.
        KeptFrom turn is_loose command (opened_source kind) bytes.now) }
    ensures err { IfErr result (StopsFrom (opened_source kind) bytes.now) }
{
    match kind {
        SourceKind::Vertices => read_elements(alloc, false, bytes),
        SourceKind::Edges => read_elements(alloc, true, bytes),
        SourceKind::NewVertex => {
            let mutation = read_new_vertex(alloc, bytes)?;
            Ok(Command::Mutate {
                reading: None,
                mutation,
            })
        }
        SourceKind::Found => read_found_nodes(alloc, bytes),
    }
}

/// What is asked of vertices or edges, from their identifiers to the line's end.
fn read_elements(alloc: Global, edges: bool, bytes: &[u8]) -> Result<Command, Stop>
    ensures ok { IfOk result (λ command. KeptFrom turn is_loose command (FirstId edges) bytes.now) }
    ensures err { IfErr result (StopsFrom (FirstId edges) bytes.now) }
{
    let (ids, at_steps) = read_ids(alloc, bytes)?;
    read_steps(alloc, elements_of(edges, ids), at_steps)
}

/// The vertices or edges of these identifiers.
fn elements_of(edges: bool, ids: Ids) -> Source
    ensures { result ≡ elements_of edges ids }
{
    if edges {
        Source::Edges(ids)
    } else {
        Source::Vertices(ids)
    }
}

/// What is asked of the nodes that an index finds, from their label to the line's end.
fn read_found_nodes(alloc: Global, bytes: &[u8]) -> Result<Command, Stop>
    ensures ok { IfOk result (λ command.
        KeptFrom turn is_loose command (Quote FoundLabel) bytes.now) }
    ensures err { IfErr result (StopsFrom (Quote FoundLabel) bytes.now) }
{
    let (source, at_steps) = read_found(alloc, bytes)?;
    read_steps(alloc, source, at_steps)
}

/// The steps to the line's end. The first one that changes the graph has a reader of its own, which
/// reads the rest.
fn read_steps(alloc: Global, source: Source, bytes: &[u8]) -> Result<Command, Stop>
    ensures ok { IfOk result (λ command.
        KeptFrom turn is_loose command (Steps (query_from source)) bytes.now) }
    ensures err { IfErr result (StopsFrom (Steps (query_from source)) bytes.now) }
{
    let mut draft = Draft::new(alloc, &source);
    let mut rest = bytes;
    while !rest.is_empty() {
        let stage = draft.stage();
        let (word, at_arguments) = read_opening(stage, draft.is_ordered, rest)?;
        if let StepWord::Change(change) = word {
            let mutation = read_change(alloc, change, stage.steps, at_arguments)?;
            let reading = Some(draft.reading(source));
            return Ok(Command::Mutate { reading, mutation });
        }
        rest = draft.read(alloc, word, at_arguments)?;
    }
    Ok(Command::Query(draft.query(source)))
}
