use crate::call::Call;
use crate::counted::Counted;
use crate::error::RowError;
use crate::spelling::spell;
use name_store::Names;
use plain_graph::{Direction, Hop, Ids, Item, Query, Source, Step, StepList, Texts};
use prop_index::LookupFault;
use std::alloc::Global;
use traversal_run::{Next, Run};

/// The calls of a run.
pub(crate) fn answer(
    alloc: Global,
    run: &mut Option<Box<Run>>,
    space: &mut Counted,
    names: &Names,
    call: &Call,
) -> Result<String, RowError> {
    match (call.verb, call.count()) {
        (b"all", _) => begin(alloc, run, space, names, &[], &call.numbers),
        (b"from", _) => begin(alloc, run, space, names, &[call.at(0)], call.after(1)),
        (b"next", 0) => next(alloc, run, space, names),
        (b"held", 0) => held(alloc, run),
        _ => Err(RowError::Malformed),
    }
}

/// A query of these nodes, or of all, with a step for each number: at most so many results, or,
/// for 0, the nodes at the other ends of edges in both directions.
fn query_of(alloc: Global, ids: &[u32], numbers: &[u32]) -> Result<Query, RowError> {
    let mut steps = Vec::new(alloc);
    for number in numbers {
        steps.push(step_of(alloc, *number))?;
    }
    let ids = Ids::new(Vec::from_slice(alloc, ids)?);
    Ok(Query {
        source: Source::Vertices(ids),
        steps: StepList::new(steps),
        maps: None,
    })
}

fn step_of(alloc: Global, number: u32) -> Step {
    match number {
        0 => Step::Neighbours(Hop {
            direction: Direction::Both,
            labels: Texts::new(Vec::new(alloc)),
        }),
        most => Step::Limit(most),
    }
}

fn begin(
    alloc: Global,
    run: &mut Option<Box<Run>>,
    space: &mut Counted,
    names: &Names,
    ids: &[u32],
    steps: &[u32],
) -> Result<String, RowError> {
    let query = query_of(alloc, ids, steps)?;
    match Run::new(alloc, space, names, &query) {
        Ok(begun) => {
            let count = begun.held();
            *run = Some(Box::new(alloc, begun)?);
            spell(alloc, &count)
        }
        Err(LookupFault::Memory) => Err(RowError::Memory),
        Err(_) => Ok(String::from_str(alloc, "a fault")?),
    }
}

fn held(alloc: Global, run: &Option<Box<Run>>) -> Result<String, RowError> {
    match run {
        Some(run) => spell(alloc, &run.held()),
        None => Err(RowError::Malformed),
    }
}

fn next(
    alloc: Global,
    run: &mut Option<Box<Run>>,
    space: &mut Counted,
    names: &Names,
) -> Result<String, RowError> {
    let Some(run) = run else {
        return Err(RowError::Malformed);
    };
    let text = match run.next(space, names) {
        Next::Item(Item::Vertex(id)) => return spell(alloc, &Some(id)),
        Next::Item(_) => "another item",
        Next::End => "None",
        _ => "a fault",
    };
    Ok(String::from_str(alloc, text)?)
}
