ghost use Rattle.std.specs.Prelude.{◌≡◌, IfOk};

use crate::{Direction, Filter, Text, Texts, Value};
use std::alloc::{AllocError, Global};
use std::marker::Model;

/// Edges in a direction, of one of these types, or of any where none is named.
#[derive(Drop)]
pub struct Hop {
    pub direction: Direction,
    pub labels: Texts,
}

impl Hop {
    /// The same edges once more.
    pub fn copy(&self, alloc: Global) -> Result<Hop, AllocError>
        ensures { IfOk result (λ copy. copy ≡ self.now) }
    {
        let labels = self.labels.copy(alloc)?;
        Ok(Hop {
            direction: self.direction,
            labels,
        })
    }
}

/// A step of the body of a repeat.
#[derive(Drop)]
pub enum BodyStep {
    /// The vertices at the other ends of edges.
    Neighbours(Hop),
    /// The elements that pass.
    Filter(Filter),
}

impl BodyStep {
    /// The same step once more.
    pub fn copy(&self, alloc: Global) -> Result<BodyStep, AllocError>
        ensures { IfOk result (λ copy. copy ≡ self.now) }
    {
        match self {
            BodyStep::Neighbours(hop) => {
                let hop = hop.copy(alloc)?;
                Ok(BodyStep::Neighbours(hop))
            }
            BodyStep::Filter(filter) => {
                let filter = filter.copy(alloc)?;
                Ok(BodyStep::Filter(filter))
            }
        }
    }
}

/// A step of a query, as in TinkerPop's Gremlin.
#[derive(Drop)]
pub enum Step {
    /// The vertices at the other ends of edges: `out`, `in`, `both`.
    Neighbours(Hop),
    /// The edges at vertices: `outE`, `inE`, `bothE`.
    Incident(Hop),
    /// The vertices that edges leave.
    OutV,
    /// The vertices that edges enter.
    InV,
    /// The elements that pass: `has`, `hasLabel`.
    Filter(Filter),
    /// The values of these keys, or of all where none is written.
    Values(Texts),
    /// The identifiers.
    Id,
    /// The labels.
    Label,
    /// The results, each once.
    Dedup,
    /// The number of results so far.
    Count,
    /// At most so many results.
    Limit(u32),
    /// The results in order, by a key where one is written.
    Order { key: Option<Text>, descending: bool },
    /// The body so many times.
    Repeat { body: Body, times: u8 },
}

impl Step {
    /// The same step once more.
    pub fn copy(&self, alloc: Global) -> Result<Step, AllocError>
        ensures { IfOk result (λ copy. copy ≡ self.now) }
    {
        match self {
            Step::Neighbours(hop) => {
                let hop = hop.copy(alloc)?;
                Ok(Step::Neighbours(hop))
            }
            Step::Incident(hop) => {
                let hop = hop.copy(alloc)?;
                Ok(Step::Incident(hop))
            }
            Step::OutV => Ok(Step::OutV),
            Step::InV => Ok(Step::InV),
            Step::Filter(filter) => {
                let filter = filter.copy(alloc)?;
                Ok(Step::Filter(filter))
            }
            Step::Values(keys) => {
                let keys = keys.copy(alloc)?;
                Ok(Step::Values(keys))
            }
            Step::Id => Ok(Step::Id),
            Step::Label => Ok(Step::Label),
            Step::Dedup => Ok(Step::Dedup),
            Step::Count => Ok(Step::Count),
            Step::Limit(most) => Ok(Step::Limit(*most)),
            Step::Order { key, descending } => {
                let key = copy_key(alloc, key)?;
                Ok(Step::Order {
                    key,
                    descending: *descending,
                })
            }
            Step::Repeat { body, times } => {
                let body = body.copy(alloc)?;
                Ok(Step::Repeat {
                    body,
                    times: *times,
                })
            }
        }
    }
}

// The key of an order once more, where it has one.
fn copy_key(alloc: Global, key: &Option<Text>) -> Result<Option<Text>, AllocError>
    ensures { IfOk result (λ copy. copy ≡ key.now) }
{
    match key {
        Some(key) => {
            let key = key.copy(alloc)?;
            Ok(Some(key))
        }
        None => Ok(None),
    }
}

/// Steps of a body in the order in which they are done. Contracts see the list of steps.
#[derive(Drop)]
pub struct Body {
    steps: Vec<BodyStep>,
}

impl Model for Body {
    ghost use Rattle.std.specs.Prelude.{List};
    ghost use Rattle.plain_graph.specs.declared.query.BodyStep.{BodyStep};

    ghost Value = { List BodyStep };

    ghost view = { λ s. s.steps.items };
}

impl Body {
    /// These steps.
    pub fn new(steps: Vec<BodyStep>) -> Body
        ensures { result ≡ steps.items }
    {
        Body { steps }
    }

    /// The steps, the first one first.
    pub fn as_slice(&self) -> &[BodyStep]
        ensures { result.now ≡ self.now }
    {
        &self.steps
    }

    /// The same steps once more.
    pub fn copy(&self, alloc: Global) -> Result<Body, AllocError>
        ensures { IfOk result (λ copy. copy ≡ self.now) }
    {
        let steps = copy_body(alloc, &self.steps)?;
        Ok(Body { steps })
    }
}

fn copy_body(alloc: Global, steps: &[BodyStep]) -> Result<Vec<BodyStep>, AllocError>
    ensures { IfOk result (λ copies. copies.items ≡ steps.now) }
{
    let mut copies = Vec::new(alloc);
    for step in steps {
        copies.push(step.copy(alloc)?)?;
    }
    Ok(copies)
}

/// Steps in the order in which they are done. Contracts see the list of steps.
#[derive(Drop)]
pub struct StepList {
    steps: Vec<Step>,
}

impl Model for StepList {
    ghost use Rattle.std.specs.Prelude.{List};
    ghost use Rattle.plain_graph.specs.declared.query.Step.{Step};

    ghost Value = { List Step };

    ghost view = { λ s. s.steps.items };
}

impl StepList {
    /// These steps.
    pub fn new(steps: Vec<Step>) -> StepList
        ensures { result ≡ steps.items }
    {
        StepList { steps }
    }

    /// The steps, the first one first.
    pub fn as_slice(&self) -> &[Step]
        ensures { result.now ≡ self.now }
    {
        &self.steps
    }

    /// The same steps once more.
    pub fn copy(&self, alloc: Global) -> Result<StepList, AllocError>
        ensures { IfOk result (λ copy. copy ≡ self.now) }
    {
        let steps = copy_steps(alloc, &self.steps)?;
        Ok(StepList { steps })
    }
}

fn copy_steps(alloc: Global, steps: &[Step]) -> Result<Vec<Step>, AllocError>
    ensures { IfOk result (λ copies. copies.items ≡ steps.now) }
{
    let mut copies = Vec::new(alloc);
    for step in steps {
        copies.push(step.copy(alloc)?)?;
    }
    Ok(copies)
}

/// Identifiers in the order in which they are written. Contracts see the list of numbers.
#[derive(Drop)]
pub struct Ids {
    ids: Vec<u32>,
}

impl Model for Ids {
    ghost use Rattle.std.specs.Prelude.{List, ℕ};

    ghost Value = { List ℕ };

    ghost view = { λ s. s.ids.items };
}

impl Ids {
    /// These identifiers.
    pub fn new(ids: Vec<u32>) -> Ids
        ensures { result ≡ ids.items }
    {
        Ids { ids }
    }

    /// The identifiers, the first one first.
    pub fn as_slice(&self) -> &[u32]
        ensures { result.now ≡ self.now }
    {
        &self.ids
    }

    /// The same identifiers once more.
    pub fn copy(&self, alloc: Global) -> Result<Ids, AllocError>
        ensures { IfOk result (λ copy. copy ≡ self.now) }
    {
        let mut ids = Vec::new(alloc);
        ids.extend_from_slice(&self.ids)?;
        Ok(Ids { ids })
    }
}

/// What a query begins with.
#[derive(Drop)]
pub enum Source {
    /// The vertices of these identifiers; all where none is written.
    Vertices(Ids),
    /// The edges of these identifiers; all where none is written.
    Edges(Ids),
    /// The nodes of a label whose key has a value, by their index.
    Found {
        label: Text,
        key: Text,
        value: Value,
    },
}

impl Source {
    /// The same beginning once more.
    pub fn copy(&self, alloc: Global) -> Result<Source, AllocError>
        ensures { IfOk result (λ copy. copy ≡ self.now) }
    {
        match self {
            Source::Vertices(ids) => {
                let ids = ids.copy(alloc)?;
                Ok(Source::Vertices(ids))
            }
            Source::Edges(ids) => {
                let ids = ids.copy(alloc)?;
                Ok(Source::Edges(ids))
            }
            Source::Found { label, key, value } => {
                let label = label.copy(alloc)?;
                let key = key.copy(alloc)?;
                let value = value.copy(alloc)?;
                Ok(Source::Found { label, key, value })
            }
        }
    }
}

/// What a query begins with, the steps done with it, and how its results are shown.
#[derive(Drop)]
pub struct Query {
    pub source: Source,
    /// The steps, the first one first.
    pub steps: StepList,
    /// The keys of the maps by which elements are shown, as `elementMap` asks for them: all where
    /// none is written. Where it doesn't ask, results are shown as they are.
    pub maps: Option<Texts>,
}

impl Query {
    /// The same query once more.
    pub fn copy(&self, alloc: Global) -> Result<Query, AllocError>
        ensures { IfOk result (λ copy. copy ≡ self.now) }
    {
        let source = self.source.copy(alloc)?;
        let steps = self.steps.copy(alloc)?;
        let maps = copy_keys(alloc, &self.maps)?;
        Ok(Query {
            source,
            steps,
            maps,
        })
    }
}

// The keys of maps once more, where a query asks for maps.
fn copy_keys(alloc: Global, keys: &Option<Texts>) -> Result<Option<Texts>, AllocError>
    ensures { IfOk result (λ copy. copy ≡ keys.now) }
{
    match keys {
        Some(keys) => {
            let keys = keys.copy(alloc)?;
            Ok(Some(keys))
        }
        None => Ok(None),
    }
}
