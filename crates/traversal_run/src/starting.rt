ghost use Rattle.std.specs.Prelude.{◌≡◌, ◌++◌, [], ◌∷◌, IfOk, OnOk, map};
ghost use Rattle.traversal_run.specs.Starting.{
  body_row,
  each,
  fresh,
  repeat_rows,
  rows_of,
  rows_of_step,
};

use crate::counter::Counter;
use crate::kept::Kept;
use crate::mapping::Mapping;
use crate::row::Row;
use crate::seen::Seen;
use crate::sought::Sought;
use crate::stage::Stage;
use crate::text_set::distinct_texts;
use crate::waiting::Waiting;
use plain_graph::{BodyStep, Hop, Step, Text, Texts};
use std::alloc::{AllocError, Global};

/// The rows of steps with which a run begins. A repeat is written out.
pub(crate) fn rows_of(alloc: Global, steps: &[Step]) -> Result<Vec<Row>, AllocError>
    ensures { IfOk result (λ rows. rows.items ≡ rows_of steps.now) }
{
    let mut rows = Vec::new(alloc);
    for step in steps {
        push_step(alloc, &mut rows, step)?;
    }
    Ok(rows)
}

/// Puts the rows of a step after the others.
fn push_step(alloc: Global, rows: &mut Vec<Row>, step: &Step) -> Result<(), AllocError>
    ensures { OnOk result (rows.new.items ≡ rows.old.items ++ rows_of_step step.now) }
{
    match step {
        Step::Repeat { body, times } => push_repeat(alloc, rows, body.as_slice(), *times),
        Step::Neighbours(hop) => {
            let hop = copy_hop(alloc, hop)?;
            push_each(alloc, rows, Mapping::Neighbours(Sought::new(hop)))
        }
        Step::Incident(hop) => {
            let hop = copy_hop(alloc, hop)?;
            push_each(alloc, rows, Mapping::Incident(Sought::new(hop)))
        }
        Step::Filter(filter) => {
            let filter = filter.copy(alloc)?;
            push_each(alloc, rows, Mapping::Filter(Sought::new(filter)))
        }
        Step::Values(keys) => {
            let keys = distinct_texts(alloc, keys.as_slice())?;
            push_each(alloc, rows, Mapping::Values(Sought::new(Texts::new(keys))))
        }
        Step::OutV => push_each(alloc, rows, Mapping::OutV),
        Step::InV => push_each(alloc, rows, Mapping::InV),
        Step::Id => push_each(alloc, rows, Mapping::Id),
        Step::Label => push_each(alloc, rows, Mapping::Label),
        Step::Dedup => {
            let seen = Seen::new(alloc);
            push_fresh(alloc, rows, Stage::Dedup { seen })
        }
        Step::Count => {
            let so_far = Counter::new();
            push_fresh(
                alloc,
                rows,
                Stage::Count {
                    so_far,
                    given: false,
                },
            )
        }
        Step::Limit(most) => push_fresh(alloc, rows, Stage::Limit { left: *most }),
        Step::Order { key, descending } => {
            let key = copy_key(alloc, key)?;
            let kept = Kept::new(alloc);
            push_fresh(
                alloc,
                rows,
                Stage::Order {
                    key: Sought::new(key),
                    descending: *descending,
                    kept,
                    given: false,
                },
            )
        }
    }
}

/// Puts a step that makes of each item what that item alone gives after the others.
fn push_each(alloc: Global, rows: &mut Vec<Row>, mapping: Mapping) -> Result<(), AllocError>
    ensures { OnOk result (rows.new.items ≡ rows.old.items ++ each mapping ∷ []) }
{
    push_fresh(alloc, rows, Stage::Mapped(mapping))
}

/// Puts a step to which no item has come after the others.
fn push_fresh(alloc: Global, rows: &mut Vec<Row>, stage: Stage) -> Result<(), AllocError>
    ensures { OnOk result (rows.new.items ≡ rows.old.items ++ fresh stage ∷ []) }
{
    let waiting = Waiting::new(alloc);
    rows.push(Row { stage, waiting })?;
    Ok(())
}

/// Puts the rows of a body so many times.
#[tactic(auto, using(crate::proofs::Begins::repeat_more))]
fn push_repeat(
    alloc: Global,
    rows: &mut Vec<Row>,
    body: &[BodyStep],
    times: u8,
) -> Result<(), AllocError>
    ensures { OnOk result (rows.new.items
        ≡ rows.old.items ++ repeat_rows times (map body_row body.now)) }
{
    for _ in 0..times {
        push_body(alloc, rows, body)?;
    }
    Ok(())
}

fn push_body(alloc: Global, rows: &mut Vec<Row>, body: &[BodyStep]) -> Result<(), AllocError>
    ensures { OnOk result (rows.new.items ≡ rows.old.items ++ map body_row body.now) }
{
    for step in body {
        push_body_step(alloc, rows, step)?;
    }
    Ok(())
}

fn push_body_step(alloc: Global, rows: &mut Vec<Row>, step: &BodyStep) -> Result<(), AllocError>
    ensures { OnOk result (rows.new.items ≡ rows.old.items ++ body_row step.now ∷ []) }
{
    match step {
        BodyStep::Neighbours(hop) => {
            let hop = copy_hop(alloc, hop)?;
            push_each(alloc, rows, Mapping::Neighbours(Sought::new(hop)))
        }
        BodyStep::Filter(filter) => {
            let filter = filter.copy(alloc)?;
            push_each(alloc, rows, Mapping::Filter(Sought::new(filter)))
        }
    }
}

/// The same hop once more.
fn copy_hop(alloc: Global, hop: &Hop) -> Result<Hop, AllocError>
    ensures { IfOk result (λ copy. copy ≡ hop.now) }
{
    let labels = hop.labels.copy(alloc)?;
    Ok(Hop {
        direction: hop.direction,
        labels,
    })
}

/// The same key once more, where one is written.
fn copy_key(alloc: Global, key: &Option<Text>) -> Result<Option<Text>, AllocError>
    ensures { IfOk result (λ copy. copy ≡ key.now) }
{
    match key {
        Some(text) => {
            let text = text.copy(alloc)?;
            Ok(Some(text))
        }
        None => Ok(None),
    }
}
