ghost use Rattle.std.specs.Prelude.{◌≡◌, ◌++◌, [], ◌∷◌, IfOk, IfSome, OnOk, map};
ghost use Rattle.std.specs.List.{cons_option};
ghost use Rattle.plain_graph.specs.Meaning.{Ranked as Place, ranked_if, ranks_below};
ghost use Rattle.plain_graph.specs.Sorting.{sorted};
ghost use Rattle.traversal_run.specs.Kept.{
  number_place,
  number_ranks_below,
  place_of,
  row_ranks_below,
};
ghost use Rattle.traversal_run.specs.declared.kept.Numbered.{Numbered as Number};

use crate::comparing::compare;
use crate::shown::Shown;
use crate::waiting::Waiting;
use plain_graph::{Item, Value};
use std::alloc::{AllocError, Global};
use std::marker::Model;

/// An item with the value that gives its place in an order.
#[derive(Drop)]
pub(crate) struct Ranked {
    pub(crate) rank: Value,
    pub(crate) item: Shown,
}

/// A vertex with the number that gives its place in an order.
#[derive(Clone, Copy)]
pub(crate) struct Numbered {
    rank: i64,
    id: u32,
}

/// Items that are kept to be put into order. As long as they are vertices with numbers, each takes
/// 16 bytes. Contracts see the list of items, each with its rank.
#[derive(Drop)]
pub(crate) struct Kept {
    numbers: Vec<Numbered>,
    others: Vec<Ranked>,
}

impl Model for Kept {
    ghost use Rattle.std.specs.Prelude.{List, ◌++◌, map};
    ghost use Rattle.plain_graph.specs.Meaning.{Ranked as Place};
    ghost use Rattle.traversal_run.specs.Kept.{number_place, place_of};

    ghost Value = { List Place };

    ghost view = { λ k. map number_place k.numbers.items ++ map place_of k.others.items };
}

impl Kept {
    /// No items. It takes no memory.
    pub(crate) fn new(alloc: Global) -> Kept
        ensures { result ≡ [] }
    {
        Kept {
            numbers: Vec::new(alloc),
            others: Vec::new(alloc),
        }
    }

    /// Keeps one more.
    pub(crate) fn push(&mut self, ranked: Ranked) -> Result<(), AllocError>
        ensures { OnOk result (self.new ≡ self.old ++ place_of ranked ∷ []) }
    {
        if self.others.is_empty()
            && let Some(number) = number_of(&ranked)
        {
            self.numbers.push(number)?;
            return Ok(());
        }
        self.others.push(ranked)?;
        Ok(())
    }

    /// Keeps an item that has a rank. One that has none gets no place in the order.
    pub(crate) fn keep(&mut self, rank: Option<Value>, item: Shown) -> Result<(), AllocError>
        ensures { OnOk result (self.new ≡ self.old ++ cons_option (ranked_if rank item) []) }
    {
        match rank {
            Some(rank) => self.push(Ranked { rank, item }),
            None => Ok(()),
        }
    }

    /// Takes all in order. Those of one rank stay in the order in which they came.
    pub(crate) fn take_ordered(
        &mut self,
        alloc: Global,
        descending: bool,
    ) -> Result<Waiting, AllocError>
        ensures { IfOk result (λ items. items
            ≡ map (λ (r : Place). r.item) (sorted (ranks_below descending) self.old)) }
    {
        let numbers = std::mem::replace(&mut self.numbers, Vec::new(alloc));
        let others = std::mem::replace(&mut self.others, Vec::new(alloc));
        if others.is_empty() {
            return order_numbers(alloc, numbers, descending);
        }
        let rows = join(alloc, numbers, others)?;
        order_rows(alloc, rows, descending)
    }
}

/// The vertex and the number of a row that has these.
fn number_of(ranked: &Ranked) -> Option<Numbered>
    ensures { IfSome result (λ number. number_place number ≡ place_of ranked.now) }
{
    match (&ranked.rank, ranked.item.as_item()) {
        (Value::Int(rank), Item::Vertex(id)) => Some(Numbered {
            rank: *rank,
            id: *id,
        }),
        _ => None,
    }
}

/// The vertices in the order of their numbers.
fn order_numbers(
    alloc: Global,
    numbers: Vec<Numbered>,
    descending: bool,
) -> Result<Waiting, AllocError>
    ensures { IfOk result (λ items. items ≡ map (λ (r : Place). r.item)
        (sorted (ranks_below descending) (map number_place numbers.items))) }
{
    let mut ordered = numbers;
    sort_numbers(&mut ordered, descending)?;
    let ids = ids_of(alloc, &ordered)?;
    Ok(Waiting::of_vertices(alloc, ids))
}

/// Puts them in order. Those of one number stay in theirs.
fn sort_numbers(numbers: &mut Vec<Numbered>, descending: bool) -> Result<(), AllocError>
    ensures { OnOk result (numbers.new.items
        ≡ sorted (number_ranks_below descending) numbers.old.items) }
{
    if descending {
        numbers.sort_by(|a, b| b.rank.cmp(&a.rank))?;
        Ok(())
    } else {
        numbers.sort_by(|a, b| a.rank.cmp(&b.rank))?;
        Ok(())
    }
}

/// The vertices without their numbers.
fn ids_of(alloc: Global, numbers: &[Numbered]) -> Result<Vec<u32>, AllocError>
    ensures { IfOk result (λ ids. ids.items ≡ map (λ (n : Number). n.id) numbers.now) }
{
    numbers.iter().map(|number| number.id).collect(alloc)
}

/// The rows of vertices with numbers, and the others after them.
fn join(
    alloc: Global,
    numbers: Vec<Numbered>,
    others: Vec<Ranked>,
) -> Result<Vec<Ranked>, AllocError>
    ensures { IfOk result (λ rows. map place_of rows.items
        ≡ map number_place numbers.items ++ map place_of others.items) }
{
    if numbers.is_empty() {
        return Ok(others);
    }
    let mut rows = rows_of(alloc, &numbers)?;
    let mut later = others;
    rows.append(&mut later)?;
    Ok(rows)
}

/// The same as rows of any items.
fn rows_of(alloc: Global, numbers: &[Numbered]) -> Result<Vec<Ranked>, AllocError>
    ensures { IfOk result (λ rows. map place_of rows.items ≡ map number_place numbers.now) }
{
    let mut rows = Vec::with_capacity(alloc, numbers.len())?;
    for number in numbers {
        rows.push(row_of(number))?;
    }
    Ok(rows)
}

fn row_of(number: &Numbered) -> Ranked
    ensures { place_of result ≡ number_place number.now }
{
    Ranked {
        rank: Value::Int(number.rank),
        item: Shown::vertex(number.id),
    }
}

/// The items of rows in the order of their ranks.
fn order_rows(alloc: Global, rows: Vec<Ranked>, descending: bool) -> Result<Waiting, AllocError>
    ensures { IfOk result (λ items. items ≡ map (λ (r : Place). r.item)
        (sorted (ranks_below descending) (map place_of rows.items))) }
{
    let mut ordered = rows;
    sort(&mut ordered, descending)?;
    items_of(alloc, ordered)
}

/// Puts them in order. Those of one rank stay in theirs.
fn sort(rows: &mut Vec<Ranked>, descending: bool) -> Result<(), AllocError>
    ensures { OnOk result (rows.new.items ≡ sorted (row_ranks_below descending) rows.old.items) }
{
    if descending {
        rows.sort_by(|a, b| compare(&b.rank, &a.rank))?;
        Ok(())
    } else {
        rows.sort_by(|a, b| compare(&a.rank, &b.rank))?;
        Ok(())
    }
}

/// The items without their ranks.
fn items_of(alloc: Global, ordered: Vec<Ranked>) -> Result<Waiting, AllocError>
    ensures { IfOk result (λ items. items
        ≡ map (λ (r : Place). r.item) (map place_of ordered.items)) }
{
    let mut items = Waiting::with_room(alloc, ordered.len())?;
    for ranked in ordered {
        items.push(ranked.item)?;
    }
    Ok(items)
}
