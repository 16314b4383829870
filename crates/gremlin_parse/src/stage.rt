ghost use Rattle.std.specs.Prelude.{◌≡◌, ◌≤◌, ℕ, length, IfSome, IfNone};
ghost use Rattle.gremlin_parse.specs.Keywords.{words_of};
ghost use Rattle.gremlin_parse.specs.Stages.{fits, first_items, is_by, items_after, step_fault};
ghost use Rattle.gremlin_parse.specs.Stages.{added_count, are_elements, late_fault, mapped};
ghost use Rattle.gremlin_parse.specs.Stages.{maps_count, step_count};
ghost use Rattle.gremlin_parse.specs.Turns.{IsBadWord};
ghost use Rattle.gremlin_parse.specs.declared.bad_token.BadToken.{BadToken};

use crate::bad_token::BadToken;
use crate::keyword::whole_word;
use crate::order::has_key;
use crate::step_word::{BareStep, BodyWord, ChangeWord, NamesStep, StepWord};
use plain_graph::{Source, Step, Texts};

/// How many steps a query has at most, with those of its bodies and those that change the graph.
const MOST_STEPS: usize = 32;

/// What comes to a step.
#[derive(Clone, Copy)]
pub(crate) enum Items {
    Vertices,
    Edges,
    Values,
    /// Elements that are shown as maps.
    Maps,
}

/// What comes to a step, and how many steps stand before it.
#[derive(Clone, Copy)]
pub(crate) struct Stage {
    pub(crate) items: Items,
    pub(crate) steps: usize,
}

/// What a query begins with.
pub(crate) fn first_items(source: &Source) -> Items
    ensures { result ≡ first_items source.now }
{
    match source {
        Source::Vertices(_) | Source::Found { .. } => Items::Vertices,
        Source::Edges(_) => Items::Edges,
    }
}

/// What comes to the next step: where maps are asked for, elements are maps.
pub(crate) fn mapped(maps: &Option<Texts>, items: Items) -> Items
    ensures { result ≡ mapped maps.now items }
{
    match maps {
        Some(_) if are_elements(items) => Items::Maps,
        _ => items,
    }
}

/// How many steps ask for maps.
pub(crate) fn maps_count(maps: &Option<Texts>) -> usize
    ensures { result ≡ maps_count maps.now }
{
    match maps {
        Some(_) => 1,
        None => 0,
    }
}

/// Whether they are vertices or edges.
pub(crate) fn are_elements(items: Items) -> bool
    ensures { result ≡ are_elements items }
{
    matches!(items, Items::Vertices | Items::Edges)
}

/// What the step gives where these items come to it.
pub(crate) fn items_after(items: Items, step: &Step) -> Items
    ensures { result ≡ items_after items step.now }
{
    match step {
        Step::Neighbours(_) | Step::OutV | Step::InV | Step::Repeat { .. } => Items::Vertices,
        Step::Incident(_) => Items::Edges,
        Step::Values(_) | Step::Id | Step::Label | Step::Count => Items::Values,
        Step::Filter(_) | Step::Dedup | Step::Limit(_) | Step::Order { .. } => items,
    }
}

/// How many steps the step of this word adds to the others. A `by` adds none, since its order
/// counts already.
pub(crate) fn added_count(word: StepWord, step: &Step) -> usize
    requires { added_count word step.now ≤ 32 }
    ensures { result ≡ added_count word step.now }
{
    if is_by(word) { 0 } else { step_count(step) }
}

/// How many steps the step counts: a repeat, and each step of its body.
fn step_count(step: &Step) -> usize
    requires { step_count step.now ≤ 32 }
    ensures { result ≡ step_count step.now }
{
    match step {
        Step::Repeat { body, .. } => 1 + body.as_slice().len(),
        _ => 1,
    }
}

/// The fault that the name of the step, with which the bytes begin, has here, if any.
pub(crate) fn step_fault(stage: Stage, word: StepWord, bytes: &[u8]) -> Option<BadToken>
    ensures { result ≡ step_fault stage word bytes.now }
{
    if is_by(word) {
        return None;
    }
    if !fits(stage.items, word, bytes) {
        return Some(BadToken::UnfitStep);
    }
    late_fault(stage.steps)
}

/// The fault of the name of a step with so many steps before it, if any.
pub(crate) fn late_fault(before: usize) -> Option<BadToken>
    ensures { result ≡ late_fault before }
{
    if before < MOST_STEPS {
        None
    } else {
        Some(BadToken::LateStep)
    }
}

/// The same of the word of the table that stands whole at the head.
pub(crate) fn late_word_fault<K: Copy>(
    before: usize,
    bytes: &[u8],
    table: &[(&[u8], K)],
) -> Option<BadToken>
    ensures some { IfSome result (λ kind. IsBadWord (words_of table.now)
        (λ _ _. late_fault before) kind (length bytes.now) bytes.now) }
    ensures none { IfNone result ((kind : BadToken) (place : ℕ) → ¬ IsBadWord
        (words_of table.now) (λ _ _. late_fault before) kind place bytes.now) }
{
    let token = late_fault(before)?;
    whole_word(bytes, table)?;
    Some(token)
}

/// Whether it is `by`, which is no step: it belongs to the order before it.
pub(crate) fn is_by(word: StepWord) -> bool
    ensures { result ≡ is_by word }
{
    matches!(word, StepWord::By)
}

/// Whether the step, with whose name the bytes begin, may be done with these items.
fn fits(items: Items, word: StepWord, bytes: &[u8]) -> bool
    ensures { result ≡ fits items word bytes.now }
{
    match word {
        StepWord::Body(BodyWord::Neighbours(_))
        | StepWord::Names(NamesStep::Incident(_))
        | StepWord::Change(ChangeWord::AddE)
        | StepWord::Repeat => matches!(items, Items::Vertices),
        StepWord::Bare(BareStep::OutV | BareStep::InV) => matches!(items, Items::Edges),
        StepWord::Body(BodyWord::HasLabel | BodyWord::Has)
        | StepWord::Names(NamesStep::Values)
        | StepWord::ElementMap
        | StepWord::Bare(BareStep::Id | BareStep::Label)
        | StepWord::Change(ChangeWord::Property | ChangeWord::Drop) => are_elements(items),
        StepWord::Bare(BareStep::Count) | StepWord::Limit | StepWord::By => true,
        StepWord::Bare(BareStep::Dedup) => !matches!(items, Items::Maps),
        StepWord::Order => fits_order(items, bytes),
    }
}

/// Whether an order, with whose name the bytes begin, may be done with these items.
fn fits_order(items: Items, bytes: &[u8]) -> bool
    ensures { result ≡ fits items StepWord.Order bytes.now }
{
    if has_key(bytes) {
        return are_elements(items);
    }
    !matches!(items, Items::Maps)
}
