ghost use Rattle.std.specs.Prelude.{◌≡◌, None, IfOk, IfErr};
ghost use Rattle.gremlin_parse.specs.Keywords.{LeavesTable, TakesWord, words_of};
ghost use Rattle.gremlin_parse.specs.Queries.{words_after};
ghost use Rattle.gremlin_parse.specs.Stages.{step_fault};
ghost use Rattle.gremlin_parse.specs.Stopping.{StopsWith};
ghost use Rattle.gremlin_parse.specs.Turns.{LeavesWords};

use crate::keyword::{read_keyword, whole_word};
use crate::stage::{Stage, step_fault};
use crate::stop::Stop;
use plain_graph::Direction;

/// A step without an argument.
#[derive(Clone, Copy)]
pub(crate) enum BareStep {
    OutV,
    InV,
    Id,
    Label,
    Dedup,
    Count,
}

/// A step of a query alone whose arguments are names.
#[derive(Clone, Copy)]
pub(crate) enum NamesStep {
    Incident(Direction),
    Values,
}

/// A step of a query or of a body.
#[derive(Clone, Copy)]
pub(crate) enum BodyWord {
    Neighbours(Direction),
    HasLabel,
    Has,
}

/// A step that changes the graph. `addV` is none of them: it begins a line.
#[derive(Clone, Copy)]
pub(crate) enum ChangeWord {
    AddE,
    Property,
    Drop,
}

/// What the name of a step stands for.
#[derive(Clone, Copy)]
pub(crate) enum StepWord {
    Bare(BareStep),
    Names(NamesStep),
    Body(BodyWord),
    Change(ChangeWord),
    ElementMap,
    Limit,
    Order,
    By,
    Repeat,
}

/// `by`, which may follow an order alone, and the names of steps.
const WORDS: [(&[u8], StepWord); 23] = [
    (b"by", StepWord::By),
    (
        b"out",
        StepWord::Body(BodyWord::Neighbours(Direction::Outgoing)),
    ),
    (
        b"in",
        StepWord::Body(BodyWord::Neighbours(Direction::Incoming)),
    ),
    (
        b"both",
        StepWord::Body(BodyWord::Neighbours(Direction::Both)),
    ),
    (
        b"outE",
        StepWord::Names(NamesStep::Incident(Direction::Outgoing)),
    ),
    (
        b"inE",
        StepWord::Names(NamesStep::Incident(Direction::Incoming)),
    ),
    (
        b"bothE",
        StepWord::Names(NamesStep::Incident(Direction::Both)),
    ),
    (b"values", StepWord::Names(NamesStep::Values)),
    (b"elementMap", StepWord::ElementMap),
    (b"hasLabel", StepWord::Body(BodyWord::HasLabel)),
    (b"has", StepWord::Body(BodyWord::Has)),
    (b"outV", StepWord::Bare(BareStep::OutV)),
    (b"inV", StepWord::Bare(BareStep::InV)),
    (b"id", StepWord::Bare(BareStep::Id)),
    (b"label", StepWord::Bare(BareStep::Label)),
    (b"dedup", StepWord::Bare(BareStep::Dedup)),
    (b"count", StepWord::Bare(BareStep::Count)),
    (b"limit", StepWord::Limit),
    (b"order", StepWord::Order),
    (b"repeat", StepWord::Repeat),
    (b"addE", StepWord::Change(ChangeWord::AddE)),
    (b"property", StepWord::Change(ChangeWord::Property)),
    (b"drop", StepWord::Change(ChangeWord::Drop)),
];

/// The name of a step, or `by` after an order without one, and the bytes after it.
///
/// # Errors
/// A fault of syntax after the longest prefix of such a name, `UnfitStep` and `LateStep`.
pub(crate) fn read_step_word(
    stage: Stage,
    is_ordered: bool,
    bytes: &[u8],
) -> Result<(StepWord, &[u8]), Stop>
    ensures ok { IfOk result (λ r. TakesWord (words_after is_ordered) bytes.now r.0 r.1.now) }
    ensures no_fault { IfOk result (λ r. step_fault stage r.0 bytes.now ≡ None) }
    ensures err { IfErr result (LeavesWords (words_after is_ordered) (step_fault stage) bytes.now) }
{
    match read_keyword(bytes, words_after(is_ordered)) {
        Ok((word, rest)) => match step_fault(stage, word, bytes) {
            Some(token) => Err(Stop::Bad {
                token,
                left: bytes.len(),
            }),
            None => Ok((word, rest)),
        },
        Err(no_word) => Err(stop_at_prefix(stage, is_ordered, no_word, bytes)),
    }
}

/// Why reading stops where the run of letters is no name: at a name that the run begins with, if
/// that has a fault.
fn stop_at_prefix(stage: Stage, is_ordered: bool, no_word: Stop, bytes: &[u8]) -> Stop
    requires { StopsWith (LeavesTable (words_after is_ordered) bytes.now) no_word }
    ensures { LeavesWords (words_after is_ordered) (step_fault stage) bytes.now result }
{
    let Some(word) = whole_word(bytes, words_after(is_ordered)) else {
        return no_word;
    };
    match step_fault(stage, word, bytes) {
        Some(token) => Stop::Bad {
            token,
            left: bytes.len(),
        },
        None => no_word,
    }
}

/// The names that may stand here.
fn words_after(is_ordered: bool) -> &'static [(&'static [u8], StepWord)]
    ensures { words_of result.now ≡ words_after is_ordered }
{
    if is_ordered { &WORDS } else { &WORDS[1..] }
}
