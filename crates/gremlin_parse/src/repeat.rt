ghost use Rattle.std.specs.Prelude.{◌≡◌, ◌≤◌, ◌<◌, ◌+◌, ◌++◌, ◌∷◌, [], cond, List, ℕ};
ghost use Rattle.std.specs.Prelude.{None, length, IfOk, IfErr, OnOk};
ghost use Rattle.plain_graph.specs.declared.query.BodyStep.{BodyStep};
ghost use Rattle.plain_graph.specs.declared.query.Query.{Query};
ghost use Rattle.plain_graph.specs.declared.query.Step.TheVariants as steps;
ghost use Rattle.gremlin_parse.specs.Keywords.{TakesWord};
ghost use Rattle.gremlin_parse.specs.Queries.{Steps, BodyFirst, BodyName, InBody, AfterBody};
ghost use Rattle.gremlin_parse.specs.Queries.{LeadsTo, StopsFrom, LeavesBoth, with_step};
ghost use Rattle.gremlin_parse.specs.Queries.{body_words, count_before};
ghost use Rattle.gremlin_parse.specs.Stages.{steps_of, step_count, late_fault};
ghost use Rattle.gremlin_parse.specs.Symbols.{ReadsToken};
ghost use Rattle.gremlin_parse.specs.Turns.{LeavesWords};

use crate::keyword::read_keyword;
use crate::number::read_times;
use crate::parts::{read_token, skip_blanks};
use crate::quoted_name::read_either;
use crate::stage::late_word_fault;
use crate::step::read_body_arguments;
use crate::step_word::BodyWord;
use crate::stop::Stop;
use plain_graph::{Body, BodyStep, Direction, Step};
use std::alloc::Global;

const BODY: [(&[u8], BodyWord); 5] = [
    (b"out", BodyWord::Neighbours(Direction::Outgoing)),
    (b"in", BodyWord::Neighbours(Direction::Incoming)),
    (b"both", BodyWord::Neighbours(Direction::Both)),
    (b"hasLabel", BodyWord::HasLabel),
    (b"has", BodyWord::Has),
];

/// The repeat after its opening parenthesis, with so many steps before it, and the bytes after it.
///
/// # Errors
/// A fault of syntax if no repeat goes on so, `LateStep` and `WrongTimes`, another fault of its
/// names and values, or `Memory`.
pub(crate) fn read_repeat(alloc: Global, before: usize, bytes: &[u8]) -> Result<(Step, &[u8]), Stop>
    requires { before < 32 }
    ensures ok { IfOk result (λ r. (query : Query) → steps_of query ≡ before →
        LeadsTo (BodyFirst query) bytes.now (Steps (with_step query r.0)) r.1.now) }
    ensures few { IfOk result (λ r. before + step_count r.0 ≤ 32) }
    ensures within { IfOk result (λ r. length r.1.now ≤ length bytes.now) }
    ensures err { IfErr result (λ stop. (query : Query) → steps_of query ≡ before →
        StopsFrom (BodyFirst query) bytes.now stop) }
{
    let (body, at_dot) = read_body(alloc, before, bytes)?;
    let (times, rest) = read_call_of_times(at_dot)?;
    Ok((Step::Repeat { body, times }, rest))
}

/// The body of a repeat up to the closing parenthesis, and the bytes after it.
fn read_body(alloc: Global, before: usize, bytes: &[u8]) -> Result<(Body, &[u8]), Stop>
    requires { before < 32 }
    ensures ok { IfOk result (λ r. (query : Query) → steps_of query ≡ before →
        LeadsTo (BodyFirst query) bytes.now (AfterBody query r.0) r.1.now) }
    ensures few { IfOk result (λ r. before + 1 + length r.0 ≤ 32) }
    ensures within { IfOk result (λ r. length r.1.now ≤ length bytes.now) }
    ensures err { IfErr result (λ stop. (query : Query) → steps_of query ≡ before →
        StopsFrom (BodyFirst query) bytes.now stop) }
{
    let mut steps = Vec::new(alloc);
    let mut count = before + 1;
    let mut rest = skip_anonymous(bytes)?;
    let mut more = true;
    while more {
        let (step, after_step) = read_body_step(alloc, count, rest)?;
        push_body_step(&mut steps, step)?;
        let (again, after) = read_dot(after_step)?;
        count += 1;
        more = again;
        rest = after;
    }
    Ok((Body::new(steps), rest))
}

/// The bytes after `__` and its dot, where the body begins so, and else all bytes.
fn skip_anonymous(bytes: &[u8]) -> Result<&[u8], Stop>
    ensures ok { IfOk result (λ rest. (query : Query) →
        LeadsTo (BodyFirst query) bytes.now (BodyName query []) rest.now) }
    ensures within { IfOk result (λ rest. length rest.now ≤ length bytes.now) }
    ensures err { IfErr result (λ stop. (query : Query) →
        StopsFrom (BodyFirst query) bytes.now stop) }
{
    let [first, after @ ..] = bytes else {
        return Ok(bytes);
    };
    if *first != b'_' {
        return Ok(bytes);
    }
    let at_dot = read_token(after, b"_")?;
    read_token(at_dot, b".")
}

/// A step of a body, with so many steps before it, and the bytes after it.
fn read_body_step(alloc: Global, before: usize, bytes: &[u8]) -> Result<(BodyStep, &[u8]), Stop>
    ensures ok { IfOk result (λ r. (query : Query) (body : List BodyStep) →
        count_before query body ≡ before →
        LeadsTo (BodyName query body) bytes.now (InBody query (body ++ r.0 ∷ [])) r.1.now) }
    ensures early { IfOk result (λ r. before < 32) }
    ensures within { IfOk result (λ r. length r.1.now ≤ length bytes.now) }
    ensures err { IfErr result (λ stop. (query : Query) (body : List BodyStep) →
        count_before query body ≡ before → StopsFrom (BodyName query body) bytes.now stop) }
{
    let (word, after_name) = read_body_word(before, bytes)?;
    let at_open = skip_blanks(after_name);
    let at_arguments = read_token(at_open, b"(")?;
    read_body_arguments(alloc, word, at_arguments)
}

/// The name of a step of a body, with so many steps before it, and the bytes after it.
fn read_body_word(before: usize, bytes: &[u8]) -> Result<(BodyWord, &[u8]), Stop>
    ensures ok { IfOk result (λ r. TakesWord body_words bytes.now r.0 r.1.now) }
    ensures no_fault { IfOk result (λ r. late_fault before ≡ None) }
    ensures err { IfErr result (LeavesWords body_words (λ _ _. late_fault before) bytes.now) }
{
    if let Some(token) = late_word_fault(before, bytes, &BODY) {
        return Err(Stop::Bad {
            token,
            left: bytes.len(),
        });
    }
    read_keyword(bytes, &BODY)
}

/// Adds the step after the others.
fn push_body_step(steps: &mut Vec<BodyStep>, step: BodyStep) -> Result<(), Stop>
    ensures ok { OnOk result (steps.new.items ≡ steps.old.items ++ step ∷ []) }
    ensures err { IfErr result (λ stop. stop ≡ Stop.Memory) }
{
    steps.push(step)?;
    Ok(())
}

/// Whether a dot stands at the head, and the bytes after it or a closing parenthesis, and after
/// any blanks.
fn read_dot(bytes: &[u8]) -> Result<(bool, &[u8]), Stop>
    ensures ok { IfOk result (λ r. ReadsToken (cond r.0 46 41 ∷ []) bytes.now r.1.now) }
    ensures less { IfOk result (λ r. length r.1.now < length bytes.now) }
    ensures err { IfErr result (LeavesBoth 46 41 bytes.now) }
{
    let (more, rest) = read_either(bytes, b'.', b')')?;
    Ok((more, skip_blanks(rest)))
}

/// The number of times, from the dot after the body to the closing parenthesis, and the bytes
/// after it.
fn read_call_of_times(bytes: &[u8]) -> Result<(u8, &[u8]), Stop>
    ensures ok { IfOk result (λ r. (query : Query) (body : List BodyStep) →
        LeadsTo (AfterBody query body) bytes.now
        (Steps (with_step query (steps.Repeat body r.0))) r.1.now) }
    ensures within { IfOk result (λ r. length r.1.now ≤ length bytes.now) }
    ensures err { IfErr result (λ stop. (query : Query) (body : List BodyStep) →
        StopsFrom (AfterBody query body) bytes.now stop) }
{
    let at_word = read_token(bytes, b".")?;
    let at_open = read_token(at_word, b"times")?;
    let at_number = read_token(at_open, b"(")?;
    let (times, after) = read_times(at_number)?;
    let at_close = skip_blanks(after);
    let rest = read_token(at_close, b")")?;
    Ok((times, rest))
}
