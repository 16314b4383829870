ghost use Rattle.std.specs.Prelude.{◌≡◌, false, IfOk, IfErr};
ghost use Rattle.std.specs.List.{AllByRecursion};
ghost use Rattle.gremlin_parse.specs.Grammar.{IsBounded, IsMadeOf, name_to_end};
ghost use Rattle.gremlin_parse.specs.Stopping.{IsOneOf, BadInOne, IsStop};
ghost use Rattle.gremlin_parse.specs.Lasts.{is_query, last_content, last_parts, LastIs, SomeLast};
ghost use Rattle.gremlin_parse.specs.Lasts.{BadInLast, Lacks, now_of};

use crate::pair::read_pairs;
use crate::parts::{copy_name, read_end, read_gap, read_name, skip_blanks};
use crate::stop::Stop;
use crate::viewed::{Viewed, read_viewed};
use plain_graph::{Pairs, Text};
use std::alloc::Global;

/// What stands after a command's arguments, to the line's end.
#[derive(Clone, Copy)]
pub(crate) enum LastPart {
    /// Nothing but blanks.
    End,
    Pairs,
    /// A name or none.
    MaybeName,
    /// What is viewed.
    Viewed,
    Query,
}

/// What a line has there: no pairs and no name where its command has none, and names where it views
/// nothing.
#[derive(Drop)]
pub(crate) struct Last<'a> {
    pub(crate) pairs: Pairs,
    pub(crate) name: Option<&'a [u8]>,
    pub(crate) viewed: Viewed,
}

/// What stands last, to the line's end.
///
/// # Errors
/// The leftmost fault, or `Memory` for pairs.
pub(crate) fn read_last(alloc: Global, bytes: &[u8], kind: LastPart) -> Result<Last<'_>, Stop>
    requires { is_query kind ≡ false }
    ensures ok { IfOk result (λ last. LastIs kind (last_content kind last) bytes.now) }
    ensures bounds { IfOk result (λ last.
        AllByRecursion IsBounded (last_parts kind (last_content kind last))) }
    ensures err { IfErr result (IsStop (SomeLast kind) (BadInLast kind) (Lacks kind) bytes.now) }
{
    match kind {
        LastPart::End => {
            read_end(skip_blanks(bytes))?;
            Ok(nothing(alloc))
        }
        LastPart::Pairs => {
            let pairs = read_pairs(alloc, bytes)?;
            let none = nothing(alloc);
            Ok(Last { pairs, ..none })
        }
        LastPart::MaybeName => {
            let name = read_last_name(bytes)?;
            let none = nothing(alloc);
            Ok(Last { name, ..none })
        }
        LastPart::Viewed => {
            let viewed = read_viewed(bytes)?;
            let none = nothing(alloc);
            Ok(Last { viewed, ..none })
        }
        LastPart::Query => unreachable!(),
    }
}

/// What stands where there is nothing but blanks.
fn nothing<'a>(alloc: Global) -> Last<'a> {
    Last {
        pairs: Pairs::new(Vec::new(alloc)),
        name: None,
        viewed: Viewed::Names,
    }
}

/// The name once more, or none.
pub(crate) fn copy_last_name(alloc: Global, name: Option<&[u8]>) -> Result<Option<Text>, Stop>
    ensures ok { IfOk result (λ text. text ≡ now_of name.entry) }
    ensures err { IfErr result (λ stop. stop ≡ Stop.Memory) }
{
    match name {
        Some(name) => {
            let text = copy_name(alloc, name)?;
            Ok(Some(text))
        }
        None => Ok(None),
    }
}

/// The name after one blank or more, or none, to the line's end.
///
/// # Errors
/// A fault of syntax if another thing stands there, and `LongName`.
fn read_last_name(bytes: &[u8]) -> Result<Option<&[u8]>, Stop>
    ensures ok { IfOk result (λ name. IsMadeOf (name_to_end (now_of name)) bytes.now) }
    ensures bounds { IfOk result (λ name. AllByRecursion IsBounded (name_to_end (now_of name))) }
    ensures err { IfErr result (IsStop (IsOneOf name_to_end) (BadInOne name_to_end) ⊥ bytes.now) }
{
    if skip_blanks(bytes).is_empty() {
        return Ok(None);
    }
    let at_name = read_gap(bytes)?;
    let (name, rest) = read_name(at_name)?;
    read_end(skip_blanks(rest))?;
    Ok(Some(name))
}
