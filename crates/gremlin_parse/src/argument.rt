ghost use Rattle.std.specs.Prelude.{◌≡◌, ◌≤◌, length, IfOk, IfErr};
ghost use Rattle.gremlin_parse.specs.Symbols.{ReadsAll, Leaves, LeavesOne};
ghost use Rattle.gremlin_parse.specs.Arguments.{symbol_of, spaced, ReadsArgument, contents_in};
ghost use Rattle.gremlin_parse.specs.Arguments.{listed};
ghost use Rattle.gremlin_parse.specs.Arguments.{element_word, direction_word, kind_named};
ghost use Rattle.gremlin_parse.specs.Arguments.{direction_named, name_in, number_in, value_in};
ghost use Rattle.gremlin_parse.specs.Values.{value_of};

use crate::direction::read_direction;
use crate::number::read_number;
use crate::parts::{read_gap, read_name};
use crate::stop::Stop;
use crate::target::{TargetWord, read_target};
use crate::value::{WrittenValue, read_value};
use plain_graph::Direction;

/// What a command has at some place after its first word.
#[derive(Clone, Copy)]
pub(crate) enum Argument {
    /// `node` or `edge`.
    Element,
    /// `out`, `in` or `both`.
    Direction,
    Name,
    Number,
    Value,
}

/// What a line has at such a place.
#[derive(Clone, Copy)]
pub(crate) enum Given<'a> {
    Element(TargetWord),
    Direction(Direction),
    Name(&'a [u8]),
    Number(u32),
    Value(WrittenValue<'a>),
}

/// What a line has at its places; 0 stands for those that its command doesn't have.
#[derive(Clone, Copy)]
pub(crate) struct Givens<'a> {
    pub(crate) first: Given<'a>,
    pub(crate) second: Given<'a>,
    pub(crate) third: Given<'a>,
    pub(crate) fourth: Given<'a>,
}

impl<'a> Given<'a> {
    pub(crate) fn element(self) -> TargetWord
        ensures { result ≡ kind_named (element_word self.entry) }
    {
        match self {
            Given::Element(word) => word,
            _ => TargetWord::Edge,
        }
    }

    pub(crate) fn direction(self) -> Direction
        ensures { result ≡ direction_named (direction_word self.entry) }
    {
        match self {
            Given::Direction(direction) => direction,
            _ => Direction::Both,
        }
    }

    pub(crate) fn name(self) -> &'a [u8]
        ensures { result.now ≡ name_in self.entry }
    {
        match self {
            Given::Name(name) => name,
            _ => b"",
        }
    }

    pub(crate) fn number(self) -> u32
        ensures { result ≡ number_in self.entry }
    {
        match self {
            Given::Number(number) => number,
            _ => 0,
        }
    }

    pub(crate) fn value(self) -> WrittenValue<'a>
        ensures { value_of result ≡ value_in self.entry }
    {
        match self {
            Given::Value(value) => value,
            _ => WrittenValue::Int(0),
        }
    }
}

/// The arguments at the head, each after one blank or more, and the bytes after them.
///
/// # Errors
/// The fault of the first argument that does not stand there.
pub(crate) fn read_arguments<'a>(
    bytes: &'a [u8],
    arguments: &[Argument],
) -> Result<(Givens<'a>, &'a [u8]), Stop>
    requires { length arguments.now ≤ 4 }
    ensures ok { IfOk result (λ r.
        ReadsAll (spaced arguments.now) (contents_in arguments.now (listed r.0))
        bytes.now r.1.now) }
    ensures err { IfErr result (LeavesOne (spaced arguments.now) bytes.now) }
{
    let [argument, later @ ..] = arguments else {
        let none = Given::Number(0);
        let givens = Givens {
            first: none,
            second: none,
            third: none,
            fourth: none,
        };
        return Ok((givens, bytes));
    };
    let at_argument = read_gap(bytes)?;
    let (first, after) = read_argument(at_argument, *argument)?;
    let (others, rest) = read_arguments(after, later)?;
    let givens = Givens {
        first,
        second: others.first,
        third: others.second,
        fourth: others.third,
    };
    Ok((givens, rest))
}

/// The argument at the head, and the bytes after it.
///
/// # Errors
/// A fault of syntax if no such argument goes on so, `LongName`, `LongText` and `WideNumber`.
fn read_argument(bytes: &[u8], argument: Argument) -> Result<(Given<'_>, &[u8]), Stop>
    ensures ok { IfOk result (λ r. ReadsArgument argument r.0 bytes.now r.1.now) }
    ensures err { IfErr result (Leaves (symbol_of argument) bytes.now) }
{
    match argument {
        Argument::Element => {
            let (word, rest) = read_target(bytes)?;
            Ok((Given::Element(word), rest))
        }
        Argument::Direction => {
            let (direction, rest) = read_direction(bytes)?;
            Ok((Given::Direction(direction), rest))
        }
        Argument::Name => {
            let (name, rest) = read_name(bytes)?;
            Ok((Given::Name(name), rest))
        }
        Argument::Number => {
            let (number, rest) = read_number(bytes)?;
            Ok((Given::Number(number), rest))
        }
        Argument::Value => {
            let (value, rest) = read_value(bytes)?;
            Ok((Given::Value(value), rest))
        }
    }
}
