ghost use Rattle.std.specs.Prelude.{IfOk, IfErr};
ghost use Rattle.gremlin_parse.specs.Commands.{Asks, BadTail, IsPlain, IsSomeTail, IsTail};
ghost use Rattle.gremlin_parse.specs.Commands.{KeepsBounds, KeepsTail, LacksMemory, SpellsAfter};
ghost use Rattle.gremlin_parse.specs.Commands.{StopsAfter};
ghost use Rattle.gremlin_parse.specs.Stopping.{IsStop};

use crate::argument::read_arguments;
use crate::head::{Head, arguments_of, command_of, is_plain, last_part, read_head};
use crate::last::read_last;
use crate::query::read_query;
use crate::stop::Stop;
use plain_graph::Command;
use std::alloc::Global;

/// The command or query that the bytes spell, from its first letter.
///
/// # Errors
/// The leftmost fault, or `Memory`.
pub(crate) fn parse_tail(alloc: Global, bytes: &[u8]) -> Result<Command, Stop>
    ensures ok { IfOk result (λ command. IsTail command bytes.now) }
    ensures bounds { IfOk result (λ command. KeepsTail command bytes.now) }
    ensures err { IfErr result (IsStop IsSomeTail BadTail (LacksMemory bytes.now) bytes.now) }
{
    if bytes.is_empty() {
        return Ok(Command::Blank);
    }
    let (head, rest) = read_head(bytes)?;
    if is_plain(head) {
        return parse_command(alloc, head, rest);
    }
    read_query(alloc, rest)
}

/// The command of the first word, whose arguments and last part follow.
fn parse_command(alloc: Global, head: Head, bytes: &[u8]) -> Result<Command, Stop>
    requires { IsPlain head }
    ensures ok { IfOk result (λ command. SpellsAfter command head bytes.now) }
    ensures bounds { IfOk result KeepsBounds }
    ensures err { IfErr result (StopsAfter head (Asks head) bytes.now) }
{
    let (givens, rest) = read_arguments(bytes, arguments_of(head))?;
    let last = read_last(alloc, rest, last_part(head))?;
    command_of(alloc, head, givens, last)
}
