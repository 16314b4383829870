ghost use Rattle.std.specs.Prelude.{◌≡◌, ◌≢◌, ◌≤◌, IfOk, IfErr};
ghost use Rattle.plain_graph.specs.Lines.{HasForm};
ghost use Rattle.plain_graph.specs.declared.command.Command.{Command};
ghost use Rattle.gremlin_parse.specs.Commands.{NeedsNoMemory};
ghost use Rattle.gremlin_parse.specs.Lines.{BadLine, HasFault, IsLeftmostFault, IsLine};
ghost use Rattle.gremlin_parse.specs.Lines.{NeedsMemory, Spells};
ghost use Rattle.gremlin_parse.specs.Stopping.{IsStop, left_of, fault_of};
ghost use Rattle.gremlin_parse.specs.Tags.{session_named};
ghost use Rattle.gremlin_parse.specs.declared.line_fault.LineFault.{LineFault};

use crate::bad_token::BadToken;
use crate::command::parse_tail;
use crate::parts::skip_blanks;
use crate::stop::Stop;
use crate::tag::read_tag;
use crate::{LineFault, ParsedLine};
use plain_graph::Command;
use std::alloc::Global;

/// The session that the line names, and the command that it spells or its leftmost fault. Memory is
/// asked for by names, by texts, by pairs and by the steps of a query alone.
pub fn parse_line(alloc: Global, line: &[u8]) -> ParsedLine
    // This is the session that the line names, if it names one, whatever stands after that.
    ensures session { result.session ≡ session_named line.now }

    // The line spells this command and no other, and has no fault.
    ensures spelled { IfOk result.command (λ command. Spells line.now command) }
    ensures only { IfOk result.command (λ command.
        (other : Command) → Spells line.now other → other ≡ command) }
    ensures no_fault { IfOk result.command (λ command.
        (fault : LineFault) → ¬ HasFault line.now fault) }
    // Its labels and keys are names of at most 48 bytes, and its values are ones that a store
    // keeps.
    ensures form { IfOk result.command HasForm }

    // The line spells no command, and this is its leftmost fault.
    ensures fault { IfErr result.command (λ fault.
        fault ≢ LineFault.Memory → IsLeftmostFault line.now fault) }
    ensures none { IfErr result.command (λ fault.
        fault ≢ LineFault.Memory → (command : Command) → ¬ Spells line.now command) }
    // A blank line, a command of one word and a deletion never lack memory.
    ensures memory { result.command ≡ Err LineFault.Memory →
        (command : Command) → NeedsNoMemory command → ¬ Spells line.now command }
{
    let (session, read) = read_line(alloc, line);
    match read {
        Ok(command) => ParsedLine {
            session,
            command: Ok(command),
        },
        Err(stop) => ParsedLine {
            session,
            command: Err(fault_of(stop, line.len())),
        },
    }
}

/// The same, with how many bytes are left from the fault on.
fn read_line(alloc: Global, line: &[u8]) -> (Option<u8>, Result<Command, Stop>)
    ensures session { result.0 ≡ session_named line.now }
    ensures spelled { IfOk result.1 (λ command. Spells line.now command) }
    ensures only { IfOk result.1 (λ command.
        (other : Command) → Spells line.now other → other ≡ command) }
    ensures no_fault { IfOk result.1 (λ command.
        (fault : LineFault) → ¬ HasFault line.now fault) }
    ensures err { IfErr result.1 (IsStop IsLine BadLine (NeedsMemory line.now) line.now) }
{
    match read_tag(line) {
        Ok((session, rest)) => (session, parse_tail(alloc, skip_blanks(rest))),
        Err(stop) => (None, Err(stop)),
    }
}

/// The fault of a line of so many bytes, with its place.
fn fault_of(stop: Stop, len: usize) -> LineFault
    requires { left_of stop ≤ len }
    ensures { result ≡ fault_of stop len }
{
    match stop {
        Stop::Memory => LineFault::Memory,
        Stop::Syntax { left } => LineFault::Syntax { at: len - left },
        Stop::Bad { token, left } => match token {
            BadToken::LongName => LineFault::NameLength { at: len - left },
            BadToken::LongText => LineFault::TextLength { at: len - left },
            BadToken::WideNumber => LineFault::NumberRange { at: len - left },
            BadToken::WrongTimes => LineFault::TimesRange { at: len - left },
            BadToken::UnfitStep => LineFault::StepKind { at: len - left },
            BadToken::LateStep => LineFault::TooManySteps { at: len - left },
        },
    }
}
