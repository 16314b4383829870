ghost use Rattle.std.specs.Prelude.{Bool, ◌≡◌, ◌+◌, ◌^◌, ◌<◌, ◌≤◌, true, false, length};
ghost use Rattle.std.specs.Prelude.{IfNone, IfSome};
ghost use Rattle.stream_io.specs.Reading.{HasNoneLeft, IsFresh, used};
ghost use Rattle.graph_session.specs.Console.{Onward};
ghost use Rattle.graph_session.specs.Known.{as_known};
ghost use Rattle.graph_session.specs.Session.{HaveSameDisk, shared_view, view};
ghost use Rattle.graph_session.specs.SharedConsole.{IsSharedAt};
ghost use Rattle.graph_session.specs.Snapshots.{SharedState};
ghost use Rattle.graph_console.specs.AnyDisk.{terms_on};
ghost use Rattle.graph_console.specs.Program.{HasStreamCause, ServesOn, streams, terms_from};
ghost use Rattle.graph_console.specs.Serve.{IsRunExit, Turns, TurnsOver, exit_after_turn};
ghost use Rattle.graph_console.specs.Serve.{exit_at_end, loop};

use crate::Exit;
use disk_model::Disk;
use graph_session::{Health, Session, Turn};
use stream_io::{LineAnswer, LineReader, Sink, Source};

/// Serves the lines of the input.
pub(crate) fn serve<S: Source, K: Sink, D: Disk>(
    reader: &mut LineReader,
    session: &mut Session<'_, D>,
    input: &mut S,
    output: &mut K,
) -> Exit
    requires fresh { IsFresh reader.old }
    ensures serves { (known : Bool) (first : SharedState)
        → IsSharedAt (as_known known D.Disk) (shared_view session.old) first
        → ServesOn S.Source K.Sink (terms_from (as_known known D.Disk) first
        (view session.old).disk (view session.new).disk) result
        (streams input.old output.old) (streams input.new output.new) }
    // From a view that the session has, each line does what the session says over any disk.
    ensures steps { (first : SharedState)
        → IsSharedAt (as_known false D.Disk) (shared_view session.old) first
        → ServesOn S.Source K.Sink
        (terms_on D.Disk (shared_view session.old) (view session.new).disk) result
        (streams input.old output.old) (streams input.new output.new) }
    // At most 2^30 bytes are taken from the input.
    ensures within { S.tells
        → length (S.left input.old) ≤ 2 ^ 30 + length (S.left input.new) }
    ensures exits { IsRunExit result }
    ensures cause { HasStreamCause S.Source K.Sink result
        (streams input.old output.old) (streams input.new output.new) }
    ensures same_disk { HaveSameDisk session.old session.new }
{
    'lines: loop {
        if let Some(exit) = serve_line(reader, session, input, output) {
            return exit;
        }
    }
}

/// Serves the next line of the input, and says how the program ends if it does.
fn serve_line<S: Source, K: Sink, D: Disk>(
    reader: &mut LineReader,
    session: &mut Session<'_, D>,
    input: &mut S,
    output: &mut K,
) -> Option<Exit>
    ensures turns { Turns S.Source K.Sink D.Disk result
        (loop reader.old input.old output.old (shared_view session.old))
        (loop reader.new input.new output.new (shared_view session.new)) }
    ensures steps { TurnsOver S.Source K.Sink D.Disk result
        (loop reader.old input.old output.old (shared_view session.old))
        (loop reader.new input.new output.new (shared_view session.new)) }
    ensures counted { S.tells → reader.new.taken + length (S.left input.new)
        ≡ reader.old.taken + length (S.left input.old) }
    ensures limit { reader.new.taken ≤ 2 ^ 30 }
    ensures stays_ended { reader.new.ended ≡ false → reader.old.ended ≡ false }
    ensures ends_below_limit { reader.old.ended ≡ false → reader.new.ended ≡ true
        → reader.new.taken < 2 ^ 30 }
    ensures none_left { S.tells → HasNoneLeft reader.old (S.left input.old)
        → HasNoneLeft reader.new (S.left input.new) }
    ensures goes_on { IfNone result
        ((used reader.old < used reader.new) × (used reader.new ≤ 2 ^ 30)) }
    ensures exits { IfSome result IsRunExit }
    ensures cause { IfSome result (λ exit.
        HasStreamCause S.Source K.Sink exit
        (streams input.old output.old) (streams input.new output.new)) }
    ensures input_later { S.faults input.old ≤ S.faults input.new }
    ensures output_later { K.faults output.old ≤ K.faults output.new }
    ensures onward { Onward D.Disk (view session.old) (view session.new) }
    ensures same_disk { HaveSameDisk session.old session.new }
{
    match reader.next(input) {
        LineAnswer::Line(line) => {
            let turn = session.step(line, output);
            exit_after_turn(turn, session.health())
        }
        LineAnswer::TooLong => {
            let turn = session.too_long(output);
            exit_after_turn(turn, session.health())
        }
        LineAnswer::End => Some(exit_at_end(session.health())),
        LineAnswer::SourceFault => Some(Exit::InputFault),
        LineAnswer::Exhausted => Some(Exit::InputTooLong),
    }
}

/// How the program ends with this turn, if it does.
fn exit_after_turn(turn: Turn, health: Health) -> Option<Exit>
    ensures { result ≡ exit_after_turn turn health }
{
    match turn {
        Turn::Go => None,
        Turn::Quit => Some(exit_at_end(health)),
        Turn::SinkFault => Some(Exit::OutputFault),
    }
}

/// How the program ends where the run has come to its end.
fn exit_at_end(health: Health) -> Exit
    ensures { result ≡ exit_at_end health }
{
    match health {
        Health::Live => Exit::Done,
        Health::Failed => Exit::StoreFailed,
    }
}
