ghost use Rattle.std.specs.Prelude.{◌≡◌, ◌≢◌, ◌<◌, ◌≤◌, Some, IfNone, IfSome, [], slice_index_or};
ghost use Rattle.fault_count.specs.Cause.{Rose};
ghost use Rattle.graph_session.specs.Session.{shared_view};
ghost use Rattle.graph_session.specs.SharedConsole.{IsSharedAt};
ghost use Rattle.graph_session.specs.Snapshots.{SharedState};
ghost use Rattle.graph_console.specs.Program.{Writes};
ghost use Rattle.graph_console.specs.Sample.{IsSampleExit, Samples, last_lines, sample_store};
ghost use Rattle.graph_console.specs.Sampling.{Asks, SampledTo};

use crate::Exit;
use crate::program::end_without_memory;
use crate::sample::asking::ask;
use crate::sample::turns::take_turns;
use console_words::SampleOptions;
use disk_model::Disk;
use fault_count::Failed;
use graph_session::Session;
use std::alloc::{AllocError, Global};
use stream_io::Sink;

/// How many lines come after the turns.
const LAST_LINES: u32 = 5;

/// Runs a sample on a store that is empty.
pub(crate) fn run_sample<D: Disk, K: Sink>(
    alloc: Global,
    options: SampleOptions,
    session: &mut Session<'_, D>,
    output: &mut K,
) -> Exit
    ensures samples { IsSharedAt D.Disk (shared_view session.old) (sample_store options) → K.tells
        → Writes (K.taken output.old) (K.taken output.new)
        (Samples D.tells_reads options result) }
    ensures exits { IsSampleExit result }
    ensures cause { result ≡ Exit.OutputFault → Rose (K.faults output.old) (K.faults output.new) }
{
    match take_turns(alloc, options, session) {
        Ok(()) => ask_last_lines(alloc, session, output),
        Err(AllocError) => end_without_memory(output),
    }
}

/// Asks the last lines, and gives their replies to the sink.
fn ask_last_lines<D: Disk, K: Sink>(
    alloc: Global,
    session: &mut Session<'_, D>,
    output: &mut K,
) -> Exit
    ensures samples { (options : SampleOptions)
        → SampledTo D.Disk options [] (shared_view session.old) []
        → K.tells → Writes (K.taken output.old) (K.taken output.new)
        (Samples D.tells_reads options result) }
    ensures exits { IsSampleExit result }
    ensures cause { result ≡ Exit.OutputFault → Rose (K.faults output.old) (K.faults output.new) }
{
    'lines: for index in 0..LAST_LINES {
        if let Some(exit) = ask_aloud(alloc, session, last_line(index), output) {
            return exit;
        }
    }
    Exit::Done
}

/// The line of this number after the turns.
#[tactic(auto, unfolding(crate::specs::Sample::last_lines))]
fn last_line(index: u32) -> &'static [u8]
    requires { index < 5 }
    ensures { result.now ≡ slice_index_or last_lines index [] }
{
    match index {
        0 => b"checkpoint",
        1 => b"reopen",
        2 => b"check",
        3 => b"stats",
        _ => b"g.V().out().dedup().count()",
    }
}

/// Asks a line, gives its reply to the sink, and says how the sample ends if it does.
fn ask_aloud<D: Disk, K: Sink>(
    alloc: Global,
    session: &mut Session<'_, D>,
    line: &[u8],
    output: &mut K,
) -> Option<Exit>
    ensures asks { (state : SharedState)
        → IsSharedAt D.Disk (shared_view session.old) state → K.tells
        → Asks D.Disk line.now state (shared_view session.new)
        (K.taken output.old) (K.taken output.new) result }
    ensures exits { IfSome result (λ exit. (exit ≢ Exit.Done) × IsSampleExit exit) }
    ensures cause { result ≡ Some Exit.OutputFault
        → Rose (K.faults output.old) (K.faults output.new) }
    ensures later { IfNone result (K.faults output.old ≤ K.faults output.new) }
{
    let Ok(reply) = ask(alloc, session, line) else {
        return Some(end_without_memory(output));
    };
    match output.put(reply.taken()) {
        Ok(()) => None,
        Err(Failed) => Some(Exit::OutputFault),
    }
}
