ghost use Rattle.std.specs.Prelude.{◌≡◌, ◌≤◌, IfOk};
ghost use Rattle.fault_count.specs.Cause.{Rose};
ghost use Rattle.graph_console.specs.Follow.{EndsFollow, Follows};
ghost use Rattle.graph_console.specs.Program.{Writes};
ghost use Rattle.graph_console.specs.Sample.{IsSampleExit};

use crate::Exit;
use crate::follow::delivering::deliver_all;
use crate::follow::sending::send_lines;
use crate::follow::telling::tell;
use crate::program::{end_with_line, end_without_memory};
use crate::sample::config_of;
use console_words::SampleOptions;
use disk_model::PlainDisk;
use std::alloc::{AllocError, Global};
use stream_io::{Page, Sink};

mod delivered;
mod delivering;
mod sending;
mod shipments;
mod telling;

/// The program `follow`: it runs generated lines on a store in memory, delivers a shipment of each
/// to a follower, in any order and again, and tells what came of it and what the follower has.
pub(crate) fn follow<K: Sink>(alloc: Global, options: SampleOptions, output: &mut K) -> Exit
    requires { options.count ≤ 2000 }
    ensures follows { K.tells → Writes (K.taken output.old) (K.taken output.new)
        (Follows (Unit {0}) options result) }
    ensures exits { IsSampleExit result }
    ensures cause { result ≡ Exit.OutputFault → Rose (K.faults output.old) (K.faults output.new) }
{
    match text_of(alloc, options) {
        Ok(page) => end_with_line(output, page.taken(), Exit::Done),
        Err(AllocError) => end_without_memory(output),
    }
}

/// The text that it writes.
fn text_of(alloc: Global, options: SampleOptions) -> Result<Page, AllocError>
    requires { options.count ≤ 2000 }
    ensures { IfOk result (λ page. EndsFollow (Unit {0}) options page.taken) }
{
    // One node or edge a line at most, and a property of each node: no line is refused for room.
    let mut sender = PlainDisk::new(alloc, options.count + 16)?;
    let (mut generator, shipments) = send_lines(alloc, options, &mut sender)?;
    let mut disk = PlainDisk::new(alloc, options.count + 16)?;
    let config = config_of(options);
    let delivered = deliver_all(alloc, config, &mut generator, &shipments, &mut disk)?;
    tell(alloc, config, delivered, &mut disk)
}
