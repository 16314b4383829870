ghost use Rattle.std.specs.Prelude.{◌≡◌, ◌≤◌};
ghost use Rattle.fault_count.specs.Cause.{Rose};
ghost use Rattle.graph_console.specs.Program.{Writes};
ghost use Rattle.graph_console.specs.Sample.{IsSampleExit, Samples, sample_config};

use crate::Exit;
use crate::program::end_without_memory;
use console_words::SampleOptions;
use disk_model::PlainDisk;
use graph_session::{Config, Session};
use std::alloc::Global;
use stream_io::Sink;

pub(crate) mod asking;
pub(crate) mod generator;
mod last_lines;
mod made;
pub(crate) mod sampler;
mod turns;

/// The program `sample`: it makes a store on a disk in memory, runs generated lines on it, and then
/// some that tell of the whole store, to which it gives the replies.
pub(crate) fn sample<K: Sink>(alloc: Global, options: SampleOptions, output: &mut K) -> Exit
    requires { options.count ≤ 20000 }
    ensures samples { K.tells → Writes (K.taken output.old) (K.taken output.new)
        (Samples (Unit {0}) options result) }
    ensures exits { IsSampleExit result }
    ensures cause { result ≡ Exit.OutputFault → Rose (K.faults output.old) (K.faults output.new) }
{
    // One node or edge a turn at most, and a property of each node: no line is refused for room.
    let Ok(mut disk) = PlainDisk::new(alloc, options.count + 16) else {
        return end_without_memory(output);
    };
    let Ok(mut session) = Session::open(alloc, &mut disk, config_of(options)) else {
        return end_without_memory(output);
    };
    let exit = last_lines::run_sample(alloc, options, &mut session, output);
    let _ = session.close();
    exit
}

/// The store that a sample asks for.
pub(crate) fn config_of(options: SampleOptions) -> Config
    requires { options.count ≤ 20000 }
    ensures { result ≡ sample_config options }
{
    Config {
        threshold: Some(50),
        limit: Some(options.count + 16),
    }
}
