ghost use Rattle.std.specs.Prelude.{OnOk};
ghost use Rattle.graph_session.specs.Session.{shared_view};
ghost use Rattle.graph_session.specs.SharedConsole.{IsSharedAt};
ghost use Rattle.graph_console.specs.Sample.{SampleState, sample_store};
ghost use Rattle.graph_console.specs.Sampling.{TookTurns};

use crate::sample::asking::ask;
use crate::sample::sampler::Sampler;
use console_words::SampleOptions;
use disk_model::Disk;
use graph_session::Session;
use std::alloc::{AllocError, Global};

/// Takes the turns of a sample.
pub(crate) fn take_turns<D: Disk>(
    alloc: Global,
    options: SampleOptions,
    session: &mut Session<'_, D>,
) -> Result<(), AllocError>
    ensures { OnOk result (IsSharedAt D.Disk (shared_view session.old) (sample_store options)
        → (sample : SampleState)
        × TookTurns D.Disk options options.count sample (shared_view session.new)) }
{
    let mut sampler = Sampler::new(alloc, options.seed);
    'turns: for _turn in 0..options.count {
        let line = sampler.next_line();
        let reply = ask(alloc, session, line.as_bytes())?;
        sampler.note(reply.taken())?;
    }
    Ok(())
}
