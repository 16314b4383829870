ghost use Rattle.std.specs.Prelude.{◌≤◌, [], IfOk};
ghost use Rattle.stored_graph.specs.Stands.{IsZeros};
ghost use Rattle.txn_core.specs.Config.{shape_of};
ghost use Rattle.graph_session.specs.Session.{shared_view};
ghost use Rattle.graph_console.specs.Following.{SendsSample};
ghost use Rattle.graph_console.specs.Sample.{sample_config, sample_store};
ghost use Rattle.graph_console.specs.Sending.{HasSent};

use crate::follow::shipments::Shipments;
use crate::sample::asking::ask_tapped;
use crate::sample::config_of;
use crate::sample::generator::Generator;
use crate::sample::sampler::Sampler;
use crate::sending::sends_what_it_commits;
use console_words::SampleOptions;
use disk_model::Disk;
use graph_session::{NotOpened, Session};
use rec_bytes::{MOST_WRITES, WriteSet};
use std::alloc::{AllocError, Global};
use stream_io::Page;

/// How many a shipment has at most.
const MOST_SHIPPED: usize = 2_047;

/// Makes a store on the disk, and runs the lines of a sample on it: a shipment of each, and the
/// generator as it is then.
pub(crate) fn send_lines<D: Disk>(
    alloc: Global,
    options: SampleOptions,
    disk: &mut D,
) -> Result<(Generator, Shipments), AllocError>
    requires { options.count ≤ 2000 }
    ensures { IfOk result (λ sent. D.tells_reads → IsZeros (D.reads disk.old)
        → SendsSample D.tells_reads options sent.0 sent.1) }
{
    sends_what_it_commits::<D, Page>();
    match Session::open(alloc, disk, config_of(options)) {
        Ok(mut session) => {
            let sent = send_each(alloc, options, &mut session);
            let _ = session.close();
            sent
        }
        Err(
            NotOpened {
                why: _why,
                disk: _handed_back,
            },
        ) => Err(AllocError),
    }
}

/// Runs the lines of a sample, and makes a shipment of each. One that has none for its records is
/// told as want of memory, and so is one that wrote none, though no line of a sample does.
fn send_each<D: Disk>(
    alloc: Global,
    options: SampleOptions,
    session: &mut Session<'_, D>,
) -> Result<(Generator, Shipments), AllocError>
    requires { options.count ≤ 2000 }
    ensures { IfOk result (λ sent. D.tells_reads
        → HasSent D.Disk (shape_of (sample_config options)) [] (shared_view session.old)
        (sample_store options) → SendsSample D.tells_reads options sent.0 sent.1) }
{
    sends_what_it_commits::<D, Page>();
    let mut sampler = Sampler::new(alloc, options.seed);
    let mut shipments = Shipments::new(alloc);
    let mut tap = WriteSet::new(alloc);
    'lines: for _line in 0..options.count {
        let line = sampler.next_line();
        tap.clear();
        tap.reserve(MOST_WRITES)?;
        let reply = ask_tapped(alloc, session, line.as_bytes(), &mut tap)?;
        sampler.note(reply.taken())?;
        if tap.len() == 0 || tap.len() > MOST_SHIPPED {
            return Err(AllocError);
        }
        shipments.add(alloc, &tap)?;
    }
    Ok((sampler.into_generator(), shipments))
}
