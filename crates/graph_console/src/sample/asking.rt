ghost use Rattle.std.specs.Prelude.{◌≡◌, ◌≤◌, [], IfOk};
ghost use Rattle.rec_bytes.specs.Format.{most_writes};
ghost use Rattle.graph_session.specs.SharedConsole.{IsSharedAt};
ghost use Rattle.graph_session.specs.Snapshots.{SharedState};
ghost use Rattle.graph_console.specs.Sample.{tells_failure};
ghost use Rattle.graph_console.specs.Following.{AnswersTapped};
ghost use Rattle.graph_console.specs.Sampling.{AnswersWell};
ghost use Rattle.graph_session.specs.Session.{shared_view};

use crate::sending::sends_what_it_commits;
use disk_model::Disk;
use graph_session::{Session, Turn};
use plain_graph::{disk_fault, no_memory};
use rec_bytes::WriteSet;
use std::alloc::{AllocError, Global};
use stream_io::Page;

/// How many bytes the replies to a line of a sample have room for: each is one line of 128 at most,
/// or the one result of a count and its end.
const REPLY_BYTES: usize = 256;

/// Asks a line, and gives the page of its reply. A page without room is want of memory too, and so
/// is a fault of the disk: it is in memory, and fails only where a file has no room left, to which
/// no line of a sample comes.
pub(crate) fn ask<D: Disk>(
    alloc: Global,
    session: &mut Session<'_, D>,
    line: &[u8],
) -> Result<Page, AllocError>
    ensures { IfOk result (λ page. (state : SharedState)
        → IsSharedAt D.Disk (shared_view session.old) state
        → AnswersWell D.Disk line.now page.taken state (shared_view session.new)) }
{
    let mut page = Page::new(alloc, REPLY_BYTES, Vec::new(alloc))?;
    if let Turn::SinkFault = session.step(line, &mut page) {
        return Err(AllocError);
    }
    if tells_failure(page.taken()) {
        return Err(AllocError);
    }
    Ok(page)
}

/// The same, where the records that the line's transaction wrote are put into a set.
pub(crate) fn ask_tapped<D: Disk>(
    alloc: Global,
    session: &mut Session<'_, D>,
    line: &[u8],
    tap: &mut WriteSet,
) -> Result<Page, AllocError>
    requires empty { tap.old.pairs ≡ [] }
    requires room { most_writes ≤ tap.old.room }
    ensures { IfOk result (λ page. AnswersTapped D.Disk line.now page.taken
        (shared_view session.old) (shared_view session.new) tap.new.pairs) }
{
    sends_what_it_commits::<D, Page>();
    let mut page = Page::new(alloc, REPLY_BYTES, Vec::new(alloc))?;
    if let Turn::SinkFault = session.step_tapped(line, &mut page, tap) {
        return Err(AllocError);
    }
    if tells_failure(page.taken()) {
        return Err(AllocError);
    }
    Ok(page)
}

/// Whether the last line of a reply says that memory lacks or that the disk failed.
#[tactic(auto, unfolding(crate::specs::Sample::tells_failure))]
fn tells_failure(text: &[u8]) -> bool
    ensures { result ≡ tells_failure text.now }
{
    text.ends_with(no_memory()) || text.ends_with(disk_fault())
}
