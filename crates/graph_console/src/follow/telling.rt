ghost use Rattle.std.specs.Prelude.{◌≡◌, ◌++◌, IfOk, OnOk, true};
ghost use Rattle.plain_graph.specs.Counts.{counts_of};
ghost use Rattle.plain_graph.specs.Graph.{Graph};
ghost use Rattle.plain_graph.specs.Lines.{counts_text};
ghost use Rattle.plain_graph.specs.Reply.{text_line};
ghost use Rattle.rec_bytes.specs.Shape.{is_allowed};
ghost use Rattle.rec_bytes.specs.declared.shape.Shape.{Shape};
ghost use Rattle.stored_graph.specs.Stands.{Stands};
ghost use Rattle.txn_core.specs.Config.{shape_of};
ghost use Rattle.graph_console.specs.Follow.{delivered_line};

use crate::follow::delivered::Delivered;
use crate::sample::asking::ask;
use disk_model::Disk;
use graph_session::{Config, NotOpened, Session};
use std::alloc::{AllocError, Global};
use stream_io::{Page, Sink};

/// How many bytes there may be: a line of 64 at most, and the reply to `stats`.
const TOLD_BYTES: usize = 320;

/// What came of the deliveries, and the reply to `stats` of a session that is opened on the
/// follower's disk. A text without room is want of memory.
pub(crate) fn tell<D: Disk>(
    alloc: Global,
    config: Config,
    delivered: Delivered,
    disk: &mut D,
) -> Result<Page, AllocError>
    requires { is_allowed (shape_of config) ≡ true }
    ensures { IfOk result (λ page. D.tells_reads → (shape : Shape) (graph : Graph)
        → Stands (D.reads disk.old) shape graph
        → page.taken ≡ delivered_line delivered ++ text_line (counts_text (counts_of graph))) }
{
    let reply = ask_once(alloc, config, disk)?;
    let mut page = Page::new(alloc, TOLD_BYTES, Vec::new(alloc))?;
    put_in(&mut page, delivered.line().as_bytes())?;
    put_in(&mut page, reply.taken())?;
    Ok(page)
}

/// The reply to `stats` of a session that is opened on the disk.
fn ask_once<D: Disk>(alloc: Global, config: Config, disk: &mut D) -> Result<Page, AllocError>
    requires { is_allowed (shape_of config) ≡ true }
    ensures { IfOk result (λ page. D.tells_reads → (shape : Shape) (graph : Graph)
        → Stands (D.reads disk.old) shape graph
        → page.taken ≡ text_line (counts_text (counts_of graph))) }
{
    match Session::open(alloc, disk, config) {
        Ok(mut session) => {
            let reply = ask(alloc, &mut session, b"stats");
            let _ = session.close();
            reply
        }
        Err(
            NotOpened {
                why: _why,
                disk: _handed_back,
            },
        ) => Err(AllocError),
    }
}

/// Puts bytes on a page.
fn put_in(page: &mut Page, bytes: &[u8]) -> Result<(), AllocError>
    ensures { OnOk result (page.new.taken ≡ page.old.taken ++ bytes.now) }
{
    match page.put(bytes) {
        Ok(()) => Ok(()),
        Err(_) => Err(AllocError),
    }
}
