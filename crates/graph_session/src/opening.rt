ghost use Rattle.std.specs.Prelude.{◌≡◌, IfErr, IfOk, true};
ghost use Rattle.rec_bytes.specs.Shape.{is_allowed};
ghost use Rattle.record_file.specs.Redone.{Redoes};
ghost use Rattle.snap_store.specs.Snaps.{no_snapshots};
ghost use Rattle.txn_core.specs.Config.{shape_of};
ghost use Rattle.txn_core.specs.Opening.{Opens as OpensStore};
ghost use Rattle.graph_session.specs.Opening.{IsUnopened, Opens, unloaded};

use crate::line_buffer::LineBuffer;
use crate::{Health, NotOpened, Session};
use disk_model::Disk;
use name_store::load;
use rec_bytes::Fault;
use snap_store::Snaps;
use std::alloc::Global;
use txn_core::{Config, OpenFault, Store};

impl<'d, D: Disk> Session<'d, D> {
    ghost use Rattle.graph_session.specs.Session.{view};

    /// Opens the store of the disk, or makes one where there is none, and reads its names. Where it
    /// can't, the disk is handed back with the reason.
    pub fn open(
        alloc: Global,
        disk: &'d mut D,
        config: Config,
    ) -> Result<Session<'d, D>, NotOpened<'d, D>>
        requires { is_allowed (shape_of config) ≡ true }
        ensures opened { IfOk result (λ session. Opens D.Disk config disk.old (view session)) }
        // No session has a snapshot, and what is read of the disk is what is committed.
        ensures no_snapshots { IfOk result (λ session. session.snaps ≡ no_snapshots) }
        ensures stored { D.tells_reads → IfOk result (λ session.
            Redoes (D.reads (view session).disk) (view session).console.committed) }
        // These are the records of the store that the disk has, or of a new one.
        ensures records { D.tells_reads → IfOk result (λ session.
            OpensStore (D.reads disk.old) config (view session).console.shape
            (view session).console.committed) }
        ensures unopened { IfErr result (λ refusal.
            IsUnopened D.Disk config disk.old refusal.disk.now refusal.why) }
        ensures same_disk { IfOk result (λ session.
            session.store.base.disk.ghost_name ≡ disk.entry.ghost_name) }
        ensures handed_back { IfErr result (λ refusal.
            refusal.disk.ghost_name ≡ disk.entry.ghost_name) }
    {
        let mut store = match Store::open(alloc, disk, config) {
            Ok(store) => store,
            Err(refusal) => return Err(refusal),
        };
        match load(alloc, &mut store) {
            Ok(names) => Ok(Session {
                store,
                names,
                weight: 0,
                health: Health::Live,
                snaps: Snaps::new(alloc),
                buffer: LineBuffer::new(),
                alloc,
            }),
            Err(fault) => Err(NotOpened {
                why: why_of(fault),
                disk: store.close(),
            }),
        }
    }
}

// Why a store is not served whose names are not loaded.
fn why_of(fault: Fault) -> OpenFault
    ensures { result ≡ unloaded fault }
{
    match fault {
        Fault::Memory => OpenFault::Memory,
        Fault::Disk => OpenFault::Disk,
        Fault::Damaged(damage) => OpenFault::Damaged(damage),
    }
}
