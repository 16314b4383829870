//! The set that takes what a line's transaction has written.

ghost use Rattle.graph_session.specs.Tapping.{HasRoom, HasWritten, IsEmpty, Takes};

use crate::Session;
use disk_model::Disk;
use rec_bytes::WriteSet;

impl<'d, D: Disk> Session<'d, D> {
    ghost use Rattle.graph_session.specs.Session.{view};

    /// Puts what the open transaction has written into the set, if there is one.
    pub(crate) fn fill(&self, tap: &mut Option<WriteSet>)
        requires { HasRoom tap.old }
        ensures { Takes (HasWritten (view self.now).console) tap.old tap.new }
    {
        if let Some(set) = tap {
            self.store.tap(set);
        }
    }
}

/// Takes all out of the set, if there is one.
pub(crate) fn forget(tap: &mut Option<WriteSet>)
    ensures { Takes IsEmpty tap.old tap.new }
{
    if let Some(set) = tap {
        set.clear();
    }
}
