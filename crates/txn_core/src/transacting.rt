ghost use Rattle.std.specs.Prelude.{
  ◌≡◌,
  ◌<◌,
  ◌≤◌,
  [],
  IsOk,
  IsTrue,
  OnErr,
  OnOk,
  false,
  true,
};
ghost use Rattle.rec_bytes.specs.Pairs.{IsOrdered, growth_by, merged};
ghost use Rattle.txn_core.specs.Base.{SameBeneath};
ghost use Rattle.txn_core.specs.Kept.{FitsTransaction};

use crate::base::Base;
use crate::marks::Marks;
use disk_model::Disk;
use rec_bytes::{MOST_WRITES, WriteSet};
use std::alloc::AllocError;

impl<'d, D: Disk> Base<'d, D> {
    // Begins a transaction.
    pub(crate) fn begin(&mut self)
        requires { self.old.in_transaction ≡ false }
        ensures in_transaction { IsTrue self.new.in_transaction }
        ensures own { self.new.own.pairs ≡ [] }
        ensures same { SameBeneath self.old self.new }
    {
        self.in_transaction = true;
    }

    // Takes these records into the open transaction.
    pub(crate) fn keep(&mut self, draft: &WriteSet) -> Result<(), AllocError>
        requires { IsTrue self.old.in_transaction }
        ensures own { OnOk result (self.new.own.pairs ≡ merged self.old.own.pairs draft.now.pairs) }
        ensures refused { OnErr result (self.new.own.pairs ≡ self.old.own.pairs) }
        ensures rising { IsOrdered draft.now.pairs }
        ensures in_transaction { IsTrue self.new.in_transaction }
        ensures same { SameBeneath self.old self.new }
        ensures fits { OnOk result (FitsTransaction self.old.own.pairs draft.now.pairs) }
        ensures succeeds { FitsTransaction self.old.own.pairs draft.now.pairs
            → growth_by self.old.own.pairs draft.now.pairs ≤ self.old.own.room → IsOk result }
    {
        if draft.len() > MOST_WRITES {
            return Err(AllocError);
        }
        let more = self.own.growth_by(draft);
        if more > MOST_WRITES - self.own.len() {
            return Err(AllocError);
        }
        self.own.reserve(more)?;
        self.own.merge(draft);
        self.marks.refresh(draft);
        Ok(())
    }

    // Ends the open transaction; what it has written is dropped.
    pub(crate) fn end(&mut self)
        ensures closed { self.new.in_transaction ≡ false }
        ensures own { self.new.own.pairs ≡ [] }
        ensures same { SameBeneath self.old self.new }
    {
        self.own.clear();
        self.marks = Marks::over(&self.metas, &self.changed, &self.own);
        self.in_transaction = false;
    }
}
