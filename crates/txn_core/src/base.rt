ghost use Rattle.std.specs.Prelude.{◌≡◌, IsTrue, true};
ghost use Rattle.rec_bytes.specs.Shape.{is_allowed};
ghost use Rattle.txn_core.specs.Kept.{AreBounded, IsKept, kept_pages};
ghost use Rattle.txn_core.specs.Marks.{AreMarks};
ghost use Rattle.txn_core.specs.Unique.{AreBounded-prop, AreMarks-prop, IsCached-prop, IsKept-prop};
ghost use Rattle.page_cache.specs.Pages.{Agrees};

use crate::marks::Marks;
use disk_model::Disk;
use page_cache::PageCache;
use rec_bytes::{Shape, WriteSet};
use record_file::MetaFile;

/// How many pages of records are kept.
pub(crate) const KEPT_PAGES: usize = 256;

/// What lies beneath the draft of a store: its disk, and in memory the pages of it that were used
/// last, the meta records as the files have them, the records changed since the last checkpoint,
/// and those that the open transaction has written.
#[derive(Drop)]
pub struct Base<'d, D: Disk> {
    pub(crate) disk: &'d mut D,
    pub(crate) cache: PageCache,
    pub(crate) shape: Shape,
    pub(crate) metas: MetaFile,
    pub(crate) changed: WriteSet,
    pub(crate) own: WriteSet,
    /// What the meta records say, as the open transaction has them.
    pub(crate) marks: Marks,
    /// Where the log ends.
    pub(crate) tail: u64,
    pub(crate) live: bool,
    /// Whether a transaction is open.
    pub(crate) in_transaction: bool,
    ghost allowed: { is_allowed shape ≡ true },
    ghost room: { cache.cap ≡ kept_pages },

    // Each record of a kept page is what is read.
    ghost cached: { D.tells_reads
        → Agrees (D.reads disk.now) cache } by { IsCached-prop D.Disk disk.now cache },
    ghost bounded: { AreBounded in_transaction changed own } by { AreBounded-prop in_transaction
        changed own },
    ghost marked: { AreMarks metas.records changed.pairs own.pairs
        marks.of_files } by { AreMarks-prop metas.records changed.pairs own.pairs marks.of_files },

    // While the store is live, its log is what is read, and each image is that but for the changed
    // records.
    ghost kept: { IsTrue live
        → IsKept D.Disk disk.now metas.records changed.pairs tail } by { IsKept-prop D.Disk disk.now
            metas.records changed.pairs tail live },
}

impl<'d, D: Disk> Base<'d, D> {
    // Hands the disk back.
    pub(crate) fn into_disk(self) -> &'d mut D
        ensures same_disk { result.ghost_name ≡ self.entry.disk.ghost_name }
        ensures disk { result.now ≡ self.entry.disk.now }
    {
        let Base {
            disk,
            cache: _,
            shape: _,
            metas: _,
            changed: _,
            own: _,
            marks: _,
            tail: _,
            live: _,
            in_transaction: _,
        } = self;
        disk
    }
}
