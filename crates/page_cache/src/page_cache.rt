ghost use Rattle.std.specs.Prelude.{◌≡◌, ◌≤◌, ◌*◌, ℕ, Bool, List, Contains, IfOk, IsOk, IsSome};
ghost use Rattle.std.specs.Prelude.{IsTrue, OnErr, OnOk, false, is_some, length, max, None};
ghost use Rattle.fault_count.specs.Cause.{HasCause};
ghost use Rattle.disk_model.specs.Contents.{Files};
ghost use Rattle.disk_model.specs.Spans.{OnlyReads};
ghost use Rattle.rec_bytes.specs.Key.{IsKey};
ghost use Rattle.record_file.specs.Records.{KeepsOthers, SameButRecord, record_at};
ghost use Rattle.page_cache.specs.Pages.{Agrees, IsUsed, KeepsPage, kept_page, no_pages, page_of};
ghost use Rattle.page_cache.specs.Pages.{with_page, without_file, without_page, without_pages};
ghost use Rattle.page_cache.specs.Staying.{StayKept};

use crate::last_pages::LastPages;
use crate::page::{Page, PageKey};
use disk_model::Disk;
use lru::LruCache;
use rec_bytes::{DiskFault, Key, Rec, WriteSet};
use record_file::read_record;
use std::alloc::{AllocError, Global};
use std::marker::Model;
use std::num::NonZeroUsize;

/// The pages that were used last, in a list. Contracts see their bytes, as they were read, and of
/// each file the number of the page that is known as the one used last.
#[derive(Drop)]
pub struct PageCache {
    pages: LruCache<PageKey, Page>,
    // Of each file the page that was used last, where it is among the pages: the first of the list
    // that is of this file.
    last: LastPages,
    // The memory of a page that went, for the next one.
    spare: Option<Page>,
    alloc: Global,
}

impl Model for PageCache {
    ghost use Rattle.page_cache.specs.Pages.{Pages};
    ghost use Rattle.page_cache.specs.LastPages.{AreFirst, seen};

    ghost Value = { Pages };

    ghost view = { λ c. seen c.pages c.last.files };

    ghost invariant = { λ c. AreFirst c.last.files c.pages };
}

impl PageCache {
    /// Room for so many pages, and for one where that is none; no page yet.
    pub fn new(alloc: Global, pages: usize) -> Result<PageCache, AllocError>
        ensures empty { IfOk result (λ cache. cache ≡ no_pages (max pages 1)) }
        ensures agrees { IfOk result (λ cache. (content : Files) → Agrees content cache) }
    {
        let room = NonZeroUsize::new(pages).unwrap_or(NonZeroUsize::MIN);
        let pages = LruCache::new(alloc, room)?;
        Ok(PageCache {
            pages,
            last: LastPages::new(),
            spare: None,
            alloc,
        })
    }

    /// How many pages are kept.
    pub fn len(&self) -> usize
        ensures value { result ≡ length self.now.entries }
        ensures few { result ≤ self.now.cap }
    {
        self.pages.len()
    }

    /// The record at a key, as it stands in its file. If its page is kept, no call of the disk is
    /// made, and otherwise one. A page that was read is kept, if there is memory for it, and the
    /// last one of the list goes. A hit on the page that is known as the one of its file that was
    /// used last neither hashes nor moves a page. Any other puts its page first in the list. A page
    /// that is moved or read is the known one of its file then. If it can't be shared or kept, none
    /// is.
    pub fn get<D: Disk>(&mut self, disk: &mut D, key: Key) -> Result<Rec, DiskFault>
        requires { IsKey key }
        ensures record { D.tells_reads → Agrees (D.reads disk.old) self.old
            → IfOk result (λ rec. rec ≡ record_at (D.reads disk.old) key) }
        ensures agrees { D.tells_reads → Agrees (D.reads disk.old) self.old
            → Agrees (D.reads disk.new) self.new }
        ensures hit { IsSome (kept_page key self.old) → IsOk result × (disk.new ≡ disk.old) }
        ensures used { IsSome (kept_page key self.old) → IsUsed key self.old self.new }
        ensures pages { KeepsPage key self.old self.new }
        ensures only_reads { OnlyReads D.Disk disk.old disk.new }
        ensures cause { HasCause (D.faults disk.old) (D.faults disk.new) result }
    {
        let mut rec = Rec::ZEROS;
        self.get_into(disk, key, &mut rec)?;
        Ok(rec)
    }

    /// Reads the record at a key into the caller's, as `get` reads it, and says whether its page is
    /// kept now. If it isn't, there was no memory for it. An error leaves the caller's as it was.
    pub fn get_into<D: Disk>(
        &mut self,
        disk: &mut D,
        key: Key,
        rec: &mut Rec,
    ) -> Result<bool, DiskFault>
        requires { IsKey key }
        ensures record { D.tells_reads → Agrees (D.reads disk.old) self.old
            → OnOk result (rec.new ≡ record_at (D.reads disk.old) key) }
        ensures err { OnErr result (rec.new ≡ rec.old) }
        ensures agrees { D.tells_reads → Agrees (D.reads disk.old) self.old
            → Agrees (D.reads disk.new) self.new }
        ensures hit { IsSome (kept_page key self.old) → IsOk result × (disk.new ≡ disk.old) }
        ensures used { IsSome (kept_page key self.old) → IsUsed key self.old self.new }
        ensures pages { KeepsPage key self.old self.new }
        ensures told { IfOk result (λ kept. kept ≡ is_some (kept_page key self.new)) }
        ensures stay { StayKept self.old self.new }
        ensures only_reads { OnlyReads D.Disk disk.old disk.new }
        ensures cause { HasCause (D.faults disk.old) (D.faults disk.new) result }
    {
        if self.find_into(key, rec) {
            return Ok(true);
        }
        match self.spare_page() {
            Ok(page) => self.load(disk, key, page, rec),
            Err(_) => {
                *rec = read_record(disk, key)?;
                Ok(false)
            }
        }
    }

    // Memory for a page: that of one that went, or else new.
    fn spare_page(&mut self) -> Result<Page, AllocError>
        ensures { self.new ≡ self.old }
    {
        match self.spare.take() {
            Some(page) => Ok(page),
            None => Page::new(self.alloc),
        }
    }

    /// Drops the page of a record, after a write of that record.
    pub fn forget(&mut self, key: Key)
        ensures agrees { (old new : Files) → SameButRecord key old new → Agrees old self.old
            → Agrees new self.new }
        ensures pages { self.new ≡ without_page key self.old }
        ensures gone { (bytes : List ℕ) → ¬ Contains self.new.entries (page_of key, bytes) }
    {
        // The contract of `len` says that no page is kept twice; the proof stands on that.
        let _before = self.pages.len();
        let page = PageKey::of(key);
        self.last.forget(page);
        drop(self.pages.pop(&page));
        let _after = self.pages.len();
    }

    /// Drops the pages of these records, after they were written.
    pub fn forget_all(&mut self, written: &WriteSet)
        ensures agrees { (old new : Files) → KeepsOthers written.now.pairs old new
            → Agrees old self.old → Agrees new self.new }
        ensures pages { self.new ≡ without_pages written.now.pairs self.old }
    {
        for i in 0..written.len() {
            let (key, _) = written.at(i);
            self.forget(key);
        }
    }

    /// Drops all pages.
    pub fn clear(&mut self)
        ensures empty { self.new ≡ no_pages self.old.cap }
        ensures agrees { (content : Files) → Agrees content self.new }
    {
        self.last = LastPages::new();
        self.pages.clear();
    }

    // Reads the record at a key into the caller's, if its page is kept, and says whether it is.
    fn find_into(&mut self, key: Key, rec: &mut Rec) -> bool
        requires { IsKey key }
        ensures kept { result ≡ is_some (kept_page key self.old) }
        ensures record { (content : Files) → Agrees content self.old
            → IsTrue result → rec.new ≡ record_at content key }
        ensures absent { result ≡ false → (rec.new ≡ rec.old) × (self.new ≡ self.old) }
        ensures agrees { (content : Files) → Agrees content self.old → Agrees content self.new }
        ensures used { IsUsed key self.old self.new }
    {
        let wanted = PageKey::of(key);
        if let Some(page) = self.last.find(wanted) {
            page.read_record(key.id, rec);
            return true; // The list stays as it is.
        }
        match self.pages.get(&wanted) {
            Some(page) => {
                page.read_record(key.id, rec);
                self.last.put(wanted, page);
                true
            }
            None => false,
        }
    }

    // Reads the page of a record, keeps it if there is memory for that, reads the record into the
    // caller's, and says whether the page is kept.
    fn load<D: Disk>(
        &mut self,
        disk: &mut D,
        key: Key,
        mut page: Page,
        rec: &mut Rec,
    ) -> Result<bool, DiskFault>
        requires { IsKey key }
        ensures record { D.tells_reads
            → OnOk result (rec.new ≡ record_at (D.reads disk.old) key) }
        ensures err { OnErr result (rec.new ≡ rec.old) }
        ensures agrees { D.tells_reads → Agrees (D.reads disk.old) self.old
            → Agrees (D.reads disk.new) self.new }
        ensures pages { kept_page key self.old ≡ None → KeepsPage key self.old self.new }
        ensures told { kept_page key self.old ≡ None
            → IfOk result (λ kept. kept ≡ is_some (kept_page key self.new)) }
        ensures only_reads { OnlyReads D.Disk disk.old disk.new }
        ensures cause { HasCause (D.faults disk.old) (D.faults disk.new) result }
    {
        if !page.read(disk, key)? {
            *rec = read_record(disk, key)?;
            return Ok(false);
        }
        page.read_record(key.id, rec);
        Ok(self.keep(PageKey::of(key), page))
    }

    // Keeps a page, as the last one of its file, if there is memory for that, and says whether
    // there was. If there wasn't, its file has no last page then.
    fn keep(&mut self, key: PageKey, page: Page) -> bool
        ensures kept { IsTrue result
            → (shared : Bool) × (self.new ≡ with_page key page shared self.old) }
        ensures refused { result ≡ false → self.new ≡ without_file key self.old }
    {
        // The contract of `len` says that no more pages are kept than there is room for.
        let _before = self.pages.len();
        self.last.put(key, &page);
        match self.pages.push(key, page) {
            Ok(gone) => {
                self.spare = self.last.forget_gone(gone);
                true
            }
            Err(refused) => {
                self.last.forget(key);
                drop(refused);
                false
            }
        }
    }
}
