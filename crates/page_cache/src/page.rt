ghost use Rattle.std.proofs.Common.{rules};
ghost use Rattle.std.specs.Prelude.{◌≡◌, IfOk, IfSome, IsTrue};
ghost use Rattle.std.specs.Cmp.Rules.{hashing};
ghost use Rattle.fault_count.specs.Cause.{HasCause};
ghost use Rattle.disk_model.specs.Spans.{OnlyReads};
ghost use Rattle.rec_bytes.specs.Key.{IsKey};
ghost use Rattle.page_cache.specs.Pages.{IsPage, page_of, record_in};

use disk_model::Disk;
use rec_bytes::{DiskFault, Key, RECORD_BYTES, Rec};
use std::alloc::{AllocError, Global};
use std::hash::{Hash, Hasher};
use std::marker::Model;
use std::rc::Rc;

// How many records a page has, and how many bytes.
const PAGE_RECORDS: u32 = 64;

const PAGE_BYTES: usize = 4_096;

/// Which page: its file, and its number in the file. Its first record has 64 times that number.
#[derive(Clone, Copy, Debug, PartialEq, Eq)]
pub struct PageKey {
    pub file: u8,
    pub number: u32,
}

// One number for both, so that a page that isn't kept costs little to look for.
impl Hash for PageKey {
    ghost use Rattle.std.specs.Prelude.{◌*◌, ◌+◌};
    ghost use Rattle.std.specs.Hash as fed;

    ghost hash_input = { λ page. fed.u64 (16 * page.number + page.file) };

    ghost respects_eq = { Prim.search (hashing, rules) };

    fn hash<H: Hasher>(&self, state: &mut H) {
        state.write_u64(16 * self.number as u64 + self.file as u64);
    }
}

impl PageKey {
    // The page of a record.
    pub(crate) fn of(key: Key) -> PageKey
        ensures { result ≡ page_of key }
    {
        PageKey {
            file: key.file,
            number: key.id / PAGE_RECORDS,
        }
    }
}

/// The bytes of a page. They stand on the heap, so that a cache moves a pointer, and the last page
/// of a file is shared with the list of the pages.
#[derive(Drop)]
pub(crate) struct Page {
    bytes: Rc<[u8; PAGE_BYTES]>,
}

impl Model for Page {
    ghost use Rattle.std.specs.Prelude.{ℕ, List};

    ghost Value = { List ℕ };

    ghost view = { λ p. p.bytes.value };
}

impl Page {
    // Room for a page, of zeros.
    pub(crate) fn new(alloc: Global) -> Result<Page, AllocError> {
        Ok(Page {
            bytes: Rc::new(alloc, [0; PAGE_BYTES])?,
        })
    }

    // The same page once more, over the same memory.
    pub(crate) fn share(&self) -> Option<Page>
        ensures { IfSome result (λ page. page ≡ self.now) }
    {
        match self.bytes.clone() {
            Ok(bytes) => Some(Page { bytes }),
            Err(_) => None,
        }
    }

    // Reads the page of a record, unless its memory is shared, and says whether it was read.
    pub(crate) fn read<D: Disk>(&mut self, disk: &mut D, key: Key) -> Result<bool, DiskFault>
        requires { IsKey key }
        ensures bytes { D.tells_reads → IfOk result
            (λ read. IsTrue read → IsPage (D.reads disk.old) (page_of key) self.new) }
        ensures only_reads { OnlyReads D.Disk disk.old disk.new }
        ensures cause { HasCause (D.faults disk.old) (D.faults disk.new) result }
    {
        let page = PageKey::of(key);
        let at = PAGE_BYTES as u64 * page.number as u64;
        let Some(bytes) = Rc::get_mut(&mut self.bytes) else {
            return Ok(false);
        };
        disk.read(page.file, at, bytes)?;
        Ok(true)
    }

    // Reads the record of a number, of this page, into the caller's.
    pub(crate) fn read_record(&self, id: u32, rec: &mut Rec)
        ensures { rec.new ≡ record_in self.now id }
    {
        let at = (id % PAGE_RECORDS) as usize * RECORD_BYTES;
        rec.bytes
            .copy_from_slice(&self.bytes[at..at + RECORD_BYTES]);
    }
}
