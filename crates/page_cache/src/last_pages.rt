ghost use Rattle.std.specs.Prelude.{◌≡◌, Bool, List, ℕ, None, option_copied, replicate};
ghost use Rattle.disk_model.specs.Contents.{number_of_files};
ghost use Rattle.page_cache.specs.LastPages.{ForgetsGone, ForgetsLast, PutsLast};
ghost use Rattle.page_cache.specs.LastPages.{last_page, numbers_of};
ghost use Rattle.page_cache.specs.Pages.{with_last, without_gone, without_last};

use crate::page::{Page, PageKey};

// How many files there are.
const FILES: usize = 9;

/// A page as the last one of its file.
#[derive(Drop)]
pub(crate) struct LastPage {
    number: u32,
    page: Page,
}

/// Of each file the page that was used last. A look at them neither hashes nor moves a page.
#[derive(Drop)]
pub(crate) struct LastPages {
    files: [Option<LastPage>; FILES],
}

impl LastPages {
    /// None of any file.
    pub(crate) fn new() -> LastPages
        ensures pages { (page : PageKey) → last_page result.files page ≡ None }
        ensures numbers { numbers_of result.files ≡ replicate number_of_files None }
    {
        LastPages {
            files: [None, None, None, None, None, None, None, None, None],
        }
    }

    /// This page, if it is the last one of its file.
    pub(crate) fn find(&self, wanted: PageKey) -> Option<&Page>
        ensures { option_copied result ≡ last_page self.now.files wanted }
    {
        match self.files.get(wanted.file as usize) {
            Some(Some(last)) if last.number == wanted.number => Some(&last.page),
            _ => None,
        }
    }

    /// Makes this page the last one of its file, or none, if it can't be shared.
    pub(crate) fn put(&mut self, key: PageKey, page: &Page)
        ensures pages { PutsLast key page.now self.old.files self.new.files }
        ensures numbers { (shared : Bool)
            × (numbers_of self.new.files ≡ with_last key shared (numbers_of self.old.files)) }
    {
        let file = key.file as usize;
        if file < FILES {
            let last = match page.share() {
                Some(page) => Some(LastPage {
                    number: key.number,
                    page,
                }),
                None => None,
            };
            self.files[file] = last;
        }
    }

    /// Drops this page, if it is the last one of its file.
    pub(crate) fn forget(&mut self, page: PageKey)
        ensures pages { ForgetsLast page self.old.files self.new.files }
        ensures numbers { numbers_of self.new.files
            ≡ without_last page (numbers_of self.old.files) }
    {
        if self.find(page).is_none() {
            return;
        }
        let file = page.file as usize;
        if file < FILES {
            self.files[file] = None;
        }
    }

    /// Drops the page that went from the list, if one did, as the last one of its file, and gives
    /// its memory.
    pub(crate) fn forget_gone(&mut self, gone: Option<(PageKey, Page)>) -> Option<Page>
        ensures pages { ForgetsGone gone self.old.files self.new.files }
        ensures numbers { numbers_of self.new.files
            ≡ without_gone gone (numbers_of self.old.files) }
    {
        match gone {
            Some((key, page)) => {
                self.forget(key);
                Some(page)
            }
            None => None,
        }
    }
}
