//! The records of a store through the pages that were used last. A page is 64 records, read in one
//! call of the disk. A record of a kept page costs at most one look-up and a copy of its 64 bytes.
#![tactic(auto)]

mod last_pages;
mod page;
mod page_cache;

pub use page::PageKey;
pub use page_cache::PageCache;
