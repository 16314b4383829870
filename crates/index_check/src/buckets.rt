//! The chains of entries, one for each bucket of a definition.

ghost use Rattle.std.specs.Prelude.{◌≡◌, ◌*◌, ◌<◌, ◌≤◌, IfNone, IfOk, IfSome, List, length, ℕ, ⊤};
ghost use Rattle.std.specs.List.{All};
ghost use Rattle.rec_bytes.specs.Format.{index_file, most_ids};
ghost use Rattle.rec_bytes.specs.Frame.{IsRead};
ghost use Rattle.rec_bytes.specs.Space.{HasCause};
ghost use Rattle.store_rules.specs.IndexBreaking.{IsBucketList};
ghost use Rattle.store_rules.specs.Views.{high};
ghost use Rattle.index_check.specs.Buckets.{AreItsEntries, bucket_line, is_entry_of};
ghost use Rattle.index_check.specs.Definitions.{AreIdsLow};

use crate::head_records::head_at;
use prop_index::bucket_of;
use rec_bytes::{
    HEADS_COUNT, HEADS_FIRST, INDEX, INDEXED, INDEXED_HASH, INDEXED_NEXT, INDEXED_PREVIOUS, KIND,
    Reads, Rec, SpaceFault,
};
use record_lists::{Found, Heads, Line, follow};
use std::alloc::Global;

/// How many buckets an index has.
pub(crate) const BUCKETS: u8 = 180;

/// The entries of a bucket of this number, by their links.
#[derive(Drop)]
pub(crate) struct BucketLine {
    pub(crate) number: u8,
}

impl Line for BucketLine {
    ghost kind = { λ line. bucket_line line.number };

    fn file(&self) -> u8 {
        INDEX
    }

    fn next(&self, rec: &Rec) -> u32 {
        rec.number(INDEXED_NEXT)
    }

    fn fits(&self, before: u32, _at: u32, rec: &Rec) -> bool {
        is_entry_of(rec, self.number) && rec.number(INDEXED_PREVIOUS) == before
    }
}

/// Whether the record is that of an entry whose hash belongs into the bucket.
fn is_entry_of(rec: &Rec, number: u8) -> bool
    ensures { result ≡ is_entry_of number rec.now }
{
    rec.byte(KIND) == INDEXED && bucket_of(rec.wide(INDEXED_HASH)) == number as u64
}

/// The entries in a bucket of a definition, or none where there is no such chain.
pub(crate) fn bucket_at<R: Reads>(
    alloc: Global,
    space: &mut R,
    definition: u32,
    number: u8,
    records: u32,
) -> Result<Option<Vec<u32>>, SpaceFault>
    requires definition { definition < most_ids }
    requires number { number < 180 }
    requires records { records ≡ high (R.state space.old).records index_file }
    requires low { records ≤ most_ids }
    ensures found { R.tells → IfOk result (λ found. IfSome found
        (λ ids. IsBucketList (R.state space.old).records definition number ids.items)) }
    ensures none { R.tells → IfOk result (λ found. IfNone found ((xs : List ℕ)
        → ¬ IsBucketList (R.state space.old).records definition number xs)) }
    ensures low { IfOk result (λ found. IfSome found (λ ids. All (λ x. x < records) ids.items)) }
    ensures read { IsRead R.Reads space.old space.new }
    ensures cause { HasCause (R.faults space.old) (R.faults space.new) result }
{
    let Some(head) = head_at(space, definition, number / HEADS_COUNT, records)? else {
        return Ok(None);
    };
    let first = head.rec.number(HEADS_FIRST + 4 * (number % HEADS_COUNT));
    let ids = follow(alloc, space, &BucketLine { number }, first, records)?;
    Ok(ids)
}

/// The buckets of these definitions, 180 for each.
#[derive(Drop)]
pub struct Buckets<'a> {
    pub(crate) ids: &'a [u32],
    pub(crate) records: u32,
}

impl<'a> Heads for Buckets<'a> {
    ghost has = { λ _ _ _. ⊤ };

    ghost lists = { λ buckets records. AreItsEntries records buckets.ids.now };

    ghost suits = { λ buckets. AreIdsLow buckets.ids.now buckets.records };

    ghost count = { λ buckets. 180 * length buckets.ids.now };

    ghost bound = { λ buckets. buckets.records };

    fn list<R: Reads>(&self, alloc: Global, space: &mut R, id: u32) -> Result<Found, SpaceFault> {
        let count = BUCKETS as u32;
        let definition = self.ids[(id / count) as usize];
        match bucket_at(alloc, space, definition, (id % count) as u8, self.records)? {
            Some(ids) => Ok(Found::Items(ids)),
            None => Ok(Found::Missing),
        }
    }
}
