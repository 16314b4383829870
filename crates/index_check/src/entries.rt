//! All entries of an index.

ghost use Rattle.std.specs.Prelude.{◌<◌, ◌≤◌, IfNone, IfOk, IfSome};
ghost use Rattle.std.specs.List.{All};
ghost use Rattle.rec_bytes.specs.Format.{index_file, most_ids};
ghost use Rattle.rec_bytes.specs.Frame.{IsRead};
ghost use Rattle.rec_bytes.specs.Space.{HasCause};
ghost use Rattle.store_rules.specs.Views.{high};
ghost use Rattle.index_check.specs.Entries.{AreEntriesTo, LacksBucket};

use crate::buckets::{BUCKETS, bucket_at};
use rec_bytes::{INDEX, Reads, SpaceFault};
use std::alloc::Global;

/// The entries in the buckets of a definition, or none where a bucket has no such chain.
pub(crate) fn entries_of<R: Reads>(
    alloc: Global,
    space: &mut R,
    definition: u32,
) -> Result<Option<Vec<u32>>, SpaceFault>
    requires definition { definition < most_ids }
    requires low { high (R.state space.old).records index_file ≤ most_ids }
    ensures found { R.tells → IfOk result (λ found. IfSome found
        (λ ids. AreEntriesTo (R.state space.old).records definition 180 ids.items)) }
    ensures none { R.tells → IfOk result (λ found. IfNone found
        (LacksBucket (R.state space.old).records definition)) }
    ensures low { IfOk result (λ found. IfSome found (λ ids. All (λ x. x < most_ids) ids.items)) }
    ensures read { IsRead R.Reads space.old space.new }
    ensures cause { HasCause (R.faults space.old) (R.faults space.new) result }
{
    let records = space.meta(INDEX).high;
    let mut entries = Vec::new(alloc);
    for number in 0..BUCKETS {
        let Some(ids) = bucket_at(alloc, space, definition, number, records)? else {
            return Ok(None);
        };
        let Ok(()) = entries.extend_from_slice(&ids) else {
            return Err(SpaceFault::Memory);
        };
    }
    Ok(Some(entries))
}
