//! The records of heads of definitions.

ghost use Rattle.std.specs.Prelude.{◌≡◌, ◌≢◌, ◌*◌, ◌<◌, ◌≤◌, IfNone, IfOk, IfSome, length, ⊤};
ghost use Rattle.rec_bytes.specs.Format as format;
ghost use Rattle.rec_bytes.specs.Frame.{IsRead};
ghost use Rattle.rec_bytes.specs.Space.{HasCause};
ghost use Rattle.store_rules.specs.Indexes.{heads_of};
ghost use Rattle.store_rules.specs.Views.{high, kind_at};
ghost use Rattle.index_check.specs.Definitions.{AreIdsLow};
ghost use Rattle.index_check.specs.HeadRecords.{IsHeadItem, IsHeadRead};

use rec_bytes::{
    DEFINITION_HEAD_COUNT, DEFINITION_HEADS, HEADS, INDEX, KIND, Key, Reads, Rec, SpaceFault,
};
use record_lists::{Found, Heads};
use std::alloc::Global;

/// A record of heads in use.
#[derive(Clone, Copy)]
pub(crate) struct HeadRecord {
    pub(crate) id: u32,
    pub(crate) rec: Rec,
}

/// The record of heads of this number of a definition, or none where it isn't one.
pub(crate) fn head_at<R: Reads>(
    space: &mut R,
    definition: u32,
    number: u8,
    records: u32,
) -> Result<Option<HeadRecord>, SpaceFault>
    requires definition { definition < format.most_ids }
    requires number { number < 12 }
    requires records { records ≡ high (R.state space.old).records format.index_file }
    requires low { records ≤ format.most_ids }
    ensures found { R.tells → IfOk result (λ found. IfSome found
        (IsHeadRead (R.state space.old).records definition number)) }
    ensures none { R.tells → IfOk result (λ found. IfNone found
        (kind_at (R.state space.old).records format.index_file
        (heads_of (R.state space.old).records definition number) ≢ format.heads)) }
    ensures low { IfOk result (λ found. IfSome found (λ head. head.id < records)) }
    ensures read { IsRead R.Reads space.old space.new }
    ensures cause { HasCause (R.faults space.old) (R.faults space.new) result }
{
    let rec = space.get(Key {
        file: INDEX,
        id: definition,
    })?;
    let id = rec.number(DEFINITION_HEADS + 4 * number);
    if id >= records {
        return Ok(None);
    }
    let rec = space.get(Key { file: INDEX, id })?;
    if rec.byte(KIND) != HEADS {
        return Ok(None);
    }
    Ok(Some(HeadRecord { id, rec }))
}

/// Twelve records of heads for each of these definitions.
#[derive(Drop)]
pub struct HeadRecords<'a> {
    pub(crate) ids: &'a [u32],
    pub(crate) records: u32,
}

impl<'a> Heads for HeadRecords<'a> {
    ghost has = { λ _ _ _. ⊤ };

    ghost lists = { λ heads records. IsHeadItem records heads.ids.now };

    ghost suits = { λ heads. AreIdsLow heads.ids.now heads.records };

    ghost count = { λ heads. 12 * length heads.ids.now };

    ghost bound = { λ heads. heads.records };

    fn list<R: Reads>(&self, alloc: Global, space: &mut R, id: u32) -> Result<Found, SpaceFault> {
        let count = DEFINITION_HEAD_COUNT as u32;
        let definition = self.ids[(id / count) as usize];
        match head_at(space, definition, (id % count) as u8, self.records)? {
            Some(head) => {
                let mut items = Vec::new(alloc);
                let Ok(()) = items.push(head.id) else {
                    return Err(SpaceFault::Memory);
                };
                Ok(Found::Items(items))
            }
            None => Ok(Found::Missing),
        }
    }
}
