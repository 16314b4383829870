//! The fifth rule of texts: the blocks of each, and which property has a block.

ghost use Rattle.std.specs.Prelude.{◌≡◌, ◌<◌, IfNone, IfOk, IfSome, false, length, map, ℕ};
ghost use Rattle.std.specs.List.{All};
ghost use Rattle.rec_bytes.specs.Format.{most_ids, strings_file};
ghost use Rattle.rec_bytes.specs.Frame.{IsRead};
ghost use Rattle.rec_bytes.specs.Space.{HasCause};
ghost use Rattle.store_rules.specs.Breaking.{IsBlockList, IsLong, block_size};
ghost use Rattle.store_check.specs.Holding.{AreTextsRight};
ghost use Rattle.record_lists.specs.Seen.{is_seen};
ghost use Rattle.store_check.specs.Texts.{AreTexts};
ghost use Rattle.record_lists.specs.Deciding.{AreMarksLow, BreaksRule};
ghost use Rattle.store_rules.specs.Views.{high};

use crate::pieces::are_pieces;
use rec_bytes::{
    BLOCK_LENGTH, BLOCK_NEXT, Damage, KIND, Key, PROPERTIES, PROPERTY_FIRST_BLOCK, PROPERTY_LENGTH,
    PROPERTY_RULE, Reads, STRINGS, SpaceFault, TEXT_IN_BLOCKS,
};
use record_lists::{
    Broke, Found, Heads, LiveLine, broken, find_unseen, follow, list_heads, none_seen,
};
use std::alloc::Global;

/// The lengths of these blocks.
fn lengths_of<R: Reads>(alloc: Global, space: &mut R, ids: &[u32]) -> Result<Vec<u8>, SpaceFault>
    requires { All (λ x. x < most_ids) ids.now }
    ensures lengths { R.tells → IfOk result
        (λ lengths. lengths.items ≡ map (block_size (R.state space.old).records) ids.now) }
    ensures read { IsRead R.Reads space.old space.new }
    ensures cause { HasCause (R.faults space.old) (R.faults space.new) result }
{
    let mut lengths = Vec::new(alloc);
    for id in ids {
        let rec = space.get(Key {
            file: STRINGS,
            id: *id,
        })?;
        let Ok(()) = lengths.push(rec.byte(BLOCK_LENGTH)) else {
            return Err(SpaceFault::Memory);
        };
    }
    Ok(lengths)
}

/// The properties, at which texts in blocks start.
#[derive(Drop)]
pub struct TextHeads {
    properties: u32,
    blocks: u32,
}

impl Heads for TextHeads {
    ghost has = { λ _. IsLong };

    ghost lists = { λ _. IsBlockList };

    ghost suits = { AreTexts };

    ghost count = { λ heads. heads.properties };

    ghost bound = { λ heads. heads.blocks };

    fn list<R: Reads>(&self, alloc: Global, space: &mut R, id: u32) -> Result<Found, SpaceFault> {
        let rec = space.get(Key {
            file: PROPERTIES,
            id,
        })?;
        if rec.byte(KIND) != TEXT_IN_BLOCKS {
            return Ok(Found::Nothing);
        }
        let first = rec.number(PROPERTY_FIRST_BLOCK);
        let line = LiveLine::new(STRINGS, BLOCK_NEXT);
        let Some(ids) = follow(alloc, space, &line, first, self.blocks)? else {
            return Ok(Found::Missing);
        };
        let lengths = lengths_of(alloc, space, &ids)?;
        if !are_pieces(&lengths, rec.short(PROPERTY_LENGTH)) {
            return Ok(Found::Missing);
        }
        Ok(Found::Items(ids))
    }
}

/// Finds what breaks the fifth rule of texts and of blocks, with a bit for each block, none of them
/// seen.
fn check_seen<R: Reads>(
    alloc: Global,
    space: &mut R,
    seen: &mut [bool],
) -> Result<Option<Damage>, SpaceFault>
    requires low { AreMarksLow (R.state space.old).records }
    requires seen { length seen.old ≡ high (R.state space.old).records strings_file }
    requires clear { (b : ℕ) → is_seen seen.old b ≡ false }
    ensures none { R.tells → IfOk result (λ found. IfNone found
        (AreTextsRight (R.state space.old).records)) }
    ensures found { R.tells → IfOk result (λ found. IfSome found
        (BreaksRule (R.state space.old).records (R.state space.old).shape 5)) }
    ensures read { IsRead R.Reads space.old space.new }
    ensures cause { HasCause (R.faults space.old) (R.faults space.new) result }
{
    let properties = space.meta(PROPERTIES).high;
    let blocks = space.meta(STRINGS).high;
    let heads = TextHeads { properties, blocks };
    match list_heads(alloc, space, &heads, properties, seen)? {
        Some(Broke::Head(id)) => return Ok(Some(broken(PROPERTIES, id, PROPERTY_RULE))),
        Some(Broke::Item(id)) => return Ok(Some(broken(STRINGS, id, PROPERTY_RULE))),
        None => {}
    }
    match find_unseen(space, STRINGS, seen)? {
        Some(id) => Ok(Some(broken(STRINGS, id, PROPERTY_RULE))),
        None => Ok(None),
    }
}

/// Finds what breaks the fifth rule of texts and of blocks.
pub(crate) fn check_texts<R: Reads>(
    alloc: Global,
    space: &mut R,
) -> Result<Option<Damage>, SpaceFault>
    requires { AreMarksLow (R.state space.old).records }
    ensures none { R.tells → IfOk result (λ found. IfNone found
        (AreTextsRight (R.state space.old).records)) }
    ensures found { R.tells → IfOk result (λ found. IfSome found
        (BreaksRule (R.state space.old).records (R.state space.old).shape 5)) }
    ensures read { IsRead R.Reads space.old space.new }
    ensures cause { HasCause (R.faults space.old) (R.faults space.new) result }
{
    let Ok(mut seen) = none_seen(alloc, space.meta(STRINGS).high as usize) else {
        return Err(SpaceFault::Memory);
    };
    check_seen(alloc, space, &mut seen)
}
