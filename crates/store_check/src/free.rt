//! The second rule: what is not in use is on the free list, and the count is exact.

ghost use Rattle.std.specs.Prelude.{◌≡◌, ◌≤◌, IfNone, IfOk, IfSome, List, length, true, ℕ};
ghost use Rattle.rec_bytes.specs.Format.{most_ids};
ghost use Rattle.rec_bytes.specs.Frame.{IsRead};
ghost use Rattle.rec_bytes.specs.RecordFiles.{is_meta_file, is_record_file};
ghost use Rattle.rec_bytes.specs.Space.{HasCause};
ghost use Rattle.store_rules.specs.Ranges.{is_reused};
ghost use Rattle.store_rules.specs.Rules.{IsSplit};
ghost use Rattle.store_rules.specs.Views.{high, is_live};
ghost use Rattle.store_check.specs.Free.{IsCounted, free_line};
ghost use Rattle.record_lists.specs.Deciding.{AreMarksLow, BreaksRule, DecidesRule};

use rec_bytes::{
    Damage, FREE, FREE_NEXT, KIND, Key, META, NAMES, Reads, Rec, RecordFile, SPLIT_RULE, SpaceFault,
};
use record_lists::{Line, follow, seen_of};
use std::alloc::Global;

/// The free list of a file.
#[derive(Drop)]
struct FreeLine {
    number: u8,
    ghost known: { is_record_file number ≡ true },
}

impl Line for FreeLine {
    ghost kind = { λ line. free_line line.number };

    fn file(&self) -> u8 {
        self.number
    }

    fn next(&self, rec: &Rec) -> u32 {
        rec.number(FREE_NEXT)
    }

    fn fits(&self, _before: u32, _at: u32, rec: &Rec) -> bool {
        rec.byte(KIND) == FREE
    }
}

/// How many records are in use, or one that isn't and was not seen.
#[derive(Clone, Copy)]
pub enum Counted {
    Live(u32),
    OffList(u32),
}

/// Counts the records of a file that are in use, where all others are seen.
fn count_live<R: Reads>(space: &mut R, file: u8, seen: &[bool]) -> Result<Counted, SpaceFault>
    requires file { is_meta_file file ≡ true }
    requires mark { high (R.state space.old).records file ≤ most_ids }
    requires seen { length seen.now ≡ high (R.state space.old).records file }
    ensures counted { R.tells
        → IfOk result (IsCounted (R.state space.old).records file seen.now) }
    ensures read { IsRead R.Reads space.old space.new }
    ensures cause { HasCause (R.faults space.old) (R.faults space.new) result }
{
    let mut live = 0;
    for id in 0..space.meta(file).high {
        let rec = space.get(Key { file, id })?;
        if rec.byte(KIND) != FREE {
            live += 1;
        } else if !seen[id as usize] {
            return Ok(Counted::OffList(id));
        }
    }
    Ok(Counted::Live(live))
}

/// Decides the second rule of a file whose records are used again.
fn check_free<R: Reads>(
    alloc: Global,
    space: &mut R,
    file: u8,
) -> Result<Option<Damage>, SpaceFault>
    requires file { is_reused file ≡ true }
    requires mark { high (R.state space.old).records file ≤ most_ids }
    ensures sound { R.tells → IfOk result (λ found. IfNone found
        ((free : List ℕ) × IsSplit (R.state space.old).records file
        (is_live (R.state space.old).records file) free)) }
    ensures broken { R.tells → IfOk result (λ found. IfSome found
        (BreaksRule (R.state space.old).records (R.state space.old).shape 2)) }
    ensures read { IsRead R.Reads space.old space.new }
    ensures cause { HasCause (R.faults space.old) (R.faults space.new) result }
{
    let on_meta = Damage {
        file: META,
        id: file as u32,
        rule: SPLIT_RULE,
    };
    let meta = space.meta(file);
    let line = FreeLine { number: file };
    let Some(ids) = follow(alloc, space, &line, meta.free, meta.high)? else {
        return Ok(Some(on_meta));
    };
    let Ok(seen) = seen_of(alloc, meta.high as usize, &ids) else {
        return Err(SpaceFault::Memory);
    };
    match count_live(space, file, &seen)? {
        Counted::Live(live) if live == meta.live => Ok(None),
        Counted::Live(_) => Ok(Some(on_meta)),
        Counted::OffList(id) => Ok(Some(Damage {
            file,
            id,
            rule: SPLIT_RULE,
        })),
    }
}

/// Finds what breaks the second rule in the files whose records are used again.
fn check_reused<R: Reads>(alloc: Global, space: &mut R) -> Result<Option<Damage>, SpaceFault>
    requires { AreMarksLow (R.state space.old).records }
    ensures sound { R.tells → IfOk result (λ found. IfNone found
        ((file : ℕ) → is_reused file ≡ true → (free : List ℕ)
        × IsSplit (R.state space.old).records file
        (is_live (R.state space.old).records file) free)) }
    ensures broken { R.tells → IfOk result (λ found. IfSome found
        (BreaksRule (R.state space.old).records (R.state space.old).shape 2)) }
    ensures read { IsRead R.Reads space.old space.new }
    ensures cause { HasCause (R.faults space.old) (R.faults space.new) result }
{
    for entry in RecordFile::all_but_meta() {
        if entry.file == NAMES {
            continue;
        }
        if let Some(damage) = check_free(alloc, space, entry.file)? {
            return Ok(Some(damage));
        }
    }
    Ok(None)
}

/// Decides the second rule.
pub(crate) fn check_split<R: Reads>(
    alloc: Global,
    space: &mut R,
) -> Result<Option<Damage>, SpaceFault>
    requires { AreMarksLow (R.state space.old).records }
    ensures decided { R.tells → IfOk result
        (DecidesRule (R.state space.old).records (R.state space.old).shape 2) }
    ensures read { IsRead R.Reads space.old space.new }
    ensures cause { HasCause (R.faults space.old) (R.faults space.new) result }
{
    if let Some(damage) = check_reused(alloc, space)? {
        return Ok(Some(damage));
    }
    let names = space.meta(NAMES);
    if names.live == names.high {
        Ok(None)
    } else {
        Ok(Some(Damage {
            file: META,
            id: NAMES as u32,
            rule: SPLIT_RULE,
        }))
    }
}
