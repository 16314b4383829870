//! The first rule: each record is of a known kind, and its numbers are ones that may stand there.

ghost use Rattle.std.specs.Prelude.{◌≡◌, ◌<◌, ◌≤◌, IfNone, IfOk, IfSome, true, ℕ};
ghost use Rattle.std.specs.Bool.{Decides};
ghost use Rattle.rec_bytes.specs.Format.{meta_records, most_ids};
ghost use Rattle.rec_bytes.specs.Frame.{IsRead};
ghost use Rattle.rec_bytes.specs.RecordFiles.{is_meta_file, room_of};
ghost use Rattle.rec_bytes.specs.Space.{HasCause};
ghost use Rattle.store_rules.specs.Views.{high};
ghost use Rattle.store_rules.specs.Breaking.{IsMetaKept, IsOwnRight, damage};
ghost use Rattle.store_check.specs.Fitting.{FitsAt, IsFitting, IsOnFile};
ghost use Rattle.record_lists.specs.Deciding.{AreMarksLow, DecidesRule};

use crate::layout::fits;
use rec_bytes::{
    Damage, Key, META, META_RECORDS, OWN_KEY, RANGE_RULE, Reads, RecordFile, Shape, SpaceFault,
    VERSION, is_meta_file, is_meta_right, room_of, version_of,
};
use record_lists::{Sentence, find_false};

/// Whether the store's own record says the space's shape, and the newest version.
fn is_own_right<R: Reads>(space: &mut R) -> Result<bool, SpaceFault>
    ensures right { R.tells → IfOk result (λ right. Decides right
        (IsOwnRight (R.state space.old).records (R.state space.old).shape)) }
    ensures read { IsRead R.Reads space.old space.new }
    ensures cause { HasCause (R.faults space.old) (R.faults space.new) result }
{
    let rec = space.get(OWN_KEY)?;
    Ok(Shape::of(&rec) == Some(space.shape()) && version_of(&rec) == VERSION)
}

/// Whether the mark of a file is within its room.
fn is_mark_low<R: Reads>(space: &R, file: u8) -> bool
    requires { is_meta_file file ≡ true }
    ensures { Decides result
        (high (R.state space.now).records file ≤ room_of (R.state space.now).shape file) }
{
    space.meta(file).high as u64 <= room_of(file, space.shape())
}

/// Whether a record of the meta file is right. If it is that of a file, the file's mark is low
/// then, whatever was read.
fn is_meta_kept<R: Reads>(space: &mut R, id: u32) -> Result<bool, SpaceFault>
    requires { id < meta_records }
    ensures right { R.tells → IfOk result (λ right. Decides right
        (IsMetaKept (R.state space.old).records (R.state space.old).shape id)) }
    ensures low { IfOk result (λ right. right ≡ true → is_meta_file id ≡ true
        → high (R.state space.old).records id ≤ most_ids) }
    ensures read { IsRead R.Reads space.old space.new }
    ensures cause { HasCause (R.faults space.old) (R.faults space.new) result }
{
    let rec = space.get(Key { file: META, id })?;
    let file = id as u8;
    Ok(
        is_meta_right(&rec, id, VERSION, space.shape())
            && (!is_meta_file(file) || is_mark_low(space, file)),
    )
}

/// A record fits its file.
#[derive(Drop)]
pub struct Fitting {
    file: u8,
    records: u32,
}

impl Sentence for Fitting {
    ghost suits = { IsOnFile };

    ghost count = { λ sentence. sentence.records };

    ghost says = { IsFitting };

    fn holds<R: Reads>(&self, space: &mut R, id: u32) -> Result<bool, SpaceFault> {
        let rec = space.get(Key {
            file: self.file,
            id,
        })?;
        Ok(fits(space, self.file, &rec))
    }
}

/// The first record of a file that doesn't fit.
fn find_wrong<R: Reads>(space: &mut R, file: u8) -> Result<Option<u32>, SpaceFault>
    requires file { is_meta_file file ≡ true }
    requires mark { high (R.state space.old).records file ≤ most_ids }
    ensures none { R.tells → IfOk result (λ found. IfNone found
        ((x : ℕ) → x < high (R.state space.old).records file
        → FitsAt (R.state space.old).records file x)) }
    ensures found { R.tells → IfOk result (λ found. IfSome found
        (λ x. (x < high (R.state space.old).records file)
        × (¬ FitsAt (R.state space.old).records file x))) }
    ensures read { IsRead R.Reads space.old space.new }
    ensures cause { HasCause (R.faults space.old) (R.faults space.new) result }
{
    let records = space.meta(file).high;
    find_false(space, &Fitting { file, records }, records)
}

/// The first record of the meta file that isn't right.
fn find_wrong_meta<R: Reads>(space: &mut R) -> Result<Option<u32>, SpaceFault>
    ensures none { R.tells → IfOk result (λ found. IfNone found
        ((id : ℕ) → id < meta_records
        → IsMetaKept (R.state space.old).records (R.state space.old).shape id)) }
    ensures found { R.tells → IfOk result (λ found. IfSome found
        (λ id. ¬ IsMetaKept (R.state space.old).records (R.state space.old).shape id)) }
    ensures id { IfOk result (λ found. IfSome found (λ id. id < meta_records)) }
    ensures low { IfOk result
        (λ found. IfNone found (AreMarksLow (R.state space.old).records)) }
    ensures read { IsRead R.Reads space.old space.new }
    ensures cause { HasCause (R.faults space.old) (R.faults space.new) result }
{
    for id in 0..META_RECORDS {
        if !is_meta_kept(space, id)? {
            return Ok(Some(id));
        }
    }
    Ok(None)
}

/// The first record that doesn't fit its file.
fn find_wrong_record<R: Reads>(space: &mut R) -> Result<Option<Key>, SpaceFault>
    requires { AreMarksLow (R.state space.old).records }
    ensures none { R.tells → IfOk result (λ found. IfNone found
        ((file x : ℕ) → is_meta_file file ≡ true → x < high (R.state space.old).records file
        → FitsAt (R.state space.old).records file x)) }
    ensures found { R.tells → IfOk result (λ found. IfSome found
        (λ key. (key.id < high (R.state space.old).records key.file)
        × (¬ FitsAt (R.state space.old).records key.file key.id))) }
    ensures file { IfOk result (λ found. IfSome found (λ key. is_meta_file key.file ≡ true)) }
    ensures read { IsRead R.Reads space.old space.new }
    ensures cause { HasCause (R.faults space.old) (R.faults space.new) result }
{
    for entry in RecordFile::all_but_meta() {
        if let Some(id) = find_wrong(space, entry.file)? {
            return Ok(Some(Key {
                file: entry.file,
                id,
            }));
        }
    }
    Ok(None)
}

/// Decides the first rule.
pub(crate) fn check_ranges<R: Reads>(space: &mut R) -> Result<Option<Damage>, SpaceFault>
    ensures decided { R.tells → IfOk result
        (DecidesRule (R.state space.old).records (R.state space.old).shape 1) }
    ensures low { IfOk result
        (λ found. IfNone found (AreMarksLow (R.state space.old).records)) }
    ensures read { IsRead R.Reads space.old space.new }
    ensures cause { HasCause (R.faults space.old) (R.faults space.new) result }
{
    if !is_own_right(space)? {
        return Ok(Some(broken(OWN_KEY)));
    }
    if let Some(id) = find_wrong_meta(space)? {
        return Ok(Some(broken(Key { file: META, id })));
    }
    match find_wrong_record(space)? {
        Some(key) => Ok(Some(broken(key))),
        None => Ok(None),
    }
}

fn broken(key: Key) -> Damage
    ensures { result ≡ damage key.file key.id 1 }
{
    Damage {
        file: key.file,
        id: key.id,
        rule: RANGE_RULE,
    }
}
