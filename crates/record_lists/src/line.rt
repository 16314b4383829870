ghost use Rattle.std.specs.Prelude.{◌≡◌, ◌≤◌, ◌<◌, IfNone, IfOk, IfSome, List, true, ℕ};
ghost use Rattle.std.specs.List.{All};
ghost use Rattle.rec_bytes.specs.Format.{most_ids};
ghost use Rattle.rec_bytes.specs.Frame.{IsRead};
ghost use Rattle.rec_bytes.specs.RecordFiles.{is_record_file};
ghost use Rattle.rec_bytes.specs.Space.{HasCause};
ghost use Rattle.record_lists.specs.Lines.{IsLineIn, LineKind};

use rec_bytes::{Key, NIL, Reads, Rec, SpaceFault};
use std::alloc::Global;

/// What one kind of list of records is: where its links stand, and which records it may have.
pub trait Line {
    /// Its file, the record that one leads to, and whether a record may stand after another one, or
    /// first, after none.
    ghost kind: { Self → LineKind };

    /// The file of its records.
    fn file(&self) -> u8
        ensures is { result ≡ (kind self.now).file }
        ensures known { is_record_file result ≡ true };

    /// The record that one leads to, or none.
    fn next(&self, rec: &Rec) -> u32
        ensures { result ≡ (kind self.now).next rec.now };

    /// Whether a record may stand after another one, or first, after none.
    fn fits(&self, before: u32, at: u32, rec: &Rec) -> bool
        ensures { result ≡ (kind self.now).fits before at rec.now };
}

/// The list from a record on, or none where there is no such list. It reads each record of the list
/// once, and at most as many as are below the mark.
pub fn follow<R: Reads, L: Line>(
    alloc: Global,
    space: &mut R,
    line: &L,
    first: u32,
    high: u32,
) -> Result<Option<Vec<u32>>, SpaceFault>
    requires { high ≤ most_ids }
    ensures found { R.tells → IfOk result (λ found. IfSome found
        (λ ids. IsLineIn (L.kind line.now) (R.state space.old).records high first ids.items)) }
    ensures none { R.tells → IfOk result (λ found. IfNone found ((xs : List ℕ)
        → ¬ IsLineIn (L.kind line.now) (R.state space.old).records high first xs)) }
    ensures low { IfOk result (λ found. IfSome found (λ ids. All (λ x. x < high) ids.items)) }
    ensures read { IsRead R.Reads space.old space.new }
    ensures cause { HasCause (R.faults space.old) (R.faults space.new) result }
{
    let mut ids = Vec::new(alloc);
    let mut before = NIL;
    let mut at = first;
    for _ in 0..high {
        if at == NIL {
            return Ok(Some(ids));
        }
        if at >= high {
            return Ok(None);
        }
        let rec = space.get(Key {
            file: line.file(),
            id: at,
        })?;
        if !line.fits(before, at, &rec) {
            return Ok(None);
        }
        let Ok(()) = ids.push(at) else {
            return Err(SpaceFault::Memory);
        };
        before = at;
        at = line.next(&rec);
    }
    if at == NIL { Ok(Some(ids)) } else { Ok(None) }
}
