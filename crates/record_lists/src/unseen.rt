ghost use Rattle.std.specs.Prelude.{◌≡◌, ◌<◌, ◌≤◌, IfNone, IfOk, IfSome, length, true, ℕ};
ghost use Rattle.rec_bytes.specs.Format.{most_ids};
ghost use Rattle.rec_bytes.specs.Frame.{IsRead};
ghost use Rattle.rec_bytes.specs.RecordFiles.{is_meta_file};
ghost use Rattle.rec_bytes.specs.Space.{HasCause};
ghost use Rattle.store_rules.specs.Views.{high, is_live};
ghost use Rattle.record_lists.specs.Seen.{is_seen};
ghost use Rattle.record_lists.specs.Unseen.{IsSeen, IsOnSeen};

use crate::sentence::{Sentence, find_false};
use rec_bytes::{FREE, KIND, Key, Reads, SpaceFault};

/// A record in use is seen.
#[derive(Drop)]
pub struct Held<'a> {
    pub(crate) file: u8,
    pub(crate) seen: &'a [bool],
}

impl<'a> Sentence for Held<'a> {
    ghost suits = { IsOnSeen };

    ghost count = { λ held. length held.seen.now };

    ghost says = { IsSeen };

    fn holds<R: Reads>(&self, space: &mut R, id: u32) -> Result<bool, SpaceFault> {
        let rec = space.get(Key {
            file: self.file,
            id,
        })?;
        Ok(rec.byte(KIND) == FREE || self.seen[id as usize])
    }
}

/// The first record of a file that is in use and not seen.
pub fn find_unseen<R: Reads>(
    space: &mut R,
    file: u8,
    seen: &[bool],
) -> Result<Option<u32>, SpaceFault>
    requires file { is_meta_file file ≡ true }
    requires low { high (R.state space.old).records file ≤ most_ids }
    requires seen { length seen.now ≡ high (R.state space.old).records file }
    ensures none { R.tells → IfOk result (λ found. IfNone found
        ((x : ℕ) → x < high (R.state space.old).records file
        → is_live (R.state space.old).records file x ≡ true → is_seen seen.now x ≡ true)) }
    ensures found { R.tells → IfOk result (λ found. IfSome found
        (λ x. ¬ (is_live (R.state space.old).records file x ≡ true → is_seen seen.now x ≡ true))) }
    ensures read { IsRead R.Reads space.old space.new }
    ensures cause { HasCause (R.faults space.old) (R.faults space.new) result }
{
    let count = space.meta(file).high;
    find_false(space, &Held { file, seen }, count)
}
