ghost use Rattle.std.specs.Prelude.{◌<◌, ◌≤◌, IfNone, IfOk, IfSome, ℕ};
ghost use Rattle.std.specs.Bool.{Decides};
ghost use Rattle.rec_bytes.specs.Frame.{IsRead};
ghost use Rattle.rec_bytes.specs.Space.{HasCause};
ghost use Rattle.store_rules.specs.Views.{Records};

use rec_bytes::{Reads, SpaceFault};

/// What a rule says of each record of a file.
pub trait Sentence {
    /// Whether it is a sentence on such records.
    ghost suits: { Self → Records → Type 0 };

    /// So many records it speaks of.
    ghost count: { Self → ℕ };

    /// What it says of a record.
    ghost says: { Self → Records → ℕ → Type 0 };

    /// Whether it is true of a record.
    fn holds<R: Reads>(&self, space: &mut R, id: u32) -> Result<bool, SpaceFault>
        requires id { id < count self.now }
        requires suits { suits self.now (R.state space.old).records }
        ensures told { R.tells → IfOk result
            (λ holds. Decides holds (says self.now (R.state space.old).records id)) }
        ensures read { IsRead R.Reads space.old space.new }
        ensures cause { HasCause (R.faults space.old) (R.faults space.new) result };
}

/// The first of so many records of which a sentence is false.
pub fn find_false<R: Reads, S: Sentence>(
    space: &mut R,
    sentence: &S,
    count: u32,
) -> Result<Option<u32>, SpaceFault>
    requires count { count ≤ S.count sentence.now }
    requires suits { S.suits sentence.now (R.state space.old).records }
    ensures none { R.tells → IfOk result (λ found. IfNone found
        ((x : ℕ) → x < count → S.says sentence.now (R.state space.old).records x)) }
    ensures found { R.tells → IfOk result (λ found. IfSome found
        (λ x. (x < count) × (¬ S.says sentence.now (R.state space.old).records x))) }
    ensures read { IsRead R.Reads space.old space.new }
    ensures cause { HasCause (R.faults space.old) (R.faults space.new) result }
{
    for id in 0..count {
        if !sentence.holds(space, id)? {
            return Ok(Some(id));
        }
    }
    Ok(None)
}
