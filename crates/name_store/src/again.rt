ghost use Rattle.std.specs.Prelude.{◌≡◌, ◌<◌, ◌≤◌, ◌++◌, ℕ};
ghost use Rattle.std.specs.Prelude.{List, Some, length, slice_get, take, IfErr, IfOk, OnErr, OnOk};
ghost use Rattle.store_rules.specs.Graph.{names_of};
ghost use Rattle.name_store.specs.Again.{HasOther, IsAgainFault, IsTestFault, KeepsEach};
ghost use Rattle.name_store.specs.Again.{after_compare};
ghost use Rattle.name_store.specs.Loading.{ReadsAtMost, after_names, name_mark, text_at};
ghost use Rattle.rec_bytes.specs.RowFault.{HasRowCause, NotDamaged};

use crate::Names;
use crate::name_record::text_of;
use rec_bytes::{Damage, Key, META, NAME_RULE, NAMES, Reads, RowFault};

impl Names {
    /// Cuts the names to those of a space, which are to be a prefix of them. Else the names stay,
    /// and the first record whose name isn't the one that is kept is damaged. It takes no memory.
    pub fn again<R: Reads>(&mut self, space: &mut R) -> Result<(), RowFault>
        ensures same { R.tells
            → OnOk result (self.new.names ≡ names_of (R.state space.old).records) }
        ensures cut { OnOk result
            (self.new.names ≡ take (name_mark (R.state space.old).records) self.old.names) }
        ensures damaged { R.tells
            → IfErr result (IsAgainFault (R.state space.old).records self.old.names) }
        ensures not_damaged { R.tells → (rest : List (List ℕ))
            → self.old.names ≡ names_of (R.state space.old).records ++ rest → NotDamaged result }
        ensures err { OnErr result (self.new.names ≡ self.old.names) }
        ensures reads { OnOk result (R.state space.new ≡ after_names (R.state space.old)) }
        ensures at_most { ReadsAtMost (length self.old.names)
            (R.state space.old) (R.state space.new) }
        ensures onward { R.onward space.old space.new }
        ensures cause { HasRowCause (R.faults space.old) (R.faults space.new) result }
    {
        let high = self.compare_each(space)?;
        self.cut(high);
        Ok(())
    }

    /// Tests whether the names of a space are those that are kept, no more and no fewer. Else the
    /// first record whose name isn't the one that is kept is damaged; or the meta record of the
    /// names, where more are kept than it counts. It takes no memory.
    pub fn test<R: Reads>(&self, space: &mut R) -> Result<(), RowFault>
        ensures same { R.tells
            → OnOk result (self.now.names ≡ names_of (R.state space.old).records) }
        ensures damaged { R.tells
            → IfErr result (IsTestFault (R.state space.old).records self.now.names) }
        ensures not_damaged { R.tells
            → self.now.names ≡ names_of (R.state space.old).records → NotDamaged result }
        ensures reads { OnOk result (R.state space.new ≡ after_names (R.state space.old)) }
        ensures at_most { ReadsAtMost (length self.now.names)
            (R.state space.old) (R.state space.new) }
        ensures onward { R.onward space.old space.new }
        ensures cause { HasRowCause (R.faults space.old) (R.faults space.new) result }
    {
        let high = self.compare_each(space)?;
        if high < self.count() {
            return Err(RowFault::Damaged(Damage {
                file: META,
                id: NAMES as u32,
                rule: NAME_RULE,
            }));
        }
        Ok(())
    }

    /// Tests whether each name of a space is the one that is kept, and says how many there are.
    fn compare_each<R: Reads>(&self, space: &mut R) -> Result<u32, RowFault>
        ensures count { IfOk result (λ high. high ≡ name_mark (R.state space.old).records) }
        ensures kept { OnOk result
            (name_mark (R.state space.old).records ≤ length self.now.names) }
        ensures same { R.tells
            → OnOk result (KeepsEach (R.state space.old).records self.now.names) }
        ensures damaged { R.tells
            → IfErr result (IsAgainFault (R.state space.old).records self.now.names) }
        ensures reads { OnOk result (R.state space.new ≡ after_names (R.state space.old)) }
        ensures at_most { ReadsAtMost (length self.now.names)
            (R.state space.old) (R.state space.new) }
        ensures onward { R.onward space.old space.new }
        ensures cause { HasRowCause (R.faults space.old) (R.faults space.new) result }
    {
        let high = space.meta(NAMES).high;
        for id in 0..high {
            self.compare(space, id)?;
        }
        Ok(high)
    }

    /// Tests whether the name in a record is the one that is kept.
    fn compare<R: Reads>(&self, space: &mut R, id: u32) -> Result<(), RowFault>
        ensures same { R.tells → OnOk result
            (slice_get self.now.names id ≡ Some (text_at (R.state space.old).records id)) }
        ensures kept { OnOk result (id < length self.now.names) }
        ensures damaged { R.tells
            → IfErr result (HasOther (R.state space.old).records self.now.names id) }
        ensures state { R.state space.new ≡ after_compare (R.state space.old) self.now.names id }
        ensures onward { R.onward space.old space.new }
        ensures cause { HasRowCause (R.faults space.old) (R.faults space.new) result }
    {
        let other = RowFault::Damaged(Damage {
            file: NAMES,
            id,
            rule: NAME_RULE,
        });
        if id >= self.count() {
            return Err(other);
        }
        let Ok(rec) = space.get(Key { file: NAMES, id }) else {
            return Err(RowFault::Disk);
        };
        if text_of(&rec) == self.text(id) {
            Ok(())
        } else {
            Err(other)
        }
    }
}
