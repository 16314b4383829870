//! The entries of an index that is made.

ghost use Rattle.std.specs.Prelude.{◌<◌, ℕ, IfErr, OnOk, length};
ghost use Rattle.id_freelist.specs.ListDamage.{BlamesList};
ghost use Rattle.id_freelist.specs.TakeFault.{HasTakeCause};
ghost use Rattle.prop_index.specs.Blaming.{TakeBlamesBroken as BlamesBroken};
ghost use Rattle.prop_index.specs.Defining.{AreHeadsUsed, HasLeft, KeepsBeside};
ghost use Rattle.prop_index.specs.DefinitionRecord.{head_ids, head_of};
ghost use Rattle.prop_index.specs.Entering.{IsMishap, IsNotFull};
ghost use Rattle.prop_index.specs.Filling.{AreFillable, IsEmptyIndex, IsFilled, TouchesBeside};
ghost use Rattle.rec_bytes.specs.Format.{index_file};
ghost use Rattle.rec_bytes.specs.Key.{IsKey};
ghost use Rattle.store_rules.specs.Indexes.{AreIndexed, Entries};
ghost use Rattle.store_rules.specs.Views.{key_in};
ghost use Rattle.store_rules.specs.Rules.{IsWhole};

use crate::entry_row::Content;
use crate::finding::Definition;
use crate::hashing::bucket_of;
use crate::heads::{Bucket, slot_of};
use crate::linking::put_in_front;
use id_freelist::TakeFault;
use rec_bytes::{NIL, Space};

/// Puts entries into an index with empty buckets. The first entry of each bucket is kept in memory,
/// so that no record is read again.
pub(crate) fn fill<S: Space>(
    space: &mut S,
    definition: &Definition,
    contents: &[Content],
) -> Result<(), TakeFault>
    requires { (c : ℕ) → c < 12 → IsKey (key_in index_file (head_of definition.now.rec c)) }
    ensures filled { S.tells → (wanted : Entries)
        → (ix : AreIndexed (S.state space.old).records wanted) → (label key : ℕ)
        → IsEmptyIndex (S.state space.old).records wanted ix label key definition.now
        → AreFillable (S.state space.old).records contents.now → IsWhole (S.state space.old)
        → OnOk result (IsFilled (S.state space.old) (S.state space.new) wanted ix label key
        contents.now) }
    ensures mishap { S.tells → (wanted : Entries)
        → (ix : AreIndexed (S.state space.old).records wanted) → (label key : ℕ)
        → IsEmptyIndex (S.state space.old).records wanted ix label key definition.now
        → AreFillable (S.state space.old).records contents.now → IsWhole (S.state space.old)
        → HasLeft (S.state space.old) (length contents.now) → IfErr result IsMishap }
    ensures roomy { S.tells → HasLeft (S.state space.old) (length contents.now)
        → IfErr result IsNotFull }
    ensures damaged { S.tells → AreHeadsUsed (S.state space.old) 12 definition.now.rec
        → IfErr result (BlamesList (S.state space.old) index_file) }
    // the definitions are as they were, and all that was in use but the heads
    ensures leaves_others { S.tells → AreHeadsUsed (S.state space.old) 12 definition.now.rec
        → OnOk result (KeepsBeside (S.state space.old) (S.state space.new) definition.now.rec) }
    ensures damaged_after { S.tells → IfErr result
        (BlamesBroken (S.state space.new).records (S.state space.new).shape) }
    ensures touches { TouchesBeside S.tells (head_ids 12 definition.now.rec)
        (length contents.now) (S.state space.old) (S.state space.new) }
    ensures onward { S.onward space.old space.new }
    ensures cause { HasTakeCause (S.faults space.old) (S.faults space.new) result }
{
    let mut firsts = [NIL; 180];
    for content in contents {
        let number = bucket_of(content.hash);
        let bucket = Bucket {
            slot: slot_of(definition, number),
            first: firsts[number as usize],
        };
        firsts[number as usize] = put_in_front(space, bucket, *content)?;
    }
    Ok(())
}
