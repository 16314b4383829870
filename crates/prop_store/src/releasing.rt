ghost use Rattle.std.specs.Prelude.{◌≡◌, ◌<◌, ◌∷◌, [], IfErr, OnErr, OnOk, length, map};
ghost use Rattle.rec_bytes.specs.Format.{meta_file, properties_file, strings_file};
ghost use Rattle.rec_bytes.specs.Meta.{IsLinkBelow};
ghost use Rattle.rec_bytes.specs.RecordFiles.{meta_key_of};
ghost use Rattle.rec_bytes.specs.Space.{HasCause, meta_of};
ghost use Rattle.store_rules.specs.Properties.{AreOnce};
ghost use Rattle.store_rules.specs.PropertyChange.{ChangesFile};
ghost use Rattle.store_rules.specs.Views.{key_in};
ghost use Rattle.id_freelist.specs.ListDamage.{HarmsNoList};
ghost use Rattle.prop_store.specs.BlockList.{AreSmall};
ghost use Rattle.prop_store.specs.Blocks.{AreUsedOnce};
ghost use Rattle.prop_store.specs.FileChange.{HasFewer, IsSameBeside};
ghost use Rattle.prop_store.specs.Touching.{TouchesOnly};

use crate::damaged::damaged;
use id_freelist::give;
use rec_bytes::{Fault, META, NIL, PROPERTIES, RANGE_RULE, Reads, STRINGS, Space, SpaceFault};

/// Tests the first free block before these are given back, since they will lead to it. Else a block
/// would be blamed for it that is taken again.
pub(crate) fn test_free<R: Reads>(space: &R, blocks: &[u32]) -> Result<(), Fault>
    ensures named { IfErr result (λ fault. fault
        ≡ Fault.Damaged (record { file = meta_file; id = strings_file; rule = 1 })) }
    ensures passed { OnOk result (0 < length blocks.now
        → IsLinkBelow (meta_of (R.state space.now) strings_file).free
        (meta_of (R.state space.now) strings_file).high) }
    ensures broken { OnErr result (¬ IsLinkBelow (meta_of (R.state space.now) strings_file).free
        (meta_of (R.state space.now) strings_file).high) }
{
    let meta = space.meta(STRINGS);
    if !blocks.is_empty() && meta.free != NIL && meta.free >= meta.high {
        return Err(damaged(META, STRINGS as u32, RANGE_RULE));
    }
    Ok(())
}

/// Gives blocks back, which are live.
pub(crate) fn release<S: Space>(space: &mut S, blocks: &[u32]) -> Result<(), SpaceFault>
    requires { AreSmall blocks.now }
    ensures released { S.tells → OnOk result (AreOnce blocks.now
        → ChangesFile (S.state space.old).records (S.state space.old).records
        (S.state space.old).shape strings_file blocks.now blocks.now
        → ChangesFile (S.state space.old).records (S.state space.new).records
        (S.state space.old).shape strings_file blocks.now []
        × HasFewer (S.state space.old) (S.state space.new) strings_file (length blocks.now)) }
    ensures harmless { S.tells → OnOk result (AreUsedOnce (S.state space.old).records blocks.now
        → (0 < length blocks.now
        → IsLinkBelow (meta_of (S.state space.old) strings_file).free
        (meta_of (S.state space.old) strings_file).high)
        → HarmsNoList (S.state space.old) (S.state space.new) strings_file) }
    ensures other_files { S.tells → OnOk result (IsSameBeside strings_file
        (S.state space.old).records (S.state space.new).records) }
    ensures touches { TouchesOnly S.tells (S.state space.old) (S.state space.new)
        (meta_key_of strings_file ∷ map (key_in strings_file) blocks.now) }
    ensures onward { S.onward space.old space.new }
    ensures cause { HasCause (S.faults space.old) (S.faults space.new) result }
{
    for id in blocks {
        give(space, STRINGS, *id)?;
    }
    Ok(())
}

/// Gives properties back, which are live.
pub(crate) fn release_properties<S: Space>(space: &mut S, ids: &[u32]) -> Result<(), SpaceFault>
    requires { AreSmall ids.now }
    ensures released { S.tells → OnOk result (AreOnce ids.now
        → ChangesFile (S.state space.old).records (S.state space.old).records
        (S.state space.old).shape properties_file ids.now ids.now
        → ChangesFile (S.state space.old).records (S.state space.new).records
        (S.state space.old).shape properties_file ids.now []) }
    ensures other_files { S.tells → OnOk result (IsSameBeside properties_file
        (S.state space.old).records (S.state space.new).records) }
    ensures touches { TouchesOnly S.tells (S.state space.old) (S.state space.new)
        (meta_key_of properties_file ∷ map (key_in properties_file) ids.now) }
    ensures onward { S.onward space.old space.new }
    ensures cause { HasCause (S.faults space.old) (S.faults space.new) result }
{
    for id in ids {
        give(space, PROPERTIES, *id)?;
    }
    Ok(())
}
