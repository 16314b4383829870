//! An index that is made.

ghost use Rattle.std.specs.Prelude.{◌≡◌, ◌+◌, ◌≤◌, ◌↔◌, Contains, IfErr, IfOk, IsTrue, OnOk};
ghost use Rattle.std.specs.Prelude.{length};
ghost use Rattle.id_freelist.specs.ListDamage.{BlamesList};
ghost use Rattle.id_freelist.specs.TakeFault as takes;
ghost use Rattle.id_freelist.specs.TakeFault.{HasTakeCause};
ghost use Rattle.prop_index.specs.Blaming.{TakeBlamesBroken};
ghost use Rattle.prop_index.specs.Collecting.{contents_in};
ghost use Rattle.prop_index.specs.Defining.{AreNamesOf, HasLeft, HasPair};
ghost use Rattle.prop_index.specs.Entering.{IsMishap, IsNotFull};
ghost use Rattle.prop_index.specs.MakeFault.{BlamesBroken, HasMakeCause, of_take};
ghost use Rattle.prop_index.specs.Making.{
  IsMakeCause,
  IsMakeRefusal,
  IsPairCause,
  IsPairFault,
  IsUnwrittenFull,
  MakesIndex,
  MayDefine,
  WritesIndex,
  count_of,
  pair_is,
};
ghost use Rattle.prop_index.specs.Reading.{HasRoom};
ghost use Rattle.prop_index.specs.Touching.{TouchesIndex};
ghost use Rattle.prop_store.specs.Reading.{ReadsAtMost};
ghost use Rattle.rec_bytes.specs.Format.{index_file, nodes_file};
ghost use Rattle.store_rules.specs.Indexes.{AreIndexed, Entries, IsIndexed};
ghost use Rattle.store_rules.specs.Views.{high};

use crate::collecting::collect;
use crate::defining::define;
use crate::entry_row::Content;
use crate::filling::fill;
use crate::{IndexPair, MakeFault, indexes};
use id_freelist::TakeFault;
use rec_bytes::{INDEX, MOST_INDEXES, Reads, Space, room_of};
use std::alloc::Global;

/// How many records a definition with its heads takes.
const DEFINITION_RECORDS: u64 = 13;

/// Makes an index of the nodes of a label by the value of a key, and says how many entries it has.
/// The label and the key are numbers of names. All is read and tested before the first record is
/// written.
pub fn make<S: Space>(alloc: Global, space: &mut S, label: u32, key: u32) -> Result<u32, MakeFault>
    ensures made { S.tells → (was : IsIndexed (S.state space.old).records
        (S.state space.old).shape) → AreNamesOf (S.state space.old).records label key
        → IfOk result (MakesIndex (S.state space.old)
        (S.state space.new) label key was) }
    ensures refused { S.tells → (was : IsIndexed (S.state space.old).records
        (S.state space.old).shape) → AreNamesOf (S.state space.old).records label key
        → IfErr result (IsMakeRefusal (S.state space.old) was label
        key) }
    ensures caused { S.tells → IfErr result (IsMakeCause (S.state space.old) label key) }
    ensures damaged { S.tells → IfErr result
        (BlamesBroken (S.state space.old).records (S.state space.old).shape) }
    ensures damaged_after { S.tells → IfErr result
        (BlamesBroken (S.state space.new).records (S.state space.new).shape) }
    ensures touches { S.tells → TouchesIndex S.tells
        (13 + count_of (S.state space.old).records label key)
        (S.state space.old) (S.state space.new) }
    ensures written { IfOk result (λ count.
        TouchesIndex S.tells (13 + count) (S.state space.old) (S.state space.new)) }
    ensures few { IfOk result (λ count. count ≤ 1024) }
    ensures stands { S.tells → OnOk result (HasPair (S.state space.new).records label key) }
    ensures unwritten { S.tells → IfErr result
        (IsUnwrittenFull (S.state space.old) (S.state space.new)) }
    ensures at_most { TouchesIndex S.tells 1037 (S.state space.old) (S.state space.new) }
    ensures onward { S.onward space.old space.new }
    ensures cause { HasMakeCause (S.faults space.old) (S.faults space.new) result }
{
    test_pair(alloc, space, label, key)?;
    let contents = collect(alloc, space, label, key)?;
    let count = contents.len();
    if !has_room(space, count) {
        let live = space.meta(INDEX).live;
        return Err(MakeFault::Full { live });
    }
    match write_index(space, label, key, &contents) {
        Ok(()) => Ok(count as u32),
        Err(fault) => Err(of_take(fault)),
    }
}

/// Tests that the pair has no index, and that there may be one more.
fn test_pair<R: Reads>(alloc: Global, space: &mut R, label: u32, key: u32) -> Result<(), MakeFault>
    ensures may { R.tells → (wanted : Entries)
        → (ix : AreIndexed (R.state space.old).records wanted)
        → OnOk result (MayDefine (R.state space.old).records ix.definitions label key) }
    ensures refused { R.tells → (wanted : Entries)
        → (ix : AreIndexed (R.state space.old).records wanted)
        → HasRoom (R.state space.old) index_file
        → IfErr result (IsPairFault (R.state space.old).records ix.definitions label key) }
    ensures caused { R.tells → IfErr result
        (IsPairCause (R.state space.old).records label key) }
    ensures damaged { R.tells → IfErr result
        (BlamesBroken (R.state space.old).records (R.state space.old).shape) }
    ensures reads { ReadsAtMost 17 (R.state space.old) (R.state space.new) }
    ensures onward { R.onward space.old space.new }
    ensures cause { HasMakeCause (R.faults space.old) (R.faults space.new) result }
{
    let pairs = indexes(alloc, space)?;
    if has_pair(&pairs, label, key) {
        return Err(MakeFault::There);
    }
    if pairs.len() >= MOST_INDEXES {
        return Err(MakeFault::Many);
    }
    Ok(())
}

/// Whether the pair is one of these.
fn has_pair(pairs: &[IndexPair], label: u32, key: u32) -> bool
    ensures { IsTrue result ↔ Contains pairs.now (pair_is label key) }
{
    pairs.contains(&IndexPair { label, key })
}

/// Whether the file has room for a definition and so many entries.
fn has_room<R: Reads>(space: &R, count: usize) -> bool
    requires { count ≤ 1024 }
    ensures { IsTrue result ↔ HasLeft (R.state space.now) (13 + count) }
{
    let live = space.meta(INDEX).live as u64;
    live + DEFINITION_RECORDS + count as u64 <= room_of(INDEX, space.shape())
}

/// Writes the definition and the entries of an index.
fn write_index<S: Space>(
    space: &mut S,
    label: u32,
    key: u32,
    contents: &[Content],
) -> Result<(), TakeFault>
    ensures written { S.tells → (was : IsIndexed (S.state space.old).records
        (S.state space.old).shape) → AreNamesOf (S.state space.old).records label key
        → MayDefine (S.state space.old).records was.indexes.definitions label key
        → contents.now ≡ contents_in (S.state space.old).records label key
        (high (S.state space.old).records nodes_file)
        → OnOk result (WritesIndex (S.state space.old) (S.state space.new) label key was) }
    ensures mishap { S.tells → (was : IsIndexed (S.state space.old).records
        (S.state space.old).shape) → AreNamesOf (S.state space.old).records label key
        → MayDefine (S.state space.old).records was.indexes.definitions label key
        → contents.now ≡ contents_in (S.state space.old).records label key
        (high (S.state space.old).records nodes_file)
        → HasLeft (S.state space.old) (13 + length contents.now) → IfErr result IsMishap }
    ensures roomy { S.tells → HasLeft (S.state space.old) (13 + length contents.now)
        → IfErr result IsNotFull }
    ensures damaged { S.tells → IfErr result (BlamesList (S.state space.old) index_file) }
    ensures stands { S.tells → OnOk result (HasPair (S.state space.new).records label key) }
    ensures damaged_after { S.tells → IfErr result
        (TakeBlamesBroken (S.state space.new).records (S.state space.new).shape) }
    ensures touches { TouchesIndex S.tells (13 + length contents.now)
        (S.state space.old) (S.state space.new) }
    ensures onward { S.onward space.old space.new }
    ensures cause { HasTakeCause (S.faults space.old) (S.faults space.new) result }
{
    let definition = define(space, label, key)?;
    fill(space, &definition, contents)
}

/// A fault of an identifier that is taken as one of an index that is made.
fn of_take(fault: TakeFault) -> MakeFault
    ensures { result ≡ of_take fault }
{
    match fault {
        TakeFault::Full { file: _, live } => MakeFault::Full { live },
        TakeFault::Memory => MakeFault::Memory,
        TakeFault::Disk => MakeFault::Disk,
        TakeFault::Damaged(damage) => MakeFault::Damaged(damage),
    }
}
