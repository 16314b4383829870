//! A definition with empty buckets.

ghost use Rattle.std.specs.Prelude.{◌≡◌, ◌≢◌, ◌+◌, ◌<◌, ◌≤◌, ℕ, [], ◌∷◌, IfErr, IfOk, OnOk};
ghost use Rattle.id_freelist.specs.ListDamage.{BlamesList};
ghost use Rattle.id_freelist.specs.TakeFault.{HasTakeCause};
ghost use Rattle.prop_index.specs.Blaming.{TakeBlamesBroken as BlamesBroken};
ghost use Rattle.prop_index.specs.Defining.{
  AreHeadsAdded,
  AreNamesOf,
  CountsMore,
  HasLeft,
  IsDefined,
  IsDefinitionAdded,
  IsRecordAdded,
  PutsHeads,
  PutsInUse,
};
ghost use Rattle.prop_index.specs.DefinitionRecord.{head_ids, head_of};
ghost use Rattle.prop_index.specs.Entering.{IsMishap, IsNotFull};
ghost use Rattle.prop_index.specs.Touching.{TouchesIndex, index_keys};
ghost use Rattle.prop_store.specs.Touching.{TouchesOnly};
ghost use Rattle.rec_bytes.specs.Format.{definition_heads, free_kind, index_file};
ghost use Rattle.rec_bytes.specs.Key.{IsKey};
ghost use Rattle.rec_bytes.specs.Record.{field};
ghost use Rattle.store_rules.specs.Views.{key_in, kind_at};
ghost use Rattle.store_rules.specs.Rules.{IsWhole};

use crate::definition_record::{definition_start, empty_heads};
use crate::finding::Definition;
use id_freelist::{TakeFault, take};
use rec_bytes::{
    DEFINITION_HEAD_COUNT, DEFINITION_HEADS, FREE, INDEX, KIND, Key, META_DEFINITION, Rec, Space,
    meta_key, set_number,
};

/// Puts a definition of a label and a key in front of the others, with empty buckets.
pub(crate) fn define<S: Space>(space: &mut S, label: u32, key: u32) -> Result<Definition, TakeFault>
    ensures added { S.tells → IsWhole (S.state space.old)
        → AreNamesOf (S.state space.old).records label key → IfOk result
        (IsDefinitionAdded (S.state space.old) (S.state space.new) label key) }
    ensures mishap { S.tells → IsWhole (S.state space.old)
        → HasLeft (S.state space.old) 13 → IfErr result IsMishap }
    ensures counted { S.tells → OnOk result
        (CountsMore (S.state space.old) (S.state space.new) 13) }
    ensures roomy { S.tells → HasLeft (S.state space.old) 13 → IfErr result IsNotFull }
    ensures damaged { S.tells → IfErr result (BlamesList (S.state space.old) index_file) }
    ensures damaged_after { S.tells → IfErr result
        (BlamesBroken (S.state space.new).records (S.state space.new).shape) }
    ensures kept { S.tells → IfOk result (λ definition.
        PutsHeads (S.state space.old) (S.state space.new) 12 definition.rec) }
    ensures defined { S.tells → IfOk result (IsDefined (S.state space.new) label key) }
    ensures heads { IfOk result (λ definition. (c : ℕ) → c < 12
        → IsKey (key_in index_file (head_of definition.rec c))) }
    ensures touched { IfOk result (λ definition. TouchesOnly S.tells (S.state space.old)
        (S.state space.new) (index_keys (definition.id ∷ head_ids 12 definition.rec))) }
    ensures touches { TouchesIndex S.tells 13 (S.state space.old) (S.state space.new) }
    ensures onward { S.onward space.old space.new }
    ensures cause { HasTakeCause (S.faults space.old) (S.faults space.new) result }
{
    let meta = space.get(meta_key(INDEX))?;
    let start = definition_start(label, key, meta.number(META_DEFINITION));
    let rec = add_heads(space, start)?;
    let id = add_record(space, rec)?;
    set_number(space, meta_key(INDEX), META_DEFINITION, id)?;
    Ok(Definition { id, rec })
}

/// Adds the twelve records of heads of a definition, and names them in its record.
fn add_heads<S: Space>(space: &mut S, start: Rec) -> Result<Rec, TakeFault>
    ensures added { S.tells → IsWhole (S.state space.old) → IfOk result
        (AreHeadsAdded (S.state space.old) (S.state space.new) start 12) }
    ensures mishap { S.tells → IsWhole (S.state space.old)
        → HasLeft (S.state space.old) 12 → IfErr result IsMishap }
    ensures counted { S.tells → OnOk result
        (CountsMore (S.state space.old) (S.state space.new) 12) }
    ensures roomy { S.tells → HasLeft (S.state space.old) 12 → IfErr result IsNotFull }
    ensures damaged { S.tells → IfErr result (BlamesList (S.state space.old) index_file) }
    ensures damaged_after { S.tells → IfErr result
        (BlamesBroken (S.state space.new).records (S.state space.new).shape) }
    ensures kept { S.tells
        → IfOk result (PutsHeads (S.state space.old) (S.state space.new) 12) }
    ensures kind { IfOk result (λ rec. field 1 rec KIND ≡ field 1 start KIND) }
    ensures front { IfOk result (λ rec. (n at : ℕ) → at + n ≤ definition_heads
        → field n rec at ≡ field n start at) }
    ensures heads { IfOk result (λ rec. (c : ℕ) → c < 12
        → IsKey (key_in index_file (head_of rec c))) }
    ensures touched { IfOk result (λ rec. TouchesOnly S.tells (S.state space.old)
        (S.state space.new) (index_keys (head_ids 12 rec))) }
    ensures touches { TouchesIndex S.tells 12 (S.state space.old) (S.state space.new) }
    ensures onward { S.onward space.old space.new }
    ensures cause { HasTakeCause (S.faults space.old) (S.faults space.new) result }
{
    let mut rec = start;
    for number in 0..DEFINITION_HEAD_COUNT {
        let id = add_record(space, empty_heads())?;
        rec.set_number(DEFINITION_HEADS + 4 * number, id);
    }
    Ok(rec)
}

/// Takes an identifier of the index for a record, and writes the record.
fn add_record<S: Space>(space: &mut S, rec: Rec) -> Result<u32, TakeFault>
    ensures added { S.tells → IsWhole (S.state space.old) → field 1 rec KIND ≢ FREE
        → IfOk result (IsRecordAdded (S.state space.old) (S.state space.new) rec) }
    ensures mishap { S.tells → IsWhole (S.state space.old)
        → HasLeft (S.state space.old) 1 → IfErr result IsMishap }
    ensures counted { S.tells → OnOk result
        (CountsMore (S.state space.old) (S.state space.new) 1) }
    ensures roomy { S.tells → HasLeft (S.state space.old) 1 → IfErr result IsNotFull }
    ensures damaged { S.tells → IfErr result (BlamesList (S.state space.old) index_file) }
    ensures damaged_after { S.tells → IfErr result
        (BlamesBroken (S.state space.new).records (S.state space.new).shape) }
    ensures kept { S.tells → field 1 rec KIND ≢ FREE
        → IfOk result (PutsInUse (S.state space.old) (S.state space.new)) }
    ensures fresh { S.tells
        → IfOk result (λ id. kind_at (S.state space.old).records index_file id ≡ free_kind) }
    ensures here { S.tells
        → IfOk result (λ id. (S.state space.new).records (key_in index_file id) ≡ rec) }
    ensures key { IfOk result (λ id. IsKey (key_in index_file id)) }
    ensures touched { IfOk result (λ id. TouchesOnly S.tells (S.state space.old)
        (S.state space.new) (index_keys (id ∷ []))) }
    ensures touches { TouchesIndex S.tells 1 (S.state space.old) (S.state space.new) }
    ensures onward { S.onward space.old space.new }
    ensures cause { HasTakeCause (S.faults space.old) (S.faults space.new) result }
{
    let id = take(space, INDEX)?;
    space.put(Key { file: INDEX, id }, rec)?;
    Ok(id)
}
