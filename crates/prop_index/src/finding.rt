//! The definition of a pair.

ghost use Rattle.std.specs.Prelude.{◌≡◌, ◌↔◌, ◌+◌, ℕ, List, IfErr, IfOk, IsTrue, length};
ghost use Rattle.rec_bytes.specs.Record.{field};
ghost use Rattle.prop_index.specs.Blaming.{NamesIndexes};
ghost use Rattle.prop_index.specs.Finding.{IsDefined, IsFound};
ghost use Rattle.store_rules.specs.IndexBreaking.{AreDefinitions};
ghost use Rattle.prop_index.specs.Naming.{BlamesMark};
ghost use Rattle.rec_bytes.specs.Fault.{HasFaultCause};
ghost use Rattle.prop_index.specs.Blaming.{BlamesBroken};
ghost use Rattle.prop_store.specs.Reading.{ReadsAtMost};

use crate::reading::{damaged, out_of_range, record_at};
use rec_bytes::{
    DEFINITION, DEFINITION_KEY, DEFINITION_LABEL, DEFINITION_NEXT, Damage, Fault, INDEX,
    INDEX_RULE, META, META_DEFINITION, MOST_INDEXES, NIL, RANGE_RULE, Reads, Rec, meta_key,
};

/// A definition in use.
#[derive(Clone, Copy)]
pub(crate) struct Definition {
    pub id: u32,
    pub rec: Rec,
}

/// Finds the definition of a label and a key, and reads it into the caller's record.
pub(crate) fn find_definition<R: Reads>(
    space: &mut R,
    label: u32,
    key: u32,
    rec: &mut Rec,
) -> Result<Option<u32>, Fault>
    ensures found { R.tells → (ds : List ℕ) → AreDefinitions (R.state space.old).records ds
        → IfOk result (IsFound (R.state space.old).records ds label key) }
    ensures defined { R.tells
        → IfOk result (IsDefined (R.state space.old).records label key rec.new) }
    ensures listed { R.tells → (ds : List ℕ) → AreDefinitions (R.state space.old).records ds
        → IfErr result (BlamesMark (R.state space.old)) }
    ensures damaged { R.tells → IfErr result
        (BlamesBroken (R.state space.old).records (R.state space.old).shape) }
    ensures names { R.tells → IfErr result NamesIndexes }
    ensures cost { R.tells → (ds : List ℕ) → AreDefinitions (R.state space.old).records ds
        → ReadsAtMost (1 + length ds) (R.state space.old) (R.state space.new) }
    ensures at_most { ReadsAtMost 17 (R.state space.old) (R.state space.new) }
    ensures onward { R.onward space.old space.new }
    ensures cause { HasFaultCause (R.faults space.old) (R.faults space.new) result }
{
    space.get_into(meta_key(INDEX), rec)?;
    let mut named = Damage {
        file: META,
        id: INDEX as u32,
        rule: RANGE_RULE,
    };
    let mut at = rec.number(META_DEFINITION);
    for _ in 0..MOST_INDEXES {
        if at == NIL {
            return Ok(None);
        }
        record_at(space, at, DEFINITION, named, rec)?;
        if is_of_pair(rec, label, key) {
            return Ok(Some(at));
        }
        named = out_of_range(at);
        at = rec.number(DEFINITION_NEXT);
    }
    if at != NIL {
        return Err(damaged(META, INDEX as u32, INDEX_RULE));
    }
    Ok(None)
}

/// Whether the record of a definition has the label and the key.
fn is_of_pair(rec: &Rec, label: u32, key: u32) -> bool
    ensures { IsTrue result ↔ (field 4 rec.now DEFINITION_LABEL ≡ label)
        × (field 4 rec.now DEFINITION_KEY ≡ key) }
{
    rec.number(DEFINITION_LABEL) == label && rec.number(DEFINITION_KEY) == key
}
