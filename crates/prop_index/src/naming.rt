//! The index that is named where one of its buckets is no list.

ghost use Rattle.std.specs.Prelude.{◌≡◌, ◌⊎◌, ◌≤◌, ℕ, List, IfErr, IfOk, OnOk, Err};
ghost use Rattle.fault_count.specs.Cause.{Rose};
ghost use Rattle.prop_index.specs.Blaming.{BlamesBroken, NamesIndexes};
ghost use Rattle.prop_index.specs.Finding.{IsDefined};
ghost use Rattle.prop_index.specs.Naming.{BlamesDefinition, BlamesIndex, BlamesOther};
ghost use Rattle.rec_bytes.specs.Fault.{HasFaultCause, NotDamaged};
ghost use Rattle.rec_bytes.specs.Space.{SameButReads};
ghost use Rattle.rec_bytes.specs.declared.record.Rec.{Rec};
ghost use Rattle.store_rules.specs.IndexBreaking.{AreDefinitions, HasDefinitions};

use crate::finding::find_definition;
use crate::reading::damaged;
use rec_bytes::{Fault, INDEX, INDEX_RULE, NIL, PROPERTY_RULE, Reads, Rec};

/// The fault of a change of an entry. Where it blames a record of an index, it names the definition
/// of the label and the key, which no change of an entry writes. Where the definitions are no list,
/// it names what is wrong with them.
pub(crate) fn name_index<R: Reads>(space: &mut R, label: u32, key: u32, fault: Fault) -> Fault
    ensures named { R.tells → BlamesIndex (R.state space.old) label key fault → (ds : List ℕ)
        → AreDefinitions (R.state space.old).records ds
        → BlamesDefinition (R.state space.old) result }
    ensures damaged { R.tells → BlamesIndex (R.state space.old) label key fault
        → BlamesOther (R.state space.old) fault
        → BlamesBroken (R.state space.old).records (R.state space.old).shape result }
    ensures names { R.tells → NamesIndexes fault → NamesIndexes result }
    ensures passed { NotDamaged {T = ℕ} (Err fault) → result ≡ fault }
    ensures same { SameButReads (R.state space.old) (R.state space.new) }
    ensures onward { R.onward space.old space.new }
    ensures later { R.faults space.old ≤ R.faults space.new }
    ensures disk { result ≡ Fault.Disk
        → (fault ≡ Fault.Disk) ⊎ Rose (R.faults space.old) (R.faults space.new) }
{
    let Fault::Damaged(damage) = fault else {
        return fault;
    };
    if damage.file != INDEX {
        return fault;
    }
    match listed_definition(space, label, key) {
        Ok(Some(id)) => damaged(INDEX, id, INDEX_RULE),
        Ok(None) => fault,
        Err(other) => other,
    }
}

/// The definition of a label and a key, where the definitions are a list.
fn listed_definition<R: Reads>(space: &mut R, label: u32, key: u32) -> Result<Option<u32>, Fault>
    ensures list { R.tells → OnOk result (HasDefinitions (R.state space.old).records) }
    ensures defined { R.tells → IfOk result (λ found. (rec : Rec)
        × IsDefined (R.state space.old).records label key rec found) }
    ensures named { R.tells → (ds : List ℕ) → AreDefinitions (R.state space.old).records ds
        → IfErr result (BlamesDefinition (R.state space.old)) }
    ensures damaged { R.tells → IfErr result
        (BlamesBroken (R.state space.old).records (R.state space.old).shape) }
    ensures names { R.tells → IfErr result NamesIndexes }
    ensures same { SameButReads (R.state space.old) (R.state space.new) }
    ensures onward { R.onward space.old space.new }
    ensures cause { HasFaultCause (R.faults space.old) (R.faults space.new) result }
{
    let mut rec = Rec::ZEROS;
    test_definitions(space, &mut rec)?;
    let found = find_definition(space, label, key, &mut rec)?;
    Ok(found)
}

/// Tests that the definitions are a list. They are read into the caller's record.
fn test_definitions<R: Reads>(space: &mut R, rec: &mut Rec) -> Result<(), Fault>
    ensures list { R.tells → OnOk result (HasDefinitions (R.state space.old).records) }
    ensures named { R.tells → (ds : List ℕ) → AreDefinitions (R.state space.old).records ds
        → IfErr result (BlamesDefinition (R.state space.old)) }
    ensures damaged { R.tells → IfErr result
        (BlamesBroken (R.state space.old).records (R.state space.old).shape) }
    ensures names { R.tells → IfErr result NamesIndexes }
    ensures same { SameButReads (R.state space.old) (R.state space.new) }
    ensures onward { R.onward space.old space.new }
    ensures cause { HasFaultCause (R.faults space.old) (R.faults space.new) result }
{
    // A definition has a label, so the search for one without goes through all.
    let unnamed = find_definition(space, NIL, NIL, rec)?;
    match unnamed {
        None => Ok(()),
        Some(id) => Err(damaged(INDEX, id, PROPERTY_RULE)),
    }
}
