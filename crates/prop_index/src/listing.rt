//! The pairs that have an index.

ghost use Rattle.std.specs.Prelude.{◌≡◌, ◌≤◌, IfErr, IfOk, length, map};
ghost use Rattle.prop_index.specs.Blaming.{NamesIndexes};
ghost use Rattle.prop_index.specs.Listing.{ArePairsMet, pair_of};
ghost use Rattle.prop_index.specs.Reading.{HasRoom};
ghost use Rattle.prop_index.specs.Blaming.{BlamesBroken};
ghost use Rattle.prop_store.specs.Reading.{ReadsAtMost};
ghost use Rattle.rec_bytes.specs.Fault.{HasFaultCause, NotDamaged};
ghost use Rattle.rec_bytes.specs.Format.{index_file};
ghost use Rattle.store_rules.specs.Indexes.{AreIndexed, Entries};

use crate::reading::{damaged, out_of_range, record_at};
use rec_bytes::{
    DEFINITION, DEFINITION_KEY, DEFINITION_LABEL, DEFINITION_NEXT, Damage, Fault, INDEX,
    INDEX_RULE, META, META_DEFINITION, MOST_INDEXES, NIL, RANGE_RULE, Reads, Rec, meta_key,
};
use std::alloc::Global;

/// A label and a key that have an index, by the numbers of their names.
#[derive(Clone, Copy, Debug, PartialEq, Eq)]
pub struct IndexPair {
    pub label: u32,
    pub key: u32,
}

/// The pairs of label and key that have an index, in the order of the definitions' chain.
pub fn indexes<R: Reads>(alloc: Global, space: &mut R) -> Result<Vec<IndexPair>, Fault>
    ensures listed { R.tells → (wanted : Entries)
        → (ix : AreIndexed (R.state space.old).records wanted)
        → IfOk result (λ pairs. pairs.items
        ≡ map (pair_of (R.state space.old).records) ix.definitions) }
    ensures not_damaged { R.tells → (wanted : Entries)
        → AreIndexed (R.state space.old).records wanted
        → HasRoom (R.state space.old) index_file → NotDamaged result }
    ensures walked { R.tells → IfOk result
        (λ pairs. ArePairsMet (R.state space.old).records pairs.items) }
    ensures damaged { R.tells → IfErr result
        (BlamesBroken (R.state space.old).records (R.state space.old).shape) }
    ensures names { R.tells → IfErr result NamesIndexes }
    ensures few { IfOk result (λ pairs. length pairs.items ≤ 16) }
    ensures at_most { ReadsAtMost 17 (R.state space.old) (R.state space.new) }
    ensures onward { R.onward space.old space.new }
    ensures cause { HasFaultCause (R.faults space.old) (R.faults space.new) result }
{
    let mut pairs = Vec::new(alloc);
    let mut rec = Rec::ZEROS;
    space.get_into(meta_key(INDEX), &mut rec)?;
    let mut named = Damage {
        file: META,
        id: INDEX as u32,
        rule: RANGE_RULE,
    };
    let mut at = rec.number(META_DEFINITION);
    for _ in 0..MOST_INDEXES {
        if at == NIL {
            return Ok(pairs);
        }
        record_at(space, at, DEFINITION, named, &mut rec)?;
        let label = rec.number(DEFINITION_LABEL);
        let key = rec.number(DEFINITION_KEY);
        pairs.push(IndexPair { label, key })?;
        named = out_of_range(at);
        at = rec.number(DEFINITION_NEXT);
    }
    if at != NIL {
        return Err(damaged(META, INDEX as u32, INDEX_RULE));
    }
    Ok(pairs)
}
