ghost use Rattle.std.specs.Prelude.{◌≡◌};
ghost use Rattle.rel_store.specs.RelRecord.{rel_record, row_of, rel_used};
ghost use Rattle.store_rules.specs.Ranges.{IsBlankOutside};

use crate::RelRow;
use rec_bytes::{
    KIND, RELATED, RELATIONSHIP_FIRST_PROPERTY, RELATIONSHIP_SOURCE, RELATIONSHIP_SOURCE_NEXT,
    RELATIONSHIP_SOURCE_PREVIOUS, RELATIONSHIP_TARGET, RELATIONSHIP_TARGET_NEXT,
    RELATIONSHIP_TARGET_PREVIOUS, RELATIONSHIP_TYPE, Rec,
};

/// The record of a relationship, with zeros in all other bytes.
#[tactic(auto, unfolding(rec_bytes::specs::Tables::with_fields))]
pub(crate) fn rel_record(row: &RelRow) -> Rec
    ensures is { result ≡ rel_record row.now }
    ensures got { row_of result row.now.id ≡ row.now }
    ensures blank { IsBlankOutside rel_used result }
{
    let mut rec = Rec::ZEROS;
    rec.set_byte(KIND, RELATED);
    rec.set_number(RELATIONSHIP_TYPE, row.label);
    rec.set_number(RELATIONSHIP_SOURCE, row.from);
    rec.set_number(RELATIONSHIP_TARGET, row.to);
    rec.set_number(RELATIONSHIP_SOURCE_PREVIOUS, row.source_previous);
    rec.set_number(RELATIONSHIP_SOURCE_NEXT, row.source_next);
    rec.set_number(RELATIONSHIP_TARGET_PREVIOUS, row.target_previous);
    rec.set_number(RELATIONSHIP_TARGET_NEXT, row.target_next);
    rec.set_number(RELATIONSHIP_FIRST_PROPERTY, row.property);
    rec
}

/// The fields of a relationship's record.
pub(crate) fn row_of(rec: &Rec, id: u32) -> RelRow
    ensures { result ≡ row_of rec.now id }
{
    RelRow {
        id,
        label: rec.number(RELATIONSHIP_TYPE),
        from: rec.number(RELATIONSHIP_SOURCE),
        to: rec.number(RELATIONSHIP_TARGET),
        source_previous: rec.number(RELATIONSHIP_SOURCE_PREVIOUS),
        source_next: rec.number(RELATIONSHIP_SOURCE_NEXT),
        target_previous: rec.number(RELATIONSHIP_TARGET_PREVIOUS),
        target_next: rec.number(RELATIONSHIP_TARGET_NEXT),
        property: rec.number(RELATIONSHIP_FIRST_PROPERTY),
    }
}
