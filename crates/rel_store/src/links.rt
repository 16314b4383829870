ghost use Rattle.std.specs.Prelude.{◌≡◌, ◌+◌, ◌≤◌, true};
ghost use Rattle.rec_bytes.specs.declared.record.Rec.{Rec};
ghost use Rattle.store_rules.specs.Chains.{next_in, place_of, prev_in};
ghost use Rattle.rel_store.specs.Linked.{end_links, is_link};
ghost use Rattle.rel_store.specs.RelRecord.{row_of};

use crate::RelRow;
use rec_bytes::{
    RELATIONSHIP_SOURCE, RELATIONSHIP_SOURCE_PREVIOUS, RELATIONSHIP_TARGET_PREVIOUS, Rec,
};

/// The previous and the next link that a chain of the node uses. A loop's are those of its source.
pub fn end_links(rel: &RelRow, node: u32) -> (u32, u32)
    ensures is { result ≡ end_links rel.now node }
    ensures of_record { (rec : Rec) → rel.now ≡ row_of rec rel.now.id
        → result ≡ (prev_in rec node, next_in rec node) }
{
    if rel.from == node {
        (rel.source_previous, rel.source_next)
    } else {
        (rel.target_previous, rel.target_next)
    }
}

/// The place of the previous link that a chain of the node uses in a relationship's record. The
/// next link stands four bytes on. A loop's are those of its source.
pub fn place_of(rec: &Rec, node: u32) -> u8
    ensures is { result ≡ place_of rec.now node }
    ensures previous { is_link result ≡ true }
    ensures next { is_link (result + 4) ≡ true }
    ensures bound { result ≤ RELATIONSHIP_TARGET_PREVIOUS }
{
    if rec.number(RELATIONSHIP_SOURCE) == node {
        RELATIONSHIP_SOURCE_PREVIOUS
    } else {
        RELATIONSHIP_TARGET_PREVIOUS
    }
}
