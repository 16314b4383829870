ghost use Rattle.std.specs.Prelude.{◌≡◌};
ghost use Rattle.node_store.specs.NodeRecord.{kind_of, node_record, row_of};

use crate::NodeRow;
use rec_bytes::{
    DENSE, KIND, NODE_DEGREE, NODE_FIRST_LINK, NODE_FIRST_PROPERTY, NODE_LABEL, Rec, SPARSE,
};

/// The record of a node, with zeros in all other bytes.
#[tactic(auto, unfolding(rec_bytes::specs::Tables::with_fields))]
pub(crate) fn node_record(row: &NodeRow) -> Rec
    ensures is { result ≡ node_record row.now }
    ensures got { row_of result row.now.id ≡ row.now }
{
    let mut rec = Rec::ZEROS;
    rec.set_byte(KIND, kind_of(row.dense));
    rec.set_number(NODE_LABEL, row.label);
    rec.set_number(NODE_FIRST_LINK, row.first);
    rec.set_number(NODE_FIRST_PROPERTY, row.props);
    rec.set_number(NODE_DEGREE, row.degree);
    rec
}

/// The kind of a node's record.
fn kind_of(dense: bool) -> u8
    ensures { result ≡ kind_of dense }
{
    if dense { DENSE } else { SPARSE }
}

/// The fields of a node's record.
pub(crate) fn row_of(rec: &Rec, id: u32) -> NodeRow
    ensures { result ≡ row_of rec.now id }
{
    NodeRow {
        id,
        label: rec.number(NODE_LABEL),
        dense: rec.byte(KIND) == DENSE,
        first: rec.number(NODE_FIRST_LINK),
        props: rec.number(NODE_FIRST_PROPERTY),
        degree: rec.number(NODE_DEGREE),
    }
}
