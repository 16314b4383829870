ghost use Rattle.std.specs.Prelude.{◌||◌};
ghost use Rattle.rec_bytes.specs.Format as format;
ghost use Rattle.node_store.specs.NodeRecord.{is_node_kind, node_record, row_of};
ghost use Rattle.node_store.specs.RowKinds.{no_kind, own_kind};
ghost use Rattle.std.proofs.Common.{refl};

use crate::NodeRow;
use crate::node_record::{node_record, row_of};
use rec_bytes::{DENSE, NODES, Rec, SPARSE};
use row_store::Row;

impl Row for NodeRow {
    ghost FILE = { format.nodes_file };

    ghost is_kind = { is_node_kind };

    ghost row_of = { row_of };

    ghost id_of = { λ row. row.id };

    ghost record_of = { node_record };

    ghost in_file = { refl };

    ghost in_reused = { refl };

    ghost no_kind = { no_kind };

    ghost own_kind = { own_kind };

    const FILE: u8 = NODES;

    fn is_kind(kind: u8) -> bool {
        kind == SPARSE || kind == DENSE
    }

    fn of(rec: &Rec, id: u32) -> NodeRow {
        row_of(rec, id)
    }

    fn id(&self) -> u32 {
        self.id
    }

    fn record(&self) -> Rec {
        node_record(self)
    }
}
