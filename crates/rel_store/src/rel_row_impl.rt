ghost use Rattle.rec_bytes.specs.Format as format;
ghost use Rattle.rel_store.specs.RelRecord.{is_rel_kind, rel_record, row_of};
ghost use Rattle.rel_store.specs.RowKinds.{no_kind, own_kind};
ghost use Rattle.std.proofs.Common.{refl};

use crate::RelRow;
use crate::rel_record::{rel_record, row_of};
use rec_bytes::{RELATED, RELATIONSHIPS, Rec};
use row_store::Row;

impl Row for RelRow {
    ghost FILE = { format.relationships_file };

    ghost is_kind = { is_rel_kind };

    ghost row_of = { row_of };

    ghost id_of = { λ row. row.id };

    ghost record_of = { rel_record };

    ghost in_file = { refl };

    ghost in_reused = { refl };

    ghost no_kind = { no_kind };

    ghost own_kind = { own_kind };

    const FILE: u8 = RELATIONSHIPS;

    fn is_kind(kind: u8) -> bool {
        kind == RELATED
    }

    fn of(rec: &Rec, id: u32) -> RelRow {
        row_of(rec, id)
    }

    fn id(&self) -> u32 {
        self.id
    }

    fn record(&self) -> Rec {
        rel_record(self)
    }
}
