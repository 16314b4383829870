ghost use Rattle.std.specs.Prelude.{◌≡◌, ◌≤◌};
ghost use Rattle.group_store.specs.GroupRecord.{count_in, read_row, row_of};

use crate::GroupRow;
use rec_bytes::{
    COUNTED, Damage, FREE, GROUP_FIRST_IN, GROUP_FIRST_LOOP, GROUP_FIRST_OUT, GROUP_IN_COUNT,
    GROUP_LOOP_COUNT, GROUP_OUT_COUNT, GROUP_TYPE, GROUPED, GROUPS, KIND, RANGE_RULE, Rec,
    RowFault,
};

/// The row of a record of the groups, by its kind: none where it is free.
pub(crate) fn read_row(rec: &Rec, id: u32) -> Result<Option<GroupRow>, RowFault>
    ensures { result ≡ read_row rec.now id }
{
    let kind = rec.byte(KIND);
    if kind == FREE {
        Ok(None)
    } else if kind == GROUPED || kind == COUNTED {
        Ok(Some(row_of(rec, id)))
    } else {
        Err(RowFault::Damaged(Damage {
            file: GROUPS,
            id,
            rule: RANGE_RULE,
        }))
    }
}

/// The fields of a group's record.
pub(crate) fn row_of(rec: &Rec, id: u32) -> GroupRow
    ensures { result ≡ row_of rec.now id }
{
    let counted = rec.byte(KIND) == COUNTED;
    GroupRow {
        id,
        label: rec.number(GROUP_TYPE),
        first_out: rec.number(GROUP_FIRST_OUT),
        first_in: rec.number(GROUP_FIRST_IN),
        first_loop: rec.number(GROUP_FIRST_LOOP),
        counted,
        out_count: count_in(rec, GROUP_OUT_COUNT),
        in_count: count_in(rec, GROUP_IN_COUNT),
        loop_count: count_in(rec, GROUP_LOOP_COUNT),
    }
}

/// The number of relationships at a place, and 0 where the group has none.
fn count_in(rec: &Rec, place: u8) -> u32
    requires { place ≤ 60 }
    ensures { result ≡ count_in rec.now place }
{
    if rec.byte(KIND) == COUNTED {
        rec.number(place)
    } else {
        0
    }
}
