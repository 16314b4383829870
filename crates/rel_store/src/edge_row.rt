ghost use Rattle.std.specs.Prelude.{◌≡◌};
ghost use Rattle.rel_store.specs.RelRecord.{edge_of};

use rec_bytes::{RELATIONSHIP_SOURCE, RELATIONSHIP_TARGET, RELATIONSHIP_TYPE, Rec};

/// A relationship without its links and properties.
#[derive(Clone, Copy, Debug, PartialEq, Eq)]
pub struct EdgeRow {
    /// Its identifier, which the record doesn't hold.
    pub id: u32,
    /// The number of its type's name.
    pub label: u32,
    /// The node that it leaves.
    pub from: u32,
    /// The node that it enters.
    pub to: u32,
}

impl EdgeRow {
    /// What the record of a relationship says.
    pub fn of(rec: &Rec, id: u32) -> Self
        ensures { result ≡ edge_of rec.now id }
    {
        EdgeRow {
            id,
            label: rec.number(RELATIONSHIP_TYPE),
            from: rec.number(RELATIONSHIP_SOURCE),
            to: rec.number(RELATIONSHIP_TARGET),
        }
    }
}
