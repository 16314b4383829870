//! Rows of the ends and the links of all relationships, 24 bytes each, read in the order of the
//! file.

ghost use Rattle.std.specs.Prelude.{◌≡◌, ◌+◌, ◌*◌, ◌<◌, IfOk, length};
ghost use Rattle.rec_bytes.specs.Format.{most_ids, relationships_file};
ghost use Rattle.rec_bytes.specs.Frame.{IsRead};
ghost use Rattle.rec_bytes.specs.Space.{HasCause};
ghost use Rattle.store_rules.specs.Views.{high};
ghost use Rattle.record_lists.specs.Deciding.{AreMarksLow};
ghost use Rattle.chain_check.specs.LinkRows.{
  AreLinkRows,
  free_row,
  link_row,
  row_at,
  row_end,
  row_fits,
  row_next,
  row_previous,
  used_row,
};

use rec_bytes::{
    FREE, KIND, Key, NIL, RELATIONSHIP_SOURCE, RELATIONSHIP_SOURCE_NEXT,
    RELATIONSHIP_SOURCE_PREVIOUS, RELATIONSHIP_TARGET, RELATIONSHIP_TARGET_NEXT,
    RELATIONSHIP_TARGET_PREVIOUS, RELATIONSHIPS, Reads, Rec, SpaceFault,
};
use std::alloc::Global;

/// The ends of a relationship, and its links in the chains of both. A free record has no ends.
#[derive(Drop)]
pub struct LinkRow {
    pub(crate) source: u32,
    pub(crate) target: u32,
    pub(crate) source_previous: u32,
    pub(crate) source_next: u32,
    pub(crate) target_previous: u32,
    pub(crate) target_next: u32,
}

impl LinkRow {
    /// The relationship after it in the chain of the node.
    pub(crate) fn next(&self, node: u32) -> u32
        ensures { result ≡ row_next node self.now }
    {
        if self.source == node {
            self.source_next
        } else {
            self.target_next
        }
    }

    /// The relationship before it there.
    fn previous(&self, node: u32) -> u32
        ensures { result ≡ row_previous node self.now }
    {
        if self.source == node {
            self.source_previous
        } else {
            self.target_previous
        }
    }

    /// Whether it is at the node, and stands after another one in its chain, or first, after none.
    pub(crate) fn fits(&self, node: u32, before: u32) -> bool
        ensures { result ≡ row_fits node before self.now }
    {
        (self.source == node || self.target == node) && self.previous(node) == before
    }

    /// The number of its end at the node.
    pub(crate) fn end(&self, node: u32, id: u32) -> u32
        requires { id < most_ids }
        ensures is { result ≡ row_end node id self.now }
        ensures low { result < 2 * id + 2 }
    {
        if self.source == node {
            2 * id
        } else {
            2 * id + 1
        }
    }
}

/// The row of a record in use.
fn used_row(rec: &Rec) -> LinkRow
    ensures { result ≡ used_row rec.now }
{
    LinkRow {
        source: rec.number(RELATIONSHIP_SOURCE),
        target: rec.number(RELATIONSHIP_TARGET),
        source_previous: rec.number(RELATIONSHIP_SOURCE_PREVIOUS),
        source_next: rec.number(RELATIONSHIP_SOURCE_NEXT),
        target_previous: rec.number(RELATIONSHIP_TARGET_PREVIOUS),
        target_next: rec.number(RELATIONSHIP_TARGET_NEXT),
    }
}

/// The row of a record that isn't in use. No node has the number of its ends.
fn free_row() -> LinkRow
    ensures { result ≡ free_row }
{
    LinkRow {
        source: NIL,
        target: NIL,
        source_previous: NIL,
        source_next: NIL,
        target_previous: NIL,
        target_next: NIL,
    }
}

/// The row of a record.
fn link_row(rec: &Rec) -> LinkRow
    ensures { result ≡ link_row rec.now }
{
    if rec.byte(KIND) == FREE {
        free_row()
    } else {
        used_row(rec)
    }
}

/// The row at a place.
pub(crate) fn row_at(rows: &[LinkRow], id: u32) -> &LinkRow
    requires { id < length rows.now }
    ensures { result.now ≡ row_at rows.now id }
{
    &rows[id as usize]
}

/// The rows of all relationships. It reads each of them once.
pub(crate) fn link_rows<R: Reads>(alloc: Global, space: &mut R) -> Result<Vec<LinkRow>, SpaceFault>
    requires { AreMarksLow (R.state space.old).records }
    ensures rows { R.tells
        → IfOk result (λ rows. AreLinkRows (R.state space.old).records rows.items) }
    ensures len { IfOk result
        (λ rows. length rows.items ≡ high (R.state space.old).records relationships_file) }
    ensures read { IsRead R.Reads space.old space.new }
    ensures cause { HasCause (R.faults space.old) (R.faults space.new) result }
{
    let relationships = space.meta(RELATIONSHIPS).high;
    let Ok(mut rows) = Vec::with_capacity(alloc, relationships as usize) else {
        return Err(SpaceFault::Memory);
    };
    for id in 0..relationships {
        let rec = space.get(Key {
            file: RELATIONSHIPS,
            id,
        })?;
        let Ok(()) = rows.push(link_row(&rec)) else {
            return Err(SpaceFault::Memory);
        };
    }
    Ok(rows)
}
