ghost use Rattle.std.specs.Prelude.{◌≡◌, ◌≢◌, ℕ, true};
ghost use Rattle.rel_store.specs.Linked.{is_link, link_in, link_in_row, with_link_in};
ghost use Rattle.rel_store.specs.Linked.{with_link_in_row};

use crate::RelRow;
use rec_bytes::{
    RELATIONSHIP_SOURCE_NEXT, RELATIONSHIP_SOURCE_PREVIOUS, RELATIONSHIP_TARGET_PREVIOUS, Rec,
};

/// The four links of a relationship. A field is named by its place in the record: 16 and 20 are the
/// previous and the next link at the source, 24 and 28 those at the target.
pub trait Linked {
    /// The link of a field.
    ghost link_of: { Self → ℕ → ℕ };

    /// The same relationship with another link in a field.
    ghost with_link: { Self → ℕ → ℕ → Self };

    /// Reads a link.
    fn link(&self, field: u8) -> u32
        requires { is_link field ≡ true }
        ensures { result ≡ link_of self.now field };

    /// Changes a link alone.
    fn set_link(&mut self, field: u8, to: u32)
        requires { is_link field ≡ true }
        ensures set { self.new ≡ with_link self.old field to }
        ensures got { link_of self.new field ≡ to }
        ensures others { (other : ℕ) → is_link other ≡ true → other ≢ field
            → link_of self.new other ≡ link_of self.old other };
}

impl Linked for Rec {
    ghost link_of = { link_in };

    ghost with_link = { with_link_in };

    fn link(&self, field: u8) -> u32 {
        self.number(field)
    }

    fn set_link(&mut self, field: u8, to: u32) {
        self.set_number(field, to);
    }
}

impl Linked for RelRow {
    ghost link_of = { link_in_row };

    ghost with_link = { with_link_in_row };

    fn link(&self, field: u8) -> u32 {
        if field == RELATIONSHIP_SOURCE_PREVIOUS {
            self.source_previous
        } else if field == RELATIONSHIP_SOURCE_NEXT {
            self.source_next
        } else if field == RELATIONSHIP_TARGET_PREVIOUS {
            self.target_previous
        } else {
            self.target_next
        }
    }

    fn set_link(&mut self, field: u8, to: u32) {
        if field == RELATIONSHIP_SOURCE_PREVIOUS {
            self.source_previous = to;
        } else if field == RELATIONSHIP_SOURCE_NEXT {
            self.source_next = to;
        } else if field == RELATIONSHIP_TARGET_PREVIOUS {
            self.target_previous = to;
        } else {
            self.target_next = to;
        }
    }
}
