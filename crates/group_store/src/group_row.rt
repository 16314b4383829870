ghost use Rattle.std.specs.Prelude.{◌≡◌};

/// A group in use, as its record says it, but for its owner and its neighbours.
#[derive(Clone, Copy, Debug, PartialEq, Eq)]
pub struct GroupRow {
    /// Its identifier, which the record doesn't hold.
    pub id: u32,
    /// The number of its type's name.
    pub label: u32,
    /// The first of the relationships that leave its owner, or `NIL`.
    pub first_out: u32,
    /// The first of those that enter it, or `NIL`.
    pub first_in: u32,
    /// The first of those that do both, or `NIL`.
    pub first_loop: u32,
    /// Whether the record has the numbers of relationships in the three chains. They are 0 where it
    /// hasn't.
    pub counted: bool,
    /// How many relationships leave the owner.
    pub out_count: u32,
    /// How many enter it.
    pub in_count: u32,
    /// How many do both.
    pub loop_count: u32,
}

impl GroupRow {
    /// Changes the type alone.
    pub fn set_label(&mut self, label: u32)
        ensures { self.new ≡ record self.old { label = label } }
    {
        self.label = label;
    }
}
