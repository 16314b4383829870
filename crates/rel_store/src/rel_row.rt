ghost use Rattle.std.specs.Prelude.{◌≡◌};

/// A relationship in use, as its record says it.
#[derive(Clone, Copy, Debug, PartialEq, Eq)]
pub struct RelRow {
    /// Its identifier, which the record doesn't hold.
    pub id: u32,
    /// The number of its type's name.
    pub label: u32,
    /// The node that it leaves.
    pub from: u32,
    /// The node that it enters.
    pub to: u32,
    /// The one before it in its chain at the source, or `NIL`.
    pub source_previous: u32,
    /// The one after it in its chain at the source, or `NIL`.
    pub source_next: u32,
    /// The one before it in its chain at the target, or `NIL`.
    pub target_previous: u32,
    /// The one after it in its chain at the target, or `NIL`.
    pub target_next: u32,
    /// Its first property, or `NIL`.
    pub property: u32,
}

impl RelRow {
    /// Changes the type alone.
    pub fn set_label(&mut self, label: u32)
        ensures { self.new ≡ record self.old { label = label } }
    {
        self.label = label;
    }

    /// Changes the source alone.
    pub fn set_from(&mut self, from: u32)
        ensures { self.new ≡ record self.old { from = from } }
    {
        self.from = from;
    }

    /// Changes the target alone.
    pub fn set_to(&mut self, to: u32)
        ensures { self.new ≡ record self.old { to = to } }
    {
        self.to = to;
    }

    /// Changes the source's previous link alone.
    pub fn set_source_previous(&mut self, source_previous: u32)
        ensures { self.new ≡ record self.old { source_previous = source_previous } }
    {
        self.source_previous = source_previous;
    }

    /// Changes the source's next link alone.
    pub fn set_source_next(&mut self, source_next: u32)
        ensures { self.new ≡ record self.old { source_next = source_next } }
    {
        self.source_next = source_next;
    }

    /// Changes the target's previous link alone.
    pub fn set_target_previous(&mut self, target_previous: u32)
        ensures { self.new ≡ record self.old { target_previous = target_previous } }
    {
        self.target_previous = target_previous;
    }

    /// Changes the target's next link alone.
    pub fn set_target_next(&mut self, target_next: u32)
        ensures { self.new ≡ record self.old { target_next = target_next } }
    {
        self.target_next = target_next;
    }

    /// Changes the first property alone.
    pub fn set_property(&mut self, property: u32)
        ensures { self.new ≡ record self.old { property = property } }
    {
        self.property = property;
    }
}
