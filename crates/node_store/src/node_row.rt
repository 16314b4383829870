ghost use Rattle.std.specs.Prelude.{◌≡◌};

/// A node in use, as its record says it.
#[derive(Clone, Copy, Debug, PartialEq, Eq)]
pub struct NodeRow {
    /// Its identifier, which the record doesn't hold.
    pub id: u32,
    /// The number of its label's name.
    pub label: u32,
    /// Whether its first link is to a group. The first link of a sparse node is to a relationship.
    pub dense: bool,
    /// Its first link, or `NIL`.
    pub first: u32,
    /// Its first property, or `NIL`.
    pub props: u32,
    /// How many relationships it has, a loop counted once.
    pub degree: u32,
}

impl NodeRow {
    /// Changes the label alone.
    pub fn set_label(&mut self, label: u32)
        ensures { self.new ≡ record self.old { label = label } }
    {
        self.label = label;
    }

    /// Changes alone whether it is dense.
    pub fn set_dense(&mut self, dense: bool)
        ensures { self.new ≡ record self.old { dense = dense } }
    {
        self.dense = dense;
    }

    /// Changes the first link alone.
    pub fn set_first(&mut self, first: u32)
        ensures { self.new ≡ record self.old { first = first } }
    {
        self.first = first;
    }

    /// Changes the first property alone.
    pub fn set_props(&mut self, props: u32)
        ensures { self.new ≡ record self.old { props = props } }
    {
        self.props = props;
    }

    /// Changes the degree alone.
    pub fn set_degree(&mut self, degree: u32)
        ensures { self.new ≡ record self.old { degree = degree } }
    {
        self.degree = degree;
    }
}
