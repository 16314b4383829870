ghost use Rattle.std.specs.Prelude.{◌≡◌, ◌<◌, ◌∷◌, [], ◌++◌, length};
ghost use Rattle.std.specs.Bool.{Decides};
ghost use Rattle.store_rules.specs.Chains.{In};

use arrayvec::ArrayVec;
use rec_bytes::NIL;

/// How many relationships a node has at most where it becomes dense, and one.
const MOST: usize = 201;

/// A relationship that came into a group.
#[derive(Clone, Copy)]
pub(crate) struct Turn {
    /// The relationship that comes after it in the chain of the node that it left.
    pub(crate) next: u32,
    /// Its group.
    pub(crate) group: u32,
    /// The group that stood first at the node where its group was made, or `NIL`.
    pub(crate) before: u32,
    /// The relationship that stood first at its head, or `NIL`.
    pub(crate) first: u32,
}

/// What a node that becomes dense may have written beside a relationship: `NIL`, which is none, and
/// the relationships that came into groups, with these groups.
#[derive(Drop)]
pub(crate) struct Moved {
    relationships: ArrayVec<u32, MOST>,
    groups: ArrayVec<u32, MOST>,
}

impl Moved {
    /// Nothing has come into a group.
    pub(crate) fn new() -> Moved
        ensures relationships { result.relationships.items ≡ NIL ∷ [] }
        ensures groups { result.groups.items ≡ NIL ∷ [] }
    {
        let mut moved = Moved {
            relationships: ArrayVec::new(),
            groups: ArrayVec::new(),
        };
        moved.relationships.push(NIL);
        moved.groups.push(NIL);
        moved
    }

    /// Notes a relationship and its group, and says whether what stood first before, at its head
    /// and among the groups, was noted before.
    pub(crate) fn note(&mut self, rel: u32, turn: &Turn) -> bool
        requires relationships { length self.old.relationships.items < MOST }
        requires groups { length self.old.groups.items < MOST }
        ensures relationships { self.new.relationships.items
            ≡ self.old.relationships.items ++ rel ∷ [] }
        ensures groups { self.new.groups.items ≡ self.old.groups.items ++ turn.now.group ∷ [] }
        ensures known { Decides result (In turn.now.first self.old.relationships.items
            × In turn.now.before self.old.groups.items) }
    {
        let known = has(self.relationships.as_slice(), turn.first)
            && has(self.groups.as_slice(), turn.before);
        self.relationships.push(rel);
        self.groups.push(turn.group);
        known
    }
}

/// Whether the identifier is among these.
fn has(ids: &[u32], id: u32) -> bool
    ensures { Decides result (In id ids.now) }
{
    ids.contains(&id)
}
