ghost use Rattle.std.specs.Prelude.{◌≡◌};
ghost use Rattle.chain_edit.specs.Length.{agrees, is_member_in};

use rec_bytes::{FREE, KIND, RELATIONSHIP_SOURCE, RELATIONSHIP_TARGET, RELATIONSHIP_TYPE, Rec};

/// Which relationships of a node stand in a chain: those of a type that leave the node, enter it,
/// or do both.
#[derive(Clone, Copy)]
pub struct Members {
    /// The number of the type's name.
    pub label: u32,
    /// Whether they leave the node.
    pub leaves: bool,
    /// Whether they enter it.
    pub enters: bool,
}

/// Whether the record is that of a relationship in use that stands in such a chain of the node.
pub(crate) fn is_member(rec: &Rec, node: u32, members: Members) -> bool
    ensures { result ≡ is_member_in rec.now node members }
{
    rec.byte(KIND) != FREE
        && (rec.number(RELATIONSHIP_TYPE) == members.label
            && (agrees(members.leaves, rec.number(RELATIONSHIP_SOURCE) == node)
                && agrees(members.enters, rec.number(RELATIONSHIP_TARGET) == node)))
}

/// Whether an answer is the one that is wanted.
fn agrees(wanted: bool, is: bool) -> bool
    ensures { result ≡ agrees wanted is }
{
    if wanted { is } else { !is }
}
