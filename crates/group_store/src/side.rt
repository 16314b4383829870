ghost use Rattle.std.specs.Prelude.{◌≡◌, true};
ghost use Rattle.rec_bytes.specs.Key.{IsKey};
ghost use Rattle.rec_bytes.specs.RecordFiles.{is_meta_file};
ghost use Rattle.store_rules.specs.Rules.{node_head};
ghost use Rattle.node_store.specs.NodeRecord.{node_key};
ghost use Rattle.chain_edit.specs.Heads.{head_of, IsHead};
ghost use Rattle.group_store.specs.GroupRecord.{group_key};
ghost use Rattle.group_store.specs.Sides.{group_head, place_of, side_at};

use chain_edit::Head;
use rec_bytes::{
    GROUP_FIRST_IN, GROUP_FIRST_LOOP, GROUP_FIRST_OUT, GROUPS, Key, NODE_FIRST_LINK, NODES,
};

/// A chain of a group, by the direction of its relationships at the group's owner.
#[derive(Clone, Copy, Debug, PartialEq, Eq)]
pub enum Side {
    /// They leave the owner for another node.
    Out,
    /// They enter it from another node.
    In,
    /// They do both.
    Loop,
}

impl Side {
    /// The side of a node on which a relationship is that goes from one node to another.
    pub fn at(node: u32, from: u32, to: u32) -> Self
        ensures { result ≡ side_at node from to }
    {
        if from == to {
            Side::Loop
        } else if from == node {
            Side::Out
        } else {
            Side::In
        }
    }
}

/// The place of the first link of a side's chain in a group's record.
fn place_of(side: Side) -> u8
    ensures { result ≡ place_of side }
{
    match side {
        Side::Out => GROUP_FIRST_OUT,
        Side::In => GROUP_FIRST_IN,
        Side::Loop => GROUP_FIRST_LOOP,
    }
}

/// The head of a group's chain.
pub(crate) fn group_head(group: u32, side: Side) -> Head
    requires { IsKey (group_key group) }
    ensures is { head_of result ≡ group_head group side }
    ensures head { IsHead (head_of result) }
    ensures own { is_meta_file result.key.file ≡ true }
{
    Head {
        key: Key {
            file: GROUPS,
            id: group,
        },
        field: place_of(side),
    }
}

/// The head of the chain that a sparse node has.
pub(crate) fn node_head(node: u32) -> Head
    requires { IsKey (node_key node) }
    ensures is { head_of result ≡ node_head node }
    ensures head { IsHead (head_of result) }
    ensures own { is_meta_file result.key.file ≡ true }
{
    Head {
        key: Key {
            file: NODES,
            id: node,
        },
        field: NODE_FIRST_LINK,
    }
}
