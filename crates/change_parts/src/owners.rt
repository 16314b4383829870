ghost use Rattle.std.specs.Prelude.{◌≡◌, ℕ, List, IfErr, IfOk, OnOk, true};
ghost use Rattle.plain_graph.specs.Graph.{has_element};
ghost use Rattle.plain_graph.specs.declared.command.Target.TheVariants as targets;
ghost use Rattle.rec_bytes.specs.Key.{IsKey};
ghost use Rattle.prop_store.specs.Owner.{IsInUse};
ghost use Rattle.rec_bytes.specs.Space.{SameButReads};
ghost use Rattle.change_parts.specs.ChangeFault.{HasChangeCause};
ghost use Rattle.change_parts.specs.Damage.{BlamesBroken};
ghost use Rattle.change_parts.specs.Owners.{IsAbsent, IsMissing, MayMiss, owner_of};
ghost use Rattle.change_parts.specs.Store.{IsMidway};
ghost use Rattle.store_rules.specs.Graph.{graph_in};

use crate::ChangeFault;
use plain_graph::Target;
use prop_store::Owner;
use rec_bytes::{
    Key, NODE_FIRST_PROPERTY, NODES, RELATIONSHIP_FIRST_PROPERTY, RELATIONSHIPS, Reads,
};

/// A node as an owner of properties.
pub fn node_owner(id: u32) -> Owner
    ensures { result ≡ owner_of (targets.Node id) }
{
    Owner {
        key: Key { file: NODES, id },
        field: NODE_FIRST_PROPERTY,
    }
}

/// An edge as an owner of properties.
pub fn edge_owner(id: u32) -> Owner
    ensures { result ≡ owner_of (targets.Edge id) }
{
    Owner {
        key: Key {
            file: RELATIONSHIPS,
            id,
        },
        field: RELATIONSHIP_FIRST_PROPERTY,
    }
}

/// An element as an owner of properties, where it is there.
pub fn find_owner<R: Reads>(space: &mut R, target: Target) -> Result<Owner, ChangeFault>
    ensures owner { IfOk result (λ owner. owner ≡ owner_of target) }
    ensures there { R.tells
        → OnOk result (has_element (graph_in (R.state space.old)) target ≡ true) }
    ensures refused { R.tells → (names : List (List ℕ)) → IsMidway (R.state space.old) names
        → IfErr result (IsMissing (graph_in (R.state space.old)) target) }
    ensures in_use { R.tells
        → OnOk result (IsInUse (R.state space.old).records (owner_of target)) }
    ensures missing { IfErr result MayMiss }
    ensures damaged { R.tells → IfErr result (BlamesBroken (R.state space.old)) }
    ensures absent { R.tells → IfErr result (IsAbsent (R.state space.old) target) }
    ensures key { IfOk result (λ owner. IsKey owner.key) }
    ensures state { SameButReads (R.state space.old) (R.state space.new) }
    ensures onward { R.onward space.old space.new }
    ensures cause { HasChangeCause (R.faults space.old) (R.faults space.new) result }
{
    match target {
        Target::Node(id) => match node_store::load(space, id)? {
            Some(_) => Ok(node_owner(id)),
            None => Err(ChangeFault::NoNode { id }),
        },
        Target::Edge(id) => match rel_store::load(space, id)? {
            Some(_) => Ok(edge_owner(id)),
            None => Err(ChangeFault::NoEdge { id }),
        },
    }
}
