ghost use Rattle.std.specs.Prelude.{◌≡◌, IfOk};

use crate::{Text, Value};
use std::alloc::{AllocError, Global};

/// One result of a query.
#[derive(Drop)]
pub enum Item {
    /// A vertex by its identifier.
    Vertex(u32),
    /// An edge by its identifier, with its type and its ends.
    Edge {
        id: u32,
        label: Text,
        from: u32,
        to: u32,
    },
    /// A value, such as a count.
    Value(Value),
}

impl Item {
    /// The same result once more.
    pub fn copy(&self, alloc: Global) -> Result<Item, AllocError>
        ensures { IfOk result (λ copy. copy ≡ self.now) }
    {
        match self {
            Item::Vertex(id) => Ok(Item::Vertex(*id)),
            Item::Edge {
                id,
                label,
                from,
                to,
            } => {
                let label = label.copy(alloc)?;
                Ok(Item::Edge {
                    id: *id,
                    label,
                    from: *from,
                    to: *to,
                })
            }
            Item::Value(value) => {
                let value = value.copy(alloc)?;
                Ok(Item::Value(value))
            }
        }
    }
}
