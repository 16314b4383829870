ghost use Rattle.std.specs.Prelude.{◌≡◌, IfOk};

use crate::{Text, Texts, Value};
use std::alloc::{AllocError, Global};

/// How a value of an element compares with the one that is written.
#[derive(Clone, Copy)]
pub enum Relation {
    /// Of the same type, and equal.
    Eq,
    /// Of another type, or not equal.
    Neq,
    /// Of the same type, and greater.
    Gt,
    /// Of the same type, and not less.
    Gte,
    /// Of the same type, and less.
    Lt,
    /// Of the same type, and not greater.
    Lte,
}

/// Which elements pass.
#[derive(Drop)]
pub enum Filter {
    /// Those with this key.
    Has(Text),
    /// Those whose value of the key compares so with this one.
    HasValue {
        key: Text,
        relation: Relation,
        value: Value,
    },
    /// Those with one of these labels.
    HasLabel(Texts),
}

impl Filter {
    /// The same filter once more.
    pub fn copy(&self, alloc: Global) -> Result<Filter, AllocError>
        ensures { IfOk result (λ copy. copy ≡ self.now) }
    {
        match self {
            Filter::Has(key) => {
                let key = key.copy(alloc)?;
                Ok(Filter::Has(key))
            }
            Filter::HasValue {
                key,
                relation,
                value,
            } => {
                let key = key.copy(alloc)?;
                let value = value.copy(alloc)?;
                Ok(Filter::HasValue {
                    key,
                    relation: *relation,
                    value,
                })
            }
            Filter::HasLabel(labels) => {
                let labels = labels.copy(alloc)?;
                Ok(Filter::HasLabel(labels))
            }
        }
    }
}
