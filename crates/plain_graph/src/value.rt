ghost use Rattle.std.specs.Prelude.{◌≡◌, IfOk};

use crate::Text;
use std::alloc::{AllocError, Global};

/// A value of a property, or one that a query gives.
#[derive(Drop)]
pub enum Value {
    /// A whole number.
    Int(i64),
    /// True or false.
    Bool(bool),
    /// A text, of at most 1,024 bytes where a store keeps it.
    Text(Text),
}

impl Value {
    /// The same value once more.
    pub fn copy(&self, alloc: Global) -> Result<Value, AllocError>
        ensures { IfOk result (λ copy. copy ≡ self.now) }
    {
        match self {
            Value::Int(number) => Ok(Value::Int(*number)),
            Value::Bool(truth) => Ok(Value::Bool(*truth)),
            Value::Text(text) => {
                let copy = text.copy(alloc)?;
                Ok(Value::Text(copy))
            }
        }
    }
}
