ghost use Rattle.std.specs.Prelude.{◌≡◌, ◌≤◌};
ghost use Rattle.plain_graph.specs.Forms.{IsKept};
ghost use Rattle.plain_graph.specs.Properties.{blocks_of};

use plain_graph::Value;
use rec_bytes::{BLOCK_TEXT_BYTES, PROPERTY_TEXT_BYTES};

/// How many blocks a value takes.
pub fn block_count(value: &Value) -> u32
    requires { IsKept value.now }
    ensures is { result ≡ blocks_of value.now }
    ensures few { result ≤ 22 }
{
    match value {
        Value::Int(_) | Value::Bool(_) => 0,
        Value::Text(text) => {
            let size = text.as_bytes().len();
            if size <= PROPERTY_TEXT_BYTES {
                0
            } else {
                size.div_ceil(BLOCK_TEXT_BYTES) as u32
            }
        }
    }
}
