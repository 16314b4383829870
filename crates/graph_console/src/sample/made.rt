ghost use Rattle.std.specs.Prelude.{IfOk};
ghost use Rattle.graph_console.specs.Sampling.{Tells};

use plain_graph::{edge_made, node_made};
use std::alloc::AllocError;

/// What a reply tells that was made, by its identifier.
#[derive(Clone, Copy)]
pub(crate) enum Made {
    Node(u32),
    Edge(u32),
    Nothing,
}

/// What the text of a reply tells that was made. An identifier that has more than 32 bits, which no
/// session gives, is told as want of memory.
pub(crate) fn made_by(text: &[u8]) -> Result<Made, AllocError>
    ensures { IfOk result (λ made. Tells text.now made) }
{
    let id = number_in(text);
    if text.starts_with(b"node ") {
        if text == node_made(id).as_bytes() {
            return Ok(Made::Node(id));
        }
        return Err(AllocError);
    }
    if text.starts_with(b"edge ") {
        if text == edge_made(id).as_bytes() {
            return Ok(Made::Edge(id));
        }
        return Err(AllocError);
    }
    Ok(Made::Nothing)
}

/// The number that the digits of the text write, if it has 32 bits.
fn number_in(text: &[u8]) -> u32 {
    let mut number: u32 = 0;
    for byte in text {
        if let b'0'..=b'9' = *byte {
            let digit = u32::from(*byte - b'0');
            number = number.wrapping_mul(10).wrapping_add(digit);
        }
    }
    number
}
