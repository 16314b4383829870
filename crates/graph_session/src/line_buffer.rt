ghost use Rattle.std.specs.Prelude.{◌≡◌, ◌++◌, []};
ghost use Rattle.graph_session.specs.Answer.{Gives};
ghost use Rattle.graph_session.specs.LineBuffer.{Adds};

use crate::Turn;
use crate::giving::give;
use plain_graph::{ByteBuffer, ResultLine};
use stream_io::Sink;

/// How many bytes are gathered before they are given to the sink.
pub(crate) const BUFFER_BYTES: usize = 4_096;

/// The bytes that are gathered for a sink. A session keeps it from one reply to the next, since a
/// new one is cleared whole.
#[derive(Drop)]
pub(crate) struct LineBuffer {
    pub(crate) bytes: ByteBuffer<BUFFER_BYTES>,
    /// The line that is written next.
    pub(crate) line: ResultLine,
}

impl LineBuffer {
    /// No bytes yet.
    pub(crate) fn new() -> LineBuffer
        ensures { result.bytes ≡ [] }
    {
        LineBuffer {
            bytes: ByteBuffer::new(),
            line: ResultLine::new(),
        }
    }
}

/// Puts a prefix and a line after these bytes. Where they have no room, what was gathered goes to
/// the sink first; a line that is longer than the buffer then follows it.
pub(crate) fn gather_prefixed<K: Sink>(
    bytes: &mut ByteBuffer<BUFFER_BYTES>,
    output: &mut K,
    prefix: &[u8],
    line: &[u8],
) -> Turn
    ensures { Adds K.Sink (prefix.now ++ line.now) bytes.old bytes.new output.old output.new
        result }
{
    match gather(bytes, output, prefix) {
        Turn::Go => gather(bytes, output, line),
        turn => turn,
    }
}

// Puts a text after these bytes.
fn gather<K: Sink>(bytes: &mut ByteBuffer<BUFFER_BYTES>, output: &mut K, text: &[u8]) -> Turn
    ensures { Adds K.Sink text.now bytes.old bytes.new output.old output.new result }
{
    if !bytes.has_room(text.len()) {
        match give_all(bytes, output) {
            Turn::Go => {}
            turn => return turn,
        }
        if text.len() > BUFFER_BYTES {
            return give(output, text);
        }
    }
    bytes.push(text);
    Turn::Go
}

/// Gives these bytes to the sink, and forgets them.
pub(crate) fn give_all<K: Sink>(bytes: &mut ByteBuffer<BUFFER_BYTES>, output: &mut K) -> Turn
    ensures gives { Gives K.Sink bytes.old output.old output.new result }
    ensures empty { bytes.new ≡ [] }
{
    let turn = give(output, bytes.as_bytes());
    bytes.clear();
    turn
}
