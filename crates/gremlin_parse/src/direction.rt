ghost use Rattle.std.specs.Prelude.{IfOk, IfErr};
ghost use Rattle.gremlin_parse.specs.Grammar.{direction_name};
ghost use Rattle.gremlin_parse.specs.Arguments.{direction_names};
ghost use Rattle.gremlin_parse.specs.Symbols.{OneWord, Reads, Leaves};

use crate::keyword::read_keyword;
use crate::stop::Stop;
use plain_graph::Direction;

const DIRECTIONS: [(&[u8], Direction); 3] = [
    (b"out", Direction::Outgoing),
    (b"in", Direction::Incoming),
    (b"both", Direction::Both),
];

/// The word for a direction, and the bytes after it.
///
/// # Errors
/// A fault of syntax after the longest prefix of such a word.
pub(crate) fn read_direction(bytes: &[u8]) -> Result<(Direction, &[u8]), Stop>
    ensures ok { IfOk result (λ r.
        Reads (OneWord direction_names) (direction_name r.0) bytes.now r.1.now) }
    ensures err { IfErr result (Leaves (OneWord direction_names) bytes.now) }
{
    read_keyword(bytes, &DIRECTIONS)
}
