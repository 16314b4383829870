ghost use Rattle.std.specs.Prelude.{◌≡◌, IfOk, IfErr};
ghost use Rattle.gremlin_parse.specs.Arguments.{target_names, target_of, target_word};
ghost use Rattle.gremlin_parse.specs.Symbols.{OneWord, Reads, Leaves};

use crate::keyword::read_keyword;
use crate::stop::Stop;
use plain_graph::Target;

/// The word for what a command changes.
#[derive(Clone, Copy)]
pub(crate) enum TargetWord {
    Node,
    Edge,
}

const TARGETS: [(&[u8], TargetWord); 2] = [
    (b"node", TargetWord::Node),
    (b"edge", TargetWord::Edge),
];

/// The word for what a command changes, and the bytes after it.
///
/// # Errors
/// A fault of syntax after the longest prefix of such a word.
pub(crate) fn read_target(bytes: &[u8]) -> Result<(TargetWord, &[u8]), Stop>
    ensures ok { IfOk result (λ r.
        Reads (OneWord target_names) (target_word r.0) bytes.now r.1.now) }
    ensures err { IfErr result (Leaves (OneWord target_names) bytes.now) }
{
    read_keyword(bytes, &TARGETS)
}

/// The element of this identifier.
pub(crate) fn target_of(word: TargetWord, id: u32) -> Target
    ensures { result ≡ target_of word id }
{
    match word {
        TargetWord::Node => Target::Node(id),
        TargetWord::Edge => Target::Edge(id),
    }
}
