ghost use Rattle.std.specs.Prelude.{◌≡◌, ◌≤◌, length};
ghost use Rattle.std.specs.List.{prefix_len};
ghost use Rattle.gremlin_parse.specs.ByteKinds.{is_of};

use plain_graph::is_name_byte;

/// A kind of bytes that stand in a row.
#[derive(Clone, Copy)]
pub(crate) enum ByteKind {
    Blank,
    Digit,
    /// A byte of a name or a word.
    Name,
}

/// How many bytes of the kind stand at the head.
pub(crate) fn run_len(bytes: &[u8], kind: ByteKind) -> usize
    ensures count { result ≡ prefix_len (is_of kind) bytes.now }
    ensures bound { result ≤ length bytes.now }
{
    let mut len = 0;
    for byte in bytes {
        if !is_of(kind, *byte) {
            return len;
        }
        len += 1;
    }
    len
}

/// Whether the byte is of the kind.
pub(crate) fn is_of(kind: ByteKind, byte: u8) -> bool
    ensures { result ≡ is_of kind byte }
{
    match kind {
        ByteKind::Blank => matches!(byte, b' ' | b'\t'),
        ByteKind::Digit => byte.is_ascii_digit(),
        ByteKind::Name => is_name_byte(byte),
    }
}
