ghost use Rattle.std.specs.Prelude.{◌≡◌, ◌↔◌, IsTrue, true, All};
ghost use Rattle.plain_graph.specs.Names.{is_name_byte, is_name_start, IsShortName};

use crate::NAME_BYTES;

/// Whether a name may begin with the byte: A to Z, a to z or an underscore.
pub fn is_name_start(byte: u8) -> bool
    ensures { result ≡ is_name_start byte }
{
    byte.is_ascii_alphabetic() || byte == b'_'
}

/// Whether the byte may stand in a name behind its first: such a byte, or a digit.
pub fn is_name_byte(byte: u8) -> bool
    ensures { result ≡ is_name_byte byte }
{
    is_name_start(byte) || byte.is_ascii_digit()
}

/// Whether these bytes are a name that a store may have, of 1 to 48 bytes.
pub fn is_short_name(bytes: &[u8]) -> bool
    ensures { IsTrue result ↔ IsShortName bytes.now }
{
    let Some((first, rest)) = bytes.split_first() else {
        return false;
    };
    is_name_start(*first) && are_name_bytes(rest) && bytes.len() <= NAME_BYTES
}

/// Whether each of the bytes may stand in a name.
fn are_name_bytes(bytes: &[u8]) -> bool
    ensures { IsTrue result ↔ All (λ byte. is_name_byte byte ≡ true) bytes.now }
{
    bytes.iter().all(|byte| is_name_byte(*byte))
}
