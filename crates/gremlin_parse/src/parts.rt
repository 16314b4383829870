ghost use Rattle.std.specs.Prelude.{◌≡◌, ◌≢◌, [], length, IfOk, IfErr, OnOk};
ghost use Rattle.gremlin_parse.specs.Stopping.{StopsWith};
ghost use Rattle.gremlin_parse.specs.Symbols.{AnyBlanks, AnyGap, Sign, AnyName};
ghost use Rattle.gremlin_parse.specs.Symbols.{Reads, ReadsToken, Leaves};

use crate::bad_token::BadToken;
use crate::byte_kind::{ByteKind, run_len};
use crate::stop::Stop;
use plain_graph::{NAME_BYTES, Text, is_name_start};
use std::alloc::Global;

/// The bytes after the blanks at the head.
pub(crate) fn skip_blanks(bytes: &[u8]) -> &[u8]
    ensures { Reads AnyBlanks tt bytes.now result.now }
{
    let len = run_len(bytes, ByteKind::Blank);
    &bytes[len..]
}

/// The bytes after one blank or more.
///
/// # Errors
/// A fault of syntax at the first byte if it is no blank.
pub(crate) fn read_gap(bytes: &[u8]) -> Result<&[u8], Stop>
    ensures ok { IfOk result (λ rest. Reads AnyGap tt bytes.now rest.now) }
    ensures err { IfErr result (Leaves AnyGap bytes.now) }
{
    let rest = skip_blanks(bytes);
    if rest.len() == bytes.len() {
        return Err(Stop::Syntax { left: rest.len() });
    }
    Ok(rest)
}

/// The bytes after the sign.
///
/// # Errors
/// A fault of syntax where the bytes differ from the sign.
pub(crate) fn read_sign<'a>(bytes: &'a [u8], sign: &[u8]) -> Result<&'a [u8], Stop>
    ensures ok { IfOk result (λ rest. Reads (Sign sign.now) tt bytes.now rest.now) }
    ensures err { IfErr result (Leaves (Sign sign.now) bytes.now) }
{
    let mut rest = bytes;
    for byte in sign {
        let [first, after @ ..] = rest else {
            return Err(Stop::Syntax { left: 0 });
        };
        if *first != *byte {
            return Err(Stop::Syntax { left: rest.len() });
        }
        rest = after;
    }
    Ok(rest)
}

/// The bytes after the sign and the blanks that follow it.
///
/// # Errors
/// A fault of syntax where the bytes differ from the sign.
pub(crate) fn read_token<'a>(bytes: &'a [u8], sign: &[u8]) -> Result<&'a [u8], Stop>
    ensures ok { IfOk result (λ rest. ReadsToken sign.now bytes.now rest.now) }
    ensures err { IfErr result (Leaves (Sign sign.now) bytes.now) }
{
    let rest = read_sign(bytes, sign)?;
    Ok(skip_blanks(rest))
}

/// The name at the head, and the bytes after it.
///
/// # Errors
/// A fault of syntax if no name begins here, and `LongName` if the name has more than 48 bytes.
pub(crate) fn read_name(bytes: &[u8]) -> Result<(&[u8], &[u8]), Stop>
    ensures ok { IfOk result (λ cut. Reads AnyName cut.0.now bytes.now cut.1.now) }
    ensures err { IfErr result (Leaves AnyName bytes.now) }
{
    let left = bytes.len();
    match bytes {
        [first, ..] if is_name_start(*first) => {}
        _ => return Err(Stop::Syntax { left }),
    }
    let len = run_len(bytes, ByteKind::Name);
    if len > NAME_BYTES {
        return Err(Stop::Bad {
            token: BadToken::LongName,
            left,
        });
    }
    Ok(bytes.split_at(len))
}

/// The name once more.
pub(crate) fn copy_name(alloc: Global, name: &[u8]) -> Result<Text, Stop>
    ensures ok { IfOk result (λ text. text ≡ name.now) }
    ensures err { IfErr result (λ stop. stop ≡ Stop.Memory) }
{
    let bytes = Vec::from_slice(alloc, name)?;
    Ok(Text::new(bytes))
}

/// Says that the line ends here.
///
/// # Errors
/// A fault of syntax if it goes on.
pub(crate) fn read_end(bytes: &[u8]) -> Result<(), Stop>
    ensures ok { OnOk result (bytes.now ≡ []) }
    ensures err { IfErr result (StopsWith (λ left. (left ≡ length bytes.now) × (bytes.now ≢ []))) }
{
    if bytes.is_empty() {
        return Ok(());
    }
    Err(Stop::Syntax { left: bytes.len() })
}
