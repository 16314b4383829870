ghost use Rattle.std.specs.Prelude.{◌≡◌, ◌≢◌, ◌<◌, ◌≤◌, ◌∷◌, [], cond, length, Some};
ghost use Rattle.std.specs.Prelude.{IfOk, IfErr, IfSome, IfNone};
ghost use Rattle.gremlin_parse.specs.Reading.{first_byte};
ghost use Rattle.gremlin_parse.specs.Grammar.{quote_byte};
ghost use Rattle.gremlin_parse.specs.Queries.{Place, Quoted, QuotesAt, LeavesBoth};
ghost use Rattle.gremlin_parse.specs.Queries.{LeadsTo, StopsFrom, after_quoted};
ghost use Rattle.gremlin_parse.specs.Symbols.{Sign, AnyClosed, Reads, ReadsToken, Leaves};

use crate::bad_token::BadToken;
use crate::byte_kind::{ByteKind, run_len};
use crate::parts::{read_sign, skip_blanks};
use crate::stop::Stop;
use plain_graph::{NAME_BYTES, is_name_start};

/// Whether the first of the two bytes stands at the head, and the bytes after it or the other one.
///
/// # Errors
/// A fault of syntax at the first byte if it is neither.
pub(crate) fn read_either(bytes: &[u8], one: u8, two: u8) -> Result<(bool, &[u8]), Stop>
    ensures ok { IfOk result (λ r. Reads (Sign (cond r.0 one two ∷ [])) tt bytes.now r.1.now) }
    ensures err { IfErr result (LeavesBoth one two bytes.now) }
{
    let left = bytes.len();
    let [first, rest @ ..] = bytes else {
        return Err(Stop::Syntax { left });
    };
    if *first == one {
        return Ok((true, rest));
    }
    if *first == two {
        return Ok((false, rest));
    }
    Err(Stop::Syntax { left })
}

/// Whether a comma stands at the head, and the bytes after it or a closing parenthesis, and after
/// any blanks.
///
/// # Errors
/// A fault of syntax at the first byte if it is neither.
pub(crate) fn read_comma(bytes: &[u8]) -> Result<(bool, &[u8]), Stop>
    ensures ok { IfOk result (λ r. ReadsToken (cond r.0 44 41 ∷ []) bytes.now r.1.now) }
    ensures less { IfOk result (λ r. length r.1.now < length bytes.now) }
    ensures err { IfErr result (LeavesBoth 44 41 bytes.now) }
{
    let (more, rest) = read_either(bytes, b',', b')')?;
    Ok((more, skip_blanks(rest)))
}

/// The bytes after a closing parenthesis and any blanks, if one stands at the head.
pub(crate) fn read_close(bytes: &[u8]) -> Option<&[u8]>
    ensures some { IfSome result (λ rest. ReadsToken (41 ∷ []) bytes.now rest.now) }
    ensures none { IfNone result (first_byte bytes.now ≢ Some 41) }
{
    read_first(bytes, b')')
}

/// The bytes after this byte and any blanks, if it stands at the head.
pub(crate) fn read_first(bytes: &[u8], byte: u8) -> Option<&[u8]>
    ensures some { IfSome result (λ rest. ReadsToken (byte ∷ []) bytes.now rest.now) }
    ensures none { IfNone result (first_byte bytes.now ≢ Some byte) }
{
    let [first, rest @ ..] = bytes else {
        return None;
    };
    if *first == byte {
        return Some(skip_blanks(rest));
    }
    None
}

/// The name between quotes, and the bytes after it and any blanks.
///
/// # Errors
/// A fault of syntax if no such name goes on so, and `LongName`.
pub(crate) fn read_quoted_name(bytes: &[u8]) -> Result<(&[u8], &[u8]), Stop>
    ensures ok { IfOk result (λ r. (place : Place) (quoted : Quoted) →
        QuotesAt place quoted bytes.now →
        LeadsTo place bytes.now (after_quoted quoted r.0.now) r.1.now) }
    ensures within { IfOk result (λ r. length r.1.now ≤ length bytes.now) }
    ensures err { IfErr result (λ stop. (place : Place) (quoted : Quoted) →
        QuotesAt place quoted bytes.now → StopsFrom place bytes.now stop) }
{
    let (double, at_name) = read_either(bytes, b'"', b'\'')?;
    let (name, rest) = read_closed_name(at_name, double)?;
    Ok((name, skip_blanks(rest)))
}

/// The name at the head and its closing quote, and the bytes after it.
///
/// # Errors
/// A fault of syntax if no name begins here or no such quote follows it, and `LongName` if the name
/// has more than 48 bytes.
fn read_closed_name(bytes: &[u8], double: bool) -> Result<(&[u8], &[u8]), Stop>
    ensures ok { IfOk result (λ cut. Reads (AnyClosed double) cut.0.now bytes.now cut.1.now) }
    ensures err { IfErr result (Leaves (AnyClosed double) bytes.now) }
{
    let left = bytes.len();
    match bytes {
        [first, ..] if is_name_start(*first) => {}
        _ => return Err(Stop::Syntax { left }),
    }
    let len = run_len(bytes, ByteKind::Name);
    let (name, at_quote) = bytes.split_at(len);
    let rest = read_sign(at_quote, quote(double))?;
    if len > NAME_BYTES {
        return Err(Stop::Bad {
            token: BadToken::LongName,
            left,
        });
    }
    Ok((name, rest))
}

/// The double quote, or the single one.
fn quote(double: bool) -> &'static [u8]
    ensures { result.now ≡ quote_byte double ∷ [] }
{
    if double { b"\"" } else { b"'" }
}
