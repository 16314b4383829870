ghost use Rattle.std.specs.Prelude.{◌≡◌, length, true, IfOk, IfErr, MatchOption};
ghost use Rattle.gremlin_parse.specs.Values.{is_quote, escaped, unescaped};
ghost use Rattle.gremlin_parse.specs.Texts.{StartsWith, TakesPiece, LeavesPiece};
ghost use Rattle.gremlin_parse.specs.Texts.{TakesLetter, StartsEscape, ReadsQuoted, LeavesQuoted};
ghost use Rattle.gremlin_parse.specs.Stopping.{StopsWith};

use crate::stop::Stop;
use std::alloc::{AllocError, Global};

/// A text as it stands between its quotes.
#[derive(Clone, Copy)]
pub(crate) struct Quoted<'a> {
    /// The bytes between the quotes.
    pub(crate) inside: &'a [u8],
    /// How many bytes the text has.
    pub(crate) len: usize,
}

/// The text that goes on after its opening quote, and the bytes after its closing quote.
///
/// # Errors
/// A fault of syntax at the line's end if no closing quote comes, and at a letter that no escape
/// has.
pub(crate) fn read_quoted<'a>(bytes: &'a [u8], quote: u8) -> Result<(Quoted<'a>, &'a [u8]), Stop>
    requires { is_quote quote ≡ true }
    ensures ok { IfOk result (λ r.
        ReadsQuoted quote r.0.inside.now r.0.len bytes.now r.1.now) }
    ensures err { IfErr result (StopsWith (LeavesQuoted quote bytes.now)) }
{
    let mut rest = bytes;
    let mut len = 0;
    while let Some(after) = skip_piece(rest, quote)? {
        rest = after;
        len += 1;
    }
    let (inside, closed) = bytes.split_at(bytes.len() - rest.len());
    Ok((Quoted { inside, len }, &closed[1..]))
}

/// The bytes after one byte of a text as it stands between its quotes; none at the closing quote.
///
/// # Errors
/// A fault of syntax at the line's end, and at a letter that no escape has.
fn skip_piece<'a>(bytes: &'a [u8], quote: u8) -> Result<Option<&'a [u8]>, Stop>
    requires { is_quote quote ≡ true }
    ensures ok { IfOk result (λ next.
        MatchOption next (StartsWith quote bytes.now)
        (λ rest. TakesPiece quote bytes.now rest.now)) }
    ensures err { IfErr result (StopsWith (LeavesPiece bytes.now)) }
{
    let [first, after @ ..] = bytes else {
        return Err(Stop::Syntax { left: 0 });
    };
    if *first == quote {
        return Ok(None);
    }
    if *first != b'\\' {
        return Ok(Some(after));
    }
    let rest = skip_letter(after)?;
    Ok(Some(rest))
}

/// The bytes after the letter of an escape.
fn skip_letter(bytes: &[u8]) -> Result<&[u8], Stop>
    ensures ok { IfOk result (λ rest. TakesLetter bytes.now rest.now) }
    ensures err { IfErr result (StopsWith (λ left.
        (left ≡ length bytes.now) × (¬ StartsEscape bytes.now))) }
{
    let left = bytes.len();
    let [letter, rest @ ..] = bytes else {
        return Err(Stop::Syntax { left });
    };
    if escaped(*letter).is_none() {
        return Err(Stop::Syntax { left });
    }
    Ok(rest)
}

/// The byte that the letter stands for after a backslash.
fn escaped(letter: u8) -> Option<u8>
    ensures { result ≡ escaped letter }
{
    if is_quote(letter) || letter == b'\\' {
        return Some(letter);
    }
    match letter {
        b'n' => Some(b'\n'),
        b'r' => Some(b'\r'),
        b't' => Some(b'\t'),
        _ => None,
    }
}

/// Whether the byte is a single or a double quote.
pub(crate) fn is_quote(byte: u8) -> bool
    ensures { result ≡ is_quote byte }
{
    byte == b'\'' || byte == b'"'
}

/// The bytes of the text.
pub(crate) fn unescape(alloc: Global, quoted: Quoted) -> Result<Vec<u8>, AllocError>
    ensures { IfOk result (λ text. text.items ≡ unescaped quoted.entry.inside.now) }
{
    let mut text = Vec::with_capacity(alloc, quoted.len)?;
    let mut is_escape = false;
    for byte in quoted.inside {
        if is_escape {
            text.push(escaped(*byte).unwrap_or(*byte))?;
            is_escape = false;
        } else if *byte == b'\\' {
            is_escape = true;
        } else {
            text.push(*byte)?;
        }
    }
    Ok(text)
}
