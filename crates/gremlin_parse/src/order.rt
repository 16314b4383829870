ghost use Rattle.std.specs.Prelude.{◌≡◌, ◌≤◌, List, ℕ, Option, Some, None, true, length, map};
ghost use Rattle.std.specs.Prelude.{IfOk, IfErr, IfSome, IfNone};
ghost use Rattle.std.specs.Borrow.{Bor};
ghost use Rattle.plain_graph.specs.declared.query.Query.{Query};
ghost use Rattle.gremlin_parse.specs.OrderKeys.{has_key, after_tokens, starts_quote};
ghost use Rattle.gremlin_parse.specs.Orders.{DirectsAt, ReadsSort};
ghost use Rattle.gremlin_parse.specs.Queries.{Place, Steps, ByFirst, ByCloses, LeadsTo, StopsFrom};
ghost use Rattle.gremlin_parse.specs.Queries.{reordered, sort_names};
ghost use Rattle.gremlin_parse.specs.Symbols.{OneWord, Leaves};

use crate::comparison::later;
use crate::keyword::read_keyword;
use crate::parts::{copy_name, read_token, skip_blanks};
use crate::quoted_name::{read_close, read_comma, read_quoted_name};
use crate::stop::Stop;
use crate::text::is_quote;
use plain_graph::Text;
use std::alloc::Global;

/// Whether an order is descending, by the words for it.
const SORTS: [(&[u8], bool); 2] = [(b"asc", false), (b"desc", true)];

/// An order up to the quoted key of its `by`.
const KEY_TOKENS: [&[u8]; 6] = [b"order", b"(", b")", b".", b"by", b"("];

/// Whether the order whose name begins the bytes has a key.
pub(crate) fn has_key(bytes: &[u8]) -> bool
    ensures { result ≡ has_key bytes.now }
{
    match skip_tokens(bytes, &KEY_TOKENS) {
        Some(rest) => starts_quote(rest),
        None => false,
    }
}

/// The bytes after these tokens and any blanks after each, if they stand at the head.
fn skip_tokens<'a>(bytes: &'a [u8], tokens: &[&[u8]]) -> Option<&'a [u8]>
    ensures some { IfSome result (λ rest.
        after_tokens (map (λ (t : Bor (List ℕ)). t.now) tokens.now) bytes.now ≡ Some rest.now) }
    ensures none { IfNone result
        (after_tokens (map (λ (t : Bor (List ℕ)). t.now) tokens.now) bytes.now ≡ None) }
{
    let mut rest = bytes;
    for token in tokens {
        let Ok(after) = read_token(rest, token) else {
            return None;
        };
        rest = after;
    }
    Some(rest)
}

/// Whether the bytes begin with one of the two quotes.
fn starts_quote(bytes: &[u8]) -> bool
    ensures { result ≡ starts_quote bytes.now }
{
    matches!(bytes, [first, ..] if is_quote(*first))
}

/// The key and the direction of an order from the parenthesis of its `by` up to the closing one,
/// and the bytes after it.
///
/// # Errors
/// A fault of syntax if no `by` goes on so, `LongName`, or `Memory`.
pub(crate) fn read_by(alloc: Global, bytes: &[u8]) -> Result<(Option<Text>, bool, &[u8]), Stop>
    ensures ok { IfOk result (λ r. (query : Query) →
        LeadsTo (ByFirst query) bytes.now (Steps (reordered query r.0 r.1)) r.2.now) }
    ensures within { IfOk result (λ r. length r.2.now ≤ length bytes.now) }
    ensures err { IfErr result (λ stop. (query : Query) →
        StopsFrom (ByFirst query) bytes.now stop) }
{
    if starts_quote(bytes) {
        let (key, descending, rest) = read_keyed(alloc, bytes)?;
        return Ok((Some(key), descending, rest));
    }
    if let Some(rest) = read_close(bytes) {
        return Ok((None, false, rest));
    }
    let (descending, rest) = read_direction(bytes)?;
    Ok((None, descending, rest))
}

/// The key between quotes and the direction of an order up to the closing parenthesis, and the
/// bytes after it.
fn read_keyed(alloc: Global, bytes: &[u8]) -> Result<(Text, bool, &[u8]), Stop>
    requires { starts_quote bytes.now ≡ true }
    ensures ok { IfOk result (λ r. (query : Query) →
        LeadsTo (ByFirst query) bytes.now (Steps (reordered query (Some r.0) r.1)) r.2.now) }
    ensures within { IfOk result (λ r. length r.2.now ≤ length bytes.now) }
    ensures err { IfErr result (λ stop. (query : Query) →
        StopsFrom (ByFirst query) bytes.now stop) }
{
    let (name, after_name) = read_quoted_name(bytes)?;
    let key = copy_name(alloc, name)?;
    let (more, at_direction) = read_comma(after_name)?;
    if !more {
        return Ok((key, false, at_direction));
    }
    let (descending, rest) = read_direction(at_direction)?;
    Ok((key, descending, rest))
}

/// Whether the order is descending, by the word for it up to the closing parenthesis, and the bytes
/// after it.
fn read_direction(bytes: &[u8]) -> Result<(bool, &[u8]), Stop>
    ensures ok { IfOk result (λ r. (place : Place) (query : Query) (key : Option (List ℕ)) →
        DirectsAt place query key bytes.now →
        LeadsTo place bytes.now (Steps (reordered query key r.0)) r.1.now) }
    ensures within { IfOk result (λ r. length r.1.now ≤ length bytes.now) }
    ensures err { IfErr result (λ stop. (place : Place) (query : Query) (key : Option (List ℕ)) →
        DirectsAt place query key bytes.now → StopsFrom place bytes.now stop) }
{
    let (descending, at_close) = read_sort(bytes)?;
    let rest = read_token(at_close, b")")?;
    Ok((descending, rest))
}

/// Whether the order is descending, by the word for it, and the bytes after it and any blanks.
fn read_sort(bytes: &[u8]) -> Result<(bool, &[u8]), Stop>
    ensures ok { IfOk result (λ r. (place : Place) (query : Query) (key : Option (List ℕ)) →
        DirectsAt place query key bytes.now →
        LeadsTo place bytes.now (ByCloses query key r.0) r.1.now) }
    ensures within { IfOk result (λ r. length r.1.now ≤ length bytes.now) }
    ensures err { IfErr result (λ stop. (place : Place) (query : Query) (key : Option (List ℕ)) →
        DirectsAt place query key bytes.now → StopsFrom place bytes.now stop) }
{
    match read_sort_name(bytes) {
        Ok(read) => Ok(read),
        Err(no_name) => read_qualified(no_name, bytes),
    }
}

/// The word for a direction after `Order` and a dot, and the bytes after it and any blanks.
fn read_qualified(no_name: Stop, bytes: &[u8]) -> Result<(bool, &[u8]), Stop>
    requires { Leaves (OneWord sort_names) bytes.now no_name }
    ensures ok { IfOk result (λ r. (place : Place) (query : Query) (key : Option (List ℕ)) →
        DirectsAt place query key bytes.now →
        LeadsTo place bytes.now (ByCloses query key r.0) r.1.now) }
    ensures within { IfOk result (λ r. length r.1.now ≤ length bytes.now) }
    ensures err { IfErr result (λ stop. (place : Place) (query : Query) (key : Option (List ℕ)) →
        DirectsAt place query key bytes.now → StopsFrom place bytes.now stop) }
{
    match read_token(bytes, b"Order") {
        Ok(at_dot) => {
            let at_name = read_token(at_dot, b".")?;
            read_sort_name(at_name)
        }
        Err(no_order) => Err(later(no_name, no_order)),
    }
}

/// The word for a direction, and the bytes after it and any blanks.
fn read_sort_name(bytes: &[u8]) -> Result<(bool, &[u8]), Stop>
    ensures ok { IfOk result (λ r. ReadsSort r.0 bytes.now r.1.now) }
    ensures err { IfErr result (Leaves (OneWord sort_names) bytes.now) }
{
    let (descending, after) = read_keyword(bytes, &SORTS)?;
    Ok((descending, skip_blanks(after)))
}
