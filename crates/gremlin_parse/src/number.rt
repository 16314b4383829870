ghost use Rattle.std.specs.Prelude.{◌≡◌, ◌≤◌, ◌<◌, ◌^◌, ◌∷◌, length, pos, neg_ℤ};
ghost use Rattle.std.specs.Prelude.{IfOk, IfErr, IfSome, IfNone};
ghost use Rattle.plain_graph.specs.declared.value.Value.TheVariants as values;
ghost use Rattle.gremlin_parse.specs.Numbers.{value_after, CountsNumber};
ghost use Rattle.gremlin_parse.specs.Grammar.{most_id, most_limit};
ghost use Rattle.gremlin_parse.specs.Reading.{StartsNumber};
ghost use Rattle.gremlin_parse.specs.Symbols.{AnyNumber, AnyTimes, AnyValue, Takes, Reads, Leaves};
ghost use Rattle.gremlin_parse.specs.Symbols.{is_integer_start, LeavesInteger, LeavesPositive};

use crate::bad_token::BadToken;
use crate::byte_kind::{ByteKind, is_of, run_len};
use crate::stop::Stop;

/// The greatest identifier.
const MOST_ID: u64 = 4_294_967_294;

/// The greatest number of results to which a query is cut.
const MOST_LIMIT: u64 = 4_294_967_295;

/// The least number of times that a body is done.
const LEAST_TIMES: u64 = 1;

/// The greatest number of times that a body is done.
const MOST_TIMES: u64 = 16;

/// The greatest number of a value.
const MOST_POSITIVE: u64 = 9_223_372_036_854_775_807;

/// How far below 0 a number of a value may be.
const MOST_NEGATIVE: u64 = 9_223_372_036_854_775_808;

/// The identifier at the head, and the bytes after it.
///
/// # Errors
/// A fault of syntax if no number begins here, and `WideNumber` if it is above the greatest
/// identifier.
pub(crate) fn read_number(bytes: &[u8]) -> Result<(u32, &[u8]), Stop>
    ensures ok { IfOk result (λ r. Reads (AnyNumber most_id) r.0 bytes.now r.1.now) }
    ensures err { IfErr result (Leaves (AnyNumber most_id) bytes.now) }
{
    read_at_most(bytes, MOST_ID)
}

/// The greatest number of results at the head, and the bytes after it.
///
/// # Errors
/// A fault of syntax if no number begins here, and `WideNumber` if 32 bits don't hold it.
pub(crate) fn read_limit(bytes: &[u8]) -> Result<(u32, &[u8]), Stop>
    ensures ok { IfOk result (λ r. Reads (AnyNumber most_limit) r.0 bytes.now r.1.now) }
    ensures err { IfErr result (Leaves (AnyNumber most_limit) bytes.now) }
{
    read_at_most(bytes, MOST_LIMIT)
}

/// The number at the head, of at most so much, and the bytes after it.
fn read_at_most(bytes: &[u8], most: u64) -> Result<(u32, &[u8]), Stop>
    requires { most ≤ 4294967295 }
    ensures ok { IfOk result (λ r. Reads (AnyNumber most) r.0 bytes.now r.1.now) }
    ensures err { IfErr result (Leaves (AnyNumber most) bytes.now) }
{
    let left = bytes.len();
    let Some((digits, rest)) = cut_number(bytes) else {
        return Err(Stop::Syntax { left });
    };
    match value_of(digits, most) {
        Some(number) => Ok((number as u32, rest)),
        None => Err(wide_number(left)),
    }
}

/// The number of times at the head, and the bytes after it.
///
/// # Errors
/// A fault of syntax if no number begins here, and `WrongTimes` if it is below 1 or above 16.
pub(crate) fn read_times(bytes: &[u8]) -> Result<(u8, &[u8]), Stop>
    ensures ok { IfOk result (λ r. Reads AnyTimes r.0 bytes.now r.1.now) }
    ensures err { IfErr result (Leaves AnyTimes bytes.now) }
{
    let left = bytes.len();
    let Some((digits, rest)) = cut_number(bytes) else {
        return Err(Stop::Syntax { left });
    };
    match value_of(digits, MOST_TIMES) {
        Some(times) => {
            if times < LEAST_TIMES {
                return Err(wrong_times(left));
            }
            Ok((times as u8, rest))
        }
        None => Err(wrong_times(left)),
    }
}

/// The stop at a number of times below 1 or above 16.
fn wrong_times(left: usize) -> Stop
    ensures { result ≡ Stop.Bad BadToken.WrongTimes left }
{
    Stop::Bad {
        token: BadToken::WrongTimes,
        left,
    }
}

/// The number at the head, with a minus or without, and the bytes after it.
///
/// # Errors
/// A fault of syntax if no number goes on so, and `WideNumber` if 64 bits don't hold it.
pub(crate) fn read_integer(bytes: &[u8]) -> Result<(i64, &[u8]), Stop>
    ensures ok { IfOk result (λ r. Reads AnyValue (values.Int r.0) bytes.now r.1.now) }
    ensures err { IfErr result (LeavesInteger bytes.now) }
{
    match bytes {
        [b'-', after @ ..] => read_negative(after),
        _ => read_positive(bytes),
    }
}

/// The number of a minus and the digits at the head.
fn read_negative(after: &[u8]) -> Result<(i64, &[u8]), Stop>
    ensures ok { IfOk result (λ r. Reads AnyValue (values.Int r.0) (45 ∷ after.now) r.1.now) }
    ensures err { IfErr result (LeavesInteger (45 ∷ after.now)) }
{
    let left = after.len();
    let Some((digits, rest)) = cut_number(after) else {
        return Err(Stop::Syntax { left });
    };
    match value_of(digits, MOST_NEGATIVE) {
        Some(size) => Ok((negated(size), rest)),
        None => Err(wide_number(left + 1)),
    }
}

/// The number of the digits at the head.
fn read_positive(bytes: &[u8]) -> Result<(i64, &[u8]), Stop>
    ensures ok { IfOk result (λ r. Reads AnyValue (values.Int r.0) bytes.now r.1.now) }
    ensures err { IfErr result (LeavesPositive bytes.now) }
{
    let left = bytes.len();
    let Some((digits, rest)) = cut_number(bytes) else {
        return Err(Stop::Syntax { left });
    };
    match value_of(digits, MOST_POSITIVE) {
        Some(number) => Ok((number as i64, rest)),
        None => Err(wide_number(left)),
    }
}

/// The stop at a number out of its range.
fn wide_number(left: usize) -> Stop
    ensures { result ≡ Stop.Bad BadToken.WideNumber left }
{
    Stop::Bad {
        token: BadToken::WideNumber,
        left,
    }
}

/// So much below 0.
fn negated(size: u64) -> i64
    requires { size ≤ 2 ^ 63 }
    ensures { result ≡ neg_ℤ (pos size) }
{
    if size == 0 {
        return 0;
    }
    -1 - (size - 1) as i64
}

/// The digits of the number at the head and the bytes after them, if a number begins here.
fn cut_number(bytes: &[u8]) -> Option<(&[u8], &[u8])>
    ensures some { IfSome result (λ cut.
        Takes (AnyNumber most_id) (value_after 0 cut.0.now) bytes.now cut.1.now) }
    ensures none { IfNone result (¬ StartsNumber bytes.now) }
{
    let len = number_len(bytes);
    if len == 0 {
        return None;
    }
    Some(bytes.split_at(len))
}

/// How many bytes the number at the head has.
fn number_len(bytes: &[u8]) -> usize
    ensures counts { CountsNumber bytes.now result }
    ensures bound { result ≤ length bytes.now }
{
    let [first, ..] = bytes else {
        return 0;
    };
    if *first == b'0' {
        return 1;
    }
    run_len(bytes, ByteKind::Digit)
}

/// Whether a number may begin with the byte: a digit or a minus.
pub(crate) fn is_integer_start(byte: u8) -> bool
    ensures { result ≡ is_integer_start byte }
{
    is_of(ByteKind::Digit, byte) || byte == b'-'
}

/// The value of the digits, if it is not above the most.
#[tactic(auto, using(crate::proofs::Decimals::stays_above, crate::proofs::Decimals::value_more))]
fn value_of(digits: &[u8], most: u64) -> Option<u64>
    requires { most ≤ 2 ^ 63 }
    ensures some { IfSome result (λ n. (n ≡ value_after 0 digits.now) × (n ≤ most)) }
    ensures none { IfNone result (most < value_after 0 digits.now) }
{
    let mut value = 0;
    for byte in digits {
        if value > most / 10 {
            return None;
        }
        value = value * 10 + u64::from(byte.saturating_sub(b'0'));
        if value > most {
            return None;
        }
    }
    Some(value)
}
