ghost use Rattle.std.specs.Prelude.{◌≡◌, ◌∷◌, true, IfOk, IfErr};
ghost use Rattle.gremlin_parse.specs.Values.{is_quote, value_of};
ghost use Rattle.gremlin_parse.specs.Symbols.{AnyValue, Reads, Leaves};

use crate::bad_token::BadToken;
use crate::keyword::read_keyword;
use crate::number::{is_integer_start, read_integer};
use crate::stop::Stop;
use crate::text::{Quoted, is_quote, read_quoted, unescape};
use plain_graph::{TEXT_BYTES, Text, Value};
use std::alloc::Global;

/// A value as it stands in a line.
#[derive(Clone, Copy)]
pub(crate) enum WrittenValue<'a> {
    Int(i64),
    Bool(bool),
    Text(Quoted<'a>),
}

const TRUTHS: [(&[u8], bool); 2] = [(b"true", true), (b"false", false)];

/// The value at the head, and the bytes after it.
///
/// # Errors
/// A fault of syntax if no value goes on so, `WideNumber` and `LongText` if it is out of bounds.
pub(crate) fn read_value(bytes: &[u8]) -> Result<(WrittenValue<'_>, &[u8]), Stop>
    ensures ok { IfOk result (λ r. Reads AnyValue (value_of r.0) bytes.now r.1.now) }
    ensures err { IfErr result (Leaves AnyValue bytes.now) }
{
    let [first, after @ ..] = bytes else {
        return Err(Stop::Syntax { left: 0 });
    };
    if is_quote(*first) {
        return read_text(*first, after);
    }
    if is_integer_start(*first) {
        let (number, rest) = read_integer(bytes)?;
        return Ok((WrittenValue::Int(number), rest));
    }
    let (truth, rest) = read_keyword(bytes, &TRUTHS)?;
    Ok((WrittenValue::Bool(truth), rest))
}

/// The text that goes on after its opening quote, and the bytes after it.
fn read_text(quote: u8, after: &[u8]) -> Result<(WrittenValue<'_>, &[u8]), Stop>
    requires { is_quote quote ≡ true }
    ensures ok { IfOk result (λ r. Reads AnyValue (value_of r.0) (quote ∷ after.now) r.1.now) }
    ensures err { IfErr result (Leaves AnyValue (quote ∷ after.now)) }
{
    let (quoted, rest) = read_quoted(after, quote)?;
    if quoted.len > TEXT_BYTES {
        return Err(Stop::Bad {
            token: BadToken::LongText,
            left: after.len() + 1,
        });
    }
    Ok((WrittenValue::Text(quoted), rest))
}

/// The value, with a text of its own.
pub(crate) fn value_of(alloc: Global, written: WrittenValue) -> Result<Value, Stop>
    ensures ok { IfOk result (λ value. value ≡ value_of written.entry) }
    ensures err { IfErr result (λ stop. stop ≡ Stop.Memory) }
{
    match written {
        WrittenValue::Int(number) => Ok(Value::Int(number)),
        WrittenValue::Bool(truth) => Ok(Value::Bool(truth)),
        WrittenValue::Text(quoted) => {
            let bytes = unescape(alloc, quoted)?;
            Ok(Value::Text(Text::new(bytes)))
        }
    }
}
