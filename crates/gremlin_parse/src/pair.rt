ghost use Rattle.std.specs.Prelude.{◌≡◌, ◌<◌, ◌++◌, ◌∷◌, [], length, IfOk, IfErr, OnOk};
ghost use Rattle.std.specs.List.{AllByRecursion};
ghost use Rattle.gremlin_parse.specs.Grammar.{pairs_to_end, IsMadeOf, IsBounded};
ghost use Rattle.gremlin_parse.specs.Values.{value_of};
ghost use Rattle.gremlin_parse.specs.Symbols.{ReadsAll, LeavesOne};
ghost use Rattle.gremlin_parse.specs.Stopping.{IsStop};
ghost use Rattle.gremlin_parse.specs.Pairs.{pair_symbols, pair_contents, pair_of};
ghost use Rattle.gremlin_parse.specs.Pairs.{SpellsPairs, BadInPairs};

use crate::parts::{copy_name, read_gap, read_name, read_sign, skip_blanks};
use crate::stop::Stop;
use crate::value::{WrittenValue, read_value, value_of};
use plain_graph::{Pair, Pairs};
use std::alloc::Global;

/// The pairs to the line's end.
///
/// # Errors
/// The leftmost fault, or `Memory`.
pub(crate) fn read_pairs(alloc: Global, bytes: &[u8]) -> Result<Pairs, Stop>
    ensures ok { IfOk result (λ pairs. IsMadeOf (pairs_to_end pairs) bytes.now) }
    ensures bounds { IfOk result (λ pairs. AllByRecursion IsBounded (pairs_to_end pairs)) }
    ensures err { IfErr result (IsStop SpellsPairs BadInPairs (Unit {0}) bytes.now) }
{
    let mut pairs = Vec::new(alloc);
    let mut rest = bytes;
    while !skip_blanks(rest).is_empty() {
        let (key, value, after) = read_pair(rest)?;
        push_pair(alloc, &mut pairs, key, value)?;
        rest = after;
    }
    Ok(Pairs::new(pairs))
}

/// The key and the value of the pair after one blank or more, and the bytes after it.
///
/// # Errors
/// A fault of syntax if no pair goes on so, and `LongName`, `WideNumber` and `LongText`.
fn read_pair(bytes: &[u8]) -> Result<(&[u8], WrittenValue<'_>, &[u8]), Stop>
    ensures ok { IfOk result (λ r.
        ReadsAll pair_symbols (pair_contents r.0.now (value_of r.1)) bytes.now r.2.now) }
    ensures less { IfOk result (λ r. length r.2.now < length bytes.now) }
    ensures err { IfErr result (LeavesOne pair_symbols bytes.now) }
{
    let at_key = read_gap(bytes)?;
    let (key, after_key) = read_name(at_key)?;
    let at_value = read_sign(after_key, b"=")?;
    let (value, rest) = read_value(at_value)?;
    Ok((key, value, rest))
}

/// Adds the pair after the others.
pub(crate) fn push_pair(
    alloc: Global,
    pairs: &mut Vec<Pair>,
    key: &[u8],
    value: WrittenValue,
) -> Result<(), Stop>
    ensures ok { OnOk result (pairs.new.items
        ≡ pairs.old.items ++ pair_of (pair_contents key.now (value_of value.entry)) ∷ []) }
    ensures err { IfErr result (λ stop. stop ≡ Stop.Memory) }
{
    let key = copy_name(alloc, key)?;
    let value = value_of(alloc, value)?;
    pairs.push(Pair { key, value })?;
    Ok(())
}
