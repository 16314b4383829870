ghost use Rattle.std.specs.Prelude.{◌≡◌, ◌≤◌, length, IfOk, IfErr};
ghost use Rattle.gremlin_parse.specs.Keywords.{common, lookup, reach, whole_word, words_of};
ghost use Rattle.gremlin_parse.specs.Keywords.{TakesWord, LeavesTable};
ghost use Rattle.gremlin_parse.specs.Stopping.{StopsWith};

use crate::byte_kind::{ByteKind, run_len};
use crate::stop::Stop;

/// The word of the table that stands at the head, and the bytes after it. A word is the whole run
/// of bytes of names, so words that share letters need no order.
///
/// # Errors
/// A fault of syntax after the longest prefix of a word of the table.
pub(crate) fn read_keyword<'a, K: Copy>(
    bytes: &'a [u8],
    table: &[(&[u8], K)],
) -> Result<(K, &'a [u8]), Stop>
    ensures ok { IfOk result (λ r. TakesWord (words_of table.now) bytes.now r.0 r.1.now) }
    ensures err { IfErr result (StopsWith (LeavesTable (words_of table.now) bytes.now)) }
{
    let len = run_len(bytes, ByteKind::Name);
    let (run, rest) = bytes.split_at(len);
    match lookup(table, run) {
        Some(kind) => Ok((kind, rest)),
        None => Err(Stop::Syntax {
            left: bytes.len() - reach(table, run),
        }),
    }
}

/// What the table has for the longest prefix of the bytes that begins a word of it.
pub(crate) fn whole_word<K: Copy>(bytes: &[u8], table: &[(&[u8], K)]) -> Option<K>
    ensures { result ≡ whole_word (words_of table.now) bytes.now }
{
    let len = reach(table, bytes);
    lookup(table, &bytes[..len])
}

/// What the table has for this word.
fn lookup<K: Copy>(table: &[(&[u8], K)], run: &[u8]) -> Option<K>
    ensures { result ≡ lookup (words_of table.now) run.now }
{
    for (word, kind) in table {
        if *word == run {
            return Some(*kind);
        }
    }
    None
}

/// How many bytes of the run begin a word of the table.
fn reach<K: Copy>(table: &[(&[u8], K)], run: &[u8]) -> usize
    ensures most { result ≡ reach (words_of table.now) run.now }
    ensures within { result ≤ length run.now }
{
    let mut most = 0;
    for (word, _) in table {
        most = most.max(common_len(word, run));
    }
    most
}

/// How many bytes the two have in common from the first on.
fn common_len(word: &[u8], run: &[u8]) -> usize
    ensures count { result ≡ common word.now run.now }
    ensures within { result ≤ length run.now }
{
    let [byte, word @ ..] = word else {
        return 0;
    };
    let [other, run @ ..] = run else {
        return 0;
    };
    if *other == *byte {
        1 + common_len(word, run)
    } else {
        0
    }
}
