ghost use Rattle.std.specs.Prelude.{◌≡◌, ◌≤◌, ◌+◌, ◌*◌, ◌++◌, codes, decimal, flat_map, length};
ghost use Rattle.plain_graph.specs.Forms.{IsKept, IsShown};
ghost use Rattle.plain_graph.specs.Lines.{broken_text, counts_text, degree_text, level_text};
ghost use Rattle.plain_graph.specs.Lines.{no_path_text, path_text, sound_text};
ghost use Rattle.plain_graph.specs.Reply.{DamagedRecord, DiskFailed, Done, EdgeMade, NoMemory};
ghost use Rattle.plain_graph.specs.Reply.{NodeMade, PastCount, Refused};
ghost use Rattle.plain_graph.specs.Reply.{configuration_text, damaged_text};
ghost use Rattle.plain_graph.specs.Reply.{edge_text, end_text, escaped, fault_line};
ghost use Rattle.plain_graph.specs.Reply.{file_name, index_line, prefix_text};
ghost use Rattle.plain_graph.specs.Reply.{reply_text, result_text, text_line};
ghost use Rattle.plain_graph.specs.Reply.{value_text};
ghost use Rattle.plain_graph.specs.declared.item.Item.TheVariants as items;
ghost use Rattle.plain_graph.specs.declared.value.Value.TheVariants as values;
ghost use Rattle.plain_graph.specs.RefusalWords.{refusal_number, refusal_rest, refusal_words};

use crate::{ByteBuffer, Counts, Item, NodeLevel, Refusal, Text, Value};
use itoa::Buffer;

/// A reply of one line, which takes no memory.
pub type ShortText = ByteBuffer<128>;

/// The line of a result, which takes no memory. The longest one has a text of 1,024 bytes between
/// quotes, each of them escaped.
pub type ResultLine = ByteBuffer<2_112>;

/// What each line of a reply begins with, which takes no memory.
pub type Prefix = ByteBuffer<8>;

/// What each line of a reply begins with: where the line named its session, `@SESSION` and a blank.
pub fn prefix_of(session: Option<u8>) -> Prefix
    ensures { result ≡ prefix_text session }
{
    let mut text = Prefix::new();
    if let Some(session) = session {
        let mut digits = Buffer::new();
        text.push(b"@");
        text.push(digits.format(session).as_bytes());
        text.push(b" ");
    }
    text
}

/// The reply to a line that made a node: `node ID`.
pub fn node_made(id: u32) -> ShortText
    ensures { result ≡ reply_text (NodeMade id) }
{
    let mut text = ShortText::new();
    let mut digits = Buffer::new();
    text.push(b"node ");
    text.push(digits.format(id).as_bytes());
    text.push(b"\n");
    text
}

/// The reply to a line that made an edge: `edge ID`.
pub fn edge_made(id: u32) -> ShortText
    ensures { result ≡ reply_text (EdgeMade id) }
{
    let mut text = ShortText::new();
    let mut digits = Buffer::new();
    text.push(b"edge ");
    text.push(digits.format(id).as_bytes());
    text.push(b"\n");
    text
}

/// The reply to a line that was carried out and has nothing else to tell: `ok`.
pub fn done() -> &'static [u8]
    ensures { result.now ≡ reply_text Done }
{
    b"ok\n"
}

/// The reply to `stats`: how many there are of each part of the graph.
pub fn counted(counts: Counts) -> ShortText
    ensures { result ≡ text_line (counts_text counts) }
{
    let mut text = ShortText::new();
    push_count(&mut text, b"nodes ", counts.nodes);
    push_count(&mut text, b" edges ", counts.edges);
    push_count(&mut text, b" properties ", counts.properties);
    push_count(&mut text, b" blocks ", counts.blocks);
    push_count(&mut text, b" names ", counts.names);
    text.push(b"\n");
    text
}

/// The reply to `check` where all rules of the store hold: `sound`.
pub fn sound() -> &'static [u8]
    ensures { result.now ≡ text_line sound_text }
{
    b"sound\n"
}

/// The reply to `check` where a record breaks a rule: `broken FILE ID RULE`.
pub fn broken(file: u8, id: u32, rule: u8) -> ShortText
    ensures { result ≡ text_line (broken_text file id rule) }
{
    let mut text = ShortText::new();
    let mut digits = Buffer::new();
    text.push(b"broken ");
    text.push(file_name(file));
    text.push(b" ");
    text.push(digits.format(id).as_bytes());
    text.push(b" ");
    text.push(digits.format(rule).as_bytes());
    text.push(b"\n");
    text
}

/// The reply to `degree`: how many edges the node has.
pub fn degree(edges: u64) -> ShortText
    ensures { result ≡ text_line (degree_text edges) }
{
    let mut text = ShortText::new();
    let mut digits = Buffer::new();
    text.push(b"degree ");
    text.push(digits.format(edges).as_bytes());
    text.push(b"\n");
    text
}

/// The first line of the reply to `path`: how many edges the walk has.
pub fn path(edges: u64) -> ShortText
    ensures { result ≡ text_line (path_text edges) }
{
    let mut text = ShortText::new();
    let mut digits = Buffer::new();
    text.push(b"path ");
    text.push(digits.format(edges).as_bytes());
    text.push(b"\n");
    text
}

/// The reply to `path` where no walk leads there: `no path`.
pub fn no_path() -> &'static [u8]
    ensures { result.now ≡ text_line no_path_text }
{
    b"no path\n"
}

/// The line of one node of the reply to `levels`: `==>v[ID] LEVEL`.
pub fn level_line(row: NodeLevel) -> ShortText
    ensures { result ≡ text_line (level_text row) }
{
    let mut text = ShortText::new();
    let mut digits = Buffer::new();
    text.push(b"==>v[");
    text.push(digits.format(row.node).as_bytes());
    text.push(b"] ");
    text.push(digits.format(row.level).as_bytes());
    text.push(b"\n");
    text
}

/// Puts a word and a number at the end.
fn push_count(text: &mut ShortText, word: &[u8], count: u32)
    requires { length text.old + length word.now ≤ 117 }
    ensures text { text.new ≡ text.old ++ word.now ++ decimal count }
    ensures length { length text.new ≤ length text.old + length word.now + 10 }
{
    let mut digits = Buffer::new();
    text.push(word);
    text.push(digits.format(count).as_bytes());
}

/// What the line of a refusal begins with.
fn refusal_words(why: Refusal) -> &'static [u8]
    ensures { result.now ≡ refusal_words why }
{
    match why {
        Refusal::LongLine => b"error line",
        Refusal::ReadOnly => b"error read only",
        Refusal::Writer => b"error writer",
        Refusal::Failed => b"error failed",
        Refusal::SnapshotOpen => b"error snapshot open",
        Refusal::NoSnapshot => b"error no snapshot",
        Refusal::SnapshotEnded => b"error snapshot ended",
        Refusal::FullNodes => b"error full nodes",
        Refusal::FullEdges => b"error full edges",
        Refusal::FullNames => b"error names full",
        Refusal::TooManyProperties => b"error properties full",
        Refusal::FullProperties => b"error full properties",
        Refusal::FullStrings => b"error full strings",
        Refusal::TransactionOpen => b"error transaction open",
        Refusal::NoTransaction => b"error no transaction",
        Refusal::TransactionFull => b"error transaction full",
        Refusal::IndexThere => b"error index there",
        Refusal::TooManyIndexes => b"error indexes full",
        Refusal::FullIndex => b"error full index",
        Refusal::NoIndex => b"error no index",
        Refusal::IndexTooLarge { .. } => b"error index too large ",
        Refusal::NoNode { .. } => b"error no node ",
        Refusal::NoEdge { .. } => b"error no edge ",
        Refusal::HasRelationships { .. } => b"error node ",
        Refusal::NumberRange { .. } => b"error number range ",
        Refusal::Syntax { .. } => b"error syntax ",
        Refusal::NameLength { .. } => b"error name length ",
        Refusal::TimesRange { .. } => b"error times range ",
        Refusal::StepKind { .. } => b"error step kind ",
        Refusal::TooManySteps { .. } => b"error too many steps ",
        Refusal::TextLength { .. } => b"error text length ",
    }
}

/// The number that it goes on with, if it has one.
fn refusal_number(why: Refusal) -> Option<usize>
    ensures { result ≡ refusal_number why }
{
    match why {
        Refusal::NumberRange { at }
        | Refusal::Syntax { at }
        | Refusal::NameLength { at }
        | Refusal::TimesRange { at }
        | Refusal::StepKind { at }
        | Refusal::TooManySteps { at }
        | Refusal::TextLength { at } => Some(at),
        Refusal::IndexTooLarge { count: id }
        | Refusal::NoNode { id }
        | Refusal::NoEdge { id }
        | Refusal::HasRelationships { id } => Some(id as usize),
        _ => None,
    }
}

/// What it ends with.
fn refusal_rest(why: Refusal) -> &'static [u8]
    ensures { result.now ≡ refusal_rest why }
{
    match why {
        Refusal::HasRelationships { .. } => b" has relationships",
        _ => b"",
    }
}

/// The reply to a line that is refused: `error ..`.
#[tactic(auto, using(crate::proofs::RefusalWords::refusal_laws))]
pub fn refused(why: Refusal) -> ShortText
    ensures { result ≡ reply_text (Refused why) }
{
    let mut text = ShortText::new();
    text.push(refusal_words(why));
    if let Some(number) = refusal_number(why) {
        let mut digits = Buffer::new();
        text.push(digits.format(number).as_bytes());
    }
    text.push(refusal_rest(why));
    text.push(b"\n");
    text
}

/// Writes the line of one result of a query: `==>` and the item.
pub fn result_line(item: &Item, line: &mut ResultLine)
    requires { IsShown item.now }
    ensures { line.new ≡ result_text item.now }
{
    let mut digits = Buffer::new();
    line.clear();
    line.push(b"==>");
    match item {
        Item::Vertex(id) => {
            line.push(b"v[");
            line.push(digits.format(*id).as_bytes());
            line.push(b"]");
        }
        Item::Edge {
            id,
            label,
            from,
            to,
        } => push_edge(line, *id, label, *from, *to),
        Item::Value(value) => push_value(line, value),
    }
    line.push(b"\n");
}

/// Writes the line of one name of the graph: `==>'NAME'`.
pub fn name_line(name: &[u8], line: &mut ResultLine)
    requires { length name.now ≤ 48 }
    ensures { line.new ≡ result_text (items.Value (values.Text name.now)) }
{
    line.clear();
    line.push(b"==>");
    push_quoted(line, name);
    line.push(b"\n");
}

/// Writes the line of one index of the graph: `==>'LABEL' 'KEY'`.
pub fn index_line(label: &[u8], key: &[u8], line: &mut ResultLine)
    requires { length label.now ≤ 48 × length key.now ≤ 48 }
    ensures { line.new ≡ text_line (index_line label.now key.now) }
{
    line.clear();
    line.push(b"==>");
    push_quoted(line, label);
    line.push(b" ");
    push_quoted(line, key);
    line.push(b"\n");
}

/// A value as a line spells it.
pub(crate) fn value_piece(value: &Value) -> ResultLine
    requires { IsKept value.now }
    ensures { result ≡ value_text value.now }
{
    let mut piece = ResultLine::new();
    push_value(&mut piece, value);
    piece
}

/// Puts an edge at the end: `e[ID][FROM-TYPE->TO]`.
fn push_edge(line: &mut ResultLine, id: u32, label: &Text, from: u32, to: u32)
    requires label { length label.now ≤ 48 }
    requires room { length line.old ≤ 3 }
    ensures text { line.new ≡ line.old ++ edge_text id label.now from to }
    ensures room { length line.new ≤ 2100 }
{
    let mut digits = Buffer::new();
    line.push(b"e[");
    line.push(digits.format(id).as_bytes());
    line.push(b"][");
    line.push(digits.format(from).as_bytes());
    line.push(b"-");
    line.push(label.as_bytes());
    line.push(b"->");
    line.push(digits.format(to).as_bytes());
    line.push(b"]");
}

/// Puts a value at the end: a number in decimal, `true`, `false`, or a text between quotes.
fn push_value(line: &mut ResultLine, value: &Value)
    requires kept { IsKept value.now }
    requires room { length line.old ≤ 3 }
    ensures text { line.new ≡ line.old ++ value_text value.now }
    ensures room { length line.new ≤ 2100 }
{
    let mut digits = Buffer::new();
    match value {
        Value::Int(number) => line.push(digits.format(*number).as_bytes()),
        Value::Bool(true) => line.push(b"true"),
        Value::Bool(false) => line.push(b"false"),
        Value::Text(text) => push_quoted(line, text.as_bytes()),
    }
}

/// Puts a text between quotes at the end.
fn push_quoted(line: &mut ResultLine, text: &[u8])
    requires { length line.old + 2 * length text.now + 2 ≤ 2112 }
    ensures text { line.new ≡ line.old ++ value_text (values.Text text.now) }
    ensures room { length line.new ≤ length line.old + 2 * length text.now + 2 }
{
    line.push(b"'");
    push_escaped(line, text);
    line.push(b"'");
}

/// Puts the bytes of a text at the end, with a backslash before some of them.
fn push_escaped(line: &mut ResultLine, text: &[u8])
    requires { length line.old + 2 * length text.now ≤ 2112 }
    ensures text { line.new ≡ line.old ++ flat_map escaped text.now }
    ensures room { length line.new ≤ length line.old + 2 * length text.now }
{
    for byte in text {
        match *byte {
            b'\'' => line.push(b"\\'"),
            b'\\' => line.push(b"\\\\"),
            b'\n' => line.push(b"\\n"),
            b'\r' => line.push(b"\\r"),
            b'\t' => line.push(b"\\t"),
            other => line.push(&[other]),
        }
    }
}

/// The line behind the last result of a query: `end`.
pub fn end_of_results() -> &'static [u8]
    ensures { result.now ≡ text_line end_text }
{
    b"end\n"
}

/// The line where there was no memory for what a line asks for.
pub fn no_memory() -> &'static [u8]
    ensures { result.now ≡ fault_line NoMemory }
{
    b"error memory\n"
}

/// The line where more results come to a count than a number holds.
pub fn past_count() -> &'static [u8]
    ensures { result.now ≡ fault_line PastCount }
{
    b"error count\n"
}

/// The line where the disk failed.
pub fn disk_fault() -> &'static [u8]
    ensures { result.now ≡ fault_line DiskFailed }
{
    b"fault disk\n"
}

/// The line where the files hold no store.
pub fn not_a_store() -> &'static [u8]
    ensures { result.now ≡ text_line (codes "not a store") }
{
    b"not a store\n"
}

/// The line where a record breaks a rule of the store: the name of its file and its number, or for
/// an entry of the log its place.
pub fn damaged(file: u8, id: u32) -> ShortText
    ensures text { result ≡ text_line (damaged_text file id) }
    ensures fault { result ≡ fault_line (DamagedRecord file id) }
{
    let mut text = ShortText::new();
    let mut digits = Buffer::new();
    text.push(b"damaged ");
    text.push(file_name(file));
    text.push(b" ");
    text.push(digits.format(id).as_bytes());
    text.push(b"\n");
    text
}

/// The line where a store has another shape than the one that was asked for: the stored threshold
/// and limit.
pub fn configuration(threshold: u16, limit: u32) -> ShortText
    ensures { result ≡ text_line (configuration_text threshold limit) }
{
    let mut text = ShortText::new();
    let mut digits = Buffer::new();
    text.push(b"configuration ");
    text.push(digits.format(threshold).as_bytes());
    text.push(b" ");
    text.push(digits.format(limit).as_bytes());
    text.push(b"\n");
    text
}

/// What the lines of the console call a file of the store.
fn file_name(file: u8) -> &'static [u8]
    ensures name { result.now ≡ file_name file }
    ensures short { length result.now ≤ 10 }
{
    match file {
        0 => b"meta",
        1 => b"nodes",
        2 => b"edges",
        3 => b"groups",
        4 => b"properties",
        5 => b"strings",
        6 => b"names",
        8 => b"index",
        _ => b"log",
    }
}
