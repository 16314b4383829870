ghost use Rattle.std.specs.Prelude.{◌≡◌, ◌++◌, ◌∷◌, [], All, IfOk, OnOk, codes, decimal, flat_map};
ghost use Rattle.plain_graph.specs.ElementMaps.{label_after, making_text, map_line};
ghost use Rattle.plain_graph.specs.ElementMaps.{map_text, paired};
ghost use Rattle.plain_graph.specs.Forms.{HasKept, IsKept};
ghost use Rattle.plain_graph.specs.Reply.{text_line};
ghost use Rattle.plain_graph.specs.declared.pairs.Pair.{Pair as PairRow};

use crate::reply::value_piece;
use crate::{Item, Pair, Pairs, Text};
use itoa::Buffer;
use std::alloc::{AllocError, Global};

/// The label of an element, and some or all of its properties.
#[derive(Drop)]
pub struct ElementMap {
    /// None where there is no such element.
    pub label: Option<Text>,
    pub pairs: Pairs,
}

/// The line of an element that a query shows as a map: `==>[id:ID,label:LABEL,KEY:VALUE,..]`, of
/// an edge with `OUT:FROM,IN:TO` after its type. A value is shown as it is.
pub fn map_line(alloc: Global, item: &Item, map: &ElementMap) -> Result<Vec<u8>, AllocError>
    requires { HasKept item.now map.now.pairs }
    ensures { IfOk result (λ line. line.items ≡ text_line (map_line (item.now, map.now))) }
{
    let mut line = Vec::from_slice(alloc, b"==>")?;
    push_map(&mut line, item, map)?;
    line.extend_from_slice(b"\n")?;
    Ok(line)
}

/// Puts an element as a map at the end, or a value as it is.
fn push_map(line: &mut Vec<u8>, item: &Item, map: &ElementMap) -> Result<(), AllocError>
    requires { HasKept item.now map.now.pairs }
    ensures { OnOk result (line.new.items ≡ line.old.items ++ map_text item.now map.now) }
{
    match item {
        Item::Vertex(id) => {
            push_number(line, b"[id:", *id)?;
            push_label(line, b",label:", &map.label)?;
        }
        Item::Edge {
            id,
            label,
            from,
            to,
        } => {
            push_number(line, b"[id:", *id)?;
            push_text(line, b",label:", label)?;
            push_number(line, b",OUT:", *from)?;
            push_number(line, b",IN:", *to)?;
        }
        Item::Value(value) => return line.extend_from_slice(value_piece(value).as_bytes()),
    }
    push_pairs(line, b",", b":", map.pairs.as_slice())?;
    line.extend_from_slice(b"]")
}

/// The reply to `view`: the line that makes the element again, `node LABEL KEY=VALUE ..` or
/// `edge FROM TYPE TO KEY=VALUE ..`.
pub fn making_line(alloc: Global, item: &Item, map: &ElementMap) -> Result<Vec<u8>, AllocError>
    requires { HasKept item.now map.now.pairs }
    ensures { IfOk result (λ line. line.items ≡ text_line (making_text item.now map.now)) }
{
    let mut line = Vec::new(alloc);
    push_making(&mut line, item, map)?;
    line.extend_from_slice(b"\n")?;
    Ok(line)
}

/// Puts the line that makes an element again at the end, or a value as it is.
fn push_making(line: &mut Vec<u8>, item: &Item, map: &ElementMap) -> Result<(), AllocError>
    requires { HasKept item.now map.now.pairs }
    ensures { OnOk result (line.new.items ≡ line.old.items ++ making_text item.now map.now) }
{
    match item {
        Item::Vertex(_) => {
            line.extend_from_slice(b"node")?;
            push_label(line, b" ", &map.label)?;
        }
        Item::Edge {
            label,
            from,
            to,
            ..
        } => {
            push_number(line, b"edge ", *from)?;
            push_text(line, b" ", label)?;
            push_number(line, b" ", *to)?;
        }
        Item::Value(value) => return line.extend_from_slice(value_piece(value).as_bytes()),
    }
    push_pairs(line, b" ", b"=", map.pairs.as_slice())
}

/// Puts a word and a number at the end.
fn push_number(line: &mut Vec<u8>, word: &[u8], number: u32) -> Result<(), AllocError>
    ensures { OnOk result (line.new.items ≡ line.old.items ++ word.now ++ decimal number) }
{
    let mut digits = Buffer::new();
    line.extend_from_slice(word)?;
    line.extend_from_slice(digits.format(number).as_bytes())
}

/// Puts a word and a text at the end.
fn push_text(line: &mut Vec<u8>, word: &[u8], text: &Text) -> Result<(), AllocError>
    ensures { OnOk result (line.new.items ≡ line.old.items ++ word.now ++ text.now) }
{
    line.extend_from_slice(word)?;
    line.extend_from_slice(text.as_bytes())
}

/// Puts a word and a label at the end, where there is one.
fn push_label(line: &mut Vec<u8>, word: &[u8], label: &Option<Text>) -> Result<(), AllocError>
    ensures { OnOk result (line.new.items ≡ line.old.items ++ label_after word.now label.now) }
{
    match label {
        Some(text) => push_text(line, word, text),
        None => Ok(()),
    }
}

/// Puts pairs at the end, each after one sign, with another between key and value.
fn push_pairs(
    line: &mut Vec<u8>,
    before: &[u8],
    between: &[u8],
    pairs: &[Pair],
) -> Result<(), AllocError>
    requires { All (λ (pair : PairRow). IsKept pair.value) pairs.now }
    ensures { OnOk result (line.new.items
        ≡ line.old.items ++ flat_map (paired before.now between.now) pairs.now) }
{
    for pair in pairs {
        push_pair(line, before, between, pair)?;
    }
    Ok(())
}

fn push_pair(
    line: &mut Vec<u8>,
    before: &[u8],
    between: &[u8],
    pair: &Pair,
) -> Result<(), AllocError>
    requires { IsKept pair.now.value }
    ensures { OnOk result (line.new.items
        ≡ line.old.items ++ paired before.now between.now pair.now) }
{
    push_text(line, before, &pair.key)?;
    line.extend_from_slice(between)?;
    line.extend_from_slice(value_piece(&pair.value).as_bytes())
}
