ghost use Rattle.std.specs.Prelude.{◌≡◌, ◌++◌, [], ◌∷◌, cond, nat_eq, not, IfOk, OnErr, OnOk};
ghost use Rattle.std.specs.List.{list_any};
ghost use Rattle.std.specs.Cmp.Lexicographic.{pointwise};
ghost use Rattle.plain_graph.specs.Meaning.{texts_once};

use indexmap::IndexSet;
use plain_graph::Text;
use std::alloc::{AllocError, Global};
use std::marker::Model;

/// Texts, each once, where one is found by its hash. Contracts see the list of their bytes.
#[derive(Drop)]
pub(crate) struct TextSet {
    texts: IndexSet<Vec<u8>>,
}

impl Model for TextSet {
    ghost use Rattle.std.specs.Prelude.{List, ℕ};
    ghost use Rattle.traversal_run.specs.TextSet.{bytes_of};

    ghost Value = { List (List ℕ) };

    ghost view = { λ t. bytes_of t.texts.keys };
}

impl TextSet {
    /// No texts. It takes no memory.
    pub(crate) fn new(alloc: Global) -> TextSet
        ensures { result ≡ [] }
    {
        TextSet {
            texts: IndexSet::new(alloc),
        }
    }

    /// Adds a text, and tells whether it wasn't there.
    pub(crate) fn add(&mut self, text: Vec<u8>) -> Result<bool, AllocError>
        ensures is_new { IfOk result (λ is_new. is_new
            ≡ not (list_any (pointwise nat_eq text.items) self.old)) }
        ensures added { IfOk result (λ is_new. self.new
            ≡ cond is_new (self.old ++ text.items ∷ []) self.old) }
        ensures err { OnErr result (self.new ≡ self.old) }
    {
        let (_, is_new) = self.texts.insert_full(text)?;
        Ok(is_new)
    }
}

/// These texts, each once, where it first stands. A single one needs no set.
pub(crate) fn distinct_texts(alloc: Global, texts: &[Text]) -> Result<Vec<Text>, AllocError>
    ensures { IfOk result (λ distinct. distinct.items ≡ texts_once [] texts.now) }
{
    match texts {
        [text] => single_text(alloc, text),
        several => each_once(alloc, several),
    }
}

/// This text alone.
fn single_text(alloc: Global, text: &Text) -> Result<Vec<Text>, AllocError>
    ensures { IfOk result (λ single. single.items ≡ text.now ∷ []) }
{
    let mut single = Vec::new(alloc);
    single.push(text.copy(alloc)?)?;
    Ok(single)
}

/// These texts, each once, found by a set of those before.
fn each_once(alloc: Global, texts: &[Text]) -> Result<Vec<Text>, AllocError>
    ensures { IfOk result (λ distinct. distinct.items ≡ texts_once [] texts.now) }
{
    let mut set = TextSet::new(alloc);
    let mut distinct = Vec::new(alloc);
    for text in texts {
        if add_copy(alloc, &mut set, text)? {
            push_copy(alloc, &mut distinct, text)?;
        }
    }
    Ok(distinct)
}

/// Adds a copy of the text, and tells whether it wasn't there.
fn add_copy(alloc: Global, set: &mut TextSet, text: &Text) -> Result<bool, AllocError>
    ensures is_new { IfOk result (λ is_new. is_new
        ≡ not (list_any (pointwise nat_eq text.now) set.old)) }
    ensures added { IfOk result (λ is_new. set.new
        ≡ cond is_new (set.old ++ text.now ∷ []) set.old) }
{
    let bytes = Vec::from_slice(alloc, text.as_bytes())?;
    set.add(bytes)
}

/// Puts a copy of the text after the others.
fn push_copy(alloc: Global, texts: &mut Vec<Text>, text: &Text) -> Result<(), AllocError>
    ensures { OnOk result (texts.new.items ≡ texts.old.items ++ text.now ∷ []) }
{
    let copy = text.copy(alloc)?;
    texts.push(copy)?;
    Ok(())
}
