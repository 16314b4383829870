use crate::call::Call;
use crate::error::RowError;
use std::alloc::{AllocError, Global};

/// Words that stand for numbers, and calls that stand for others, each with its name.
#[derive(Drop)]
pub(crate) struct Glossary<'a> {
    alloc: Global,
    numbers: Vec<(&'a [u8], u32)>,
    calls: Vec<(&'a [u8], &'a [u8])>,
}

impl<'a> Glossary<'a> {
    /// No words.
    pub(crate) fn new(alloc: Global) -> Glossary<'a> {
        Glossary {
            alloc,
            numbers: Vec::new(alloc),
            calls: Vec::new(alloc),
        }
    }

    /// Lets a word stand for the number after it.
    pub(crate) fn add_number(&mut self, line: &'a [u8]) -> Result<(), RowError> {
        let (word, number) = cut(line);
        let number = self.number_of(number)?;
        Ok(self.numbers.push((word, number))?)
    }

    /// Lets a word stand for one more call.
    pub(crate) fn add_call(&mut self, line: &'a [u8]) -> Result<(), AllocError> {
        Ok(self.calls.push(cut(line))?)
    }

    /// The calls for which a word stands.
    pub(crate) fn calls_of(&self, wanted: &[u8]) -> Result<Vec<&'a [u8]>, AllocError> {
        let mut found = Vec::new(self.alloc);
        for (word, call) in &self.calls {
            if *word == wanted {
                found.push(*call)?;
            }
        }
        Ok(found)
    }

    /// The call that a line spells.
    pub(crate) fn read(&self, line: &'a [u8]) -> Result<Call<'a>, RowError> {
        let (layer, rest) = cut(line);
        let (verb, rest) = cut(rest);
        let mut call = Call {
            layer,
            verb,
            numbers: Vec::new(self.alloc),
            text: b"",
            value: b"",
        };
        for word in rest.split(|byte| *byte == b' ') {
            self.add_word(&mut call, word)?;
        }
        Ok(call)
    }

    fn add_word(&self, call: &mut Call<'a>, word: &'a [u8]) -> Result<(), RowError> {
        match word.split_first() {
            None => {}
            Some((b'\'', text)) => call.text = text,
            Some((b'=', value)) => call.value = value,
            Some(_) => call.numbers.push(self.number_of(word)?)?,
        }
        Ok(())
    }

    /// The number that a word spells, or for which it stands.
    fn number_of(&self, word: &[u8]) -> Result<u32, RowError> {
        for (known, number) in &self.numbers {
            if *known == word {
                return Ok(*number);
            }
        }
        number_in(word)
    }
}

/// The number that the text spells in decimal.
pub(crate) fn number_in(text: &[u8]) -> Result<u32, RowError> {
    let Ok(text) = str::from_utf8(text) else {
        return Err(RowError::Malformed);
    };
    match text.parse::<u32>() {
        Ok(number) => Ok(number),
        Err(_) => Err(RowError::Malformed),
    }
}

/// What stands before the first blank, and what stands after it.
pub(crate) fn cut(text: &[u8]) -> (&[u8], &[u8]) {
    let mut parts = text.splitn(2, |byte| *byte == b' ');
    (parts.next().unwrap_or(b""), parts.next().unwrap_or(b""))
}
