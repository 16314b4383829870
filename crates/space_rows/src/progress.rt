use crate::bench::Bench;
use crate::error::RowError;
use crate::reading::Glossary;
use std::alloc::{AllocError, Global};

/// What the lines so far have left: the words that they explained, and what the calls work on.
#[derive(Drop)]
pub(crate) struct Progress<'a> {
    alloc: Global,
    glossary: Glossary<'a>,
    bench: Box<Bench>,
}

impl<'a> Progress<'a> {
    /// What there is before the first line.
    pub(crate) fn new(alloc: Global) -> Result<Progress<'a>, AllocError> {
        let bench = Bench::new(alloc)?;
        Ok(Progress {
            alloc,
            glossary: Glossary::new(alloc),
            bench,
        })
    }

    /// Carries out a line, and writes what it answers.
    pub(crate) fn take(&mut self, line: &'a [u8], out: &mut Vec<u8>) -> Result<(), RowError> {
        match line.split_first() {
            None | Some((b'-', _)) => Ok(()),
            Some((b'#', _)) => self.begin_section(line, out),
            Some((b'=', rest)) => self.glossary.add_number(rest),
            Some((b':', rest)) => Ok(self.glossary.add_call(rest)?),
            Some((b'.', word)) => self.prepare(word, out),
            Some(_) => self.show(line, out),
        }
    }

    fn begin_section(&mut self, title: &[u8], out: &mut Vec<u8>) -> Result<(), RowError> {
        self.bench = Bench::new(self.alloc)?;
        Ok(put(out, &[title, b"\n"])?)
    }

    /// Makes the calls for which a word stands, and writes those whose answer isn't `Ok`.
    fn prepare(&mut self, word: &[u8], out: &mut Vec<u8>) -> Result<(), RowError> {
        for line in self.glossary.calls_of(word)? {
            let answer = self.answer(line)?;
            if !answer.starts_with("Ok") {
                put_row(out, line, &answer)?;
            }
        }
        Ok(())
    }

    fn show(&mut self, line: &'a [u8], out: &mut Vec<u8>) -> Result<(), RowError> {
        let answer = self.answer(line)?;
        Ok(put_row(out, line, &answer)?)
    }

    /// What the call of a line answers.
    fn answer(&mut self, line: &'a [u8]) -> Result<String, RowError> {
        match self.call(line) {
            Err(RowError::Malformed) => Ok(String::from_str(self.alloc, "bad line")?),
            other => other,
        }
    }

    fn call(&mut self, line: &'a [u8]) -> Result<String, RowError> {
        let call = self.glossary.read(line)?;
        self.bench.answer(&call)
    }
}

fn put_row(out: &mut Vec<u8>, line: &[u8], answer: &str) -> Result<(), AllocError> {
    put(out, &[line, b" -> ", answer.as_bytes(), b"\n"])
}

/// Writes each of the parts.
fn put(out: &mut Vec<u8>, parts: &[&[u8]]) -> Result<(), AllocError> {
    for part in parts {
        out.extend_from_slice(part)?;
    }
    Ok(())
}
