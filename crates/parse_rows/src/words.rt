use crate::text::{put, put_number};
use console_words::{Asked, SampleOptions, WordsFault, read_words};
use itoa::Buffer;
use std::alloc::{AllocError, Global};

/// Writes what the words ask for, which stand each after a blank.
pub(crate) fn put_asked(alloc: Global, out: &mut Vec<u8>, line: &[u8]) -> Result<(), AllocError> {
    let mut words = Vec::new(alloc);
    for word in line.split(|byte| *byte == b' ').skip(1) {
        let Ok(word) = str::from_utf8(word) else {
            return put(out, &[b"no text"]);
        };
        words.push(String::from_str(alloc, word)?)?;
    }
    match read_words(alloc, &words) {
        Ok(asked) => put_options(out, asked),
        Err(WordsFault::Usage) => put(out, &[b"usage"]),
        Err(WordsFault::Memory) => put(out, &[b"memory"]),
    }
}

fn put_options(out: &mut Vec<u8>, asked: Asked) -> Result<(), AllocError> {
    match asked {
        Asked::Run(options) => {
            put(out, &[b"run"])?;
            if let Some(threshold) = options.threshold {
                put_number(out, b" threshold ", u32::from(threshold))?;
            }
            if let Some(limit) = options.limit {
                put_number(out, b" limit ", limit)?;
            }
            Ok(())
        }
        Asked::Sample(options) => put_sample(out, b"sample ", options),
        Asked::Follow(options) => put_sample(out, b"follow ", options),
    }
}

fn put_sample(out: &mut Vec<u8>, word: &[u8], options: SampleOptions) -> Result<(), AllocError> {
    let mut digits = Buffer::new();
    put(out, &[word, digits.format(options.seed).as_bytes()])?;
    put_number(out, b" ", options.count)
}
