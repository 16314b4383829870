use crate::text::put;
use gremlin_parse::LineFault;
use itoa::Buffer;
use std::alloc::AllocError;

/// Writes the fault in the words of the console, with its place.
pub(crate) fn put_fault(out: &mut Vec<u8>, fault: LineFault) -> Result<(), AllocError> {
    match fault {
        LineFault::Memory => put(out, &[b"memory"]),
        LineFault::Syntax { at } => put_place(out, b"syntax ", at),
        LineFault::NameLength { at } => put_place(out, b"name length ", at),
        LineFault::TextLength { at } => put_place(out, b"text length ", at),
        LineFault::NumberRange { at } => put_place(out, b"number range ", at),
        LineFault::TimesRange { at } => put_place(out, b"times range ", at),
        LineFault::StepKind { at } => put_place(out, b"step kind ", at),
        LineFault::TooManySteps { at } => put_place(out, b"too many steps ", at),
    }
}

fn put_place(out: &mut Vec<u8>, words: &[u8], at: usize) -> Result<(), AllocError> {
    let mut digits = Buffer::new();
    put(out, &[words, digits.format(at).as_bytes()])
}
