ghost use Rattle.std.specs.Prelude.{
  ◌≡◌,
  ◌≢◌,
  ◌⊎◌,
  ◌≤◌,
  ◌<◌,
  ◌+◌,
  ◌++◌,
  ◌∷◌,
  [],
  true,
  false,
  length,
  take,
  drop,
  ◌-◌,
  ◌^◌,
  IfOk,
  IfSome,
  IfNone,
  OnOk,
  OnErr,
};
ghost use Rattle.stream_io.specs.Lines.{Whole, Long, line_of};
ghost use Rattle.stream_io.specs.Answers.{IsPiece};
ghost use Rattle.fault_count.specs.Cause.{HasCause, Rose};

use crate::Source;
use crate::window::Window;
use fault_count::Failed;
use memchr::memchr;
use std::alloc::{AllocError, Global};
use std::marker::Model;

/// The greatest number of bytes of a line, a carriage return at its end counted.
pub const MAX_LINE_BYTES: usize = 8_192;

/// The greatest number of bytes that a reader takes from its source.
pub const MAX_INPUT_BYTES: usize = 1 << 30;

/// What [`LineReader::next`] answers.
pub enum LineAnswer<'a> {
    /// The next line: the bytes before a newline or the end, without one carriage return at their
    /// end.
    Line(&'a [u8]),
    /// A line of more than 8,192 bytes, which was passed over.
    TooLong,
    /// The source has answered its end, and no byte is left.
    End,
    /// The source failed; the bytes of the unfinished line are dropped.
    SourceFault,
    /// 2^30 bytes have been taken, and no whole line is left; the unfinished one is dropped.
    Exhausted,
}

/// What stands at the front of the bytes held.
enum Found {
    Line,
    TooLong,
}

/// What a call comes to.
enum Outcome {
    Found(Found),
    End,
    SourceFault,
    Exhausted,
}

/// What one step of a call comes to.
enum Step {
    Ended(Outcome),
    /// More was read; the flag says whether a part of the line was too long and is gone.
    GoOn(bool),
}

/// Reads lines from a source. Contracts see a `Reading`: the bytes held, the last line, the number
/// of bytes taken, and whether the source answered its end.
#[derive(Drop)]
pub struct LineReader {
    window: Window,
    // The last line, in the window's buffer.
    line_start: usize,
    line_end: usize,
    taken: usize,
    ended: bool,
}

impl Model for LineReader {
    ghost use Rattle.stream_io.specs.Reading.{Reading};

    ghost Value = { Reading };

    ghost use Rattle.stream_io.specs.Buffer.{reading_of, IsRight};

    ghost view = { reading_of };

    ghost invariant = { IsRight };
}

impl LineReader {
    ghost use Rattle.stream_io.specs.Reading.{HasNoneLeft, IsFresh, ahead, used};
    ghost use Rattle.stream_io.specs.Found.{TakesPiece, TakesRest, Fills};
    ghost use Rattle.std.specs.Borrow.{sem};
    ghost use Rattle.stream_io.specs.Answers.{Answers};
    ghost use Rattle.stream_io.specs.Lending.{EndsWith};
    ghost use Rattle.stream_io.specs.Steps.{
      IsCounted,
      PassesPart,
      StepTakes,
      StepCounts,
      OutcomeTakes,
      OutcomeCounts,
    };

    /// A reader that has read nothing. It takes all its memory now: a buffer of some 80 KiB.
    pub fn new(alloc: Global) -> Result<LineReader, AllocError>
        ensures { IfOk result IsFresh }
    {
        Ok(LineReader {
            window: Window::new(alloc)?,
            line_start: 0,
            line_end: 0,
            taken: 0,
            ended: false,
        })
    }

    /// The last line.
    fn line(&self) -> &[u8]
        ensures { result.now ≡ self.now.line }
    {
        &self.window.buffer[self.line_start..self.line_end]
    }

    /// Drops the bytes held.
    fn drop_held(&mut self)
        ensures dropped { self.new ≡ record self.old { held = [] } }
        ensures counted { IsCounted self.new }
    {
        self.window.start = 0;
        self.window.searched = 0;
        self.window.end = 0;
    }

    /// Takes the first piece held that a newline ends. `dropped` says that a part of it was too
    /// long and is gone.
    fn take_piece(&mut self, dropped: bool) -> Option<Found>
        ensures none { IfNone result (IsPiece self.old.held × (self.new ≡ self.old)) }
        ensures taken { IfSome result (λ found. TakesPiece found dropped self.old self.new) }
        ensures used { IfSome result (λ found. used self.old < used self.new) }
        ensures counted { IsCounted self.new }
    {
        let Some(at) = newline(&self.window.buffer[self.window.searched..self.window.end]) else {
            self.window.searched = self.window.end;
            return None;
        };
        let from = self.window.start;
        let to = self.window.searched + at;
        self.window.start = to + 1;
        self.window.searched = to + 1;
        match line_length(&self.window.buffer[from..to]) {
            Some(len) if !dropped => {
                self.line_start = from;
                self.line_end = from + len;
                Some(Found::Line)
            }
            _ => Some(Found::TooLong),
        }
    }

    /// Takes all that is held, as the last piece.
    fn take_rest(&mut self, dropped: bool) -> Found
        ensures rest { TakesRest result dropped self.old self.new }
        ensures counted { IsCounted self.new }
    {
        let from = self.window.start;
        let to = self.window.end;
        self.window.start = to;
        self.window.searched = to;
        match line_length(&self.window.buffer[from..to]) {
            Some(len) if !dropped => {
                self.line_start = from;
                self.line_end = from + len;
                Found::Line
            }
            _ => Found::TooLong,
        }
    }

    /// Asks the source once for what fits in the buffer and the limit.
    fn fill<I: Source>(&mut self, source: &mut I) -> Result<(), Failed>
        requires below_limit { self.old.taken < 2 ^ 30 }
        requires short { length self.old.held ≤ 8192 }
        requires goes_on { self.old.ended ≡ false }
        ensures filled { OnOk result (Fills self.old self.new) }
        ensures counted { IsCounted self.new }
        ensures ahead { I.tells → OnOk result
            (ahead self.new (I.left source.new) ≡ ahead self.old (I.left source.old)) }
        ensures stays { OnErr result
            ((self.new.held ≡ self.old.held) × (self.new.taken ≡ self.old.taken)
            × (self.new.ended ≡ false)) }
        ensures none_lost { I.tells → OnErr result (I.left source.new ≡ I.left source.old) }
        ensures source_counted { I.tells
            → self.new.taken + length (I.left source.new)
            ≡ self.old.taken + length (I.left source.old) }
        ensures none_left { I.tells → OnOk result (HasNoneLeft self.new (I.left source.new)) }
        ensures quiet { OnOk result (I.faults source.new ≡ I.faults source.old) }
        ensures cause { HasCause (I.faults source.old) (I.faults source.new) result }
    {
        let count = self.window.grow(MAX_INPUT_BYTES - self.taken, source)?;
        self.ended = count == 0;
        self.taken += count;
        Ok(())
    }

    /// Ends the call where the source has answered its end.
    fn finish(&mut self, dropped: bool) -> Outcome
        requires ended { self.old.ended ≡ true }
        requires no_newline { IsPiece self.old.held }
        ensures takes { StepTakes (Step.Ended result) dropped self.old.held self.new.held self.new }
        ensures counts { StepCounts (Step.Ended result) dropped self.old self.new }
        ensures counted { IsCounted self.new }
    {
        if self.window.start == self.window.end && !dropped {
            return Outcome::End;
        }
        Outcome::Found(self.take_rest(dropped))
    }

    /// Drops the bytes held where they are too many for a line, and says whether a part is gone.
    fn drop_long(&mut self, dropped: bool) -> bool
        ensures passed { IsPiece self.old.held
            → PassesPart dropped result self.old.held self.new.held }
        ensures taken { self.new.taken ≡ self.old.taken }
        ensures ended { self.new.ended ≡ self.old.ended }
        ensures short { length self.new.held ≤ 8192 }
        ensures used { result ≡ true → (dropped ≡ true) ⊎ (used self.old < used self.new) }
        ensures kept { used self.old ≤ used self.new }
        ensures counted { IsCounted self.new }
    {
        if self.window.end - self.window.start <= MAX_LINE_BYTES {
            return dropped;
        }
        self.drop_held();
        true
    }

    /// Takes what stands ready, or asks the source once.
    fn step<I: Source>(&mut self, dropped: bool, source: &mut I) -> Step
        ensures takes { I.tells → StepTakes result dropped (ahead self.old (I.left source.old))
            (ahead self.new (I.left source.new)) self.new }
        ensures counts { StepCounts result dropped self.old self.new }
        ensures counted { IsCounted self.new }
        ensures source_counted { I.tells
            → self.new.taken + length (I.left source.new)
            ≡ self.old.taken + length (I.left source.old) }
        ensures none_left { I.tells → HasNoneLeft self.old (I.left source.old)
            → HasNoneLeft self.new (I.left source.new) }
        ensures later { I.faults source.old ≤ I.faults source.new }
        ensures told { result ≢ Step.Ended Outcome.SourceFault
            → I.faults source.new ≡ I.faults source.old }
        ensures cause { result ≡ Step.Ended Outcome.SourceFault
            → Rose (I.faults source.old) (I.faults source.new) }
    {
        if let Some(found) = self.take_piece(dropped) {
            return Step::Ended(Outcome::Found(found));
        }
        if self.ended {
            return Step::Ended(self.finish(dropped));
        }
        let dropped = self.drop_long(dropped);
        if self.taken == MAX_INPUT_BYTES {
            self.drop_held();
            return Step::Ended(Outcome::Exhausted);
        }
        if self.fill(source).is_err() {
            self.drop_held();
            return Step::Ended(Outcome::SourceFault);
        }
        Step::GoOn(dropped)
    }

    /// Goes on step by step to the end of the call.
    fn advance<I: Source>(&mut self, source: &mut I) -> Outcome
        ensures takes { I.tells → OutcomeTakes result (ahead self.old (I.left source.old))
            (ahead self.new (I.left source.new)) self.new }
        ensures counts { OutcomeCounts result self.old self.new }
        ensures counted { IsCounted self.new }
        ensures source_counted { I.tells
            → self.new.taken + length (I.left source.new)
            ≡ self.old.taken + length (I.left source.old) }
        ensures stays_ended { self.new.ended ≡ false → self.old.ended ≡ false }
        ensures asked { self.old.ended ≡ false → self.new.ended ≡ true → self.new.taken < 2 ^ 30 }
        ensures none_left { I.tells → HasNoneLeft self.old (I.left source.old)
            → HasNoneLeft self.new (I.left source.new) }
        ensures later { I.faults source.old ≤ I.faults source.new }
        ensures told { result ≢ Outcome.SourceFault → I.faults source.new ≡ I.faults source.old }
        ensures cause { result ≡ Outcome.SourceFault
            → Rose (I.faults source.old) (I.faults source.new) }
    {
        let mut dropped = false;
        'steps: loop {
            match self.step(dropped, source) {
                Step::Ended(outcome) => return outcome,
                Step::GoOn(now_dropped) => dropped = now_dropped,
            }
        }
    }

    /// The next line of the source, or why there is none. It takes no memory, and asks the source
    /// for at least 64 KiB a call, until the limit of 2^30 bytes leaves less.
    pub fn next<'a, I: Source>(&'a mut self, source: &mut I) -> LineAnswer<'a>
        ensures* after { sem 𝓛 (EndsWith self.entry
            (λ reader. Answers I.tells result self.old (I.left source.old)
            (I.left source.new) reader)) }
        ensures later { I.faults source.old ≤ I.faults source.new }
        ensures told { result ≢ LineAnswer.SourceFault → I.faults source.new ≡ I.faults source.old }
        ensures cause { result ≡ LineAnswer.SourceFault
            → Rose (I.faults source.old) (I.faults source.new) }
    {
        match self.advance(source) {
            Outcome::Found(Found::Line) => LineAnswer::Line(self.line()),
            Outcome::Found(Found::TooLong) => LineAnswer::TooLong,
            Outcome::End => LineAnswer::End,
            Outcome::SourceFault => LineAnswer::SourceFault,
            Outcome::Exhausted => LineAnswer::Exhausted,
        }
    }
}

/// The place of the first newline.
fn newline(bytes: &[u8]) -> Option<usize>
    ensures none { IfNone result (IsPiece bytes.now) }
    ensures found { IfSome result
        (λ at. IsPiece (take at bytes.now)
        × (bytes.now ≡ take at bytes.now ++ 10 ∷ drop (at + 1) bytes.now)) }
    ensures within { IfSome result (λ at. at < length bytes.now) }
{
    memchr(b'\n', bytes)
}

/// The length of a piece's line, without one carriage return at its end; none where it is too long.
fn line_length(piece: &[u8]) -> Option<usize>
    ensures long { IfNone result (line_of piece.now ≡ Long) }
    ensures whole { IfSome result (λ len. line_of piece.now ≡ Whole (take len piece.now)) }
    ensures within { IfSome result (λ len. len ≤ length piece.now) }
{
    if piece.len() > MAX_LINE_BYTES {
        return None;
    }
    match piece {
        [.., b'\r'] => Some(piece.len() - 1),
        _ => Some(piece.len()),
    }
}
