ghost use Rattle.std.specs.Prelude.{◌≡◌, ◌+◌, ◌≤◌, true};
ghost use Rattle.rec_bytes.specs.RecordFiles.{is_record_file};
ghost use Rattle.record_lists.specs.Lines.{live_line};

use crate::line::Line;
use rec_bytes::{FREE, KIND, Rec};

/// The records in use of a file from one on, by the link at a place.
#[derive(Drop)]
pub struct LiveLine {
    number: u8,
    place: u8,
    ghost known: { is_record_file number ≡ true },
    ghost inside: { place + 4 ≤ 64 },
}

impl LiveLine {
    /// Those of the file of this number, by the link at this place.
    pub fn new(number: u8, place: u8) -> LiveLine
        requires known { is_record_file number ≡ true }
        requires inside { place + 4 ≤ 64 }
        ensures number { result.number ≡ number }
        ensures place { result.place ≡ place }
    {
        LiveLine { number, place }
    }
}

impl Line for LiveLine {
    ghost kind = { λ line. live_line line.number line.place };

    fn file(&self) -> u8 {
        self.number
    }

    fn next(&self, rec: &Rec) -> u32 {
        rec.number(self.place)
    }

    fn fits(&self, _before: u32, _at: u32, rec: &Rec) -> bool {
        rec.byte(KIND) != FREE
    }
}
