ghost use Rattle.std.specs.Prelude.{◌↔◌, IsTrue};
ghost use Rattle.rec_bytes.specs.Key.{IsKey};

use crate::limits::MOST_IDS;
use crate::record_files::is_record_file;

/// Which record: its file, and its number in the file. Keys are ordered by file and then by number.
#[derive(Clone, Copy, Debug, PartialEq, Eq, PartialOrd, Ord)]
pub struct Key {
    pub file: u8,
    pub id: u32,
}

impl Key {
    /// Whether a store can have a record of this key.
    pub fn is_valid(&self) -> bool
        ensures { IsTrue result ↔ IsKey self.now }
    {
        is_record_file(self.file) && self.id < MOST_IDS
    }
}
