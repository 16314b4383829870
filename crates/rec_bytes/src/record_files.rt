ghost use Rattle.std.specs.Prelude.{◌≡◌, nat_eq};
ghost use Rattle.std.specs.List.{list_any};
ghost use Rattle.rec_bytes.specs.RecordFiles.{
  is_meta_file,
  is_record_file,
  meta_key_of,
  meta_rooms,
  record_rooms,
  records_of,
  room_of,
  rooms_of,
};

use crate::files::{
    GROUPS, INDEX, META, META_RECORDS, NAMES, NODES, PROPERTIES, RELATIONSHIPS, STRINGS,
};
use crate::key::Key;
use crate::limits::MOST_NAMES;
use crate::shape::Shape;

/// How many records a file has room for.
#[derive(Clone, Copy, Debug, PartialEq, Eq)]
pub enum RecordRoom {
    /// So many, whatever the store's shape.
    Fixed(u32),
    /// As many as the limit says.
    Limit,
    /// Twice as many.
    TwiceLimit,
}

impl RecordRoom {
    /// How many that are in a store of this shape.
    pub fn records(&self, shape: Shape) -> u64
        ensures { result ≡ records_of self.now shape }
    {
        match *self {
            RecordRoom::Fixed(records) => records as u64,
            RecordRoom::Limit => shape.limit as u64,
            RecordRoom::TwiceLimit => 2 * shape.limit as u64,
        }
    }
}

/// A file of records, by its number, and its room.
#[derive(Clone, Copy, Debug, PartialEq, Eq)]
pub struct RecordFile {
    pub file: u8,
    pub room: RecordRoom,
}

impl RecordFile {
    /// All files of records, by ascending number.
    pub fn all() -> &'static [RecordFile]
        ensures { rooms_of result.now ≡ record_rooms }
    {
        &RECORD_FILES
    }

    /// Those that have a meta record: all but the meta file, which is the first.
    pub fn all_but_meta() -> &'static [RecordFile]
        ensures { rooms_of result.now ≡ meta_rooms }
    {
        &RECORD_FILES[1..]
    }
}

/// All files of records, by ascending number.
pub const RECORD_FILES: [RecordFile; 8] = [
    RecordFile {
        file: META,
        room: RecordRoom::Fixed(META_RECORDS),
    },
    RecordFile {
        file: NODES,
        room: RecordRoom::Limit,
    },
    RecordFile {
        file: RELATIONSHIPS,
        room: RecordRoom::Limit,
    },
    RecordFile {
        file: GROUPS,
        room: RecordRoom::TwiceLimit,
    },
    RecordFile {
        file: PROPERTIES,
        room: RecordRoom::Limit,
    },
    RecordFile {
        file: STRINGS,
        room: RecordRoom::Limit,
    },
    RecordFile {
        file: NAMES,
        room: RecordRoom::Fixed(MOST_NAMES),
    },
    RecordFile {
        file: INDEX,
        room: RecordRoom::TwiceLimit,
    },
];

/// Whether a file has records.
pub fn is_record_file(file: u8) -> bool
    ensures { result ≡ is_record_file file }
{
    is_among(RecordFile::all(), file)
}

/// Whether a file has a meta record.
pub fn is_meta_file(file: u8) -> bool
    ensures { result ≡ is_meta_file file }
{
    is_among(RecordFile::all_but_meta(), file)
}

/// How many records a file has room for in a store of this shape, and 0 where it has no records.
pub fn room_of(file: u8, shape: Shape) -> u64
    ensures { result ≡ room_of shape file }
{
    for entry in RecordFile::all() {
        if file == entry.file {
            return entry.room.records(shape);
        }
    }
    0
}

/// The key of the meta record of a file.
pub fn meta_key(file: u8) -> Key
    ensures { result ≡ meta_key_of file }
{
    Key {
        file: META,
        id: file as u32,
    }
}

fn is_among(files: &[RecordFile], file: u8) -> bool
    ensures { result ≡ list_any (λ entry. nat_eq file entry.file) files.now }
{
    files.iter().any(|entry| file == entry.file)
}
