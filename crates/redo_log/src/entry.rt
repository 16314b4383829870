ghost use Rattle.std.specs.Prelude.{◌≡◌, ◌≤◌, ◌↔◌, IsTrue};
ghost use Rattle.redo_log.specs.Entries.{Fits, write_place};

/// The last place of the log that an entry or the gate behind it may have.
pub const LAST_PLACE: u64 = 1_048_575;

/// How many bytes of the log one device call reads or writes at most.
pub(crate) const PIECE_BYTES: usize = 4_096;

/// A gate that is open. Each other byte is a closed one.
pub(crate) const OPEN: u8 = 1;

/// A closed gate, as it is written.
pub(crate) const CLOSED: u8 = 0;

/// How many bytes stand in front of an entry's records: its gate and how many there are.
pub(crate) const HEAD_BYTES: u64 = 3;

/// How many bytes a written record takes: its file, its number and its 64 bytes.
pub(crate) const WRITE_BYTES: usize = 69;

/// How many of them are its file and its number.
pub(crate) const KEY_BYTES: usize = 5;

/// Whether an entry of so many records fits at the tail, with the gate behind it.
pub fn fits(tail: u64, count: usize) -> bool
    ensures { IsTrue result ↔ Fits tail count }
{
    let room = LAST_PLACE - HEAD_BYTES;
    tail <= room && count as u64 <= (room - tail) / WRITE_BYTES as u64
}

/// The place of the record of this index in the entry at a place.
pub(crate) fn place_of_write(place: u64, index: u16) -> u64
    requires { place ≤ 1048575 }
    ensures { result ≡ write_place place index }
{
    place + HEAD_BYTES + (WRITE_BYTES * index as usize) as u64
}
