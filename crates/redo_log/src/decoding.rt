ghost use Rattle.std.specs.Prelude.{◌≡◌, ◌↔◌, ℕ, length, IsTrue};
ghost use Rattle.disk_model.specs.Contents.{Files};
ghost use Rattle.rec_bytes.specs.Format.{log_file};
ghost use Rattle.redo_log.specs.Entries.{count_at, log_bytes, write_at};

use crate::entry::{KEY_BYTES, OPEN, WRITE_BYTES};
use byteorder::{ByteOrder, LittleEndian};
use rec_bytes::{Key, RECORD_BYTES, Rec};

/// What an entry begins with: its gate, and how many records there are.
#[derive(Clone, Copy)]
pub(crate) struct Head {
    pub(crate) is_open: bool,
    pub(crate) count: u16,
}

/// Reads it from its three bytes.
pub(crate) fn head_of(bytes: &[u8]) -> Head
    requires { length bytes.now ≡ 3 }
    ensures gate { (content : Files) (place : ℕ) → bytes.now ≡ log_bytes content place 3
        → IsTrue result.is_open ↔ (content log_file place ≡ 1) }
    ensures count { (content : Files) (place : ℕ) → bytes.now ≡ log_bytes content place 3
        → result.count ≡ count_at content place }
{
    Head {
        is_open: bytes[0] == OPEN,
        count: LittleEndian::read_u16(&bytes[1..]),
    }
}

/// The key that a written record begins with.
pub(crate) fn key_of(bytes: &[u8]) -> Key
    requires { length bytes.now ≡ 5 }
    ensures { (content : Files) (place : ℕ) → bytes.now ≡ log_bytes content place 5
        → result ≡ (write_at content place).0 }
{
    Key {
        file: bytes[0],
        id: LittleEndian::read_u32(&bytes[1..]),
    }
}

/// A written record, with its key.
pub(crate) fn write_of(bytes: &[u8]) -> (Key, Rec)
    requires { length bytes.now ≡ 69 }
    ensures { (content : Files) (place : ℕ) → bytes.now ≡ log_bytes content place 69
        → result ≡ write_at content place }
{
    let key = key_of(&bytes[..KEY_BYTES]);
    let mut record = [0; RECORD_BYTES];
    record.copy_from_slice(&bytes[KEY_BYTES..WRITE_BYTES]);
    (key, Rec { bytes: record })
}
