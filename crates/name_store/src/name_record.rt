ghost use Rattle.std.specs.Prelude.{◌≡◌, ◌≤◌, is_some, length};
ghost use Rattle.rec_bytes.specs.Format.{names_file, name_text_bytes};
ghost use Rattle.store_rules.specs.Ranges.{layout_of};
ghost use Rattle.store_rules.specs.Views.{text_of};
ghost use Rattle.name_store.specs.NameRecord.{name_record};

use plain_graph::NAME_BYTES;
use rec_bytes::{KIND, NAME_LENGTH, NAME_TEXT, NAMED, RECORD_BYTES, Rec};

/// The record of a name, with zeros in all other bytes.
pub(crate) fn name_record(text: &[u8]) -> Rec
    requires { length text.now ≤ name_text_bytes }
    ensures { result ≡ name_record text.now }
{
    let mut rec = Rec::ZEROS;
    rec.set_byte(KIND, NAMED);
    rec.set_byte(NAME_LENGTH, text.len() as u8);
    let start = NAME_TEXT as usize;
    rec.bytes[start..start + text.len()].copy_from_slice(text);
    rec
}

/// Whether the kind and the length are ones of a name's record.
pub(crate) fn has_name_form(rec: &Rec) -> bool
    ensures { result ≡ is_some (layout_of names_file rec.now) }
{
    let len = rec.byte(NAME_LENGTH) as usize;
    rec.byte(KIND) == NAMED && 0 < len && len <= NAME_BYTES
}

/// The text of a name's record, as far as the record goes where its length is wrong.
pub(crate) fn text_of(rec: &Rec) -> &[u8]
    ensures { result.now ≡ text_of rec.now }
{
    let start = NAME_TEXT as usize;
    let len = (rec.byte(NAME_LENGTH) as usize).min(RECORD_BYTES - start);
    &rec.bytes[start..start + len]
}
