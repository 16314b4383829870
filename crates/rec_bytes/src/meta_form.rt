ghost use Rattle.std.specs.Prelude.{◌↔◌, ◌<◌, IsTrue};
ghost use Rattle.rec_bytes.specs.Format.{meta_records};
ghost use Rattle.rec_bytes.specs.MetaForm.{IsMetaRight, IsIndexMeta};

use crate::fields::{INDEX_VERSION, TAKEN_REST};
use crate::meta::Meta;
use crate::record::Rec;
use crate::shape::Shape;

/// What a record of the meta file is.
#[derive(Clone, Copy, Debug, PartialEq, Eq)]
pub enum MetaForm {
    /// The store's own record.
    Own,
    /// The counts of the file of the record's number.
    Counts,
    /// The number of the last transaction that was taken over.
    Taken,
    /// The counts of the index; zeros before the version that brings it.
    Index,
}

/// The records of the meta file, by ascending number.
pub const META_FORMS: [MetaForm; 9] = [
    MetaForm::Own,
    MetaForm::Counts,
    MetaForm::Counts,
    MetaForm::Counts,
    MetaForm::Counts,
    MetaForm::Counts,
    MetaForm::Counts,
    MetaForm::Taken,
    MetaForm::Index,
];

/// Whether a record of the meta file may stand at this number, in a store of this version and
/// shape.
pub fn is_meta_right(rec: &Rec, id: u32, version: u16, shape: Shape) -> bool
    requires { id < meta_records }
    ensures { IsTrue result ↔ IsMetaRight version shape id rec.now }
{
    match META_FORMS[id as usize] {
        MetaForm::Own => true,
        MetaForm::Counts => Meta::is_in_range(rec, id as u8, shape),
        MetaForm::Taken => rec.is_zero_from(TAKEN_REST),
        MetaForm::Index => is_index_meta(rec, id as u8, version, shape),
    }
}

// Whether a record may be the meta record of the index.
fn is_index_meta(rec: &Rec, file: u8, version: u16, shape: Shape) -> bool
    ensures { IsTrue result ↔ IsIndexMeta version shape file rec.now }
{
    if version < INDEX_VERSION {
        return *rec == Rec::ZEROS;
    }
    Meta::is_in_range(rec, file, shape)
}
