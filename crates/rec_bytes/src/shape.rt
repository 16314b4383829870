ghost use Rattle.std.specs.Prelude.{◌≡◌, IfSome, IsTrue, Some, true};
ghost use Rattle.rec_bytes.specs.Shape.{
  is_allowed,
  is_store_record,
  is_version,
  shape_of_record,
  shape_record,
  version_of,
  with_mark,
  with_shape,
};

use crate::fields::{
    FIRST_VERSION, MARK, STORE_LIMIT, STORE_REST, STORE_THRESHOLD, STORE_VERSION, VERSION,
};
use crate::limits::{GREATEST_LIMIT, GREATEST_THRESHOLD, LEAST_LIMIT, LEAST_THRESHOLD};
use crate::record::Rec;

/// The shape of a store: a node with more relationships than the threshold is dense, and the limit
/// says how many records a file may have.
#[derive(Clone, Copy, Debug, PartialEq, Eq)]
pub struct Shape {
    pub threshold: u16,
    pub limit: u32,
}

impl Shape {
    /// Reads it from record 0 of the meta file. There is none where the record has another mark or
    /// version, a shape that isn't allowed, or anything behind the fields.
    pub fn of(rec: &Rec) -> Option<Shape>
        ensures value { result ≡ shape_of_record rec.now }
        ensures allowed { IfSome result (λ shape. IsTrue (is_allowed shape)) }
    {
        let shape = Shape {
            threshold: rec.short(STORE_THRESHOLD),
            limit: rec.number(STORE_LIMIT),
        };
        if is_store(rec) && shape.is_allowed() {
            Some(shape)
        } else {
            None
        }
    }

    /// Whether a store may have it.
    pub fn is_allowed(&self) -> bool
        ensures { result ≡ is_allowed self.now }
    {
        LEAST_THRESHOLD <= self.threshold
            && self.threshold <= GREATEST_THRESHOLD
            && LEAST_LIMIT <= self.limit
            && self.limit <= GREATEST_LIMIT
    }

    /// Writes it into a record, with the mark and the version. The bytes behind stay.
    pub fn write(&self, rec: &mut Rec)
        ensures set { rec.new ≡ with_shape rec.old self.now }
        ensures got { rec.old ≡ Rec.ZEROS → IsTrue (is_allowed self.now)
            → shape_of_record rec.new ≡ Some self.now }
    {
        write_mark(rec);
        rec.set_short(STORE_VERSION, VERSION);
        rec.set_short(STORE_THRESHOLD, self.threshold);
        rec.set_number(STORE_LIMIT, self.limit);
    }

    /// The record 0 of the meta file of a store of this shape.
    pub fn to_record(&self) -> Rec
        ensures is { result ≡ shape_record self.now }
        ensures got { is_allowed self.now ≡ true → shape_of_record result ≡ Some self.now }
    {
        let mut rec = Rec::ZEROS;
        self.write(&mut rec);
        rec
    }
}

/// The version of the format that a store's own record says.
pub fn version_of(rec: &Rec) -> u16
    ensures { result ≡ version_of rec.now }
{
    rec.short(STORE_VERSION)
}

fn is_store(rec: &Rec) -> bool
    ensures { result ≡ is_store_record rec.now }
{
    rec.bytes.starts_with(&MARK) && is_version(version_of(rec)) && rec.is_zero_from(STORE_REST)
}

fn is_version(version: u16) -> bool
    ensures { result ≡ is_version version }
{
    FIRST_VERSION <= version && version <= VERSION
}

fn write_mark(rec: &mut Rec)
    ensures { rec.new ≡ with_mark rec.old }
{
    rec.bytes[..MARK.len()].copy_from_slice(&MARK);
}
