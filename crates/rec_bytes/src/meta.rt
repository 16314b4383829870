ghost use Rattle.std.specs.Prelude.{◌≡◌, ◌↔◌, IsTrue};
ghost use Rattle.rec_bytes.specs.Meta.{
  IsLinkBelow,
  IsMetaInRange,
  first_meta,
  meta_of,
  meta_record,
  rest_of,
  with_meta,
};

use crate::fields::{META_DEFINITION, META_FREE, META_HIGH, META_INDEX_REST, META_LIVE, META_REST};
use crate::files::{INDEX, NIL};
use crate::record::Rec;
use crate::record_files::room_of;
use crate::shape::Shape;

/// What a meta record says of its file: the first number that was never given out, the first record
/// of the free list or `NIL`, and how many records are in use.
#[derive(Clone, Copy, Debug, PartialEq, Eq)]
pub struct Meta {
    pub high: u32,
    pub free: u32,
    pub live: u32,
}

impl Meta {
    /// What the meta record of a file says where nothing was given out.
    pub const EMPTY: Meta = Meta {
        high: 0,
        free: NIL,
        live: 0,
    };

    /// Reads it from a record.
    pub fn of(rec: &Rec) -> Meta
        ensures { result ≡ meta_of rec.now }
    {
        Meta {
            high: rec.number(META_HIGH),
            free: rec.number(META_FREE),
            live: rec.number(META_LIVE),
        }
    }

    /// Writes it into a record, whose other bytes stay.
    #[tactic(auto, using(crate::proofs::Metas::meta_reads_back))]
    pub fn write(&self, rec: &mut Rec)
        ensures set { rec.new ≡ with_meta rec.old self.now }
        ensures got { meta_of rec.new ≡ self.now }
    {
        rec.set_number(META_HIGH, self.high);
        rec.set_number(META_FREE, self.free);
        rec.set_number(META_LIVE, self.live);
    }

    /// The record that says this, with zeros behind.
    pub fn to_record(&self) -> Rec
        ensures { result ≡ meta_record self.now }
    {
        let mut rec = Rec::ZEROS;
        self.write(&mut rec);
        rec
    }

    /// Whether a meta record may stand for a file in a store of this shape: what was given out
    /// stays within the file's room, the links below that, and nothing stands behind.
    pub fn is_in_range(rec: &Rec, file: u8, shape: Shape) -> bool
        ensures { IsTrue result ↔ IsMetaInRange shape file rec.now }
    {
        let meta = Meta::of(rec);
        meta.high as u64 <= room_of(file, shape)
            && is_link_below(meta.free, meta.high)
            && (file != INDEX || is_link_below(rec.number(META_DEFINITION), meta.high))
            && rec.is_zero_from(rest_of(file))
    }
}

/// The meta record of a file in which nothing was given out.
pub fn first_meta(file: u8) -> Rec
    ensures { result ≡ first_meta file }
{
    let mut rec = Meta::EMPTY.to_record();
    if file == INDEX {
        rec.set_number(META_DEFINITION, NIL);
    }
    rec
}

fn is_link_below(link: u32, high: u32) -> bool
    ensures { IsTrue result ↔ IsLinkBelow link high }
{
    link == NIL || link < high
}

fn rest_of(file: u8) -> u8
    ensures { result ≡ rest_of file }
{
    if file == INDEX {
        META_INDEX_REST
    } else {
        META_REST
    }
}
