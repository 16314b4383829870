ghost use Rattle.std.specs.Prelude.{◌≡◌, ◌≤◌, ◌+◌, [], IfOk, length};
ghost use Rattle.rec_bytes.specs.Creation.{creation_pairs, raising_pairs};

use crate::files::{INDEX, META};
use crate::key::Key;
use crate::meta::first_meta;
use crate::record_files::{RecordFile, meta_key};
use crate::shape::Shape;
use crate::write_set::WriteSet;
use std::alloc::{AllocError, Global};

/// The key of the store's own record.
pub const OWN_KEY: Key = Key { file: META, id: 0 };

/// The first records of a store: its own, and a meta record for each other file of records.
pub fn creation(alloc: Global, shape: Shape) -> Result<WriteSet, AllocError>
    ensures { IfOk result (λ set. set.pairs ≡ creation_pairs shape) }
{
    let mut set = WriteSet::new(alloc);
    set.put(OWN_KEY, shape.to_record())?;
    for entry in RecordFile::all_but_meta() {
        set.put(meta_key(entry.file), first_meta(entry.file))?;
    }
    Ok(set)
}

/// Puts into an empty set what opening adds to a store of an older version: its own record as of
/// this version, and the meta record of the index.
pub fn put_raising(set: &mut WriteSet, shape: Shape)
    requires empty { set.old.pairs ≡ [] }
    requires room { 2 ≤ set.old.room }
    ensures pairs { set.new.pairs ≡ raising_pairs shape }
    ensures room { set.old.room ≤ length set.new.pairs + set.new.room }
{
    set.put_reserved(OWN_KEY, shape.to_record());
    set.put_reserved(meta_key(INDEX), first_meta(INDEX));
}
