ghost use Rattle.std.specs.Prelude.{◌≡◌, Some, true};
ghost use Rattle.std.specs.List.{slice_get};
ghost use Rattle.rec_bytes.specs.RecordFiles.{is_meta_file};
ghost use Rattle.rec_bytes.specs.Space.{laid_over};
ghost use Rattle.rec_bytes.specs.declared.key.Key.{Key as AKey};
ghost use Rattle.rec_bytes.specs.declared.record.Rec.{Rec as ARec};
ghost use Rattle.txn_core.specs.Marks.{AreMarks, AreMarksOf};

use crate::fetching::found_into;
use rec_bytes::{Key, META, META_RECORDS, Meta, Rec, WriteSet};
use record_file::MetaFile;

const COUNT: usize = META_RECORDS as usize;

/// What the meta record of each file says, by the number of the file.
#[derive(Clone, Copy)]
pub(crate) struct Marks {
    of_files: [Meta; COUNT],
}

impl Marks {
    /// Those of the meta records, with the changed records over them, and over these a
    /// transaction's own.
    pub(crate) fn over(metas: &MetaFile, changed: &WriteSet, own: &WriteSet) -> Marks
        ensures { AreMarks metas.now.records changed.now.pairs own.now.pairs result.of_files }
    {
        let mut marks = Marks {
            of_files: [Meta::EMPTY; COUNT],
        };
        for file in 0..META_RECORDS {
            let key = Key {
                file: META,
                id: file,
            };
            let mut rec = metas.at(file);
            found_into(changed, key, &mut rec);
            found_into(own, key, &mut rec);
            marks.of_files[file as usize] = Meta::of(&rec);
        }
        marks
    }

    /// Takes the marks of the meta records among these, which are written over those before.
    pub(crate) fn refresh(&mut self, written: &WriteSet)
        ensures { (records : AKey → ARec) → AreMarksOf records self.old.of_files
            → AreMarksOf (laid_over records written.now.pairs) self.new.of_files }
    {
        for file in 0..META_RECORDS {
            let mut rec = Rec::ZEROS;
            let key = Key {
                file: META,
                id: file,
            };
            if written.find_into(key, &mut rec) {
                self.of_files[file as usize] = Meta::of(&rec);
            }
        }
    }

    /// The marks of one file.
    pub(crate) fn of_file(&self, file: u8) -> Meta
        requires { is_meta_file file ≡ true }
        ensures { slice_get self.now.of_files file ≡ Some result }
    {
        self.of_files[file as usize]
    }
}
