ghost use Rattle.std.specs.Prelude.{◌≡◌, ◌↔◌, ◌<◌, IfOk, IsTrue, Some, length, slice_get, true};
ghost use Rattle.fault_count.specs.Cause.{HasCause};
ghost use Rattle.disk_model.specs.Contents.{Files, Holds};
ghost use Rattle.disk_model.specs.Spans.{OnlyReads};
ghost use Rattle.rec_bytes.specs.Creation.{own_key};
ghost use Rattle.rec_bytes.specs.Format.{meta_file, meta_records};
ghost use Rattle.rec_bytes.specs.RecordFiles.{is_meta_file, meta_key_of};
ghost use Rattle.rec_bytes.specs.Space.{blank_records, laid_over, put};
ghost use Rattle.rec_bytes.specs.declared.key.Key.{Key as AKey};
ghost use Rattle.rec_bytes.specs.declared.record.Rec.{Rec as ARec};
ghost use Rattle.record_file.specs.MetaFile.{AreMetasOf, blank_metas, find_meta, meta_bytes};
ghost use Rattle.record_file.specs.Records.{record_at};

use disk_model::Disk;
use rec_bytes::{DiskFault, Key, META, META_RECORDS, OWN_KEY, RECORD_BYTES, Rec, WriteSet};

const COUNT: usize = META_RECORDS as usize;

const META_BYTES: usize = COUNT * RECORD_BYTES;

/// The records of the meta file in memory, by number.
#[derive(Clone, Copy)]
pub struct MetaFile {
    records: [Rec; COUNT],
}

impl MetaFile {
    /// Records of zeros.
    pub fn blank() -> MetaFile
        ensures { result.records ≡ blank_metas }
    {
        MetaFile {
            records: [Rec::ZEROS; COUNT],
        }
    }

    /// Reads them in one call of the disk.
    pub fn read<D: Disk>(disk: &mut D) -> Result<MetaFile, DiskFault>
        ensures held { D.tells_reads
            → IfOk result (λ metas. AreMetasOf (record_at (D.reads disk.old)) metas.records) }
        ensures only_reads { OnlyReads D.Disk disk.old disk.new }
        ensures cause { HasCause (D.faults disk.old) (D.faults disk.new) result }
    {
        let mut bytes = [0; META_BYTES];
        disk.read(META, 0, &mut bytes)?;
        Ok(MetaFile::of(&bytes))
    }

    // The records in these bytes, one after the other.
    fn of(bytes: &[u8]) -> MetaFile
        requires { length bytes.now ≡ meta_bytes }
        ensures { (content : Files) → Holds meta_file 0 bytes.now content
            → AreMetasOf (record_at content) result.records }
    {
        let mut metas = MetaFile::blank();
        for id in 0..COUNT {
            let start = id * RECORD_BYTES;
            let mut rec = Rec::ZEROS;
            rec.bytes
                .copy_from_slice(&bytes[start..start + RECORD_BYTES]);
            metas.records[id] = rec;
        }
        metas
    }

    /// The one at a key, where it is a meta record's.
    pub fn find(&self, key: Key) -> Option<Rec>
        ensures { result ≡ find_meta self.now.records key }
    {
        if key.file == META && key.id < META_RECORDS {
            Some(self.records[key.id as usize])
        } else {
            None
        }
    }

    /// The one of a number.
    pub fn at(&self, id: u32) -> Rec
        requires { id < meta_records }
        ensures { slice_get self.now.records id ≡ Some result }
    {
        self.records[id as usize]
    }

    /// The store's own record.
    pub fn own(&self) -> Rec
        ensures { find_meta self.now.records own_key ≡ Some result }
    {
        self.records[OWN_KEY.id as usize]
    }

    /// The meta record of a file.
    pub fn of_file(&self, file: u8) -> Rec
        requires { is_meta_file file ≡ true }
        ensures { find_meta self.now.records (meta_key_of file) ≡ Some result }
    {
        self.records[file as usize]
    }

    /// Whether each is zeros.
    pub fn is_blank(&self) -> bool
        ensures { IsTrue result ↔ AreMetasOf blank_records self.now.records }
    {
        self.records.iter().all(|rec| *rec == Rec::ZEROS)
    }

    /// Puts a record, where its key is a meta record's.
    pub fn put(&mut self, key: Key, rec: Rec)
        ensures { (records : AKey → ARec) → AreMetasOf records self.old.records
            → AreMetasOf (put records key rec) self.new.records }
    {
        if key.file == META && key.id < META_RECORDS {
            self.records[key.id as usize] = rec;
        }
    }

    /// Takes the meta records among these, once they are written in the file.
    pub fn refresh(&mut self, written: &WriteSet)
        ensures { (records : AKey → ARec) → AreMetasOf records self.old.records
            → AreMetasOf (laid_over records written.now.pairs) self.new.records }
    {
        for id in 0..META_RECORDS {
            if let Some(rec) = written.find(Key { file: META, id }) {
                self.records[id as usize] = rec;
            }
        }
    }
}
