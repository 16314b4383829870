ghost use Rattle.std.specs.Prelude.{◌≡◌, OnOk};
ghost use Rattle.fault_count.specs.Cause.{HasCause};
ghost use Rattle.disk_model.specs.Disk.{Elapses, TornIn};
ghost use Rattle.rec_bytes.specs.Format.{record_bytes};
ghost use Rattle.rec_bytes.specs.Key.{IsKey};
ghost use Rattle.record_file.specs.Records.{SameButRecord, record_at, record_place};

use crate::place::place_of;
use disk_model::Disk;
use rec_bytes::{DiskFault, Key, Rec};

/// Writes the record at a key in its file. Until a sync of the file succeeds, an image has any
/// bytes there.
pub fn write_record<D: Disk>(disk: &mut D, key: Key, rec: Rec) -> Result<(), DiskFault>
    requires { IsKey key }
    ensures record { D.tells_reads → OnOk result (record_at (D.reads disk.new) key ≡ rec) }
    ensures elsewhere { SameButRecord key (D.reads disk.old) (D.reads disk.new) }
    ensures crash { D.tells_images
        → TornIn key.file (record_place key) record_bytes (D.may_leave disk.old)
        (D.may_leave disk.new) }
    ensures time { D.tells_images
        → Elapses (D.moment disk.old) (D.moment disk.new) (D.left_since disk.old)
        (D.left_since disk.new) (D.may_leave disk.new) }
    ensures cause { HasCause (D.faults disk.old) (D.faults disk.new) result }
{
    disk.write(key.file, place_of(key), &rec.bytes)
}
