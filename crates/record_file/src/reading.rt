ghost use Rattle.std.specs.Prelude.{◌≡◌, IfOk};
ghost use Rattle.fault_count.specs.Cause.{HasCause};
ghost use Rattle.disk_model.specs.Spans.{OnlyReads};
ghost use Rattle.rec_bytes.specs.Key.{IsKey};
ghost use Rattle.record_file.specs.Records.{record_at};

use crate::place::place_of;
use disk_model::Disk;
use rec_bytes::{DiskFault, Key, RECORD_BYTES, Rec};

/// The record at a key, as it stands in its file.
pub fn read_record<D: Disk>(disk: &mut D, key: Key) -> Result<Rec, DiskFault>
    requires { IsKey key }
    ensures record { D.tells_reads → IfOk result (λ rec. rec ≡ record_at (D.reads disk.old) key) }
    ensures only_reads { OnlyReads D.Disk disk.old disk.new }
    ensures cause { HasCause (D.faults disk.old) (D.faults disk.new) result }
{
    let mut bytes = [0; RECORD_BYTES];
    disk.read(key.file, place_of(key), &mut bytes)?;
    Ok(Rec { bytes })
}
