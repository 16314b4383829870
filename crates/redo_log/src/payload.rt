ghost use Rattle.std.specs.Prelude.{◌+◌, ◌*◌, ◌≤◌, ◌++◌, ◌∷◌, [], length, OnOk};
ghost use Rattle.fault_count.specs.Cause.{HasCause};
ghost use Rattle.disk_model.specs.Contents.{Holds, SameOutside};
ghost use Rattle.disk_model.specs.Spans.{AtEachMoment};
ghost use Rattle.rec_bytes.specs.Format.{log_file, most_writes};
ghost use Rattle.redo_log.specs.Appending.{AreWhole, IsTornFrom, payload_bytes};

use crate::entry::CLOSED;
use crate::piece::Piece;
use disk_model::Disk;
use fault_count::Failed;
use rec_bytes::{LOG, WriteSet};

/// Writes the bytes of an entry that stand after its gate, and a closed gate after them, in pieces
/// of about 4 KiB. An entry of a few records is one write.
pub(crate) fn write_payload<D: Disk>(disk: &mut D, at: u64, writes: &WriteSet) -> Result<(), Failed>
    requires few { length writes.now.pairs ≤ most_writes }
    requires within { at + 2 + 69 * length writes.now.pairs ≤ 1048575 }
    ensures written { D.tells_reads
        → OnOk result (Holds log_file at (payload_bytes writes.now.pairs ++ 0 ∷ [])
        (D.reads disk.new)) }
    ensures elsewhere { D.tells_reads
        → SameOutside log_file at (3 + 69 * length writes.now.pairs) (D.reads disk.old)
        (D.reads disk.new) }
    ensures crash { D.tells_images
        → AtEachMoment D.Disk disk.old disk.new
        (IsTornFrom (D.may_leave disk.old) at (3 + 69 * length writes.now.pairs)) }
    ensures whole { OnOk result (AreWhole writes.now.pairs) }
    ensures cause { HasCause (D.faults disk.old) (D.faults disk.new) result }
{
    let count = writes.len();
    let mut piece = Piece::new();
    piece.push_count(count as u16);
    let mut next = piece.fill(writes, 0);
    let mut place = at;
    while next < count {
        disk.write(LOG, place, piece.bytes())?;
        place += piece.bytes().len() as u64;
        piece.clear();
        next = piece.fill(writes, next);
    }
    piece.push(&[CLOSED]);
    disk.write(LOG, place, piece.bytes())
}
