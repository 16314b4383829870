ghost use Rattle.std.specs.Prelude.{◌≡◌, IfErr, IsOk, OnOk, true};
ghost use Rattle.rec_bytes.specs.RecordFiles.{is_meta_file};
ghost use Rattle.prop_store.specs.GivenOut.{IsGivenOut, IsLinkFault};

use crate::damaged::damaged;
use rec_bytes::{Fault, Key, META, MOST_IDS, RANGE_RULE, Reads};

/// Tests a link of a record into a file, which isn't `NIL`. Where it leads past the mark of the
/// file, the record that holds it is damaged. A damaged mark may be so high that no record has the
/// identifier: then the file's meta record is.
pub(crate) fn test_link<R: Reads>(space: &R, from: Key, file: u8, id: u32) -> Result<(), Fault>
    requires { is_meta_file file ≡ true }
    ensures given { OnOk result (IsGivenOut (R.state space.now).records file id) }
    ensures not_damaged { IsGivenOut (R.state space.now).records file id → IsOk result }
    ensures damaged { IfErr result (IsLinkFault (R.state space.now) from file id) }
{
    if id >= space.meta(file).high {
        return Err(damaged(from.file, from.id, RANGE_RULE));
    }
    // No store's shape has room for so many.
    let _shape = space.shape();
    if id >= MOST_IDS {
        return Err(damaged(META, file as u32, RANGE_RULE));
    }
    Ok(())
}
