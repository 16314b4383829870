ghost use Rattle.std.specs.Prelude.{◌≡◌, IfErr, OnOk, true};
ghost use Rattle.rec_bytes.specs.RecordFiles.{is_meta_file};
ghost use Rattle.change_parts.specs.Rooms.{HasRoom, LacksRoom};

use crate::ChangeFault;
use rec_bytes::{Reads, room_of};

/// Tests whether a file has room for so many records more. It reads nothing.
pub fn test_room<R: Reads>(space: &R, file: u8, needed: u32) -> Result<(), ChangeFault>
    requires { is_meta_file file ≡ true }
    ensures room { OnOk result (HasRoom (R.state space.now) file needed) }
    ensures full { IfErr result (LacksRoom (R.state space.now) file needed) }
{
    let live = space.meta(file).live;
    if live as u64 + needed as u64 > room_of(file, space.shape()) {
        return Err(ChangeFault::Full { file, live });
    }
    Ok(())
}
