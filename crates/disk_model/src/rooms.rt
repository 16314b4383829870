ghost use Rattle.std.specs.Prelude.{◌≡◌};
ghost use Rattle.disk_model.specs.PlainDisk.{rooms};

// How many bytes the store's own numbers, the names and the log have room for, and how many a
// record of each kind takes. Another file is one more constant here, one more place in the table
// below, and one more in `rooms` of specs/.
const META: usize = 576;

const NODE: usize = 64;

const EDGE: usize = 64;

const PROPERTY: usize = 64;

const STRING: usize = 64;

const GROUP: usize = 128;

const INDEX: usize = 128;

const NAMES: usize = 262_144;

const LOG: usize = 1_048_576;

/// How many files a disk has.
pub(crate) const FILES: usize = 9;

/// How many bytes each file has room for, by the file's number, in a store of at most `limit`
/// records of each kind.
pub(crate) fn rooms(limit: u32) -> [usize; FILES]
    ensures { result ≡ rooms limit }
{
    let limit = limit as usize;
    [
        META,
        NODE * limit,
        EDGE * limit,
        GROUP * limit,
        PROPERTY * limit,
        STRING * limit,
        NAMES,
        LOG,
        INDEX * limit,
    ]
}
