ghost use Rattle.std.specs.Prelude.{◌≡◌};
ghost use Rattle.rec_bytes.specs.Key.{IsKey};
ghost use Rattle.record_file.specs.Records.{record_place};

use rec_bytes::{Key, RECORD_BYTES};

/// The first place of a record in its file.
pub(crate) fn place_of(key: Key) -> u64
    requires { IsKey key }
    ensures { result ≡ record_place key }
{
    RECORD_BYTES as u64 * key.id as u64
}
