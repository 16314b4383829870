ghost use Rattle.std.specs.Prelude.{◌≡◌, ◌+◌, ◌<◌, ◌≤◌, IfOk, map, true};
ghost use Rattle.std.specs.List.{All};
ghost use Rattle.rec_bytes.specs.Format.{most_ids};
ghost use Rattle.rec_bytes.specs.Frame.{IsRead};
ghost use Rattle.rec_bytes.specs.RecordFiles.{is_record_file};
ghost use Rattle.rec_bytes.specs.Space.{HasCause};
ghost use Rattle.record_lists.specs.Numbers.{number_at};

use rec_bytes::{Key, Reads, SpaceFault};
use std::alloc::Global;

/// The numbers at a place of these records of a file.
pub fn numbers_of<R: Reads>(
    alloc: Global,
    space: &mut R,
    file: u8,
    place: u8,
    ids: &[u32],
) -> Result<Vec<u32>, SpaceFault>
    requires file { is_record_file file ≡ true }
    requires place { place + 4 ≤ 64 }
    requires low { All (λ x. x < most_ids) ids.now }
    ensures numbers { R.tells → IfOk result (λ numbers. numbers.items
        ≡ map (number_at (R.state space.old).records file place) ids.now) }
    ensures read { IsRead R.Reads space.old space.new }
    ensures cause { HasCause (R.faults space.old) (R.faults space.new) result }
{
    let mut numbers = Vec::new(alloc);
    for id in ids {
        let rec = space.get(Key { file, id: *id })?;
        let Ok(()) = numbers.push(rec.number(place)) else {
            return Err(SpaceFault::Memory);
        };
    }
    Ok(numbers)
}
