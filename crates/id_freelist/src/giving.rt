ghost use Rattle.std.specs.Prelude.{◌≡◌, ℕ, List, [], ◌∷◌, OnOk, true};
ghost use Rattle.rec_bytes.specs.Key.{IsKey};
ghost use Rattle.rec_bytes.specs.RecordFiles.{meta_key_of};
ghost use Rattle.rec_bytes.specs.Space.{HasCause, WritesOnly};
ghost use Rattle.store_rules.specs.Ranges.{is_reused};
ghost use Rattle.store_rules.specs.Views.{key_in};
ghost use Rattle.store_rules.specs.Writes.{ChangesOnly};
ghost use Rattle.id_freelist.specs.FreeLists.{free_record};
ghost use Rattle.id_freelist.specs.Giving.{CanGive, HasGiven, given};

use rec_bytes::{FREE_NEXT, Key, Meta, Rec, Space, SpaceFault, change_meta};

/// Gives an identifier of a file back, which is live: it is the next one taken.
pub fn give<S: Space>(space: &mut S, file: u8, id: u32) -> Result<(), SpaceFault>
    requires file { is_reused file ≡ true }
    requires key { IsKey (key_in file id) }
    ensures given { S.tells
        → OnOk result ((free : List ℕ) → CanGive (S.state space.old) file id free
        → HasGiven (S.state space.old).records (S.state space.new).records file id free) }
    ensures ok { S.tells → OnOk result (S.state space.new ≡ given (S.state space.old) file id) }
    ensures writes { WritesOnly (S.state space.old) (S.state space.new) (key_in file id
        ∷ meta_key_of file ∷ []) }
    ensures stays { S.tells → ChangesOnly (S.state space.old) (S.state space.new)
        (key_in file id ∷ meta_key_of file ∷ []) }
    ensures onward { S.onward space.old space.new }
    ensures cause { HasCause (S.faults space.old) (S.faults space.new) result }
{
    let meta = space.meta(file);
    space.put(Key { file, id }, free_record(meta.free))?;
    let after = Meta {
        high: meta.high,
        free: id,
        live: meta.live.saturating_sub(1),
    };
    change_meta(space, file, after)?;
    Ok(())
}

/// The record of a free identifier, with the next one.
fn free_record(next: u32) -> Rec
    ensures { result ≡ free_record next }
{
    let mut rec = Rec::ZEROS;
    rec.set_number(FREE_NEXT, next);
    rec
}
