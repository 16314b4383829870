//! Snapshots of a space in memory.
ghost use Rattle.std.specs.Prelude.{[], ◌∷◌};
ghost use Rattle.rec_bytes.specs.Key.{IsKey};
ghost use Rattle.rec_bytes.specs.MapSpace.{map_state};

use rec_bytes::{DiskFault, Key, MapSpace, NODES, Reads, Rec, Shape, Space};
use snap_store::{Pending, SnapState, Snaps, keep_old};
use std::test::Fail;

const SHAPE: Shape = Shape {
    threshold: 50,
    limit: 1_048_576,
};

const ONE: Key = Key { file: NODES, id: 3 };

const OTHER: Key = Key { file: NODES, id: 4 };

/// A space in memory, and the one record that a commit is to write over it.
#[derive(Drop)]
struct Commit {
    space: MapSpace,
    key: Key,
    rec: Rec,
    ghost valid: { IsKey key },
}

impl Pending for Commit {
    ghost tells = { Unit {0} };

    ghost committed = { λ c. (map_state c.space).records };

    ghost pending = { λ c. (c.key, c.rec) ∷ [] };

    ghost faults = { λ _. 0 };

    ghost onward = { λ _ _. Unit {0} };

    ghost stays_onward = { λ _. tt };

    ghost further_onward = { λ _ _ _ _ _. tt };

    fn pending_len(&self) -> usize {
        1
    }

    fn pending_at(&self, _i: usize) -> (Key, Rec) {
        (self.key, self.rec)
    }

    fn old(&mut self, key: Key) -> Result<Rec, DiskFault> {
        match self.space.get(key) {
            Ok(rec) => Ok(rec),
            Err(_) => unreachable!(),
        }
    }
}

fn marked(byte: u8) -> Rec {
    let mut rec = Rec::ZEROS;
    rec.set_byte(0, byte);
    rec
}

/// The first bytes of both records, as the reader's snapshot sees them, if it is open.
fn seen(snaps: &Snaps, space: &mut MapSpace, reader: u8) -> Option<(u8, u8)> {
    if !snaps.is_open(reader) {
        return None;
    }
    let mut view = snaps.view(reader, space);
    let one = view.get(ONE).ok()?;
    let other = view.get(OTHER).ok()?;
    Some((one.byte(0), other.byte(0)))
}

#[test]
fn a_snapshot_is_released_and_the_oldest_ends(rt: HostRuntime) -> Result<(), Fail> {
    let mut snaps = Snaps::new(rt.alloc());
    let mut space = MapSpace::new(rt.alloc(), SHAPE)?;
    let commits = [(1, ONE, 1), (2, OTHER, 2), (3, ONE, 3)];
    for (reader, key, byte) in commits {
        assert!(rt; reader >= 1 && reader <= 7);
        assert!(rt; !snaps.is_open(reader));
        snaps.take(reader)?;
        assert!(rt; key.is_valid());
        let mut commit = Commit {
            space,
            key,
            rec: marked(byte),
        };
        assert!(rt; keep_old(&mut snaps, &mut commit).is_ok());
        space = commit.space;
        assert!(rt; space.put(key, marked(byte)).is_ok());
    }
    assert!(rt; seen(&snaps, &mut space, 1) == Some((0, 0)));
    assert!(rt; seen(&snaps, &mut space, 2) == Some((1, 0)));
    assert!(rt; seen(&snaps, &mut space, 3) == Some((1, 2)));

    snaps.release(2);
    assert!(rt; snaps.state(2) == SnapState::Absent);
    assert!(rt; seen(&snaps, &mut space, 1) == Some((0, 0)));
    assert!(rt; seen(&snaps, &mut space, 3) == Some((1, 2)));

    // Two old records are kept for the oldest, and one for the other.
    snaps.make_room(16_381);
    assert!(rt; snaps.state(1) == SnapState::Open);
    snaps.make_room(16_382);
    assert!(rt; snaps.state(1) == SnapState::Ended);
    assert!(rt; seen(&snaps, &mut space, 3) == Some((1, 2)));
    Ok(())
}
