//! What a commit does first: the old records of all that it changes are kept for the youngest
//! snapshot.

ghost use Rattle.std.specs.Prelude.{◌≡◌, ◌≤◌, ◌+◌, IsOk, OnOk, is_some, length, true, ℕ};
ghost use Rattle.fault_count.specs.Cause.{HasCause};
ghost use Rattle.rec_bytes.specs.Format.{most_kept};
ghost use Rattle.rec_bytes.specs.declared.key.Key.{Key as AKey};
ghost use Rattle.rec_bytes.specs.Key.{IsKey};
ghost use Rattle.rec_bytes.specs.Pairs.{find_pair, growth};
ghost use Rattle.rec_bytes.specs.Space.{laid_over};
ghost use Rattle.snap_store.specs.Keeping.{EndsFor, OnlyOlds, SameReaders, lacked};
ghost use Rattle.snap_store.specs.Layers.{any_open, is_open, sees, total, youngest};
ghost use Rattle.snap_store.specs.Sums.{AreCovered, EndsOverfull, risen};

use crate::pending::Pending;
use crate::snaps::Snaps;
use rec_bytes::{DiskFault, Key};

// How many records the commit writes whose key the youngest open snapshot has no old record of.
fn count_lacked<P: Pending>(snaps: &Snaps, space: &P) -> usize
    ensures is { result ≡ lacked (P.pending space.now) snaps.now.open_ones }
{
    let mut count = 0;
    for i in 0..space.pending_len() {
        let (key, _) = space.pending_at(i);
        count += growth_at(snaps, key);
    }
    count
}

// How many old records a key adds.
fn growth_at(snaps: &Snaps, key: Key) -> usize
    ensures is { result ≡ growth (youngest snaps.now.open_ones) key }
    ensures one { result ≤ 1 }
{
    if snaps.has(key) { 0 } else { 1 }
}

// Keeps the old record of a key for the youngest open snapshot, unless it has one.
fn keep_one<P: Pending>(snaps: &mut Snaps, space: &mut P, key: Key) -> Result<(), DiskFault>
    requires key { IsKey key }
    requires open { any_open snaps.old.open_ones ≡ true }
    requires room { total snaps.old.open_ones + growth (youngest snaps.old.open_ones) key
        ≤ most_kept }
    ensures sights { P.tells → (reader : ℕ)
        → sees snaps.new.open_ones reader (P.committed space.old)
        ≡ sees snaps.old.open_ones reader (P.committed space.old) }
    ensures has { OnOk result (is_some (find_pair (youngest snaps.new.open_ones) key) ≡ true) }
    ensures keeps { (other : AKey) → growth (youngest snaps.new.open_ones) other
        ≤ growth (youngest snaps.old.open_ones) other }
    ensures grows { total snaps.new.open_ones
        ≤ total snaps.old.open_ones + growth (youngest snaps.old.open_ones) key }
    ensures covered { (sums : ℕ → ℕ)
        → AreCovered sums snaps.old.open_ones
        → AreCovered (risen 1 sums) snaps.new.open_ones }
    ensures readers { SameReaders snaps.old snaps.new }
    ensures space { OnlyOlds P.Pending space.old space.new }
    ensures cause { HasCause (P.faults space.old) (P.faults space.new) result }
{
    if snaps.has(key) {
        return Ok(());
    }
    let rec = space.old(key)?;
    snaps.put(key, rec);
    Ok(())
}

// Keeps the old record of each key that the commit writes, where there is room for those that the
// youngest open snapshot lacks.
fn keep_all<P: Pending>(snaps: &mut Snaps, space: &mut P) -> Result<(), DiskFault>
    requires open { any_open snaps.old.open_ones ≡ true }
    requires room { total snaps.old.open_ones + lacked (P.pending space.old) snaps.old.open_ones
        ≤ most_kept }
    ensures sights { P.tells → (reader : ℕ)
        → sees snaps.new.open_ones reader (P.committed space.old)
        ≡ sees snaps.old.open_ones reader (P.committed space.old) }
    ensures has { OnOk result (lacked (P.pending space.old) snaps.new.open_ones ≡ 0) }
    ensures covered { (sums : ℕ → ℕ) (weight : ℕ) → length (P.pending space.old) ≤ weight
        → AreCovered sums snaps.old.open_ones → AreCovered (risen weight sums) snaps.new.open_ones }
    ensures readers { SameReaders snaps.old snaps.new }
    ensures space { OnlyOlds P.Pending space.old space.new }
    ensures idle { length (P.pending space.old) ≡ 0 → IsOk result × (space.new ≡ space.old) }
    ensures cause { HasCause (P.faults space.old) (P.faults space.new) result }
{
    for i in 0..space.pending_len() {
        let (key, _) = space.pending_at(i);
        keep_one(snaps, space, key)?;
    }
    Ok(())
}

/// Keeps the old record of each key that the commit writes, for the youngest open snapshot, unless
/// it has one. The oldest snapshots end first, where there would be too many. It needs no memory,
/// and an error is the disk's.
pub fn keep_old<P: Pending>(snaps: &mut Snaps, space: &mut P) -> Result<(), DiskFault>
    // Each snapshot that is still open sees what it saw, before the commit and after it.
    ensures before { P.tells → (reader : ℕ) → is_open reader snaps.new.open_ones ≡ true
        → sees snaps.new.open_ones reader (P.committed space.old)
        ≡ sees snaps.old.open_ones reader (P.committed space.old) }
    ensures after { P.tells → OnOk result ((reader : ℕ)
        → is_open reader snaps.new.open_ones ≡ true
        → sees
        snaps.new.open_ones
        reader
        (laid_over (P.committed space.old) (P.pending space.old))
        ≡ sees snaps.old.open_ones reader (P.committed space.old)) }

    // Which have ended, and that each of them had a sum of weights that passes the bound.
    ensures ended { EndsFor (P.pending space.old) snaps.old snaps.new }
    ensures overfull { (sums : ℕ → ℕ) (weight : ℕ) → length (P.pending space.old) ≤ weight
        → AreCovered sums snaps.old.open_ones
        → EndsOverfull weight sums snaps.old.open_ones snaps.new.open_ones }
    ensures covered { (sums : ℕ → ℕ) (weight : ℕ) → length (P.pending space.old) ≤ weight
        → AreCovered sums snaps.old.open_ones → AreCovered (risen weight sums) snaps.new.open_ones }
    ensures space { OnlyOlds P.Pending space.old space.new }

    // Where nothing is to be written, no record is read.
    ensures idle { length (P.pending space.old) ≡ 0 → IsOk result × (space.new ≡ space.old) }
    ensures cause { HasCause (P.faults space.old) (P.faults space.new) result }
{
    snaps.make_room(count_lacked(snaps, space));
    if snaps.any_open() {
        keep_all(snaps, space)
    } else {
        Ok(())
    }
}
