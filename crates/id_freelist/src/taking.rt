ghost use Rattle.std.specs.Prelude.{◌≡◌, ◌≢◌, ◌+◌, ◌<◌, ◌≤◌, ℕ, List, [], ◌∷◌, IfErr, IfOk};
ghost use Rattle.std.specs.Prelude.{IfNone, IfSome, OnErr, OnOk, false, true};
ghost use Rattle.rec_bytes.specs.Format.{free_kind, most_ids};
ghost use Rattle.rec_bytes.specs.Key.{IsKey};
ghost use Rattle.rec_bytes.specs.RecordFiles.{is_meta_file, meta_key_of, room_of};
ghost use Rattle.rec_bytes.specs.Space.{HasCause, SameButReads, WritesOnly, after_get, meta_of};
ghost use Rattle.store_rules.specs.Ranges.{is_reused};
ghost use Rattle.store_rules.specs.Rules.{next_free};
ghost use Rattle.store_rules.specs.Views.{high, key_in, kind_at};
ghost use Rattle.store_rules.specs.Writes.{ChangesOnly};
ghost use Rattle.id_freelist.specs.TakeFault.{BlamesBroken, HasTakeCause, NotDamaged};
ghost use Rattle.id_freelist.specs.FreeLists.{IsFreeList};
ghost use Rattle.id_freelist.specs.Taking.{
  AreAllUsed,
  CanTake,
  HasTaken,
  IsNextLow,
  IsTakeDamage,
  IsTakeFault,
  IsUndamaged,
  IsUnused,
  free_taken,
  is_counted,
  is_ranged,
  is_undercounted,
  mark_taken,
  taken,
  taken_id,
};

use crate::TakeFault;
use rec_bytes::{
    Damage, FREE, FREE_NEXT, KIND, Key, META, Meta, NIL, RANGE_RULE, Reads, SPLIT_RULE, Space,
    SpaceFault, change_meta, room_of,
};

/// Takes an identifier of a file, which the caller makes live: the first free one, or else the
/// mark. All is read and tested before the meta record is written.
pub fn take<S: Space>(space: &mut S, file: u8) -> Result<u32, TakeFault>
    requires { is_reused file ≡ true }
    ensures taken { S.tells
        → IfOk result (λ id. (free : List ℕ) → IsFreeList (S.state space.old).records file free
        → HasTaken (S.state space.old).records (S.state space.new).records file id free) }
    ensures fresh { S.tells
        → IfOk result (λ id. kind_at (S.state space.old).records file id ≡ free_kind) }
    ensures full { (meta_of (S.state space.old) file).live ≡ room_of (S.state space.old).shape file
        → result ≡ Err (TakeFault.Full file (meta_of (S.state space.old) file).live) }
    ensures refused { S.tells → IfErr result (IsTakeFault (S.state space.old) file) }
    ensures damaged { S.tells → IfErr result
        (BlamesBroken (S.state space.old).records (S.state space.old).shape) }
    ensures not_damaged { S.tells → (free : List ℕ) → CanTake (S.state space.old) file free
        → NotDamaged result }
    ensures undamaged { S.tells → OnOk result (IsUndamaged (S.state space.old) file) }
    ensures err { OnErr result (SameButReads (S.state space.old) (S.state space.new)) }
    ensures ok { S.tells → OnOk result (S.state space.new ≡ taken (S.state space.old) file) }
    ensures is { IfOk result (λ id. id ≡ taken_id (meta_of (S.state space.old) file)) }
    ensures small { IfOk result (λ id. id < room_of (S.state space.old).shape file) }
    ensures key { IfOk result (λ id. IsKey (key_in file id)) }
    ensures writes { WritesOnly (S.state space.old) (S.state space.new) (meta_key_of file ∷ []) }
    ensures stays { S.tells → ChangesOnly (S.state space.old) (S.state space.new)
        (meta_key_of file ∷ []) }
    ensures onward { S.onward space.old space.new }
    ensures cause { HasTakeCause (S.faults space.old) (S.faults space.new) result }
{
    let meta = space.meta(file);
    let room = room_of(file, space.shape());
    if meta.live as u64 == room {
        return Err(TakeFault::Full {
            file,
            live: meta.live,
        });
    }
    if !is_ranged(meta, room) {
        return Err(damaged(META, file as u32, RANGE_RULE));
    }
    if !is_counted(meta) {
        let damage = miscounted(space, file, meta)?;
        return Err(TakeFault::Damaged(damage));
    }
    if meta.free == NIL {
        Ok(take_mark(space, file, meta)?)
    } else {
        take_free(space, file, meta)
    }
}

fn damaged(file: u8, id: u32, rule: u8) -> TakeFault
    ensures { result ≡ TakeFault.Damaged (record { file = file; id = id; rule = rule }) }
{
    TakeFault::Damaged(Damage { file, id, rule })
}

fn is_ranged(meta: Meta, room: u64) -> bool
    ensures { result ≡ is_ranged meta room }
{
    meta.high as u64 <= room && (meta.free == NIL || meta.free < meta.high)
}

fn is_counted(meta: Meta) -> bool
    ensures { result ≡ is_counted meta }
{
    if meta.free == NIL {
        meta.live == meta.high
    } else {
        meta.live < meta.high
    }
}

/// The record that breaks the second rule, where the count and the free list of a file don't go
/// together. With an empty list and a low count it is one that is not in use, which is looked for
/// among all below the mark; if there is none, the count is wrong.
fn miscounted<R: Reads>(space: &mut R, file: u8, meta: Meta) -> Result<Damage, SpaceFault>
    requires file { is_meta_file file ≡ true }
    requires meta { meta ≡ meta_of (R.state space.old) file }
    requires mark { meta.high ≤ most_ids }
    requires counted { is_counted meta ≡ false }
    ensures is { R.tells → IfOk result (IsTakeDamage (R.state space.old) file) }
    ensures same { SameButReads (R.state space.old) (R.state space.new) }
    ensures onward { R.onward space.old space.new }
    ensures cause { HasCause (R.faults space.old) (R.faults space.new) result }
{
    let on_meta = Damage {
        file: META,
        id: file as u32,
        rule: SPLIT_RULE,
    };
    if !is_undercounted(meta) {
        return Ok(on_meta);
    }
    match first_unused(space, file, meta.high)? {
        Some(id) => Ok(Damage {
            file,
            id,
            rule: SPLIT_RULE,
        }),
        None => Ok(on_meta),
    }
}

/// Whether the free list is empty, and fewer are counted than were given out.
fn is_undercounted(meta: Meta) -> bool
    ensures { result ≡ is_undercounted meta }
{
    meta.free == NIL && meta.live < meta.high
}

/// The first record below the mark of a file that is not in use.
fn first_unused<R: Reads>(space: &mut R, file: u8, mark: u32) -> Result<Option<u32>, SpaceFault>
    requires file { is_meta_file file ≡ true }
    requires mark { mark ≡ high (R.state space.old).records file }
    requires small { mark ≤ most_ids }
    ensures found { R.tells
        → IfOk result (λ found. IfSome found (IsUnused (R.state space.old).records file)) }
    ensures none { R.tells
        → IfOk result (λ found. IfNone found (AreAllUsed (R.state space.old).records file)) }
    ensures same { SameButReads (R.state space.old) (R.state space.new) }
    ensures onward { R.onward space.old space.new }
    ensures cause { HasCause (R.faults space.old) (R.faults space.new) result }
{
    for id in 0..mark {
        let rec = space.get(Key { file, id })?;
        if rec.byte(KIND) == FREE {
            return Ok(Some(id));
        }
    }
    Ok(None)
}

/// Takes the mark.
#[tactic(auto, unfolding(crate::specs::Taking::mark_taken))]
fn take_mark<S: Space>(space: &mut S, file: u8, meta: Meta) -> Result<u32, SpaceFault>
    requires file { is_meta_file file ≡ true }
    requires meta { meta ≡ meta_of (S.state space.old) file }
    requires last { meta.free ≡ NIL }
    requires mark { meta.high < most_ids }
    requires live { meta.live < most_ids }
    ensures taken { S.tells
        → IfOk result (λ id. (free : List ℕ) → IsFreeList (S.state space.old).records file free
        → HasTaken (S.state space.old).records (S.state space.new).records file id free) }
    ensures fresh { IfOk result (λ id. kind_at (S.state space.old).records file id ≡ free_kind) }
    ensures is { IfOk result (λ id. id ≡ meta.high) }
    ensures ok { S.tells → OnOk result (S.state space.new ≡ mark_taken (S.state space.old) file) }
    ensures err { OnErr result (SameButReads (S.state space.old) (S.state space.new)) }
    ensures writes { WritesOnly (S.state space.old) (S.state space.new) (meta_key_of file ∷ []) }
    ensures stays { S.tells → ChangesOnly (S.state space.old) (S.state space.new)
        (meta_key_of file ∷ []) }
    ensures onward { S.onward space.old space.new }
    ensures cause { HasCause (S.faults space.old) (S.faults space.new) result }
{
    let next = Meta {
        high: meta.high + 1,
        free: NIL,
        live: meta.live + 1,
    };
    change_meta(space, file, next)?;
    Ok(meta.high)
}

/// Takes the first free identifier.
#[tactic(auto, unfolding(crate::specs::Taking::free_taken))]
fn take_free<S: Space>(space: &mut S, file: u8, meta: Meta) -> Result<u32, TakeFault>
    requires file { is_meta_file file ≡ true }
    requires meta { meta ≡ meta_of (S.state space.old) file }
    requires some { meta.free ≢ NIL }
    requires low { meta.free < meta.high }
    requires mark { meta.high ≤ most_ids }
    requires live { meta.live < most_ids }
    ensures taken { S.tells
        → IfOk result (λ id. (free : List ℕ) → IsFreeList (S.state space.old).records file free
        → HasTaken (S.state space.old).records (S.state space.new).records file id free) }
    ensures fresh { S.tells
        → IfOk result (λ id. kind_at (S.state space.old).records file id ≡ free_kind) }
    ensures is { IfOk result (λ id. id ≡ meta.free) }
    ensures ok { S.tells → OnOk result (S.state space.new ≡ free_taken (S.state space.old) file) }
    ensures low { S.tells → OnOk result (IsNextLow (S.state space.old) file) }
    ensures refused { S.tells → IfErr result (IsTakeFault (S.state space.old) file) }
    ensures err { OnErr result (SameButReads (S.state space.old) (S.state space.new)) }
    ensures writes { WritesOnly (S.state space.old) (S.state space.new) (meta_key_of file ∷ []) }
    ensures stays { S.tells → ChangesOnly (S.state space.old) (S.state space.new)
        (meta_key_of file ∷ []) }
    ensures onward { S.onward space.old space.new }
    ensures cause { HasTakeCause (S.faults space.old) (S.faults space.new) result }
{
    let next = next_free(space, file, meta)?;
    let after = Meta {
        high: meta.high,
        free: next,
        live: meta.live + 1,
    };
    change_meta(space, file, after)?;
    Ok(meta.free)
}

/// The identifier behind the first free one. Both of them are tested.
fn next_free<R: Reads>(space: &mut R, file: u8, meta: Meta) -> Result<u32, TakeFault>
    requires file { is_meta_file file ≡ true }
    requires meta { meta ≡ meta_of (R.state space.old) file }
    requires some { meta.free ≢ NIL }
    requires low { meta.free < meta.high }
    requires mark { meta.high ≤ most_ids }
    ensures fresh { R.tells
        → OnOk result (kind_at (R.state space.old).records file meta.free ≡ free_kind) }
    ensures is { R.tells
        → IfOk result (λ next. next ≡ next_free (R.state space.old).records file meta.free) }
    ensures low { R.tells → OnOk result (IsNextLow (R.state space.old) file) }
    ensures refused { R.tells → IfErr result (IsTakeFault (R.state space.old) file) }
    ensures state { R.state space.new ≡ after_get (R.state space.old) }
    ensures onward { R.onward space.old space.new }
    ensures cause { HasTakeCause (R.faults space.old) (R.faults space.new) result }
{
    let id = meta.free;
    let rec = space.get(Key { file, id })?;
    if rec.byte(KIND) != FREE {
        return Err(damaged(META, file as u32, SPLIT_RULE));
    }
    let next = rec.number(FREE_NEXT);
    if next != NIL && next >= meta.high {
        return Err(damaged(file, id, RANGE_RULE));
    }
    Ok(next)
}
