ghost use Rattle.std.specs.Prelude.{◌≡◌, ◌<◌, ◌≤◌, ◌⊎◌, IfNone, IfOk, IfSome, List, false, length};
ghost use Rattle.std.specs.Prelude.{true, ℕ};
ghost use Rattle.std.specs.Bool.{Decides};
ghost use Rattle.rec_bytes.specs.Frame.{IsRead};
ghost use Rattle.rec_bytes.specs.Space.{HasCause};
ghost use Rattle.store_rules.specs.Views.{Records};
ghost use Rattle.record_lists.specs.Seen.{is_seen};
ghost use Rattle.record_lists.specs.Heads.{
  AmongHeads,
  AtHead,
  BrokeIs,
  FoundBelow,
  FoundIs,
  HeadKeeps,
  HeadTold,
  IsOnce,
};

use crate::seen::{first_seen, see_all};
use rec_bytes::{Reads, SpaceFault};
use std::alloc::Global;

/// The list of a record: it needs none, it has none, or these.
#[derive(Drop)]
pub enum Found {
    Nothing,
    Missing,
    Items(Vec<u32>),
}

/// A record without the list that it needs, or an item that is in two lists.
#[derive(Clone, Copy)]
pub enum Broke {
    Head(u32),
    Item(u32),
}

/// What became of the list of a record: its items are seen now, there is no list, or an item was
/// seen before.
#[derive(Clone, Copy)]
pub enum Told {
    Seen,
    Unlisted,
    Twice(u32),
}

/// The records that lists of one kind start at.
pub trait Heads {
    /// Whether a record needs a list.
    ghost has: { Self → Records → ℕ → Type 0 };

    /// The list of a record is this.
    ghost lists: { Self → Records → ℕ → List ℕ → Type 0 };

    /// Whether these are heads of such records.
    ghost suits: { Self → Records → Type 0 };

    /// So many records may be heads.
    ghost count: { Self → ℕ };

    /// Items are below it.
    ghost bound: { Self → ℕ };

    /// The list of a record.
    fn list<R: Reads>(&self, alloc: Global, space: &mut R, id: u32) -> Result<Found, SpaceFault>
        requires id { id < count self.now }
        requires suits { suits self.now (R.state space.old).records }
        ensures told { R.tells → IfOk result (FoundIs
            (has self.now (R.state space.old).records id)
            (lists self.now (R.state space.old).records id)) }
        ensures low { IfOk result (FoundBelow (bound self.now)) }
        ensures read { IsRead R.Reads space.old space.new }
        ensures cause { HasCause (R.faults space.old) (R.faults space.new) result };
}

/// Sees the items in the list of a record.
fn see_head<R: Reads, H: Heads>(
    alloc: Global,
    space: &mut R,
    heads: &H,
    id: u32,
    seen: &mut [bool],
) -> Result<Told, SpaceFault>
    requires id { id < H.count heads.now }
    requires suits { H.suits heads.now (R.state space.old).records }
    requires seen { H.bound heads.now ≤ length seen.old }
    ensures told { R.tells → IfOk result (HeadTold
        (H.has heads.now (R.state space.old).records)
        (H.lists heads.now (R.state space.old).records) id seen.old seen.new) }
    ensures len { length seen.new ≡ length seen.old }
    ensures read { IsRead R.Reads space.old space.new }
    ensures cause { HasCause (R.faults space.old) (R.faults space.new) result }
{
    match heads.list(alloc, space, id)? {
        Found::Nothing => Ok(Told::Seen),
        Found::Missing => Ok(Told::Unlisted),
        Found::Items(items) => {
            if let Some(item) = first_seen(seen, &items) {
                return Ok(Told::Twice(item));
            }
            see_all(seen, &items);
            Ok(Told::Seen)
        }
    }
}

/// Sees the items in the lists of the first so many records, or finds what breaks the rule: a
/// record without its list, or an item that is in two lists.
pub fn list_heads<R: Reads, H: Heads>(
    alloc: Global,
    space: &mut R,
    heads: &H,
    count: u32,
    seen: &mut [bool],
) -> Result<Option<Broke>, SpaceFault>
    requires count { count ≤ H.count heads.now }
    requires suits { H.suits heads.now (R.state space.old).records }
    requires seen { H.bound heads.now ≤ length seen.old }
    ensures keeps { R.tells → IfOk result (λ found. IfNone found ((k : ℕ) → k < count → HeadKeeps
        (H.has heads.now (R.state space.old).records)
        (H.lists heads.now (R.state space.old).records) k)) }
    ensures seen { R.tells → IfOk result (λ found. IfNone found ((p : ℕ) → Decides
        (is_seen seen.new p) ((is_seen seen.old p ≡ true) ⊎ AmongHeads
        (H.has heads.now (R.state space.old).records)
        (H.lists heads.now (R.state space.old).records) count p))) }
    ensures once { R.tells → IfOk result (λ found. IfNone found ((p : ℕ) → IsOnce
        (H.has heads.now (R.state space.old).records)
        (H.lists heads.now (R.state space.old).records) count p)) }
    ensures fresh { R.tells → IfOk result (λ found. IfNone found ((k : ℕ) → k < count → (p : ℕ)
        → AtHead (H.has heads.now (R.state space.old).records)
        (H.lists heads.now (R.state space.old).records) k p → is_seen seen.old p ≡ false)) }
    ensures broken { R.tells → IfOk result (λ found. IfSome found (BrokeIs
        (H.has heads.now (R.state space.old).records)
        (H.lists heads.now (R.state space.old).records) count seen.old)) }
    ensures len { length seen.new ≡ length seen.old }
    ensures read { IsRead R.Reads space.old space.new }
    ensures cause { HasCause (R.faults space.old) (R.faults space.new) result }
{
    for id in 0..count {
        match see_head(alloc, space, heads, id, seen)? {
            Told::Seen => {}
            Told::Unlisted => return Ok(Some(Broke::Head(id))),
            Told::Twice(item) => return Ok(Some(Broke::Item(item))),
        }
    }
    Ok(None)
}
