ghost use Rattle.std.specs.Prelude.{
  ◌≡◌,
  ◌+◌,
  ◌≤◌,
  ◌<◌,
  [],
  None,
  Some,
  if◌then◌else◌,
  is_some,
  length,
  slice_index_or,
  vec_capacity,
  IfOk,
  OnOk,
  OnErr,
  IsOk,
  IsSome,
};
ghost use Rattle.std.specs.Borrow.{sem};
ghost use Rattle.std.specs.List.{slice_get, AllByRecursion};
ghost use Rattle.std.specs.declared.cmp.Ordering.TheVariants.{Less};
ghost use Rattle.rec_bytes.specs.Key.{key_cmp, IsKey};
ghost use Rattle.rec_bytes.specs.OrderHole.{in_order_around, AreBelow, IsOpen};
ghost use Rattle.rec_bytes.specs.PairOrder.{SetsAlike, in_order, no_pair};
ghost use Rattle.rec_bytes.specs.PlaceHints.{IsHinted};
ghost use Rattle.rec_bytes.specs.Pairs.{
  find_pair,
  growth,
  growth_by,
  held_at,
  merged,
  most_pairs,
  with_pair,
  FindsMerged,
  FindsPut,
  IsOrdered,
};

use crate::key::Key;
use crate::order_hole::{Hole, fill_hole, open_hole};
use crate::place_hints::{are_few, forget, gap_of, look_behind, place_of, renew, write_hint};
use crate::record::Rec;
use std::alloc::{AllocError, Global};
use std::marker::Model;

/// A set has at most so many records, since a place among them has 16 bits.
const MOST_PAIRS: usize = 65_535;

// So many new keys are merged in one pass. Fewer cost less one by one.
const MANY_NEW: usize = 8;

/// Written records, at most one for a key and 65,535 in all. Contracts see the pairs by ascending
/// key, and how many more records need no memory.
#[derive(Drop)]
pub struct WriteSet {
    // In the order of first put.
    pairs: Vec<(Key, Rec)>,
    // The places of the pairs, by ascending key.
    order: Vec<u16>,
    // By a hash of the key, where the pair is. A set of few pairs has none.
    hints: Vec<u16>,
}

impl Model for WriteSet {
    ghost use Rattle.rec_bytes.specs.Pairs.{most_pairs, Held};
    ghost use Rattle.rec_bytes.specs.PairOrder.{in_order};
    ghost use Rattle.rec_bytes.specs.PlaceHints.{IsHinted};
    ghost use Rattle.std.specs.Prelude.{◌-◌, min, vec_capacity, length};

    ghost Value = { Held };

    ghost view = { λ s. record {
      pairs = in_order s.pairs.items s.order.items;
      room =
          min (min (vec_capacity s.pairs) (vec_capacity s.order)) most_pairs
          - length s.pairs.items;
    } };

    ghost invariant = { λ s. IsHinted s.pairs.items s.order.items s.hints.items };
}

impl WriteSet {
    ghost use Rattle.rec_bytes.specs.PairLending.{LendsPair};
    ghost use Rattle.rec_bytes.specs.declared.key.Key.{Key};
    ghost use Rattle.rec_bytes.specs.declared.record.Rec.{Rec};

    /// A set with no records.
    pub fn new(alloc: Global) -> Self
        ensures { result.pairs ≡ [] }
    {
        WriteSet {
            pairs: Vec::new(alloc),
            order: Vec::new(alloc),
            hints: Vec::new(alloc),
        }
    }

    /// How many records there are.
    pub fn len(&self) -> usize
        ensures value { result ≡ length self.now.pairs }
        ensures rising { IsOrdered self.now.pairs }
        ensures keys { AllByRecursion (λ (pair : Key × Rec). IsKey pair.0) self.now.pairs }
    {
        self.order.len()
    }

    /// The i-th record by ascending key, from 0, with its key.
    pub fn at(&self, i: usize) -> (Key, Rec)
        requires { i < length self.now.pairs }
        ensures value { slice_get self.now.pairs i ≡ Some result }
        ensures key { IsKey result.0 }
        ensures whole { length result.1.bytes ≡ 64 }
    {
        let place = self.order[i] as usize;
        pair_at(&self.pairs, place)
    }

    /// The i-th record by ascending key, from 0, with its key.
    pub fn get(&self, i: usize) -> Option<(Key, Rec)>
        ensures value { result ≡ slice_get self.now.pairs i }
        ensures rising { IsOrdered self.now.pairs }
    {
        if i < self.len() {
            Some(self.at(i))
        } else {
            None
        }
    }

    /// The record at a key.
    pub fn find(&self, key: Key) -> Option<Rec>
        ensures { result ≡ find_pair self.now.pairs key }
    {
        let mut rec = Rec::ZEROS;
        if self.find_into(key, &mut rec) {
            Some(rec)
        } else {
            None
        }
    }

    /// Reads the record at a key into the caller's, which stays where there is none, and says
    /// whether there is one.
    pub fn find_into(&self, key: Key, rec: &mut Rec) -> bool
        ensures found { result ≡ is_some (find_pair self.now.pairs key) }
        ensures rec { rec.new ≡ held_at self.now.pairs key rec.old }
    {
        match place_of(&self.pairs, &self.order, &self.hints, key) {
            Some(place) => {
                copy_record(&self.pairs, place, rec);
                true
            }
            None => false,
        }
    }

    /// Makes room for so many more. More than 65,535 in all are refused like a lack of memory.
    pub fn reserve(&mut self, more: usize) -> Result<(), AllocError>
        ensures pairs { self.new.pairs ≡ self.old.pairs }
        ensures room { OnOk result (more ≤ self.new.room) }
        ensures keeps { self.old.room ≤ self.new.room }
        ensures succeeds { more ≤ self.old.room → IsOk result }
    {
        if more > MOST_PAIRS - self.pairs.len() {
            return Err(AllocError);
        }
        self.order.reserve(more)?;
        self.pairs.reserve(more)?;
        let count = self.pairs.len() + more;
        self.widen(count);
        Ok(())
    }

    /// Sets the record at a key. It needs memory only where the key is new and there is no room.
    pub fn put(&mut self, key: Key, rec: Rec) -> Result<(), AllocError>
        requires { IsKey key }
        ensures ok { OnOk result (self.new.pairs ≡ with_pair self.old.pairs key rec) }
        ensures finds { OnOk result (FindsPut self.old.pairs self.new.pairs key rec) }
        ensures err { OnErr result (self.new.pairs ≡ self.old.pairs) }
        ensures succeeds { 0 < self.old.room → IsOk result }
        ensures in_place { IsSome (find_pair self.old.pairs key) → IsOk result }
        ensures room { OnOk result (self.old.room ≤ self.new.room + growth self.old.pairs key) }
    {
        if self.replace(key, rec) {
            return Ok(());
        }
        self.reserve(1)?;
        self.add(key, rec);
        Ok(())
    }

    /// Sets the record at a key, where there is room for one more.
    pub fn put_reserved(&mut self, key: Key, rec: Rec)
        requires key { IsKey key }
        requires room { 0 < self.old.room }
        ensures pairs { self.new.pairs ≡ with_pair self.old.pairs key rec }
        ensures finds { FindsPut self.old.pairs self.new.pairs key rec }
        ensures room { self.old.room ≡ self.new.room + growth self.old.pairs key }
    {
        self.put_in_room(key, rec);
    }

    /// Hands out the record at a key, `absent` where there is none.
    pub fn edit(&mut self, key: Key, absent: Rec) -> Result<&mut Rec, AllocError>
        requires { IsKey key }
        ensures* lends { sem 𝓛 (LendsPair self.entry key result) }
        ensures got { IfOk result (λ rec. rec.now ≡ held_at self.old.pairs key absent) }
        ensures succeeds { 0 < self.old.room → IsOk result }
        ensures in_place { IsSome (find_pair self.old.pairs key) → IsOk result }
    {
        self.provide(key, absent)?;
        let Some(place) = place_of(&self.pairs, &self.order, &self.hints, key) else {
            unreachable!();
        };
        let pair = &mut self.pairs[place];
        Ok(&mut pair.1)
    }

    /// How many records of another set have a key that is new here.
    pub fn growth_by(&self, other: &WriteSet) -> usize
        ensures { result ≡ growth_by self.now.pairs other.now.pairs }
    {
        let mut count = 0;
        for i in 0..other.len() {
            if !self.has(other.at(i).0) {
                count += 1;
            }
        }
        count
    }

    /// Puts each record of another set, where there is room for its new keys.
    pub fn merge(&mut self, other: &WriteSet)
        requires { growth_by self.old.pairs other.now.pairs ≤ self.old.room }
        ensures pairs { self.new.pairs ≡ merged self.old.pairs other.now.pairs }
        ensures finds { FindsMerged self.old.pairs other.now.pairs self.new.pairs }
        ensures room { length self.old.pairs + self.old.room
            ≤ length self.new.pairs + self.new.room }
    {
        let fresh = self.growth_by(other);
        if fresh < MANY_NEW {
            self.merge_each(other);
        } else {
            self.merge_many(other, fresh);
        }
    }

    /// Forgets all records and keeps the room.
    pub fn clear(&mut self)
        ensures pairs { self.new.pairs ≡ [] }
        ensures room { self.new.room ≡ self.old.room + length self.old.pairs }
    {
        forget(&mut self.hints, &self.pairs);
        self.pairs.clear();
        self.order.clear();
    }

    // Puts each record of another set by itself. Each new key moves the places of greater ones.
    fn merge_each(&mut self, other: &WriteSet)
        requires { growth_by self.old.pairs other.now.pairs ≤ self.old.room }
        ensures pairs { self.new.pairs ≡ merged self.old.pairs other.now.pairs }
        ensures finds { FindsMerged self.old.pairs other.now.pairs self.new.pairs }
        ensures room { length self.old.pairs + self.old.room
            ≤ length self.new.pairs + self.new.room }
    {
        for i in 0..other.len() {
            let (key, rec) = other.at(i);
            self.put_in_room(key, rec);
        }
    }

    // Puts the records of another set in one pass, given how many have new keys. Each place moves
    // twice at most, however many these are.
    fn merge_many(&mut self, other: &WriteSet, fresh: usize)
        requires fresh { growth_by self.old.pairs other.now.pairs ≡ fresh }
        requires some { 0 < fresh }
        requires room { fresh ≤ self.old.room }
        ensures pairs { self.new.pairs ≡ merged self.old.pairs other.now.pairs }
        ensures finds { FindsMerged self.old.pairs other.now.pairs self.new.pairs }
        ensures room { length self.old.pairs + self.old.room
            ≤ length self.new.pairs + self.new.room }
    {
        merge_pass(
            &mut self.pairs,
            &mut self.order,
            &mut self.hints,
            other,
            fresh,
        );
    }

    // Makes more slots, if they are few for so many pairs.
    fn widen(&mut self, count: usize)
        requires { count ≤ most_pairs }
        ensures { self.new ≡ self.old }
    {
        if are_few(&self.hints, count) {
            renew(&mut self.hints, &self.pairs, count);
        }
    }

    // Whether there is a record at a key.
    fn has(&self, key: Key) -> bool
        ensures { result ≡ is_some (find_pair self.now.pairs key) }
    {
        place_of(&self.pairs, &self.order, &self.hints, key).is_some()
    }

    // Sets the record at a key, if there is one, and says whether there is.
    fn replace(&mut self, key: Key, rec: Rec) -> bool
        ensures found { result ≡ is_some (find_pair self.old.pairs key) }
        ensures pairs { self.new.pairs
            ≡ (if result then with_pair self.old.pairs key rec else self.old.pairs) }
        ensures room { self.new.room ≡ self.old.room }
        ensures count { length self.new.pairs ≡ length self.old.pairs }
    {
        let Some(place) = place_of(&self.pairs, &self.order, &self.hints, key) else {
            return false;
        };
        self.pairs[place] = (key, rec);
        true
    }

    // Adds a record at a new key.
    fn add(&mut self, key: Key, rec: Rec)
        requires key { IsKey key }
        requires absent { find_pair self.old.pairs key ≡ None }
        requires room { 0 < self.old.room }
        ensures pairs { self.new.pairs ≡ with_pair self.old.pairs key rec }
        ensures room { self.old.room ≡ self.new.room + 1 }
        ensures count { length self.new.pairs ≡ length self.old.pairs + 1 }
    {
        let i = gap_of(&self.pairs, &self.order, key);
        let place = self.pairs.len() as u16;
        self.pairs.push_reserved((key, rec));
        if self.order.insert(i, place).is_err() {
            unreachable!();
        }
        write_hint(&mut self.hints, key, place + 1);
    }

    // Sets the record at a key. A new key needs room.
    fn put_in_room(&mut self, key: Key, rec: Rec)
        requires key { IsKey key }
        requires room { growth self.old.pairs key ≤ self.old.room }
        ensures pairs { self.new.pairs ≡ with_pair self.old.pairs key rec }
        ensures room { self.old.room ≡ self.new.room + growth self.old.pairs key }
        ensures count { length self.new.pairs ≡ length self.old.pairs + growth self.old.pairs key }
    {
        if self.replace(key, rec) {
            return;
        }
        self.add(key, rec);
    }

    // Adds this record at a key, if there is none.
    fn provide(&mut self, key: Key, absent: Rec) -> Result<(), AllocError>
        requires { IsKey key }
        ensures sets { OnOk result (SetsAlike self.old.pairs self.new.pairs key) }
        ensures found { OnOk result
            (find_pair self.new.pairs key ≡ Some (held_at self.old.pairs key absent)) }
        ensures err { OnErr result (self.new.pairs ≡ self.old.pairs) }
        ensures succeeds { 0 < self.old.room → IsOk result }
        ensures in_place { IsSome (find_pair self.old.pairs key) → IsOk result }
    {
        if self.has(key) {
            return Ok(());
        }
        self.reserve(1)?;
        self.add(key, absent);
        Ok(())
    }
}

// The pair at a place. The type of what a call gives says that a record is whole.
fn pair_at(pairs: &[(Key, Rec)], place: usize) -> (Key, Rec)
    requires { place < length pairs.now }
    ensures { slice_get pairs.now place ≡ Some result }
{
    pairs[place]
}

// Copies the record at a place, and no key with it.
fn copy_record(pairs: &[(Key, Rec)], place: usize, rec: &mut Rec)
    requires { place < length pairs.now }
    ensures { rec.new ≡ (slice_index_or pairs.now place no_pair).1 }
{
    *rec = pairs[place].1;
}

// Puts the records of a set by ascending key. So the hole goes once through the order, and leaves a
// place of its own at each new key.
fn merge_pass(
    pairs: &mut Vec<(Key, Rec)>,
    order: &mut Vec<u16>,
    hints: &mut Vec<u16>,
    other: &WriteSet,
    fresh: usize,
)
    requires hinted { IsHinted pairs.old.items order.old.items hints.old.items }
    requires fresh { growth_by (in_order pairs.old.items order.old.items) other.now.pairs ≡ fresh }
    requires most { length pairs.old.items + fresh ≤ most_pairs }
    requires pairs_room { length pairs.old.items + fresh ≤ vec_capacity pairs.old }
    requires order_room { length order.old.items + fresh ≤ vec_capacity order.old }
    ensures hinted { IsHinted pairs.new.items order.new.items hints.new.items }
    ensures pairs { in_order pairs.new.items order.new.items
        ≡ merged (in_order pairs.old.items order.old.items) other.now.pairs }
    ensures finds { FindsMerged (in_order pairs.old.items order.old.items) other.now.pairs
        (in_order pairs.new.items order.new.items) }
    ensures pairs_capacity { vec_capacity pairs.old ≤ vec_capacity pairs.new }
    ensures order_capacity { vec_capacity order.old ≤ vec_capacity order.new }
{
    let mut hole = open_hole(order, fresh);
    for i in 0..other.len() {
        let (key, record) = other.at(i);
        hole = put_behind(pairs, order, hints, hole, key, record);
    }
}

// Sets the record at a key that isn't before the hole. A new one is put where the hole goes.
fn put_behind(
    pairs: &mut Vec<(Key, Rec)>,
    order: &mut Vec<u16>,
    hints: &mut Vec<u16>,
    hole: Hole,
    key: Key,
    rec: Rec,
) -> Hole
    requires state { IsOpen pairs.old.items order.old.items hints.old.items hole }
    requires below { AreBelow (in_order_around pairs.old.items order.old.items hole)
        hole.start key }
    requires key { IsKey key }
    requires size { growth (in_order_around pairs.old.items order.old.items hole) key
        ≤ hole.size }
    requires room { length pairs.old.items + hole.size ≤ vec_capacity pairs.old }
    ensures state { IsOpen pairs.new.items order.new.items hints.new.items result }
    ensures pairs { in_order_around pairs.new.items order.new.items result
        ≡ with_pair (in_order_around pairs.old.items order.old.items hole) key rec }
    ensures below { (next : Key) → key_cmp key next ≡ Less
        → AreBelow (in_order_around pairs.new.items order.new.items result) result.start next }
    ensures size { hole.size
        ≡ result.size + growth (in_order_around pairs.old.items order.old.items hole) key }
    ensures count { length pairs.new.items + result.size ≡ length pairs.old.items + hole.size }
    ensures pairs_capacity { vec_capacity pairs.new ≡ vec_capacity pairs.old }
    ensures order_capacity { vec_capacity order.new ≡ vec_capacity order.old }
{
    match look_behind(pairs, order, hints, hole, key) {
        Ok(place) => {
            pairs[place] = (key, rec);
            hole
        }
        Err(i) => {
            let place = pairs.len() as u16;
            pairs.push_reserved((key, rec));
            write_hint(hints, key, place + 1);
            fill_hole(order, hole, i, place)
        }
    }
}
