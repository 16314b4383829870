ghost use Rattle.std.specs.Prelude.{
  ◌≡◌,
  ◌+◌,
  ◌<◌,
  ◌≤◌,
  IfErr,
  IfNone,
  IfOk,
  IfSome,
  IsTrue,
  None,
  length,
  set,
  slice_index_or,
};
ghost use Rattle.rec_bytes.specs.OrderHole.{around, in_order_around, AreBelow, IsOpen};
ghost use Rattle.rec_bytes.specs.PairOrder.{in_order, no_pair, IsInOrder};
ghost use Rattle.rec_bytes.specs.Pairs.{find_pair, most_pairs, IsGapFor, IsPlaceOf};
ghost use Rattle.rec_bytes.specs.PlaceHints.{slot_of, AreMarked, IsHinted, IsPairOf};

use crate::key::Key;
use crate::order_hole::Hole;
use crate::record::Rec;
use std::cmp::Ordering;

// At least so many slots are made for each pair, so that few pairs share one.
const SLOTS_FOR_PAIR: usize = 4;

// So many pairs are searched as fast as a slot is read.
const MOST_WITHOUT_SLOTS: usize = 8;

// The place of the pair with a key. A slot holds 0 where no pair's key has it, and else one more
// than the place of one that has it, which the key there confirms. Only where it is another's are
// the pairs searched.
pub(crate) fn place_of(
    pairs: &Vec<(Key, Rec)>,
    order: &Vec<u16>,
    hints: &Vec<u16>,
    key: Key,
) -> Option<usize>
    requires { IsHinted pairs.now.items order.now.items hints.now.items }
    ensures found { IfSome result (IsPairOf pairs.now.items order.now.items key) }
    ensures absent { IfNone result
        (find_pair (in_order pairs.now.items order.now.items) key ≡ None) }
{
    let hint = hint_of(hints, key);
    if hint == 0 {
        return None;
    }
    let place = hint as usize - 1;
    if is_at(pairs, place, key) {
        return Some(place);
    }
    match search(pairs, order, Hole { start: 0, size: 0 }, key) {
        Ok(i) => Some(order[i] as usize),
        Err(_) => None,
    }
}

// Where in the order a key goes that no pair has.
pub(crate) fn gap_of(pairs: &Vec<(Key, Rec)>, order: &Vec<u16>, key: Key) -> usize
    requires ordered { IsInOrder pairs.now.items order.now.items }
    requires absent { find_pair (in_order pairs.now.items order.now.items) key ≡ None }
    ensures { IsGapFor (in_order pairs.now.items order.now.items) key result }
{
    match search(pairs, order, Hole { start: 0, size: 0 }, key) {
        Ok(_) => unreachable!(),
        Err(i) => i,
    }
}

// Whether more slots are wanted for so many pairs.
pub(crate) fn are_few(hints: &Vec<u16>, count: usize) -> bool
    requires { count ≤ most_pairs }
{
    count > MOST_WITHOUT_SLOTS && hints.len() < SLOTS_FOR_PAIR * count
}

// Makes the slots anew, enough for so many pairs. Where memory is refused there are none, and each
// key is searched.
pub(crate) fn renew(hints: &mut Vec<u16>, pairs: &Vec<(Key, Rec)>, count: usize)
    requires count { count ≤ most_pairs }
    requires pairs { length pairs.now.items ≤ most_pairs }
    ensures { AreMarked hints.new.items pairs.now.items }
{
    hints.clear();
    let _ = hints.resize((SLOTS_FOR_PAIR * count).next_power_of_two(), 0);
    for place in 0..pairs.len() {
        write_hint(hints, pairs[place].0, place as u16 + 1);
    }
}

// Empties the slots of these pairs.
pub(crate) fn forget(hints: &mut Vec<u16>, pairs: &Vec<(Key, Rec)>) {
    for place in 0..pairs.len() {
        write_hint(hints, pairs[place].0, 0);
    }
}

// Writes the slot of a key, if there are slots.
pub(crate) fn write_hint(hints: &mut Vec<u16>, key: Key, hint: u16)
    ensures { hints.new.items
        ≡ set hints.old.items (slot_of (length hints.old.items) key) hint }
{
    if hints.is_empty() {
        return;
    }
    let slot = slot_of(hints.len(), key);
    hints[slot] = hint;
}

// What the slot of a key holds, and 1 where there are no slots.
fn hint_of(hints: &Vec<u16>, key: Key) -> u16
    ensures { result ≡ slice_index_or hints.now.items (slot_of (length hints.now.items) key) 1 }
{
    if hints.is_empty() {
        return 1;
    }
    hints[slot_of(hints.len(), key)]
}

// The slot of a key among so many. Numbers that follow each other have slots far apart.
fn slot_of(slots: usize, key: Key) -> usize
    requires { 0 < slots }
    ensures value { result ≡ slot_of slots key }
    ensures bound { result < slots }
{
    let mixed = key.id as u64 * 2_654_435_769 + key.file as u64 * 31_415_927;
    (mixed / 4_096) as usize & (slots - 1)
}

// Whether the pair at a place has the key.
fn is_at(pairs: &Vec<(Key, Rec)>, place: usize, key: Key) -> bool
    ensures within { IsTrue result → place < length pairs.now.items }
    ensures key { IsTrue result → (slice_index_or pairs.now.items place no_pair).0 ≡ key }
{
    place < pairs.len() && pairs[place].0 == key
}

// The place of the pair with a key that isn't before the hole, or where around the hole it would
// go.
pub(crate) fn look_behind(
    pairs: &Vec<(Key, Rec)>,
    order: &Vec<u16>,
    hints: &Vec<u16>,
    hole: Hole,
    key: Key,
) -> Result<usize, usize>
    requires state { IsOpen pairs.now.items order.now.items hints.now.items hole }
    requires below { AreBelow (in_order_around pairs.now.items order.now.items hole)
        hole.start key }
    ensures found { IfOk result (IsPairOf pairs.now.items (around order.now.items hole) key) }
    ensures absent { IfErr result
        (IsGapFor (in_order_around pairs.now.items order.now.items hole) key) }
    ensures behind { IfErr result (λ i. hole.start ≤ i) }
{
    if let Some(place) = hinted_place(pairs, hints, key) {
        return Ok(place);
    }
    match search(pairs, order, hole, key) {
        Ok(i) => Ok(order[i + hole.size] as usize),
        Err(i) => Err(i),
    }
}

// The place that the slot of a key names, if the pair there has the key.
fn hinted_place(pairs: &Vec<(Key, Rec)>, hints: &Vec<u16>, key: Key) -> Option<usize>
    ensures within { IfSome result (λ place. place < length pairs.now.items) }
    ensures key { IfSome result (λ place. (slice_index_or pairs.now.items place no_pair).0 ≡ key) }
{
    let hint = hint_of(hints, key) as usize;
    if hint > 0 && is_at(pairs, hint - 1, key) {
        Some(hint - 1)
    } else {
        None
    }
}

// Where around the hole the key is, or where it would go. It isn't before the hole.
fn search(pairs: &Vec<(Key, Rec)>, order: &Vec<u16>, hole: Hole, key: Key) -> Result<usize, usize>
    requires ordered { IsInOrder pairs.now.items (around order.now.items hole) }
    requires within { hole.start + hole.size ≤ length order.now.items }
    requires below { AreBelow (in_order_around pairs.now.items order.now.items hole)
        hole.start key }
    ensures found { IfOk result
        (IsPlaceOf (in_order_around pairs.now.items order.now.items hole) key) }
    ensures absent { IfErr result
        (IsGapFor (in_order_around pairs.now.items order.now.items hole) key) }
    ensures behind { IfErr result (λ i. hole.start ≤ i) }
{
    let mut low = hole.start;
    let mut high = order.len() - hole.size;
    while low < high {
        let middle = low + (high - low) / 2;
        let place = order[middle + hole.size] as usize;
        match pairs[place].0.cmp(&key) {
            Ordering::Less => low = middle + 1,
            Ordering::Equal => return Ok(middle),
            Ordering::Greater => high = middle,
        }
    }
    Err(low)
}
