ghost use Rattle.std.specs.Prelude.{◌≡◌, ◌+◌, ◌-◌, ◌<◌, ◌≤◌, insert, length, vec_capacity};
ghost use Rattle.rec_bytes.specs.OrderHole.{around};

/// Places of the order that are still to be filled, by where the first is and how many there are.
#[derive(Clone, Copy)]
pub(crate) struct Hole {
    pub(crate) start: usize,
    pub(crate) size: usize,
}

// Makes a hole before all places, where there is room for it.
pub(crate) fn open_hole(order: &mut Vec<u16>, size: usize) -> Hole
    requires { length order.old.items + size ≤ vec_capacity order.old }
    ensures start { result.start ≡ 0 }
    ensures size { result.size ≡ size }
    ensures places { around order.new.items result ≡ order.old.items }
    ensures count { length order.new.items ≡ length order.old.items + size }
    ensures capacity { vec_capacity order.old ≤ vec_capacity order.new }
{
    let count = order.len();
    if order.resize(count + size, 0).is_err() {
        unreachable!();
    }
    order.copy_within(0..count, size);
    Hole { start: 0, size }
}

// Puts a place before the i-th one around the hole: the places before it move to the hole's front,
// and the last one of the hole takes it.
pub(crate) fn fill_hole(order: &mut Vec<u16>, hole: Hole, i: usize, place: u16) -> Hole
    requires behind { hole.start ≤ i }
    requires some { 0 < hole.size }
    requires within { i + hole.size ≤ length order.old.items }
    ensures start { result.start ≡ i + 1 }
    ensures size { hole.size ≡ result.size + 1 }
    ensures places { around order.new.items result ≡ insert (around order.old.items hole) i place }
    ensures count { length order.new.items ≡ length order.old.items }
    ensures capacity { vec_capacity order.new ≡ vec_capacity order.old }
{
    order.copy_within(hole.start + hole.size..i + hole.size, hole.start);
    order[i] = place;
    Hole {
        start: i + 1,
        size: hole.size - 1,
    }
}
