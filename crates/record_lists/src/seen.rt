ghost use Rattle.std.specs.Prelude.{◌≡◌, ◌<◌, ℕ, ◌||◌, true, false, length, IfOk, IfSome, IfNone};
ghost use Rattle.std.specs.List.{list_any, All};
ghost use Rattle.record_lists.specs.Seen.{is_seen, is_among};

use std::alloc::{AllocError, Global};

/// A bit for each of so many numbers, none of which is seen.
pub fn none_seen(alloc: Global, size: usize) -> Result<Vec<bool>, AllocError>
    ensures seen { IfOk result (λ seen. (p : ℕ) → is_seen seen.items p ≡ false) }
    ensures len { IfOk result (λ seen. length seen.items ≡ size) }
{
    Vec::from_elem(alloc, false, size)
}

/// Such bits where just these are seen.
pub fn seen_of(alloc: Global, size: usize, ids: &[u32]) -> Result<Vec<bool>, AllocError>
    requires { All (λ x. x < size) ids.now }
    ensures seen { IfOk result
        (λ seen. (p : ℕ) → is_seen seen.items p ≡ is_among ids.now p) }
    ensures len { IfOk result (λ seen. length seen.items ≡ size) }
{
    let mut seen = none_seen(alloc, size)?;
    see_all(&mut seen, ids);
    Ok(seen)
}

/// The first of these that is seen.
pub fn first_seen(seen: &[bool], ids: &[u32]) -> Option<u32>
    requires { All (λ x. x < length seen.now) ids.now }
    ensures found { IfSome result
        (λ x. (is_seen seen.now x ≡ true) × (is_among ids.now x ≡ true)) }
    ensures none { IfNone result (list_any (is_seen seen.now) ids.now ≡ false) }
{
    for id in ids {
        if seen[*id as usize] {
            return Some(*id);
        }
    }
    None
}

/// Sees all these.
pub fn see_all(seen: &mut [bool], ids: &[u32])
    requires { All (λ x. x < length seen.old) ids.now }
    ensures seen { (p : ℕ) → is_seen seen.new p ≡ (is_seen seen.old p || is_among ids.now p) }
    ensures len { length seen.new ≡ length seen.old }
{
    for id in ids {
        seen[*id as usize] = true;
    }
}
