//! Items of one size, one behind the other.

ghost use Rattle.std.specs.Prelude.{◌≡◌, ◌≢◌, ◌+◌, ◌*◌, ◌<◌, ℕ, MatchOption};

// Which of so many items of this size begins at a place, where the first begins at `start`.
pub(crate) fn item_at(start: u64, size: u64, count: u64, place: u64) -> Option<u64>
    requires { 0 < size }
    ensures { MatchOption result ((k : ℕ) → k < count → place ≢ start + k * size)
        (λ k. (k < count) × (place ≡ start + k * size)) }
{
    let past = place.checked_sub(start)?;
    let index = past / size;
    if past % size != 0 || index >= count {
        return None;
    }
    Some(index)
}

// The same of items that are counted in 32 bits.
pub(crate) fn short_item_at(start: u64, size: u64, count: u32, place: u64) -> Option<u32>
    requires { 0 < size }
    ensures { MatchOption result ((k : ℕ) → k < count → place ≢ start + k * size)
        (λ k. (k < count) × (place ≡ start + k * size)) }
{
    let index = item_at(start, size, u64::from(count), place)?;
    Some(index as u32)
}
