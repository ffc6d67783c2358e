//! What two lists of numbers have in common.
ghost use Rattle.std.specs.Prelude.{◌≡◌, ◌⊎◌, ℕ, Contains, IsTrue};
ghost use Rattle.std.specs.List.Sorted.{IsNonDecreasing};

/// The shorter of two lists.
pub(crate) fn shorter<'a>(first: &'a [u32], second: &'a [u32]) -> &'a [u32]
    ensures { (result.now ≡ first.now) ⊎ (result.now ≡ second.now) }
{
    if second.len() < first.len() {
        second
    } else {
        first
    }
}

/// Whether the list ends before the other begins, or one of them is empty: they have no number in common then.
fn ends_before(list: &[u32], other: &[u32]) -> bool
    requires list { IsNonDecreasing list.now }
    requires other { IsNonDecreasing other.now }
    ensures { IsTrue result → (n : ℕ) → Contains list.now n → Contains other.now n → ⊥ }
{
    match (list.last(), other.first()) {
        (Some(last), Some(first)) => *last < *first,
        _ => true,
    }
}

/// Numbers of one of two ascending lists, with all that they have in common: none where one of them ends before the other begins,
/// else those of the shorter.
pub(crate) fn common<'a>(first: &'a [u32], second: &'a [u32]) -> &'a [u32]
    requires first { IsNonDecreasing first.now }
    requires second { IsNonDecreasing second.now }
    ensures all { (n : ℕ) → Contains first.now n → Contains second.now n → Contains result.now n }
    ensures only { (n : ℕ) → Contains result.now n → Contains first.now n ⊎ Contains second.now n }
{
    if ends_before(first, second) || ends_before(second, first) {
        &[]
    } else {
        shorter(first, second)
    }
}
