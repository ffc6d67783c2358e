//! Ascending lists of numbers.
ghost use Rattle.listed_model.specs.Members.{holds};
ghost use Rattle.std.specs.List.{list_all};
ghost use Rattle.std.specs.List.Sorted.{IsNonDecreasing, IsPartitionPoint, IsStrictlyIncreasing};
ghost use Rattle.std.specs.Prelude.{◌<◌, ◌≡◌, ◌≤◌, ◌↔◌, IfOk, false, filter, length, nat_lt, true, ℕ};

use axioms::Memory;
use std::alloc::Global;

/// Whether the number stands in the ascending list.
pub(crate) fn stands_in(list: &[u32], number: u32) -> bool
    requires { IsStrictlyIncreasing list.now }
    ensures { result ≡ holds list.now number }
{
    list.binary_search(&number).is_ok()
}

/// Whether each of the few stands in the ascending list.
pub(crate) fn are_within(few: &[u32], list: &[u32]) -> bool
    requires { IsStrictlyIncreasing list.now }
    ensures { result ≡ list_all (holds list.now) few.now }
{
    for number in few {
        if !stands_in(list, *number) {
            return false;
        }
    }
    true
}

/// Those of the few that stand in the ascending list.
pub(crate) fn common(alloc: Global, few: &[u32], list: &[u32]) -> Result<Vec<u32>, Memory>
    requires { IsStrictlyIncreasing list.now }
    ensures { IfOk result (λ both. both.items ≡ filter (holds list.now) few.now) }
{
    let mut both = Vec::new(alloc);
    for number in few {
        if stands_in(list, *number) {
            both.push(*number)?;
        }
    }
    Ok(both)
}

/// How many of the ascending numbers are below the bound.
pub(crate) fn count_below(numbers: &[u32], bound: usize) -> usize
    requires { IsNonDecreasing numbers.now }
    ensures within { result ≤ length numbers.now }
    ensures place { IsPartitionPoint (λ k. nat_lt k bound ≡ true) (λ k. nat_lt k bound ≡ false) numbers.now result }
{
    numbers.partition_point(
        |number: &u32| -> bool
            ensures { result ≡ nat_lt number.now bound }
        { (*number as usize) < bound },
    )
}

/// Those of the ascending numbers that are at least the start and below the end.
pub(crate) fn between(numbers: &[u32], start: usize, end: usize) -> &[u32]
    requires { IsNonDecreasing numbers.now }
    ensures { (k : ℕ) → (holds result.now k ≡ true) ↔ ((holds numbers.now k ≡ true) × (start ≤ k) × (k < end)) }
{
    let first = count_below(numbers, start);
    let rest = &numbers[first..];
    let count = count_below(rest, end);
    &rest[..count]
}

/// Sorts the numbers, and leaves of equal ones one.
pub(crate) fn put_in_order(numbers: &mut Vec<u32>)
    ensures ascending { IsStrictlyIncreasing numbers.new.items }
    ensures same { (x : ℕ) → holds numbers.new.items x ≡ holds numbers.old.items x }
{
    numbers.sort_unstable();
    numbers.dedup();
}
