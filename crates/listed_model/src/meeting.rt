//! Whether ascending lists have a number in common: a stretch of one that lies between two numbers of the other is leapt over.
ghost use Rattle.listed_model.specs.Members.{holds};
ghost use Rattle.std.specs.List.{list_any};
ghost use Rattle.std.specs.List.Sorted.{IsNonDecreasing, IsStrictlyIncreasing};
ghost use Rattle.std.specs.Prelude.{◌<◌, ◌≡◌, ◌≤◌, length, slice_index, ℕ};

use crate::ascending::count_below;

// The first place from that one on whose number is not below the bound.
fn next_place(list: &[u32], place: usize, bound: u32) -> usize
    requires list { IsNonDecreasing list.now }
    requires place { place < length list.now }
    ensures within { result ≤ length list.now }
    ensures after { slice_index list.now place < bound → place < result }
    ensures from { place ≤ result }
    ensures below { (k : ℕ) → place ≤ k → k < result → slice_index list.now k < bound }
{
    place + count_below(&list[place..], bound as usize)
}

/// Whether the lists have a number in common.
pub(crate) fn have_common(first: &[u32], second: &[u32]) -> bool
    requires first { IsStrictlyIncreasing first.now }
    requires second { IsStrictlyIncreasing second.now }
    ensures { result ≡ list_any (holds second.now) first.now }
{
    let mut i = 0;
    let mut j = 0;
    while i < first.len() && j < second.len() {
        if first[i] == second[j] {
            return true;
        }
        if first[i] < second[j] {
            i = next_place(first, i, second[j]);
        } else {
            j = next_place(second, j, first[i]);
        }
    }
    false
}
