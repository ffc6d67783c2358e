//! Sets of numbers and lists of them.
ghost use Rattle.listed_model.specs.Members.{holds};
ghost use Rattle.number_sets.specs.Members.{has};
ghost use Rattle.std.specs.List.{list_any};
ghost use Rattle.std.specs.Prelude.{◌<◌, ◌≡◌, ◌||◌, length, ℕ};

use number_sets::EpochSet;

/// Whether one of the numbers is in the set.
pub(crate) fn has_one(set: &EpochSet, numbers: &[u32]) -> bool
    ensures { result ≡ list_any (has set.now) numbers.now }
{
    for number in numbers {
        if set.contains(*number as usize) {
            return true;
        }
    }
    false
}

pub(crate) fn put_each(set: &mut EpochSet, numbers: &[u32])
    ensures len { length set.new ≡ length set.old }
    ensures members { (x : ℕ) → x < length set.old → has set.new x ≡ (has set.old x || holds numbers.now x) }
{
    for number in numbers {
        set.put(*number as usize);
    }
}
