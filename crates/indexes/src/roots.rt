//! A table whose entries lead down: each to its own place, or to a lower one.
ghost use Rattle.std.specs.Prelude.{◌≡◌, ◌<◌, ℕ, length, slice_index};
ghost use Rattle.indexes.specs.Roots.{IsRootOf, LeadDown, Joins, Shortens};

/// Where the entries lead to from a number. The way there is halved: every second entry on it
/// becomes the entry of its entry.
fn root(table: &mut [u32], start: u32) -> u32
    requires table { LeadDown table.old }
    requires within { start < length table.old }
    ensures shortens { Shortens table.old table.new }
    ensures root { IsRootOf table.new start result }
{
    let mut place = start;
    'down: while table[place as usize] != place {
        let next = table[place as usize];
        let after = table[next as usize];
        table[place as usize] = after;
        place = after;
    }
    place
}

/// Makes two numbers lead to one.
pub(crate) fn join(table: &mut [u32], first: u32, second: u32)
    requires table { LeadDown table.old }
    requires first { first < length table.old }
    requires second { second < length table.old }
    ensures { Joins table.old table.new first second }
{
    let low = root(table, first);
    let high = root(table, second);
    if low < high {
        table[high as usize] = low;
    } else {
        table[low as usize] = high;
    }
}

/// Puts in the place of each number where the entries lead to from it.
pub(crate) fn flatten(table: &mut [u32])
    requires table { LeadDown table.old }
    ensures long { length table.new ≡ length table.old }
    ensures roots { (x : ℕ) → x < length table.old → IsRootOf table.old x (slice_index table.new x) }
{
    for place in 0..table.len() {
        let next = table[place];
        table[place] = table[next as usize];
    }
}
