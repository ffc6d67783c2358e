//! Marks on the facts that the lines of marked facts rest on.
ghost use Rattle.explain.specs.Marks.{AreClosed, IsMarked, ServesLater};
ghost use Rattle.explain.specs.Uses.{RestsOn};
ghost use Rattle.std.specs.Prelude.{◌↔◌, ◌<◌, ◌≤◌, ◌≡◌, ◌⊎◌, ◌^◌, length, ℕ};

use crate::marks::{is_blank, mark};
use crate::older::rests_on;
use engine::Closed;
use facts::{FactId, Older};
use number_sets::Row;

// Marks what the line of the fact rests on.
fn mark_below(closed: &Closed<'_>, fact: FactId, marks: &mut Row)
    requires there { fact.0 < length closed.now.saturation.state.facts }
    requires marked { fact.0 < length marks.old }
    ensures long { length marks.new ≡ length marks.old }
    ensures exact { (n : ℕ) → IsMarked marks.new n ↔ (IsMarked marks.old n ⊎ RestsOn closed.now.saturation fact.0 n) }
    ensures older { (n : ℕ) → RestsOn closed.now.saturation fact.0 n → n < fact.0 }
{
    closed.well_formed();
    let Some(birth) = closed.born(fact) else {
        return;
    };
    match rests_on(closed.normal(), birth) {
        Older::None => {}
        Older::One(only) => mark(marks, only.0 as usize),
        Older::Two(first, second) => {
            mark(marks, first.0 as usize);
            mark(marks, second.0 as usize);
        }
    }
}

/// Marks what the lines of marked facts rest on, and what the lines of those do. Of the last facts there may be no marks. Where 64
/// facts in a row have no mark, it passes them by at once.
pub(crate) fn mark_older(closed: &Closed<'_>, marks: &mut Row)
    requires within { length marks.old ≤ length closed.now.saturation.state.facts }
    requires few { length marks.old < 2 ^ 32 }
    ensures long { length marks.new ≡ length marks.old }
    ensures kept { (n : ℕ) → IsMarked marks.old n → IsMarked marks.new n }
    ensures closed { AreClosed closed.now.saturation marks.new }
    // What is marked was marked before, or the line of a later fact that is marked rests on it.
    ensures only { (n : ℕ) → IsMarked marks.new n → IsMarked marks.old n ⊎ ServesLater closed.now.saturation marks.new n }
{
    let mut end = marks.len();
    while end > 0 {
        if end % 64 == 0 && is_blank(marks, end / 64 - 1) {
            end -= 64;
        } else {
            end -= 1;
            if marks.contains(end) {
                mark_below(closed, FactId(end as u32), marks);
            }
        }
    }
}
