//! Of classes above or below a class, those that are farther from it than others.
ghost use Rattle.answers.specs.Names.{IsMarked};
ghost use Rattle.answers.specs.Neighbours.{IsFarther, IsFartherFrom, IsFartherOf, farther};
ghost use Rattle.answers.specs.Selections.{IsOnly};
ghost use Rattle.std.specs.Prelude.{◌<◌, ◌↔◌, ◌≡◌, ◌⊎◌, IfOk, length, ℕ};

use crate::lists_above::has;
use crate::marks::mark;
use axioms::Memory;
use number_sets::{PackedLists, Row};
use program::Side;
use std::alloc::Global;

/// Of two classes, of which `low` lies below `high`, the one that is farther from what lies on that side of it.
fn farther(side: Side, low: usize, high: usize) -> usize
    ensures { result ≡ farther side low high }
{
    match side {
        Side::Above => high,
        Side::Below => low,
    }
}

/// The farther one of two classes, where `high` is marked and has not `low` in its list.
fn farther_of(
    lists: &PackedLists,
    marks: &Row,
    side: Side,
    low: usize,
    high: usize,
) -> Option<usize>
    ensures { IsOnly (IsFartherOf lists.now marks.now side low high) result }
{
    if marks.contains(high) && !has(lists, high, low) {
        Some(farther(side, low, high))
    } else {
        None
    }
}

/// Marks the farther one of the class and of each in its list.
fn mark_farther(lists: &PackedLists, marks: &Row, side: Side, low: usize, far: &mut Row)
    ensures long { length far.new ≡ length far.old }
    ensures exact { (n : ℕ) → n < length far.old → IsMarked far.new n ↔ (IsMarked far.old n ⊎ IsFartherFrom lists.now marks.now side low n) }
{
    for high in lists.at(low) {
        mark(far, farther_of(lists, marks, side, low, *high as usize));
    }
}

/// Marks on the farther one of each two.
pub(crate) fn far_marks(
    alloc: Global,
    lists: &PackedLists,
    marks: &Row,
    side: Side,
) -> Result<Row, Memory>
    ensures long { IfOk result (λ far. length far ≡ length marks.now) }
    ensures exact { IfOk result (λ far. (n : ℕ) → n < length marks.now → IsMarked far n ↔ IsFarther lists.now marks.now side n) }
{
    let mut far = Row::new(alloc, marks.len())?;
    for low in 0..lists.len() {
        mark_farther(lists, marks, side, low, &mut far);
    }
    Ok(far)
}
