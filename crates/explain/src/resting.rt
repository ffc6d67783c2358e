//! Marks on the lines that a line rests on.
ghost use Rattle.certificate.specs.View.{lines_of};
ghost use Rattle.std.specs.Prelude.{◌↔◌, ◌<◌, ◌≤◌, ◌≡◌, ◌⊎◌, All, Contains, IfOk, length, suc, ℕ};
ghost use Rattle.explain.specs.LineMarks.{ArePremisesBefore, MarksRests};
ghost use Rattle.explain.specs.Marks.{IsMarked};

use crate::marks::{goal_mark, mark};
use axioms::Memory;
use certificate::Line;
use number_sets::Row;
use std::alloc::Global;

// Marks the lines of these numbers, counted from 1.
fn mark_each(numbers: &[u64], marks: &mut Row)
    requires { All (λ n. (0 < n) × (n ≤ length marks.old)) numbers.now }
    ensures long { length marks.new ≡ length marks.old }
    ensures exact { (n : ℕ) → IsMarked marks.new n ↔ (IsMarked marks.old n ⊎ Contains numbers.now (suc n)) }
{
    for number in numbers {
        mark(marks, (*number - 1) as usize);
    }
}

// Marks what marked lines rest on, from the last to the first.
fn mark_premises(lines: &[Line], marks: &mut Row)
    requires before { ArePremisesBefore (lines_of lines.now) }
    requires within { length marks.old ≤ length lines.now }
    ensures long { length marks.new ≡ length marks.old }
    ensures exact { (goal : ℕ) → ((n : ℕ) → IsMarked marks.old n ↔ (suc n ≡ goal)) → MarksRests (lines_of lines.now) goal marks.new }
{
    for place in (0..marks.len()).rev() {
        if marks.contains(place) {
            mark_each(&lines[place].premises, marks);
        }
    }
}

/// Of each line up to the goal, which is counted from 1, whether the goal rests on it.
///
/// # Errors
///
/// `Memory` where memory was refused.
pub(crate) fn rests(alloc: Global, lines: &[Line], goal: usize) -> Result<Row, Memory>
    requires before { ArePremisesBefore (lines_of lines.now) }
    requires counted { 0 < goal }
    requires there { goal ≤ length lines.now }
    ensures long { IfOk result (λ r. length r ≡ goal) }
    ensures exact { IfOk result (λ r. MarksRests (lines_of lines.now) goal r) }
{
    let mut marks = goal_mark(alloc, goal)?;
    mark_premises(lines, &mut marks);
    Ok(marks)
}
