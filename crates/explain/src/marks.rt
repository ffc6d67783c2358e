//! Marks on facts and on lines, one bit for each.
ghost use Rattle.explain.specs.Marks.{IsMarked};
ghost use Rattle.number_sets.specs.Members.{has};
ghost use Rattle.std.specs.Prelude.{◌%◌, ◌+◌, ◌/◌, ◌<◌, ◌≡◌, ◌≤◌, ◌↔◌, ◌⊎◌, IfOk, IsTrue, false, length, suc, ℕ};

use axioms::Memory;
use number_sets::Row;
use std::alloc::Global;

/// Whether none of the 64 facts of that word is marked.
pub(crate) fn is_blank(marks: &Row, word: usize) -> bool
    ensures { IsTrue result → (n : ℕ) → n / 64 ≡ word → has marks.now n ≡ false }
{
    let words = marks.words();
    word < words.len() && words[word] == 0
}

/// Whether none of the 256 facts from that one on is marked.
pub(crate) fn is_blank_block(marks: &Row, first: usize) -> bool
    requires { first % 256 ≡ 0 }
    ensures { IsTrue result → (n : ℕ) → first ≤ n → n < first + 256 → has marks.now n ≡ false }
{
    let word = first / 64;
    is_blank(marks, word)
        && is_blank(marks, word + 1)
        && is_blank(marks, word + 2)
        && is_blank(marks, word + 3)
}

/// Marks that place.
pub(crate) fn mark(marks: &mut Row, place: usize)
    requires { place < length marks.old }
    ensures long { length marks.new ≡ length marks.old }
    ensures exact { (n : ℕ) → IsMarked marks.new n ↔ (IsMarked marks.old n ⊎ (n ≡ place)) }
{
    marks.put(place);
}

/// Marks up to the goal, which is counted from 1: the goal alone is marked.
///
/// # Errors
///
/// `Memory` where memory was refused.
pub(crate) fn goal_mark(alloc: Global, goal: usize) -> Result<Row, Memory>
    requires { 0 < goal }
    ensures long { IfOk result (λ r. length r ≡ goal) }
    ensures exact { IfOk result (λ r. (n : ℕ) → IsMarked r n ↔ (suc n ≡ goal)) }
{
    let mut marks = Row::new(alloc, goal)?;
    marks.put(goal - 1);
    Ok(marks)
}
