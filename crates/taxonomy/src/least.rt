//! Of classes, those that are strictly above no other of them.
ghost use Rattle.number_sets.specs.Members.{has};
ghost use Rattle.number_sets.specs.Pieces.{list_at};
ghost use Rattle.std.specs.List.{All, Contains, filter};
ghost use Rattle.std.specs.List.Sorted.{IsPermutation};
ghost use Rattle.std.specs.Prelude.{[], ◌<◌, ◌||◌, ◌↔◌, ◌≡◌, ◌≤◌, IfOk, IfSome, IsNone, OnOk, length, not, ℕ};
ghost use Rattle.taxonomy.specs.Relation.{is_listed};
ghost use Rattle.taxonomy.specs.ClassMarks.{AreUpwardClosed, HasRoom};
ghost use Rattle.taxonomy.specs.Superclasses.{AreSuperclasses, is_larger};
ghost use Rattle.taxonomy.specs.Texts.{is_above_one};

use crate::superclasses::Superclasses;
use axioms::Memory;
use number_sets::EpochSet;
use std::alloc::Global;

/// What lies above the classes that were looked at.
#[derive(Drop)]
pub(crate) struct Marks {
    /// Their superclasses.
    pub(crate) above: EpochSet,
    /// What is strictly above one of them.
    pub(crate) strictly: EpochSet,
}

/// Marks for the classes below `n`.
pub(crate) fn no_marks(alloc: Global, n: usize) -> Result<Marks, Memory>
    ensures { IfOk result (λ m. HasRoom n m) }
{
    let above = EpochSet::new(alloc, n)?;
    let strictly = EpochSet::new(alloc, n)?;
    Ok(Marks { above, strictly })
}

/// Marks the superclasses of a class, and those of them that have fewer superclasses.
fn mark(marks: &mut Marks, classes: &Superclasses, c: usize)
    requires { HasRoom (length classes.now) marks.old }
    ensures room { HasRoom (length classes.now) marks.new }
    ensures above { (k : ℕ) → k < length classes.now → has marks.new.above k ≡ (has marks.old.above k || is_listed classes.now c k) }
    ensures strictly { (k : ℕ) → k < length classes.now → has marks.new.strictly k ≡ (has marks.old.strictly k || is_larger classes.now c k) }
{
    let size = classes.len_at(c);
    for h in classes.at(c) {
        let h = *h as usize;
        marks.above.put(h);
        if classes.len_at(h) < size {
            marks.strictly.put(h);
        }
    }
}

/// Marks what is above one of the classes, too. What is above a marked one is marked already.
fn mark_each(marks: &mut Marks, classes: &Superclasses, numbers: &[u32])
    requires superclasses { AreSuperclasses classes.now }
    requires room { HasRoom (length classes.now) marks.old }
    requires closed { AreUpwardClosed classes.now marks.old }
    ensures room { HasRoom (length classes.now) marks.new }
    ensures strictly { (k : ℕ) → k < length classes.now → has marks.new.strictly k ≡ (has marks.old.strictly k || is_above_one (is_listed classes.now) numbers.now k) }
{
    for c in numbers {
        let c = *c as usize;
        if !marks.above.contains(c) {
            mark(marks, classes, c);
        }
    }
}

/// Puts those of the numbers that lead and that the set does not have in place of those that were found.
fn put_missing(
    found: &mut Vec<u32>,
    set: &EpochSet,
    leading: &EpochSet,
    numbers: &[u32],
) -> Result<(), Memory>
    ensures { OnOk result (found.new.items ≡ filter (has leading.now) (filter (λ c. not (has set.now c)) numbers.now)) }
{
    found.clear();
    for c in numbers {
        let number = *c as usize;
        if !set.contains(number) && leading.contains(number) {
            found.push(*c)?;
        }
    }
    Ok(())
}

/// Of the numbers one that has most superclasses, or none where there are no numbers.
fn largest(classes: &Superclasses, numbers: &[u32]) -> Option<u32>
    ensures none { IsNone result ↔ (numbers.now ≡ []) }
    ensures among { IfSome result (Contains numbers.now) }
    ensures most { IfSome result (λ c. All (λ k. length (list_at classes.now k) ≤ length (list_at classes.now c)) numbers.now) }
{
    numbers
        .iter()
        .copied()
        .max_by_key(|number| classes.len_at(*number as usize))
}

/// Puts those of the numbers that are not marked in place of those that stand there, those that have most superclasses first: these
/// mark most of the others.
fn put_unmarked(
    ordered: &mut Vec<u32>,
    marked: &EpochSet,
    classes: &Superclasses,
    numbers: &[u32],
) -> Result<(), Memory>
    ensures { OnOk result (IsPermutation (filter (λ c. not (has marked.now c)) numbers.now) ordered.new.items) }
{
    ordered.clear();
    for c in numbers {
        if !marked.contains(*c as usize) {
            ordered.push(*c)?;
        }
    }
    ordered.sort_unstable_by_key(|number| usize::MAX - classes.len_at(*number as usize));
    Ok(())
}

/// Puts those of the classes that lead and that are strictly above no other of them in place of those that were found.
/// `ordered` is room for this.
pub(crate) fn put_least(
    found: &mut Vec<u32>,
    ordered: &mut Vec<u32>,
    marks: &mut Marks,
    classes: &Superclasses,
    leading: &EpochSet,
    numbers: &[u32],
) -> Result<(), Memory>
    requires superclasses { AreSuperclasses classes.now }
    requires room { HasRoom (length classes.now) marks.old }
    ensures room { HasRoom (length classes.now) marks.new }
    ensures least { OnOk result
        (found.new.items ≡ filter (has leading.now) (filter (λ g. not (is_above_one (is_listed classes.now) numbers.now g)) numbers.now)) }
{
    marks.above.clear();
    marks.strictly.clear();
    if let Some(number) = largest(classes, numbers) {
        mark(marks, classes, number as usize);
    }
    put_unmarked(ordered, &marks.above, classes, numbers)?;
    mark_each(marks, classes, ordered);
    put_missing(found, &marks.strictly, leading, numbers)?;
    Ok(())
}
