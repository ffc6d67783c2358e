//! The groups of equal classes, by the numbers of their superclasses.
ghost use Rattle.number_sets.specs.Members.{has};
ghost use Rattle.number_sets.specs.Pieces.{list_at};
ghost use Rattle.std.specs.List.{All, filter};
ghost use Rattle.std.specs.Prelude.{◌<◌, ◌||◌, ◌≡◌, IfOk, OnOk, length, nat_eq, nat_lt, ℕ};
ghost use Rattle.taxonomy.specs.Relation.{is_listed};
ghost use Rattle.taxonomy.specs.Superclasses.{AreSuperclasses, is_among, is_as_large};
ghost use Rattle.taxonomy.specs.Texts.{groups};

use crate::superclasses::Superclasses;
use axioms::Memory;
use number_sets::EpochSet;
use std::alloc::Global;

/// Marks the superclasses of a class that have as many superclasses.
fn mark_group(set: &mut EpochSet, classes: &Superclasses, c: usize)
    ensures len { length set.new ≡ length set.old }
    ensures members { (k : ℕ) → k < length set.old → has set.new k ≡ (has set.old k || is_as_large classes.now c k) }
{
    let size = classes.len_at(c);
    for h in classes.at(c) {
        let h = *h as usize;
        if classes.len_at(h) == size {
            set.put(h);
        }
    }
}

/// Of classes in an order, the first of each group.
pub(crate) fn leaders(
    alloc: Global,
    classes: &Superclasses,
    order: &[usize],
) -> Result<Vec<usize>, Memory>
    requires superclasses { AreSuperclasses classes.now }
    requires within { All (λ c. c < length classes.now) order.now }
    ensures { IfOk result (λ v. v.items ≡ groups (is_listed classes.now) order.now) }
{
    let mut found = Vec::new(alloc);
    let mut grouped = EpochSet::new(alloc, classes.len())?;
    for c in order {
        if !grouped.contains(*c) {
            found.push(*c)?;
            mark_group(&mut grouped, classes, *c);
        }
    }
    Ok(found)
}

/// The set of those of the numbers that are below `n`.
pub(crate) fn set_of(alloc: Global, n: usize, numbers: &[usize]) -> Result<EpochSet, Memory>
    ensures len { IfOk result (λ s. length s ≡ n) }
    ensures members { IfOk result (λ s. (k : ℕ) → k < n → has s k ≡ is_among numbers.now k) }
{
    let mut set = EpochSet::new(alloc, n)?;
    for number in numbers {
        set.put(*number);
    }
    Ok(set)
}

/// Puts the superclasses of a class that have fewer superclasses in place of the numbers.
pub(crate) fn put_larger(
    numbers: &mut Vec<u32>,
    classes: &Superclasses,
    g: usize,
) -> Result<(), Memory>
    ensures { OnOk result
        (numbers.new.items ≡ filter (λ h. nat_lt (length (list_at classes.now h)) (length (list_at classes.now g))) (list_at classes.now g)) }
{
    let size = classes.len_at(g);
    numbers.clear();
    for h in classes.at(g) {
        if classes.len_at(*h as usize) < size {
            numbers.push(*h)?;
        }
    }
    Ok(())
}

/// Puts the superclasses of a class that have as many superclasses in place of the numbers.
pub(crate) fn put_as_large(
    numbers: &mut Vec<u32>,
    classes: &Superclasses,
    g: usize,
) -> Result<(), Memory>
    ensures { OnOk result
        (numbers.new.items ≡ filter (λ h. nat_eq (length (list_at classes.now h)) (length (list_at classes.now g))) (list_at classes.now g)) }
{
    let size = classes.len_at(g);
    numbers.clear();
    for h in classes.at(g) {
        if classes.len_at(*h as usize) == size {
            numbers.push(*h)?;
        }
    }
    Ok(())
}
