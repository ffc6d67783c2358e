//! The superclasses of each class, collected from lists or from rows.
ghost use Rattle.number_sets.specs.Members.{has};
ghost use Rattle.number_sets.specs.Pieces.{list_at};
ghost use Rattle.std.specs.List.{filter};
ghost use Rattle.std.specs.Prelude.{◌&&◌, ◌<◌, ◌==◌, ◌||◌, ◌≡◌, IfOk, OnOk, length, map, nat_lt, not, ℕ};
ghost use Rattle.taxonomy.specs.Relation.{IsSquare, is_below, is_listed};
ghost use Rattle.taxonomy.specs.Superclasses.{AreSets, IsSetOf, is_among, rows_of};
ghost use Rattle.taxonomy.specs.Texts.{nothing_class, numbers_below};

use crate::superclasses::{Superclasses, sizes_of};
use axioms::{ClassId, Memory};
use interpretation_spec::Row;
use number_sets::{EpochSet, PackedLists};
use std::alloc::Global;

/// The numbers below `n`, ascending. It fails where memory is refused, and where they are too many for numbers of classes.
fn all_below(alloc: Global, n: usize) -> Result<Vec<u32>, Memory>
    ensures { IfOk result (λ v. v.items ≡ numbers_below n) }
{
    if n > u32::MAX as usize {
        return Err(Memory);
    }
    let mut numbers = Vec::with_capacity(alloc, n)?;
    for k in 0..n as u32 {
        numbers.push(k)?;
    }
    Ok(numbers)
}

// ---- from lists

/// Whether the list has owl:Nothing.
fn has_nothing(list: &[u32]) -> bool
    ensures { result ≡ is_among list.now nothing_class }
{
    list.iter().any(|c| *c == ClassId::NOTHING.0)
}

/// Those whose list has owl:Nothing.
fn below_nothing(alloc: Global, lists: &PackedLists) -> Result<Row, Memory>
    ensures len { IfOk result (λ r. length r ≡ length lists.now) }
    ensures each { IfOk result (λ r. (c : ℕ) → c < length lists.now → has r c ≡ is_listed lists.now c nothing_class) }
{
    let mut below = Row::new(alloc, lists.len())?;
    for c in 0..lists.len() {
        if has_nothing(lists.at(c)) {
            below.put(c);
        }
    }
    Ok(below)
}

/// Adds the number. Says whether it was missing and is in range.
fn put_new(seen: &mut EpochSet, d: usize) -> bool
    ensures result { result ≡ (not (has seen.old d) && nat_lt d (length seen.old)) }
    ensures len { length seen.new ≡ length seen.old }
    ensures members { (k : ℕ) → k < length seen.old → has seen.new k ≡ (has seen.old k || d == k) }
{
    if seen.contains(d) { false } else { seen.put(d) }
}

/// Puts the numbers of a list that are below the bound of `seen`, each once, in place of those that were found.
pub(crate) fn put_once(
    found: &mut Vec<u32>,
    seen: &mut EpochSet,
    list: &[u32],
) -> Result<(), Memory>
    ensures set { OnOk result (IsSetOf (length seen.old) list.now found.new.items) }
    ensures room { length seen.new ≡ length seen.old }
{
    seen.clear();
    found.clear();
    for d in list {
        if put_new(seen, *d as usize) {
            found.push(*d)?;
        }
    }
    Ok(())
}

/// The lists without what stands twice or has no list.
fn each_once(alloc: Global, lists: &PackedLists) -> Result<PackedLists, Memory>
    ensures len { IfOk result (λ l. length l ≡ length lists.now) }
    ensures each { IfOk result
        (λ l. (c : ℕ) → c < length lists.now → IsSetOf (length lists.now) (list_at lists.now c) (list_at l c)) }
{
    let mut seen = EpochSet::new(alloc, lists.len())?;
    let mut found = Vec::new(alloc);
    let mut once = PackedLists::new(alloc);
    for c in 0..lists.len() {
        put_once(&mut found, &mut seen, lists.at(c))?;
        once.push_list(&found)?;
    }
    Ok(once)
}

/// The superclasses by these lists, where one that has owl:Nothing stands for all classes.
pub(crate) fn of_lists(alloc: Global, lists: &PackedLists) -> Result<Superclasses, Memory>
    ensures sets { IfOk result (λ s. AreSets s) }
    ensures len { IfOk result (λ s. length s ≡ length lists.now) }
    ensures each { IfOk result
        (λ s. (c d : ℕ) → c < length lists.now → d < length lists.now → is_listed s c d ≡ is_below lists.now c d) }
{
    let all = all_below(alloc, lists.len())?;
    let apart = below_nothing(alloc, lists)?;
    let once = each_once(alloc, lists)?;
    let sizes = sizes_of(alloc, &once, &apart)?;
    Ok(Superclasses {
        lists: once,
        apart,
        all,
        sizes,
    })
}

// ---- from rows

/// Those of the numbers that the set has.
fn members(alloc: Global, all: &[u32], row: &Row) -> Result<Vec<u32>, Memory>
    ensures { IfOk result (λ v. v.items ≡ filter (has row.now) all.now) }
{
    let numbers = all.iter().copied();
    Ok(
        numbers
            .filter(|k| row.contains(*k as usize))
            .collect(alloc)?,
    )
}

/// Of each set those of the numbers that it has.
fn each_members(alloc: Global, all: &[u32], rows: &[Row]) -> Result<PackedLists, Memory>
    ensures { IfOk result (λ l. l ≡ map (λ row. filter (has row) all.now) rows.now) }
{
    let mut lists = PackedLists::new(alloc);
    for row in rows {
        lists.push_list(&members(alloc, all, row)?)?;
    }
    Ok(lists)
}

/// The superclasses by these rows.
pub(crate) fn of_rows(alloc: Global, rows: &[Row]) -> Result<Superclasses, Memory>
    requires { IsSquare rows.now }
    ensures sets { IfOk result (λ s. AreSets s) }
    ensures rows { IfOk result (λ s. rows_of s ≡ rows.now) }
{
    let all = all_below(alloc, rows.len())?;
    let lists = each_members(alloc, &all, rows)?;
    let apart = Row::new(alloc, rows.len())?;
    let sizes = sizes_of(alloc, &lists, &apart)?;
    Ok(Superclasses {
        lists,
        apart,
        all,
        sizes,
    })
}
