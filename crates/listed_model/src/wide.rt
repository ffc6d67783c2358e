//! Rows with many targets, as sets of numbers: 64 targets are compared at once.
ghost use Rattle.axioms.specs.View.{prop_numbers};
ghost use Rattle.certificate.specs.View.{pair_row_of, targets_in};
ghost use Rattle.listed_model.specs.Members.{holds};
ghost use Rattle.listed_model.specs.Rows.{ArePairRows};
ghost use Rattle.listed_model.specs.WideRows.{AreWide};
ghost use Rattle.number_sets.specs.Members.{has};
ghost use Rattle.std.specs.List.Sorted.{IsStrictlyIncreasing};
ghost use Rattle.std.specs.Prelude.{◌/◌, ◌≡◌, ◌≤◌, ◌||◌, ◌↔◌, Contains, IfOk, IfSome, IsTrue, OnOk, length, map, true, ℕ};

use crate::ascending::put_in_order;
use crate::rows::rows_of;
use axioms::{Memory, PropId};
use certificate::PairRow;
use number_sets::Row;
use std::alloc::Global;

/// The elements that the property leads to from the source.
#[derive(Drop)]
pub(crate) struct WideRow {
    pub property: PropId,
    pub source: u32,
    pub targets: Row,
}

/// Adds the numbers to the set; where one is out of its range, it ends there and says no.
pub(crate) fn put_all(set: &mut Row, numbers: &[u32]) -> bool
    ensures len { length set.new ≡ length set.old }
    ensures within { (y : ℕ) → has set.new y ≡ true → (has set.old y || holds numbers.now y) ≡ true }
    ensures all { IsTrue result → (y : ℕ) → has set.new y ≡ (has set.old y || holds numbers.now y) }
{
    for number in numbers {
        if !set.put(*number as usize) {
            return false;
        }
    }
    true
}

// Whether so many targets take at least the memory of a set of numbers below the bound.
fn are_many(count: usize, bound: usize) -> bool
    ensures { IsTrue result ↔ ((32 ≤ count) × (bound / 32 ≤ count)) }
{
    count >= 32 && count >= bound / 32
}

// The targets of the row as a set of numbers below the bound, where all are.
fn wide_row(alloc: Global, row: &PairRow, bound: usize) -> Result<Option<WideRow>, Memory>
    ensures { IfOk result (λ found. IfSome found (λ w. (w.property ≡ row.now.property) × (w.source ≡ row.now.source) × (length w.targets ≡ bound)
        × ((y : ℕ) → has w.targets y ≡ holds (targets_in row.now.targets) y))) }
{
    let mut targets = Row::new(alloc, bound)?;
    if !put_all(&mut targets, row.targets.as_slice()) {
        return Ok(None);
    }
    Ok(Some(WideRow {
        property: row.property,
        source: row.source,
        targets,
    }))
}

// Adds the rows of the property that have many targets.
fn add_wide_rows(
    alloc: Global,
    wide: &mut Vec<WideRow>,
    rows: &[PairRow],
    property: PropId,
    bound: usize,
) -> Result<(), Memory>
    requires rows { ArePairRows rows.now }
    requires wide { AreWide (map pair_row_of rows.now) bound wide.old.items }
    ensures { OnOk result (AreWide (map pair_row_of rows.now) bound wide.new.items) }
{
    for row in rows_of(rows, property) {
        if are_many(row.targets.as_slice().len(), bound) {
            if let Some(one) = wide_row(alloc, row, bound)? {
                wide.push(one)?;
            }
        }
    }
    Ok(())
}

// The numbers of the properties.
fn numbers_in_order(alloc: Global, properties: &[PropId]) -> Result<Vec<u32>, Memory>
    ensures ascending { IfOk result (λ numbers. IsStrictlyIncreasing numbers.items) }
    ensures same { IfOk result (λ numbers. (x : ℕ) → holds numbers.items x ≡ holds (prop_numbers properties.now) x) }
{
    let mut numbers = Vec::new(alloc);
    for property in properties {
        numbers.push(property.0)?;
    }
    put_in_order(&mut numbers);
    Ok(numbers)
}

/// Rows of the properties that have many targets, as sets of numbers below the bound, ascending by property and then by source.
/// They are made for so many rows that use them; where these are few there are none.
pub(crate) fn wide_rows(
    alloc: Global,
    rows: &[PairRow],
    users: usize,
    properties: &[PropId],
    bound: usize,
) -> Result<Vec<WideRow>, Memory>
    requires { ArePairRows rows.now }
    ensures { IfOk result (λ wide. AreWide (map pair_row_of rows.now) bound wide.items) }
{
    let mut wide = Vec::new(alloc);
    if users < 32 {
        return Ok(wide);
    }
    for number in &numbers_in_order(alloc, properties)? {
        add_wide_rows(alloc, &mut wide, rows, PropId(*number), bound)?;
    }
    Ok(wide)
}

/// The row of the property and the source: one of those that ascend by property and then by source, if it is there.
pub(crate) fn wide_at(wide: &[WideRow], property: PropId, source: u32) -> Option<&WideRow>
    ensures { IfSome result (λ w. Contains wide.now w.now × (w.now.property ≡ property) × (w.now.source ≡ source)) }
{
    let place = wide.partition_point(|row: &WideRow| {
        row.property.0 < property.0 || (row.property.0 == property.0 && row.source < source)
    });
    let row = wide.get(place)?;
    if row.property == property && row.source == source {
        Some(row)
    } else {
        None
    }
}
