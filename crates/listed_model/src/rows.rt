//! Rows of pairs and of classes, found by what they are of.
ghost use Rattle.certificate.specs.View.{class_row_of, pair_row_of};
ghost use Rattle.certificate.specs.declared.listed.PairRow.{PairRow as PairRow2};
ghost use Rattle.listed_model.specs.Listing.{elements_of, targets_of};
ghost use Rattle.listed_model.specs.Rows.{AreClassRows, ArePairRows, is_before};
ghost use Rattle.std.specs.List.Sorted.{IsPartitionPoint, IsStrictlyIncreasing};
ghost use Rattle.std.specs.Prelude.{◌↔◌, ◌≡◌, ◌≤◌, Contains, false, length, map, true, nat_le, nat_lt};

use axioms::{ExprId, PropId};
use certificate::{ClassRow, PairRow};

// How many rows stand before those of the property and the source.
fn rows_before(rows: &[PairRow], property: PropId, source: u32) -> usize
    requires { ArePairRows rows.now }
    ensures bound { result ≤ length rows.now }
    ensures place { IsPartitionPoint (λ row. is_before property.0 source row ≡ true) (λ row. is_before property.0 source row ≡ false) rows.now result }
{
    rows.partition_point(
        |row: &PairRow| -> bool
            ensures { result ≡ is_before property.0 source row.now }
        { row.property.0 < property.0 || (row.property.0 == property.0 && row.source < source) },
    )
}

/// How many rows are of properties with smaller numbers.
pub(crate) fn start_of(rows: &[PairRow], property: PropId) -> usize
    requires { ArePairRows rows.now }
    ensures bound { result ≤ length rows.now }
    ensures place { IsPartitionPoint (λ row. nat_lt row.property.0 property.0 ≡ true) (λ row. nat_lt row.property.0 property.0 ≡ false) rows.now result }
{
    rows.partition_point(
        |row: &PairRow| -> bool
            ensures { result ≡ nat_lt row.now.property.0 property.0 }
        { row.property.0 < property.0 },
    )
}

/// How many rows are of the property or of one with a smaller number.
pub(crate) fn end_of(rows: &[PairRow], property: PropId) -> usize
    requires { ArePairRows rows.now }
    ensures bound { result ≤ length rows.now }
    ensures place { IsPartitionPoint (λ row. nat_le row.property.0 property.0 ≡ true) (λ row. nat_le row.property.0 property.0 ≡ false) rows.now result }
{
    rows.partition_point(
        |row: &PairRow| -> bool
            ensures { result ≡ nat_le row.now.property.0 property.0 }
        { row.property.0 <= property.0 },
    )
}

pub(crate) fn rows_of(rows: &[PairRow], property: PropId) -> &[PairRow]
    requires { ArePairRows rows.now }
    ensures { (row : PairRow2) → Contains result.now row ↔ (Contains rows.now row × (row.property.0 ≡ property.0)) }
{
    let start = start_of(rows, property);
    let end = end_of(rows, property);
    &rows[start..end]
}

/// The elements that the property leads to from the source, ascending.
pub(crate) fn targets_at(rows: &[PairRow], property: PropId, source: u32) -> &[u32]
    requires { ArePairRows rows.now }
    ensures targets { result.now ≡ targets_of (map pair_row_of rows.now) property.0 source }
    ensures ascending { IsStrictlyIncreasing result.now }
{
    let place = rows_before(rows, property, source);
    if place >= rows.len() {
        return &[];
    }
    let row = &rows[place];
    if row.property == property && row.source == source {
        row.targets.as_slice()
    } else {
        &[]
    }
}

// How many rows stand before those of the class.
fn classes_before(rows: &[ClassRow], class: ExprId) -> usize
    requires { AreClassRows rows.now }
    ensures bound { result ≤ length rows.now }
    ensures place { IsPartitionPoint (λ row. nat_lt row.class.0 class.0 ≡ true) (λ row. nat_lt row.class.0 class.0 ≡ false) rows.now result }
{
    rows.partition_point(
        |row: &ClassRow| -> bool
            ensures { result ≡ nat_lt row.now.class.0 class.0 }
        { row.class.0 < class.0 },
    )
}

/// The elements that are listed for the class, ascending.
pub(crate) fn elements_at(rows: &[ClassRow], class: ExprId) -> &[u32]
    requires { AreClassRows rows.now }
    ensures { result.now ≡ elements_of (map class_row_of rows.now) class.0 }
{
    let place = classes_before(rows, class);
    if place >= rows.len() {
        return &[];
    }
    let row = &rows[place];
    if row.class == class {
        &row.elements
    } else {
        &[]
    }
}
