//! Whether a property is transitive, without walking each path of two steps.
ghost use Rattle.certificate.specs.View.{pair_row_of, targets_in};
ghost use Rattle.listed_model.specs.Listing.{targets_of};
ghost use Rattle.listed_model.specs.Members.{holds};
ghost use Rattle.listed_model.specs.Rows.{ArePairRows, ClosedAt, LeadsWithin};
ghost use Rattle.listed_model.specs.TransitivityTests.{AreDone};
ghost use Rattle.listed_model.specs.WideRows.{AreClosed, AreWide};
ghost use Rattle.number_sets.specs.Members.{has};
ghost use Rattle.std.specs.List.Sorted.{IsStrictlyIncreasing};
ghost use Rattle.std.specs.Prelude.{◌<◌, ◌≡◌, ◌↔◌, All, IfOk, IsTrue, length, map, true, ℕ};

use crate::ascending::are_within;
use crate::rows::{rows_of, targets_at};
use crate::sets::put_each;
use crate::wide::{WideRow, wide_at, wide_rows};
use axioms::{Memory, PropId};
use certificate::PairRow;
use number_sets::EpochSet;
use std::alloc::Global;

/// What it is tested over whether a property is transitive: the rows of pairs, those with many targets as sets of numbers, too, and the
/// elements that are done. From these the property leads in one step to all that it leads to in two.
#[derive(Clone, Copy)]
pub(crate) struct TransitivityTest<'a> {
    pub alloc: Global,
    pub rows: &'a [PairRow],
    pub wide: &'a [WideRow],
    pub property: PropId,
    pub done: &'a EpochSet,
}

impl TransitivityTest<'_> {
    // The numbers, those that the property leads further from first.
    fn widest_first(&self, numbers: &[u32]) -> Result<Vec<u32>, Memory>
        requires { ArePairRows self.now.rows.now }
        ensures { IfOk result (λ ordered. (y : ℕ) → holds ordered.items y ≡ holds numbers.now y) }
    {
        let mut ordered = Vec::new(self.alloc);
        let mut counted = Vec::new(self.alloc);
        for number in numbers {
            counted.push((targets_at(self.rows, self.property, *number).len(), *number))?;
        }
        counted.sort_unstable();
        for pair in &counted {
            ordered.push(pair.1)?;
        }
        ordered.reverse();
        Ok(ordered)
    }

    // Whether the property leads from the number to nothing but the targets. From what is done it leads in one step to all that
    // it leads to in two, so what it leads to from there is covered, and need not be looked at again.
    fn leads_from(&self, covered: &mut EpochSet, number: u32, targets: &[u32]) -> bool
        requires rows { ArePairRows self.now.rows.now }
        requires targets { IsStrictlyIncreasing targets.now }
        requires done { AreDone self.now }
        requires covered { (y : ℕ) → has covered.old y ≡ true → LeadsWithin (map pair_row_of self.now.rows.now) self.now.property.0 targets.now y }
        ensures len { length covered.new ≡ length covered.old }
        ensures covered { (y : ℕ) → has covered.new y ≡ true → LeadsWithin (map pair_row_of self.now.rows.now) self.now.property.0 targets.now y }
        ensures within { IsTrue result ↔ LeadsWithin (map pair_row_of self.now.rows.now) self.now.property.0 targets.now number }
    {
        if covered.contains(number as usize) {
            return true;
        }
        let ends = targets_at(self.rows, self.property, number);
        if !are_within(ends, targets) {
            return false;
        }
        if self.done.contains(number as usize) {
            put_each(covered, ends);
        }
        true
    }

    // Whether the property leads from each of the numbers to nothing but the targets. The set is room to work in.
    fn leads_within(&self, covered: &mut EpochSet, numbers: &[u32], targets: &[u32]) -> bool
        requires rows { ArePairRows self.now.rows.now }
        requires targets { IsStrictlyIncreasing targets.now }
        requires done { AreDone self.now }
        ensures len { length covered.new ≡ length covered.old }
        ensures within { IsTrue result ↔ ((y : ℕ) → holds numbers.now y ≡ true → LeadsWithin (map pair_row_of self.now.rows.now) self.now.property.0 targets.now y) }
    {
        covered.clear();
        for number in numbers {
            if !self.leads_from(covered, *number, targets) {
                return false;
            }
        }
        true
    }

    // Whether the property leads from the targets of the row to nothing but these, where it does so from the last targets.
    fn is_row_closed(
        &self,
        covered: &mut EpochSet,
        last: &[u32],
        row: &PairRow,
    ) -> Result<bool, Memory>
        requires rows { ArePairRows self.now.rows.now }
        requires wide { AreWide (map pair_row_of self.now.rows.now) (length self.now.done.now) self.now.wide.now }
        requires done { AreDone self.now }
        requires last { AreClosed (map pair_row_of self.now.rows.now) self.now.property.0 last.now }
        requires row { targets_of (map pair_row_of self.now.rows.now) self.now.property.0 row.now.source ≡ targets_in row.now.targets }
        requires ascending { IsStrictlyIncreasing (targets_in row.now.targets) }
        ensures len { length covered.new ≡ length covered.old }
        ensures closed { IfOk result (λ closed. IsTrue closed ↔ AreClosed (map pair_row_of self.now.rows.now) self.now.property.0 (targets_in row.now.targets)) }
    {
        let targets = row.targets.as_slice();
        if targets == last {
            return Ok(true);
        }
        let ordered = self.widest_first(targets)?;
        match wide_at(self.wide, self.property, row.source) {
            Some(own) => self.lead_into(&ordered, &own.targets),
            None => Ok(self.leads_within(covered, &ordered, targets)),
        }
    }
}

// The places of the rows, those with fewer targets first.
fn places_by_size(alloc: Global, rows: &[PairRow]) -> Result<Vec<usize>, Memory>
    ensures within { IfOk result (λ places. All (λ k. k < length rows.now) places.items) }
    ensures all { IfOk result (λ places. (k : ℕ) → k < length rows.now → holds places.items k ≡ true) }
{
    let mut places = Vec::new(alloc);
    let mut counted = Vec::new(alloc);
    for (place, row) in rows.iter().enumerate() {
        counted.push((row.targets.as_slice().len(), place))?;
    }
    counted.sort_unstable();
    for pair in &counted {
        places.push(pair.1)?;
    }
    Ok(places)
}

/// Whether the property leads in one step to all that it leads to in two. The sets are room to work in.
///
/// Rows with few targets come first, so that of a row with many those that have most are done, and all else is covered. Of rows
/// with the same targets that come one after the other the first alone is tested.
pub(crate) fn is_transitive(
    alloc: Global,
    rows: &[PairRow],
    covered: &mut EpochSet,
    done: &mut EpochSet,
    property: PropId,
) -> Result<bool, Memory>
    requires { ArePairRows rows.now }
    ensures len { length covered.new ≡ length covered.old }
    ensures transitive { IfOk result (λ transitive. IsTrue transitive ↔ ((x : ℕ) → ClosedAt (map pair_row_of rows.now) property.0 x)) }
{
    done.clear();
    let items = rows_of(rows, property);
    let wide = wide_rows(alloc, rows, items.len(), &[property], done.len())?;
    let places = places_by_size(alloc, items)?;
    let mut last: &[u32] = &[];
    for place in &places {
        let row = &items[*place];
        let test = TransitivityTest {
            alloc,
            rows,
            wide: &wide,
            property,
            done: &*done,
        };
        if !test.is_row_closed(covered, last, row)? {
            return Ok(false);
        }
        last = row.targets.as_slice();
        done.put(row.source as usize);
    }
    Ok(true)
}
