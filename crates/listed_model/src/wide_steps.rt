//! Steps of a property whose rows with many targets are sets of numbers.
ghost use Rattle.certificate.specs.View.{pair_row_of};
ghost use Rattle.listed_model.specs.Listing.{targets_of};
ghost use Rattle.listed_model.specs.Members.{holds};
ghost use Rattle.listed_model.specs.Rows.{ArePairRows};
ghost use Rattle.listed_model.specs.TransitivityTests.{AreDone};
ghost use Rattle.listed_model.specs.WideRows.{AreWide, LeadsInto};
ghost use Rattle.number_sets.specs.Members.{has};
ghost use Rattle.std.specs.List.{list_all};
ghost use Rattle.std.specs.Prelude.{◌≡◌, ◌||◌, ◌↔◌, ◌⊎◌, IfOk, IfSome, IsTrue, length, map, true, ℕ};

use crate::rows::targets_at;
use crate::transitive::TransitivityTest;
use crate::wide::{WideRow, put_all, wide_at};
use axioms::{Memory, PropId};
use certificate::PairRow;
use number_sets::Row;
use std::alloc::Global;

// Whether each of the numbers is a member.
fn are_in(members: &Row, numbers: &[u32]) -> bool
    ensures { result ≡ list_all (has members.now) numbers.now }
{
    for number in numbers {
        if !members.contains(*number as usize) {
            return false;
        }
    }
    true
}

// Whether the ends are members. Where they are, and are to be covered, it adds them to what is covered.
fn list_within(ends: &[u32], covering: bool, covered: &mut Row, members: &Row) -> bool
    ensures len { length covered.new ≡ length covered.old }
    ensures within { IsTrue result ↔ ((y : ℕ) → holds ends.now y ≡ true → has members.now y ≡ true) }
    ensures covered { (y : ℕ) → has covered.new y ≡ true
        → (has covered.old y ≡ true) ⊎ ((result ≡ true) × (covering ≡ true) × (holds ends.now y ≡ true)) }
{
    if !are_in(members, ends) {
        return false;
    }
    if covering {
        put_all(covered, ends);
    }
    true
}

// Whether the ends are members. Where they are, and are to be covered, it adds them to what is covered.
fn set_within(ends: &Row, covering: bool, covered: &mut Row, members: &Row) -> bool
    requires ends { length ends.now ≡ length members.now }
    requires covered { length covered.old ≡ length members.now }
    ensures len { length covered.new ≡ length covered.old }
    ensures within { IsTrue result ↔ ((y : ℕ) → has ends.now y ≡ true → has members.now y ≡ true) }
    ensures covered { (y : ℕ) → has covered.new y ≡ true
        → (has covered.old y ≡ true) ⊎ ((result ≡ true) × (covering ≡ true) × (has ends.now y ≡ true)) }
{
    if !ends.is_subset(members) {
        return false;
    }
    if covering {
        covered.union(ends);
    }
    true
}

impl TransitivityTest<'_> {
    // Whether the property leads from the number to nothing but members. From what is done it leads in one step to all that it leads to
    // in two, so what it leads to from there is covered, and need not be looked at again.
    fn leads_into(&self, covered: &mut Row, number: u32, members: &Row) -> bool
        requires rows { ArePairRows self.now.rows.now }
        requires wide { AreWide (map pair_row_of self.now.rows.now) (length members.now) self.now.wide.now }
        requires done { AreDone self.now }
        requires len { length covered.old ≡ length members.now }
        requires covered { (y : ℕ) → has covered.old y ≡ true → LeadsInto (map pair_row_of self.now.rows.now) self.now.property.0 members.now y }
        ensures len { length covered.new ≡ length covered.old }
        ensures covered { (y : ℕ) → has covered.new y ≡ true → LeadsInto (map pair_row_of self.now.rows.now) self.now.property.0 members.now y }
        ensures into { IsTrue result ↔ LeadsInto (map pair_row_of self.now.rows.now) self.now.property.0 members.now number }
    {
        if covered.contains(number as usize) {
            return true;
        }
        let covering = self.done.contains(number as usize);
        match wide_at(self.wide, self.property, number) {
            Some(row) => set_within(&row.targets, covering, covered, members),
            None => list_within(
                targets_at(self.rows, self.property, number),
                covering,
                covered,
                members,
            ),
        }
    }

    /// Whether the property leads from each of the numbers to nothing but members.
    pub(crate) fn lead_into(&self, numbers: &[u32], members: &Row) -> Result<bool, Memory>
        requires rows { ArePairRows self.now.rows.now }
        requires wide { AreWide (map pair_row_of self.now.rows.now) (length members.now) self.now.wide.now }
        requires done { AreDone self.now }
        ensures { IfOk result (λ into. IsTrue into ↔ ((y : ℕ) → holds numbers.now y ≡ true → LeadsInto (map pair_row_of self.now.rows.now) self.now.property.0 members.now y)) }
    {
        let mut covered = Row::new(self.alloc, members.len())?;
        for number in numbers {
            if !self.leads_into(&mut covered, *number, members) {
                return Ok(false);
            }
        }
        Ok(true)
    }
}

/// Steps along properties: the rows of pairs, of which some with many targets are sets of numbers, too.
#[derive(Clone, Copy)]
pub(crate) struct Steps<'a> {
    pub alloc: Global,
    pub rows: &'a [PairRow],
    pub wide: &'a [WideRow],
}

impl Steps<'_> {
    // Adds what the property leads to from the source. Where one of these is out of the set's range, it says no.
    fn put_targets(&self, all: &mut Row, property: PropId, source: u32) -> bool
        requires rows { ArePairRows self.now.rows.now }
        requires wide { AreWide (map pair_row_of self.now.rows.now) (length all.old) self.now.wide.now }
        ensures len { length all.new ≡ length all.old }
        ensures all { IsTrue result → (y : ℕ) → has all.new y ≡ (has all.old y || holds (targets_of (map pair_row_of self.now.rows.now) property.0 source) y) }
    {
        match wide_at(self.wide, property, source) {
            Some(row) => {
                all.union(&row.targets);
                true
            }
            None => put_all(all, targets_at(self.rows, property, source)),
        }
    }

    /// What the property leads to from one of the sources, where all of that is below the bound.
    pub(crate) fn successor_set(
        &self,
        property: PropId,
        sources: &[u32],
        bound: usize,
    ) -> Result<Option<Row>, Memory>
        requires rows { ArePairRows self.now.rows.now }
        requires wide { AreWide (map pair_row_of self.now.rows.now) bound self.now.wide.now }
        ensures long { IfOk result (λ found. IfSome found (λ all. length all ≡ bound)) }
        ensures members { IfOk result (λ found. IfSome found (λ all. (y : ℕ) → (has all y ≡ true)
            ↔ ((x : ℕ) × (holds sources.now x ≡ true) × (holds (targets_of (map pair_row_of self.now.rows.now) property.0 x) y ≡ true)))) }
    {
        let mut all = Row::new(self.alloc, bound)?;
        for source in sources {
            if !self.put_targets(&mut all, property, *source) {
                return Ok(None);
            }
        }
        Ok(Some(all))
    }
}
