//! Paths along properties.
ghost use Rattle.axioms.specs.View.{prop_numbers};
ghost use Rattle.certificate.specs.View.{pair_row_of};
ghost use Rattle.listed_model.specs.Listing.{targets_of};
ghost use Rattle.listed_model.specs.Members.{holds};
ghost use Rattle.listed_model.specs.Rows.{AreEnds, ArePairRows, HasListedPath};
ghost use Rattle.listed_model.specs.WideRows.{AreWide};
ghost use Rattle.number_sets.specs.Members.{has};
ghost use Rattle.std.specs.Prelude.{◌<◌, ◌≡◌, ◌^◌, ◌||◌, ◌↔◌, IfOk, IsTrue, OnOk, length, map, true, ℕ};

use crate::ascending::are_within;
use crate::rows::{rows_of, targets_at};
use crate::wide::{wide_at, wide_rows};
use crate::wide_steps::Steps;
use axioms::{Memory, PropId};
use certificate::PairRow;
use number_sets::{EpochSet, Row};
use std::alloc::Global;

// Adds those of the numbers that are not in the list. The set has members of the list alone.
fn add_new(found: &mut Vec<u32>, seen: &mut EpochSet, numbers: &[u32]) -> Result<(), Memory>
    requires { (y : ℕ) → has seen.old y ≡ true → holds found.old.items y ≡ true }
    ensures seen { OnOk result ((y : ℕ) → has seen.new y ≡ true → holds found.new.items y ≡ true) }
    ensures len { length seen.new ≡ length seen.old }
    ensures added { OnOk result ((y : ℕ) → holds found.new.items y ≡ (holds found.old.items y || holds numbers.now y)) }
{
    for number in numbers {
        let place = *number as usize;
        if !seen.contains(place) {
            seen.put(place);
            found.push(*number)?;
        }
    }
    Ok(())
}

// The members of the set.
fn members_of(alloc: Global, set: &Row) -> Result<Vec<u32>, Memory>
    requires { length set.now < 2 ^ 32 }
    ensures { IfOk result (λ members. (y : ℕ) → holds members.items y ≡ has set.now y) }
{
    let mut members = Vec::new(alloc);
    for number in 0..set.len() {
        if set.contains(number) {
            members.push(number as u32)?;
        }
    }
    Ok(members)
}

impl Steps<'_> {
    // What the property leads to from one of the sources, by the lists of their targets. The set is room to work in.
    fn listed_successors(
        &self,
        seen: &mut EpochSet,
        property: PropId,
        sources: &[u32],
    ) -> Result<Vec<u32>, Memory>
        requires { ArePairRows self.now.rows.now }
        ensures len { length seen.new ≡ length seen.old }
        ensures members { IfOk result (λ found. (y : ℕ) → (holds found.items y ≡ true)
            ↔ ((x : ℕ) × (holds sources.now x ≡ true) × (holds (targets_of (map pair_row_of self.now.rows.now) property.0 x) y ≡ true))) }
    {
        seen.clear();
        let mut found = Vec::new(self.alloc);
        for source in sources {
            add_new(&mut found, seen, targets_at(self.rows, property, *source))?;
        }
        Ok(found)
    }

    // What the property leads to from one of the sources. The set is room to work in.
    fn successors(
        &self,
        seen: &mut EpochSet,
        property: PropId,
        sources: &[u32],
    ) -> Result<Vec<u32>, Memory>
        requires rows { ArePairRows self.now.rows.now }
        requires wide { AreWide (map pair_row_of self.now.rows.now) (length seen.old) self.now.wide.now }
        ensures len { length seen.new ≡ length seen.old }
        ensures members { IfOk result (λ found. (y : ℕ) → (holds found.items y ≡ true)
            ↔ ((x : ℕ) × (holds sources.now x ≡ true) × (holds (targets_of (map pair_row_of self.now.rows.now) property.0 x) y ≡ true))) }
    {
        let wide = self.wide;
        let bound = seen.len();
        let some_wide = sources
            .iter()
            .any(|source| wide_at(wide, property, *source).is_some());
        if some_wide && bound <= u32::MAX as usize {
            if let Some(set) = self.successor_set(property, sources, bound)? {
                return members_of(self.alloc, &set);
            }
        }
        self.listed_successors(seen, property, sources)
    }
}

// Paths along a chain of properties.
#[derive(Clone, Copy)]
struct Paths<'a> {
    steps: Steps<'a>,
    chain: &'a [PropId],
}

impl Paths<'_> {
    // The ends of the paths along the chain from one of the sources. The set is room to work in.
    fn ends_of(&self, seen: &mut EpochSet, sources: &[u32]) -> Result<Vec<u32>, Memory>
        requires rows { ArePairRows self.now.steps.rows.now }
        requires wide { AreWide (map pair_row_of self.now.steps.rows.now) (length seen.old) self.now.steps.wide.now }
        ensures len { length seen.new ≡ length seen.old }
        ensures members { IfOk result (λ ends. AreEnds (map pair_row_of self.now.steps.rows.now) (prop_numbers self.now.chain.now) sources.now ends.items) }
    {
        let mut ends = Vec::from_slice(self.steps.alloc, sources)?;
        for property in self.chain {
            ends = self.steps.successors(seen, *property, &ends)?;
        }
        Ok(ends)
    }

    // The ends of the paths along the chain from one of the sources, where those from one of the last sources are known. The set is room
    // to work in.
    fn next_ends(
        &self,
        seen: &mut EpochSet,
        last: &[u32],
        ends: Vec<u32>,
        sources: &[u32],
    ) -> Result<Vec<u32>, Memory>
        requires rows { ArePairRows self.now.steps.rows.now }
        requires wide { AreWide (map pair_row_of self.now.steps.rows.now) (length seen.old) self.now.steps.wide.now }
        requires last { AreEnds (map pair_row_of self.now.steps.rows.now) (prop_numbers self.now.chain.now) last.now ends.items }
        ensures len { length seen.new ≡ length seen.old }
        ensures members { IfOk result (λ next. AreEnds (map pair_row_of self.now.steps.rows.now) (prop_numbers self.now.chain.now) sources.now next.items) }
    {
        if sources == last {
            return Ok(ends);
        }
        self.ends_of(seen, sources)
    }
}

/// Whether each path along the chain is a pair of the property above. The set is room to work in.
pub(crate) fn is_chain_within<'a>(
    alloc: Global,
    rows: &'a [PairRow],
    seen: &mut EpochSet,
    chain: &'a [PropId],
    above: PropId,
) -> Result<bool, Memory>
    requires rows { ArePairRows rows.now }
    requires some { 0 < length chain.now }
    ensures len { length seen.new ≡ length seen.old }
    ensures within { IfOk result (λ within. IsTrue within ↔ ((x y : ℕ) → HasListedPath (map pair_row_of rows.now) (prop_numbers chain.now) x y
        → holds (targets_of (map pair_row_of rows.now) above.0 x) y ≡ true)) }
{
    let first = chain[0];
    let rest = &chain[1..];
    let items = rows_of(rows, first);
    let wide = wide_rows(alloc, rows, items.len(), rest, seen.len())?;
    let paths = Paths {
        steps: Steps {
            alloc,
            rows,
            wide: &wide,
        },
        chain: rest,
    };
    let mut last: &[u32] = &[];
    let mut ends = Vec::new(alloc);
    for row in items {
        let sources = row.targets.as_slice();
        ends = paths.next_ends(seen, last, ends, sources)?;
        last = sources;
        if !are_within(&ends, targets_at(rows, above, row.source)) {
            return Ok(false);
        }
    }
    Ok(true)
}
