//! The elements that a property joins to others.
ghost use Rattle.certificate.specs.View.{pair_row_of};
ghost use Rattle.listed_model.specs.Members.{holds};
ghost use Rattle.listed_model.specs.Rows.{AreHolders, ArePairRows, IsHolders, IsSourceAmong, Joined};
ghost use Rattle.number_sets.specs.Pieces.{list_at};
ghost use Rattle.number_sets.specs.Transposition.{copies};
ghost use Rattle.std.specs.List.Sorted.{IsStrictlyIncreasing};
ghost use Rattle.std.specs.Prelude.{◌<◌, ◌≡◌, ◌↔◌, ◌⊎◌, ◌++◌, All, IfOk, IfSome, OnOk, length, map, true, ℕ};

use crate::ascending::{between, put_in_order};
use crate::meeting::have_common;
use crate::rows::{end_of, rows_of, start_of};
use axioms::{Memory, PropId};
use certificate::PairRow;
use number_sets::{OpenLists, PackedLists};
use std::alloc::Global;

// Adds the place at the end of the list of each of the targets.
fn add_place(lists: &mut OpenLists, targets: &[u32], place: u32) -> Result<(), Memory>
    ensures len { OnOk result (length lists.new ≡ length lists.old) }
    ensures each { OnOk result ((y : ℕ) → y < length lists.old → list_at lists.new y ≡ list_at lists.old y ++ copies place y targets.now) }
{
    for target in targets {
        lists.push(*target as usize, place)?;
    }
    Ok(())
}

/// For each element the places of the rows that have it among their targets, ascending. It fails where memory is refused, or where
/// there are 2^32 rows.
pub(crate) fn holders_of(
    alloc: Global,
    rows: &[PairRow],
    domain: u32,
) -> Result<PackedLists, Memory>
    ensures { IfOk result (λ holders. AreHolders rows.now domain holders) }
{
    if rows.len() > u32::MAX as usize {
        return Err(Memory);
    }
    let mut lists = OpenLists::new(alloc, domain as usize)?;
    for (place, row) in rows.iter().enumerate() {
        add_place(&mut lists, row.targets.as_slice(), place as u32)?;
    }
    Ok(lists.packed(alloc)?)
}

// Adds the sources of the rows at the places.
fn add_sources(sources: &mut Vec<u32>, rows: &[PairRow], places: &[u32]) -> Result<(), Memory>
    requires { All (λ k. k < length rows.now) places.now }
    ensures { OnOk result ((x : ℕ) → (holds sources.new.items x ≡ true) ↔ ((holds sources.old.items x ≡ true) ⊎ IsSourceAmong rows.now places.now x)) }
{
    for place in places {
        let row = &rows[*place as usize];
        sources.push(row.source)?;
    }
    Ok(())
}

/// How many pairs the rows have.
pub(crate) fn pair_count(rows: &[PairRow]) -> usize {
    let mut count: usize = 0;
    for row in rows {
        count = count.saturating_add(row.targets.as_slice().len());
    }
    count
}

/// Takes the steps from those that are left, if there are so many.
pub(crate) fn take_steps(left: &mut usize, steps: usize) -> bool {
    if steps > *left {
        return false;
    }
    *left -= steps;
    true
}

/// Rows of pairs, and for each element the places of those that have it among their targets.
#[derive(Clone, Copy)]
pub(crate) struct Pairs<'a> {
    pub alloc: Global,
    pub rows: &'a [PairRow],
    pub holders: &'a PackedLists,
}

impl Pairs<'_> {
    // The elements that the property joins to one of the fillers, by the fillers; none where more rows than the most have
    // fillers, each counted once for each filler. The rows of the property stand together, so of the places of a filler's rows those that
    // are of the property do, too.
    fn by_fillers(
        &self,
        property: PropId,
        fillers: &[u32],
        most: usize,
    ) -> Result<Option<Vec<u32>>, Memory>
        requires rows { ArePairRows self.now.rows.now }
        requires holders { (y : ℕ) → holds fillers.now y ≡ true → IsHolders self.now.rows.now y (list_at self.now.holders.now y) }
        ensures { IfOk result (λ found. IfSome found (λ sources. (x : ℕ) → (holds sources.items x ≡ true) ↔ Joined (map pair_row_of self.now.rows.now) property.0 fillers.now x)) }
    {
        let start = start_of(self.rows, property);
        let end = end_of(self.rows, property);
        let mut sources = Vec::new(self.alloc);
        for filler in fillers {
            let places = between(self.holders.at(*filler as usize), start, end);
            add_sources(&mut sources, self.rows, places)?;
            if sources.len() > most {
                return Ok(None);
            }
        }
        Ok(Some(sources))
    }

    // The elements that the property joins to one of the fillers, by the rows of the property.
    fn by_rows(&self, property: PropId, fillers: &[u32]) -> Result<Vec<u32>, Memory>
        requires rows { ArePairRows self.now.rows.now }
        requires fillers { IsStrictlyIncreasing fillers.now }
        ensures { IfOk result (λ sources. (x : ℕ) → (holds sources.items x ≡ true) ↔ Joined (map pair_row_of self.now.rows.now) property.0 fillers.now x) }
    {
        let mut sources = Vec::new(self.alloc);
        for row in rows_of(self.rows, property) {
            if have_common(row.targets.as_slice(), fillers) {
                sources.push(row.source)?;
            }
        }
        Ok(sources)
    }

    // The elements that the property joins to one of the fillers, by what is less work.
    fn by_either(&self, property: PropId, fillers: &[u32]) -> Result<Vec<u32>, Memory>
        requires rows { ArePairRows self.now.rows.now }
        requires fillers { IsStrictlyIncreasing fillers.now }
        requires holders { (y : ℕ) → holds fillers.now y ≡ true → IsHolders self.now.rows.now y (list_at self.now.holders.now y) }
        ensures { IfOk result (λ sources. (x : ℕ) → (holds sources.items x ≡ true) ↔ Joined (map pair_row_of self.now.rows.now) property.0 fillers.now x) }
    {
        let most = rows_of(self.rows, property).len();
        if fillers.len() < most {
            if let Some(sources) = self.by_fillers(property, fillers, most)? {
                return Ok(sources);
            }
        }
        self.by_rows(property, fillers)
    }

    /// The elements that the property joins to one of the fillers, ascending.
    pub(crate) fn restriction(&self, property: PropId, fillers: &[u32]) -> Result<Vec<u32>, Memory>
        requires rows { ArePairRows self.now.rows.now }
        requires fillers { IsStrictlyIncreasing fillers.now }
        requires holders { (y : ℕ) → holds fillers.now y ≡ true → IsHolders self.now.rows.now y (list_at self.now.holders.now y) }
        ensures ascending { IfOk result (λ sources. IsStrictlyIncreasing sources.items) }
        ensures members { IfOk result (λ sources. (x : ℕ) → (holds sources.items x ≡ true) ↔ Joined (map pair_row_of self.now.rows.now) property.0 fillers.now x) }
    {
        let mut sources = self.by_either(property, fillers)?;
        put_in_order(&mut sources);
        Ok(sources)
    }

    // The elements that the property joins to one of the fillers, if the steps that are left list them. Going over rows takes at most as
    // many as they have pairs.
    fn few_by_either(
        &self,
        property: PropId,
        fillers: &[u32],
        left: &mut usize,
    ) -> Result<Option<Vec<u32>>, Memory>
        requires rows { ArePairRows self.now.rows.now }
        requires fillers { IsStrictlyIncreasing fillers.now }
        requires holders { (y : ℕ) → holds fillers.now y ≡ true → IsHolders self.now.rows.now y (list_at self.now.holders.now y) }
        ensures { IfOk result (λ found. IfSome found (λ sources. (x : ℕ) → (holds sources.items x ≡ true) ↔ Joined (map pair_row_of self.now.rows.now) property.0 fillers.now x)) }
    {
        let own = rows_of(self.rows, property);
        let most = own.len().saturating_mul(4);
        if fillers.len() < own.len() && take_steps(left, fillers.len()) {
            if let Some(sources) = self.by_fillers(property, fillers, most)? {
                return Ok(Some(sources));
            }
            *left = left.saturating_sub(most);
        }
        if !take_steps(left, own.len()) || !take_steps(left, pair_count(own)) {
            return Ok(None);
        }
        let sources = self.by_rows(property, fillers)?;
        Ok(Some(sources))
    }

    /// The elements that the property joins to one of the fillers, ascending, if the steps that are left list them. Of these go what it
    /// takes, and one for each element.
    pub(crate) fn few_sources(
        &self,
        property: PropId,
        fillers: &[u32],
        left: &mut usize,
    ) -> Result<Option<Vec<u32>>, Memory>
        requires rows { ArePairRows self.now.rows.now }
        requires fillers { IsStrictlyIncreasing fillers.now }
        requires holders { (y : ℕ) → holds fillers.now y ≡ true → IsHolders self.now.rows.now y (list_at self.now.holders.now y) }
        ensures { IfOk result (λ found. IfSome found (λ sources. IsStrictlyIncreasing sources.items
            × ((x : ℕ) → (holds sources.items x ≡ true) ↔ Joined (map pair_row_of self.now.rows.now) property.0 fillers.now x))) }
    {
        let Some(mut sources) = self.few_by_either(property, fillers, left)? else {
            return Ok(None);
        };
        *left = left.saturating_sub(sources.len());
        put_in_order(&mut sources);
        *left = left.saturating_sub(sources.len());
        Ok(Some(sources))
    }
}
