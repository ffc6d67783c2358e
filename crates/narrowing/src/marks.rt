//! Whether each element of a listing stands in a line, seen by marks and without a list of them all.
ghost use Rattle.certificate.specs.View.{listed_of, targets_in};
ghost use Rattle.narrowing.specs.Gathered.{claim_elements, class_elements, elements_of_lines, pair_elements};
ghost use Rattle.narrowing.specs.Marked.{marked};
ghost use Rattle.narrowing.specs.Narrowed.{StandsIn};
ghost use Rattle.std.specs.Prelude.{◌-◌, ◌<◌, ◌^◌, ◌≡◌, ◌↔◌, ◌∷◌, All, IfOk, IsTrue, length, min, true, ℕ};

use axioms::Memory;
use certificate::{Claim, ClassRow, Listed, PairRow};
use number_sets::Row;
use std::alloc::Global;

fn count_class_elements(rows: &[ClassRow]) -> usize
    ensures { result ≡ min (length (class_elements rows.now)) (2 ^ 64 - 1) }
{
    let mut count: usize = 0;
    for row in rows {
        count = count.saturating_add(row.elements.len());
    }
    count
}

fn count_pair_elements(rows: &[PairRow]) -> usize
    ensures { result ≡ min (length (pair_elements rows.now)) (2 ^ 64 - 1) }
{
    let mut count: usize = 0;
    for row in rows {
        count = count
            .saturating_add(1)
            .saturating_add(row.targets.as_slice().len());
    }
    count
}

/// How many numbers of elements stand in the lines, each as often as it stands there.
pub(crate) fn count_of(listed: &Listed) -> usize
    ensures { result ≡ min (length (elements_of_lines listed.now)) (2 ^ 64 - 1) }
{
    count_class_elements(&listed.classes)
        .saturating_add(count_pair_elements(&listed.pairs))
        .saturating_add(listed.individuals.len())
        .saturating_add(listed.claims.len())
}

// Marks the elements. Says whether all of them are in range; if not, some may be left out.
fn mark_elements(row: &mut Row, elements: &[u32]) -> bool
    ensures in_range { IsTrue result ↔ All (λ x. x < length row.old) elements.now }
    ensures after { IsTrue result → row.new ≡ marked row.old elements.now }
{
    for element in elements {
        if !row.put(*element as usize) {
            return false;
        }
    }
    true
}

fn mark_classes(row: &mut Row, classes: &[ClassRow]) -> bool
    ensures in_range { IsTrue result ↔ All (λ x. x < length row.old) (class_elements classes.now) }
    ensures after { IsTrue result → row.new ≡ marked row.old (class_elements classes.now) }
{
    for class in classes {
        if !mark_elements(row, &class.elements) {
            return false;
        }
    }
    true
}

fn mark_pair(row: &mut Row, pair: &PairRow) -> bool
    ensures in_range { IsTrue result ↔ All (λ x. x < length row.old) (pair.now.source ∷ targets_in pair.now.targets) }
    ensures after { IsTrue result → row.new ≡ marked row.old (pair.now.source ∷ targets_in pair.now.targets) }
{
    row.put(pair.source as usize) && mark_elements(row, pair.targets.as_slice())
}

fn mark_pairs(row: &mut Row, pairs: &[PairRow]) -> bool
    ensures in_range { IsTrue result ↔ All (λ x. x < length row.old) (pair_elements pairs.now) }
    ensures after { IsTrue result → row.new ≡ marked row.old (pair_elements pairs.now) }
{
    for pair in pairs {
        if !mark_pair(row, pair) {
            return false;
        }
    }
    true
}

fn mark_claims(row: &mut Row, claims: &[Claim]) -> bool
    ensures in_range { IsTrue result ↔ All (λ x. x < length row.old) (claim_elements claims.now) }
    ensures after { IsTrue result → row.new ≡ marked row.old (claim_elements claims.now) }
{
    for claim in claims {
        if !row.put(claim.element as usize) {
            return false;
        }
    }
    true
}

fn mark_lines(row: &mut Row, listed: &Listed) -> bool
    ensures in_range { IsTrue result ↔ All (λ x. x < length row.old) (elements_of_lines listed.now) }
    ensures after { IsTrue result → row.new ≡ marked row.old (elements_of_lines listed.now) }
{
    if !mark_classes(row, &listed.classes) {
        return false;
    }
    if !mark_pairs(row, &listed.pairs) {
        return false;
    }
    if !mark_elements(row, &listed.individuals) {
        return false;
    }
    mark_claims(row, &listed.claims)
}

/// Whether the elements that stand in lines are those of the domain.
///
/// The memory that it takes goes by the lines, and never by the domain alone.
pub(crate) fn stands_in_each(alloc: Global, listed: &Listed) -> Result<bool, Memory>
    ensures { IfOk result (λ each. IsTrue each ↔ ((x : ℕ) → StandsIn (listed_of listed.now) x ↔ x < listed.now.domain)) }
{
    let domain = listed.domain as usize;
    if domain > count_of(listed) {
        return Ok(false);
    }
    let mut row = Row::new(alloc, domain)?;
    if !mark_lines(&mut row, listed) {
        return Ok(false);
    }
    Ok(row.count() == row.len())
}
