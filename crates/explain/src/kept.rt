//! Marked lines, with premises by the numbers that they then have.
ghost use Rattle.certificate.specs.View.{lines_of};
ghost use Rattle.std.specs.Prelude.{◌<◌, ◌≤◌, ◌≡◌, All, Contains, IfOk, Some, length, map, slice_get, suc, ℕ};
ghost use Rattle.explain.specs.LineMarks.{AreKept, ArePremisesMarked};

use axioms::Memory;
use certificate::Line;
use number_sets::Row;
use std::alloc::Global;

// The new numbers of lines, which are counted from 1.
fn renumbered(alloc: Global, places: &[u64], numbers: &[u64]) -> Result<Vec<u64>, Memory>
    requires { All (λ n. (0 < n) × (n ≤ length places.now)) numbers.now }
    ensures { IfOk result
        (λ v. (new : ℕ → ℕ) → ((n : ℕ) → Contains numbers.now (suc n) → slice_get places.now n ≡ Some (new (suc n))) → v.items ≡ map new numbers.now) }
{
    let mut renumbered = Vec::new(alloc);
    for number in numbers {
        renumbered.push(places[(*number - 1) as usize])?;
    }
    Ok(renumbered)
}

/// The marked lines, in their order, each premise by the number that its line then has.
///
/// # Errors
///
/// `Memory` where memory was refused.
pub(crate) fn kept(alloc: Global, lines: &[Line], marks: &Row) -> Result<Vec<Line>, Memory>
    requires within { length marks.now ≤ length lines.now }
    requires marked { ArePremisesMarked (lines_of lines.now) marks.now }
    ensures { IfOk result (λ v. AreKept (lines_of lines.now) marks.now (lines_of v.items)) }
{
    let mut kept = Vec::new(alloc);
    let mut places = Vec::new(alloc);
    for place in 0..marks.len() {
        if marks.contains(place) {
            let line = &lines[place];
            let premises = renumbered(alloc, &places, &line.premises)?;
            kept.push(Line {
                conclusion: line.conclusion,
                rule: line.rule,
                axiom: line.axiom,
                premises,
            })?;
        }
        places.push(kept.len() as u64)?;
    }
    Ok(kept)
}
