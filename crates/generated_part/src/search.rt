//! What pairs lead to from some elements.
ghost use Rattle.generated_part.specs.Search.{IsFound, target_of};
ghost use Rattle.number_sets.specs.Members.{has};
ghost use Rattle.number_sets.specs.Search.{IsBounded};
ghost use Rattle.std.specs.Prelude.{◌<◌, ◌≡◌, ◌↔◌, ◌∷◌, All, IfOk, length, true, ℕ};

use axioms::{Memory, PropId};
use number_sets::{EpochSet, NumberSearch, PackedLists};
use std::alloc::Global;

/// The element before the others.
fn with_first(alloc: Global, first: usize, others: &[usize]) -> Result<Vec<usize>, Memory>
    ensures { IfOk result (λ v. v.items ≡ first ∷ others.now) }
{
    let mut elements = Vec::new(alloc);
    elements.push(first)?;
    elements.extend_from_slice(others)?;
    Ok(elements)
}

/// The set of these elements, of those that their pairs lead to, and so on.
///
/// # Errors
///
/// `Memory` where memory was refused.
pub(crate) fn reached(
    alloc: Global,
    pairs: &PackedLists<(PropId, usize)>,
    first: usize,
    others: &[usize],
) -> Result<EpochSet, Memory>
    requires bounded { IsBounded target_of pairs.now }
    requires first { first < length pairs.now }
    requires others { All (λ x. x < length pairs.now) others.now }
    ensures wide { IfOk result (λ s. length s ≡ length pairs.now) }
    ensures exact { IfOk result (λ s. (x : ℕ) → (has s x ≡ true) ↔ IsFound (first ∷ others.now) pairs.now x) }
{
    let starts = with_first(alloc, first, others)?;
    let mut search = NumberSearch::new(alloc, pairs.len())?;
    search.run(pairs, &starts)?;
    Ok(search.seen)
}
