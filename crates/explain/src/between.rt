//! How forms make two individuals one.
ghost use Rattle.axioms.specs.declared.ids.IndId.{IndId as Ind};
ghost use Rattle.explain.specs.Paths.{IsChain};
ghost use Rattle.explain.specs.Search.{AreLeadsWithin, LeadsOver};
ghost use Rattle.facts.specs.Closure.{AreSame};
ghost use Rattle.number_sets.specs.Members.{has};
ghost use Rattle.std.specs.Prelude.{◌≡◌, ◌≤◌, ◌<◌, ◌^◌, Contains, IfOk, MatchOption, false, true};

use crate::reached::Reached;
use crate::told::all_links;
use crate::walk::{place_of, walk};
use axioms::{IndId, Memory};
use indexes::IndexedProblem;
use number_sets::{EpochSet, NumberSearch};
use std::alloc::Global;

// The first of these individuals that was seen.
fn first_seen(seen: &EpochSet, individuals: &[IndId]) -> Option<IndId>
    ensures { MatchOption result ((i : Ind) → Contains individuals.now i → has seen.now i.0 ≡ false) (λ i. Contains individuals.now i × (has seen.now i.0 ≡ true)) }
{
    for individual in individuals {
        if seen.contains(individual.index()) {
            return Some(*individual);
        }
    }
    None
}

/// The numbers of forms that make the individual one with the first of the others that is one with it, each from where the one before
/// it ends; `None` where none do.
///
/// # Errors
///
/// `Memory` where memory was refused.
pub(crate) fn chain_to_one(
    alloc: Global,
    individuals: usize,
    problem: &IndexedProblem,
    first: IndId,
    others: &[IndId],
) -> Result<Option<Vec<u32>>, Memory>
    requires numbers { individuals ≤ 2 ^ 32 }
    requires within { AreLeadsWithin individuals (LeadsOver problem.now.forms) }
    requires there { first.0 < individuals }
    ensures { IfOk result (λ found. MatchOption found ((i : Ind) → Contains others.now i → AreSame problem.now.forms first i → ⊥) (λ v. (i : Ind) × Contains others.now i × IsChain problem.now.forms first v.items i)) }
{
    let links = all_links(alloc, individuals, problem)?;
    let mut search = NumberSearch::new(alloc, individuals)?;
    let start = Reached {
        number: first.0,
        way: None,
    };
    search.run(&links, &[start])?;
    let Some(last) = first_seen(&search.seen, others) else {
        return Ok(None);
    };
    let Some(place) = place_of(&search.found, last.0) else {
        // What was seen was found.
        unreachable!()
    };
    Ok(Some(walk(alloc, &search.found, place)?))
}
