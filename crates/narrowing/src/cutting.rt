//! Listings cut into intervals, of which each becomes one element.
ghost use Rattle.axioms.specs.Ontology.{Ontology};
ghost use Rattle.axioms.specs.WellFormedness.{IsOntology};
ghost use Rattle.certificate.specs.View.{listed_of, listing_of};
ghost use Rattle.certificate.specs.Writability.{IsListedOf};
ghost use Rattle.narrowing.specs.Cut.{AreStarts, cut_at};
ghost use Rattle.narrowing.specs.FoldedListing.{IsFoldedListing};
ghost use Rattle.narrowing.specs.Gathered.{elements_of_lines};
ghost use Rattle.std.specs.Prelude.{◌+◌, ◌*◌, ◌≡◌, ◌≤◌, IfOk, length};

use crate::marks::count_of;
use crate::numbering::Intervals;
use crate::renumbering::renumber;
use crate::starts::starts_of;
use axioms::Memory;
use certificate::{ClassRow, ListedRuns, MOST_ELEMENTS, PairRow};
use std::alloc::Global;

// The listing with each element by its interval.
fn cut(starts: Vec<u32>, listed: ListedRuns) -> ListedRuns
    requires { AreStarts (listed_of listed.rows) starts.items }
    ensures { listed_of result.rows ≡ cut_at starts.items (listed_of listed.rows) }
{
    let mut listed = listed;
    let intervals = Intervals { starts };
    listed.rows.domain = intervals.starts.len() as u32 + 1;
    renumber(&intervals, &mut listed.rows);
    listed
}

// How many elements the runs have of which the list has the ends; none where it has elements themselves.
fn count_in_runs(numbers: &[u32]) -> usize {
    let mut count: usize = 0;
    if numbers.len() < 2 || numbers[0] < numbers[1] {
        return count;
    }
    for run in 0..numbers.len() / 2 {
        let length = numbers[2 * run].saturating_sub(numbers[2 * run + 1]) as usize + 1;
        count = count.saturating_add(length);
    }
    count
}

fn count_in_class_runs(rows: &[ClassRow]) -> usize {
    let mut count: usize = 0;
    for row in rows {
        count = count.saturating_add(count_in_runs(&row.elements));
    }
    count
}

fn count_in_pair_runs(rows: &[PairRow]) -> usize {
    let mut count: usize = 0;
    for row in rows {
        count = count.saturating_add(count_in_runs(row.targets.as_slice()));
    }
    count
}

// How many elements may be in runs where so many numbers stand in the lines: a few times as many, or they are cut first.
fn may_be_in_runs(numbers: usize) -> usize {
    numbers.saturating_mul(16).min(MOST_ELEMENTS)
}

/// The listing with no more elements than twice the numbers that stand in its lines, and one: where it has more, or where its
/// runs have many times as many elements, neighbours of which its lines say the same are one element.
///
/// What it lists is folded onto what the listing given back lists. It fails only where memory is refused, and the memory that it takes
/// goes by the lines, and never by the domain alone.
pub fn folded(alloc: Global, listed: ListedRuns) -> Result<ListedRuns, Memory>
    ensures folded { IfOk result (λ folded. (o : Ontology) → IsOntology o → IsListedOf o (listing_of listed) → IsFoldedListing o (listing_of listed) (listing_of folded)) }
    ensures few { IfOk result (λ folded. folded.rows.domain ≤ 2 * length (elements_of_lines listed.rows) + 1) }
{
    let numbers = count_of(&listed.rows);
    let most = numbers.saturating_mul(2).saturating_add(1);
    let in_runs = count_in_class_runs(&listed.rows.classes).saturating_add(count_in_pair_runs(
        &listed.rows.pairs,
    ));
    if listed.rows.domain as usize <= most && in_runs <= may_be_in_runs(numbers) {
        return Ok(listed);
    }
    let starts = starts_of(alloc, &listed.rows)?;
    Ok(cut(starts, listed))
}
