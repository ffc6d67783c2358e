//! Where the intervals of a listing begin.
ghost use Rattle.certificate.specs.View.{listed_of};
ghost use Rattle.narrowing.specs.Cut.{AreStarts, points_in, run_points, single_points};
ghost use Rattle.narrowing.specs.Points.{claim_points, class_points, pair_points, within};
ghost use Rattle.std.specs.Prelude.{◌≡◌, ◌++◌, ◌∷◌, [], IfOk, OnOk, suc};

use axioms::Memory;
use certificate::{Claim, ClassRow, Listed, PairRow};
use number_sets::sort_ascending;
use std::alloc::Global;

// Where the run begins, and where it has ended.
fn add_run(starts: &mut Vec<u32>, domain: u32, first: u32, last: u32) -> Result<(), Memory>
    ensures { OnOk result (starts.new.items ≡ starts.old.items ++ within domain (first ∷ suc last ∷ [])) }
{
    if 0 < first && first < domain {
        starts.push(first)?;
    }
    // The number behind the greatest of all is not below the domain.
    if last < domain && last + 1 < domain {
        starts.push(last + 1)?;
    }
    Ok(())
}

fn add_single_points(starts: &mut Vec<u32>, domain: u32, elements: &[u32]) -> Result<(), Memory>
    ensures { OnOk result (starts.new.items ≡ starts.old.items ++ within domain (single_points elements.now)) }
{
    for element in elements {
        add_run(starts, domain, *element, *element)?;
    }
    Ok(())
}

fn add_run_points(starts: &mut Vec<u32>, domain: u32, ends: &[u32]) -> Result<(), Memory>
    ensures { OnOk result (starts.new.items ≡ starts.old.items ++ within domain (run_points ends.now)) }
{
    for run in 0..ends.len() / 2 {
        let last = ends[2 * run];
        let first = ends[2 * run + 1];
        add_run(starts, domain, first, last.max(first))?;
    }
    Ok(())
}

fn add_points_in(starts: &mut Vec<u32>, domain: u32, elements: &[u32]) -> Result<(), Memory>
    ensures { OnOk result (starts.new.items ≡ starts.old.items ++ within domain (points_in elements.now)) }
{
    if elements.len() < 2 || elements[0] < elements[1] {
        add_single_points(starts, domain, elements)
    } else {
        add_run_points(starts, domain, elements)
    }
}

fn add_class_points(starts: &mut Vec<u32>, domain: u32, rows: &[ClassRow]) -> Result<(), Memory>
    ensures { OnOk result (starts.new.items ≡ starts.old.items ++ within domain (class_points rows.now)) }
{
    for row in rows {
        add_points_in(starts, domain, &row.elements)?;
    }
    Ok(())
}

fn add_pair_points(starts: &mut Vec<u32>, domain: u32, rows: &[PairRow]) -> Result<(), Memory>
    ensures { OnOk result (starts.new.items ≡ starts.old.items ++ within domain (pair_points rows.now)) }
{
    for row in rows {
        add_run(starts, domain, row.source, row.source)?;
        add_points_in(starts, domain, row.targets.as_slice())?;
    }
    Ok(())
}

fn add_claim_points(starts: &mut Vec<u32>, domain: u32, claims: &[Claim]) -> Result<(), Memory>
    ensures { OnOk result (starts.new.items ≡ starts.old.items ++ within domain (claim_points claims.now)) }
{
    for claim in claims {
        add_run(starts, domain, claim.element, claim.element)?;
    }
    Ok(())
}

/// Where all intervals of the domain begin but the first: wherever something that stands in a line begins or has ended.
///
/// It fails only where memory is refused.
pub(crate) fn starts_of(alloc: Global, rows: &Listed) -> Result<Vec<u32>, Memory>
    ensures { IfOk result (λ starts. AreStarts (listed_of rows.now) starts.items) }
{
    let mut starts = Vec::new(alloc);
    add_class_points(&mut starts, rows.domain, &rows.classes)?;
    add_pair_points(&mut starts, rows.domain, &rows.pairs)?;
    add_single_points(&mut starts, rows.domain, &rows.individuals)?;
    add_claim_points(&mut starts, rows.domain, &rows.claims)?;
    sort_ascending(&mut starts);
    Ok(starts)
}
