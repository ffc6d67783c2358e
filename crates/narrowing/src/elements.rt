//! The elements that stand in the lines of a listing.
ghost use Rattle.certificate.specs.View.{listed_of};
ghost use Rattle.certificate.specs.Writability.{Ascends};
ghost use Rattle.narrowing.specs.Gathered.{claim_elements, class_elements, elements_of_lines, pair_elements};
ghost use Rattle.narrowing.specs.Narrowed.{StandsIn};
ghost use Rattle.std.specs.Prelude.{◌≡◌, ◌++◌, ◌↔◌, Contains, IfOk, OnOk, ℕ};

use axioms::Memory;
use certificate::{Claim, ClassRow, Listed, PairRow};
use number_sets::sort_ascending;
use std::alloc::Global;

fn add_class_elements(elements: &mut Vec<u32>, rows: &[ClassRow]) -> Result<(), Memory>
    ensures { OnOk result (elements.new.items ≡ elements.old.items ++ class_elements rows.now) }
{
    for row in rows {
        elements.extend_from_slice(&row.elements)?;
    }
    Ok(())
}

fn add_pair_elements(elements: &mut Vec<u32>, rows: &[PairRow]) -> Result<(), Memory>
    ensures { OnOk result (elements.new.items ≡ elements.old.items ++ pair_elements rows.now) }
{
    for row in rows {
        elements.push(row.source)?;
        elements.extend_from_slice(row.targets.as_slice())?;
    }
    Ok(())
}

fn add_claim_elements(elements: &mut Vec<u32>, claims: &[Claim]) -> Result<(), Memory>
    ensures { OnOk result (elements.new.items ≡ elements.old.items ++ claim_elements claims.now) }
{
    for claim in claims {
        elements.push(claim.element)?;
    }
    Ok(())
}

// The elements of each line, as often as they stand there.
fn elements_of_lines(alloc: Global, listed: &Listed) -> Result<Vec<u32>, Memory>
    ensures { IfOk result (λ elements. elements.items ≡ elements_of_lines listed.now) }
{
    let mut elements = Vec::new(alloc);
    add_class_elements(&mut elements, &listed.classes)?;
    add_pair_elements(&mut elements, &listed.pairs)?;
    elements.extend_from_slice(&listed.individuals)?;
    add_claim_elements(&mut elements, &listed.claims)?;
    Ok(elements)
}

/// The elements that stand in a line, in ascending order, each once.
pub(crate) fn used_elements(alloc: Global, listed: &Listed) -> Result<Vec<u32>, Memory>
    ensures ascend { IfOk result (λ used. Ascends used.items) }
    ensures exact { IfOk result (λ used. (x : ℕ) → Contains used.items x ↔ StandsIn (listed_of listed.now) x) }
{
    let mut elements = elements_of_lines(alloc, listed)?;
    sort_ascending(&mut elements);
    Ok(elements)
}
