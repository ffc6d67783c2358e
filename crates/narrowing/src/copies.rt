//! Copies of listed interpretations.
ghost use Rattle.certificate.specs.View.{class_row_of, listed_of, pair_row_of};
ghost use Rattle.std.specs.Prelude.{◌≡◌, IfOk, map};

use axioms::Memory;
use certificate::{ClassRow, Listed, PairRow, Targets};
use std::alloc::Global;

fn copy_of_class(row: &ClassRow) -> Result<ClassRow, Memory>
    ensures { IfOk result (λ copy. class_row_of copy ≡ class_row_of row.now) }
{
    Ok(ClassRow {
        class: row.class,
        elements: row.elements.clone()?,
    })
}

fn copy_of_classes(alloc: Global, rows: &[ClassRow]) -> Result<Vec<ClassRow>, Memory>
    ensures { IfOk result (λ copy. map class_row_of copy.items ≡ map class_row_of rows.now) }
{
    let mut copy = Vec::new(alloc);
    for row in rows {
        copy.push(copy_of_class(row)?)?;
    }
    Ok(copy)
}

fn copy_of_pair(alloc: Global, row: &PairRow) -> Result<PairRow, Memory>
    ensures { IfOk result (λ copy. pair_row_of copy ≡ pair_row_of row.now) }
{
    Ok(PairRow {
        property: row.property,
        source: row.source,
        targets: Targets::from_slice(alloc, row.targets.as_slice())?,
    })
}

fn copy_of_pairs(alloc: Global, rows: &[PairRow]) -> Result<Vec<PairRow>, Memory>
    ensures { IfOk result (λ copy. map pair_row_of copy.items ≡ map pair_row_of rows.now) }
{
    let mut copy = Vec::new(alloc);
    for row in rows {
        copy.push(copy_of_pair(alloc, row)?)?;
    }
    Ok(copy)
}

/// The same interpretation again.
pub(crate) fn copy_of(alloc: Global, listed: &Listed) -> Result<Listed, Memory>
    ensures { IfOk result (λ copy. listed_of copy ≡ listed_of listed.now) }
{
    Ok(Listed {
        domain: listed.domain,
        classes: copy_of_classes(alloc, &listed.classes)?,
        pairs: copy_of_pairs(alloc, &listed.pairs)?,
        individuals: listed.individuals.clone()?,
        claims: listed.claims.clone()?,
    })
}
