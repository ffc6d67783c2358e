//! Lines with each element renumbered.
ghost use Rattle.certificate.specs.View.{claim_of, class_row_of, listed_of, pair_row_of, targets_in};
ghost use Rattle.narrowing.specs.Renumbered.{renumbered_by, renumbered_claim, renumbered_class, renumbered_pairs};
ghost use Rattle.std.specs.Prelude.{◌≡◌, map};

use crate::numbering::Numbering;
use certificate::{Claim, ClassRow, Listed, PairRow, Targets};

fn renumber_elements<N: Numbering>(numbering: &N, elements: &mut [u32])
    ensures { elements.new ≡ map (N.number numbering.now) elements.old }
{
    for element in elements.iter_mut() {
        *element = numbering.number_of(*element);
    }
}

fn renumber_class<N: Numbering>(numbering: &N, row: &mut ClassRow)
    ensures { class_row_of row.new ≡ renumbered_class (N.number numbering.now) (class_row_of row.old) }
{
    renumber_elements(numbering, &mut row.elements);
}

fn renumber_classes<N: Numbering>(numbering: &N, rows: &mut Vec<ClassRow>)
    ensures { map class_row_of rows.new.items ≡ map (renumbered_class (N.number numbering.now)) (map class_row_of rows.old.items) }
{
    for row in rows.iter_mut() {
        renumber_class(numbering, row);
    }
}

fn renumber_targets<N: Numbering>(numbering: &N, targets: &mut Targets)
    ensures { targets_in targets.new ≡ map (N.number numbering.now) (targets_in targets.old) }
{
    match targets {
        Targets::One(target) => *target = numbering.number_of(*target),
        Targets::Many(targets) => renumber_elements(numbering, targets),
    }
}

fn renumber_pair<N: Numbering>(numbering: &N, row: &mut PairRow)
    ensures { pair_row_of row.new ≡ renumbered_pairs (N.number numbering.now) (pair_row_of row.old) }
{
    row.source = numbering.number_of(row.source);
    renumber_targets(numbering, &mut row.targets);
}

fn renumber_pairs<N: Numbering>(numbering: &N, rows: &mut Vec<PairRow>)
    ensures { map pair_row_of rows.new.items ≡ map (renumbered_pairs (N.number numbering.now)) (map pair_row_of rows.old.items) }
{
    for row in rows.iter_mut() {
        renumber_pair(numbering, row);
    }
}

fn renumber_claims<N: Numbering>(numbering: &N, claims: &mut Vec<Claim>)
    ensures { map claim_of claims.new.items ≡ map (renumbered_claim (N.number numbering.now)) (map claim_of claims.old.items) }
{
    for claim in claims.iter_mut() {
        claim.element = numbering.number_of(claim.element);
    }
}

/// Each element by its number; the domain stays.
pub(crate) fn renumber<N: Numbering>(numbering: &N, listed: &mut Listed)
    ensures { listed_of listed.new ≡ renumbered_by (N.number numbering.now) (listed_of listed.old) }
{
    renumber_classes(numbering, &mut listed.classes);
    renumber_pairs(numbering, &mut listed.pairs);
    renumber_elements(numbering, &mut listed.individuals);
    renumber_claims(numbering, &mut listed.claims);
}
