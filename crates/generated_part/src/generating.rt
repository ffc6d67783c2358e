//! Generated parts.
ghost use Rattle.generated_part.specs.Elements.{IsByElement};
ghost use Rattle.generated_part.specs.GeneratedPart.{IsGenerated};
ghost use Rattle.interpretation_spec.specs.NamedInterpretation.{interpretation_of};
ghost use Rattle.interpretation_spec.specs.Interpretation.{Interpretation as Interpretation2, IsInterpretation};
ghost use Rattle.interpretation_spec.specs.NumberedInterpretation.{IsMadeFor};
ghost use Rattle.std.specs.Prelude.{◌<◌, IfOk};

use crate::by_element::ByElement;
use crate::chosen::chosen_by;
use crate::part::part_of;
use crate::search::reached;
use axioms::{Memory, Ontology};
use interpretation_spec::Interpretation;
use std::alloc::Global;

/// The part that is reached from the element and from the individuals, and the number of the element in it.
///
/// # Errors
///
/// `Memory` where memory was refused.
fn generated_of(
    alloc: Global,
    ontology: &Ontology,
    rows: &ByElement,
    from: usize,
) -> Result<(Interpretation, usize), Memory>
    requires rows { (i : Interpretation2) × IsInterpretation i × IsByElement ontology.now i rows.now × (from < i.size) }
    ensures made { IfOk result (λ part. IsMadeFor ontology.now.names part.0) }
    ensures generated { IfOk result (λ part. (i : Interpretation2) → IsInterpretation i → IsByElement ontology.now i rows.now
        → IsGenerated ontology.now i from (interpretation_of ontology.now.names part.0) part.1) }
{
    ontology.well_formed();
    let marks = reached(alloc, &rows.pairs, from, &rows.individuals)?;
    let chosen = chosen_by(alloc, &marks)?;
    let part = part_of(alloc, ontology, rows, &chosen)?;
    part.well_formed();
    Ok((part, chosen.places[from]))
}

/// The part of the interpretation, which was made for the ontology, that is reached from the element and from the individuals:
/// those elements and all to which pairs lead from them, renumbered in order; and the new number of the element.
///
/// # Errors
///
/// `Memory` where memory was refused.
pub fn generated(
    alloc: Global,
    interpretation: &Interpretation,
    ontology: &Ontology,
    from: usize,
) -> Result<(Interpretation, usize), Memory>
    requires made_for { IsMadeFor ontology.now.names interpretation.now }
    requires there { from < interpretation.now.size }
    ensures made { IfOk result (λ part. IsMadeFor ontology.now.names part.0) }
    ensures generated { IfOk result (λ part. IsGenerated ontology.now (interpretation_of ontology.now.names interpretation.now) from
        (interpretation_of ontology.now.names part.0) part.1) }
{
    ontology.well_formed();
    interpretation.well_formed();
    let rows = ByElement::of_interpretation(alloc, ontology, interpretation)?;
    generated_of(alloc, ontology, &rows, from)
}
