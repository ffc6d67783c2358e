//! The text of the interpretation that a closure lists.
ghost use Rattle.exactness.specs.ListedInterpretation.{IsConsistent};
ghost use Rattle.countermodel.specs.WholeText.{IsTextWithListed};
ghost use Rattle.std.specs.Prelude.{IfOk};

use crate::claims::own_claims;
use crate::class_rows::add_class_rows;
use crate::elements::Elements;
use crate::groups::groups_of;
use crate::individuals::individual_elements;
use crate::rows::add_pair_rows;
use axioms::Memory;
use certificate::FormatType;
use certificate_text::LineText;
use engine::Closed;

/// The text of the certificate of these lines and of the interpretation that the closure of a consistent ontology lists, with a claim
/// for each satisfiable class, in the format of the lines. It is written row by row, of which at most one is kept.
///
/// # Errors
///
/// `Memory` where memory was refused.
pub fn text_with_listed<F: FormatType>(
    closed: &Closed<'_>,
    lines: LineText<F>,
) -> Result<Vec<u8>, Memory>
    requires consistent { IsConsistent closed.now.ontology closed.now.saturation.normal.asked }
    ensures { IfOk result (λ v. IsTextWithListed closed.now.ontology closed.now.saturation.normal.asked F.format lines v.items) }
{
    let ontology = closed.ontology();
    let alloc = closed.allocator();
    closed.well_formed();
    ontology.bounded();
    let groups = groups_of(closed);
    let elements = Elements::by(closed, groups)?;
    let mut text = lines.with_domain(elements.len())?;
    let facts = closed.facts();
    add_class_rows(closed, &elements, facts, &mut text)?;
    add_pair_rows(closed, &elements, facts, &mut text)?;
    let individuals = individual_elements(alloc, ontology, groups, &elements)?;
    let claims = own_claims(alloc, ontology, &elements)?;
    text.end(&individuals, &claims)
}
