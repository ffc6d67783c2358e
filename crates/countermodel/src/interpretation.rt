//! The members of the interpretation that a closure lists.
ghost use Rattle.certificate.specs.Writability.{IsListedOf, listed_numbers};
ghost use Rattle.certificate.specs.View.{listed_of};
ghost use Rattle.exactness.specs.ListedInterpretation.{IsConsistent};
ghost use Rattle.exactness.specs.Acceptance.{IsListedFor};
ghost use Rattle.std.specs.Prelude.{◌<◌, ◌^◌, All, IfOk, Some};

use crate::claims::own_claims;
use crate::class_rows::add_class_rows;
use crate::elements::Elements;
use crate::groups::groups_of;
use crate::individuals::individual_elements;
use crate::rows::pair_rows;
use axioms::Memory;
use certificate::Listed;
use engine::Closed;

/// The interpretation that the closure of a consistent ontology lists, with a claim for each satisfiable class.
///
/// # Errors
///
/// `Memory` where memory was refused.
pub fn listed(closed: &Closed<'_>) -> Result<Listed, Memory>
    requires consistent { IsConsistent closed.now.ontology closed.now.saturation.normal.asked }
    ensures listed { IfOk result (λ l. IsListedFor closed.now.ontology closed.now.saturation.normal.asked (listed_of l)) }
    // A certificate of it can be written.
    ensures text { IfOk result (λ l. IsListedOf closed.now.ontology (listed_of l)) }
    ensures numbers { IfOk result (λ l. All (λ n. n < 2 ^ 32) (listed_numbers (Some (listed_of l)))) }
{
    let ontology = closed.ontology();
    let alloc = closed.allocator();
    closed.well_formed();
    ontology.bounded();
    let groups = groups_of(closed);
    let elements = Elements::by(closed, groups)?;
    let mut classes = Vec::new(alloc);
    let facts = closed.facts();
    add_class_rows(closed, &elements, facts, &mut classes)?;
    let pairs = pair_rows(closed, &elements)?;
    let individuals = individual_elements(alloc, ontology, groups, &elements)?;
    let claims = own_claims(alloc, ontology, &elements)?;
    Ok(Listed {
        domain: elements.len(),
        classes,
        pairs,
        individuals,
        claims,
    })
}
