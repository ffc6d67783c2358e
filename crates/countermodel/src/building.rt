//! The interpretation that a closure lists, as a value.
ghost use Rattle.exactness.specs.ListedInterpretation.{IsConsistent};
ghost use Rattle.countermodel.specs.Values.{IsBuilt};
ghost use Rattle.interpretation_spec.specs.NumberedInterpretation.{IsMadeFor};
ghost use Rattle.std.specs.Prelude.{IfOk};

use crate::interpretation::listed;
use axioms::Memory;
use cert_check::interpretation_of;
use engine::Closed;
use interpretation_spec::Interpretation;

/// The interpretation that the closure of a consistent ontology lists: an element for each context without `owl:Nothing`, and one for
/// all individuals that are one, in exactly the named classes that are facts of it, and in an expression that is asked about exactly
/// where that is in its context. It satisfies every axiom as it was written.
///
/// # Errors
///
/// `Memory` where memory was refused.
pub fn build(closed: &Closed<'_>) -> Result<Interpretation, Memory>
    requires consistent { IsConsistent closed.now.ontology closed.now.saturation.normal.asked }
    ensures made { IfOk result (IsMadeFor closed.now.ontology.names) }
    ensures built { IfOk result (IsBuilt closed.now.ontology closed.now.saturation.normal.asked) }
{
    let ontology = closed.ontology();
    let alloc = closed.allocator();
    closed.well_formed();
    let members = listed(closed)?;
    let interpretation = interpretation_of(alloc, ontology, &members)?;
    interpretation.well_formed();
    Ok(interpretation)
}
