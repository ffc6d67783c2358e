//! Interpretations that refute what is asked.
ghost use Rattle.exactness.specs.ListedInterpretation.{IsConsistent, IsSatisfiable};
ghost use Rattle.closure.specs.Denotations.{context_of};
ghost use Rattle.answers.specs.Findings.{IsPartFor};
ghost use Rattle.std.specs.Prelude.{IfOk};

use axioms::Memory;
use cert_check::interpretation_of;
use countermodel::reached_part;
use engine::Indexed;
use facts::Context;
use interpretation_spec::Interpretation;

/// The part of the interpretation that the closure lists that is reached from the context's own element and from the
/// individuals, and the number of that element in it. It is made from the lists of the members that are reached.
///
/// # Errors
///
/// `Memory` where memory was refused.
pub(crate) fn part_for(
    indexed: &Indexed<'_>,
    context: Context,
) -> Result<(Interpretation, usize), Memory>
    requires consistent { IsConsistent indexed.now.ontology indexed.now.saturation.normal.asked }
    requires satisfiable { IsSatisfiable indexed.now.ontology indexed.now.saturation.normal.asked (context_of context) }
    ensures { IfOk result (λ part. IsPartFor indexed.now.ontology indexed.now.saturation.normal.asked (context_of context) part.0 part.1) }
{
    let closed = indexed.closed();
    let ontology = closed.ontology();
    let alloc = closed.allocator();
    closed.well_formed();
    let (members, element) = reached_part(indexed, context)?;
    let part = interpretation_of(alloc, ontology, &members)?;
    part.well_formed();
    Ok((part, element as usize))
}
