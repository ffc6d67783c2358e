//! Ontologies that documents state, their saturations, and interpretations that certificates list.
ghost use Rattle.engine.specs.Saturations.{IsSound, IsUnasked, as_ended};
ghost use Rattle.interpretation_spec.specs.NumberedInterpretation.{IsMadeFor};
ghost use Rattle.std.specs.Prelude.{IfOk, IfSome};

use axioms::Ontology;
use cert_check::interpretation_of;
use certificate::read_certificate;
use engine::{Saturation, Stop};
use interpretation_spec::Interpretation;
use profile::{Version, read_bytes};
use std::alloc::Global;
use std::hash::RandomState;
use std::random::RandomSource;
use std::test::Fail;

/// The ontology that the document states.
pub(crate) fn ontology_of<R: AllocGlobal + RandomSource>(
    rt: &R,
    document: &str,
) -> Result<Ontology, Fail> {
    let state = RandomState::new(rt)?;
    Ok(read_bytes(rt.alloc(), document.as_bytes(), Version::Two, state)?)
}

/// The saturation of the ontology, run to its end, where it leads to at most 100 facts.
pub(crate) fn saturated(
    alloc: Global,
    state: RandomState,
    ontology: &Ontology,
) -> Result<Saturation, Stop>
    ensures sound { IfOk result (IsSound ontology.now) }
    ensures unasked { IfOk result (λ s. IsUnasked (as_ended s)) }
{
    let mut saturation = Saturation::start(alloc, state, ontology)?;
    match saturation.resume(100) {
        Ok(()) => Ok(saturation),
        Err(stop) => {
            drop(saturation);
            Err(stop)
        }
    }
}

/// The interpretation that the certificate lists.
pub(crate) fn listed_in(
    alloc: Global,
    ontology: &Ontology,
    certificate: &[u8],
) -> Option<Interpretation>
    ensures { IfSome result (IsMadeFor ontology.now.names) }
{
    let Ok(certificate) = read_certificate(alloc, ontology, certificate) else {
        return None;
    };
    match certificate.listed() {
        Some(listed) => interpretation_of(alloc, ontology, listed).ok(),
        None => None,
    }
}
