//! What is asked of the saturation of a document. Here alone a saturation is alive.

use crate::documents::saturated;
use crate::{derivations, listings};
use axioms::Ontology;
use engine::Indexed;
use profile::{Version, read_bytes};
use std::alloc::Global;
use std::hash::RandomState;
use std::process::Abort;
use std::random::RandomSource;
use std::test::Fail;

/// What is asked of a saturation: whether it is what was worked out for its document.
#[derive(Clone, Copy)]
pub(crate) enum Asked {
    Derivation(derivations::Asked),
    Listing(listings::Asked),
}

/// The answer.
fn answer(indexed: &Indexed<'_>, asked: Asked) -> bool {
    match asked {
        Asked::Derivation(asked) => derivations::answer(indexed, asked),
        Asked::Listing(asked) => listings::answer(indexed, asked),
    }
}

/// The answer for the saturation of an ontology.
fn answer_for(alloc: Global, state: RandomState, ontology: &Ontology, asked: Asked) -> bool {
    let Ok(saturation) = saturated(alloc, state, ontology) else {
        return false;
    };
    let right = match saturation.indexed(ontology) {
        Some(indexed) => answer(&indexed, asked),
        None => false,
    };
    drop(saturation);
    right
}

/// The answer for the ontology of the document.
fn is_so<R: AllocGlobal + RandomSource>(
    rt: &R,
    document: &str,
    asked: Asked,
) -> Result<bool, Fail> {
    let state = RandomState::new(rt)?;
    let ontology = read_bytes(rt.alloc(), document.as_bytes(), Version::Two, state)?;
    Ok(answer_for(rt.alloc(), state, &ontology, asked))
}

/// Of each document the answer is right.
pub(crate) fn assert_rows<R: AllocGlobal + Abort + RandomSource>(
    rt: &R,
    rows: &[(&str, Asked)],
) -> Result<(), Fail> {
    for row in rows {
        let (document, asked) = *row;
        assert!(rt; is_so(rt, document, asked)?, "{document}");
    }
    Ok(())
}
