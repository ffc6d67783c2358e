//! Rows, and the normal forms that they have.

use axioms::{ExprId, Ontology};
use normalise::{Normal, normalise};
use profile::{Version, read_bytes};
use std::alloc::Global;
use std::hash::RandomState;

/// Normal forms, and how many axioms gave them.
#[derive(Drop)]
struct Stage {
    normal: Normal,
    axioms: usize,
}

/// The forms of the ontology, as the first one or as one that has grown.
fn grown(
    alloc: Global,
    state: RandomState,
    ontology: &Ontology,
    before: Option<Stage>,
) -> Option<Normal> {
    match before {
        None => normalise(alloc, state, ontology).ok(),
        Some(Stage { normal, axioms }) => extended(normal, ontology, axioms),
    }
}

/// The same forms and those of the axioms after `from`.
fn extended(mut normal: Normal, ontology: &Ontology, from: usize) -> Option<Normal> {
    if from > ontology.axioms().len() {
        return None;
    }
    normal.extend(ontology, from).ok()?;
    Some(normal)
}

/// Asks about the expressions of these numbers.
fn asked(mut normal: Normal, ontology: &Ontology, numbers: &str) -> Option<Normal> {
    for number in numbers.split(" ? ").skip(1) {
        let expr: u32 = number.parse().ok()?;
        normal.ask(ontology, ExprId(expr)).ok()?;
    }
    Some(normal)
}

/// The ontology of the part's document.
fn document_of(alloc: Global, state: RandomState, part: &str) -> Option<Ontology> {
    let document = part.split(" ? ").next()?;
    read_bytes(alloc, document.as_bytes(), Version::Two, state).ok()
}

/// The stage after that one: the part's document, and what it asks about.
fn stage_after(
    alloc: Global,
    state: RandomState,
    (part, ontology): (&str, &Ontology),
    before: Option<Stage>,
) -> Option<Stage> {
    let normal = grown(alloc, state, ontology, before)?;
    let normal = asked(normal, ontology, part)?;
    Some(Stage {
        normal,
        axioms: ontology.axioms().len(),
    })
}

/// The next stage: the document of the part, and what it asks about.
fn next_stage(
    alloc: Global,
    state: RandomState,
    part: &str,
    before: Option<Stage>,
) -> Option<Stage> {
    let ontology = document_of(alloc, state, part)?;
    stage_after(alloc, state, (part, &ontology), before)
}

/// The stage after all parts of a row.
fn last_stage(alloc: Global, state: RandomState, row: &str) -> Option<Stage> {
    let mut stage = None;
    for part in row.split(" => ") {
        stage = Some(next_stage(alloc, state, part, stage)?);
    }
    stage
}

/// The forms of a row, if it can be read.
pub(crate) fn forms_of(alloc: Global, state: RandomState, row: &str) -> Option<Normal> {
    let stage = last_stage(alloc, state, row)?;
    stage.normal.copy().ok()
}
