//! Names in byte order.

use answers::names_in_order;
use axioms::{Memory, Ontology};
use number_sets::Row;
use profile::{Version, read_bytes};
use std::alloc::Global;
use std::hash::RandomState;
use std::test::Fail;

const DOCUMENT: &str =
    "Prefix(:=<x:>) Ontology(Declaration(Class(:b)) Declaration(Class(:C)) Declaration(Class(:a)))";

/// Whether of the classes `x:b`, `x:C` and `x:a` the first and the last come in byte order. They stand behind `owl:Thing` and
/// `owl:Nothing`.
fn are_in_order(alloc: Global, ontology: &Ontology) -> Result<bool, Memory> {
    ontology.well_formed();
    let mut marks = Row::new(alloc, 5)?;
    marks.put(2);
    marks.put(4);
    let found = names_in_order(alloc, ontology.classes(), &marks)?;
    Ok(found.as_slice() == ["x:a", "x:b"].as_slice())
}

#[test]
fn names_come_in_byte_order(rt: HostRuntime) -> Result<(), Fail> {
    let state = RandomState::new(&rt)?;
    let ontology = read_bytes(rt.alloc(), DOCUMENT.as_bytes(), Version::Two, state)?;
    let are_in_order = are_in_order(rt.alloc(), &ontology)?;
    drop(ontology);
    assert!(rt; are_in_order, "a before b");
    Ok(())
}
