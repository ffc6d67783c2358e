//! The document of one subclass axiom, and documents that are refused.

use axioms::{Axiom, ExprId, OWL_NOTHING, OWL_THING, Ontology};
use device::SliceSource;
use failing_devices::FailingSource;
use profile::{
    DocumentFault, Limits, Version, axioms_take_bytes, one_ontology_is_read, read_bytes,
    read_document, refused_bytes_read_as_none,
};
use std::alloc::{AllocError, Global};
use std::hash::RandomState;
use std::process::Abort;
use std::random::RandomSource;
use std::test::Fail;

const ONE_SUBCLASS: &[u8] = b"Ontology(SubClassOf(<x:A> <x:B>))";

/// The classes of its ontology, by their numbers.
const CLASSES: &[&str] = &[OWL_THING, OWL_NOTHING, "x:A", "x:B"];

/// The ontology has the classes A and B, and the one axiom is SubClassOf(A B).
fn assert_one_subclass<R: Abort>(rt: &R, ontology: &Ontology) {
    for (number, iri) in CLASSES.iter().enumerate() {
        assert!(rt;
            ontology.classes().get(number).map(String::as_str) == Some(*iri),
            "{iri}"
        );
    }
    assert!(rt; ontology.classes().len() == CLASSES.len());
    assert!(rt; ontology.axioms() == [Axiom::SubClass(ExprId(2), ExprId(3))].as_slice());
}

/// What reading the bytes of a document in the version gives, where so many are allowed.
fn read_within<R: AllocGlobal + RandomSource>(
    rt: &R,
    bytes: &[u8],
    max_bytes: u64,
    version: Version,
) -> Result<Result<Ontology, DocumentFault>, Fail> {
    let limits = Limits::new(max_bytes, 1, version).ok_or("limits")?;
    let mut source = SliceSource::new(bytes);
    Ok(read_document(rt.alloc(), &mut source, &limits, RandomState::new(rt)?))
}

/// Whether reading the bytes of a document gives the fault that is printed so.
fn is_refused<R: AllocGlobal + RandomSource>(
    rt: &R,
    bytes: &[u8],
    max_bytes: u64,
    printed: &str,
) -> Result<bool, Fail> {
    match read_within(rt, bytes, max_bytes, Version::Two)? {
        Ok(_) => Ok(false),
        Err(fault) => Ok(format!(in rt.alloc(); "{fault}")?.as_str() == printed),
    }
}

#[test]
fn one_subclass(rt: HostRuntime) -> Result<(), Fail> {
    let ontology = read_bytes(
        rt.alloc(),
        ONE_SUBCLASS,
        Version::Two,
        RandomState::new(&rt)?,
    )?;
    assert_one_subclass(&rt, &ontology);
    Ok(())
}

#[test]
fn one_subclass_of_a_source(rt: HostRuntime) -> Result<(), Fail> {
    let ontology = read_within(&rt, ONE_SUBCLASS, 33, Version::One)??;
    assert_one_subclass(&rt, &ontology);
    Ok(())
}

#[test]
fn refused_documents(rt: HostRuntime) -> Result<(), Fail> {
    assert!(rt; is_refused(&rt, b"Ontology(\xff", 10, "U1 at byte 9")?);
    assert!(rt; is_refused(&rt, ONE_SUBCLASS, 32, "U2")?);
    assert!(rt;
        is_refused(
            &rt,
            b"Ontology(SubClassOf(<x:A> owl:real))",
            36,
            "F5 at byte 26"
        )?
    );
    assert!(rt; is_refused(&rt, b"", 1, "P2 at byte 0")?);
    Ok(())
}

/// A document of the second version's forms, and what the first tells of it.
const DIFFERENT_AND_DENIED: &str =
    "Prefix(:=<x:>) Ontology(DifferentIndividuals(:a :b) NegativeObjectPropertyAssertion(:r :a :b))";

const DIFFERENT_AND_DENIED_IN_ONE: &str =
    "F1 at byte 24: DifferentIndividuals\nF1 at byte 52: NegativeObjectPropertyAssertion";

/// How many axioms are read of a source with that document in the version, or the fault.
fn read_in(alloc: Global, state: RandomState, version: Version) -> Result<String, Fail> {
    let limits = Limits::new(1_000, 1, version).ok_or("limits")?;
    let mut source = SliceSource::new(DIFFERENT_AND_DENIED.as_bytes());
    let read = read_document(alloc, &mut source, &limits, state);
    Ok(shown(alloc, &read)?)
}

/// How many axioms are read of its bytes.
fn read_bytes_in(
    alloc: Global,
    state: RandomState,
    version: Version,
) -> Result<String, AllocError> {
    let read = read_bytes(alloc, DIFFERENT_AND_DENIED.as_bytes(), version, state);
    shown(alloc, &read)
}

fn shown(alloc: Global, read: &Result<Ontology, DocumentFault>) -> Result<String, AllocError> {
    match read {
        Ok(ontology) => {
            let count = ontology.axioms().len();
            format!(in alloc; "{count} axioms")
        }
        Err(fault) => format!(in alloc; "{fault}"),
    }
}

#[test]
fn documents_are_read_in_a_version(rt: HostRuntime) -> Result<(), Fail> {
    let state = RandomState::new(&rt)?;
    for (version, expected) in [
        (Version::One, DIFFERENT_AND_DENIED_IN_ONE),
        (Version::Two, "2 axioms"),
    ] {
        let of_source = read_in(rt.alloc(), state, version)?;
        let of_bytes = read_bytes_in(rt.alloc(), state, version)?;
        assert!(rt;
            of_source.as_str() == expected && of_bytes.as_str() == expected,
            "{version:?}: {of_source}; {of_bytes}"
        );
    }
    Ok(())
}

/// The 33 bytes take five reads of seven, and one more that finds their end.
#[test]
fn a_read_that_fails_is_told(rt: HostRuntime) -> Result<(), Fail> {
    let limits = Limits::new(33, 1, Version::Two).ok_or("limits")?;
    for reads in 0..7 {
        let mut source = FailingSource::new(SliceSource::new(ONE_SUBCLASS), reads, 7);
        let read = read_document(rt.alloc(), &mut source, &limits, RandomState::new(&rt)?);
        let failed = matches!(&read, Err(DocumentFault::Io));
        assert!(rt;
            failed == (reads < 6) && read.is_ok() == (reads == 6),
            "after {reads} reads"
        );
        assert!(rt;
            (source.failures == 1) == (reads < 6),
            "after {reads} reads"
        );
    }
    Ok(())
}

#[test]
fn every_fault_is_printed(rt: HostRuntime) -> Result<(), Fail> {
    assert!(rt;
        is_refused(
            &rt,
            b"Ontology(SubClassOf(<x:A> owl:real) SubClassOf(<x:A> ObjectUnionOf(<x:A> <x:B>)))",
            81,
            "F5 at byte 26\nF1 at byte 53: ObjectUnionOf"
        )?
    );
    Ok(())
}

#[test]
fn laws() {
    one_ontology_is_read();
    refused_bytes_read_as_none();
    axioms_take_bytes();
}
