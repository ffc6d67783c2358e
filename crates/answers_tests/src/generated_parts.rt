//! The parts that are reached from an element, as they are written for people.
ghost use Rattle.interpretation_spec.specs.NumberedInterpretation.{IsMadeFor};

use crate::documents::{listed_in, ontology_of};
use answer_texts::refutation_bytes;
use axioms::Ontology;
use generated_part::generated;
use interpretation_spec::Interpretation;
use std::alloc::Global;
use std::rt::HostRuntime;
use std::test::Fail;

/// Whether the part that is reached from the element is written so.
fn is_part_written(
    alloc: Global,
    ontology: &Ontology,
    interpretation: &Interpretation,
    from: usize,
    text: &[u8],
) -> bool
    requires { IsMadeFor ontology.now.names interpretation.now }
{
    if from >= interpretation.size() {
        return false;
    }
    let Ok((part, element)) = generated(alloc, interpretation, ontology, from) else {
        return false;
    };
    match refutation_bytes(alloc, ontology, &part, element) {
        Ok(written) => written.as_slice() == text,
        Err(_) => false,
    }
}

/// Whether the part of the interpretation that the certificate lists is written so.
fn is_written(
    alloc: Global,
    ontology: &Ontology,
    certificate: &[u8],
    from: usize,
    text: &[u8],
) -> bool {
    match listed_in(alloc, ontology, certificate) {
        Some(interpretation) => is_part_written(alloc, ontology, &interpretation, from, text),
        None => false,
    }
}

#[test]
fn one_element_refutes_one_subclass(rt: HostRuntime) -> Result<(), Fail> {
    let ontology = ontology_of(&rt, "Ontology(SubClassOf(<x:A> <x:B>))")?;
    let listed = b"elcert 1 consistent\ndomain 3\nclass e2 1\nclass e3 1 2\nend\n";
    let text = b"no\ndomain 1\nclass <x:B> 0\nelement 0\n";
    let is_written = is_written(rt.alloc(), &ontology, listed, 2, text);
    drop(ontology);
    assert!(rt; is_written, "the element of B alone");
    Ok(())
}

#[test]
fn two_elements_are_reached(rt: HostRuntime) -> Result<(), Fail> {
    let ontology = ontology_of(
        &rt,
        "Prefix(:=<x:>) Ontology(ReflexiveObjectProperty(:q) SubObjectPropertyOf(:q :p) EquivalentClasses(:B ObjectSomeValuesFrom(:p :A)))",
    )?;
    let listed =
        b"elcert 1 consistent\ndomain 3\nclass e2 1 2\nclass e3 2\nsucc p0 0 0\nsucc p0 1 1\nsucc p0 2 2\nsucc p1 0 0\nsucc p1 1 1 2\nsucc p1 2 2\nend\n";
    let text =
        b"no\ndomain 2\nclass <x:B> 0 1\nclass <x:A> 1\npair <x:q> 0 0\npair <x:q> 1 1\npair <x:p> 0 0\npair <x:p> 0 1\npair <x:p> 1 1\nelement 0\n";
    let is_written = is_written(rt.alloc(), &ontology, listed, 1, text);
    drop(ontology);
    assert!(rt; is_written, "those of B and A");
    Ok(())
}

#[test]
fn individuals_are_reached(rt: HostRuntime) -> Result<(), Fail> {
    let ontology = ontology_of(
        &rt,
        "Prefix(:=<x:>) Ontology(SubClassOf(:A :B) ClassAssertion(:A :a) ObjectPropertyAssertion(:r :a :b))",
    )?;
    let listed =
        b"elcert 1 consistent\ndomain 5\nclass e2 1 3\nclass e3 1 2 3\nsucc p0 3 4\nind i0 3\nind i1 4\nend\n";
    let text =
        b"no\ndomain 3\nclass <x:A> 1\nclass <x:B> 0 1\npair <x:r> 1 2\nindividual <x:a> 1\nindividual <x:b> 2\nelement 0\n";
    let is_written = is_written(rt.alloc(), &ontology, listed, 2, text);
    drop(ontology);
    assert!(rt; is_written, "that of B and the individuals");
    Ok(())
}
