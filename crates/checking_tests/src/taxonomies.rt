//! The taxonomies and instances of small ontologies, as texts.
ghost use Rattle.std.specs.Prelude.{◌≡◌, IfOk};
ghost use Rattle.taxonomy.specs.Outcome.{IsMadeFor};

use crate::documents::ontology_of;
use crate::relations::{taxonomy_of, type_lists};
use axioms::{Memory, Ontology};
use device::{BufferSink, WriteFault};
use std::alloc::Global;
use std::process::Abort;
use std::random::RandomSource;
use std::test::Fail;
use taxonomy::{
    Outcome, instances_bytes, taxonomy_bytes, texts_of_relations, write_instances, write_taxonomy,
};

/// How many there are, as a number of 32 bits.
pub(crate) fn count(n: usize) -> Result<u32, Memory>
    ensures { IfOk result (λ m. m ≡ n) }
{
    match u32::try_from(n) {
        Ok(m) => Ok(m),
        Err(_) => Err(Memory),
    }
}

/// The outcome where each class lies below itself, owl:Thing and what the pairs give it.
fn outcome_of(
    alloc: Global,
    ontology: &Ontology,
    below: &[(u32, u32)],
    types: &[(u32, u32)],
) -> Result<Outcome, Memory>
    ensures { IfOk result (λ v. IsMadeFor ontology.now v) }
{
    let n = ontology.classes().len();
    let taxonomy = taxonomy_of(alloc, below, count(n)?)?;
    let types = type_lists(alloc, types, n, count(ontology.individuals().len())?)?;
    Ok(Outcome::Consistent(taxonomy, types))
}

/// Which text of the two.
#[derive(Clone, Copy)]
enum Text {
    Taxonomy,
    Instances,
}

/// The text in memory.
fn bytes(
    alloc: Global,
    ontology: &Ontology,
    outcome: &Outcome,
    text: Text,
) -> Result<Vec<u8>, Memory>
    requires { IsMadeFor ontology.now outcome.now }
{
    match text {
        Text::Taxonomy => taxonomy_bytes(alloc, ontology, outcome),
        Text::Instances => instances_bytes(alloc, ontology, outcome),
    }
}

/// The text through a sink.
fn written(
    alloc: Global,
    ontology: &Ontology,
    outcome: &Outcome,
    text: Text,
) -> Result<Vec<u8>, WriteFault>
    requires { IsMadeFor ontology.now outcome.now }
{
    let mut sink = BufferSink::new(alloc);
    match text {
        Text::Taxonomy => write_taxonomy(alloc, ontology, outcome, &mut sink)?,
        Text::Instances => write_instances(alloc, ontology, outcome, &mut sink)?,
    }
    Ok(sink.into_bytes())
}

/// Whether the text is this one, in memory and through a sink.
fn is_text(
    alloc: Global,
    ontology: &Ontology,
    outcome: &Outcome,
    text: Text,
    expected: &str,
) -> Result<bool, Fail>
    requires { IsMadeFor ontology.now outcome.now }
{
    let written = written(alloc, ontology, outcome, text)?;
    let bytes = bytes(alloc, ontology, outcome, text)?;
    Ok(written.as_slice() == expected.as_bytes() && bytes.as_slice() == expected.as_bytes())
}

/// Whether these are the texts that tell the outcome.
fn is_told(
    alloc: Global,
    ontology: &Ontology,
    outcome: &Outcome,
    taxonomy: &str,
    instances: &str,
) -> Result<bool, Fail>
    requires { IsMadeFor ontology.now outcome.now }
{
    Ok(
        is_text(alloc, ontology, outcome, Text::Taxonomy, taxonomy)?
            && is_text(alloc, ontology, outcome, Text::Instances, instances)?,
    )
}

/// Whether the taxonomy has this text, where each class lies below what the pairs give it, and there are no instances.
fn is_taxonomy(
    alloc: Global,
    ontology: &Ontology,
    below: &[(u32, u32)],
    text: &str,
) -> Result<bool, Fail> {
    let outcome = outcome_of(alloc, ontology, below, &[])?;
    is_told(alloc, ontology, &outcome, text, "elinst 1 consistent\n")
}

const EMPTY: &str =
    "eltax 1 consistent\n<http://www.w3.org/2002/07/owl#Thing>\nbottom <http://www.w3.org/2002/07/owl#Nothing>\n";

const ONE_SUBCLASS: &str =
    "eltax 1 consistent\n<http://www.w3.org/2002/07/owl#Thing>\n<x:A> < <x:B>\n<x:B> < <http://www.w3.org/2002/07/owl#Thing>\nbottom <http://www.w3.org/2002/07/owl#Nothing>\n";

const CYCLE: &str =
    "eltax 1 consistent\n<http://www.w3.org/2002/07/owl#Thing>\n<x:A> = <x:B> < <http://www.w3.org/2002/07/owl#Thing>\nbottom <http://www.w3.org/2002/07/owl#Nothing>\n";

const UNSATISFIABLE_CLASS: &str =
    "eltax 1 consistent\n<http://www.w3.org/2002/07/owl#Thing>\n<x:B> < <http://www.w3.org/2002/07/owl#Thing>\n<x:C> < <http://www.w3.org/2002/07/owl#Thing>\nbottom <http://www.w3.org/2002/07/owl#Nothing> = <x:A>\n";

const EQUAL_TO_TOP: &str =
    "eltax 1 consistent\n<http://www.w3.org/2002/07/owl#Thing> = <x:A>\nbottom <http://www.w3.org/2002/07/owl#Nothing>\n";

const TWO_SUPERCLASSES: &str =
    "eltax 1 consistent\n<http://www.w3.org/2002/07/owl#Thing>\n<x:a> < <x:b> , <x:c>\n<x:b> < <x:d>\n<x:c> < <x:d>\n<x:d> < <http://www.w3.org/2002/07/owl#Thing>\nbottom <http://www.w3.org/2002/07/owl#Nothing>\n";

const TYPES: &str =
    "elinst 1 consistent\n<x:a> : <x:A> , <x:C>\n<x:b> : <http://www.w3.org/2002/07/owl#Thing>\n<x:c> : <http://www.w3.org/2002/07/owl#Thing>\n";

const EQUAL_SUPERCLASSES: &str =
    "eltax 1 consistent\n<http://www.w3.org/2002/07/owl#Thing>\n<x:a> < <http://www.w3.org/2002/07/owl#Thing>\n<x:b> = <x:c> < <http://www.w3.org/2002/07/owl#Thing>\n<x:d> = <x:e> < <x:a> , <x:b>\nbottom <http://www.w3.org/2002/07/owl#Nothing>\n";

const BARE_TYPES: &str =
    "elinst 1 consistent\n<x:a> : <x:A> , <x:C>\n<x:b> : <http://www.w3.org/2002/07/owl#Nothing>\n<x:c>\n";

/// The same of the ontology that the document states.
fn is_taxonomy_of<R: AllocGlobal + RandomSource>(
    rt: &R,
    document: &str,
    below: &[(u32, u32)],
    text: &str,
) -> Result<bool, Fail> {
    let ontology = ontology_of(rt, document)?;
    is_taxonomy(rt.alloc(), &ontology, below, text)
}

/// What the row shows, the declared classes, what each lies below, and the taxonomy.
const TAXONOMIES: &[(&str, &str, &[(u32, u32)], &str)] = &[
    ("empty_ontology", "Ontology()", &[], EMPTY),
    (
        "one_subclass",
        "Ontology(Declaration(Class(<x:A>)) Declaration(Class(<x:B>)))",
        &[(2, 3)],
        ONE_SUBCLASS,
    ),
    (
        "two_spellings_in_a_cycle",
        "Ontology(Declaration(Class(<x:A>)) Declaration(Class(<x:B>)))",
        &[(2, 3), (3, 2)],
        CYCLE,
    ),
    (
        "unsatisfiable_class",
        "Ontology(Declaration(Class(<x:A>)) Declaration(Class(<x:B>)) Declaration(Class(<x:C>)))",
        &[(2, 1), (2, 3), (2, 4)],
        UNSATISFIABLE_CLASS,
    ),
    (
        "class_equal_to_top",
        "Ontology(Declaration(Class(<x:A>)))",
        &[(0, 2)],
        EQUAL_TO_TOP,
    ),
    (
        "two_direct_superclasses",
        "Ontology(Declaration(Class(<x:d>)) Declaration(Class(<x:c>)) Declaration(Class(<x:b>)) Declaration(Class(<x:a>)))",
        &[(5, 4), (5, 3), (5, 2), (4, 2), (3, 2)],
        TWO_SUPERCLASSES,
    ),
    (
        "equal_superclasses_of_equal_classes",
        "Ontology(Declaration(Class(<x:e>)) Declaration(Class(<x:d>)) Declaration(Class(<x:c>)) Declaration(Class(<x:b>)) Declaration(Class(<x:a>)))",
        &[
            (2, 3),
            (2, 4),
            (2, 5),
            (2, 6),
            (3, 2),
            (3, 4),
            (3, 5),
            (3, 6),
            (4, 5),
            (5, 4),
        ],
        EQUAL_SUPERCLASSES,
    ),
    (
        "superclass_that_stands_twice",
        "Ontology(Declaration(Class(<x:A>)) Declaration(Class(<x:B>)))",
        &[(2, 3), (2, 3), (2, 2), (3, 0)],
        ONE_SUBCLASS,
    ),
];

#[test]
fn taxonomies(rt: HostRuntime) -> Result<(), Fail> {
    for row in TAXONOMIES {
        let (case, document, below, text) = *row;
        assert!(rt; is_taxonomy_of(&rt, document, below, text)?, "{case}");
    }
    Ok(())
}

/// Three classes and three individuals.
const INDIVIDUALS: &str = "Prefix(:=<x:>) Ontology(
Declaration(Class(:A)) Declaration(Class(:B)) Declaration(Class(:C))
Declaration(NamedIndividual(:a)) Declaration(NamedIndividual(:b)) Declaration(NamedIndividual(:c)))";

/// Whether these are the types of the individuals, where A lies below B.
fn is_instances(
    alloc: Global,
    ontology: &Ontology,
    types: &[(u32, u32)],
    text: &str,
) -> Result<bool, Fail> {
    let outcome = outcome_of(alloc, ontology, &[(2, 3)], types)?;
    is_text(alloc, ontology, &outcome, Text::Instances, text)
}

/// What the row shows, the types of each individual, and the instances, where A lies below B.
const INSTANCES: &[(&str, &[(u32, u32)], &str)] = &[
    (
        "individuals_and_domain",
        &[(0, 0), (0, 2), (0, 3), (0, 4), (1, 0), (2, 0)],
        TYPES,
    ),
    (
        "types_in_any_order",
        &[(0, 4), (0, 3), (0, 2), (0, 0), (0, 4), (1, 0), (2, 0)],
        TYPES,
    ),
    (
        "types_without_what_is_above",
        &[(0, 2), (0, 4), (1, 1), (1, 3)],
        BARE_TYPES,
    ),
];

/// Each row has its text.
fn assert_instances<R: AllocGlobal + Abort>(rt: &R, ontology: &Ontology) -> Result<(), Fail> {
    for row in INSTANCES {
        let (case, types, text) = *row;
        assert!(rt; is_instances(rt.alloc(), ontology, types, text)?, "{case}");
    }
    Ok(())
}

#[test]
fn instances(rt: HostRuntime) -> Result<(), Fail> {
    let ontology = ontology_of(&rt, INDIVIDUALS)?;
    assert_instances(&rt, &ontology)
}

/// The outcome of a contradiction.
fn contradiction(ontology: &Ontology) -> Outcome
    ensures { IsMadeFor ontology.now result }
{
    Outcome::Inconsistent
}

/// Whether these are the texts of a contradiction.
fn is_contradiction(
    alloc: Global,
    ontology: &Ontology,
    taxonomy: &str,
    instances: &str,
) -> Result<bool, Fail> {
    let outcome = contradiction(ontology);
    is_told(alloc, ontology, &outcome, taxonomy, instances)
}

#[test]
fn contradiction_without_individual(rt: HostRuntime) -> Result<(), Fail> {
    let ontology = ontology_of(&rt, "Ontology()")?;
    let is_told = is_contradiction(
        rt.alloc(),
        &ontology,
        "eltax 1 inconsistent\n",
        "elinst 1 inconsistent\n",
    );
    drop(ontology);
    assert!(rt; is_told?);
    Ok(())
}

#[test]
fn laws() {
    texts_of_relations();
}
