//! Keywords and their rows, what trees state, and an expression.

use axioms::{Builder, Ontology};
use fs_lexer::tokens;
use fs_parser::{Tree, forms};
use shapes::{
    Expected, Form, Place, Statement, Version, expression_faults, faults_come_one_by_one,
    keywords_and_trees, part_faults, shape_of, worked_documents,
};
use std::alloc::{AllocError, Global};
use std::hash::RandomState;
use std::random::RandomSource;
use std::test::Fail;

fn random<R: RandomSource>(rt: &R) -> Result<RandomState, AllocError> {
    RandomState::new(rt).map_err(|_| AllocError)
}

/// How many faults the tree has as an expression over the names of the ontology.
fn count_over(
    alloc: Global,
    state: RandomState,
    ontology: &Ontology,
    tree: &Tree<'_>,
) -> Option<usize> {
    let found = expression_faults(alloc, ontology, tree, Version::Two, state).ok()?;
    Some(found.len())
}

/// .. over the names of the empty ontology.
fn count_over_none(alloc: Global, state: RandomState, tree: &Tree<'_>) -> Option<usize> {
    let builder = Builder::new(alloc, state).ok()?;
    count_over(alloc, state, builder.ontology(), tree)
}

/// .. of the first tree of the document, if the text is one.
fn count_of_first(alloc: Global, state: RandomState, text: &str) -> Option<usize> {
    let tokens = tokens(alloc, text).ok()?;
    let document = forms(alloc, &tokens).ok()?;
    count_over_none(alloc, state, document.trees.first()?)
}

#[test]
fn unknown_names_of_an_expression(rt: HostRuntime) -> Result<(), Fail> {
    let text = "Ontology(ObjectIntersectionOf(<x:A> <x:B> owl:Thing))";
    let count = count_of_first(rt.alloc(), random(&rt)?, text);
    assert!(rt; count == Some(2));
    Ok(())
}

#[test]
fn laws() {
    worked_documents();
    keywords_and_trees();
    faults_come_one_by_one();
}

#[test]
fn expected_compare(rt: HostRuntime) {
    assert!(rt; Expected::Class != Expected::ClassExpression);
}

/// What stands where, a keyword, and its form there in either version, if it has one.
const FORMS: &[(Expected, &str, Option<Form>, Option<Form>)] = &[
    (
        Expected::Axiom,
        "SubClassOf",
        Some(Form::SubClassOf),
        Some(Form::SubClassOf),
    ),
    (
        Expected::Entity,
        "Class",
        Some(Form::Class),
        Some(Form::Class),
    ),
    (Expected::Axiom, "Class", None, None),
    (Expected::ClassExpression, "ObjectUnionOf", None, None),
    (
        Expected::Axiom,
        "SameIndividual",
        None,
        Some(Form::SameIndividual),
    ),
    (
        Expected::Axiom,
        "DifferentIndividuals",
        None,
        Some(Form::DifferentIndividuals),
    ),
    (
        Expected::Axiom,
        "NegativeObjectPropertyAssertion",
        None,
        Some(Form::NegativeObjectPropertyAssertion),
    ),
    (Expected::ClassExpression, "SameIndividual", None, None),
];

#[test]
fn forms_of_keywords(rt: HostRuntime) {
    for row in FORMS {
        let (expected, keyword, first, second) = *row;
        let in_one = shape_of(expected, keyword, Version::One).map(|shape| shape.form);
        let in_two = shape_of(expected, keyword, Version::Two).map(|shape| shape.form);
        assert!(rt; in_one == first && in_two == second, "{keyword}");
    }
}

/// What a statement is, and where the first and the last of its trees stand.
fn stated(statement: Option<Statement<'_, '_>>) -> (&'static str, usize, usize) {
    match statement {
        Some(Statement::SubClassOf(sub, superclass)) => ("sub", sub.at(), superclass.at()),
        Some(Statement::PropertyAssertion(property, _, target)) => {
            ("property", property.at(), target.at())
        }
        Some(Statement::DeclareIndividual(name)) => ("individual", name.at(), name.at()),
        Some(Statement::DisjointClasses(classes)) => ("disjoint", classes.len(), 0),
        Some(Statement::SameIndividuals(individuals)) => ("same", individuals.len(), 0),
        Some(Statement::DifferentIndividuals(individuals)) => ("different", individuals.len(), 0),
        Some(Statement::NegativePropertyAssertion(property, _, target)) => {
            ("denied", property.at(), target.at())
        }
        Some(_) => ("other", 0, 0),
        None => ("none", 0, 0),
    }
}

/// What the tree states where axioms stand, and how many faults it has.
fn stated_by(
    alloc: Global,
    state: RandomState,
    tree: &Tree<'_>,
) -> Option<(&'static str, usize, usize, usize)> {
    let mut found = Vec::new(alloc);
    let part = part_faults(alloc, &mut found, Place::Axioms, tree, Version::Two, state);
    let faults = found.len();
    drop(found);
    let (_, statement) = part.ok()?;
    let (what, first, last) = stated(statement);
    Some((what, first, last, faults))
}

/// The same of the first tree of the document, if the text is one.
fn stated_first(
    alloc: Global,
    state: RandomState,
    text: &str,
) -> Option<(&'static str, usize, usize, usize)> {
    let tokens = tokens(alloc, text).ok()?;
    let document = forms(alloc, &tokens).ok()?;
    stated_by(alloc, state, document.trees.first()?)
}

/// Texts, what their first trees state, and how many faults these have.
const STATED: &[(&str, &str, usize, usize, usize)] = &[
    ("Ontology(SubClassOf(<x:A> <x:B>))", "sub", 20, 26, 0),
    (
        "Ontology(SubClassOf(Annotation(<x:p> <x:q>) <x:A> <x:B>))",
        "sub",
        44,
        50,
        0,
    ),
    ("Ontology(SubClassOf(<x:A>))", "none", 0, 0, 1),
    (
        "Ontology(ObjectPropertyAssertion(<x:r> <x:a> <x:b>))",
        "property",
        33,
        45,
        0,
    ),
    (
        "Ontology(Declaration(NamedIndividual(<x:a>)))",
        "individual",
        37,
        37,
        0,
    ),
    (
        "Ontology(Declaration(AnnotationProperty(<x:p>)))",
        "none",
        0,
        0,
        0,
    ),
    (
        "Ontology(DisjointClasses(<x:A> <x:B> <x:C>))",
        "disjoint",
        3,
        0,
        0,
    ),
    ("Ontology(SameIndividual(<x:a> <x:b>))", "same", 2, 0, 0),
    (
        "Ontology(DifferentIndividuals(<x:a> <x:b> <x:c>))",
        "different",
        3,
        0,
        0,
    ),
    (
        "Ontology(NegativeObjectPropertyAssertion(<x:r> <x:a> <x:b>))",
        "denied",
        41,
        53,
        0,
    ),
    ("Ontology(Annotation(<x:p> <x:q>))", "none", 0, 0, 1),
    ("Ontology(<x:o>)", "none", 0, 0, 1),
];

#[test]
fn statements_of_trees(rt: HostRuntime) -> Result<(), Fail> {
    let state = random(&rt)?;
    for row in STATED {
        let (text, what, first, last, faults) = *row;
        assert!(rt;
            stated_first(rt.alloc(), state, text) == Some((what, first, last, faults)),
            "{text}"
        );
    }
    Ok(())
}
