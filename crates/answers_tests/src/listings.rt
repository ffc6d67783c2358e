//! What a closure lists, for worked documents.
ghost use Rattle.exactness.specs.ListedInterpretation.{AreSatisfiableContexts};
ghost use Rattle.interpretation_spec.specs.NumberedInterpretation.{IsMadeFor};

use crate::asked;
use axioms::{ClassId, ExprId, Ontology, PropId};
use certificate::{Claim, ClassRow, FormatOne, Listed, PairRow};
use certificate_text::LineText;
use classification::is_consistent;
use countermodel::{Elements, build, listed, pair_rows, text_with_listed};
use engine::{Closed, Indexed};
use facts::Context;
use interpretation_spec::{Interpretation, Row};
use normalise::Normal;
use std::test::Fail;

/// The classes E, W, H and D are the expressions 2, 3, 5 and 7; loc and part are the properties 0 and 1.
const CHAIN_INTO_A_DEFINITION: &str =
    "Prefix(:=<x:>) Ontology(SubClassOf(:E ObjectSomeValuesFrom(:loc :W)) SubClassOf(:W ObjectSomeValuesFrom(:part :H)) SubObjectPropertyOf(ObjectPropertyChain(:loc :part) :loc) EquivalentClasses(:D ObjectSomeValuesFrom(:loc :H)))";

/// What the closure of that document lists, behind no lines: E and D are at the places 1 and 4, and loc leads from 1 to 2 and 3.
const LISTED_CHAIN: &[u8] =
    b"elcert 1 consistent\ndomain 5\nclass e2 1\nclass e3 2\nclass e5 3\nclass e7 1 4\nsucc p0 1 2 3\nsucc p0 4 3\nsucc p1 2 3\nclaim e0 0\nclaim e2 1\nclaim e3 2\nclaim e5 3\nclaim e7 4\nend\n";

/// The classes A, B, C and D are the expressions 2, 3, 5 and 7; r and s are the properties 0 and 1.
const IRREGULAR_HIERARCHY: &str =
    "Prefix(:=<x:>) Ontology(SubObjectPropertyOf(ObjectPropertyChain(:r :s) :r) SubObjectPropertyOf(ObjectPropertyChain(:s :r) :s) SubClassOf(:A ObjectSomeValuesFrom(:r :B)) SubClassOf(:B ObjectSomeValuesFrom(:s :C)) EquivalentClasses(:D ObjectSomeValuesFrom(:r :C)))";

/// A is the class 2, B is 3.
const ONE_SUBCLASS: &str = "Ontology(SubClassOf(<x:A> <x:B>))";

/// owl:Thing and the classes 2, 3, 5 and 7.
const CONTEXTS: &[Context] = &[
    Context::Expr(ExprId(0)),
    Context::Expr(ExprId(2)),
    Context::Expr(ExprId(3)),
    Context::Expr(ExprId(5)),
    Context::Expr(ExprId(7)),
];

/// Whether the elements are owl:Thing and those classes, in this order.
fn are_four_classes_and_thing(elements: &Elements) -> bool {
    elements.contexts() == CONTEXTS
        && elements.len() == 5
        && elements.element(Context::Expr(ExprId(5))) == Some(3)
        && elements.element(Context::Expr(ExprId(1))).is_none()
        && elements.element(Context::Expr(ExprId(4))).is_none()
}

/// Whether it is the row of these targets.
fn is_row(row: Option<&PairRow>, property: u32, source: u32, targets: &[u32]) -> bool {
    row.is_some_and(|row| {
        row.property == PropId(property)
            && row.source == source
            && row.targets.as_slice() == targets
    })
}

/// Whether the first property leads from 1 to 2 and 3 and from 4 to 3, and the second from 2 to 3, and no more.
fn are_three_rows(rows: &[PairRow]) -> bool {
    rows.len() == 3
        && is_row(rows.get(0), 0, 1, &[2, 3])
        && is_row(rows.get(1), 0, 4, &[3])
        && is_row(rows.get(2), 1, 2, &[3])
}

/// Whether these are the pairs of the elements.
fn has_pairs(closed: &Closed<'_>, elements: &Elements) -> bool
    requires { AreSatisfiableContexts closed.now.ontology closed.now.saturation.normal.asked elements.now }
{
    match pair_rows(closed, elements) {
        Ok(rows) => are_three_rows(&rows),
        Err(_) => false,
    }
}

/// Whether these are the elements, and these their pairs.
fn has_elements_and_pairs(closed: &Closed<'_>) -> bool {
    match Elements::of(closed) {
        Ok(elements) => are_four_classes_and_thing(&elements) && has_pairs(closed, &elements),
        Err(_) => false,
    }
}

/// Whether the members of the class are these.
fn is_class(row: Option<&ClassRow>, class: u32, elements: &[u32]) -> bool {
    row.is_some_and(|row| row.class == ExprId(class) && row.elements.as_slice() == elements)
}

/// Classes and their elements.
const OWN: &[(u32, u32)] = &[(0, 0), (2, 1), (3, 2), (5, 3), (7, 4)];

/// Whether each class is claimed at its own element.
fn are_own_claims(claims: &[Claim]) -> bool {
    claims.len() == OWN.len()
        && claims.iter().zip(OWN).all(|(claim, (class, element))| claim.class == ExprId(*class)
            && claim.element == *element)
}

/// Whether E alone is in two of the named classes, its own and D.
fn is_chain_listed(made: &Listed) -> bool {
    made.domain == 5
        && made.classes.len() == 4
        && is_class(made.classes.get(0), 2, &[1])
        && is_class(made.classes.get(1), 3, &[2])
        && is_class(made.classes.get(2), 5, &[3])
        && is_class(made.classes.get(3), 7, &[1, 4])
        && are_three_rows(&made.pairs)
        && made.individuals.is_empty()
        && are_own_claims(&made.claims)
}

/// Whether the interpretation of the chain is listed.
fn lists_the_chain(indexed: &Indexed<'_>) -> bool {
    if !is_consistent(indexed) {
        return false;
    }
    match listed(indexed.closed()) {
        Ok(made) => is_chain_listed(&made),
        Err(_) => false,
    }
}

/// Whether the text of the interpretation of the chain is the one that was worked out.
fn writes_the_chain(indexed: &Indexed<'_>) -> bool {
    if !is_consistent(indexed) {
        return false;
    }
    let closed = indexed.closed();
    let Ok(lines) = LineText::<FormatOne>::new(closed.allocator()) else {
        return false;
    };
    match text_with_listed(closed, lines) {
        Ok(text) => text.as_slice() == LISTED_CHAIN,
        Err(_) => false,
    }
}

/// Whether the members are these of three elements.
fn has_members(row: Option<&Row>, members: [bool; 3]) -> bool {
    row.is_some_and(|row| {
        row.contains(0) == members[0]
            && row.contains(1) == members[1]
            && row.contains(2) == members[2]
    })
}

/// Whether no axiom fails, A is at its own element alone, and B also there.
fn is_model_of_one_subclass(ontology: &Ontology, made: &Interpretation) -> bool
    requires { IsMadeFor ontology.now.names made.now }
{
    made.size() == 3
        && made.first_unsatisfied(ontology) == Ok(None)
        && has_members(made.holders(ClassId(2)), [false, true, false])
        && has_members(made.holders(ClassId(3)), [false, true, true])
}

/// Whether the interpretation of one subclass axiom is built.
fn builds_a_model(indexed: &Indexed<'_>) -> bool {
    if !is_consistent(indexed) {
        return false;
    }
    let closed = indexed.closed();
    match build(closed) {
        Ok(made) => is_model_of_one_subclass(closed.ontology(), &made),
        Err(_) => false,
    }
}

/// Whether there is one form, and so no fresh name. That there are few is a law, and runs nothing.
fn has_one_form(normal: &Normal) -> bool {
    normal.bounded();
    normal.forms().len() == 1
}

/// What is asked of a saturation: whether it is what was worked out for its document.
#[derive(Clone, Copy)]
pub(crate) enum Asked {
    ElementsAndPairs,
    Listing,
    Text,
    Model,
    OneForm,
}

/// The answer.
pub(crate) fn answer(indexed: &Indexed<'_>, asked: Asked) -> bool {
    match asked {
        Asked::ElementsAndPairs => has_elements_and_pairs(indexed.closed()),
        Asked::Listing => lists_the_chain(indexed),
        Asked::Text => writes_the_chain(indexed),
        Asked::Model => builds_a_model(indexed),
        Asked::OneForm => has_one_form(indexed.closed().normal()),
    }
}

/// Documents, and what is asked of each.
const ROWS: &[(&str, asked::Asked)] = &[
    (
        CHAIN_INTO_A_DEFINITION,
        asked::Asked::Listing(Asked::ElementsAndPairs),
    ),
    (
        IRREGULAR_HIERARCHY,
        asked::Asked::Listing(Asked::ElementsAndPairs),
    ),
    (
        CHAIN_INTO_A_DEFINITION,
        asked::Asked::Listing(Asked::Listing),
    ),
    (CHAIN_INTO_A_DEFINITION, asked::Asked::Listing(Asked::Text)),
    (ONE_SUBCLASS, asked::Asked::Listing(Asked::Model)),
    (ONE_SUBCLASS, asked::Asked::Listing(Asked::OneForm)),
];

#[test]
fn reads_what_worked_documents_list(rt: HostRuntime) -> Result<(), Fail> {
    asked::assert_rows(&rt, ROWS)
}
