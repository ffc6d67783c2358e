//! Axioms that may follow, of each kind, worked out by hand.

use crate::additions::{MANY, opened};
use session::{EntailsFault, Session};
use std::alloc::{AllocError, Global};
use std::hash::RandomState;
use std::test::Fail;

/// What is known.
const KNOWN: &str =
    "SubClassOf(:A :B) SubClassOf(:B ObjectSomeValuesFrom(:r :C)) SubObjectPropertyOf(:r :s) DisjointClasses(:C :D) \
    SubObjectPropertyOf(ObjectPropertyChain(:r :s) :t) SubObjectPropertyOf(ObjectPropertyChain(:t :t) :t) ObjectPropertyDomain(:s :E) \
    ReflexiveObjectProperty(:q) ClassAssertion(:A :a) ObjectPropertyAssertion(:r :a :b) ClassAssertion(:D :d) ClassAssertion(:C :c) \
    NegativeObjectPropertyAssertion(:t :a :e) ObjectPropertyAssertion(:s :b :f) SameIndividual(:g :h) ClassAssertion(:E :e)";

/// A text, and whether each of its axioms follows.
type Row = (&'static str, bool);

const ROWS: &[Row] = &[
    ("", true),
    ("Declaration(Class(:A))", true),
    ("SubClassOf(:A ObjectSomeValuesFrom(:s :C))", true),
    ("SubClassOf(:B :A)", false),
    ("SubClassOf(ObjectIntersectionOf(:C :D) :A)", true),
    ("SubClassOf(:A :B) SubClassOf(:B :A)", false),
    ("SubClassOf(:A :B) SubClassOf(:A :E)", true),
    ("EquivalentClasses(:A ObjectIntersectionOf(:A :B))", true),
    ("EquivalentClasses(:A :B)", false),
    (
        "EquivalentClasses(:A ObjectIntersectionOf(:A :B) :B)",
        false,
    ),
    ("DisjointClasses(:D ObjectIntersectionOf(:A :C))", true),
    ("DisjointClasses(:C :D :A)", false),
    ("SubObjectPropertyOf(:r :s)", true),
    ("SubObjectPropertyOf(:s :r)", false),
    ("SubObjectPropertyOf(ObjectPropertyChain(:r :r) :t)", true),
    (
        "SubObjectPropertyOf(ObjectPropertyChain(:r :r :r :r) :t)",
        true,
    ),
    ("SubObjectPropertyOf(ObjectPropertyChain(:s :r) :t)", false),
    ("EquivalentObjectProperties(:r :s)", false),
    ("ObjectPropertyDomain(:r :E)", true),
    ("ObjectPropertyDomain(:t :E)", false),
    ("TransitiveObjectProperty(:t)", true),
    ("TransitiveObjectProperty(:r)", false),
    ("ReflexiveObjectProperty(:q)", true),
    ("ReflexiveObjectProperty(:t)", false),
    (
        "ClassAssertion(ObjectSomeValuesFrom(:s owl:Thing) :a)",
        true,
    ),
    ("ClassAssertion(:C :a)", false),
    ("ObjectPropertyAssertion(:t :a :f)", true),
    ("ObjectPropertyAssertion(:t :a :b)", false),
    ("ObjectPropertyAssertion(:q :d :d)", true),
    ("SameIndividual(:h :g)", true),
    ("SameIndividual(:a :b)", false),
    ("DifferentIndividuals(:c :d)", true),
    ("DifferentIndividuals(:c :d :a)", false),
    ("NegativeObjectPropertyAssertion(:s :b :e)", true),
    ("NegativeObjectPropertyAssertion(:t :e :a)", false),
];

/// A session over what is known, run to its end.
fn known(alloc: Global, state: RandomState) -> Result<Option<Session>, AllocError> {
    let Some(mut session) = opened(alloc, state, 2000, KNOWN)? else {
        return Ok(None);
    };
    let right = session.resume(MANY) == Ok(());
    Ok(if right { Some(session) } else { None })
}

/// Whether the session tells of the text what the row says.
fn tells(session: &Session, row: &Row) -> bool {
    match session.entails(row.0, MANY) {
        Ok(follows) => follows == row.1,
        Err(_) => false,
    }
}

#[test]
fn what_follows(rt: HostRuntime) -> Result<(), Fail> {
    let state = RandomState::new(&rt)?;
    let session = known(rt.alloc(), state)?.ok_or("session")?;
    for row in ROWS {
        assert!(rt; tells(&session, row), "{}", row.0);
    }
    drop(session);
    Ok(())
}

/// Whether the name of the text is told as unknown.
fn is_unknown(session: &Session, text: &str, name: &str) -> bool {
    match session.entails(text, MANY) {
        Err(EntailsFault::UnknownName(told)) => told.as_str() == name,
        _ => false,
    }
}

/// Whether the text is refused as one that could not be added.
fn is_refused(session: &Session, text: &str) -> bool {
    match session.entails(text, MANY) {
        Err(EntailsFault::Statements(_)) => true,
        _ => false,
    }
}

/// Whether there are more facts than the limit.
fn is_limited(session: &Session, text: &str, max_facts: u32) -> bool {
    match session.entails(text, max_facts) {
        Err(EntailsFault::Limit) => true,
        _ => false,
    }
}

/// Whether each refusal comes where it should.
fn refuses(session: &Session) -> bool {
    is_unknown(session, "SubClassOf(:A :Q)", "x:Q")
        && is_unknown(session, "ObjectPropertyAssertion(:p :a :z)", "x:p")
        && is_unknown(session, "SameIndividual(:a :z)", "x:z")
        && is_refused(session, "SubClassOf(:A")
        && is_refused(session, "SubClassOf(:A ObjectUnionOf(:B :C))")
        && is_refused(session, "Ontology()")
        && is_limited(session, "SubClassOf(:A :B)", 10)
}

#[test]
fn what_is_refused(rt: HostRuntime) -> Result<(), Fail> {
    let state = RandomState::new(&rt)?;
    let session = known(rt.alloc(), state)?.ok_or("session")?;
    let right = refuses(&session);
    drop(session);
    assert!(rt; right);
    Ok(())
}
