//! What is lacked to be in a class, of documents worked out by hand: the conditions, and the texts of the answers.

use crate::documents::session_of;
use device::SliceSource;
use session::{
    Answer, Asked, Condition, Lacking, Limits, Question, QuestionFault, Session, Spelling, Version,
    question_text,
};
use std::alloc::Global;
use std::hash::RandomState;
use std::test::Fail;

/// What is asked of a document, and the text that answers.
struct Row {
    case: &'static str,
    document: &'static str,
    asked: Asked<'static>,
    class: &'static str,
    text: &'static str,
}

const TWO_CONDITIONS: &str =
    "Prefix(:=<x:>) Ontology(SubClassOf(:A :B) EquivalentClasses(:D ObjectIntersectionOf(:B ObjectSomeValuesFrom(:r :C))) SubClassOf(ObjectSomeValuesFrom(:s :C) :D))";

const INDIVIDUALS: &str =
    "Prefix(:=<x:>) Ontology(ClassAssertion(:B :a) SubClassOf(ObjectIntersectionOf(:B :C) :D) SameIndividual(:a :b) ObjectPropertyAssertion(:r :c :a) SubClassOf(ObjectSomeValuesFrom(:r :B) :E))";

const ROWS: &[Row] = &[
    Row {
        case: "in the order of the axioms",
        document: TWO_CONDITIONS,
        asked: Asked::Class("x:A"),
        class: "x:D",
        text: "axiom 2\nhas <x:B>\nlacks ObjectSomeValuesFrom(<x:r> <x:C>)\naxiom 3\nlacks ObjectSomeValuesFrom(<x:s> <x:C>)\n",
    },
    Row {
        case: "of another class",
        document: TWO_CONDITIONS,
        asked: Asked::Class("x:C"),
        class: "x:D",
        text: "axiom 2\nlacks <x:B>\nlacks ObjectSomeValuesFrom(<x:r> <x:C>)\naxiom 3\nlacks ObjectSomeValuesFrom(<x:s> <x:C>)\n",
    },
    Row {
        case: "what is below it lacks nothing",
        document: TWO_CONDITIONS,
        asked: Asked::Class("x:A"),
        class: "x:B",
        text: "yes\n",
    },
    Row {
        case: "a class lacks nothing to be itself",
        document: TWO_CONDITIONS,
        asked: Asked::Class("x:D"),
        class: "x:D",
        text: "yes\n",
    },
    Row {
        case: "no axiom concludes it",
        document: TWO_CONDITIONS,
        asked: Asked::Class("x:B"),
        class: "x:C",
        text: "no condition\n",
    },
    Row {
        case: "the right side is no condition",
        document: TWO_CONDITIONS,
        asked: Asked::Class("x:B"),
        class: "x:A",
        text: "no condition\n",
    },
    Row {
        case: "each other operand, a condition of its own",
        document: "Prefix(:=<x:>) Ontology(SubClassOf(:E :C) EquivalentClasses(:B :A ObjectIntersectionOf(:C :D)))",
        asked: Asked::Class("x:E"),
        class: "x:A",
        text: "axiom 2\nlacks <x:B>\naxiom 2\nhas <x:C>\nlacks <x:D>\n",
    },
    Row {
        case: "the class is no condition for itself",
        document: "Prefix(:=<x:>) Ontology(SubClassOf(:A :A) Declaration(Class(:B)))",
        asked: Asked::Class("x:B"),
        class: "x:A",
        text: "no condition\n",
    },
    Row {
        case: "a part that follows by a successor",
        document: "Prefix(:=<x:>) Ontology(SubClassOf(:A ObjectSomeValuesFrom(:r :E)) SubClassOf(:E :C) SubClassOf(ObjectIntersectionOf(:G ObjectSomeValuesFrom(:r :C)) :D))",
        asked: Asked::Class("x:A"),
        class: "x:D",
        text: "axiom 3\nlacks <x:G>\nhas ObjectSomeValuesFrom(<x:r> <x:C>)\n",
    },
    Row {
        case: "what has no instance lacks nothing",
        document: "Prefix(:=<x:>) Ontology(SubClassOf(:A :B) SubClassOf(:A :C) DisjointClasses(:B :C) Declaration(Class(:D)))",
        asked: Asked::Class("x:A"),
        class: "x:D",
        text: "yes\n",
    },
    Row {
        case: "where there is no interpretation nothing is lacked",
        document: "Prefix(:=<x:>) Ontology(SubClassOf(<http://www.w3.org/2002/07/owl#Thing> <http://www.w3.org/2002/07/owl#Nothing>) Declaration(Class(:A)) Declaration(Class(:B)))",
        asked: Asked::Class("x:A"),
        class: "x:B",
        text: "yes\n",
    },
    Row {
        case: "an individual",
        document: INDIVIDUALS,
        asked: Asked::Individual("x:a"),
        class: "x:D",
        text: "axiom 2\nhas <x:B>\nlacks <x:C>\n",
    },
    Row {
        case: "another name of it",
        document: INDIVIDUALS,
        asked: Asked::Individual("x:b"),
        class: "x:D",
        text: "axiom 2\nhas <x:B>\nlacks <x:C>\n",
    },
    Row {
        case: "an individual by its pair",
        document: INDIVIDUALS,
        asked: Asked::Individual("x:c"),
        class: "x:E",
        text: "yes\n",
    },
    Row {
        case: "an individual that is in no part",
        document: INDIVIDUALS,
        asked: Asked::Individual("x:c"),
        class: "x:D",
        text: "axiom 2\nlacks <x:B>\nlacks <x:C>\n",
    },
];

/// Names that a document lacks, and the one that is told.
const UNKNOWN: &[(Asked<'static>, &str, &str)] = &[
    (Asked::Class("x:Z"), "x:Y", "x:Z"),
    (Asked::Class("x:A"), "x:Y", "x:Y"),
    (Asked::Individual("x:A"), "x:D", "x:A"),
];

/// The answer in memory.
fn answer<'n>(
    alloc: Global,
    state: RandomState,
    limits: &Limits,
    document: &str,
    question: Question<'n>,
) -> Result<Vec<u8>, QuestionFault<'n>> {
    let mut source = SliceSource::new(document.as_bytes());
    question_text(alloc, &mut source, question, Spelling::Full, limits, state)
}

/// Whether the text answers the question.
fn answers(alloc: Global, state: RandomState, limits: &Limits, row: &Row) -> bool {
    let question = Question::Lacks(row.asked, row.class);
    match answer(alloc, state, limits, row.document, question) {
        Ok(text) => text.as_slice() == row.text.as_bytes(),
        Err(_) => false,
    }
}

#[test]
fn texts_of_what_is_lacked(rt: HostRuntime) -> Result<(), Fail> {
    let state = RandomState::new(&rt)?;
    let limits = Limits::new(1000, 100, Version::Two).ok_or("limits")?;
    for row in ROWS {
        assert!(rt; answers(rt.alloc(), state, &limits, row), "{}", row.case);
    }
    Ok(())
}

/// Whether that name is told as unknown.
fn is_unknown(
    alloc: Global,
    state: RandomState,
    limits: &Limits,
    question: Question<'_>,
    unknown: &str,
) -> bool {
    match answer(alloc, state, limits, TWO_CONDITIONS, question) {
        Err(QuestionFault::UnknownName(name)) => name == unknown,
        _ => false,
    }
}

#[test]
fn names_that_are_lacked(rt: HostRuntime) -> Result<(), Fail> {
    let state = RandomState::new(&rt)?;
    let limits = Limits::new(1000, 100, Version::Two).ok_or("limits")?;
    for row in UNKNOWN {
        let (asked, class, unknown) = *row;
        let question = Question::Lacks(asked, class);
        assert!(rt;
            is_unknown(rt.alloc(), state, &limits, question, unknown),
            "{unknown}"
        );
    }
    Ok(())
}

/// Whether the axiom of that number states it, and the first of its two parts alone is had.
fn is_had_in_part(condition: &Condition, axiom: usize) -> bool {
    match condition.parts.as_slice() {
        [first, second] => condition.axiom == axiom && first.has && !second.has,
        _ => false,
    }
}

/// Whether of what is lacked in the document the first condition is had in part, and there is one more.
fn lacks_in_part(session: &Session) -> bool {
    match session.ask(Question::Lacks(Asked::Class("x:A"), "x:D")) {
        Ok(Answer::Lacks(Lacking::Conditions(conditions))) => match conditions.as_slice() {
            [first, second] => is_had_in_part(first, 2) && second.axiom == 3,
            _ => false,
        },
        _ => false,
    }
}

#[test]
fn conditions_of_a_session(rt: HostRuntime) -> Result<(), Fail> {
    let state = RandomState::new(&rt)?;
    let limits = Limits::new(1000, 100, Version::Two).ok_or("limits")?;
    let session = session_of(rt.alloc(), state, &limits, TWO_CONDITIONS);
    let mut session = session.ok_or("session")?;
    let right = session.resume(100) == Ok(()) && lacks_in_part(&session);
    drop(session);
    assert!(rt; right);
    Ok(())
}
