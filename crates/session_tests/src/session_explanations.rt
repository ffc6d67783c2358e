//! What sessions over worked documents explain, and what they do not.

use crate::documents::session_of;
use session::{AskFault, Asked, Explanation, Limits, Session, Version};
use std::alloc::Global;
use std::hash::RandomState;
use std::test::Fail;

const ONE_SUBCLASS: &str = "Prefix(:=<x:>) Ontology(SubClassOf(:A :B))";

const REFLEXIVE_HIERARCHY: &str =
    "Prefix(:=<x:>) Ontology(ReflexiveObjectProperty(:q) SubObjectPropertyOf(:q :p) EquivalentClasses(:B ObjectSomeValuesFrom(:p :A)))";

const APART: &str =
    "Prefix(:=<x:>) Ontology(DisjointClasses(:A :B) ClassAssertion(:A :a) ClassAssertion(:B :a))";

const SAME_INDIVIDUALS: &str =
    "Prefix(:=<x:>) Ontology(SameIndividual(:a :b) ClassAssertion(:A :a) ClassAssertion(:B :b) Declaration(Class(:C)))";

/// Which explanation is wanted: so many lines, or that element of so many.
enum Wanted {
    Yes(usize),
    No(usize, usize),
    Contradictory(usize),
}

/// A question to a session over a document.
struct Row {
    case: &'static str,
    document: &'static str,
    asked: Asked<'static>,
    class: &'static str,
    wanted: Wanted,
}

const ROWS: &[Row] = &[
    Row {
        case: "A is below B by the axiom, from that A is below A",
        document: ONE_SUBCLASS,
        asked: Asked::Class("x:A"),
        class: "x:B",
        wanted: Wanted::Yes(2),
    },
    Row {
        case: "an element of B that is outside A",
        document: ONE_SUBCLASS,
        asked: Asked::Class("x:B"),
        class: "x:A",
        wanted: Wanted::No(1, 0),
    },
    Row {
        case: "of two elements the one that is in B alone",
        document: REFLEXIVE_HIERARCHY,
        asked: Asked::Class("x:B"),
        class: "x:A",
        wanted: Wanted::No(2, 0),
    },
    Row {
        case: "a is in A and in B, which are apart",
        document: APART,
        asked: Asked::Individual("x:a"),
        class: "x:A",
        wanted: Wanted::Contradictory(3),
    },
    Row {
        case: "b is in A, as it is a",
        document: SAME_INDIVIDUALS,
        asked: Asked::Individual("x:b"),
        class: "x:A",
        wanted: Wanted::Yes(3),
    },
    Row {
        case: "the one element of a and b is outside C",
        document: SAME_INDIVIDUALS,
        asked: Asked::Individual("x:b"),
        class: "x:C",
        wanted: Wanted::No(1, 0),
    },
];

/// Whether the explanation is the one that is wanted.
fn is_wanted(answer: &Result<Explanation, AskFault<'_>>, wanted: &Wanted) -> bool {
    match (answer, wanted) {
        (Ok(Explanation::Yes(lines)), Wanted::Yes(many)) => lines.len() == *many,
        (Ok(Explanation::No(part, found)), Wanted::No(size, element)) => {
            part.size() == *size && *found == *element
        }
        (Ok(Explanation::Contradictory(lines)), Wanted::Contradictory(many)) => {
            lines.len() == *many
        }
        _ => false,
    }
}

/// Whether the question is explained as it is wanted.
fn explains(session: &Session, row: &Row) -> bool {
    let answer = session.explain(row.asked, row.class);
    is_wanted(&answer, &row.wanted)
}

/// Whether the question is refused so.
fn refuses(session: &Session, asked: Asked<'_>, class: &str, fault: AskFault<'_>) -> bool {
    match session.explain(asked, class) {
        Ok(_) => false,
        Err(told) => told == fault,
    }
}

/// Whether nothing is explained: facts are pending, which is told before names that are not there.
fn is_unfinished(session: &Session, row: &Row) -> bool {
    refuses(session, row.asked, row.class, AskFault::Unfinished)
        && refuses(
            session,
            Asked::Class("x:Z"),
            row.class,
            AskFault::Unfinished,
        )
}

/// Whether of two names the first that is not there is told.
fn tells_names(session: &Session, row: &Row) -> bool {
    let (subject, class) = (AskFault::UnknownName("x:Y"), AskFault::UnknownName("x:Z"));
    refuses(session, Asked::Class("x:Y"), "x:Z", subject)
        && refuses(session, row.asked, "x:Z", class)
}

/// Whether the session, of which nothing was run, explains nothing before it is run, and then as the row says.
fn is_row(session: &mut Session, row: &Row) -> bool {
    is_unfinished(session, row)
        && session.resume(100).is_ok()
        && explains(session, row)
        && tells_names(session, row)
}

/// Whether a session over the document of the row does.
fn is_explained(alloc: Global, state: RandomState, limits: &Limits, row: &Row) -> bool {
    let Some(mut session) = session_of(alloc, state, limits, row.document) else {
        return false;
    };
    let right = is_row(&mut session, row);
    drop(session);
    right
}

#[test]
fn what_sessions_explain(rt: HostRuntime) -> Result<(), Fail> {
    let limits = Limits::new(1000, 1, Version::Two).ok_or("limits")?;
    let state = RandomState::new(&rt)?;
    for row in ROWS {
        assert!(rt;
            is_explained(rt.alloc(), state, &limits, row),
            "{}",
            row.case
        );
    }
    Ok(())
}
