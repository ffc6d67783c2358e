//! The classes of an individual, and those without elements, as a session tells them.

use crate::documents::session_of;
use crate::sessions::{are_names, is_answer, is_fault};
use session::{AskFault, Limits, Session, Version};
use std::hash::RandomState;
use std::test::Fail;

const DOCUMENT: &str =
    "Prefix(:=<x:>) Ontology(EquivalentClasses(:B :A) SubClassOf(:A :C) SubClassOf(:D :E) DisjointClasses(:C :D) SubClassOf(:F :C) SubClassOf(:F :D) ClassAssertion(:B :a) ClassAssertion(:E :a))";

/// Whether the answer is two groups of these names.
fn are_two_groups(answer: Result<Vec<Vec<&str>>, AskFault<'_>>, first: &str, second: &str) -> bool {
    match answer {
        Ok(groups) => {
            groups.len() == 2 && are_names(&groups[0], first) && are_names(&groups[1], second)
        }
        Err(_) => false,
    }
}

/// Whether it is told that facts are pending.
fn is_unfinished(session: &Session) -> bool {
    is_fault(session.unsatisfiable(), AskFault::Unfinished)
        && is_fault(session.types("x:a"), AskFault::Unfinished)
        && is_fault(session.types("x:z"), AskFault::Unfinished)
}

/// Whether the session answers what was worked out by hand.
fn answers(session: &Session) -> bool {
    is_answer(session.unsatisfiable(), " x:F")
        && is_answer(
            session.types("x:a"),
            " http://www.w3.org/2002/07/owl#Thing x:A x:B x:C x:E",
        )
        && are_two_groups(session.direct_types("x:a"), " x:A x:B", " x:E")
        && is_fault(session.types("x:z"), AskFault::UnknownName("x:z"))
}

#[test]
fn classes_of_an_individual(rt: HostRuntime) -> Result<(), Fail> {
    let state = RandomState::new(&rt)?;
    let limits = Limits::new(1000, 100, Version::Two).ok_or("limits")?;
    let mut session = session_of(rt.alloc(), state, &limits, DOCUMENT).ok_or("session")?;
    let unfinished = is_unfinished(&session);
    let ended = session.resume(100) == Ok(());
    let right = answers(&session);
    drop(session);
    assert!(rt; unfinished && ended && right);
    Ok(())
}
