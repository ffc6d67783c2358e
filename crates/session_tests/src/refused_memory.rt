//! Sessions to which memory is refused once: what was refused is done when it is asked for again, and is the same then.
//!
//! The test holds whichever one allocation of it is refused; where none is, it holds, too.

use crate::additions::{MANY, is_ended, seen};
use device::SliceSource;
use session::{Answers, DocumentFault, Limits, QueryFault, Session, Stop, Version};
use std::alloc::Global;
use std::hash::RandomState;
use std::test::Fail;

/// How many facts there are, and which individuals answer the query then.
struct Stage {
    facts: usize,
    instances: &'static [&'static str],
}

/// A document, a query, the classes above and below it, and what else is there before the addition and behind it.
struct Row {
    case: &'static str,
    document: &'static str,
    query: &'static str,
    superclasses: &'static [&'static str],
    subclasses: &'static [&'static str],
    before: Stage,
    addition: &'static str,
    behind: Stage,
}

const ROWS: &[Row] = &[
    Row {
        case: "individuals_and_domain",
        document: "Prefix(:=<x:>) Ontology(SubClassOf(:A :B) ClassAssertion(:A :a) ObjectPropertyAssertion(:r :a :b) ObjectPropertyDomain(:r :C) Declaration(NamedIndividual(:c)))",
        query: "ObjectSomeValuesFrom(:r owl:Thing)",
        superclasses: &["http://www.w3.org/2002/07/owl#Thing", "x:C"],
        subclasses: &["http://www.w3.org/2002/07/owl#Nothing"],
        before: Stage {
            facts: 17,
            instances: &["x:a"],
        },
        addition: "ClassAssertion(:B :d)",
        behind: Stage {
            facts: 19,
            instances: &["x:a"],
        },
    },
    Row {
        case: "same_individuals",
        document: "Prefix(:=<x:>) Ontology(ClassAssertion(:A :a) ClassAssertion(:B :b))",
        query: ":A",
        superclasses: &["http://www.w3.org/2002/07/owl#Thing", "x:A"],
        subclasses: &["http://www.w3.org/2002/07/owl#Nothing", "x:A"],
        before: Stage {
            facts: 11,
            instances: &["x:a"],
        },
        addition: "SameIndividual(:a :b)",
        behind: Stage {
            facts: 13,
            instances: &["x:a", "x:b"],
        },
    },
];

const LIMITS: Limits = Limits {
    max_bytes: 1000,
    max_facts: 1000,
    version: Version::Two,
};

/// Opens the document, once more where memory was refused.
fn opened(alloc: Global, state: RandomState, document: &str) -> Option<Session> {
    let mut source = SliceSource::new(document.as_bytes());
    match Session::open(alloc, &mut source, &LIMITS, state) {
        Ok(session) => Some(session),
        Err(DocumentFault::Memory) => {
            let mut again = SliceSource::new(document.as_bytes());
            Session::open(alloc, &mut again, &LIMITS, state).ok()
        }
        Err(_) => None,
    }
}

/// Whether the session runs to so many facts, called once more where memory was refused.
fn resumes(session: &mut Session, facts: usize) -> bool {
    let ended = match session.resume(MANY) {
        Ok(()) => true,
        Err(Stop::Limit) => false,
        Err(Stop::Memory) => session.resume(MANY) == Ok(()),
    };
    ended && is_ended(session, facts)
}

/// Whether the answers are those of the query at that stage.
fn are_answers(answers: &Answers<'_>, row: &Row, stage: &Stage) -> bool {
    answers.superclasses.as_slice() == row.superclasses
        && answers.subclasses.as_slice() == row.subclasses
        && answers.instances.as_slice() == stage.instances
}

/// Whether the query is answered, or nothing where memory was refused.
fn answered(session: &Session, row: &Row, stage: &Stage) -> Option<bool> {
    match session.query(row.query, MANY) {
        Ok(answers) => Some(are_answers(&answers, row, stage)),
        Err(QueryFault::Memory) => None,
        Err(QueryFault::Expression(DocumentFault::Memory)) => None,
        Err(_) => Some(false),
    }
}

/// Whether the query is answered, asked once more where memory was refused, and the session stays as it is either time.
fn answers(session: &Session, row: &Row, stage: &Stage) -> bool {
    let before = seen(session);
    let first = answered(session, row, stage);
    if seen(session) != before {
        return false;
    }
    let right = match first {
        Some(right) => right,
        None => answered(session, row, stage) == Some(true),
    };
    right && seen(session) == before
}

/// Whether the text is added, once more where memory was refused, which leaves all as it was.
fn adds(session: &mut Session, addition: &str) -> bool {
    let before = seen(session);
    match session.add(addition) {
        Ok(()) => true,
        Err(DocumentFault::Memory) => seen(session) == before && session.add(addition).is_ok(),
        Err(_) => false,
    }
}

/// Whether all comes as it has to.
fn holds(session: &mut Session, row: &Row) -> bool {
    resumes(session, row.before.facts)
        && answers(session, row, &row.before)
        && adds(session, row.addition)
        && resumes(session, row.behind.facts)
        && answers(session, row, &row.behind)
}

/// Whether a session is opened over the document, and all comes as it has to.
fn is_right(alloc: Global, state: RandomState, row: &Row) -> bool {
    let Some(mut session) = opened(alloc, state, row.document) else {
        return false;
    };
    let right = holds(&mut session, row);
    drop(session);
    right
}

#[test]
fn memory_is_refused_once(rt: HostRuntime) -> Result<(), Fail> {
    let state = RandomState::new(&rt)?;
    for row in ROWS {
        assert!(rt; is_right(rt.alloc(), state, row), "{}", row.case);
    }
    Ok(())
}
