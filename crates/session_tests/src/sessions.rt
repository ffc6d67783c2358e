//! Sessions over documents worked out by hand: what they answer before they are run, and when they are.
ghost use Rattle.engine.specs.Saturations.{IsSound};

use crate::documents::session_of;
use device::BufferSink;
use session::{AskFault, Format, Limits, Session, Stop, Summary, Version, WritingFault};
use std::alloc::Global;
use std::hash::RandomState;
use std::test::Fail;

/// What is asked about a class of a document, and what follows: the names, each behind a space.
struct Row {
    case: &'static str,
    document: &'static str,
    facts: u32,
    class: &'static str,
    superclasses: &'static str,
    subclasses: &'static str,
    instances: &'static str,
}

const ROWS: &[Row] = &[
    Row {
        case: "individuals_and_domain",
        document: "Prefix(:=<x:>) Ontology(SubClassOf(:A :B) ClassAssertion(:A :a) ObjectPropertyAssertion(:r :a :b) ObjectPropertyDomain(:r :C) Declaration(NamedIndividual(:c)))",
        facts: 17,
        class: "x:B",
        superclasses: " http://www.w3.org/2002/07/owl#Thing x:B",
        subclasses: " http://www.w3.org/2002/07/owl#Nothing x:A x:B",
        instances: " x:a",
    },
    Row {
        case: "unsatisfiable_class",
        document: "Prefix(:=<x:>) Ontology(SubClassOf(:A :B) SubClassOf(:A :C) DisjointClasses(:B :C))",
        facts: 12,
        class: "x:A",
        superclasses: " http://www.w3.org/2002/07/owl#Nothing http://www.w3.org/2002/07/owl#Thing x:A x:B x:C",
        subclasses: " http://www.w3.org/2002/07/owl#Nothing x:A",
        instances: "",
    },
    Row {
        case: "contradiction_by_individual",
        document: "Prefix(:=<x:>) Ontology(DisjointClasses(:A :B) ClassAssertion(:A :a) ClassAssertion(:B :a))",
        facts: 11,
        class: "x:A",
        superclasses: " http://www.w3.org/2002/07/owl#Nothing http://www.w3.org/2002/07/owl#Thing x:A x:B",
        subclasses: " http://www.w3.org/2002/07/owl#Nothing http://www.w3.org/2002/07/owl#Thing x:A x:B",
        instances: " x:a",
    },
    Row {
        case: "two_spellings_in_a_cycle",
        document: "Prefix(:=<x:>) Ontology(SubClassOf(:A :B) SubClassOf(<x:B> <x:A>))",
        facts: 9,
        class: "x:A",
        superclasses: " http://www.w3.org/2002/07/owl#Thing x:A x:B",
        subclasses: " http://www.w3.org/2002/07/owl#Nothing x:A x:B",
        instances: "",
    },
    Row {
        case: "same_individuals",
        document: "Prefix(:=<x:>) Ontology(SameIndividual(:a :b) ClassAssertion(:A :a) ClassAssertion(:B :b))",
        facts: 13,
        class: "x:B",
        superclasses: " http://www.w3.org/2002/07/owl#Thing x:B",
        subclasses: " http://www.w3.org/2002/07/owl#Nothing x:B",
        instances: " x:a x:b",
    },
    Row {
        case: "denied_by_way_of_same",
        document: "Prefix(:=<x:>) Ontology(SameIndividual(:b :c) ObjectPropertyAssertion(:r :a :b) SubObjectPropertyOf(:r :s) NegativeObjectPropertyAssertion(:s :a :c))",
        facts: 9,
        class: "http://www.w3.org/2002/07/owl#Nothing",
        superclasses: " http://www.w3.org/2002/07/owl#Nothing http://www.w3.org/2002/07/owl#Thing",
        subclasses: " http://www.w3.org/2002/07/owl#Nothing http://www.w3.org/2002/07/owl#Thing",
        instances: " x:a x:b x:c",
    },
];

/// Whether the names are these, each behind a space.
pub(crate) fn are_names(names: &[&str], wanted: &str) -> bool {
    let mut rest = wanted;
    for name in names {
        match rest.strip_prefix(' ') {
            Some(behind) => match behind.strip_prefix(*name) {
                Some(behind) => rest = behind,
                None => return false,
            },
            None => return false,
        }
    }
    rest.is_empty()
}

/// Whether the answer is these names.
pub(crate) fn is_answer(answer: Result<Vec<&str>, AskFault<'_>>, wanted: &str) -> bool {
    match answer {
        Ok(names) => are_names(&names, wanted),
        Err(_) => false,
    }
}

/// Whether the answer is this fault.
pub(crate) fn is_fault(answer: Result<Vec<&str>, AskFault<'_>>, wanted: AskFault<'_>) -> bool {
    match answer {
        Ok(_) => false,
        Err(fault) => fault == wanted,
    }
}

/// Whether each question about the class is refused so.
fn refuses(session: &Session, class: &str, wanted: AskFault<'_>) -> bool {
    is_fault(session.superclasses(class), wanted)
        && is_fault(session.subclasses(class), wanted)
        && is_fault(session.instances(class), wanted)
}

/// Whether the session answers as the row says.
fn answers(session: &Session, row: &Row) -> bool {
    is_answer(session.superclasses(row.class), row.superclasses)
        && is_answer(session.subclasses(row.class), row.subclasses)
        && is_answer(session.instances(row.class), row.instances)
}

/// Whether nothing is answered: facts are pending, which is told before a name that is not there.
fn is_unfinished(session: &Session, row: &Row) -> bool {
    refuses(session, row.class, AskFault::Unfinished)
        && refuses(session, "x:Z", AskFault::Unfinished)
}

/// Whether the facts are counted, the questions answered, and a name that is not there told.
fn is_ended(session: &Session, row: &Row) -> bool {
    facts_of_the_closure(session) == row.facts as usize
        && session.served() == row.facts as usize
        && answers(session, row)
        && refuses(session, "x:Z", AskFault::UnknownName("x:Z"))
}

/// Whether the session stops at half of its facts, with nothing answered, and is run to its end then.
fn is_run(session: &mut Session, row: &Row) -> bool {
    let stopped = session.resume(row.facts / 2) == Err(Stop::Limit);
    let unfinished = is_unfinished(session, row);
    stopped && unfinished && session.resume(row.facts) == Ok(())
}

/// Of any session it can be cited that its facts are facts of the closure of its ontology, here in a contract.
fn facts_of_the_closure(session: &Session) -> usize
    ensures { IsSound session.now.ontology session.now.saturation }
{
    session.well_formed();
    session.facts()
}

/// Whether the session, of which nothing was run, answers as the row says.
fn is_row(session: &mut Session, row: &Row) -> bool {
    is_unfinished(session, row) && is_run(session, row) && is_ended(session, row)
}

/// Whether a session over the document of the row answers as it says.
fn is_answered(alloc: Global, state: RandomState, limits: &Limits, row: &Row) -> bool {
    let Some(mut session) = session_of(alloc, state, limits, row.document) else {
        return false;
    };
    let right = is_row(&mut session, row);
    drop(session);
    right
}

#[test]
fn what_follows(rt: HostRuntime) -> Result<(), Fail> {
    let limits = Limits::new(1000, 1, Version::Two).ok_or("limits")?;
    let state = RandomState::new(&rt)?;
    for row in ROWS {
        assert!(rt;
            is_answered(rt.alloc(), state, &limits, row),
            "{}",
            row.case
        );
    }
    Ok(())
}

/// What the sinks took of the texts of a session, and what it said.
#[derive(Drop)]
pub(crate) struct Taken {
    pub(crate) taxonomy: Vec<u8>,
    pub(crate) instances: Vec<u8>,
    certificate: Vec<u8>,
    pub(crate) summary: Result<Summary, WritingFault>,
}

pub(crate) fn written(alloc: Global, session: &Session) -> Taken {
    let mut taxonomy = BufferSink::new(alloc);
    let mut instances = BufferSink::new(alloc);
    let mut certificate = BufferSink::new(alloc);
    let summary = session.write(&mut taxonomy, &mut instances, &mut certificate, Format::Two);
    Taken {
        taxonomy: taxonomy.into_bytes(),
        instances: instances.into_bytes(),
        certificate: certificate.into_bytes(),
        summary,
    }
}

const SUMMARY: Summary = Summary {
    consistent: true,
    classes: 4,
    individuals: 0,
    facts: 8,
};

const TAXONOMY: &str =
    "eltax 1 consistent\n<http://www.w3.org/2002/07/owl#Thing>\n<x:A> < <x:B>\n<x:B> < <http://www.w3.org/2002/07/owl#Thing>\nbottom <http://www.w3.org/2002/07/owl#Nothing>\n";

/// Whether nothing is written.
fn is_unwritten(alloc: Global, session: &Session) -> bool {
    let written = written(alloc, session);
    written.summary == Err(WritingFault::Unfinished)
        && written.taxonomy.is_empty()
        && written.instances.is_empty()
        && written.certificate.is_empty()
}

/// Whether the texts are written.
fn is_written(alloc: Global, session: &Session) -> bool {
    let written = written(alloc, session);
    written.summary == Ok(SUMMARY)
        && written.taxonomy.as_slice() == TAXONOMY.as_bytes()
        && written.instances.as_slice() == b"elinst 1 consistent\n".as_slice()
        && written
            .certificate
            .starts_with(b"elcert 2 consistent\n".as_slice())
}

/// Whether nothing is written before the session is run, and the texts when it is.
fn writes(alloc: Global, session: &mut Session) -> bool {
    is_unwritten(alloc, session) && session.resume(8).is_ok() && is_written(alloc, session)
}

/// Whether a session over the document of one subclass axiom writes its texts.
fn is_told(alloc: Global, state: RandomState, limits: &Limits) -> bool {
    let document = "Ontology(SubClassOf(<x:A> <x:B>))";
    let Some(mut session) = session_of(alloc, state, limits, document) else {
        return false;
    };
    let right = writes(alloc, &mut session);
    drop(session);
    right
}

#[test]
fn texts_of_a_session(rt: HostRuntime) -> Result<(), Fail> {
    let limits = Limits::new(33, 1, Version::Two).ok_or("limits")?;
    let state = RandomState::new(&rt)?;
    assert!(rt; is_told(rt.alloc(), state, &limits));
    Ok(())
}
