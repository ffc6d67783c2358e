//! Queries of class expressions: what they answer, what they refuse, and that the session stays as it is.

use crate::additions::{
    A_BELOW_B, CHAIN_INTO_A_DEFINITION, INDIVIDUALS_AND_DOMAIN, MANY, is_ended, opened, seen,
};
use device::SliceSource;
use session::{
    Answers, Limits, QueryFault, QuestionFault, Session, Spelling, Stop, Version, query_text,
};
use std::alloc::{AllocError, Global};
use std::hash::RandomState;
use std::test::Fail;

const THING: &str = "http://www.w3.org/2002/07/owl#Thing";

const NOTHING: &str = "http://www.w3.org/2002/07/owl#Nothing";

// ---- what is answered

/// The axioms of a document, a query, how many facts the document has, how many there are with the expression, and the names that
/// answer it.
#[derive(Drop)]
struct Row {
    case: &'static str,
    document: &'static str,
    query: &'static str,
    facts: usize,
    with: u32,
    superclasses: &'static [&'static str],
    subclasses: &'static [&'static str],
    instances: &'static [&'static str],
}

const SOMETHING_OF_H: &str = "ObjectSomeValuesFrom(:loc :H)";

const ROWS: &[Row] = &[
    Row {
        case: "an expression that has a name",
        document: CHAIN_INTO_A_DEFINITION,
        query: SOMETHING_OF_H,
        facts: 20,
        with: 24,
        superclasses: &[THING, "x:D"],
        subclasses: &[NOTHING, "x:D", "x:E"],
        instances: &[],
    },
    Row {
        case: "a class",
        document: CHAIN_INTO_A_DEFINITION,
        query: ":E",
        facts: 20,
        with: 20,
        superclasses: &[THING, "x:D", "x:E"],
        subclasses: &[NOTHING, "x:E"],
        instances: &[],
    },
    Row {
        case: "all things",
        document: CHAIN_INTO_A_DEFINITION,
        query: "owl:Thing",
        facts: 20,
        with: 20,
        superclasses: &[THING],
        subclasses: &[NOTHING, THING, "x:D", "x:E", "x:H", "x:W"],
        instances: &[],
    },
    Row {
        case: "an expression with no class below it",
        document: CHAIN_INTO_A_DEFINITION,
        query: "ObjectSomeValuesFrom(:part :W)",
        facts: 20,
        with: 23,
        superclasses: &[THING],
        subclasses: &[NOTHING],
        instances: &[],
    },
    Row {
        case: "an intersection",
        document: CHAIN_INTO_A_DEFINITION,
        query: "ObjectIntersectionOf(:D :E)",
        facts: 20,
        with: 29,
        superclasses: &[THING, "x:D", "x:E"],
        subclasses: &[NOTHING, "x:E"],
        instances: &[],
    },
    Row {
        case: "whatever a property leads on from",
        document: INDIVIDUALS_AND_DOMAIN,
        query: "ObjectSomeValuesFrom(:r owl:Thing)",
        facts: 17,
        with: 23,
        superclasses: &[THING, "x:C"],
        subclasses: &[NOTHING],
        instances: &["x:a"],
    },
    Row {
        case: "an intersection that an individual is in",
        document: INDIVIDUALS_AND_DOMAIN,
        query: "ObjectIntersectionOf(:A :C)",
        facts: 17,
        with: 23,
        superclasses: &[THING, "x:A", "x:B", "x:C"],
        subclasses: &[NOTHING],
        instances: &["x:a"],
    },
    Row {
        case: "an expression without elements",
        document: "SubClassOf(:A :B) DisjointClasses(:B :C)",
        query: "ObjectIntersectionOf(:A :C)",
        facts: 10,
        with: 16,
        superclasses: &[NOTHING, THING, "x:A", "x:B", "x:C"],
        subclasses: &[NOTHING],
        instances: &[],
    },
    Row {
        case: "axioms that contradict each other",
        document: "DisjointClasses(:A :B) ClassAssertion(:A :a) ClassAssertion(:B :a)",
        query: "ObjectIntersectionOf(:A :B)",
        facts: 11,
        with: 17,
        superclasses: &[NOTHING, THING, "x:A", "x:B"],
        subclasses: &[NOTHING, THING, "x:A", "x:B"],
        instances: &["x:a"],
    },
    Row {
        case: "a reflexive property",
        document: "ReflexiveObjectProperty(:q) SubClassOf(:A :B)",
        query: "ObjectSomeValuesFrom(:q :B)",
        facts: 12,
        with: 19,
        superclasses: &[THING],
        subclasses: &[NOTHING, "x:A", "x:B"],
        instances: &[],
    },
    Row {
        case: "an expression within another",
        document: "SubClassOf(:A ObjectSomeValuesFrom(:r ObjectSomeValuesFrom(:s :B)))",
        query: "ObjectSomeValuesFrom(:r ObjectSomeValuesFrom(:s owl:Thing))",
        facts: 12,
        with: 22,
        superclasses: &[THING],
        subclasses: &[NOTHING, "x:A"],
        instances: &[],
    },
    Row {
        case: "an intersection of classes of two individuals that are one",
        document: "SameIndividual(:a :b) ClassAssertion(:A :a) ClassAssertion(:B :b)",
        query: "ObjectIntersectionOf(:A :B)",
        facts: 13,
        with: 19,
        superclasses: &[THING, "x:A", "x:B"],
        subclasses: &[NOTHING],
        instances: &["x:a", "x:b"],
    },
    Row {
        case: "comments, line breaks and no space",
        document: CHAIN_INTO_A_DEFINITION,
        query: "# what\r\nObjectSomeValuesFrom # by\n(\t<x:loc>:H)# all",
        facts: 20,
        with: 24,
        superclasses: &[THING, "x:D"],
        subclasses: &[NOTHING, "x:D", "x:E"],
        instances: &[],
    },
];

/// Whether the answers are those of the row.
fn are_answers(answers: &Answers<'_>, row: &Row) -> bool {
    answers.superclasses.as_slice() == row.superclasses
        && answers.subclasses.as_slice() == row.subclasses
        && answers.instances.as_slice() == row.instances
}

/// Whether the query is answered within so many facts.
fn is_answered(session: &Session, row: &Row, max_facts: u32) -> bool {
    match session.query(row.query, max_facts) {
        Ok(answers) => are_answers(&answers, row),
        Err(_) => false,
    }
}

/// Whether the query is stopped where there may be one fact fewer.
fn is_stopped(session: &Session, row: &Row) -> bool {
    match session.query(row.query, row.with.saturating_sub(1)) {
        Err(QueryFault::Limit) => true,
        _ => false,
    }
}

/// Whether the query is answered within its facts and not within fewer, as often as it is asked, and the session stays as it is.
fn answers(session: &Session, row: &Row) -> bool {
    let before = seen(session);
    is_ended(session, row.facts)
        && is_stopped(session, row)
        && is_ended(session, row.facts)
        && is_answered(session, row, row.with)
        && is_answered(session, row, MANY)
        && is_stopped(session, row)
        && is_ended(session, row.facts)
        && seen(session) == before
}

/// A session over the document of the axioms, run to its end, where so many bytes are allowed.
fn ended(
    alloc: Global,
    state: RandomState,
    max_bytes: u64,
    axioms: &str,
) -> Result<Option<Session>, AllocError> {
    let Some(mut session) = opened(alloc, state, max_bytes, axioms)? else {
        return Ok(None);
    };
    let right = session.resume(MANY) == Ok(());
    Ok(if right { Some(session) } else { None })
}

/// Whether a session over the document of the row answers as it says.
fn is_row(alloc: Global, state: RandomState, row: &Row) -> Result<bool, AllocError> {
    let Some(session) = ended(alloc, state, 1000, row.document)? else {
        return Ok(false);
    };
    let right = answers(&session, row);
    drop(session);
    Ok(right)
}

#[test]
fn what_is_answered(rt: HostRuntime) -> Result<(), Fail> {
    let state = RandomState::new(&rt)?;
    for row in ROWS {
        assert!(rt; is_row(rt.alloc(), state, row)?, "{}", row.case);
    }
    Ok(())
}

/// Whether the session answers each of the queries of the document.
fn answers_each(session: &Session) -> bool {
    for row in ROWS {
        if row.document == CHAIN_INTO_A_DEFINITION && !answers(session, row) {
            return false;
        }
    }
    true
}

#[test]
fn one_query_after_the_other(rt: HostRuntime) -> Result<(), Fail> {
    let state = RandomState::new(&rt)?;
    let session = ended(rt.alloc(), state, 1000, CHAIN_INTO_A_DEFINITION)?;
    let session = session.ok_or("session")?;
    let right = answers_each(&session) && answers_each(&session);
    drop(session);
    assert!(rt; right);
    Ok(())
}

// ---- behind an addition

const MORE: &str = "SubClassOf(:B ObjectSomeValuesFrom(:r :C)) ClassAssertion(:A :a)";

/// What is asked about A below B and what is added to it.
const BEHIND: Row = Row {
    case: "names that were added",
    document: A_BELOW_B,
    query: "ObjectSomeValuesFrom(:r :C)",
    facts: 19,
    with: 22,
    superclasses: &[THING],
    subclasses: &[NOTHING, "x:A", "x:B"],
    instances: &["x:a"],
};

/// Whether the text is refused because facts are pending.
fn is_unfinished(session: &Session, text: &str) -> bool {
    match session.query(text, MANY) {
        Err(QueryFault::Unfinished) => true,
        _ => false,
    }
}

/// Whether nothing is answered while facts are pending: neither what is right, nor what is not, nor, behind the addition, what has one
/// byte more than there may be.
fn answers_nothing(session: &Session) -> bool {
    let before = seen(session);
    is_unfinished(session, ":B")
        && is_unfinished(session, "^")
        && is_unfinished(session, ":Q")
        && is_unfinished(session, "")
        && is_unfinished(session, TOO_LARGE)
        && seen(session) == before
}

/// Whether nothing is answered before the first run and behind an addition, and what was added is part of the answers then.
fn answers_behind(alloc: Global, session: &mut Session) -> Result<bool, AllocError> {
    Ok(
        answers_nothing(session)
            && session.resume(7) == Err(Stop::Limit)
            && answers_nothing(session)
            && session.resume(8) == Ok(())
            && refuses(alloc, session, BEHIND.query, "F8 at byte 21\nF8 at byte 24")?
            && session.add(MORE).is_ok()
            && answers_nothing(session)
            && session.resume(MANY) == Ok(())
            && answers(session, &BEHIND),
    )
}

#[test]
fn behind_an_addition(rt: HostRuntime) -> Result<(), Fail> {
    let state = RandomState::new(&rt)?;
    let session = opened(rt.alloc(), state, 133, A_BELOW_B)?;
    let mut session = session.ok_or("session")?;
    let right = answers_behind(rt.alloc(), &mut session)?;
    drop(session);
    assert!(rt; right);
    Ok(())
}

// ---- what is refused

/// What is told of the text where it is refused and nothing changes.
fn refusal(alloc: Global, session: &Session, text: &str) -> Result<Option<String>, AllocError> {
    let before = seen(session);
    match session.query(text, MANY) {
        Err(QueryFault::Expression(fault)) => {
            let told = format!(in alloc; "{fault}")?;
            Ok(if seen(session) == before {
                Some(told)
            } else {
                None
            })
        }
        _ => Ok(None),
    }
}

/// Whether the text is refused so, and nothing changes.
fn refuses(alloc: Global, session: &Session, text: &str, told: &str) -> Result<bool, AllocError> {
    match refusal(alloc, session, text)? {
        Some(found) => Ok(found.as_str() == told),
        None => Ok(false),
    }
}

/// Texts of faults over A below B, and what is told.
const REFUSED: &[(&str, &str)] = &[
    (
        "ObjectSomeValuesFrom(:loc :Q)",
        "F8 at byte 21\nF8 at byte 26",
    ),
    (
        "ObjectIntersectionOf(:A :Q :B :Q)",
        "F8 at byte 24\nF4 at byte 30",
    ),
    (
        "ObjectIntersectionOf(:A ObjectSomeValuesFrom(:A :B))",
        "F8 at byte 45",
    ),
    ("owl:real", "F5 at byte 0"),
    (":A :B", "P1 at byte 3"),
    (":A)", "P1 at byte 2"),
    ("", "P2 at byte 0"),
    ("# nothing", "P2 at byte 0"),
    ("ObjectIntersectionOf(:A :B", "P2 at byte 26"),
    ("q:A", "P3 at byte 0"),
    ("^", "X1 at byte 0"),
    ("SubClassOf(:A :B)", "F3 at byte 0"),
    ("SameIndividual(:A :B)", "F3 at byte 0"),
    ("Declaration(Class(:A))", "F3 at byte 0"),
    ("ObjectIntersectionOf(:A)", "F3 at byte 0"),
    ("ObjectUnionOf(:A :B)", "F1 at byte 0: ObjectUnionOf"),
    ("Frobnicate(:A)", "F2 at byte 0: Frobnicate"),
    ("_:a", "F6 at byte 0"),
];

/// Whether each of the texts is refused.
fn are_refused(alloc: Global, session: &Session) -> Result<bool, AllocError> {
    for row in REFUSED {
        let (text, told) = *row;
        if !refuses(alloc, session, text, told)? {
            return Ok(false);
        }
    }
    Ok(true)
}

#[test]
fn refused_texts(rt: HostRuntime) -> Result<(), Fail> {
    let state = RandomState::new(&rt)?;
    let session = ended(rt.alloc(), state, 1000, A_BELOW_B)?.ok_or("session")?;
    let right = are_refused(rt.alloc(), &session)?;
    drop(session);
    assert!(rt; right);
    Ok(())
}

/// Whether the query, cut after each of its bytes but the last, is refused, and is answered then.
fn are_cuts_refused(alloc: Global, session: &Session, row: &Row) -> Result<bool, AllocError> {
    for length in 0..row.query.len() {
        let Some(cut) = row.query.get(..length) else {
            return Ok(false);
        };
        if refusal(alloc, session, cut)?.is_none() {
            return Ok(false);
        }
    }
    Ok(answers(session, row))
}

/// Whether a class that the document lacks is told alone, beside a property that it has; and cuts of the first query are refused.
fn refuses_over_the_chain(alloc: Global, session: &Session) -> Result<bool, AllocError> {
    let Some(row) = ROWS.first() else {
        return Ok(false);
    };
    Ok(
        refuses(
            alloc,
            session,
            "ObjectSomeValuesFrom(:loc :Q)",
            "F8 at byte 26",
        )? && are_cuts_refused(alloc, session, row)?,
    )
}

#[test]
fn cut_queries(rt: HostRuntime) -> Result<(), Fail> {
    let state = RandomState::new(&rt)?;
    let session = ended(rt.alloc(), state, 1000, CHAIN_INTO_A_DEFINITION)?;
    let session = session.ok_or("session")?;
    let right = refuses_over_the_chain(rt.alloc(), &session)?;
    drop(session);
    assert!(rt; right);
    Ok(())
}

/// So many restrictions, each inside of the one before it, around the class H.
fn deep(alloc: Global, levels: usize) -> Result<String, AllocError> {
    let mut text = String::new(alloc);
    for _ in 0..levels {
        text.push_str("ObjectSomeValuesFrom(:part ")?;
    }
    text.push_str(":H")?;
    for _ in 0..levels {
        text.push_str(")")?;
    }
    Ok(text)
}

/// Whether 63 parentheses may be open, and no 64.
fn is_deep_enough(alloc: Global, session: &Session) -> Result<bool, AllocError> {
    let (deepest, deeper) = (deep(alloc, 63)?, deep(alloc, 64)?);
    Ok(
        session.query(deepest.as_str(), MANY).is_ok()
            && refuses(alloc, session, deeper.as_str(), "P6 at byte 1721")?,
    )
}

#[test]
fn the_deepest_expression(rt: HostRuntime) -> Result<(), Fail> {
    let state = RandomState::new(&rt)?;
    let session = ended(rt.alloc(), state, 10_000, CHAIN_INTO_A_DEFINITION)?;
    let session = session.ok_or("session")?;
    let right = is_deep_enough(rt.alloc(), &session)?;
    drop(session);
    assert!(rt; right);
    Ok(())
}

const FITS: &str = "ObjectIntersectionOf(:A :B)";

const TOO_LARGE: &str = "ObjectIntersectionOf(:A :B) ";

/// Whether the text of 27 bytes is answered, and one of 28 is too large, which is told before all other faults.
fn is_limited(alloc: Global, session: &Session) -> Result<bool, AllocError> {
    Ok(
        session.query(FITS, MANY).is_ok()
            && refuses(alloc, session, TOO_LARGE, "U2")?
            && refuses(alloc, session, "ObjectIntersectionOf(:A ^B) ", "U2")?
            && refuses(
                alloc,
                session,
                "ObjectIntersectionOf(:A ^B)",
                "X1 at byte 24",
            )?
            && refuses(
                alloc,
                session,
                "ObjectIntersectionOf(:A :Q)",
                "F8 at byte 24",
            )?
            && session.query(FITS, MANY).is_ok(),
    )
}

/// Whether the limit of 86 bytes leaves 27 behind a document of 42 and an addition of 17.
fn is_limited_behind(alloc: Global, session: &mut Session) -> Result<bool, AllocError> {
    Ok(
        session.query(TOO_LARGE, MANY).is_ok()
            && session.add("SubClassOf(:B :C)").is_ok()
            && session.resume(MANY) == Ok(())
            && is_limited(alloc, session)?
            && session.bytes() == 59,
    )
}

#[test]
fn bytes_of_a_query(rt: HostRuntime) -> Result<(), Fail> {
    let state = RandomState::new(&rt)?;
    let session = ended(rt.alloc(), state, 69, A_BELOW_B)?.ok_or("session")?;
    let right = is_limited(rt.alloc(), &session)?;
    drop(session);
    assert!(rt; right);
    Ok(())
}

#[test]
fn bytes_of_a_query_behind_an_addition(rt: HostRuntime) -> Result<(), Fail> {
    let state = RandomState::new(&rt)?;
    let mut session = ended(rt.alloc(), state, 86, A_BELOW_B)?.ok_or("session")?;
    let right = is_limited_behind(rt.alloc(), &mut session)?;
    drop(session);
    assert!(rt; right);
    Ok(())
}

// ---- as a text

/// What is expected.
enum Wanted {
    Text(&'static str),
    Limit,
    Document(&'static str),
    Expression(&'static str),
}

/// A query of a document of the version, within so many bytes and facts, and what is expected.
struct Asked {
    case: &'static str,
    document: &'static str,
    query: &'static str,
    bytes: u64,
    facts: u64,
    version: Version,
    wanted: Wanted,
}

const CHAIN: &str =
    "Prefix(:=<x:>) Ontology(SubClassOf(:E ObjectSomeValuesFrom(:loc :W)) SubClassOf(:W ObjectSomeValuesFrom(:part :H)) SubObjectPropertyOf(ObjectPropertyChain(:loc :part) :loc) EquivalentClasses(:D ObjectSomeValuesFrom(:loc :H)))";

const INDIVIDUALS: &str =
    "Prefix(:=<x:>) Ontology(SubClassOf(:A :B) ClassAssertion(:A :a) ObjectPropertyAssertion(:r :a :b) ObjectPropertyDomain(:r :C) Declaration(NamedIndividual(:c)))";

const ASKED: &[Asked] = &[
    Asked {
        case: "classes above and below",
        document: CHAIN,
        query: SOMETHING_OF_H,
        bytes: 254,
        facts: 24,
        version: Version::Two,
        wanted: Wanted::Text(
            "super <http://www.w3.org/2002/07/owl#Thing>\nsuper <x:D>\nsub <http://www.w3.org/2002/07/owl#Nothing>\nsub <x:D>\nsub <x:E>\n",
        ),
    },
    Asked {
        case: "an individual",
        document: INDIVIDUALS,
        query: "ObjectSomeValuesFrom(:r owl:Thing)",
        bytes: 1000,
        facts: 23,
        version: Version::Two,
        wanted: Wanted::Text(
            "super <http://www.w3.org/2002/07/owl#Thing>\nsuper <x:C>\nsub <http://www.w3.org/2002/07/owl#Nothing>\ninstance <x:a>\n",
        ),
    },
    Asked {
        case: "more facts with the expression than the limit",
        document: CHAIN,
        query: SOMETHING_OF_H,
        bytes: 1000,
        facts: 23,
        version: Version::Two,
        wanted: Wanted::Limit,
    },
    Asked {
        case: "a fault of the expression is told before its facts",
        document: CHAIN,
        query: "ObjectSomeValuesFrom(:loc :Q)",
        bytes: 1000,
        facts: 20,
        version: Version::Two,
        wanted: Wanted::Expression("F8 at byte 26"),
    },
    Asked {
        case: "more facts of the document than the limit are told before a fault of the expression",
        document: CHAIN,
        query: "ObjectSomeValuesFrom(:loc :Q)",
        bytes: 1000,
        facts: 19,
        version: Version::Two,
        wanted: Wanted::Limit,
    },
    Asked {
        case: "more bytes with the expression than the limit",
        document: CHAIN,
        query: "ObjectSomeValuesFrom(:loc :H",
        bytes: 252,
        facts: 24,
        version: Version::Two,
        wanted: Wanted::Expression("U2"),
    },
    Asked {
        case: "more bytes of the document than the limit",
        document: CHAIN,
        query: "",
        bytes: 224,
        facts: 24,
        version: Version::Two,
        wanted: Wanted::Document("U2"),
    },
    Asked {
        case: "a document of the second version in the first",
        document: "Ontology(SameIndividual(<x:a> <x:b>))",
        query: "SameIndividual(<x:a> <x:b>)",
        bytes: 1000,
        facts: 24,
        version: Version::One,
        wanted: Wanted::Document("F1 at byte 9: SameIndividual"),
    },
    Asked {
        case: "an expression that the first version refuses",
        document: INDIVIDUALS,
        query: "SameIndividual(:a :b)",
        bytes: 1000,
        facts: 24,
        version: Version::One,
        wanted: Wanted::Expression("F1 at byte 0: SameIndividual"),
    },
    Asked {
        case: "an expression that the second version does not take there",
        document: INDIVIDUALS,
        query: "SameIndividual(:a :b)",
        bytes: 1000,
        facts: 24,
        version: Version::Two,
        wanted: Wanted::Expression("F3 at byte 0"),
    },
    Asked {
        case: "a fault of the document is told before one of the expression",
        document: "Ontology(",
        query: "^",
        bytes: 1000,
        facts: 24,
        version: Version::Two,
        wanted: Wanted::Document("P2 at byte 9"),
    },
];

/// Whether it is what is expected.
fn is_wanted(
    alloc: Global,
    answer: &Result<Vec<u8>, QuestionFault<'_>>,
    wanted: &Wanted,
) -> Result<bool, AllocError> {
    match (answer, wanted) {
        (Ok(text), Wanted::Text(wanted)) => Ok(text.as_slice() == wanted.as_bytes()),
        (Err(QuestionFault::Limit), Wanted::Limit) => Ok(true),
        (Err(QuestionFault::Document(fault)), Wanted::Document(told))
        | (Err(QuestionFault::Expression(fault)), Wanted::Expression(told)) => {
            Ok(format!(in alloc; "{fault}")?.as_str() == *told)
        }
        _ => Ok(false),
    }
}

/// Whether the query is answered as is expected.
fn is_asked(alloc: Global, state: RandomState, row: &Asked) -> Result<bool, AllocError> {
    let Some(limits) = Limits::new(row.bytes, row.facts, row.version) else {
        return Ok(false);
    };
    let mut source = SliceSource::new(row.document.as_bytes());
    let answer = query_text(
        alloc,
        &mut source,
        row.query,
        Spelling::Full,
        &limits,
        state,
    );
    is_wanted(alloc, &answer, &row.wanted)
}

#[test]
fn answers_as_a_text(rt: HostRuntime) -> Result<(), Fail> {
    let state = RandomState::new(&rt)?;
    for row in ASKED {
        assert!(rt; is_asked(rt.alloc(), state, row)?, "{}", row.case);
    }
    Ok(())
}
