//! Sessions that grow: what is served and what follows when something was added, and what a refused addition leaves.

use crate::documents::session_of;
use crate::sessions::written;
use axioms::OWL_THING;
use session::{Asked, Explanation, Limits, Session, Stop, Version};
use std::alloc::{AllocError, Global};
use std::hash::RandomState;
use std::test::Fail;

/// More facts than any of these sessions has.
pub(crate) const MANY: u32 = 1000;

/// The document of these axioms.
fn document_of(alloc: Global, axioms: &str) -> Result<String, AllocError> {
    format!(in alloc; "Prefix(:=<x:>) Ontology({axioms})")
}

/// A session over the document of these axioms, where so many bytes are allowed.
pub(crate) fn opened(
    alloc: Global,
    state: RandomState,
    max_bytes: u64,
    axioms: &str,
) -> Result<Option<Session>, AllocError> {
    opened_in(alloc, state, max_bytes, Version::Two, axioms)
}

/// .. in which texts are read in that version.
pub(crate) fn opened_in(
    alloc: Global,
    state: RandomState,
    max_bytes: u64,
    version: Version,
    axioms: &str,
) -> Result<Option<Session>, AllocError> {
    let Some(limits) = Limits::new(max_bytes, 1, version) else {
        return Ok(None);
    };
    let document = document_of(alloc, axioms)?;
    Ok(session_of(alloc, state, &limits, document.as_str()))
}

/// Whether there are so many facts, all of them served.
pub(crate) fn is_ended(session: &Session, facts: usize) -> bool {
    session.facts() == facts && session.served() == facts
}

/// Whether the session answers.
fn answers(session: &Session) -> bool {
    match session.superclasses("http://www.w3.org/2002/07/owl#Thing") {
        Ok(_) => true,
        Err(_) => false,
    }
}

/// Whether the two sessions write the same taxonomy and the same instances, with the same counts.
fn are_alike(alloc: Global, left: &Session, right: &Session) -> bool {
    let left = written(alloc, left);
    let right = written(alloc, right);
    left.summary == right.summary
        && left.taxonomy.as_slice() == right.taxonomy.as_slice()
        && left.instances.as_slice() == right.instances.as_slice()
}

// ---- what is added

/// A document and what is added to it: how many facts there are before, how many of them are served then, and how many facts
/// there are at the end.
struct Row {
    case: &'static str,
    document: &'static str,
    addition: &'static str,
    facts: usize,
    served: usize,
    then: usize,
    consistent: bool,
}

pub(crate) const A_BELOW_B: &str = "SubClassOf(:A :B)";

const A_BELOW_SOME_B: &str = "SubClassOf(:A ObjectSomeValuesFrom(:r :B))";

pub(crate) const INDIVIDUALS_AND_DOMAIN: &str =
    "SubClassOf(:A :B) ClassAssertion(:A :a) ObjectPropertyAssertion(:r :a :b) ObjectPropertyDomain(:r :C) Declaration(NamedIndividual(:c))";

pub(crate) const CHAIN_INTO_A_DEFINITION: &str =
    "SubClassOf(:E ObjectSomeValuesFrom(:loc :W)) SubClassOf(:W ObjectSomeValuesFrom(:part :H)) SubObjectPropertyOf(ObjectPropertyChain(:loc :part) :loc) EquivalentClasses(:D ObjectSomeValuesFrom(:loc :H))";

const ROWS: &[Row] = &[
    Row {
        case: "two new classes",
        document: A_BELOW_B,
        addition: "SubClassOf(:C :D)",
        facts: 8,
        served: 8,
        then: 13,
        consistent: true,
    },
    Row {
        case: "a cycle",
        document: A_BELOW_B,
        addition: "SubClassOf(:B :A)",
        facts: 8,
        served: 6,
        then: 9,
        consistent: true,
    },
    Row {
        case: "a declaration of what is there",
        document: A_BELOW_B,
        addition: "Declaration(Class(:A))",
        facts: 8,
        served: 8,
        then: 8,
        consistent: true,
    },
    Row {
        case: "nothing",
        document: A_BELOW_B,
        addition: "",
        facts: 8,
        served: 8,
        then: 8,
        consistent: true,
    },
    Row {
        case: "the same axiom again",
        document: A_BELOW_B,
        addition: A_BELOW_B,
        facts: 8,
        served: 8,
        then: 8,
        consistent: true,
    },
    Row {
        case: "classes that become disjoint",
        document: A_BELOW_B,
        addition: "DisjointClasses(:A :B)",
        facts: 8,
        served: 7,
        then: 9,
        consistent: true,
    },
    Row {
        case: "a domain",
        document: A_BELOW_SOME_B,
        addition: "ObjectPropertyDomain(:r :C)",
        facts: 9,
        served: 5,
        then: 12,
        consistent: true,
    },
    Row {
        case: "a property above, and what is below some of it",
        document: A_BELOW_SOME_B,
        addition: "SubObjectPropertyOf(:r :s) SubClassOf(ObjectSomeValuesFrom(:s :B) :C)",
        facts: 9,
        served: 7,
        then: 13,
        consistent: true,
    },
    Row {
        case: "a property that becomes reflexive",
        document: A_BELOW_SOME_B,
        addition: "ReflexiveObjectProperty(:r)",
        facts: 9,
        served: 5,
        then: 13,
        consistent: true,
    },
    Row {
        case: "a filler that becomes unsatisfiable",
        document: A_BELOW_SOME_B,
        addition: "SubClassOf(:B owl:Nothing)",
        facts: 9,
        served: 8,
        then: 11,
        consistent: true,
    },
    Row {
        case: "a property that becomes transitive",
        document: "SubClassOf(:A ObjectSomeValuesFrom(:r :B)) SubClassOf(:B ObjectSomeValuesFrom(:r :C))",
        addition: "TransitiveObjectProperty(:r)",
        facts: 13,
        served: 11,
        then: 14,
        consistent: true,
    },
    Row {
        case: "what is below an intersection",
        document: "SubClassOf(:A :B) SubClassOf(:A :C)",
        addition: "SubClassOf(ObjectIntersectionOf(:B :C) :D)",
        facts: 11,
        served: 9,
        then: 15,
        consistent: true,
    },
    Row {
        case: "individuals of a class that becomes unsatisfiable",
        document: INDIVIDUALS_AND_DOMAIN,
        addition: "SubClassOf(:C owl:Nothing)",
        facts: 17,
        served: 15,
        then: 19,
        consistent: false,
    },
    Row {
        case: "one individual more",
        document: INDIVIDUALS_AND_DOMAIN,
        addition: "ClassAssertion(:B :d)",
        facts: 17,
        served: 17,
        then: 19,
        consistent: true,
    },
    Row {
        case: "the first individual",
        document: CHAIN_INTO_A_DEFINITION,
        addition: "ClassAssertion(:E :a)",
        facts: 20,
        served: 20,
        then: 27,
        consistent: true,
    },
    Row {
        case: "two individuals that become one",
        document: "ClassAssertion(:A :a) ClassAssertion(:B :b)",
        addition: "SameIndividual(:a :b)",
        facts: 11,
        served: 7,
        then: 13,
        consistent: true,
    },
    Row {
        case: "two groups that become one",
        document: "SameIndividual(:c :d) SameIndividual(:a :b) ClassAssertion(:A :b)",
        addition: "SameIndividual(:d :a)",
        facts: 11,
        served: 8,
        then: 13,
        consistent: true,
    },
    Row {
        case: "the same two once more",
        document: "SameIndividual(:a :b) ClassAssertion(:A :a)",
        addition: "SameIndividual(:a :b)",
        facts: 9,
        served: 9,
        then: 9,
        consistent: true,
    },
    Row {
        case: "one individual that is one of a group",
        document: "SameIndividual(:a :b) ClassAssertion(:A :a)",
        addition: "SameIndividual(:b :c)",
        facts: 9,
        served: 7,
        then: 11,
        consistent: true,
    },
    Row {
        case: "two that become different",
        document: "SameIndividual(:a :b :c) ClassAssertion(:A :c)",
        addition: "DifferentIndividuals(:a :c)",
        facts: 11,
        served: 11,
        then: 14,
        consistent: false,
    },
    Row {
        case: "different ones that become one",
        document: "DifferentIndividuals(:a :c) SameIndividual(:a :b)",
        addition: "SameIndividual(:b :c)",
        facts: 6,
        served: 4,
        then: 9,
        consistent: false,
    },
    Row {
        case: "a pair that is denied",
        document: "SameIndividual(:b :c) ObjectPropertyAssertion(:r :a :b) SubObjectPropertyOf(:r :s)",
        addition: "NegativeObjectPropertyAssertion(:s :a :c)",
        facts: 8,
        served: 7,
        then: 9,
        consistent: false,
    },
    Row {
        case: "classes of a contradictory session",
        document: "SubClassOf(owl:Thing owl:Nothing)",
        addition: A_BELOW_B,
        facts: 4,
        served: 4,
        then: 11,
        consistent: false,
    },
];

/// Whether as many facts are served as the row says, before the addition, behind it and at the end; and whether questions are
/// answered behind it exactly where it brought nothing new.
fn grows(session: &mut Session, row: &Row) -> bool {
    session.resume(MANY) == Ok(())
        && is_ended(session, row.facts)
        && session.add(row.addition).is_ok()
        && session.served() == row.served
        && answers(session) == (row.served == row.then)
        && session.resume(MANY) == Ok(())
        && is_ended(session, row.then)
}

/// Whether the addition leads to the same where nothing was run before it.
fn grows_at_once(session: &mut Session, row: &Row) -> bool {
    session.add(row.addition).is_ok()
        && session.served() == 0
        && !answers(session)
        && session.resume(MANY) == Ok(())
        && is_ended(session, row.then)
}

/// Whether the addition leads to the same where the run before it was stopped by its limit.
fn grows_when_stopped(session: &mut Session, row: &Row) -> bool {
    let Ok(too_few) = u32::try_from(row.facts.saturating_sub(1)) else {
        return false;
    };
    session.resume(too_few) == Err(Stop::Limit)
        && session.add(row.addition).is_ok()
        && !answers(session)
        && session.resume(MANY) == Ok(())
        && is_ended(session, row.then)
}

/// A session over the document of the row.
fn begun(alloc: Global, state: RandomState, row: &Row) -> Result<Option<Session>, AllocError> {
    opened(alloc, state, 1000, row.document)
}

/// A session over the one document of the axioms of the row and of what is added, run to its end.
fn whole(alloc: Global, state: RandomState, row: &Row) -> Result<Option<Session>, AllocError> {
    let (document, addition) = (row.document, row.addition);
    let axioms = format!(in alloc; "{document} {addition}")?;
    let Some(mut session) = opened(alloc, state, 1000, axioms.as_str())? else {
        return Ok(None);
    };
    let ended = session.resume(MANY) == Ok(()) && is_ended(&session, row.then);
    Ok(if ended { Some(session) } else { None })
}

/// Whether the session is consistent as the row says, and writes what one over the one document writes.
fn is_whole(
    alloc: Global,
    state: RandomState,
    session: &Session,
    row: &Row,
) -> Result<bool, AllocError> {
    let Some(whole) = whole(alloc, state, row)? else {
        return Ok(false);
    };
    let right = are_alike(alloc, session, &whole);
    drop(whole);
    Ok(right && is_consistent(alloc, session) == Some(row.consistent))
}

/// Whether the session is consistent, where it is at its end.
fn is_consistent(alloc: Global, session: &Session) -> Option<bool> {
    match written(alloc, session).summary {
        Ok(summary) => Some(summary.consistent),
        Err(_) => None,
    }
}

/// Whether the addition brings what the row says.
fn is_row(alloc: Global, state: RandomState, row: &Row) -> Result<bool, AllocError> {
    let Some(mut session) = begun(alloc, state, row)? else {
        return Ok(false);
    };
    let right = grows(&mut session, row) && is_whole(alloc, state, &session, row)?;
    drop(session);
    Ok(right)
}

/// Whether it leads to the same where nothing was run before.
fn is_row_at_once(alloc: Global, state: RandomState, row: &Row) -> Result<bool, AllocError> {
    let Some(mut session) = begun(alloc, state, row)? else {
        return Ok(false);
    };
    let right = grows_at_once(&mut session, row) && is_whole(alloc, state, &session, row)?;
    drop(session);
    Ok(right)
}

/// Whether it leads to the same where a run was stopped before.
fn is_row_when_stopped(alloc: Global, state: RandomState, row: &Row) -> Result<bool, AllocError> {
    let Some(mut session) = begun(alloc, state, row)? else {
        return Ok(false);
    };
    let right = grows_when_stopped(&mut session, row) && is_whole(alloc, state, &session, row)?;
    drop(session);
    Ok(right)
}

#[test]
fn what_is_added(rt: HostRuntime) -> Result<(), Fail> {
    let state = RandomState::new(&rt)?;
    for row in ROWS {
        assert!(rt; is_row(rt.alloc(), state, row)?, "{}", row.case);
    }
    Ok(())
}

#[test]
fn added_before_a_run(rt: HostRuntime) -> Result<(), Fail> {
    let state = RandomState::new(&rt)?;
    for row in ROWS {
        assert!(rt; is_row_at_once(rt.alloc(), state, row)?, "{}", row.case);
    }
    Ok(())
}

#[test]
fn added_to_a_stopped_run(rt: HostRuntime) -> Result<(), Fail> {
    let state = RandomState::new(&rt)?;
    for row in ROWS {
        assert!(rt;
            is_row_when_stopped(rt.alloc(), state, row)?,
            "{}",
            row.case
        );
    }
    Ok(())
}

// ---- in which order

const E: &str = "SubClassOf(:E ObjectSomeValuesFrom(:loc :W))";

const W: &str = "SubClassOf(:W ObjectSomeValuesFrom(:part :H))";

const LOC: &str = "SubObjectPropertyOf(ObjectPropertyChain(:loc :part) :loc)";

const D: &str = "EquivalentClasses(:D ObjectSomeValuesFrom(:loc :H))";

const ORDERS: &[[&str; 4]] = &[
    [E, W, LOC, D],
    [E, W, D, LOC],
    [E, LOC, W, D],
    [E, LOC, D, W],
    [E, D, W, LOC],
    [E, D, LOC, W],
    [W, E, LOC, D],
    [W, E, D, LOC],
    [W, LOC, E, D],
    [W, LOC, D, E],
    [W, D, E, LOC],
    [W, D, LOC, E],
    [LOC, E, W, D],
    [LOC, E, D, W],
    [LOC, W, E, D],
    [LOC, W, D, E],
    [LOC, D, E, W],
    [LOC, D, W, E],
    [D, E, W, LOC],
    [D, E, LOC, W],
    [D, W, E, LOC],
    [D, W, LOC, E],
    [D, LOC, E, W],
    [D, LOC, W, E],
];

const TAXONOMY: &str =
    "eltax 1 consistent\n<http://www.w3.org/2002/07/owl#Thing>\n<x:D> < <http://www.w3.org/2002/07/owl#Thing>\n<x:E> < <x:D>\n<x:H> < <http://www.w3.org/2002/07/owl#Thing>\n<x:W> < <http://www.w3.org/2002/07/owl#Thing>\nbottom <http://www.w3.org/2002/07/owl#Nothing>\n";

/// Whether all are added, one after the other, run to an end behind each if that is asked for.
pub(crate) fn are_added(session: &mut Session, axioms: &[&str], between: bool) -> bool {
    for axiom in axioms {
        if session.add(axiom).is_err() || (between && session.resume(MANY) != Ok(())) {
            return false;
        }
    }
    session.resume(MANY) == Ok(())
}

/// Whether the axioms, added to a document of none, lead to the facts and the taxonomy of the document of all.
fn is_order(
    alloc: Global,
    state: RandomState,
    axioms: &[&str],
    between: bool,
) -> Result<bool, AllocError> {
    let Some(mut session) = opened(alloc, state, 1000, "")? else {
        return Ok(false);
    };
    let ended = are_added(&mut session, axioms, between) && is_ended(&session, 20);
    let right = ended && written(alloc, &session).taxonomy.as_slice() == TAXONOMY.as_bytes();
    drop(session);
    Ok(right)
}

#[test]
fn axioms_in_each_order(rt: HostRuntime) -> Result<(), Fail> {
    let state = RandomState::new(&rt)?;
    for order in ORDERS {
        assert!(rt; is_order(rt.alloc(), state, order, false)?);
        assert!(rt; is_order(rt.alloc(), state, order, true)?);
    }
    Ok(())
}

// ---- what is refused

/// What is seen of a session: facts, those that are served, bytes, classes and axioms.
pub(crate) fn seen(session: &Session) -> [usize; 5] {
    let ontology = session.ontology();
    [
        session.facts(),
        session.served(),
        session.bytes(),
        ontology.classes().len(),
        ontology.axioms().len(),
    ]
}

/// What is told of the text where it is not added and nothing changes.
fn refusal(alloc: Global, session: &mut Session, text: &str) -> Result<Option<String>, AllocError> {
    let before = seen(session);
    match session.add(text) {
        Ok(()) => Ok(None),
        Err(fault) => {
            let told = format!(in alloc; "{fault}")?;
            Ok(if seen(session) == before && answers(session) {
                Some(told)
            } else {
                None
            })
        }
    }
}

/// Whether the text is refused so, and nothing changes.
pub(crate) fn refuses(
    alloc: Global,
    session: &mut Session,
    text: &str,
    told: &str,
) -> Result<bool, AllocError> {
    match refusal(alloc, session, text)? {
        Some(found) => Ok(found.as_str() == told),
        None => Ok(false),
    }
}

/// Texts of faults, and what is told.
const REFUSED: &[(&str, &str)] = &[
    ("SubClassOf(:B ^:C)", "X1 at byte 14"),
    ("SubClassOf(:A :B) SubClassOf(q:B :C)", "P3 at byte 29"),
    ("SubClassOf(:B :C))", "P1 at byte 17"),
    ("Prefix(q:=<y:>)", "P1 at byte 7"),
    ("Ontology(SubClassOf(:B :C))", "F3 at byte 0"),
    ("Frobnicate()", "F2 at byte 0: Frobnicate"),
    // Nothing of a text is added where a part of it is refused, and every fault is told.
    (
        "SubClassOf(:B :C) SubClassOf(:B owl:real) SubClassOf(:B ObjectUnionOf(:B :C))",
        "F5 at byte 32\nF1 at byte 56: ObjectUnionOf",
    ),
];

/// Whether each of the texts is refused, and the session then takes one that is right.
fn are_refused(alloc: Global, session: &mut Session) -> Result<bool, AllocError> {
    for row in REFUSED {
        let (text, told) = *row;
        if !refuses(alloc, session, text, told)? {
            return Ok(false);
        }
    }
    Ok(takes_whole(session))
}

/// Two axioms behind A below B.
const WHOLE: &str = "SubClassOf(:B :C) SubClassOf(:C :D)";

/// Whether the two axioms are added, behind A below B, and lead to 17 facts.
fn takes_whole(session: &mut Session) -> bool {
    session.add(WHOLE).is_ok() && session.resume(MANY) == Ok(()) && is_ended(session, 17)
}

/// A session over the document of A below B, run to its end, where so many bytes are allowed.
fn ended(alloc: Global, state: RandomState, max_bytes: u64) -> Result<Option<Session>, AllocError> {
    let Some(mut session) = opened(alloc, state, max_bytes, A_BELOW_B)? else {
        return Ok(None);
    };
    let right = session.resume(MANY) == Ok(()) && is_ended(&session, 8);
    Ok(if right { Some(session) } else { None })
}

#[test]
fn refused_texts(rt: HostRuntime) -> Result<(), Fail> {
    let state = RandomState::new(&rt)?;
    let mut session = ended(rt.alloc(), state, 1000)?.ok_or("session")?;
    let right = are_refused(rt.alloc(), &mut session)?;
    drop(session);
    assert!(rt; right);
    Ok(())
}

/// Whether these are the classes above the class.
fn lies_below(session: &Session, class: &str, names: &[&str]) -> bool {
    match session.superclasses(class) {
        Ok(found) => found.as_slice() == names,
        Err(_) => false,
    }
}

/// Whether a name of a refused text is unknown behind it, and is what a later text makes of it.
fn is_forgotten(session: &mut Session) -> bool {
    session
        .add("SubClassOf(:B :C) SubClassOf(:C owl:real)")
        .is_err()
        && session.superclasses("x:C").is_err()
        && session.add("SubClassOf(:D :B) SubClassOf(:C :D)").is_ok()
        && session.resume(MANY) == Ok(())
        && lies_below(session, "x:C", &[OWL_THING, "x:B", "x:C", "x:D"])
        && lies_below(session, "x:B", &[OWL_THING, "x:B"])
}

#[test]
fn refused_names(rt: HostRuntime) -> Result<(), Fail> {
    let state = RandomState::new(&rt)?;
    let mut session = ended(rt.alloc(), state, 1000)?.ok_or("session")?;
    let right = is_forgotten(&mut session);
    drop(session);
    assert!(rt; right);
    Ok(())
}

/// Whether the two axioms, cut after so many bytes, are added exactly where that leaves whole axioms; and whether the session then
/// takes both.
fn is_cut(alloc: Global, session: &mut Session, length: usize) -> Result<bool, AllocError> {
    let Some(cut) = WHOLE.get(..length) else {
        return Ok(false);
    };
    let are_axioms = length == 0 || length == 17 || length == 18 || length == WHOLE.len();
    let right = if are_axioms {
        session.add(cut).is_ok() && session.bytes() == 42 + length
    } else {
        refusal(alloc, session, cut)?.is_some()
    };
    Ok(right && takes_whole(session))
}

fn is_cut_anew(alloc: Global, state: RandomState, length: usize) -> Result<bool, AllocError> {
    let Some(mut session) = ended(alloc, state, 1000)? else {
        return Ok(false);
    };
    let right = is_cut(alloc, &mut session, length)?;
    drop(session);
    Ok(right)
}

#[test]
fn cut_additions(rt: HostRuntime) -> Result<(), Fail> {
    let state = RandomState::new(&rt)?;
    for length in 0..WHOLE.len() + 1 {
        assert!(rt; is_cut_anew(rt.alloc(), state, length)?, "{length}");
    }
    Ok(())
}

/// Whether the limit of 77 bytes, of which the document has 42, is told before all other faults; and whether a text that just fits
/// is added when others were refused, and none behind it but the empty one.
fn is_limited(alloc: Global, session: &mut Session) -> Result<bool, AllocError> {
    Ok(
        session.bytes() == 42
            && session.max_bytes() == 77
            && refuses(alloc, session, "SubClassOf(:B :C) SubClassOf(:C :D) ", "U2")?
            && refuses(alloc, session, "SubClassOf(:B :C) SubClassOf(:C ^D) ", "U2")?
            && refuses(
                alloc,
                session,
                "SubClassOf(:B :C) SubClassOf(:C ^D)",
                "X1 at byte 32",
            )?
            && takes_whole(session)
            && session.bytes() == 77
            && refuses(alloc, session, " ", "U2")?
            && session.add("").is_ok()
            && session.bytes() == 77
            && answers(session),
    )
}

#[test]
fn bytes_of_a_session(rt: HostRuntime) -> Result<(), Fail> {
    let state = RandomState::new(&rt)?;
    let mut session = ended(rt.alloc(), state, 77)?.ok_or("session")?;
    let right = is_limited(rt.alloc(), &mut session)?;
    drop(session);
    assert!(rt; right);
    Ok(())
}

// ---- names and explanations

/// Whether names are expanded with the prefixes of the document, and what was added is part of an explanation.
fn is_explained(session: &mut Session) -> bool {
    let added = session.add("SubClassOf(p:B <x:C>)").is_ok()
        && session.add("SubClassOf(:B :D)").is_err()
        && session.resume(MANY) == Ok(());
    match session.explain(Asked::Class("x:A"), "x:C") {
        Ok(Explanation::Yes(lines)) => added && lines.len() == 3,
        _ => false,
    }
}

#[test]
fn prefixes_of_the_document(rt: HostRuntime) -> Result<(), Fail> {
    let state = RandomState::new(&rt)?;
    let limits = Limits::new(1000, 1, Version::Two).ok_or("limits")?;
    let document = "Prefix(p:=<x:>) Ontology(SubClassOf(p:A p:B))";
    let session = session_of(rt.alloc(), state, &limits, document);
    let mut session = session.ok_or("session")?;
    let right = is_explained(&mut session);
    drop(session);
    assert!(rt; right);
    Ok(())
}
