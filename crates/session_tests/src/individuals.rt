//! Sessions over individuals that are one: axioms that are added in each order, individuals that are said to differ, and what the first
//! version refuses.

use crate::additions::{MANY, are_added, is_ended, opened, opened_in, refuses, seen};
use crate::sessions::written;
use session::{Session, Stop, Version};
use std::alloc::{AllocError, Global};
use std::hash::RandomState;
use std::test::Fail;

// ---- in which order

/// Axioms, how many facts they lead to, and their taxonomy and instances.
struct Axioms {
    case: &'static str,
    axioms: &'static [&'static str],
    facts: usize,
    taxonomy: &'static str,
    instances: &'static str,
}

const ONE_CLASS: &str =
    "eltax 1 consistent\n<http://www.w3.org/2002/07/owl#Thing>\n<x:A> < <http://www.w3.org/2002/07/owl#Thing>\nbottom <http://www.w3.org/2002/07/owl#Nothing>\n";

const TWO_CLASSES: &str =
    "eltax 1 consistent\n<http://www.w3.org/2002/07/owl#Thing>\n<x:A> < <http://www.w3.org/2002/07/owl#Thing>\n<x:B> < <http://www.w3.org/2002/07/owl#Thing>\nbottom <http://www.w3.org/2002/07/owl#Nothing>\n";

const IN_EACH_ORDER: &[Axioms] = &[
    Axioms {
        case: "same_individuals",
        axioms: &[
            "SameIndividual(:a :b)",
            "ClassAssertion(:A :a)",
            "ClassAssertion(:B :b)",
        ],
        facts: 13,
        taxonomy: TWO_CLASSES,
        instances: "elinst 1 consistent\n<x:a> : <x:A> , <x:B>\n<x:b> : <x:A> , <x:B>\n",
    },
    Axioms {
        case: "three_in_one_axiom",
        axioms: &["SameIndividual(:a :b :c)", "ClassAssertion(:A :c)"],
        facts: 11,
        taxonomy: ONE_CLASS,
        instances: "elinst 1 consistent\n<x:a> : <x:A>\n<x:b> : <x:A>\n<x:c> : <x:A>\n",
    },
    Axioms {
        case: "two_axioms_join",
        axioms: &[
            "SameIndividual(:c :d)",
            "SameIndividual(:a :b)",
            "SameIndividual(:d :a)",
            "ClassAssertion(:A :b)",
        ],
        facts: 13,
        taxonomy: ONE_CLASS,
        instances: "elinst 1 consistent\n<x:a> : <x:A>\n<x:b> : <x:A>\n<x:c> : <x:A>\n<x:d> : <x:A>\n",
    },
    Axioms {
        case: "chain_through_a_group",
        axioms: &[
            "SameIndividual(:b :c)",
            "ObjectPropertyAssertion(:r :a :b)",
            "ObjectPropertyAssertion(:s :c :d)",
            "SubObjectPropertyOf(ObjectPropertyChain(:r :s) :t)",
            "ObjectPropertyDomain(:t :A)",
        ],
        facts: 15,
        taxonomy: ONE_CLASS,
        instances: "elinst 1 consistent\n<x:a> : <x:A>\n<x:b> : <http://www.w3.org/2002/07/owl#Thing>\n<x:c> : <http://www.w3.org/2002/07/owl#Thing>\n<x:d> : <http://www.w3.org/2002/07/owl#Thing>\n",
    },
];

/// Moves one of those that are left behind those that are taken, that at the place that the number says, and gives what is left of the
/// number.
fn take_next(
    left: &mut Vec<&'static str>,
    taken: &mut Vec<&'static str>,
    number: usize,
) -> Result<usize, AllocError> {
    let many = left.len();
    if many == 0 {
        return Ok(number);
    }
    taken.push(left.remove(number % many))?;
    Ok(number / many)
}

fn listed(alloc: Global, axioms: &[&'static str]) -> Result<Vec<&'static str>, AllocError> {
    let mut list = Vec::new(alloc);
    for axiom in axioms {
        list.push(*axiom)?;
    }
    Ok(list)
}

/// The axioms in the order of that number.
fn in_order(
    alloc: Global,
    axioms: &[&'static str],
    order: usize,
) -> Result<Vec<&'static str>, AllocError> {
    let mut left = listed(alloc, axioms)?;
    let mut taken = Vec::new(alloc);
    let mut number = order;
    for _ in 0..axioms.len() {
        number = take_next(&mut left, &mut taken, number)?;
    }
    Ok(taken)
}

/// Whether the session writes the taxonomy and the instances.
fn writes(alloc: Global, session: &Session, row: &Axioms) -> bool {
    let written = written(alloc, session);
    written.taxonomy.as_slice() == row.taxonomy.as_bytes()
        && written.instances.as_slice() == row.instances.as_bytes()
}

/// Whether the axioms of the row, in this order added to a document of none, lead to its facts and its texts, run to an end behind each
/// if that is asked for.
fn leads(
    alloc: Global,
    state: RandomState,
    row: &Axioms,
    order: &[&str],
    between: bool,
) -> Result<bool, AllocError> {
    let Some(mut session) = opened(alloc, state, 1000, "")? else {
        return Ok(false);
    };
    let right = are_added(&mut session, order, between)
        && is_ended(&session, row.facts)
        && writes(alloc, &session, row);
    drop(session);
    Ok(right)
}

/// Whether the axioms of the row do in the order of that number.
fn leads_in_order(
    alloc: Global,
    state: RandomState,
    row: &Axioms,
    order: usize,
) -> Result<bool, AllocError> {
    let order = in_order(alloc, row.axioms, order)?;
    Ok(leads(alloc, state, row, &order, true)? && leads(alloc, state, row, &order, false)?)
}

/// In how many orders so many may stand.
fn orders(many: usize) -> usize {
    let mut orders = 1_usize;
    for more in 2..many.saturating_add(1) {
        orders = orders.saturating_mul(more);
    }
    orders
}

#[test]
fn axioms_of_individuals_in_each_order(rt: HostRuntime) -> Result<(), Fail> {
    let state = RandomState::new(&rt)?;
    for row in IN_EACH_ORDER {
        for order in 0..orders(row.axioms.len()) {
            assert!(rt;
                leads_in_order(rt.alloc(), state, row, order)?,
                "{}: {order}",
                row.case
            );
        }
    }
    Ok(())
}

// ---- individuals that are said to differ

/// Whether no fact is pending again when two of the group are said to differ, one is new, and the session ends with a contradiction.
fn becomes_contradictory(alloc: Global, session: &mut Session) -> bool {
    session.resume(MANY) == Ok(())
        && is_ended(session, 11)
        && session.add("DifferentIndividuals(:a :c)").is_ok()
        && session.served() == 11
        && session.facts() == 12
        && session.resume(13) == Err(Stop::Limit)
        && session.resume(MANY) == Ok(())
        && is_ended(session, 14)
        && written(alloc, session).instances.as_slice() == b"elinst 1 inconsistent\n".as_slice()
}

#[test]
fn different_individuals_of_a_group(rt: HostRuntime) -> Result<(), Fail> {
    let state = RandomState::new(&rt)?;
    let axioms = "SameIndividual(:a :b :c) ClassAssertion(:A :c)";
    let mut session = opened(rt.alloc(), state, 1000, axioms)?.ok_or("session")?;
    let right = becomes_contradictory(rt.alloc(), &mut session);
    drop(session);
    assert!(rt; right);
    Ok(())
}

// ---- the first version

/// Texts that a session of the first version refuses, and what is told.
const REFUSED: &[(&str, &str)] = &[
    ("SameIndividual(:a :b)", "F1 at byte 0: SameIndividual"),
    (
        "SubClassOf(:B :C) DifferentIndividuals(:a :b) NegativeObjectPropertyAssertion(:r :a :b)",
        "F1 at byte 18: DifferentIndividuals\nF1 at byte 46: NegativeObjectPropertyAssertion",
    ),
];

/// Whether each of the texts is refused, nothing changes, and others are added.
fn reads_in_the_first(alloc: Global, session: &mut Session) -> Result<bool, AllocError> {
    let before = seen(session);
    for row in REFUSED {
        let (text, told) = *row;
        if !refuses(alloc, session, text, told)? {
            return Ok(false);
        }
    }
    Ok(
        seen(session) == before
            && session.add("ClassAssertion(:B :a)").is_ok()
            && session.resume(MANY) == Ok(())
            && is_ended(session, 10),
    )
}

#[test]
fn a_session_of_the_first_version(rt: HostRuntime) -> Result<(), Fail> {
    let state = RandomState::new(&rt)?;
    let axioms = "ClassAssertion(:A :a) Declaration(Class(:B))";
    let session = opened_in(rt.alloc(), state, 1000, Version::One, axioms)?;
    let mut session = session.ok_or("session")?;
    let right = session.resume(MANY) == Ok(())
        && is_ended(&session, 9)
        && reads_in_the_first(rt.alloc(), &mut session)?;
    drop(session);
    assert!(rt; right);
    Ok(())
}
