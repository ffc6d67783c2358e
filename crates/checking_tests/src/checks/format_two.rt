//! Certificates in format 2, in which a premise is a distance, and neighbours among elements are a run.

use super::ontologies::ONE_SUBCLASS_DOCUMENT;
use super::{Change, ONE_SUBCLASS, Texts, are_judged, judge, judge_one_subclass};
use crate::documents::ontology_of;
use axioms::ClassId;
use cert_check::Reason;
use std::test::Fail;

/// The right certificate of SubClassOf(A B) in format 2.
pub(super) const CERTIFICATE: &str =
    "elcert 2 consistent\nsub e0 e0 K1\nsub e1 e1 K1\nsub e2 e2 K1\nsub e2 e0 K2\nsub e2 e3 K4 a1 2\nsub e3 e3 K1\nsub e3 e0 K2\ndomain 3\nclass e2 1\nclass e3 1-2\nclaim e0 0\nclaim e2 1\nclaim e3 2\nend\n";

/// The right texts of SubClassOf(A B), with that certificate.
fn texts() -> Texts<'static> {
    Texts {
        taxonomy: ONE_SUBCLASS.taxonomy,
        instances: ONE_SUBCLASS.instances,
        certificate: CERTIFICATE,
    }
}

// A distance leads to an earlier line: to which is not a matter of the text.
const DISTANCES: &[Change] = &[
    ("end", "end", None),
    ("K4 a1 2", "K4 a1 1", Some(Reason::BadLine { number: 5 })),
    ("K4 a1 2", "K4 a1 3", Some(Reason::BadLine { number: 5 })),
    ("K4 a1 2", "K4 a1 4", Some(Reason::BadLine { number: 5 })),
    ("K4 a1 2", "K4 a1 0", Some(Reason::BadText { at: 72 })),
    ("K4 a1 2", "K4 a1 5", Some(Reason::BadText { at: 72 })),
    ("K4 a1 2", "K4 a1 02", Some(Reason::BadText { at: 72 })),
    (
        "K4 a1 2",
        "K4 a1 18446744073709551615",
        Some(Reason::BadText { at: 72 }),
    ),
    (
        "sub e0 e0 K1",
        "sub e0 e0 K1 1",
        Some(Reason::BadText { at: 20 }),
    ),
];

#[test]
fn distances(rt: HostRuntime) -> Result<(), Fail> {
    judge(&rt, ONE_SUBCLASS_DOCUMENT, texts(), DISTANCES)
}

/// Rows in place of `class e3 1-2` that are written in no format, or in the other.
const NO_ROWS: &[&str] = &[
    "class e3 1 2",
    "class e3 1-1",
    "class e3 2-1",
    "class e3 0-1 2",
    "class e3 0-1 1",
    "class e3 01-2",
    "class e3 1-3",
    "class e3 1-02",
    "class e3 1 -2",
    "class e3 1- 2",
    "class e3 1-2 ",
    "class e3 -2",
    "class e3 1-2-3",
];

#[test]
fn rows_that_are_none(rt: HostRuntime) -> Result<(), Fail> {
    let ontology = ontology_of(&rt, ONE_SUBCLASS_DOCUMENT)?;
    for row in NO_ROWS {
        let change = ("class e3 1-2", *row, Some(Reason::BadText { at: 136 }));
        are_judged(&rt, &ontology, texts(), &[change]);
    }
    Ok(())
}

const OTHER_ROWS: &[Change] = &[
    (
        "class e3 1-2",
        "class e3 0-2",
        Some(Reason::ClaimDisagrees { class: ClassId(0) }),
    ),
    (
        "class e3 1-2",
        "class e3 1",
        Some(Reason::ClaimDisagrees { class: ClassId(3) }),
    ),
    // A bad line stands before the row.
    (
        "2\nsub e3 e3 K1\nsub e3 e0 K2\ndomain 3\nclass e2 1\nclass e3 1-2",
        "1\nsub e3 e3 K1\nsub e3 e0 K2\ndomain 3\nclass e2 1\nclass e3 1 2",
        Some(Reason::BadText { at: 136 }),
    ),
];

#[test]
fn other_rows(rt: HostRuntime) -> Result<(), Fail> {
    judge(&rt, ONE_SUBCLASS_DOCUMENT, texts(), OTHER_ROWS)
}

const DOMAINS: &[Change] = &[
    ("domain 3", "domain 4294967295", None),
    (
        "domain 3\nclass e2 1\nclass e3 1-2",
        "domain 4294967295\nclass e2 1\nclass e3 1-2 4294967294",
        None,
    ),
    (
        "domain 3\nclass e2 1\nclass e3 1-2",
        "domain 4294967295\nclass e2 1\nclass e3 1-2 4294967295",
        Some(Reason::BadText { at: 145 }),
    ),
];

#[test]
fn huge_domains(rt: HostRuntime) -> Result<(), Fail> {
    judge(&rt, ONE_SUBCLASS_DOCUMENT, texts(), DOMAINS)
}

// Runs that nothing could list one by one: the verdict is that of all their elements.
const HUGE_RUNS: &[Change] = &[
    (
        "domain 3\nclass e2 1\nclass e3 1-2",
        "domain 4294967295\nclass e2 1\nclass e3 1-4294967294",
        None,
    ),
    (
        "domain 3\nclass e2 1\nclass e3 1-2",
        "domain 4294967295\nclass e2 1\nclass e3 1-1000000000 1000000002-4294967294",
        None,
    ),
    (
        "domain 3\nclass e2 1\nclass e3 1-2",
        "domain 4294967295\nclass e2 1\nclass e3 0-4294967294",
        Some(Reason::ClaimDisagrees { class: ClassId(0) }),
    ),
    (
        "domain 3\nclass e2 1\nclass e3 1-2",
        "domain 4294967295\nclass e2 1 5-4294967294\nclass e3 1-4294967293",
        Some(Reason::AxiomFails { axiom: 1 }),
    ),
    (
        "domain 3\nclass e2 1\nclass e3 1-2",
        "domain 4294967295\nclass e2 1-4294967294\nclass e3 1-4294967294",
        Some(Reason::ClaimDisagrees { class: ClassId(3) }),
    ),
];

#[test]
fn huge_runs(rt: HostRuntime) -> Result<(), Fail> {
    judge(&rt, ONE_SUBCLASS_DOCUMENT, texts(), HUGE_RUNS)
}

const FIRST_LINES: &[Change] = &[
    ("elcert 2", "elcert 1", Some(Reason::BadText { at: 136 })),
    ("elcert 2", "elcert 02", Some(Reason::BadText { at: 0 })),
    ("elcert 2", "elcert 3", Some(Reason::BadText { at: 0 })),
];

const FIRST_LINES_OF_FORMAT_ONE: &[Change] = &[
    ("elcert 1", "elcert 2", Some(Reason::BadText { at: 136 })),
    (
        "sub e0 e0 K1",
        "sub e0 e0 K1 1",
        Some(Reason::BadLine { number: 1 }),
    ),
];

#[test]
fn formats_by_the_first_line(rt: HostRuntime) -> Result<(), Fail> {
    judge(&rt, ONE_SUBCLASS_DOCUMENT, texts(), FIRST_LINES)?;
    judge_one_subclass(&rt, FIRST_LINES_OF_FORMAT_ONE)
}
