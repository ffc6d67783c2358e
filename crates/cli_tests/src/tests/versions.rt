//! Documents that are classified and checked in the versions of the profile.

use super::*;

const CLASSIFY_IN_ONE: &[&str] = &[
    "elc",
    "classify",
    "doc",
    "tax",
    "inst",
    "cert",
    "--profile",
    "1",
];

const CLASSIFY_IN_TWO: &[&str] = &[
    "elc",
    "classify",
    "--profile",
    "2",
    "doc",
    "tax",
    "inst",
    "cert",
];

const CHECK_IN_ONE: &[&str] = &["elc", "check", "doc", "tax", "inst", "cert", "--profile=1"];

const CHECK_IN_TWO: &[&str] = &["elc", "check", "doc", "tax", "inst", "cert", "--profile=2"];

const DIFFERENT_AND_DENIED: &[u8] =
    b"Prefix(:=<x:>) Ontology(DifferentIndividuals(:a :b) NegativeObjectPropertyAssertion(:r :a :b))";

const TOLD: &str =
    "F1 at byte 24: DifferentIndividuals\nF1 at byte 52: NegativeObjectPropertyAssertion\n";

#[test]
fn refused_in_the_first_version(rt: HostRuntime) -> Result<(), Fail> {
    assert!(rt; refuses(&rt, CLASSIFY_IN_ONE, DIFFERENT_AND_DENIED, 3, TOLD)?);
    let check = alone(&rt, CHECK_IN_ONE, DIFFERENT_AND_DENIED)?;
    assert!(rt; is_run(&check, 3, "", TOLD));
    Ok(())
}

const SAME_INDIVIDUALS: &[u8] =
    b"Prefix(:=<x:>) Ontology(SameIndividual(:a :b) ClassAssertion(:A :a) ClassAssertion(:B :b))";

/// A document, words that classify it and words that check what was written, and what the latter print: the status, and what is told.
const RUNS: &[(&[u8], &[&str], &[&str], u8, &str)] = &[
    (ONE_DOCUMENT, CLASSIFY_IN_ONE, CHECK_IN_ONE, 0, ""),
    (ONE_DOCUMENT, CLASSIFY_IN_ONE, CHECK_IN_TWO, 0, ""),
    (ONE_DOCUMENT, CLASSIFY_IN_TWO, CHECK_IN_ONE, 0, ""),
    (ONE_DOCUMENT, CLASSIFY, CHECK_IN_ONE, 0, ""),
    (SAME_INDIVIDUALS, CLASSIFY, CHECK_IN_TWO, 0, ""),
    (SAME_INDIVIDUALS, CLASSIFY_IN_TWO, CHECK, 0, ""),
    (
        SAME_INDIVIDUALS,
        CLASSIFY,
        CHECK_IN_ONE,
        3,
        "F1 at byte 24: SameIndividual\n",
    ),
    (DIFFERENT_AND_DENIED, CLASSIFY_IN_TWO, CHECK_IN_TWO, 0, ""),
    (DIFFERENT_AND_DENIED, CLASSIFY_IN_TWO, CHECK_IN_ONE, 3, TOLD),
];

/// Whether what the one run writes of the document is checked by the other so.
fn is_checked<R: AllocGlobal + RandomSource>(
    rt: &R,
    document: &[u8],
    (classify, check): (&[&str], &[&str]),
    status: u8,
    told: &str,
) -> Result<bool, Fail> {
    let mut files = files_with(rt.alloc(), document)?;
    let classified = run_of(rt, classify, &mut files)?;
    let checked = run_of(rt, check, &mut files)?;
    let printed = if status == 0 { "accepted\n" } else { "" };
    Ok(classified.status == 0 && is_run(&checked, status, printed, told))
}

#[test]
fn classified_in_one_version_and_checked_in_another(rt: HostRuntime) -> Result<(), Fail> {
    for (number, row) in RUNS.iter().enumerate() {
        let (document, classify, check, status, told) = *row;
        assert!(rt;
            is_checked(&rt, document, (classify, check), status, told)?,
            "{number}"
        );
    }
    Ok(())
}
