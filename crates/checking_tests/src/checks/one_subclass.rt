//! Certificates of one subclass axiom that were changed, forged or cut.

use super::ontologies::ONE_SUBCLASS_DOCUMENT;
use super::{Change, ONE_SUBCLASS, bad_text, has_verdict, judge_one_subclass};
use crate::documents::ontology_of;
use axioms::{ClassId, Ontology};
use cert_check::Reason;
use std::alloc::Global;
use std::process::Abort;
use std::test::Fail;

const CHANGED_CERTIFICATES_OF_ONE_SUBCLASS: &[Change] = &[
    ("end", "end", None),
    (
        "claim e2 1",
        "claim e2 0",
        Some(Reason::ClaimDisagrees { class: ClassId(2) }),
    ),
    (
        "sub e2 e3 K4 a1 3\n",
        "",
        Some(Reason::ClaimDisagrees { class: ClassId(2) }),
    ),
    ("K4 a1 3", "K4 a1 5", Some(Reason::BadLine { number: 5 })),
    (
        "class e3 1 2",
        "class e3 2",
        Some(Reason::AxiomFails { axiom: 1 }),
    ),
    (
        "claim e3 2\n",
        "",
        Some(Reason::ClaimMissing { class: ClassId(3) }),
    ),
    (
        "claim e3 2",
        "claim e3 3",
        Some(Reason::BadText { at: 171 }),
    ),
];

#[test]
fn changed_certificates_of_one_subclass(rt: HostRuntime) -> Result<(), Fail> {
    judge_one_subclass(&rt, CHANGED_CERTIFICATES_OF_ONE_SUBCLASS)
}

const FORGED_CERTIFICATES_OF_ONE_SUBCLASS: &[Change] = &[
    ("K4 a1 3", "K4 a1 6", Some(Reason::BadLine { number: 5 })),
    (
        "K4 a1 3",
        "K4 a1 99999999999",
        Some(Reason::BadLine { number: 5 }),
    ),
    // The line that it rests on stands behind it.
    (
        "sub e2 e2 K1\nsub e2 e0 K2\nsub e2 e3 K4 a1 3",
        "sub e2 e0 K2\nsub e2 e3 K4 a1 5\nsub e2 e2 K1",
        Some(Reason::BadLine { number: 4 }),
    ),
    ("K4 a1 3", "K4 a1 0", Some(Reason::BadText { at: 72 })),
    (
        "K4 a1 3",
        "K4 a1 18446744073709551616",
        Some(Reason::BadText { at: 72 }),
    ),
    ("K4 a1 3", "K4 a2 3", Some(Reason::BadText { at: 72 })),
    ("domain 3", "domain 4294967295", None),
    (
        "domain 3",
        "domain 4294967296",
        Some(Reason::BadText { at: 116 }),
    ),
    (
        "class e2 1",
        "class e2 1\nclass e2 1",
        Some(Reason::BadText { at: 136 }),
    ),
];

#[test]
fn forged_certificates_of_one_subclass(rt: HostRuntime) -> Result<(), Fail> {
    judge_one_subclass(&rt, FORGED_CERTIFICATES_OF_ONE_SUBCLASS)
}

// The first bad line is told, and a text that is that of no certificate before any line of it.
const BAD_LINES_AND_BAD_TEXTS: &[Change] = &[
    (
        "sub e0 e0 K1\nsub e1 e1 K1",
        "sub e0 e0 K1\nsub e1 e0 K1",
        Some(Reason::BadLine { number: 2 }),
    ),
    (
        "sub e0 e0 K1\nsub e1 e1 K1",
        "sub e0 e1 K1\nsub e1 e0 K1",
        Some(Reason::BadLine { number: 1 }),
    ),
    (
        "sub e0 e0 K1\nsub e1 e1 K1",
        "sub e0 e1 K1\nsub e1 e1 K21",
        Some(Reason::BadText { at: 33 }),
    ),
    (
        "sub e0 e0 K1\nsub e1 e1 K1",
        "sub e0 e1 K1\nsub e1 e99 K1",
        Some(Reason::BadText { at: 33 }),
    ),
];

#[test]
fn bad_lines_and_bad_texts(rt: HostRuntime) -> Result<(), Fail> {
    judge_one_subclass(&rt, BAD_LINES_AND_BAD_TEXTS)
}

const A_CLAIM_OF_NOTHING: &[Change] = &[(
    "claim e2 1",
    "claim e1 1\nclaim e2 1",
    Some(Reason::ClaimDisagrees { class: ClassId(1) }),
)];

#[test]
fn a_claim_of_nothing(rt: HostRuntime) -> Result<(), Fail> {
    judge_one_subclass(&rt, A_CLAIM_OF_NOTHING)
}

/// Whether the certificate, cut there, stops at the start of its last line.
fn is_cut(alloc: Global, ontology: &Ontology, cut: usize) -> bool {
    let certificate = ONE_SUBCLASS.certificate;
    let prefix = certificate.get(..cut).unwrap_or(certificate);
    let start = prefix.rfind('\n').map_or(0, |at| at + 1);
    has_verdict(alloc, ontology, ONE_SUBCLASS, prefix, bad_text(start))
}

/// Each prefix of the certificate is cut so.
fn are_cut<R: AllocGlobal + Abort>(rt: &R, ontology: &Ontology) {
    for cut in 0..ONE_SUBCLASS.certificate.len() {
        assert!(rt; is_cut(rt.alloc(), ontology, cut), "cut after {cut}");
    }
}

#[test]
fn cut_certificates_of_one_subclass(rt: HostRuntime) -> Result<(), Fail> {
    let ontology = ontology_of(&rt, ONE_SUBCLASS_DOCUMENT)?;
    are_cut(&rt, &ontology);
    Ok(())
}
