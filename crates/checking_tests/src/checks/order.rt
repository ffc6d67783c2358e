//! Two things are wrong in each: the earlier reason is told, and of one reason the least place.

use super::ontologies::{CONTRADICTION_DOCUMENT, ONE_MEMBER_DOCUMENT};
use super::{CONTRADICTION, Change, ONE_MEMBER, Texts, judge, judge_one_subclass};
use axioms::{ClassId, IndId};
use cert_check::Reason;
use std::test::Fail;

const TEXT_AND_LINES_BEFORE_THE_INTERPRETATION: &[Change] = &[
    (
        "3\nsub e3 e3 K1\nsub e3 e0 K2\ndomain 3\n",
        "5\nsub e3 e3 K1\nsub e3 e0 K2\n",
        Some(Reason::BadText { at: 116 }),
    ),
    (
        "sub e2 e2 K1\nsub e2 e0 K2\nsub e2 e3 K4 a1 3",
        "sub e2 e2 K2\nsub e2 e0 K2\nsub e2 e3 K4 a1 5",
        Some(Reason::BadLine { number: 3 }),
    ),
    (
        "3\nsub e3 e3 K1\nsub e3 e0 K2\ndomain 3\nclass e2 1\nclass e3 1 2",
        "5\nsub e3 e3 K1\nsub e3 e0 K2\ndomain 3\nclass e2 1\nclass e3 2",
        Some(Reason::BadLine { number: 5 }),
    ),
];

#[test]
fn text_and_lines_before_the_interpretation(rt: HostRuntime) -> Result<(), Fail> {
    judge_one_subclass(&rt, TEXT_AND_LINES_BEFORE_THE_INTERPRETATION)
}

const INTERPRETATION_BEFORE_CLAIMS: &[Change] = &[
    (
        "class e3 1 2\nclaim e0 0\nclaim e2 1\nclaim e3 2",
        "class e3 2\nclaim e0 0\nclaim e2 1",
        Some(Reason::AxiomFails { axiom: 1 }),
    ),
    (
        "class e3 1 2\nclaim e0 0\nclaim e2 1",
        "class e3 2\nclaim e0 0\nclaim e2 0",
        Some(Reason::AxiomFails { axiom: 1 }),
    ),
    (
        "claim e2 1\nclaim e3 2",
        "claim e2 0",
        Some(Reason::ClaimMissing { class: ClassId(3) }),
    ),
    (
        "claim e2 1\nclaim e3 2\n",
        "",
        Some(Reason::ClaimMissing { class: ClassId(2) }),
    ),
    (
        "claim e2 1\nclaim e3 2",
        "claim e2 0\nclaim e3 0",
        Some(Reason::ClaimDisagrees { class: ClassId(2) }),
    ),
];

#[test]
fn interpretation_before_claims(rt: HostRuntime) -> Result<(), Fail> {
    judge_one_subclass(&rt, INTERPRETATION_BEFORE_CLAIMS)
}

#[test]
fn least_axiom_that_fails(rt: HostRuntime) -> Result<(), Fail> {
    let texts = Texts {
        taxonomy: CONTRADICTION.taxonomy,
        instances: CONTRADICTION.instances,
        certificate: "elcert 1 consistent\ndomain 1\nind i0 0\nend\n",
    };
    judge(
        &rt,
        CONTRADICTION_DOCUMENT,
        texts,
        &[("end", "end", Some(Reason::AxiomFails { axiom: 2 }))],
    )
}

const CLAIMS_AND_INDIVIDUALS_BEFORE_TEXTS: &[Change] = &[
    (
        "class e2 1 2",
        "class e2 1",
        Some(Reason::AxiomFails { axiom: 1 }),
    ),
    (
        "claim e2 1\n",
        "",
        Some(Reason::ClaimMissing { class: ClassId(2) }),
    ),
    (
        "claim e2 1",
        "claim e2 0",
        Some(Reason::ClaimDisagrees { class: ClassId(2) }),
    ),
    (
        "sub i0 e0 K2\ndomain 3\nclass e2 1 2\nind i0 2\nclaim e0 0\nclaim e2 1",
        "domain 3\nclass e2 1 2\nind i0 2\nclaim e0 0\nclaim e2 0",
        Some(Reason::ClaimDisagrees { class: ClassId(2) }),
    ),
    (
        "sub i0 e0 K2\n",
        "",
        Some(Reason::IndividualDisagrees {
            individual: IndId(0),
        }),
    ),
    ("end", "end", Some(Reason::TaxonomyDiffers { at: 0 })),
];

#[test]
fn claims_and_individuals_before_texts(rt: HostRuntime) -> Result<(), Fail> {
    let texts = Texts {
        taxonomy: "",
        instances: "",
        certificate: ONE_MEMBER.certificate,
    };
    judge(
        &rt,
        ONE_MEMBER_DOCUMENT,
        texts,
        CLAIMS_AND_INDIVIDUALS_BEFORE_TEXTS,
    )
}

const DERIVATION_BEFORE_CONTRADICTION_BEFORE_TEXTS: &[Change] = &[
    ("end\n", "", Some(Reason::BadText { at: 76 })),
    (
        "sub i0 e3 K15 a3\nsub i0 e1 K7 a1 1 2",
        "sub i0 e3 K15 a2",
        Some(Reason::BadLine { number: 2 }),
    ),
    ("sub i0 e1 K7 a1 1 2\n", "", Some(Reason::NoContradiction)),
    ("end", "end", Some(Reason::TaxonomyDiffers { at: 0 })),
];

#[test]
fn derivation_before_contradiction_before_texts(rt: HostRuntime) -> Result<(), Fail> {
    let texts = Texts {
        taxonomy: "",
        instances: "",
        certificate: CONTRADICTION.certificate,
    };
    judge(
        &rt,
        CONTRADICTION_DOCUMENT,
        texts,
        DERIVATION_BEFORE_CONTRADICTION_BEFORE_TEXTS,
    )
}
