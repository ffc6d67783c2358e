//! Lines that stand twice, too early or not at all, in certificates of four ontologies.

use super::ontologies::{
    CIRCLE_AND_NOTHING_DOCUMENT, CONTRADICTION_DOCUMENT, ONE_SUBCLASS_DOCUMENT,
};
use super::{
    CIRCLE_AND_NOTHING, CONTRADICTION, Change, Texts, judge, judge_one_member, judge_one_subclass,
};
use axioms::{ClassId, IndId};
use cert_check::Reason;
use std::test::Fail;

// What lines say is counted once, however often they say it.
const LINES_THAT_STAND_TWICE_SUPERCLASS: &[Change] = &[(
    "sub e2 e3 K4 a1 3\n",
    "sub e2 e3 K4 a1 3\nsub e2 e3 K4 a1 3\n",
    None,
)];

const LINES_THAT_STAND_TWICE_CLASS: &[Change] = &[(
    "sub i0 e0 K2\n",
    "sub i0 e0 K2\nsub i0 e0 K2\nsub i0 e2 K15 a1\n",
    None,
)];

#[test]
fn lines_that_stand_twice(rt: HostRuntime) -> Result<(), Fail> {
    judge_one_subclass(&rt, LINES_THAT_STAND_TWICE_SUPERCLASS)?;
    judge_one_member(&rt, LINES_THAT_STAND_TWICE_CLASS)
}

// Not all lines of what is below owl:Nothing are there, and the classes of a circle have one element.
const CLASSES_IN_A_CIRCLE_AND_BELOW_NOTHING: &[Change] = &[
    ("end", "end", None),
    (
        "sub e4 e1 K4 a4 6",
        "sub e4 e4 K1",
        Some(Reason::ClaimMissing { class: ClassId(4) }),
    ),
    (
        "sub e3 e2 K4 a2 11\n",
        "",
        Some(Reason::ClaimDisagrees { class: ClassId(3) }),
    ),
    (
        "claim e3 1\n",
        "claim e3 1\nclaim e4 1\n",
        Some(Reason::ClaimDisagrees { class: ClassId(4) }),
    ),
];

#[test]
fn classes_in_a_circle_and_below_nothing(rt: HostRuntime) -> Result<(), Fail> {
    judge(
        &rt,
        CIRCLE_AND_NOTHING_DOCUMENT,
        CIRCLE_AND_NOTHING,
        CLASSES_IN_A_CIRCLE_AND_BELOW_NOTHING,
    )
}

// The claimed element is in more classes than lines put above its class, or the individual's than lines put it into.
const ELEMENTS_IN_MORE_CLASSES_CLASSES: &[Change] = &[
    (
        "claim e3 2",
        "claim e3 1",
        Some(Reason::ClaimDisagrees { class: ClassId(3) }),
    ),
    (
        "claim e0 0",
        "claim e0 2",
        Some(Reason::ClaimDisagrees { class: ClassId(0) }),
    ),
];

const ELEMENTS_IN_MORE_CLASSES_INDIVIDUALS: &[Change] = &[(
    "sub i0 e2 K15 a1\nsub i0 e0 K2",
    "sub i0 e0 K2",
    Some(Reason::IndividualDisagrees {
        individual: IndId(0),
    }),
)];

#[test]
fn elements_in_more_classes(rt: HostRuntime) -> Result<(), Fail> {
    judge_one_subclass(&rt, ELEMENTS_IN_MORE_CLASSES_CLASSES)?;
    judge_one_member(&rt, ELEMENTS_IN_MORE_CLASSES_INDIVIDUALS)
}

// What each rests on would fit, but it is the line itself or a later one.
const LINES_THAT_REST_ON_NO_EARLIER_LINE: &[Change] = &[
    (
        "end",
        "sub e0 e1 K3 1\nend",
        Some(Reason::BadLine { number: 1 }),
    ),
    (
        "end",
        "sub e0 e1 K3 2\nsub e0 e1 K3 1\nend",
        Some(Reason::BadLine { number: 1 }),
    ),
    (
        "end",
        "sub e0 e0 K1\nsub e0 e1 K3 2\nend",
        Some(Reason::BadLine { number: 2 }),
    ),
    (
        "end",
        "sub e0 e0 K1\nsub e2 e3 K4 a1 3\nsub e2 e2 K1\nend",
        Some(Reason::BadLine { number: 2 }),
    ),
];

#[test]
fn lines_that_rest_on_no_earlier_line(rt: HostRuntime) -> Result<(), Fail> {
    let texts = Texts {
        taxonomy: CONTRADICTION.taxonomy,
        instances: CONTRADICTION.instances,
        certificate: "elcert 1 inconsistent\nend\n",
    };
    judge(
        &rt,
        ONE_SUBCLASS_DOCUMENT,
        texts,
        LINES_THAT_REST_ON_NO_EARLIER_LINE,
    )
}

const CHANGED_CERTIFICATES_OF_ONE_MEMBER: &[Change] = &[
    ("end", "end", None),
    ("ind i0 2", "ind i0 1", None),
    (
        "sub i0 e0 K2\n",
        "",
        Some(Reason::IndividualDisagrees {
            individual: IndId(0),
        }),
    ),
    (
        "class e2 1 2",
        "class e2 1",
        Some(Reason::AxiomFails { axiom: 1 }),
    ),
];

#[test]
fn changed_certificates_of_one_member(rt: HostRuntime) -> Result<(), Fail> {
    judge_one_member(&rt, CHANGED_CERTIFICATES_OF_ONE_MEMBER)
}

const CHANGED_CERTIFICATES_OF_A_CONTRADICTION: &[Change] = &[
    ("end", "end", None),
    ("sub i0 e1 K7 a1 1 2\n", "", Some(Reason::NoContradiction)),
    ("a1 1 2", "a1 2 1", None),
    ("a1 1 2", "a1 1 1", Some(Reason::BadLine { number: 3 })),
];

#[test]
fn changed_certificates_of_a_contradiction(rt: HostRuntime) -> Result<(), Fail> {
    judge(
        &rt,
        CONTRADICTION_DOCUMENT,
        CONTRADICTION,
        CHANGED_CERTIFICATES_OF_A_CONTRADICTION,
    )
}
