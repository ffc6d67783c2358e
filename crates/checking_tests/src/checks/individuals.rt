//! Certificates of documents in which individuals are one, or differ, or pairs are denied: right ones, and ones that were changed.

use super::{CONTRADICTION, Change, Texts, judge};
use cert_check::Reason;
use std::test::Fail;

/// The taxonomy text where there are no classes but owl:Thing and owl:Nothing.
const NO_CLASSES: &str =
    "eltax 1 consistent\n<http://www.w3.org/2002/07/owl#Thing>\nbottom <http://www.w3.org/2002/07/owl#Nothing>\n";

/// .. where there is one more.
const ONE_CLASS: &str =
    "eltax 1 consistent\n<http://www.w3.org/2002/07/owl#Thing>\n<x:A> < <http://www.w3.org/2002/07/owl#Thing>\nbottom <http://www.w3.org/2002/07/owl#Nothing>\n";

/// .. where there are two more, neither below the other.
const TWO_CLASSES: &str =
    "eltax 1 consistent\n<http://www.w3.org/2002/07/owl#Thing>\n<x:A> < <http://www.w3.org/2002/07/owl#Thing>\n<x:B> < <http://www.w3.org/2002/07/owl#Thing>\nbottom <http://www.w3.org/2002/07/owl#Nothing>\n";

/// The instances text where two individuals are in owl:Thing alone.
const TWO_THINGS: &str =
    "elinst 1 consistent\n<x:a> : <http://www.w3.org/2002/07/owl#Thing>\n<x:b> : <http://www.w3.org/2002/07/owl#Thing>\n";

/// No change: the certificate is accepted.
const RIGHT: &[Change] = &[("end", "end", None)];

/// The texts of a contradiction that this certificate shows.
fn contradiction(certificate: &'static str) -> Texts<'static> {
    Texts {
        taxonomy: CONTRADICTION.taxonomy,
        instances: CONTRADICTION.instances,
        certificate,
    }
}

const SAME_INDIVIDUALS: Texts<'static> = Texts {
    taxonomy: TWO_CLASSES,
    instances: "elinst 1 consistent\n<x:a> : <x:A> , <x:B>\n<x:b> : <x:A> , <x:B>\n",
    certificate: "elcert 1 consistent\nsub e0 e0 K1\nsub e1 e1 K1\nsub e2 e2 K1\nsub e2 e0 K2\nsub e3 e3 K1\nsub e3 e0 K2\nsub i0 e2 K15 a2\nsub i1 e3 K15 a3\nsame i0 i1 K17 a1\nsame i1 i0 K17 a1\nsub i0 e3 K19 9 8\nsub i1 e2 K19 10 7\nsub i0 e0 K2\nsub i1 e0 K2\ndomain 4\nclass e2 1 3\nclass e3 2 3\nind i0 3\nind i1 3\nclaim e0 0\nclaim e2 1\nclaim e3 2\nend\n",
};

#[test]
fn same_individuals(rt: HostRuntime) -> Result<(), Fail> {
    judge(
        &rt,
        "Prefix(:=<x:>) Ontology(SameIndividual(:a :b) ClassAssertion(:A :a) ClassAssertion(:B :b))",
        SAME_INDIVIDUALS,
        RIGHT,
    )
}

#[test]
fn same_and_different(rt: HostRuntime) -> Result<(), Fail> {
    judge(
        &rt,
        "Prefix(:=<x:>) Ontology(SameIndividual(:a :b) DifferentIndividuals(:b :a))",
        contradiction("elcert 1 inconsistent\nsame i0 i1 K17 a1\nsub i0 e1 K20 a2 1\nend\n"),
        RIGHT,
    )
}

#[test]
fn denied_by_way_of_same(rt: HostRuntime) -> Result<(), Fail> {
    judge(
        &rt,
        "Prefix(:=<x:>) Ontology(SameIndividual(:b :c) ObjectPropertyAssertion(:r :a :b) SubObjectPropertyOf(:r :s) NegativeObjectPropertyAssertion(:s :a :c))",
        contradiction(
            "elcert 1 inconsistent\nedge i2 p0 i0 K16 a2\nsame i1 i0 K17 a1\nedge i2 p0 i1 K19 2 1\nedge i2 p1 i1 K12 a3 3\nsub i2 e1 K20 a4 4\nend\n",
        ),
        RIGHT,
    )
}

const DIFFERENT_AND_DENIED: Texts<'static> = Texts {
    taxonomy: NO_CLASSES,
    instances: TWO_THINGS,
    certificate: "elcert 1 consistent\nsub e0 e0 K1\nsub e1 e1 K1\nsub i0 e0 K2\nsub i1 e0 K2\ndomain 3\nind i0 1\nind i1 2\nclaim e0 0\nend\n",
};

#[test]
fn different_and_denied(rt: HostRuntime) -> Result<(), Fail> {
    judge(
        &rt,
        "Prefix(:=<x:>) Ontology(DifferentIndividuals(:a :b) NegativeObjectPropertyAssertion(:r :a :b))",
        DIFFERENT_AND_DENIED,
        RIGHT,
    )
}

const THREE_IN_ONE_AXIOM: Texts<'static> = Texts {
    taxonomy: ONE_CLASS,
    instances: "elinst 1 consistent\n<x:a> : <x:A>\n<x:b> : <x:A>\n<x:c> : <x:A>\n",
    certificate: "elcert 1 consistent\nsub e0 e0 K1\nsub e1 e1 K1\nsub e2 e2 K1\nsub e2 e0 K2\nsub i2 e2 K15 a2\nsame i1 i2 K17 a1\nsub i1 e2 K19 6 5\nsame i0 i2 K17 a1\nsub i0 e2 K19 8 5\nsub i0 e0 K2\nsub i1 e0 K2\nsub i2 e0 K2\ndomain 3\nclass e2 1 2\nind i0 2\nind i1 2\nind i2 2\nclaim e0 0\nclaim e2 1\nend\n",
};

// The eighth line begins at byte 125.
const THREE_IN_ONE_AXIOM_CHANGES: &[Change] = &[
    ("end", "end", None),
    (
        "domain 3\nclass e2 1 2\nind i0 2\nind i1 2\nind i2 2",
        "domain 4\nclass e2 1 2\nind i0 2\nind i1 2\nind i2 3",
        Some(Reason::AxiomFails { axiom: 1 }),
    ),
    (
        "same i0 i2 K17 a1",
        "same i0 i2 K17 a2",
        Some(Reason::BadLine { number: 8 }),
    ),
    (
        "sub i0 e2 K19 8 5",
        "sub i0 e2 K19 5 8",
        Some(Reason::BadLine { number: 9 }),
    ),
    (
        "same i0 i2 K17 a1",
        "same i0 i3 K17 a1",
        Some(Reason::BadText { at: 125 }),
    ),
    (
        "same i0 i2 K17 a1",
        "same i0 e2 K17 a1",
        Some(Reason::BadText { at: 125 }),
    ),
];

#[test]
fn three_in_one_axiom(rt: HostRuntime) -> Result<(), Fail> {
    judge(
        &rt,
        "Prefix(:=<x:>) Ontology(SameIndividual(:a :b :c) ClassAssertion(:A :c))",
        THREE_IN_ONE_AXIOM,
        THREE_IN_ONE_AXIOM_CHANGES,
    )
}

const TWO_AXIOMS_JOIN: Texts<'static> = Texts {
    taxonomy: ONE_CLASS,
    instances: "elinst 1 consistent\n<x:a> : <x:A>\n<x:b> : <x:A>\n<x:c> : <x:A>\n<x:d> : <x:A>\n",
    certificate: "elcert 1 consistent\nsub e0 e0 K1\nsub e1 e1 K1\nsub e2 e2 K1\nsub e2 e0 K2\nsub i3 e2 K15 a4\nsame i2 i3 K17 a2\nsub i2 e2 K19 6 5\nsame i1 i2 K17 a3\nsame i1 i3 K18 8 6\nsub i1 e2 K19 9 5\nsame i0 i1 K17 a1\nsame i0 i3 K18 11 9\nsub i0 e2 K19 12 5\nsub i0 e0 K2\nsub i1 e0 K2\nsub i2 e0 K2\nsub i3 e0 K2\ndomain 3\nclass e2 1 2\nind i0 2\nind i1 2\nind i2 2\nind i3 2\nclaim e0 0\nclaim e2 1\nend\n",
};

const TWO_AXIOMS_JOIN_CHANGES: &[Change] = &[
    ("end", "end", None),
    ("K18 8 6", "K18 6 8", Some(Reason::BadLine { number: 9 })),
    ("K18 11 9", "K18 9 11", Some(Reason::BadLine { number: 12 })),
];

#[test]
fn two_axioms_join(rt: HostRuntime) -> Result<(), Fail> {
    judge(
        &rt,
        "Prefix(:=<x:>) Ontology(SameIndividual(:c :d) SameIndividual(:a :b) SameIndividual(:d :a) ClassAssertion(:A :b))",
        TWO_AXIOMS_JOIN,
        TWO_AXIOMS_JOIN_CHANGES,
    )
}

const DIFFERENT_ALONE: Texts<'static> = Texts {
    taxonomy: NO_CLASSES,
    instances: "elinst 1 consistent\n<x:a> : <http://www.w3.org/2002/07/owl#Thing>\n<x:b> : <http://www.w3.org/2002/07/owl#Thing>\n<x:c> : <http://www.w3.org/2002/07/owl#Thing>\n",
    certificate: "elcert 1 consistent\nsub e0 e0 K1\nsub e1 e1 K1\nsub i0 e0 K2\nsub i1 e0 K2\nsub i2 e0 K2\ndomain 4\nind i0 1\nind i1 2\nind i2 3\nclaim e0 0\nend\n",
};

const DIFFERENT_ALONE_CHANGES: &[Change] = &[
    ("end", "end", None),
    (
        "ind i1 2",
        "ind i1 1",
        Some(Reason::AxiomFails { axiom: 1 }),
    ),
];

#[test]
fn different_alone(rt: HostRuntime) -> Result<(), Fail> {
    judge(
        &rt,
        "Prefix(:=<x:>) Ontology(DifferentIndividuals(:a :b :c))",
        DIFFERENT_ALONE,
        DIFFERENT_ALONE_CHANGES,
    )
}

const DENIED_BELOW: Texts<'static> = Texts {
    taxonomy: NO_CLASSES,
    instances: TWO_THINGS,
    certificate: "elcert 1 consistent\nsub e0 e0 K1\nsub e1 e1 K1\nsub i0 e0 K2\nsub i1 e0 K2\ndomain 3\nsucc p1 1 2\nind i0 1\nind i1 2\nclaim e0 0\nend\n",
};

const DENIED_BELOW_CHANGES: &[Change] = &[
    ("end", "end", None),
    (
        "succ p1 1 2",
        "succ p0 1 2\nsucc p1 1 2",
        Some(Reason::AxiomFails { axiom: 3 }),
    ),
];

#[test]
fn denied_below(rt: HostRuntime) -> Result<(), Fail> {
    judge(
        &rt,
        "Prefix(:=<x:>) Ontology(SubObjectPropertyOf(:r :s) ObjectPropertyAssertion(:s :a :b) NegativeObjectPropertyAssertion(:r :a :b))",
        DENIED_BELOW,
        DENIED_BELOW_CHANGES,
    )
}

const DIFFERENT_BY_WAY_OF_A_THIRD_CHANGES: &[Change] = &[
    ("end", "end", None),
    (
        "sub i0 e1 K20 a3 3",
        "sub i2 e1 K20 a3 3",
        Some(Reason::BadLine { number: 4 }),
    ),
    (
        "sub i0 e1 K20 a3 3",
        "sub i0 e1 K20 a1 3",
        Some(Reason::BadLine { number: 4 }),
    ),
];

#[test]
fn different_by_way_of_a_third(rt: HostRuntime) -> Result<(), Fail> {
    judge(
        &rt,
        "Prefix(:=<x:>) Ontology(SameIndividual(:a :b) SameIndividual(:b :c) DifferentIndividuals(:d :a :c))",
        contradiction(
            "elcert 1 inconsistent\nsame i0 i1 K17 a1\nsame i1 i2 K17 a2\nsame i0 i2 K18 1 2\nsub i0 e1 K20 a3 3\nend\n",
        ),
        DIFFERENT_BY_WAY_OF_A_THIRD_CHANGES,
    )
}

// Moved at its source the edge is one still, and not the one that is denied.
const REFLEXIVE_IN_A_GROUP_CHANGES: &[Change] = &[
    ("end", "end", None),
    (
        "edge i0 p0 i1 K19",
        "edge i1 p0 i0 K19",
        Some(Reason::BadLine { number: 4 }),
    ),
];

#[test]
fn reflexive_in_a_group(rt: HostRuntime) -> Result<(), Fail> {
    judge(
        &rt,
        "Prefix(:=<x:>) Ontology(ReflexiveObjectProperty(:r) SameIndividual(:a :b) NegativeObjectPropertyAssertion(:r :a :b))",
        contradiction(
            "elcert 1 inconsistent\nedge i0 p0 i0 K14 a1\nsame i1 i0 K17 a2\nedge i0 p0 i1 K19 2 1\nsub i0 e1 K20 a3 3\nend\n",
        ),
        REFLEXIVE_IN_A_GROUP_CHANGES,
    )
}

const CHAIN_THROUGH_A_GROUP: Texts<'static> = Texts {
    taxonomy: ONE_CLASS,
    instances: "elinst 1 consistent\n<x:a> : <x:A>\n<x:b> : <http://www.w3.org/2002/07/owl#Thing>\n<x:c> : <http://www.w3.org/2002/07/owl#Thing>\n<x:d> : <http://www.w3.org/2002/07/owl#Thing>\n",
    certificate: "elcert 1 consistent\nsub e0 e0 K1\nsub e1 e1 K1\nsub e2 e2 K1\nsub e2 e0 K2\nedge i2 p0 i0 K16 a2\nsame i1 i0 K17 a1\nedge i2 p0 i1 K19 6 5\nedge i1 p1 i3 K16 a3\nedge i2 p2 i3 K13 a4 7 8\nsub i2 e2 K10 a5 9\nsub i0 e0 K2\nsub i1 e0 K2\nsub i2 e0 K2\nsub i3 e0 K2\ndomain 5\nclass e2 1 3\nsucc p0 3 2\nsucc p1 2 4\nsucc p2 3 4\nind i0 2\nind i1 2\nind i2 3\nind i3 4\nclaim e0 0\nclaim e2 1\nend\n",
};

#[test]
fn chain_through_a_group(rt: HostRuntime) -> Result<(), Fail> {
    judge(
        &rt,
        "Prefix(:=<x:>) Ontology(SameIndividual(:b :c) ObjectPropertyAssertion(:r :a :b) ObjectPropertyAssertion(:s :c :d) SubObjectPropertyOf(ObjectPropertyChain(:r :s) :t) ObjectPropertyDomain(:t :A))",
        CHAIN_THROUGH_A_GROUP,
        RIGHT,
    )
}
