//! Certificates with domains in which most elements stand in no line.

use super::{Change, Texts, judge};
use axioms::ClassId;
use cert_check::Reason;
use std::test::Fail;

/// The taxonomy text where there are no classes but owl:Thing and owl:Nothing.
const NO_CLASSES: &str =
    "eltax 1 consistent\n<http://www.w3.org/2002/07/owl#Thing>\nbottom <http://www.w3.org/2002/07/owl#Nothing>\n";

/// The taxonomy text where of two classes neither lies below the other.
const TWO_CLASSES: &str =
    "eltax 1 consistent\n<http://www.w3.org/2002/07/owl#Thing>\n<x:A> < <http://www.w3.org/2002/07/owl#Thing>\n<x:B> < <http://www.w3.org/2002/07/owl#Thing>\nbottom <http://www.w3.org/2002/07/owl#Nothing>\n";

/// The taxonomy text where the one class is all.
const EQUAL_TO_THING: &str =
    "eltax 1 consistent\n<http://www.w3.org/2002/07/owl#Thing> = <x:A>\nbottom <http://www.w3.org/2002/07/owl#Nothing>\n";

/// The instances text where there are no individuals.
const NO_INDIVIDUALS: &str = "elinst 1 consistent\n";

const REFLEXIVE: Texts<'static> = Texts {
    taxonomy: NO_CLASSES,
    instances: NO_INDIVIDUALS,
    certificate: "elcert 1 consistent\nsub e0 e0 K1\nsub e1 e1 K1\ndomain 1\nsucc p0 0 0\nclaim e0 0\nend\n",
};

// An element that stands in no line has no pair.
const REFLEXIVE_CHANGES: &[Change] = &[
    ("end", "end", None),
    (
        "domain 1",
        "domain 2",
        Some(Reason::AxiomFails { axiom: 1 }),
    ),
    (
        "domain 1",
        "domain 4294967295",
        Some(Reason::AxiomFails { axiom: 1 }),
    ),
];

#[test]
fn a_reflexive_property_in_huge_domains(rt: HostRuntime) -> Result<(), Fail> {
    judge(
        &rt,
        "Prefix(:=<x:>) Ontology(ReflexiveObjectProperty(:r))",
        REFLEXIVE,
        REFLEXIVE_CHANGES,
    )
}

const CLASS_OF_ALL: Texts<'static> = Texts {
    taxonomy: EQUAL_TO_THING,
    instances: NO_INDIVIDUALS,
    certificate: "elcert 1 consistent\nsub e0 e0 K1\nsub e0 e2 K4 a1 1\nsub e1 e1 K1\nsub e2 e2 K1\nsub e2 e0 K2\ndomain 1\nclass e2 0\nclaim e0 0\nclaim e2 0\nend\n",
};

// An element that stands in no line is in no class.
const CLASS_OF_ALL_CHANGES: &[Change] = &[
    ("end", "end", None),
    (
        "domain 1",
        "domain 4294967295",
        Some(Reason::AxiomFails { axiom: 1 }),
    ),
];

#[test]
fn a_class_of_all_in_huge_domains(rt: HostRuntime) -> Result<(), Fail> {
    judge(
        &rt,
        "Prefix(:=<x:>) Ontology(SubClassOf(owl:Thing :A))",
        CLASS_OF_ALL,
        CLASS_OF_ALL_CHANGES,
    )
}

const RUN_OF_ALL: Texts<'static> = Texts {
    taxonomy: EQUAL_TO_THING,
    instances: NO_INDIVIDUALS,
    certificate: "elcert 2 consistent\nsub e0 e0 K1\nsub e0 e2 K4 a1 1\nsub e1 e1 K1\nsub e2 e2 K1\nsub e2 e0 K2\ndomain 4294967295\nclass e2 0-4294967294\nclaim e0 0\nclaim e2 4294967294\nend\n",
};

const RUN_OF_ALL_CHANGES: &[Change] = &[
    ("end", "end", None),
    (
        "0-4294967294",
        "0-4294967293",
        Some(Reason::AxiomFails { axiom: 1 }),
    ),
    (
        "0-4294967294",
        "1-4294967294",
        Some(Reason::AxiomFails { axiom: 1 }),
    ),
    (
        "0-4294967294",
        "0-1000000000 1000000002-4294967294",
        Some(Reason::AxiomFails { axiom: 1 }),
    ),
];

#[test]
fn a_run_of_all_in_huge_domains(rt: HostRuntime) -> Result<(), Fail> {
    judge(
        &rt,
        "Prefix(:=<x:>) Ontology(SubClassOf(owl:Thing :A))",
        RUN_OF_ALL,
        RUN_OF_ALL_CHANGES,
    )
}

const RUN_OF_TARGETS: Texts<'static> = Texts {
    taxonomy: NO_CLASSES,
    instances: NO_INDIVIDUALS,
    certificate: "elcert 2 consistent\nsub e0 e0 K1\nsub e1 e1 K1\ndomain 4294967295\nsucc p0 7 0-4294967294\nclaim e0 4294967294\nend\n",
};

const RUN_OF_TARGETS_CHANGES: &[Change] = &[
    ("end", "end", None),
    (
        "succ p0 7 0-4294967294",
        "succ p0 7 8-4294967294\nsucc p0 8 8-4294967294",
        None,
    ),
    (
        "succ p0 7 0-4294967294",
        "succ p0 7 8-4294967294\nsucc p0 8 0-4294967294",
        Some(Reason::AxiomFails { axiom: 1 }),
    ),
];

#[test]
fn runs_of_targets_in_huge_domains(rt: HostRuntime) -> Result<(), Fail> {
    judge(
        &rt,
        "Prefix(:=<x:>) Ontology(TransitiveObjectProperty(:r))",
        RUN_OF_TARGETS,
        RUN_OF_TARGETS_CHANGES,
    )
}

const TRANSITIVE: Texts<'static> = Texts {
    taxonomy: NO_CLASSES,
    instances: NO_INDIVIDUALS,
    certificate: "elcert 1 consistent\nsub e0 e0 K1\nsub e1 e1 K1\ndomain 4294967295\nsucc p0 7 9 4000000000\nsucc p0 4000000000 9\nclaim e0 4294967294\nend\n",
};

const TRANSITIVE_CHANGES: &[Change] = &[
    ("end", "end", None),
    (
        "succ p0 7 9 4000000000",
        "succ p0 7 4000000000",
        Some(Reason::AxiomFails { axiom: 1 }),
    ),
];

#[test]
fn a_transitive_property_in_huge_domains(rt: HostRuntime) -> Result<(), Fail> {
    judge(
        &rt,
        "Prefix(:=<x:>) Ontology(TransitiveObjectProperty(:r))",
        TRANSITIVE,
        TRANSITIVE_CHANGES,
    )
}

const EXISTENTIAL: Texts<'static> = Texts {
    taxonomy: TWO_CLASSES,
    instances: NO_INDIVIDUALS,
    certificate: "elcert 1 consistent\nsub e0 e0 K1\nsub e1 e1 K1\nsub e2 e2 K1\nsub e2 e0 K2\nsub e3 e3 K1\nsub e3 e0 K2\ndomain 4294967295\nclass e2 4294967293\nclass e3 5\nsucc p0 4294967293 5\nclaim e0 0\nclaim e2 4294967293\nclaim e3 5\nend\n",
};

const EXISTENTIAL_CHANGES: &[Change] = &[
    ("end", "end", None),
    (
        "class e2 4294967293",
        "class e2 4294967292 4294967293",
        Some(Reason::AxiomFails { axiom: 1 }),
    ),
    // The element stands in this line alone.
    (
        "claim e2 4294967293",
        "claim e2 4294967294",
        Some(Reason::ClaimDisagrees { class: ClassId(2) }),
    ),
    (
        "claim e2 4294967293",
        "claim e2 4294967295",
        Some(Reason::BadText { at: 179 }),
    ),
];

#[test]
fn an_existential_in_huge_domains(rt: HostRuntime) -> Result<(), Fail> {
    judge(
        &rt,
        "Prefix(:=<x:>) Ontology(EquivalentClasses(:A ObjectSomeValuesFrom(:r :B)))",
        EXISTENTIAL,
        EXISTENTIAL_CHANGES,
    )
}

const INDIVIDUAL: Texts<'static> = Texts {
    taxonomy: NO_CLASSES,
    instances: "elinst 1 consistent\n<x:a> : <http://www.w3.org/2002/07/owl#Thing>\n",
    certificate: "elcert 1 consistent\nsub e0 e0 K1\nsub e1 e1 K1\nsub i0 e0 K2\ndomain 4294967295\nind i0 4294967294\nclaim e0 0\nend\n",
};

const INDIVIDUAL_CHANGES: &[Change] = &[
    ("end", "end", None),
    ("ind i0 4294967294\n", "", Some(Reason::BadText { at: 77 })),
];

#[test]
fn an_individual_in_huge_domains(rt: HostRuntime) -> Result<(), Fail> {
    judge(
        &rt,
        "Prefix(:=<x:>) Ontology(Declaration(NamedIndividual(:a)))",
        INDIVIDUAL,
        INDIVIDUAL_CHANGES,
    )
}

const DISJOINT: Texts<'static> = Texts {
    taxonomy: TWO_CLASSES,
    instances: NO_INDIVIDUALS,
    certificate: "elcert 1 consistent\nsub e0 e0 K1\nsub e1 e1 K1\nsub e2 e2 K1\nsub e2 e0 K2\nsub e3 e3 K1\nsub e3 e0 K2\ndomain 4294967295\nclass e2 10 20\nclass e3 30\nclaim e0 0\nclaim e2 10\nclaim e3 30\nend\n",
};

const DISJOINT_CHANGES: &[Change] = &[
    ("end", "end", None),
    (
        "class e3 30",
        "class e3 20 30",
        Some(Reason::AxiomFails { axiom: 1 }),
    ),
];

#[test]
fn disjoint_classes_in_huge_domains(rt: HostRuntime) -> Result<(), Fail> {
    judge(
        &rt,
        "Prefix(:=<x:>) Ontology(DisjointClasses(:A :B))",
        DISJOINT,
        DISJOINT_CHANGES,
    )
}
