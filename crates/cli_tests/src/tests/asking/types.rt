//! Runs that ask for the classes of an individual, and for those that have no element.

use super::*;

/// What runs on the document print, in short.
const TYPES: &[(&str, &str)] = &[
    ("elc types doc x:a", "T/<x:A>/<x:B>/<x:C>/"),
    ("elc types doc x:b", "T/"),
    ("elc types doc x:a --direct", "<x:A>/<x:C>/"),
    ("elc types --direct doc x:b", "T/"),
    ("elc types doc x:a --short --direct", ":A/:C/"),
    (
        "elc types doc x:a --max-facts 17 --max-bytes 159 --profile 1",
        "T/<x:A>/<x:B>/<x:C>/",
    ),
];

/// The axioms contradict each other: every individual belongs to every class.
const CONTRADICTED: &str =
    "Prefix(:=<x:>) Ontology(Declaration(Class(:B)) SubClassOf(:A owl:Nothing) ClassAssertion(:A :a))";

/// The classes A and B are the same, and a belongs to both and to C above them.
const GROUPED: &str =
    "Prefix(:=<x:>) Ontology(EquivalentClasses(:A :B) SubClassOf(:A :C) ClassAssertion(:B :a))";

/// Documents, lines, and what is printed, in short: groups, individuals that are one, and axioms that contradict each other.
const TYPES_OF_OTHERS: &[(&str, &str, &str)] = &[
    (GROUPED, "elc types doc x:a", "T/<x:A>/<x:B>/<x:C>/"),
    (GROUPED, "elc types doc x:a --direct", "<x:A> = <x:B>/"),
    (SAME, "elc types doc x:a", "T/<x:A>/<x:B>/"),
    (SAME, "elc types doc x:b --direct", "<x:A>/<x:B>/"),
    (CONTRADICTED, "elc types doc x:a", "N/T/<x:A>/<x:B>/"),
    (
        CONTRADICTED,
        "elc types doc x:a --direct",
        "N = T = <x:A> = <x:B>/",
    ),
];

#[test]
fn types_in_order(rt: HostRuntime) -> Result<(), Fail> {
    for row in TYPES {
        let (line, short) = *row;
        assert!(rt; prints(&rt, INDIVIDUALS, line, short)?, "{line}");
    }
    let line = "elc types doc x:a --short";
    assert!(rt; says(&rt, INDIVIDUALS, line, 0, "owl:Thing\n:A\n:B\n:C\n")?);
    Ok(())
}

#[test]
fn types_in_groups_and_of_all_classes(rt: HostRuntime) -> Result<(), Fail> {
    for row in TYPES_OF_OTHERS {
        let (document, line, short) = *row;
        assert!(rt; prints(&rt, document, line, short)?, "{line}");
    }
    Ok(())
}

/// A and B have no element, and C may have some.
const EMPTY: &str =
    "Prefix(:=<x:>) Ontology(SubClassOf(:B :A) SubClassOf(:A owl:Nothing) Declaration(Class(:C)))";

/// Documents, lines, and the status and what is printed: 1 where there is a class.
const UNSATISFIABLE: &[(&str, &str, u8, &str)] = &[
    (EMPTY, "elc unsatisfiable doc", 1, "<x:A>\n<x:B>\n"),
    (EMPTY, "elc unsatisfiable doc --short", 1, ":A\n:B\n"),
    (
        EMPTY,
        "elc unsatisfiable doc --profile=1",
        1,
        "<x:A>\n<x:B>\n",
    ),
    (SUBCLASS, "elc unsatisfiable doc", 0, ""),
    (SUBCLASS, "elc unsatisfiable --short doc", 0, ""),
    (INDIVIDUALS, "elc unsatisfiable doc --max-facts 17", 0, ""),
    (
        CONTRADICTION,
        "elc unsatisfiable doc",
        1,
        "<http://www.w3.org/2002/07/owl#Thing>\n<x:A>\n",
    ),
    (
        CONTRADICTION,
        "elc unsatisfiable doc --short",
        1,
        "owl:Thing\n:A\n",
    ),
];

#[test]
fn classes_without_elements(rt: HostRuntime) -> Result<(), Fail> {
    for row in UNSATISFIABLE {
        let (document, line, status, text) = *row;
        assert!(rt; says(&rt, document, line, status, text)?, "{line}");
    }
    Ok(())
}

/// Documents, lines, and the status and what is told where there is no answer.
const UNANSWERED: &[(&str, &str, u8, &str)] = &[
    (INDIVIDUALS, "elc types doc x:Q", 2, "unknown name <x:Q>\n"),
    (
        INDIVIDUALS,
        "elc types doc x:A --direct",
        2,
        "unknown name <x:A>\n",
    ),
    (
        INDIVIDUALS,
        "elc types doc x:Q --max-facts 16",
        5,
        "limit: more than 16 facts\n",
    ),
    (
        INDIVIDUALS,
        "elc unsatisfiable doc --max-facts 16",
        5,
        "limit: more than 16 facts\n",
    ),
    (
        SUBCLASS,
        "elc unsatisfiable doc --max-bytes 41",
        5,
        "limit: more than 41 bytes\n",
    ),
    (SUBCLASS, "elc types other x:a", 6, "cannot read other\n"),
    (
        SUBCLASS,
        "elc unsatisfiable other",
        6,
        "cannot read other\n",
    ),
    (
        "Ontology(SubClassOf(<x:A>))",
        "elc types doc x:a",
        3,
        "F3 at byte 9\n",
    ),
    ("Ontology(", "elc unsatisfiable doc", 3, "P2 at byte 9\n"),
    (
        SAME,
        "elc unsatisfiable doc --profile 1",
        3,
        "F1 at byte 24: SameIndividual\n",
    ),
];

#[test]
fn classes_that_are_not_told(rt: HostRuntime) -> Result<(), Fail> {
    for row in UNANSWERED {
        let (document, line, status, told) = *row;
        assert!(rt; tells(&rt, document, line, status, told)?, "{line}");
    }
    Ok(())
}

/// Words that are no command: a name lacks, or there is one word, or one option, too many.
const NO_COMMANDS: &[&str] = &[
    "elc types doc",
    "elc types doc x:a x:b",
    "elc types doc x:a --individual",
    "elc unsatisfiable",
    "elc unsatisfiable doc x:A",
    "elc unsatisfiable doc --direct",
];

#[test]
fn words_that_ask_for_no_classes(rt: HostRuntime) -> Result<(), Fail> {
    for row in NO_COMMANDS {
        let line = *row;
        let words: Vec<&str> = line.split(' ').collect(rt.alloc())?;
        assert!(rt; status(&rt, &words, INDIVIDUALS.as_bytes())? == 2, "{line}");
    }
    Ok(())
}
