//! Runs that ask which conditions for a class are had, and which are lacked.

use super::*;

/// D has one condition of two parts, and E two conditions.
const DEFINED: &str =
    "Prefix(:=<x:>) Ontology(SubClassOf(:A :B) EquivalentClasses(:D ObjectIntersectionOf(:B ObjectSomeValuesFrom(:r :C))) SubClassOf(ObjectSomeValuesFrom(:r :A) :E) SubClassOf(:D :E) ClassAssertion(:A :a) ClassAssertion(:D :d))";

/// Documents, lines, and what is printed, in short.
const ANSWERS: &[(&str, &str, &str)] = &[
    (SUBCLASS, "elc lacks doc x:A x:B", "yes/"),
    (SUBCLASS, "elc lacks doc x:A x:A", "yes/"),
    (SUBCLASS, "elc lacks doc x:B x:A", "no condition/"),
    (CHAIN, "elc lacks doc x:E x:D", "yes/"),
    (
        CHAIN,
        "elc lacks doc x:W x:D",
        "axiom 4/lacks ObjectSomeValuesFrom(<x:loc> <x:H>)/",
    ),
    (CHAIN, "elc lacks doc x:W x:E --short", "no condition/"),
    (
        DEFINED,
        "elc lacks doc x:A x:D",
        "axiom 2/has <x:B>/lacks ObjectSomeValuesFrom(<x:r> <x:C>)/",
    ),
    (
        DEFINED,
        "elc lacks --short doc x:A x:D",
        "axiom 2/has :B/lacks ObjectSomeValuesFrom(:r :C)/",
    ),
    (
        DEFINED,
        "elc lacks doc x:A x:E",
        "axiom 3/lacks ObjectSomeValuesFrom(<x:r> <x:A>)/axiom 4/lacks <x:D>/",
    ),
    (DEFINED, "elc lacks doc x:D x:E", "yes/"),
    (
        DEFINED,
        "elc lacks doc x:a x:D --individual",
        "axiom 2/has <x:B>/lacks ObjectSomeValuesFrom(<x:r> <x:C>)/",
    ),
    (DEFINED, "elc lacks doc --individual x:d x:D", "yes/"),
    (
        INDIVIDUALS,
        "elc lacks doc x:b x:B --individual --profile 1 --max-facts 17",
        "axiom 1/lacks <x:A>/",
    ),
    (CONTRADICTION, "elc lacks doc x:A x:A", "yes/"),
];

#[test]
fn parts_that_are_had_and_lacked(rt: HostRuntime) -> Result<(), Fail> {
    for row in ANSWERS {
        let (document, line, short) = *row;
        assert!(rt; prints(&rt, document, line, short)?, "{line}");
    }
    Ok(())
}

/// Documents, lines, and the status and what is told where there is no answer.
const UNANSWERED: &[(&str, &str, u8, &str)] = &[
    (SUBCLASS, "elc lacks doc x:Y x:Z", 2, "unknown name <x:Y>\n"),
    (SUBCLASS, "elc lacks doc x:A x:Z", 2, "unknown name <x:Z>\n"),
    (
        INDIVIDUALS,
        "elc lacks doc x:a x:A",
        2,
        "unknown name <x:a>\n",
    ),
    (
        INDIVIDUALS,
        "elc lacks doc x:A x:B --individual",
        2,
        "unknown name <x:A>\n",
    ),
    (
        CHAIN,
        "elc lacks doc x:Q x:D --max-facts 19",
        5,
        "limit: more than 19 facts\n",
    ),
    (
        SUBCLASS,
        "elc lacks doc x:A x:B --max-bytes 41",
        5,
        "limit: more than 41 bytes\n",
    ),
    (
        SUBCLASS,
        "elc lacks other x:A x:B",
        6,
        "cannot read other\n",
    ),
    ("Ontology(", "elc lacks doc x:A x:B", 3, "P2 at byte 9\n"),
];

#[test]
fn conditions_that_are_not_told(rt: HostRuntime) -> Result<(), Fail> {
    for row in UNANSWERED {
        let (document, line, status, told) = *row;
        assert!(rt; tells(&rt, document, line, status, told)?, "{line}");
    }
    Ok(())
}

/// Words that are no command: a name lacks, or there is one word, or one option, too many.
const NO_COMMANDS: &[&str] = &[
    "elc lacks doc x:A",
    "elc lacks doc x:A x:B x:C",
    "elc lacks doc x:A x:B --dot",
];

#[test]
fn words_that_ask_for_no_condition(rt: HostRuntime) -> Result<(), Fail> {
    for row in NO_COMMANDS {
        let line = *row;
        let words: Vec<&str> = line.split(' ').collect(rt.alloc())?;
        assert!(rt; status(&rt, &words, SUBCLASS.as_bytes())? == 2, "{line}");
    }
    Ok(())
}
