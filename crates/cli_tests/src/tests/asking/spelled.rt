//! Runs that print the axioms that a derivation cites, or names by the prefixes of the document.

use super::*;

/// Documents, lines, and what is printed, in short: behind a derivation its axioms; a refutation and a graph as without.
const AXIOMS: &[(&str, &str, &str)] = &[
    (
        SUBCLASS,
        "elc explain doc x:A x:B --axioms",
        "yes/1. sub <x:A> <x:A> by K1/2. sub <x:A> <x:B> by K4 axiom 1 from 1/axiom 1 SubClassOf(<x:A> <x:B>)/",
    ),
    (
        SUBCLASS,
        "elc explain doc x:A x:A --axioms",
        "yes/1. sub <x:A> <x:A> by K1/",
    ),
    (
        SUBCLASS,
        "elc explain doc x:B x:A --axioms",
        "no/domain 1/class <x:B> 0/element 0/",
    ),
    (
        INDIVIDUALS,
        "elc explain doc x:a x:A --individual --axioms",
        "yes/1. sub individual <x:a> <x:A> by K15 axiom 2/axiom 2 ClassAssertion(<x:A> <x:a>)/",
    ),
    (
        INDIVIDUALS,
        "elc explain doc x:a x:A --axioms --individual --dot",
        "digraph derivation {/  node [shape=box];/  1 [label=\"1. sub individual <x:a> <x:A> by K15 axiom 2\"];/}/",
    ),
    (
        SAME,
        "elc explain doc x:b x:A --individual --axioms",
        "yes/1. sub individual <x:a> <x:A> by K15 axiom 2/2. same individual <x:b> individual <x:a> by K17 axiom 1/3. sub individual <x:b> <x:A> by K19 from 2, 1/axiom 1 SameIndividual(<x:a> <x:b>)/axiom 2 ClassAssertion(<x:A> <x:a>)/",
    ),
];

#[test]
fn axioms_behind_a_derivation(rt: HostRuntime) -> Result<(), Fail> {
    for row in AXIOMS {
        let (document, line, short) = *row;
        assert!(rt; prints(&rt, document, line, short)?, "{line}");
    }
    Ok(())
}

/// Without a prefix for its names.
const UNPREFIXED: &str = "Ontology(SubClassOf(<x:A> <x:B>))";

/// Two prefixes fit the first name, of which the second is longer; one fits the last; what stands behind it in the other is no local name.
const PREFIXED: &str =
    "Prefix(:=<x:>) Prefix(a:=<x:A>) Ontology(SubClassOf(<x:Ab> <x:C>) SubClassOf(<x:C> <x:B/d>))";

/// Documents, lines, and what is printed.
const SHORT: &[(&str, &str, &str)] = &[
    (
        SUBCLASS,
        "elc supers doc x:A --short",
        "owl:Thing\n:A\n:B\n",
    ),
    (
        SUBCLASS,
        "elc subs --short doc x:B",
        "owl:Nothing\n:A\n:B\n",
    ),
    (SUBCLASS, "elc equivalents doc --short x:B", ":B\n"),
    (SUBCLASS, "elc parents doc x:A --short", ":B\n"),
    (SUBCLASS, "elc children doc x:A --short", "owl:Nothing\n"),
    (
        INDIVIDUALS,
        "elc instances doc http://www.w3.org/2002/07/owl#Thing --short",
        ":a\n:b\n:c\n",
    ),
    (
        CHAIN,
        "elc query doc :D --short",
        "super owl:Thing\nsuper :D\nsub owl:Nothing\nsub :D\nsub :E\n",
    ),
    (
        UNPREFIXED,
        "elc supers doc x:A --short",
        "owl:Thing\n<x:A>\n<x:B>\n",
    ),
    (
        SUBCLASS,
        "elc explain doc x:A x:B --short --axioms",
        "yes\n1. sub :A :A by K1\n2. sub :A :B by K4 axiom 1 from 1\naxiom 1 SubClassOf(:A :B)\n",
    ),
    (
        SUBCLASS,
        "elc explain doc x:B x:A --short",
        "no\ndomain 1\nclass :B 0\nelement 0\n",
    ),
    (
        SUBCLASS,
        "elc explain doc x:B x:A --dot --short",
        "digraph refutation {\n  node [shape=ellipse];\n  0 [label=\"0\\n:B\", peripheries=2];\n}\n",
    ),
    (
        INDIVIDUALS,
        "elc explain doc x:a x:A --short --individual --dot",
        "digraph derivation {\n  node [shape=box];\n  1 [label=\"1. sub individual :a :A by K15 axiom 2\"];\n}\n",
    ),
];

#[test]
fn names_by_the_prefixes(rt: HostRuntime) -> Result<(), Fail> {
    for row in SHORT {
        let (document, line, text) = *row;
        assert!(rt; says(&rt, document, line, 0, text)?, "{line}");
    }
    Ok(())
}

#[test]
fn the_longest_prefix_and_names_that_none_fits(rt: HostRuntime) -> Result<(), Fail> {
    let line = "elc supers doc x:Ab --short";
    assert!(rt; says(&rt, PREFIXED, line, 0, "owl:Thing\na:b\n<x:B/d>\n:C\n")?);
    Ok(())
}

/// Lines that ask for the version, and what comes behind it, which is not looked at.
const VERSIONS: &[&str] = &[
    "elc --version",
    "elc -V",
    "elc --version check a b c d",
    "elc -V --nothing",
];

#[test]
fn the_version(rt: HostRuntime) -> Result<(), Fail> {
    for line in VERSIONS {
        assert!(rt; says(&rt, SUBCLASS, *line, 0, "elc 0.9.0\n")?, "{line}");
    }
    Ok(())
}
