//! Documents in which individuals are one, or differ, or pairs are denied, worked out by hand: how many facts they lead to, their
//! instances, and what is listed of those that are consistent.

use crate::classifications::{are_accepted, classified};
use classification::Classification;
use std::random::RandomSource;
use std::test::Fail;

/// What is expected of a document: a contradiction; or its instances text, and what its certificate has behind the lines.
#[derive(Clone, Copy)]
enum Expected {
    Contradictory,
    Listed(&'static str, &'static str),
}

/// A document, how many facts it leads to, and what is expected of it.
struct Row {
    name: &'static str,
    document: &'static str,
    facts: u64,
    expected: Expected,
}

const ROWS: &[Row] = &[
    Row {
        name: "same_individuals",
        document: "Prefix(:=<x:>) Ontology(SameIndividual(:a :b) ClassAssertion(:A :a) ClassAssertion(:B :b))",
        facts: 13,
        expected: Expected::Listed(
            "elinst 1 consistent\n<x:a> : <x:A> , <x:B>\n<x:b> : <x:A> , <x:B>\n",
            "domain 4\nclass e2 1 3\nclass e3 2 3\nind i0 3\nind i1 3\nclaim e0 0\nclaim e2 1\nclaim e3 2\nend\n",
        ),
    },
    Row {
        name: "same_and_different",
        document: "Prefix(:=<x:>) Ontology(SameIndividual(:a :b) DifferentIndividuals(:b :a))",
        facts: 7,
        expected: Expected::Contradictory,
    },
    Row {
        name: "denied_by_way_of_same",
        document: "Prefix(:=<x:>) Ontology(SameIndividual(:b :c) ObjectPropertyAssertion(:r :a :b) SubObjectPropertyOf(:r :s) NegativeObjectPropertyAssertion(:s :a :c))",
        facts: 9,
        expected: Expected::Contradictory,
    },
    Row {
        name: "different_and_denied",
        document: "Prefix(:=<x:>) Ontology(DifferentIndividuals(:a :b) NegativeObjectPropertyAssertion(:r :a :b))",
        facts: 5,
        expected: Expected::Listed(
            "elinst 1 consistent\n<x:a> : <http://www.w3.org/2002/07/owl#Thing>\n<x:b> : <http://www.w3.org/2002/07/owl#Thing>\n",
            "domain 3\nind i0 1\nind i1 2\nclaim e0 0\nend\n",
        ),
    },
    Row {
        name: "same_alone",
        document: "Prefix(:=<x:>) Ontology(Declaration(NamedIndividual(:a)) SameIndividual(:a :b))",
        facts: 5,
        expected: Expected::Listed(
            "elinst 1 consistent\n<x:a> : <http://www.w3.org/2002/07/owl#Thing>\n<x:b> : <http://www.w3.org/2002/07/owl#Thing>\n",
            "domain 2\nind i0 1\nind i1 1\nclaim e0 0\nend\n",
        ),
    },
    Row {
        name: "same_twice",
        document: "Prefix(:=<x:>) Ontology(SameIndividual(:a :b) SameIndividual(:b :a))",
        facts: 5,
        expected: Expected::Listed(
            "elinst 1 consistent\n<x:a> : <http://www.w3.org/2002/07/owl#Thing>\n<x:b> : <http://www.w3.org/2002/07/owl#Thing>\n",
            "domain 2\nind i0 1\nind i1 1\nclaim e0 0\nend\n",
        ),
    },
    Row {
        name: "three_in_one_axiom",
        document: "Prefix(:=<x:>) Ontology(SameIndividual(:a :b :c) ClassAssertion(:A :c))",
        facts: 11,
        expected: Expected::Listed(
            "elinst 1 consistent\n<x:a> : <x:A>\n<x:b> : <x:A>\n<x:c> : <x:A>\n",
            "domain 3\nclass e2 1 2\nind i0 2\nind i1 2\nind i2 2\nclaim e0 0\nclaim e2 1\nend\n",
        ),
    },
    Row {
        name: "two_axioms_join",
        document: "Prefix(:=<x:>) Ontology(SameIndividual(:c :d) SameIndividual(:a :b) SameIndividual(:d :a) ClassAssertion(:A :b))",
        facts: 13,
        expected: Expected::Listed(
            "elinst 1 consistent\n<x:a> : <x:A>\n<x:b> : <x:A>\n<x:c> : <x:A>\n<x:d> : <x:A>\n",
            "domain 3\nclass e2 1 2\nind i0 2\nind i1 2\nind i2 2\nind i3 2\nclaim e0 0\nclaim e2 1\nend\n",
        ),
    },
    Row {
        name: "different_by_way_of_a_third",
        document: "Prefix(:=<x:>) Ontology(SameIndividual(:a :b) SameIndividual(:b :c) DifferentIndividuals(:d :a :c))",
        facts: 10,
        expected: Expected::Contradictory,
    },
    Row {
        name: "different_alone",
        document: "Prefix(:=<x:>) Ontology(DifferentIndividuals(:a :b :c))",
        facts: 6,
        expected: Expected::Listed(
            "elinst 1 consistent\n<x:a> : <http://www.w3.org/2002/07/owl#Thing>\n<x:b> : <http://www.w3.org/2002/07/owl#Thing>\n<x:c> : <http://www.w3.org/2002/07/owl#Thing>\n",
            "domain 4\nind i0 1\nind i1 2\nind i2 3\nclaim e0 0\nend\n",
        ),
    },
    Row {
        name: "edge_inside_a_group",
        document: "Prefix(:=<x:>) Ontology(SameIndividual(:a :b) ObjectPropertyAssertion(:r :a :b))",
        facts: 9,
        expected: Expected::Listed(
            "elinst 1 consistent\n<x:a> : <http://www.w3.org/2002/07/owl#Thing>\n<x:b> : <http://www.w3.org/2002/07/owl#Thing>\n",
            "domain 2\nsucc p0 1 1\nind i0 1\nind i1 1\nclaim e0 0\nend\n",
        ),
    },
    Row {
        name: "two_groups",
        document: "Prefix(:=<x:>) Ontology(SameIndividual(:a :b) SameIndividual(:c :d) ObjectPropertyAssertion(:r :a :c) DifferentIndividuals(:a :c))",
        facts: 11,
        expected: Expected::Listed(
            "elinst 1 consistent\n<x:a> : <http://www.w3.org/2002/07/owl#Thing>\n<x:b> : <http://www.w3.org/2002/07/owl#Thing>\n<x:c> : <http://www.w3.org/2002/07/owl#Thing>\n<x:d> : <http://www.w3.org/2002/07/owl#Thing>\n",
            "domain 3\nsucc p0 1 2\nind i0 1\nind i1 1\nind i2 2\nind i3 2\nclaim e0 0\nend\n",
        ),
    },
    Row {
        name: "chain_through_a_group",
        document: "Prefix(:=<x:>) Ontology(SameIndividual(:b :c) ObjectPropertyAssertion(:r :a :b) ObjectPropertyAssertion(:s :c :d) SubObjectPropertyOf(ObjectPropertyChain(:r :s) :t) ObjectPropertyDomain(:t :A))",
        facts: 15,
        expected: Expected::Listed(
            "elinst 1 consistent\n<x:a> : <x:A>\n<x:b> : <http://www.w3.org/2002/07/owl#Thing>\n<x:c> : <http://www.w3.org/2002/07/owl#Thing>\n<x:d> : <http://www.w3.org/2002/07/owl#Thing>\n",
            "domain 5\nclass e2 1 3\nsucc p0 3 2\nsucc p1 2 4\nsucc p2 3 4\nind i0 2\nind i1 2\nind i2 3\nind i3 4\nclaim e0 0\nclaim e2 1\nend\n",
        ),
    },
    Row {
        name: "long_chain_through_a_group",
        document: "Prefix(:=<x:>) Ontology(SameIndividual(:b :c) ObjectPropertyAssertion(:r :a :b) ObjectPropertyAssertion(:s :c :d) ObjectPropertyAssertion(:u :d :e) SubObjectPropertyOf(ObjectPropertyChain(:r :s :u) :t) ObjectPropertyDomain(:t :A))",
        facts: 18,
        expected: Expected::Listed(
            "elinst 1 consistent\n<x:a> : <x:A>\n<x:b> : <http://www.w3.org/2002/07/owl#Thing>\n<x:c> : <http://www.w3.org/2002/07/owl#Thing>\n<x:d> : <http://www.w3.org/2002/07/owl#Thing>\n<x:e> : <http://www.w3.org/2002/07/owl#Thing>\n",
            "domain 6\nclass e2 1 3\nsucc p0 3 2\nsucc p1 2 4\nsucc p2 4 5\nsucc p3 3 5\nind i0 2\nind i1 2\nind i2 3\nind i3 4\nind i4 5\nclaim e0 0\nclaim e2 1\nend\n",
        ),
    },
    Row {
        name: "intersection_in_a_group",
        document: "Prefix(:=<x:>) Ontology(SameIndividual(:a :b) ClassAssertion(:A :a) ClassAssertion(:B :b) ClassAssertion(:C :a) SubClassOf(ObjectIntersectionOf(:A :B :C) :D))",
        facts: 25,
        expected: Expected::Listed(
            "elinst 1 consistent\n<x:a> : <x:A> , <x:B> , <x:C> , <x:D>\n<x:b> : <x:A> , <x:B> , <x:C> , <x:D>\n",
            "domain 6\nclass e2 1 5\nclass e3 2 5\nclass e4 3 5\nclass e6 4 5\nind i0 5\nind i1 5\nclaim e0 0\nclaim e2 1\nclaim e3 2\nclaim e4 3\nclaim e6 4\nend\n",
        ),
    },
    Row {
        name: "definition_over_a_group",
        document: "Prefix(:=<x:>) Ontology(SameIndividual(:a :b) ObjectPropertyAssertion(:r :c :a) ClassAssertion(:A :b) EquivalentClasses(:D ObjectSomeValuesFrom(:r :A)))",
        facts: 19,
        expected: Expected::Listed(
            "elinst 1 consistent\n<x:a> : <x:A>\n<x:b> : <x:A>\n<x:c> : <x:D>\n",
            "domain 5\nclass e2 1 3\nclass e3 2 4\nsucc p0 2 1\nsucc p0 4 1 3\nind i0 3\nind i1 3\nind i2 4\nclaim e0 0\nclaim e2 1\nclaim e3 2\nend\n",
        ),
    },
    Row {
        name: "nothing_in_a_group",
        document: "Prefix(:=<x:>) Ontology(SameIndividual(:a :b) DisjointClasses(:A :B) ClassAssertion(:A :a) ClassAssertion(:B :b) SubClassOf(:C :A))",
        facts: 18,
        expected: Expected::Contradictory,
    },
    Row {
        name: "reflexive_in_a_group",
        document: "Prefix(:=<x:>) Ontology(ReflexiveObjectProperty(:r) SameIndividual(:a :b) NegativeObjectPropertyAssertion(:r :a :b))",
        facts: 13,
        expected: Expected::Contradictory,
    },
    Row {
        name: "denied_by_a_chain",
        document: "Prefix(:=<x:>) Ontology(SubObjectPropertyOf(ObjectPropertyChain(:r :r) :s) ObjectPropertyAssertion(:r :a :b) ObjectPropertyAssertion(:r :b :c) NegativeObjectPropertyAssertion(:s :a :c))",
        facts: 10,
        expected: Expected::Contradictory,
    },
    Row {
        name: "denied_below",
        document: "Prefix(:=<x:>) Ontology(SubObjectPropertyOf(:r :s) ObjectPropertyAssertion(:s :a :b) NegativeObjectPropertyAssertion(:r :a :b))",
        facts: 6,
        expected: Expected::Listed(
            "elinst 1 consistent\n<x:a> : <http://www.w3.org/2002/07/owl#Thing>\n<x:b> : <http://www.w3.org/2002/07/owl#Thing>\n",
            "domain 3\nsucc p1 1 2\nind i0 1\nind i1 2\nclaim e0 0\nend\n",
        ),
    },
    Row {
        name: "denied_by_a_transitive_property",
        document: "Prefix(:=<x:>) Ontology(TransitiveObjectProperty(:r) SameIndividual(:b :c) ObjectPropertyAssertion(:r :a :b) ObjectPropertyAssertion(:r :c :d) NegativeObjectPropertyAssertion(:r :a :d))",
        facts: 13,
        expected: Expected::Contradictory,
    },
];

/// Whether the texts are as is expected.
fn are_expected(made: &Classification, expected: Expected) -> bool {
    match expected {
        Expected::Contradictory => {
            !made.summary.consistent
                && made.instances.as_slice() == b"elinst 1 inconsistent\n".as_slice()
        }
        Expected::Listed(instances, listed) => {
            made.summary.consistent
                && made.instances.as_slice() == instances.as_bytes()
                && made.certificate.ends_with(listed.as_bytes())
        }
    }
}

/// Whether the document is classified as the row says, and the texts are accepted.
fn is_row<R: AllocGlobal + RandomSource>(rt: &R, row: &Row) -> Result<bool, Fail> {
    let (ontology, made) = classified(rt, row.document, 100)?;
    let right = match &made {
        Ok(made) => {
            made.summary.facts == row.facts
                && are_expected(made, row.expected)
                && are_accepted(rt.alloc(), &ontology, made)
        }
        Err(_) => false,
    };
    drop(made);
    drop(ontology);
    Ok(right)
}

#[test]
fn documents_of_individuals(rt: HostRuntime) -> Result<(), Fail> {
    for row in ROWS {
        assert!(rt; is_row(&rt, row)?, "{}", row.name);
    }
    Ok(())
}
