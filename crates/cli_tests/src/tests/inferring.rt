//! What is inferred of a document, as a document.

use super::*;

const INFER: &[&str] = &["elc", "infer", "doc", "out"];

/// A document with a group above all classes, one of two names, and one below all classes.
const GROUPS: &str =
    "Prefix(:=<x:>) Ontology(SubClassOf(:A :B) SubClassOf(:B :A) SubClassOf(:A :C) SubClassOf(owl:Thing :T) SubClassOf(:U owl:Nothing) ClassAssertion(:A :a) ObjectPropertyAssertion(:r :a :b))";

/// What is inferred of it.
const GROUPS_INFERRED: &str =
    "Ontology(\nDeclaration(Class(<x:A>))\nDeclaration(Class(<x:B>))\nDeclaration(Class(<x:C>))\nDeclaration(Class(<x:T>))\nDeclaration(Class(<x:U>))\nDeclaration(ObjectProperty(<x:r>))\nDeclaration(NamedIndividual(<x:a>))\nDeclaration(NamedIndividual(<x:b>))\nEquivalentClasses(<http://www.w3.org/2002/07/owl#Thing> <x:T>)\nEquivalentClasses(<x:A> <x:B>)\nSubClassOf(<x:A> <x:C>)\nEquivalentClasses(<http://www.w3.org/2002/07/owl#Nothing> <x:U>)\nClassAssertion(<x:A> <x:a>)\n)\n";

const CASES: &[Writing] = &[
    Writing {
        words: INFER,
        document: GROUPS,
        status: 0,
        out: "consistent classes 7 individuals 2 facts 32\n",
        err: "",
        written: GROUPS_INFERRED,
    },
    Writing {
        words: INFER,
        document: "Ontology(SubClassOf(owl:Thing owl:Nothing) Declaration(Class(<x:A>)))",
        status: 0,
        out: "inconsistent classes 3 individuals 0 facts 7\n",
        err: "",
        written: "Ontology(\nDeclaration(Class(<x:A>))\nSubClassOf(<http://www.w3.org/2002/07/owl#Thing> <http://www.w3.org/2002/07/owl#Nothing>)\n)\n",
    },
    Writing {
        words: INFER,
        document: "Ontology()",
        status: 0,
        out: "consistent classes 2 individuals 0 facts 3\n",
        err: "",
        written: "Ontology(\n)\n",
    },
    Writing {
        words: INFER,
        document: "Ontology(",
        status: 3,
        out: "",
        err: "P2 at byte 9\n",
        written: "",
    },
    Writing {
        words: INFER,
        document: "Prefix(:=<x:>) Ontology(Declaration(DataProperty(:d)) SubClassOf(:A :B) EquivalentClasses(:A :A))",
        status: 3,
        out: "",
        err: "F1 at byte 36: DataProperty\nF4 at byte 93\n",
        written: "",
    },
    Writing {
        words: &["elc", "infer", "doc", "out", "--profile", "1"],
        document: "Prefix(:=<x:>) Ontology(SameIndividual(:a :b))",
        status: 3,
        out: "",
        err: "F1 at byte 24: SameIndividual\n",
        written: "",
    },
    Writing {
        words: &["elc", "infer", "doc", "out", "--max-facts", "9"],
        document: GROUPS,
        status: 5,
        out: "",
        err: "limit: more than 9 facts\n",
        written: "",
    },
    Writing {
        words: &["elc", "infer", "doc", "out", "--max-bytes", "9"],
        document: "Ontology()",
        status: 5,
        out: "",
        err: "limit: more than 9 bytes\n",
        written: "",
    },
    Writing {
        words: &["elc", "infer", "none", "out"],
        document: "",
        status: 6,
        out: "",
        err: "cannot read none\n",
        written: "",
    },
];

#[test]
fn what_follows_is_written(rt: HostRuntime) -> Result<(), Fail> {
    for case in CASES {
        let document = case.document;
        assert!(rt; is_written(&rt, case)?, "{document}");
    }
    Ok(())
}

/// What was inferred is a document of which the same is inferred.
#[test]
fn what_was_inferred_is_inferred_again(rt: HostRuntime) -> Result<(), Fail> {
    let (run, written) = document_by(&rt, INFER, GROUPS_INFERRED)?;
    assert!(rt; run.status == 0);
    assert!(rt; written.as_slice() == GROUPS_INFERRED.as_bytes());
    Ok(())
}

#[test]
fn a_file_that_is_not_written_is_told(rt: HostRuntime) -> Result<(), Fail> {
    let unwritten = alone(&rt, INFER, b"Ontology()")?;
    assert!(rt; is_run(&unwritten, 6, "", "cannot write out\n"));
    Ok(())
}
