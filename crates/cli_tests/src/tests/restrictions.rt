//! What of a document is of the profile, as a document.

use super::*;

const RESTRICT: &[&str] = &["elc", "restrict", "doc", "out"];

const LINED: &[&str] = &["elc", "restrict", "doc", "out", "--lines"];

const CASES: &[Writing] = &[
    Writing {
        words: RESTRICT,
        document: "Prefix(:=<x:>) Ontology(Declaration(DataProperty(:d)) SubClassOf(Annotation(rdfs:comment \"k\") :A ObjectIntersectionOf(:B :C)) EquivalentClasses(:A :A))",
        status: 0,
        out: "F1 at byte 36: DataProperty\nF4 at byte 147\nkept 1 left out 2\n",
        err: "",
        written: "Ontology(\nSubClassOf(<x:A> ObjectIntersectionOf(<x:B> <x:C>))\n)\n",
    },
    Writing {
        words: RESTRICT,
        document: "Ontology(",
        status: 3,
        out: "",
        err: "P2 at byte 9\n",
        written: "",
    },
    Writing {
        words: LINED,
        document: "Prefix(:=<x:>)\nOntology(\n\n HasKey(:A (:p) ())\nDeclaration(Class(:A))\nSubClassOf(_:b :B) Frobnicate()\n)",
        status: 0,
        out: "F1 at byte 27: HasKey line 4 column 2\nF6 at byte 80 line 6 column 12\nF2 at byte 88: Frobnicate line 6 column 20\nkept 1 left out 3\n",
        err: "",
        written: "Ontology(\nDeclaration(Class(<x:A>))\n)\n",
    },
    Writing {
        words: LINED,
        document: "Ontology(\nDeclaration(Class(<x:A>))\n)",
        status: 0,
        out: "kept 1 left out 0\n",
        err: "",
        written: "Ontology(\nDeclaration(Class(<x:A>))\n)\n",
    },
    Writing {
        words: LINED,
        document: "Ontology(\nSubClassOf(<x:A>",
        status: 3,
        out: "",
        err: "P2 at byte 26 line 2 column 17\n",
        written: "",
    },
    Writing {
        words: LINED,
        document: "Ontology(\n \"a)",
        status: 3,
        out: "",
        err: "X2 at byte 11 line 2 column 2\n",
        written: "",
    },
    Writing {
        words: &[
            "elc",
            "restrict",
            "doc",
            "out",
            "--max-bytes",
            "9",
            "--lines",
        ],
        document: "Ontology()",
        status: 5,
        out: "",
        err: "limit: more than 9 bytes\n",
        written: "",
    },
    Writing {
        words: &["elc", "restrict", "none", "out", "--lines"],
        document: "",
        status: 6,
        out: "",
        err: "cannot read none\n",
        written: "",
    },
    Writing {
        words: &["elc", "restrict", "doc", "out", "--max-bytes", "9"],
        document: "Ontology()",
        status: 5,
        out: "",
        err: "limit: more than 9 bytes\n",
        written: "",
    },
    Writing {
        words: &["elc", "restrict", "none", "out"],
        document: "",
        status: 6,
        out: "",
        err: "cannot read none\n",
        written: "",
    },
    Writing {
        words: &["elc", "restrict", "doc", "out", "--profile", "1"],
        document: "Prefix(:=<x:>) Ontology(SameIndividual(:a :b) Declaration(Class(:A)))",
        status: 0,
        out: "F1 at byte 24: SameIndividual\nkept 1 left out 1\n",
        err: "",
        written: "Ontology(\nDeclaration(Class(<x:A>))\n)\n",
    },
];

#[test]
fn what_is_of_the_profile_is_written(rt: HostRuntime) -> Result<(), Fail> {
    for case in CASES {
        let document = case.document;
        assert!(rt; is_written(&rt, case)?, "{document}");
    }
    Ok(())
}

#[test]
fn a_file_that_is_not_written_is_told(rt: HostRuntime) -> Result<(), Fail> {
    let unwritten = alone(&rt, RESTRICT, b"Ontology()")?;
    assert!(rt; is_run(&unwritten, 6, "", "cannot write out\n"));
    Ok(())
}
