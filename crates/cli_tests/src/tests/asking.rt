//! Runs that answer a question about a document, where no file can be written.

mod conditions;
mod related;
mod spelled;
mod types;

use super::*;

const SUBCLASS: &str = "Prefix(:=<x:>) Ontology(SubClassOf(:A :B))";

const INDIVIDUALS: &str =
    "Prefix(:=<x:>) Ontology(SubClassOf(:A :B) ClassAssertion(:A :a) ObjectPropertyAssertion(:r :a :b) ObjectPropertyDomain(:r :C) Declaration(NamedIndividual(:c)))";

const SAME: &str =
    "Prefix(:=<x:>) Ontology(SameIndividual(:a :b) ClassAssertion(:A :a) ClassAssertion(:B :b))";

const REFLEXIVE: &str =
    "Prefix(:=<x:>) Ontology(ReflexiveObjectProperty(:q) SubObjectPropertyOf(:q :p) EquivalentClasses(:B ObjectSomeValuesFrom(:p :A)))";

const CONTRADICTION: &str =
    "Prefix(:=<x:>) Ontology(Declaration(Class(:A)) SubClassOf(owl:Thing owl:Nothing))";

const FOUR_INDIVIDUALS: &str =
    "Prefix(:=<x:>) Ontology(ObjectPropertyAssertion(:r :a :b) ObjectPropertyAssertion(:s :b :c) ClassAssertion(:A :d))";

const CHAIN: &str =
    "Prefix(:=<x:>) Ontology(SubClassOf(:E ObjectSomeValuesFrom(:loc :W)) SubClassOf(:W ObjectSomeValuesFrom(:part :H)) SubObjectPropertyOf(ObjectPropertyChain(:loc :part) :loc) EquivalentClasses(:D ObjectSomeValuesFrom(:loc :H)))";

/// A run on a document: its words behind the name of the program, its status, and what it prints, or tells where it fails.
struct Row {
    case: &'static str,
    document: &'static str,
    words: &'static [&'static str],
    status: u8,
    text: &'static str,
}

const MEMBERS: &[Row] = &[
    Row {
        case: "one individual",
        document: INDIVIDUALS,
        words: &["elc", "instances", "doc", "x:B"],
        status: 0,
        text: "<x:a>\n",
    },
    Row {
        case: "all individuals in byte order",
        document: INDIVIDUALS,
        words: &[
            "elc",
            "instances",
            "doc",
            "http://www.w3.org/2002/07/owl#Thing",
        ],
        status: 0,
        text: "<x:a>\n<x:b>\n<x:c>\n",
    },
    Row {
        case: "no individual",
        document: SUBCLASS,
        words: &["elc", "instances", "doc", "x:B"],
        status: 0,
        text: "",
    },
    Row {
        case: "individuals that are one",
        document: SAME,
        words: &["elc", "instances", "doc", "x:A"],
        status: 0,
        text: "<x:a>\n<x:b>\n",
    },
    Row {
        case: "individuals that are one, in the first version",
        document: SAME,
        words: &["elc", "instances", "doc", "x:A", "--profile", "1"],
        status: 3,
        text: "F1 at byte 24: SameIndividual\n",
    },
    Row {
        case: "as many facts as the limit",
        document: INDIVIDUALS,
        words: &["elc", "instances", "doc", "x:C", "--max-facts", "17"],
        status: 0,
        text: "<x:a>\n",
    },
    Row {
        case: "more facts than the limit",
        document: INDIVIDUALS,
        words: &["elc", "instances", "doc", "x:C", "--max-facts", "16"],
        status: 5,
        text: "limit: more than 16 facts\n",
    },
    Row {
        case: "more bytes than the limit",
        document: SUBCLASS,
        words: &["elc", "instances", "doc", "x:A", "--max-bytes", "41"],
        status: 5,
        text: "limit: more than 41 bytes\n",
    },
    Row {
        case: "an unknown class",
        document: SUBCLASS,
        words: &["elc", "instances", "doc", "x:Q"],
        status: 2,
        text: "unknown name <x:Q>\n",
    },
    Row {
        case: "an individual is no class",
        document: INDIVIDUALS,
        words: &["elc", "instances", "doc", "x:a"],
        status: 2,
        text: "unknown name <x:a>\n",
    },
    Row {
        case: "no document",
        document: SUBCLASS,
        words: &["elc", "instances", "other", "x:A"],
        status: 6,
        text: "cannot read other\n",
    },
    Row {
        case: "a refused document",
        document: "Ontology(",
        words: &["elc", "instances", "doc", "x:A"],
        status: 3,
        text: "P2 at byte 9\n",
    },
];

const REASONS: &[Row] = &[
    Row {
        case: "it follows",
        document: SUBCLASS,
        words: &["elc", "explain", "doc", "x:A", "x:B"],
        status: 0,
        text: "yes\n1. sub <x:A> <x:A> by K1\n2. sub <x:A> <x:B> by K4 axiom 1 from 1\n",
    },
    Row {
        case: "it does not follow",
        document: SUBCLASS,
        words: &["elc", "explain", "doc", "x:B", "x:A"],
        status: 0,
        text: "no\ndomain 1\nclass <x:B> 0\nelement 0\n",
    },
    Row {
        case: "it does not follow, by pairs of a reflexive property",
        document: REFLEXIVE,
        words: &["elc", "explain", "doc", "x:B", "x:A"],
        status: 0,
        text: "no\ndomain 2\nclass <x:B> 0 1\nclass <x:A> 1\npair <x:q> 0 0\npair <x:q> 1 1\npair <x:p> 0 0\npair <x:p> 0 1\npair <x:p> 1 1\nelement 0\n",
    },
    Row {
        case: "it does not follow, as a graph",
        document: SUBCLASS,
        words: &["elc", "explain", "doc", "x:B", "x:A", "--dot"],
        status: 0,
        text: "digraph refutation {\n  node [shape=ellipse];\n  0 [label=\"0\\n<x:B>\", peripheries=2];\n}\n",
    },
    Row {
        case: "it does not follow, by what is reached in two steps",
        document: FOUR_INDIVIDUALS,
        words: &[
            "elc",
            "explain",
            "doc",
            "x:a",
            "x:A",
            "--individual",
            "--reached",
        ],
        status: 0,
        text: "no\ndomain 4\npair <x:r> 0 1\npair <x:s> 1 2\nindividual <x:a> 0\nindividual <x:b> 1\nindividual <x:c> 2\nelement 0\nothers 1\n",
    },
    Row {
        case: "the same by all elements",
        document: FOUR_INDIVIDUALS,
        words: &["elc", "explain", "doc", "x:a", "x:A", "--individual"],
        status: 0,
        text: "no\ndomain 4\nclass <x:A> 3\npair <x:r> 0 1\npair <x:s> 1 2\nindividual <x:a> 0\nindividual <x:b> 1\nindividual <x:c> 2\nindividual <x:d> 3\nelement 0\n",
    },
    Row {
        case: "it does not follow, by what is reached as a graph",
        document: FOUR_INDIVIDUALS,
        words: &[
            "elc",
            "explain",
            "doc",
            "x:b",
            "x:A",
            "--individual",
            "--dot",
            "--reached",
        ],
        status: 0,
        text: "digraph refutation {\n  node [shape=ellipse];\n  label=\"others 2\";\n  1 [label=\"1\\nindividual <x:b>\", peripheries=2];\n  2 [label=\"2\\nindividual <x:c>\"];\n  1 -> 2 [label=\"<x:s>\"];\n}\n",
    },
    Row {
        case: "it follows, whatever is reached",
        document: SUBCLASS,
        words: &["elc", "explain", "doc", "x:A", "x:B", "--reached"],
        status: 0,
        text: "yes\n1. sub <x:A> <x:A> by K1\n2. sub <x:A> <x:B> by K4 axiom 1 from 1\n",
    },
    Row {
        case: "an individual",
        document: INDIVIDUALS,
        words: &["elc", "explain", "doc", "x:a", "x:A", "--individual"],
        status: 0,
        text: "yes\n1. sub individual <x:a> <x:A> by K15 axiom 2\n",
    },
    Row {
        case: "an individual, as a graph",
        document: INDIVIDUALS,
        words: &[
            "elc",
            "explain",
            "doc",
            "x:a",
            "x:A",
            "--individual",
            "--dot",
        ],
        status: 0,
        text: "digraph derivation {\n  node [shape=box];\n  1 [label=\"1. sub individual <x:a> <x:A> by K15 axiom 2\"];\n}\n",
    },
    Row {
        case: "an individual is not in the class, as a graph",
        document: FOUR_INDIVIDUALS,
        words: &[
            "elc",
            "explain",
            "--dot",
            "--individual",
            "doc",
            "x:b",
            "x:A",
        ],
        status: 0,
        text: "digraph refutation {\n  node [shape=ellipse];\n  0 [label=\"0\\nindividual <x:a>\"];\n  1 [label=\"1\\nindividual <x:b>\", peripheries=2];\n  2 [label=\"2\\nindividual <x:c>\"];\n  3 [label=\"3\\n<x:A>\\nindividual <x:d>\"];\n  0 -> 1 [label=\"<x:r>\"];\n  1 -> 2 [label=\"<x:s>\"];\n}\n",
    },
    Row {
        case: "an individual that is another",
        document: SAME,
        words: &["elc", "explain", "doc", "x:b", "x:A", "--individual"],
        status: 0,
        text: "yes\n1. sub individual <x:a> <x:A> by K15 axiom 2\n2. same individual <x:b> individual <x:a> by K17 axiom 1\n3. sub individual <x:b> <x:A> by K19 from 2, 1\n",
    },
    Row {
        case: "an individual that is another, in the first version",
        document: SAME,
        words: &[
            "elc",
            "explain",
            "doc",
            "x:b",
            "x:A",
            "--individual",
            "--profile=1",
        ],
        status: 3,
        text: "F1 at byte 24: SameIndividual\n",
    },
    Row {
        case: "an individual is no class",
        document: INDIVIDUALS,
        words: &["elc", "explain", "doc", "x:a", "x:A"],
        status: 2,
        text: "unknown name <x:a>\n",
    },
    Row {
        case: "a class is no individual",
        document: SUBCLASS,
        words: &["elc", "explain", "doc", "x:A", "x:B", "--individual"],
        status: 2,
        text: "unknown name <x:A>\n",
    },
    Row {
        case: "the first unknown name",
        document: SUBCLASS,
        words: &["elc", "explain", "doc", "x:Y", "x:Z"],
        status: 2,
        text: "unknown name <x:Y>\n",
    },
    Row {
        case: "the class is unknown",
        document: SUBCLASS,
        words: &["elc", "explain", "doc", "x:A", "x:Z", "--dot"],
        status: 2,
        text: "unknown name <x:Z>\n",
    },
    Row {
        case: "more facts than the limit",
        document: SUBCLASS,
        words: &["elc", "explain", "doc", "x:A", "x:B", "--max-facts", "1"],
        status: 5,
        text: "limit: more than 1 facts\n",
    },
    Row {
        case: "no document",
        document: SUBCLASS,
        words: &["elc", "explain", "other", "x:A", "x:B"],
        status: 6,
        text: "cannot read other\n",
    },
    Row {
        case: "a refused document",
        document: "Ontology(SubClassOf(<x:A>))",
        words: &["elc", "explain", "doc", "x:A", "x:A"],
        status: 3,
        text: "F3 at byte 9\n",
    },
];

const QUERIES: &[Row] = &[
    Row {
        case: "classes above and below",
        document: CHAIN,
        words: &["elc", "query", "doc", "ObjectSomeValuesFrom(:loc :H)"],
        status: 0,
        text: "super <http://www.w3.org/2002/07/owl#Thing>\nsuper <x:D>\nsub <http://www.w3.org/2002/07/owl#Nothing>\nsub <x:D>\nsub <x:E>\n",
    },
    Row {
        case: "an individual",
        document: INDIVIDUALS,
        words: &["elc", "query", "doc", "ObjectSomeValuesFrom(:r owl:Thing)"],
        status: 0,
        text: "super <http://www.w3.org/2002/07/owl#Thing>\nsuper <x:C>\nsub <http://www.w3.org/2002/07/owl#Nothing>\ninstance <x:a>\n",
    },
    Row {
        case: "individuals that are one",
        document: SAME,
        words: &[
            "elc",
            "query",
            "doc",
            "ObjectIntersectionOf(:A :B)",
            "--profile",
            "2",
        ],
        status: 0,
        text: "super <http://www.w3.org/2002/07/owl#Thing>\nsuper <x:A>\nsuper <x:B>\nsub <http://www.w3.org/2002/07/owl#Nothing>\ninstance <x:a>\ninstance <x:b>\n",
    },
    Row {
        case: "an axiom is no expression",
        document: SAME,
        words: &["elc", "query", "doc", "SameIndividual(:a :b)"],
        status: 3,
        text: "F3 at byte 0\n",
    },
    Row {
        case: "an axiom that the first version refuses is that where an expression stands, too",
        document: INDIVIDUALS,
        words: &[
            "elc",
            "query",
            "--profile",
            "1",
            "doc",
            "SameIndividual(:a :b)",
        ],
        status: 3,
        text: "F1 at byte 0: SameIndividual\n",
    },
    Row {
        case: "all names where the axioms contradict each other",
        document: CONTRADICTION,
        words: &["elc", "query", "doc", ":A"],
        status: 0,
        text: "super <http://www.w3.org/2002/07/owl#Nothing>\nsuper <http://www.w3.org/2002/07/owl#Thing>\nsuper <x:A>\nsub <http://www.w3.org/2002/07/owl#Nothing>\nsub <http://www.w3.org/2002/07/owl#Thing>\nsub <x:A>\n",
    },
    Row {
        case: "as many facts and bytes as the limits",
        document: CHAIN,
        words: &[
            "elc",
            "query",
            "--max-bytes=254",
            "doc",
            "ObjectSomeValuesFrom(:loc :H)",
            "--max-facts",
            "24",
        ],
        status: 0,
        text: "super <http://www.w3.org/2002/07/owl#Thing>\nsuper <x:D>\nsub <http://www.w3.org/2002/07/owl#Nothing>\nsub <x:D>\nsub <x:E>\n",
    },
    Row {
        case: "more facts with the expression than the limit",
        document: CHAIN,
        words: &[
            "elc",
            "query",
            "doc",
            "ObjectSomeValuesFrom(:loc :H)",
            "--max-facts",
            "23",
        ],
        status: 5,
        text: "limit: more than 23 facts\n",
    },
    Row {
        case: "more facts of the document than the limit, which is told before an unknown name",
        document: CHAIN,
        words: &["elc", "query", "doc", ":Q", "--max-facts", "19"],
        status: 5,
        text: "limit: more than 19 facts\n",
    },
    Row {
        case: "an unknown name, where the limit is not passed",
        document: CHAIN,
        words: &["elc", "query", "doc", ":Q", "--max-facts", "20"],
        status: 3,
        text: "F8 at byte 0\n",
    },
    Row {
        case: "more bytes with the expression than the limit",
        document: CHAIN,
        words: &[
            "elc",
            "query",
            "doc",
            "ObjectSomeValuesFrom(:loc :H)",
            "--max-bytes",
            "253",
        ],
        status: 5,
        text: "limit: more than 253 bytes\n",
    },
    Row {
        case: "more bytes of the document than the limit",
        document: CHAIN,
        words: &["elc", "query", "doc", "", "--max-bytes", "224"],
        status: 5,
        text: "limit: more than 224 bytes\n",
    },
    Row {
        case: "an unknown class",
        document: CHAIN,
        words: &["elc", "query", "doc", "ObjectSomeValuesFrom(:loc :Q)"],
        status: 3,
        text: "F8 at byte 26\n",
    },
    Row {
        case: "every unknown name",
        document: SUBCLASS,
        words: &["elc", "query", "doc", "ObjectSomeValuesFrom(:loc :Q)"],
        status: 3,
        text: "F8 at byte 21\nF8 at byte 26\n",
    },
    Row {
        case: "a refused expression",
        document: SUBCLASS,
        words: &["elc", "query", "doc", "ObjectUnionOf(:A :B)"],
        status: 3,
        text: "F1 at byte 0: ObjectUnionOf\n",
    },
    Row {
        case: "no expression",
        document: SUBCLASS,
        words: &["elc", "query", "doc", ""],
        status: 3,
        text: "P2 at byte 0\n",
    },
    Row {
        case: "no document",
        document: SUBCLASS,
        words: &["elc", "query", "other", "^"],
        status: 6,
        text: "cannot read other\n",
    },
    Row {
        case: "a refused document, whose fault is told before those of the expression",
        document: "Ontology(",
        words: &["elc", "query", "doc", "^"],
        status: 3,
        text: "P2 at byte 9\n",
    },
];

/// Whether the run ends so.
fn is_so<R: AllocGlobal + RandomSource>(rt: &R, row: &Row) -> Result<bool, Fail> {
    let run = alone(rt, row.words, row.document.as_bytes())?;
    let (out, err) = if row.status == 0 {
        (row.text, "")
    } else {
        ("", row.text)
    };
    Ok(is_run(&run, row.status, out, err))
}

/// Whether the line's run on the document ends with the status and prints that text.
fn says<R: AllocGlobal + RandomSource>(
    rt: &R,
    document: &str,
    line: &str,
    status: u8,
    text: &str,
) -> Result<bool, Fail> {
    let words: Vec<&str> = line.split(' ').collect(rt.alloc())?;
    let run = alone(rt, &words, document.as_bytes())?;
    Ok(is_run(&run, status, text, ""))
}

/// Whether the line's run on the document prints that text, which is given in short.
fn prints<R: AllocGlobal + RandomSource>(
    rt: &R,
    document: &str,
    line: &str,
    short: &str,
) -> Result<bool, Fail> {
    let text = text_of(rt.alloc(), short)?;
    says(rt, document, line, 0, text.as_str())
}

/// Whether the line's run on the document is refused with that status, and tells that.
fn tells<R: AllocGlobal + RandomSource>(
    rt: &R,
    document: &str,
    line: &str,
    status: u8,
    told: &str,
) -> Result<bool, Fail> {
    let words: Vec<&str> = line.split(' ').collect(rt.alloc())?;
    let run = alone(rt, &words, document.as_bytes())?;
    Ok(is_run(&run, status, "", told))
}

#[test]
fn individuals_of_a_class(rt: HostRuntime) -> Result<(), Fail> {
    for row in MEMBERS {
        assert!(rt; is_so(&rt, row)?, "{}", row.case);
    }
    Ok(())
}

#[test]
fn reasons(rt: HostRuntime) -> Result<(), Fail> {
    for row in REASONS {
        assert!(rt; is_so(&rt, row)?, "{}", row.case);
    }
    Ok(())
}

#[test]
fn queries(rt: HostRuntime) -> Result<(), Fail> {
    for row in QUERIES {
        assert!(rt; is_so(&rt, row)?, "{}", row.case);
    }
    Ok(())
}

const WITHOUT_EXPRESSION: &[&str] = &["elc", "query", "doc"];

const WITHOUT_CLASS: &[&str] = &["elc", "explain", "doc", "x:A"];

const UNKNOWN_FLAG: &[&str] = &["elc", "instances", "doc", "x:A", "--individual"];

#[test]
fn words_without_a_question(rt: HostRuntime) -> Result<(), Fail> {
    assert!(rt; status(&rt, WITHOUT_CLASS, SUBCLASS.as_bytes())? == 2);
    assert!(rt; status(&rt, WITHOUT_EXPRESSION, SUBCLASS.as_bytes())? == 2);
    assert!(rt; status(&rt, UNKNOWN_FLAG, SUBCLASS.as_bytes())? == 2);
    Ok(())
}

/// Whether the run on the document ends well, its text begins with `first`, and `last` stands in its last line.
fn runs_from_to<R: AllocGlobal + RandomSource>(
    rt: &R,
    words: &[&str],
    document: &str,
    first: &str,
    last: &str,
) -> Result<bool, Fail> {
    let run = alone(rt, words, document.as_bytes())?;
    let Ok(text) = str::from_utf8(&run.out) else {
        return Ok(false);
    };
    let is_last = text
        .trim_end()
        .rsplit_once('\n')
        .is_some_and(|(_, line)| line.contains(last));
    Ok(run.status == 0 && run.err.is_empty() && text.starts_with(first) && is_last)
}

const ITSELF: &[&str] = &["elc", "explain", "doc", "x:A", "x:A"];

#[test]
fn a_contradiction(rt: HostRuntime) -> Result<(), Fail> {
    let last =
        " sub <http://www.w3.org/2002/07/owl#Thing> <http://www.w3.org/2002/07/owl#Nothing> ";
    let is_shown = runs_from_to(&rt, ITSELF, CONTRADICTION, "contradictory\n", last)?;
    assert!(rt; is_shown);
    Ok(())
}

const DERIVATION: &[&str] = &["elc", "explain", "doc", "x:A", "x:B", "--dot"];

const REFUTATION: &[&str] = &["elc", "explain", "--dot", "doc", "x:B", "x:A"];

#[test]
fn graphs(rt: HostRuntime) -> Result<(), Fail> {
    assert!(rt; runs_from_to(&rt, DERIVATION, SUBCLASS, "digraph derivation {\n", "}")?);
    assert!(rt; runs_from_to(&rt, REFUTATION, REFLEXIVE, "digraph refutation {\n", "}")?);
    Ok(())
}
