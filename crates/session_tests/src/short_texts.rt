//! Answers about documents worked out by hand, with names by the prefixes of the document, and with the axioms behind a derivation.

use device::SliceSource;
use session::{
    Asked, Limits, Question, Related, Shown, Spelling, Version, query_text, question_text,
};
use std::alloc::Global;
use std::hash::RandomState;
use std::test::Fail;

const SUBCLASS: &str = "Prefix(:=<x:>) Ontology(SubClassOf(:A :B))";

const TWO_STEPS: &str = "Prefix(:=<x:>) Ontology(SubClassOf(:B :C) SubClassOf(:A :B))";

/// A prefix whose IRI begins with that of another, and one with the same IRI.
const NESTED: &str =
    "Prefix(x:=<x:>) Prefix(xa:=<x:a>) Prefix(also:=<x:a>) Ontology(SubClassOf(x:ab x:b))";

/// Names that no prefix gives a local name: a slash, a dot at the end, and nothing.
const IN_FULL: &str =
    "Prefix(x:=<x:>) Prefix(none:=<x:n>) Ontology(SubClassOf(<x:a/b> <x:a.>) SubClassOf(<x:a.> <x:n>))";

/// An ampersand in the IRI of a prefix, and in a name that no prefix gives a local name.
const AMPERSANDS: &str = "Prefix(p:=<x:?a&b=>) Ontology(SubClassOf(p:A <x:?a&b=.>))";

/// A prefix whose IRI has what an ampersand is in a graph.
const ESCAPED: &str = "Prefix(p:=<x:&amp;>) Ontology(SubClassOf(<x:&A> <x:&amp;B>))";

const NOTHING: &str =
    "Prefix(:=<x:>) Ontology(DisjointClasses(:A :B) ClassAssertion(:A :a) ClassAssertion(:B :a))";

/// A text that is asked for.
struct Row {
    case: &'static str,
    document: &'static str,
    question: Question<'static>,
    spelling: Spelling,
    wanted: &'static str,
}

const LINES: Shown = Shown {
    graph: false,
    reached: false,
    axioms: false,
};

const AXIOMS: Shown = Shown {
    graph: false,
    reached: false,
    axioms: true,
};

const GRAPH: Shown = Shown {
    graph: true,
    reached: false,
    axioms: true,
};

const ROWS: &[Row] = &[
    Row {
        case: "standard prefixes, and one of the document",
        document: SUBCLASS,
        question: Question::Names(Related::Superclasses, "x:A"),
        spelling: Spelling::Short,
        wanted: "owl:Thing\n:A\n:B\n",
    },
    Row {
        case: "in full",
        document: SUBCLASS,
        question: Question::Names(Related::Superclasses, "x:A"),
        spelling: Spelling::Full,
        wanted: "<http://www.w3.org/2002/07/owl#Thing>\n<x:A>\n<x:B>\n",
    },
    Row {
        case: "the longest prefix, and of two the first",
        document: NESTED,
        question: Question::Names(Related::Superclasses, "x:ab"),
        spelling: Spelling::Short,
        wanted: "owl:Thing\nxa:b\nx:b\n",
    },
    Row {
        case: "names that are not read back",
        document: IN_FULL,
        question: Question::Names(Related::Superclasses, "x:a/b"),
        spelling: Spelling::Short,
        wanted: "owl:Thing\n<x:a.>\n<x:a/b>\nx:n\n",
    },
    Row {
        case: "a derivation",
        document: SUBCLASS,
        question: Question::Why(Asked::Class("x:A"), "x:B", LINES),
        spelling: Spelling::Short,
        wanted: "yes\n1. sub :A :A by K1\n2. sub :A :B by K4 axiom 1 from 1\n",
    },
    Row {
        case: "axioms by ascending numbers",
        document: TWO_STEPS,
        question: Question::Why(Asked::Class("x:A"), "x:C", AXIOMS),
        spelling: Spelling::Full,
        wanted: "yes\n1. sub <x:A> <x:A> by K1\n2. sub <x:A> <x:B> by K4 axiom 2 from 1\n3. sub <x:A> <x:C> by K4 axiom 1 from 2\naxiom 1 SubClassOf(<x:B> <x:C>)\naxiom 2 SubClassOf(<x:A> <x:B>)\n",
    },
    Row {
        case: "those that are cited alone, in short",
        document: TWO_STEPS,
        question: Question::Why(Asked::Class("x:A"), "x:B", AXIOMS),
        spelling: Spelling::Short,
        wanted: "yes\n1. sub :A :A by K1\n2. sub :A :B by K4 axiom 2 from 1\naxiom 2 SubClassOf(:A :B)\n",
    },
    Row {
        case: "a refutation has no axioms",
        document: SUBCLASS,
        question: Question::Why(Asked::Class("x:B"), "x:A", AXIOMS),
        spelling: Spelling::Short,
        wanted: "no\ndomain 1\nclass :B 0\nelement 0\n",
    },
    Row {
        case: "a contradiction",
        document: NOTHING,
        question: Question::Why(Asked::Individual("x:a"), "x:B", AXIOMS),
        spelling: Spelling::Short,
        wanted: "contradictory\n1. sub individual :a :A by K15 axiom 2\n2. sub individual :a :B by K15 axiom 3\n3. sub individual :a owl:Nothing by K7 axiom 1 from 1, 2\naxiom 1 DisjointClasses(:A :B)\naxiom 2 ClassAssertion(:A :a)\naxiom 3 ClassAssertion(:B :a)\n",
    },
    Row {
        case: "a graph has no axioms, and ampersands as they are in graphs",
        document: AMPERSANDS,
        question: Question::Why(Asked::Class("x:?a&b=A"), "x:?a&b=.", GRAPH),
        spelling: Spelling::Short,
        wanted: "digraph derivation {\n  node [shape=box];\n  1 [label=\"1. sub p:A p:A by K1\"];\n  2 [label=\"2. sub p:A <x:?a&amp;b=.> by K4 axiom 1 from 1\"];\n  1 -> 2;\n}\n",
    },
    Row {
        case: "an escaped ampersand is that of no prefix",
        document: ESCAPED,
        question: Question::Why(Asked::Class("x:&A"), "x:&amp;B", GRAPH),
        spelling: Spelling::Short,
        wanted: "digraph derivation {\n  node [shape=box];\n  1 [label=\"1. sub <x:&amp;A> <x:&amp;A> by K1\"];\n  2 [label=\"2. sub <x:&amp;A> p:B by K4 axiom 1 from 1\"];\n  1 -> 2;\n}\n",
    },
    Row {
        case: "the graph of a refutation",
        document: SUBCLASS,
        question: Question::Why(Asked::Class("x:B"), "x:A", GRAPH),
        spelling: Spelling::Short,
        wanted: "digraph refutation {\n  node [shape=ellipse];\n  0 [label=\"0\\n:B\", peripheries=2];\n}\n",
    },
];

/// Whether the question is answered so.
fn answers(alloc: Global, state: RandomState, limits: &Limits, row: &Row) -> bool {
    let mut source = SliceSource::new(row.document.as_bytes());
    let answer = question_text(
        alloc,
        &mut source,
        row.question,
        row.spelling,
        limits,
        state,
    );
    match answer {
        Ok(text) => text.as_slice() == row.wanted.as_bytes(),
        Err(_) => false,
    }
}

#[test]
fn short_answers(rt: HostRuntime) -> Result<(), Fail> {
    let state = RandomState::new(&rt)?;
    let limits = Limits::new(1000, 100, Version::Two).ok_or("limits")?;
    for row in ROWS {
        assert!(rt; answers(rt.alloc(), state, &limits, row), "{}", row.case);
    }
    Ok(())
}

#[test]
fn short_answers_to_a_query(rt: HostRuntime) -> Result<(), Fail> {
    let state = RandomState::new(&rt)?;
    let limits = Limits::new(1000, 100, Version::Two).ok_or("limits")?;
    let document = "Prefix(:=<x:>) Ontology(SubClassOf(:A :B) ClassAssertion(:A :a))";
    let mut source = SliceSource::new(document.as_bytes());
    let answer = query_text(
        rt.alloc(),
        &mut source,
        ":A",
        Spelling::Short,
        &limits,
        state,
    );
    let holds = match answer {
        Ok(text) => {
            text.as_slice()
                == "super owl:Thing\nsuper :A\nsuper :B\nsub owl:Nothing\nsub :A\ninstance :a\n".as_bytes()
        }
        Err(_) => false,
    };
    assert!(rt; holds);
    Ok(())
}
