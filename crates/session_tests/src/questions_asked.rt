//! Questions about documents worked out by hand, and the texts that answer them.

use device::SliceSource;
use session::{
    Asked, Limits, Question, QuestionFault, Related, Shown, Spelling, Version, question_text,
};
use std::alloc::Global;
use std::hash::RandomState;
use std::test::Fail;

const SUBCLASS: &str = "Prefix(:=<x:>) Ontology(SubClassOf(:A :B))";

const SAME_INDIVIDUALS: &str =
    "Prefix(:=<x:>) Ontology(SameIndividual(:a :b) ClassAssertion(:A :a) ClassAssertion(:B :b))";

const FOUR_INDIVIDUALS: &str =
    "Prefix(:=<x:>) Ontology(ObjectPropertyAssertion(:r :a :b) ObjectPropertyAssertion(:s :b :c) ClassAssertion(:A :d))";

const INDIVIDUALS: &str =
    "Prefix(:=<x:>) Ontology(SubClassOf(:A :B) ClassAssertion(:A :a) ObjectPropertyAssertion(:r :a :b) ObjectPropertyDomain(:r :C) Declaration(NamedIndividual(:c)))";

const EQUIVALENTS: &str =
    "Prefix(:=<x:>) Ontology(EquivalentClasses(:B :A) SubClassOf(:A :C) ClassAssertion(:B :a))";

const EMPTY_CLASS: &str =
    "Prefix(:=<x:>) Ontology(SubClassOf(:A :B) SubClassOf(:A :C) DisjointClasses(:B :C))";

const CONTRADICTORY: &str =
    "Prefix(:=<x:>) Ontology(DisjointClasses(:A :B) ClassAssertion(:A :a) ClassAssertion(:B :a))";

/// What is expected.
enum Wanted {
    Text(&'static str),
    UnknownName(&'static str),
    Limit,
    Refused,
}

/// Whether it is what is expected.
fn is_wanted(answer: &Result<Vec<u8>, QuestionFault<'_>>, wanted: &Wanted) -> bool {
    match (answer, wanted) {
        (Ok(text), Wanted::Text(wanted)) => text.as_slice() == wanted.as_bytes(),
        (Err(QuestionFault::UnknownName(name)), Wanted::UnknownName(wanted)) => name == wanted,
        (Err(QuestionFault::Limit), Wanted::Limit) => true,
        (Err(QuestionFault::Document(_)), Wanted::Refused) => true,
        _ => false,
    }
}

/// As lines, all of them.
const LINES: Shown = Shown {
    graph: false,
    reached: false,
    axioms: false,
};

/// As a graph, of all.
const GRAPH: Shown = Shown {
    graph: true,
    reached: false,
    axioms: false,
};

/// As lines, of what is reached.
const REACHED: Shown = Shown {
    graph: false,
    reached: true,
    axioms: false,
};

/// As a graph, of what is reached.
const REACHED_GRAPH: Shown = Shown {
    graph: true,
    reached: true,
    axioms: false,
};

/// A question, within so many facts, about a document of the version, and what is expected.
struct Row {
    case: &'static str,
    document: &'static str,
    question: Question<'static>,
    facts: u64,
    version: Version,
    wanted: Wanted,
}

const MEMBERS: &[Row] = &[
    Row {
        case: "one individual",
        document: INDIVIDUALS,
        question: Question::Names(Related::Instances, "x:B"),
        facts: 17,
        version: Version::Two,
        wanted: Wanted::Text("<x:a>\n"),
    },
    Row {
        case: "all individuals in byte order",
        document: INDIVIDUALS,
        question: Question::Names(Related::Instances, "http://www.w3.org/2002/07/owl#Thing"),
        facts: 17,
        version: Version::Two,
        wanted: Wanted::Text("<x:a>\n<x:b>\n<x:c>\n"),
    },
    Row {
        case: "none",
        document: SUBCLASS,
        question: Question::Names(Related::Instances, "x:B"),
        facts: 17,
        version: Version::Two,
        wanted: Wanted::Text(""),
    },
    Row {
        case: "an individual is no class",
        document: INDIVIDUALS,
        question: Question::Names(Related::Instances, "x:a"),
        facts: 17,
        version: Version::Two,
        wanted: Wanted::UnknownName("x:a"),
    },
    Row {
        case: "more facts than the limit",
        document: INDIVIDUALS,
        question: Question::Names(Related::Instances, "x:B"),
        facts: 16,
        version: Version::Two,
        wanted: Wanted::Limit,
    },
    Row {
        case: "the limit is told before a name",
        document: INDIVIDUALS,
        question: Question::Names(Related::Instances, "x:Z"),
        facts: 16,
        version: Version::Two,
        wanted: Wanted::Limit,
    },
    Row {
        case: "a name, where the limit is not passed",
        document: INDIVIDUALS,
        question: Question::Names(Related::Instances, "x:Z"),
        facts: 17,
        version: Version::Two,
        wanted: Wanted::UnknownName("x:Z"),
    },
    Row {
        case: "two individuals that are one",
        document: SAME_INDIVIDUALS,
        question: Question::Names(Related::Instances, "x:B"),
        facts: 13,
        version: Version::Two,
        wanted: Wanted::Text("<x:a>\n<x:b>\n"),
    },
    Row {
        case: "a document of the second version in the first",
        document: SAME_INDIVIDUALS,
        question: Question::Names(Related::Instances, "x:B"),
        facts: 13,
        version: Version::One,
        wanted: Wanted::Refused,
    },
    Row {
        case: "no document",
        document: "Ontology(",
        question: Question::Names(Related::Instances, "x:B"),
        facts: 17,
        version: Version::Two,
        wanted: Wanted::Refused,
    },
];

const WHYS: &[Row] = &[
    Row {
        case: "it follows",
        document: SUBCLASS,
        question: Question::Why(Asked::Class("x:A"), "x:B", LINES),
        facts: 100,
        version: Version::Two,
        wanted: Wanted::Text(
            "yes\n1. sub <x:A> <x:A> by K1\n2. sub <x:A> <x:B> by K4 axiom 1 from 1\n",
        ),
    },
    Row {
        case: "it does not follow",
        document: SUBCLASS,
        question: Question::Why(Asked::Class("x:B"), "x:A", LINES),
        facts: 100,
        version: Version::Two,
        wanted: Wanted::Text("no\ndomain 1\nclass <x:B> 0\nelement 0\n"),
    },
    Row {
        case: "it does not follow, as a graph",
        document: SUBCLASS,
        question: Question::Why(Asked::Class("x:B"), "x:A", GRAPH),
        facts: 100,
        version: Version::Two,
        wanted: Wanted::Text(
            "digraph refutation {\n  node [shape=ellipse];\n  0 [label=\"0\\n<x:B>\", peripheries=2];\n}\n",
        ),
    },
    Row {
        case: "it does not follow, and all is reached",
        document: SUBCLASS,
        question: Question::Why(Asked::Class("x:B"), "x:A", REACHED),
        facts: 100,
        version: Version::Two,
        wanted: Wanted::Text("no\ndomain 1\nclass <x:B> 0\nelement 0\nothers 0\n"),
    },
    Row {
        case: "it does not follow, by one of four",
        document: FOUR_INDIVIDUALS,
        question: Question::Why(Asked::Individual("x:c"), "x:A", REACHED),
        facts: 100,
        version: Version::Two,
        wanted: Wanted::Text("no\ndomain 4\nindividual <x:c> 2\nelement 2\nothers 3\n"),
    },
    Row {
        case: "the same as a graph",
        document: FOUR_INDIVIDUALS,
        question: Question::Why(Asked::Individual("x:c"), "x:A", REACHED_GRAPH),
        facts: 100,
        version: Version::Two,
        wanted: Wanted::Text(
            "digraph refutation {\n  node [shape=ellipse];\n  label=\"others 3\";\n  2 [label=\"2\\nindividual <x:c>\", peripheries=2];\n}\n",
        ),
    },
    Row {
        case: "it follows, and all lines are told",
        document: FOUR_INDIVIDUALS,
        question: Question::Why(Asked::Individual("x:d"), "x:A", REACHED),
        facts: 100,
        version: Version::Two,
        wanted: Wanted::Text("yes\n1. sub individual <x:d> <x:A> by K15 axiom 3\n"),
    },
    Row {
        case: "an individual and a class of one name",
        document: "Prefix(:=<x:>) Ontology(ClassAssertion(:A :A) SubClassOf(:B :C))",
        question: Question::Why(Asked::Individual("x:A"), "x:A", LINES),
        facts: 100,
        version: Version::Two,
        wanted: Wanted::Text("yes\n1. sub individual <x:A> <x:A> by K15 axiom 1\n"),
    },
    Row {
        case: "an individual is in the class of what it is",
        document: SAME_INDIVIDUALS,
        question: Question::Why(Asked::Individual("x:b"), "x:A", LINES),
        facts: 13,
        version: Version::Two,
        wanted: Wanted::Text(
            "yes\n1. sub individual <x:a> <x:A> by K15 axiom 2\n2. same individual <x:b> individual <x:a> by K17 axiom 1\n3. sub individual <x:b> <x:A> by K19 from 2, 1\n",
        ),
    },
    Row {
        case: "a document of the second version in the first",
        document: SAME_INDIVIDUALS,
        question: Question::Why(Asked::Individual("x:b"), "x:A", LINES),
        facts: 13,
        version: Version::One,
        wanted: Wanted::Refused,
    },
    Row {
        case: "the subject is told before the class",
        document: SUBCLASS,
        question: Question::Why(Asked::Individual("x:A"), "x:Z", GRAPH),
        facts: 100,
        version: Version::Two,
        wanted: Wanted::UnknownName("x:A"),
    },
    Row {
        case: "the class is unknown",
        document: SUBCLASS,
        question: Question::Why(Asked::Class("x:A"), "x:Z", LINES),
        facts: 100,
        version: Version::Two,
        wanted: Wanted::UnknownName("x:Z"),
    },
    Row {
        case: "more facts than the limit",
        document: SUBCLASS,
        question: Question::Why(Asked::Class("x:A"), "x:B", LINES),
        facts: 7,
        version: Version::Two,
        wanted: Wanted::Limit,
    },
    Row {
        case: "the limit is told before a name",
        document: SUBCLASS,
        question: Question::Why(Asked::Individual("x:A"), "x:Z", GRAPH),
        facts: 7,
        version: Version::Two,
        wanted: Wanted::Limit,
    },
    Row {
        case: "a name, where the limit is not passed",
        document: SUBCLASS,
        question: Question::Why(Asked::Individual("x:A"), "x:Z", GRAPH),
        facts: 8,
        version: Version::Two,
        wanted: Wanted::UnknownName("x:A"),
    },
];

const CLASSES: &[Row] = &[
    Row {
        case: "a class without elements, and not owl:Nothing",
        document: EMPTY_CLASS,
        question: Question::Unsatisfiable,
        facts: 100,
        version: Version::Two,
        wanted: Wanted::Text("<x:A>\n"),
    },
    Row {
        case: "no class without elements",
        document: SUBCLASS,
        question: Question::Unsatisfiable,
        facts: 100,
        version: Version::Two,
        wanted: Wanted::Text(""),
    },
    Row {
        case: "all classes without elements",
        document: CONTRADICTORY,
        question: Question::Unsatisfiable,
        facts: 100,
        version: Version::Two,
        wanted: Wanted::Text("<http://www.w3.org/2002/07/owl#Thing>\n<x:A>\n<x:B>\n"),
    },
    Row {
        case: "classes of an individual",
        document: INDIVIDUALS,
        question: Question::Types("x:a"),
        facts: 100,
        version: Version::Two,
        wanted: Wanted::Text("<http://www.w3.org/2002/07/owl#Thing>\n<x:A>\n<x:B>\n<x:C>\n"),
    },
    Row {
        case: "owl:Thing alone",
        document: INDIVIDUALS,
        question: Question::Types("x:c"),
        facts: 100,
        version: Version::Two,
        wanted: Wanted::Text("<http://www.w3.org/2002/07/owl#Thing>\n"),
    },
    Row {
        case: "classes of what it is",
        document: SAME_INDIVIDUALS,
        question: Question::Types("x:b"),
        facts: 100,
        version: Version::Two,
        wanted: Wanted::Text("<http://www.w3.org/2002/07/owl#Thing>\n<x:A>\n<x:B>\n"),
    },
    Row {
        case: "all classes",
        document: CONTRADICTORY,
        question: Question::Types("x:a"),
        facts: 100,
        version: Version::Two,
        wanted: Wanted::Text(
            "<http://www.w3.org/2002/07/owl#Nothing>\n<http://www.w3.org/2002/07/owl#Thing>\n<x:A>\n<x:B>\n",
        ),
    },
    Row {
        case: "a class is no individual",
        document: INDIVIDUALS,
        question: Question::Types("x:A"),
        facts: 100,
        version: Version::Two,
        wanted: Wanted::UnknownName("x:A"),
    },
    Row {
        case: "direct types",
        document: INDIVIDUALS,
        question: Question::DirectTypes("x:a"),
        facts: 100,
        version: Version::Two,
        wanted: Wanted::Text("<x:A>\n<x:C>\n"),
    },
    Row {
        case: "owl:Thing alone is direct",
        document: INDIVIDUALS,
        question: Question::DirectTypes("x:c"),
        facts: 100,
        version: Version::Two,
        wanted: Wanted::Text("<http://www.w3.org/2002/07/owl#Thing>\n"),
    },
    Row {
        case: "a direct type of two names",
        document: EQUIVALENTS,
        question: Question::DirectTypes("x:a"),
        facts: 100,
        version: Version::Two,
        wanted: Wanted::Text("<x:A> = <x:B>\n"),
    },
    Row {
        case: "all classes are one group",
        document: CONTRADICTORY,
        question: Question::DirectTypes("x:a"),
        facts: 100,
        version: Version::Two,
        wanted: Wanted::Text(
            "<http://www.w3.org/2002/07/owl#Nothing> = <http://www.w3.org/2002/07/owl#Thing> = <x:A> = <x:B>\n",
        ),
    },
    Row {
        case: "no individual has direct types",
        document: SUBCLASS,
        question: Question::DirectTypes("x:A"),
        facts: 100,
        version: Version::Two,
        wanted: Wanted::UnknownName("x:A"),
    },
];

/// Whether the question is answered as is expected.
fn answers(alloc: Global, state: RandomState, limits: &Limits, row: &Row) -> bool {
    let mut source = SliceSource::new(row.document.as_bytes());
    let answer = question_text(
        alloc,
        &mut source,
        row.question,
        Spelling::Full,
        limits,
        state,
    );
    is_wanted(&answer, &row.wanted)
}

#[test]
fn individuals_of_a_class(rt: HostRuntime) -> Result<(), Fail> {
    let state = RandomState::new(&rt)?;
    for row in MEMBERS {
        let limits = Limits::new(1000, row.facts, row.version).ok_or("limits")?;
        assert!(rt; answers(rt.alloc(), state, &limits, row), "{}", row.case);
    }
    Ok(())
}

#[test]
fn classes_of_individuals_and_those_without_elements(rt: HostRuntime) -> Result<(), Fail> {
    let state = RandomState::new(&rt)?;
    for row in CLASSES {
        let limits = Limits::new(1000, row.facts, row.version).ok_or("limits")?;
        assert!(rt; answers(rt.alloc(), state, &limits, row), "{}", row.case);
    }
    Ok(())
}

#[test]
fn reasons(rt: HostRuntime) -> Result<(), Fail> {
    let state = RandomState::new(&rt)?;
    for row in WHYS {
        let limits = Limits::new(1000, row.facts, row.version).ok_or("limits")?;
        assert!(rt; answers(rt.alloc(), state, &limits, row), "{}", row.case);
    }
    Ok(())
}
