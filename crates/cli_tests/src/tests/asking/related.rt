//! Runs that ask for the names that are related to a class.

use super::*;

/// B and D are the same, above A, of which a is one, and below C: there are 23 facts.
const ORDERED: &str =
    "Prefix(:=<x:>) Ontology(SubClassOf(:A :B) SubClassOf(:B :C) EquivalentClasses(:B :D) ClassAssertion(:A :a))";

/// What runs on the document print, in short.
const ANSWERS: &[(&str, &str)] = &[
    ("elc supers doc x:A", "T/<x:A>/<x:B>/<x:C>/<x:D>/"),
    ("elc supers doc x:B", "T/<x:B>/<x:C>/<x:D>/"),
    ("elc supers doc x:C", "T/<x:C>/"),
    ("elc supers doc http://www.w3.org/2002/07/owl#Thing", "T/"),
    (
        "elc supers doc http://www.w3.org/2002/07/owl#Nothing",
        "N/T/<x:A>/<x:B>/<x:C>/<x:D>/",
    ),
    ("elc subs doc x:C", "N/<x:A>/<x:B>/<x:C>/<x:D>/"),
    ("elc subs doc x:D", "N/<x:A>/<x:B>/<x:D>/"),
    ("elc subs doc x:A", "N/<x:A>/"),
    (
        "elc subs doc http://www.w3.org/2002/07/owl#Thing",
        "N/T/<x:A>/<x:B>/<x:C>/<x:D>/",
    ),
    ("elc subs doc http://www.w3.org/2002/07/owl#Nothing", "N/"),
    ("elc equivalents doc x:B", "<x:B>/<x:D>/"),
    ("elc equivalents doc x:D", "<x:B>/<x:D>/"),
    ("elc equivalents doc x:C", "<x:C>/"),
    ("elc parents doc x:A", "<x:B> = <x:D>/"),
    ("elc parents doc x:D", "<x:C>/"),
    ("elc parents doc x:C", "T/"),
    ("elc parents doc http://www.w3.org/2002/07/owl#Thing", ""),
    (
        "elc parents doc http://www.w3.org/2002/07/owl#Nothing",
        "<x:A>/",
    ),
    ("elc children doc x:C", "<x:B> = <x:D>/"),
    ("elc children doc x:D", "<x:A>/"),
    ("elc children doc x:A", "N/"),
    (
        "elc children doc http://www.w3.org/2002/07/owl#Thing",
        "<x:C>/",
    ),
    ("elc children doc http://www.w3.org/2002/07/owl#Nothing", ""),
    ("elc instances doc x:D", "<x:a>/"),
    (
        "elc supers doc x:C --max-facts 23 --max-bytes 107",
        "T/<x:C>/",
    ),
    ("elc parents --profile 1 doc x:A", "<x:B> = <x:D>/"),
];

/// A has no element, and B may have some.
const EMPTY: &str =
    "Prefix(:=<x:>) Ontology(SubClassOf(:A owl:Nothing) Declaration(Class(:B)) Declaration(NamedIndividual(:a)))";

const ANSWERS_OF_EMPTY: &[(&str, &str)] = &[
    ("elc supers doc x:A", "N/T/<x:A>/<x:B>/"),
    ("elc subs doc x:A", "N/<x:A>/"),
    ("elc subs doc x:B", "N/<x:A>/<x:B>/"),
    ("elc equivalents doc x:A", "N/<x:A>/"),
    ("elc parents doc x:A", "<x:B>/"),
    ("elc parents doc x:B", "T/"),
    ("elc children doc x:B", "N = <x:A>/"),
    ("elc children doc x:A", ""),
    ("elc instances doc x:A", ""),
];

/// The axioms contradict each other: every class lies below every other, and has every individual.
const CONTRADICTED: &str =
    "Prefix(:=<x:>) Ontology(Declaration(Class(:B)) SubClassOf(:A owl:Nothing) ClassAssertion(:A :a))";

const ANSWERS_OF_CONTRADICTED: &[(&str, &str)] = &[
    ("elc supers doc x:A", "N/T/<x:A>/<x:B>/"),
    ("elc subs doc x:B", "N/T/<x:A>/<x:B>/"),
    ("elc equivalents doc x:B", "N/T/<x:A>/<x:B>/"),
    ("elc parents doc x:B", ""),
    ("elc children doc x:B", ""),
    ("elc instances doc x:B", "<x:a>/"),
];

#[test]
fn names_in_order(rt: HostRuntime) -> Result<(), Fail> {
    for row in ANSWERS {
        let (line, short) = *row;
        assert!(rt; prints(&rt, ORDERED, line, short)?, "{line}");
    }
    Ok(())
}

#[test]
fn a_class_without_elements(rt: HostRuntime) -> Result<(), Fail> {
    for row in ANSWERS_OF_EMPTY {
        let (line, short) = *row;
        assert!(rt; prints(&rt, EMPTY, line, short)?, "{line}");
    }
    Ok(())
}

#[test]
fn all_names_where_axioms_contradict_each_other(rt: HostRuntime) -> Result<(), Fail> {
    for row in ANSWERS_OF_CONTRADICTED {
        let (line, short) = *row;
        assert!(rt; prints(&rt, CONTRADICTED, line, short)?, "{line}");
    }
    Ok(())
}

/// The commands that ask about a class.
const COMMANDS: &[&str] = &[
    "supers",
    "subs",
    "equivalents",
    "parents",
    "children",
    "instances",
];

/// A run on a document: what stands behind each command, its status, and what is told.
struct Refusal {
    case: &'static str,
    document: &'static str,
    words: &'static str,
    status: u8,
    told: &'static str,
}

const REFUSALS: &[Refusal] = &[
    Refusal {
        case: "an unknown class",
        document: ORDERED,
        words: "doc x:Q",
        status: 2,
        told: "unknown name <x:Q>\n",
    },
    Refusal {
        case: "an individual is no class",
        document: ORDERED,
        words: "doc x:a",
        status: 2,
        told: "unknown name <x:a>\n",
    },
    Refusal {
        case: "an unknown class where axioms contradict each other",
        document: CONTRADICTED,
        words: "doc x:Q",
        status: 2,
        told: "unknown name <x:Q>\n",
    },
    Refusal {
        case: "more facts than the limit, which is told before an unknown name",
        document: ORDERED,
        words: "doc x:Q --max-facts 22",
        status: 5,
        told: "limit: more than 22 facts\n",
    },
    Refusal {
        case: "more bytes than the limit",
        document: ORDERED,
        words: "doc x:A --max-bytes 106",
        status: 5,
        told: "limit: more than 106 bytes\n",
    },
    Refusal {
        case: "no document",
        document: ORDERED,
        words: "other x:A",
        status: 6,
        told: "cannot read other\n",
    },
    Refusal {
        case: "a refused document",
        document: "Ontology(SubClassOf(<x:A>))",
        words: "doc x:A",
        status: 3,
        told: "F3 at byte 9\n",
    },
    Refusal {
        case: "what the first version refuses",
        document: SAME,
        words: "doc x:A --profile 1",
        status: 3,
        told: "F1 at byte 24: SameIndividual\n",
    },
];

/// Whether a run of the command is refused so.
fn is_refused<R: AllocGlobal + RandomSource>(
    rt: &R,
    command: &str,
    row: &Refusal,
) -> Result<bool, Fail> {
    let mut words: Vec<&str> = Vec::new(rt.alloc());
    words.push("elc")?;
    words.push(command)?;
    for word in row.words.split(' ') {
        words.push(word)?;
    }
    let run = alone(rt, &words, row.document.as_bytes())?;
    Ok(is_run(&run, row.status, "", row.told))
}

/// Whether a run of each command is refused so.
fn each_is_refused<R: AllocGlobal + RandomSource>(rt: &R, row: &Refusal) -> Result<bool, Fail> {
    for command in COMMANDS {
        if !is_refused(rt, *command, row)? {
            return Ok(false);
        }
    }
    Ok(true)
}

#[test]
fn refused_questions_about_a_class(rt: HostRuntime) -> Result<(), Fail> {
    for row in REFUSALS {
        assert!(rt; each_is_refused(&rt, row)?, "{}", row.case);
    }
    Ok(())
}

/// Words that are no command: the class lacks, or there is one word, or one option, too many.
const NO_COMMANDS: &[&str] = &[
    "elc supers doc",
    "elc parents doc x:A x:B",
    "elc children doc x:A --dot",
    "elc equivalent doc x:A",
];

#[test]
fn words_that_ask_for_no_names(rt: HostRuntime) -> Result<(), Fail> {
    for row in NO_COMMANDS {
        let line = *row;
        let words: Vec<&str> = line.split(' ').collect(rt.alloc())?;
        assert!(rt; status(&rt, &words, ORDERED.as_bytes())? == 2, "{line}");
    }
    Ok(())
}
