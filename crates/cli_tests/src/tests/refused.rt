//! Classifications of documents to which memory is refused once: nothing is written, or all that is written else.
//!
//! The test holds whichever one allocation of it is refused; where none is, it holds, too.

use cli::{ClassifyFault, DocumentFault, Format, Limits, Summary, Version, classify_document};
use device::{BufferSink, SliceSource, WriterSink};
use std::alloc::Global;
use std::hash::RandomState;
use std::test::Fail;

/// A document, its texts but for the certificate, and its counts.
struct Row {
    case: &'static str,
    document: &'static str,
    taxonomy: &'static str,
    instances: &'static str,
    counts: Summary,
}

const ROWS: &[Row] = &[
    Row {
        case: "contradiction_by_individual",
        document: "Prefix(:=<x:>) Ontology(DisjointClasses(:A :B) ClassAssertion(:A :a) ClassAssertion(:B :a))",
        taxonomy: "eltax 1 inconsistent\n",
        instances: "elinst 1 inconsistent\n",
        counts: Summary {
            consistent: false,
            classes: 4,
            individuals: 1,
            facts: 11,
        },
    },
    Row {
        case: "chain_into_a_definition",
        document: "Prefix(:=<x:>) Ontology(SubClassOf(:E ObjectSomeValuesFrom(:loc :W)) SubClassOf(:W ObjectSomeValuesFrom(:part :H)) SubObjectPropertyOf(ObjectPropertyChain(:loc :part) :loc) EquivalentClasses(:D ObjectSomeValuesFrom(:loc :H)))",
        taxonomy: "eltax 1 consistent\n<http://www.w3.org/2002/07/owl#Thing>\n<x:D> < <http://www.w3.org/2002/07/owl#Thing>\n<x:E> < <x:D>\n<x:H> < <http://www.w3.org/2002/07/owl#Thing>\n<x:W> < <http://www.w3.org/2002/07/owl#Thing>\nbottom <http://www.w3.org/2002/07/owl#Nothing>\n",
        instances: "elinst 1 consistent\n",
        counts: Summary {
            consistent: true,
            classes: 6,
            individuals: 0,
            facts: 20,
        },
    },
    Row {
        case: "individuals_and_domain",
        document: "Prefix(:=<x:>) Ontology(SubClassOf(:A :B) ClassAssertion(:A :a) ObjectPropertyAssertion(:r :a :b) ObjectPropertyDomain(:r :C) Declaration(NamedIndividual(:c)))",
        taxonomy: "eltax 1 consistent\n<http://www.w3.org/2002/07/owl#Thing>\n<x:A> < <x:B>\n<x:B> < <http://www.w3.org/2002/07/owl#Thing>\n<x:C> < <http://www.w3.org/2002/07/owl#Thing>\nbottom <http://www.w3.org/2002/07/owl#Nothing>\n",
        instances: "elinst 1 consistent\n<x:a> : <x:A> , <x:C>\n<x:b> : <http://www.w3.org/2002/07/owl#Thing>\n<x:c> : <http://www.w3.org/2002/07/owl#Thing>\n",
        counts: Summary {
            consistent: true,
            classes: 5,
            individuals: 3,
            facts: 17,
        },
    },
    Row {
        case: "same_individuals",
        document: "Prefix(:=<x:>) Ontology(SameIndividual(:a :b) ClassAssertion(:A :a) ClassAssertion(:B :b))",
        taxonomy: "eltax 1 consistent\n<http://www.w3.org/2002/07/owl#Thing>\n<x:A> < <http://www.w3.org/2002/07/owl#Thing>\n<x:B> < <http://www.w3.org/2002/07/owl#Thing>\nbottom <http://www.w3.org/2002/07/owl#Nothing>\n",
        instances: "elinst 1 consistent\n<x:a> : <x:A> , <x:B>\n<x:b> : <x:A> , <x:B>\n",
        counts: Summary {
            consistent: true,
            classes: 4,
            individuals: 2,
            facts: 13,
        },
    },
];

const LIMITS: Limits = Limits {
    max_bytes: 1000,
    max_facts: 1000,
    version: Version::Two,
};

/// Room for each of the three texts, which takes no memory that could be refused. What no text took is 0.
#[derive(Drop)]
struct Room {
    taxonomy: [u8; 1024],
    instances: [u8; 1024],
    certificate: [u8; 4096],
}

fn empty_room() -> Room {
    Room {
        taxonomy: [0; 1024],
        instances: [0; 1024],
        certificate: [0; 4096],
    }
}

/// Writes the texts of the document there.
fn classify(
    alloc: Global,
    state: RandomState,
    document: &str,
    room: &mut Room,
) -> Result<Summary, ClassifyFault> {
    let mut source = SliceSource::new(document.as_bytes());
    let mut taxonomy = WriterSink::new(room.taxonomy.as_mut_slice());
    let mut instances = WriterSink::new(room.instances.as_mut_slice());
    let mut certificate = WriterSink::new(room.certificate.as_mut_slice());
    classify_document(
        alloc,
        &mut source,
        &mut taxonomy,
        &mut instances,
        &mut certificate,
        &LIMITS,
        Format::Two,
        false,
        &mut BufferSink::new(alloc),
        state,
    )
}

/// Whether the text was written, and nothing behind it.
fn has(room: &[u8], text: &str) -> bool {
    match room.strip_prefix(text.as_bytes()) {
        Some(rest) => rest.iter().all(|byte| *byte == 0),
        None => false,
    }
}

/// Whether nothing was written.
fn is_empty(room: &Room) -> bool {
    has(&room.taxonomy, "") && has(&room.instances, "") && has(&room.certificate, "")
}

/// Whether the texts of the row were written, with some certificate.
fn has_texts(room: &Room, row: &Row) -> bool {
    has(&room.taxonomy, row.taxonomy)
        && has(&room.instances, row.instances)
        && room.certificate.starts_with(b"elcert 2 ".as_slice())
}

/// Whether the texts of the row are written there; or nothing, with no more said than that, where memory was refused.
fn writes(alloc: Global, state: RandomState, row: &Row, room: &mut Room) -> Option<bool> {
    match classify(alloc, state, row.document, room) {
        Ok(counts) => Some(counts == row.counts && has_texts(room, row)),
        Err(ClassifyFault::Document(DocumentFault::Memory)) | Err(ClassifyFault::Memory) => {
            if is_empty(room) { None } else { Some(false) }
        }
        Err(_) => Some(false),
    }
}

/// Whether of two runs over the document the one writes its texts and the other, too, or nothing: and where both write, they write one
/// certificate.
fn is_right(alloc: Global, state: RandomState, row: &Row) -> bool {
    let mut first = empty_room();
    let mut second = empty_room();
    match (
        writes(alloc, state, row, &mut first),
        writes(alloc, state, row, &mut second),
    ) {
        (Some(left), Some(right)) => {
            left && right && first.certificate.as_slice() == second.certificate.as_slice()
        }
        (Some(right), None) | (None, Some(right)) => right,
        (None, None) => false,
    }
}

#[test]
fn memory_is_refused_once(rt: HostRuntime) -> Result<(), Fail> {
    let state = RandomState::new(&rt)?;
    for row in ROWS {
        assert!(rt; is_right(rt.alloc(), state, row), "{}", row.case);
    }
    Ok(())
}
