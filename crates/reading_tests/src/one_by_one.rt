//! Documents whose trees are taken one by one.

use crate::tables::{Shown, counts, random, told};
use fs_parser::{Stopped, TreeReader};
use profile::{OntologyReader, Version};
use std::alloc::{AllocError, Global};
use std::hash::RandomState;
use std::test::Fail;

/// Takes at most so many trees. Whether they were all.
fn take_all(
    trees: &mut TreeReader<'_>,
    reader: &mut OntologyReader,
    most: usize,
) -> Result<bool, AllocError> {
    for _ in 0..most {
        match trees.next() {
            Ok(Some(tree)) => {
                let taken = reader.take(&tree);
                drop(tree);
                taken.map_err(|_| AllocError)?;
            }
            Ok(None) => return Ok(true),
            Err(Stopped) => return Ok(false),
        }
    }
    Ok(false)
}

/// The counts of the ontology that the reader's trees state, or their faults.
fn shown_of(alloc: Global, reader: OntologyReader) -> Shown {
    match reader.finish() {
        Ok(ontology) => {
            let counts = counts(&ontology);
            format!(in alloc; "{counts:?}")
        }
        Err(refusal) => told(alloc, &refusal),
    }
}

/// What is shown of the trees that are left, of which there are at most so many.
fn shown_of_trees(
    alloc: Global,
    trees: &mut TreeReader<'_>,
    most: usize,
    state: RandomState,
) -> Shown {
    let mut reader = match OntologyReader::start(alloc, Version::Two, state) {
        Ok(reader) => reader,
        Err(_) => return Err(AllocError),
    };
    match take_all(trees, &mut reader, most) {
        Ok(true) => shown_of(alloc, reader),
        Ok(false) => {
            drop(reader);
            String::from_str(alloc, "no document")
        }
        Err(_) => {
            drop(reader);
            Err(AllocError)
        }
    }
}

fn shown(alloc: Global, text: &str, state: RandomState) -> Shown {
    let mut trees = match TreeReader::start(alloc, text) {
        Some(trees) => trees,
        None => return String::from_str(alloc, "no document"),
    };
    let shown = shown_of_trees(alloc, &mut trees, text.len(), state);
    drop(trees);
    shown
}

/// What stands in a document with the prefix `:` for `x:`, from byte 24 on, and what is shown of it.
const ROWS: &[(&str, &str)] = &[
    ("", "[2, 0, 0, 2, 0]"),
    (
        ":o :v Annotation(:p \"x\") SubClassOf(:A :B) ClassAssertion(:B :a)",
        "[4, 0, 1, 4, 2]",
    ),
    // In front, in the middle and at the end.
    (
        ":o :v :w SubClassOf(:A) SubClassOf(:A :B) :z",
        "F3 at byte 30\nF3 at byte 33\nF3 at byte 66\n",
    ),
    ("SubClassOf(:A :B) Annotation(:p \"x\")", "F3 at byte 42\n"),
    (":o SubClassOf(:A :B) SubClassOf(:A", "no document"),
    ("SubClassOf(:A :B)) SubClassOf(:A", "no document"),
];

#[test]
fn trees_one_by_one(rt: HostRuntime) -> Result<(), Fail> {
    let state = random(&rt)?;
    for row in ROWS {
        let (inside, expected) = *row;
        let text = format!(in rt.alloc(); "Prefix(:=<x:>) Ontology({inside})")?;
        let found = shown(rt.alloc(), text.as_str(), state)?;
        assert!(rt; found.as_str() == expected, "{inside}: {found}");
    }
    Ok(())
}
