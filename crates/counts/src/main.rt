//! An example of the library: reads a document from standard input, and prints how many names, expressions and axioms its
//! ontology has, or why it is not read. With a word behind the program's name it also prints how many facts the closure has: what
//! that takes more is what a saturation takes. With the path of a file behind that word it then prints the normal forms of each row
//! of the file, in a line of its own each.
//!
//! A row is a line: a document, and then any number of documents that go on from the one before, after ` => `. Each may be followed
//! by numbers of expressions that are asked about, after ` ? `.
#![tactic(auto)]

mod listing;
mod printing;
mod rows;

use crate::listing::listed;
use axioms::Ontology;
use device::{ReaderSource, Source, WriterSink, write_all};
use engine::{Saturation, Stop};
use profile::{DocumentFault, read_document};
use program::{Limits, MOST_BYTES, Status, Version};
use std::alloc::{AllocError, Global};
use std::hash::RandomState;
use std::process::ExitCode;
use std::{env, fs, io};

/// How many of each the ontology has, `owl:Thing` and `owl:Nothing` among the classes and the expressions.
fn counts(alloc: Global, ontology: &Ontology) -> Result<String, AllocError> {
    let classes = ontology.classes().len();
    let properties = ontology.properties().len();
    let individuals = ontology.individuals().len();
    let expressions = ontology.expression_count();
    let axioms = ontology.axioms().len();
    format!(in alloc;
        "classes {classes} properties {properties} individuals {individuals} expressions {expressions} axioms {axioms}\n"
    )
}

/// How many facts the closure of the ontology has.
fn fact_count(alloc: Global, state: RandomState, ontology: &Ontology) -> Result<usize, Stop> {
    let mut saturation = Saturation::start(alloc, state, ontology)?;
    let ended = saturation.resume(u32::MAX);
    let many = saturation.facts().len();
    drop(saturation);
    ended?;
    Ok(many)
}

/// The counts of the ontology and of its facts, and the status.
fn all_counts(
    alloc: Global,
    state: RandomState,
    ontology: &Ontology,
) -> Result<(String, Status), AllocError> {
    let counts = counts(alloc, ontology)?;
    match fact_count(alloc, state, ontology) {
        Ok(many) => Ok((format!(in alloc; "{counts}facts {many}\n")?, Status::Done)),
        Err(Stop::Memory) => Ok((counts, Status::Memory)),
        Err(Stop::Limit) => Ok((counts, Status::Limit)),
    }
}

/// What is printed, and the status.
fn shown(
    alloc: Global,
    state: RandomState,
    read: &Result<Ontology, DocumentFault>,
    with_facts: bool,
) -> Result<(String, Status), AllocError> {
    match read {
        Ok(ontology) if with_facts => all_counts(alloc, state, ontology),
        Ok(ontology) => Ok((counts(alloc, ontology)?, Status::Done)),
        Err(fault) => Ok((format!(in alloc; "{fault}\n")?, fault.status())),
    }
}

/// What is printed of the document that the source gives, and the status.
fn text_of<S: Source>(
    alloc: Global,
    source: &mut S,
    limits: &Limits,
    state: RandomState,
    with_facts: bool,
) -> Result<(String, Status), AllocError> {
    let read = read_document(alloc, source, limits, state);
    shown(alloc, state, &read, with_facts)
}

/// The program's name and the words behind it.
fn words(rt: &HostRuntime) -> io::Result<Vec<String>> {
    Ok(env::args(rt)?.collect(rt.alloc())?)
}

/// The normal forms of the rows in the file.
fn forms_in(rt: &HostRuntime, state: RandomState, path: &str) -> Result<String, Status> {
    let rows = fs::read_to_string(rt, path).map_err(|_| Status::File)?;
    listed(rt.alloc(), state, &rows).map_err(|_| Status::Memory)
}

/// What is printed of the document on standard input and of the rows, and the status.
fn text_of_input(rt: HostRuntime) -> Result<(String, Status), Status> {
    let limits = Limits::new(MOST_BYTES, 1, Version::Two).ok_or(Status::Limit)?;
    let state = RandomState::new(&rt).map_err(|_| Status::File)?;
    let words = words(&rt).map_err(|_| Status::Usage)?;
    let with_facts = words.len() > 1;
    let mut source = ReaderSource::new(rt.stdin());
    let told = text_of(rt.alloc(), &mut source, &limits, state, with_facts);
    let (mut text, status) = told.map_err(|_| Status::Memory)?;
    if let Some(path) = words.get(2) {
        let forms = forms_in(&rt, state, path)?;
        text.push_str(&forms).map_err(|_| Status::Memory)?;
    }
    Ok((text, status))
}

fn main(rt: HostRuntime) -> ExitCode {
    let (text, status) = match text_of_input(rt) {
        Ok(told) => told,
        Err(status) => return ExitCode::from(status.code()),
    };
    let mut out = WriterSink::new(rt.stdout());
    match write_all(&mut out, text.as_bytes()) {
        Ok(()) => ExitCode::from(status.code()),
        Err(_) => ExitCode::from(Status::File.code()),
    }
}
