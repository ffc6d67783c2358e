//! Documents of the profile: from bytes to the one ontology that they state, or to every fault in them; and how an ontology
//! grows by more trees.
#![tactic(auto)]

ghost use Rattle.profile.specs.DocumentTheorems.{AxiomsTakeBytes, BytesHaveOneFaultList, BytesReadAsOneOntology, FirstVersionIsInSecond, RefusedBytesReadAsNone, RefusedSourcesReadAsNone};
ghost use Rattle.profile.specs.Theorems.{AdditionsChangeNoNumber, FirstPlacesJoin, OneMoreStatement};

mod acceptance;
mod addition;
mod axiom_forms;
mod declarations;
mod document;
mod expressions;
mod fault;
mod growth;
mod individuals;
mod name_builder;
mod names;
mod ontology_reader;
mod opened;
mod operands;
mod properties;
mod statement;
mod streamed;

pub use acceptance::{Refusal, accept};
pub use addition::{read_addition, read_expression};
pub use document::{listed_document, read_bytes, read_document, read_opened};
pub use fault::DocumentFault;
pub use growth::{accept_expression, accept_statements};
pub use ontology_reader::OntologyReader;
pub use opened::Opened;
pub use program::{Limits, MOST_BYTES, MOST_FACTS, Status, Version};
pub use shapes::Fault;

/// How an ontology grows: to add what a statement brings, each at its first place, is to read one statement more, and what
/// is added at the end changes no number.
pub fn statements_one_by_one()
    ensures join { FirstPlacesJoin }
    ensures more { OneMoreStatement }
    ensures numbers { AdditionsChangeNoNumber }
{}

/// Bytes read as at most one ontology in a version, and have at most one list of faults.
pub fn one_ontology_is_read()
    ensures ontology { BytesReadAsOneOntology }
    ensures faults { BytesHaveOneFaultList }
{}

/// What is refused reads as no ontology, unless memory was refused or the source failed.
pub fn refused_bytes_read_as_none()
    ensures bytes { RefusedBytesReadAsNone }
    ensures sources { RefusedSourcesReadAsNone }
{}

/// A document has at least as many bytes as its ontology has axioms.
pub fn axioms_take_bytes()
    ensures { AxiomsTakeBytes }
{}

/// What bytes read as in the first version of the profile they read as in the second, too.
pub fn first_version_is_in_second()
    ensures { FirstVersionIsInSecond }
{}
