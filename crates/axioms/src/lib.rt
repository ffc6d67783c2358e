//! Names, class expressions and axioms of an ontology, by number.
#![tactic(auto)]

mod builder;
mod copies;
mod fault;
mod growth;
mod ids;
mod lengths;
mod ontology;
mod terms;
mod theory;

pub use builder::Builder;
pub use device::{BufferSink, Failed, Memory, ReaderSource, Sink, SliceSource, Source, WriterSink};
pub use fault::BuildFault;
pub use growth::{MOST_AXIOMS, MOST_EXPRESSIONS, MOST_NAMES, OWL_NOTHING, OWL_THING};
pub use ids::{ClassId, ExprId, IndId, PropId};
pub use lengths::Lengths;
pub use ontology::Ontology;
pub use terms::{Axiom, Expr, Kind, Name};
pub use theory::{numbered_expressions, ontology_of_statements};
