//! Reads the tokens of a document in the functional-style syntax of OWL 2 as trees, with names expanded.
#![tactic(auto)]

ghost use Rattle.fs_parser.specs.Laws.{OneTree, OneListOfTrees, DocumentsHavePrefixes, OneDocument, PrefixNamesEndAtColon, TokensEndInText};

mod document;
mod expansion;
mod fault;
mod iri;
mod known;
mod parts;
mod prefix;
mod prefixes;
mod reader;
mod stream;
mod tree;
mod tree_reader;
mod trees;

pub use document::forms;
pub use fault::ParseFault;
pub use iri::Iri;
pub use parts::{expression, statements};
pub use prefix::Prefix;
pub use prefixes::Prefixes;
pub use stream::streamed_forms;
pub use tree::{Document, Tree};
pub use tree_reader::{Stopped, TreeReader};

/// A law: tokens are at most one document. With prefixes that each stand for one IRI they are at most one list of trees,
/// and the prefixes of a document are such. The tokens of a text end in the text.
pub fn tokens_are_one_document()
    ensures document { OneDocument }
    ensures prefixes { DocumentsHavePrefixes }
    ensures trees { OneListOfTrees }
    ensures tree { OneTree }
    ensures names { PrefixNamesEndAtColon }
    ensures ends { TokensEndInText }
{}
