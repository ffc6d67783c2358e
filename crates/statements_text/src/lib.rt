//! The text of a list of statements, which reads as these statements, and the writer of its lines.
#![tactic(auto)]

mod restriction;
mod tree_text;

ghost use Rattle.statements_text.specs.Theorems.{FaultlessIsKeptWhole, KeptIsStated, NamesAreIriBytes, StatedCanBeSaid, StatementsAreRead, StatementsReadBack, TextSpellsTokens, TreesCanBeSaid};

pub use restriction::{Restriction, restricted};
pub use tree_text::write_tree_line;

/// Laws: the text of statements spells its tokens, and where each of the statements can be said in the version it reads as
/// just these, and as their ontology. A name that a document's token stands for is of bytes that an IRI may have.
pub fn statements_read_back()
    ensures spells { TextSpellsTokens }
    ensures statements { StatementsAreRead }
    ensures names { NamesAreIriBytes }
    ensures reads { StatementsReadBack }
{}

/// A law: a statement of a tree without faults has the tree's term, and can be said where that can be spelled.
pub fn trees_can_be_said()
    ensures { TreesCanBeSaid }
{}

/// A law: what a tree of a text's document states, if the tree has no fault, can be said.
pub fn stated_can_be_said()
    ensures { StatedCanBeSaid }
{}

/// Laws: what is kept of a document is stated by it, and of one without faults all is kept: it reads as the ontology of that.
pub fn what_is_kept()
    ensures stated { KeptIsStated }
    ensures faultless { FaultlessIsKeptWhole }
{}
