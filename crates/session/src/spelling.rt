//! How the names in a session's texts are spelled.
ghost use Rattle.session.specs.TextAnswers.{is_graph as is_graph_of};
ghost use Rattle.short_names.specs.Spellings.{IsSpelled};
ghost use Rattle.std.specs.Prelude.{◌≡◌, IfOk};

use crate::session::Session;
use axioms::Memory;
use program::{Question, Spelling};

/// Whether the text of an answer to the question is a graph, in which names are escaped.
pub fn is_graph(question: Question<'_>) -> bool
    ensures { result ≡ is_graph_of question.entry }
{
    match question {
        Question::Why(_, _, shown) => shown.graph,
        _ => false,
    }
}

impl Session {
    /// The text, whose names stand in full in angle brackets, with names in full, or by the prefixes of the document where reading
    /// them back gives the name: by the one with the longest IRI, and of several by the first. In a graph names are escaped.
    ///
    /// # Errors
    ///
    /// `Memory` where memory was refused.
    pub fn spelled(&self, text: Vec<u8>, spelling: Spelling, graph: bool) -> Result<Vec<u8>, Memory>
        ensures { IfOk result (λ v. IsSpelled spelling self.now.prefixes graph text.items v.items) }
    {
        short_names::spelled(self.alloc, &self.prefixes, text, spelling, graph)
    }
}
