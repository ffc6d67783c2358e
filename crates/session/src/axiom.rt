//! An axiom by its number.
ghost use Rattle.answer_texts.specs.Axioms.{axiom_line};
ghost use Rattle.axioms.specs.View.{at_number};
ghost use Rattle.std.specs.Prelude.{◌≡◌, IfOk, option_map};

use crate::session::Session;
use answer_texts::axiom_bytes;
use axioms::Memory;

impl Session {
    /// The axiom of that number, counted from 1 as explanations cite it, in the functional syntax with full IRIs and single
    /// spaces, and a line feed; none where the ontology has no axiom of that number. It may be asked for while facts are pending.
    ///
    /// # Errors
    ///
    /// `Memory` where memory was refused.
    pub fn axiom(&self, number: usize) -> Result<Option<Vec<u8>>, Memory>
        ensures { IfOk result (λ found. option_map (λ v. v.items) found ≡ option_map (axiom_line self.now.ontology) (at_number self.now.ontology.axioms number)) }
    {
        axiom_bytes(self.alloc, &self.ontology, number)
    }
}
