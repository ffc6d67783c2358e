//! The text of a certificate that lists an interpretation, as it grows row by row.

ghost use Rattle.std.specs.Prelude.{◌≡◌, ◌++◌, IfOk, OnOk, codes, map};
ghost use Rattle.std.specs.List.{enumerate_from, flat_map};
ghost use Rattle.certificate.specs.Text.{claim_text, class_text, individual_text, pairs_text};
ghost use Rattle.certificate.specs.View.{claim_of, class_row_of, pair_row_of};

use crate::writing::{push_class, push_each, push_individuals, push_pairs};
use axioms::Memory;
use certificate::{Claim, ClassRow, FormatType, PairRow};
use std::marker::{Model, PhantomData};

/// The text of a certificate of a format up to a row of the interpretation that it lists. No row is kept beside it. It is seen as its bytes.
#[derive(Drop)]
pub struct ListedText<F: FormatType> {
    pub(crate) text: Vec<u8>,
    pub(crate) format: PhantomData<F>,
}

impl<F: FormatType> Model for ListedText<F> {
    ghost use Rattle.std.specs.Prelude.{List, ℕ};

    ghost Value = { List ℕ };

    ghost view = { λ t. t.text.items };
}

impl<F: FormatType> ListedText<F> {
    /// Adds the row of a class.
    ///
    /// # Errors
    ///
    /// `Memory` where memory was refused. Then a part of the row may stand there.
    pub fn push_class(&mut self, class_row: &ClassRow) -> Result<(), Memory>
        ensures { OnOk result (self.new ≡ self.old ++ class_text F.format (class_row_of class_row.now)) }
    {
        push_class(&mut self.text, F::format(), class_row)?;
        Ok(())
    }

    /// Adds the row of a property and an element.
    ///
    /// # Errors
    ///
    /// `Memory` where memory was refused. Then a part of the row may stand there.
    pub fn push_pairs(&mut self, pair_row: &PairRow) -> Result<(), Memory>
        ensures { OnOk result (self.new ≡ self.old ++ pairs_text F.format (pair_row_of pair_row.now)) }
    {
        push_pairs(&mut self.text, F::format(), pair_row)?;
        Ok(())
    }

    /// The whole text, with the element of each individual, by the individual's number, and with the claims.
    ///
    /// # Errors
    ///
    /// `Memory` where memory was refused.
    #[tactic(auto, using(crate::proofs::Seen::seen_claims))]
    pub fn end(self, individuals: &[u32], claims: &[Claim]) -> Result<Vec<u8>, Memory>
        ensures { IfOk result
            (λ v. v.items ≡ self ++ flat_map individual_text (enumerate_from 0 individuals.now) ++ flat_map claim_text (map claim_of claims.now) ++ codes "end\n") }
    {
        let mut text = self.text;
        push_individuals(&mut text, individuals)?;
        push_each(&mut text, claims)?;
        text.extend_from_slice(b"end\n")?;
        Ok(text)
    }
}
