//! Where the rows of an interpretation go.
ghost use Rattle.certificate.specs.Text.{class_text, pairs_text};
ghost use Rattle.certificate.specs.View.{class_row_of, pair_row_of};
ghost use Rattle.countermodel.specs.Sinks.{TakesRow};
ghost use Rattle.std.proofs.Common.{sym};
ghost use Rattle.std.proofs.lemmas.List.{append-nil};
ghost use Rattle.std.specs.List.{flat_map};
ghost use Rattle.std.specs.Prelude.{◌≡◌, ◌++◌, [], List, OnOk, map};

use axioms::Memory;
use certificate::{ClassRow, FormatType, PairRow};
use certificate_text::ListedText;

/// Takes rows one after another, as values or as text.
pub(crate) trait RowSink<R> {
    /// The second is the first with those rows behind it.
    ghost adds: { Self → Self → List R → Type 0 };

    /// Takes a row.
    ///
    /// # Errors
    ///
    /// `Memory` where memory was refused; then a part of the row may be there.
    fn add(&mut self, row: R) -> Result<(), Memory>
        ensures { OnOk result (TakesRow adds row self.old self.new) };

    /// What has taken nothing is what it was.
    ghost nothing: { (s : Self) → adds s s [] };
}

/// Rows as values.
impl<R: Drop> RowSink<R> for Vec<R> {
    ghost adds = { λ s t rows. t.items ≡ s.items ++ rows };

    fn add(&mut self, row: R) -> Result<(), Memory> {
        self.push(row)?;
        Ok(())
    }

    ghost nothing = { λ s. sym (append-nil s.items) };
}

impl<F: FormatType> RowSink<ClassRow> for ListedText<F> {
    ghost adds = { λ s t rows. t ≡ s ++ flat_map (class_text F.format) (map class_row_of rows) };

    fn add(&mut self, row: ClassRow) -> Result<(), Memory> {
        self.push_class(&row)
    }

    ghost nothing = { λ s. sym (append-nil s) };
}

impl<F: FormatType> RowSink<PairRow> for ListedText<F> {
    ghost adds = { λ s t rows. t ≡ s ++ flat_map (pairs_text F.format) (map pair_row_of rows) };

    fn add(&mut self, row: PairRow) -> Result<(), Memory> {
        self.push_pairs(&row)
    }

    ghost nothing = { λ s. sym (append-nil s) };
}
