//! Where the lines of a derivation go.
ghost use Rattle.axioms.specs.View.{at_number};
ghost use Rattle.certificate.specs.Certificate as spec;
ghost use Rattle.certificate.specs.Certificate.{source_of};
ghost use Rattle.certificate.specs.View.{line_of, lines_of, subject_of};
ghost use Rattle.std.specs.Prelude.{◌≡◌, ◌++◌, ◌∷◌, [], IfOk, List, OnErr, OnOk, length, map, option_map};

use axioms::Memory;
use certificate::{FormatType, Line, Subject};
use certificate_text::LineText;

/// Takes lines one after another, as values or as text.
pub(crate) trait LineSink: Drop {
    /// The lines that it has taken, numbered from 1.
    ghost lines: { Self → List spec.Line };

    /// Takes a line and gives its number. Where it fails it is what it was.
    fn add(&mut self, line: &Line) -> Result<u64, Memory>
        ensures added { OnOk result (lines self.new ≡ lines self.old ++ line_of line.now ∷ []) }
        ensures number { IfOk result (λ n. n ≡ length (lines self.new)) }
        ensures err { OnErr result (lines self.new ≡ lines self.old) };

    /// What the line of that number speaks of: its subject, or the start of its edge.
    fn source(&self, number: u64) -> Option<Subject>
        ensures { option_map subject_of result ≡ option_map source_of (at_number (map (λ l. l.conclusion) (lines self.now)) number) };
}

/// Lines as values.
impl LineSink for Vec<Line> {
    ghost lines = { λ v. lines_of v.items };

    fn add(&mut self, line: &Line) -> Result<u64, Memory> {
        let premises = line.premises.clone()?;
        self.push(Line { premises, ..*line })?;
        Ok(self.len() as u64)
    }

    fn source(&self, number: u64) -> Option<Subject> {
        if number == 0 || (self.len() as u64) < number {
            return None;
        }
        Some(self[(number - 1) as usize].conclusion.source())
    }
}

/// Lines as the text of a format.
impl<F: FormatType> LineSink for LineText<F> {
    ghost lines = { λ t. t };

    fn add(&mut self, line: &Line) -> Result<u64, Memory> {
        self.push(line)?;
        Ok(LineText::len(self) as u64)
    }

    fn source(&self, number: u64) -> Option<Subject> {
        LineText::source(self, number)
    }
}
