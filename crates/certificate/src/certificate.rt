//! Certificates: derivations with what they show.

ghost use Rattle.std.specs.Prelude.{◌≡◌, IfOk, IfErr, OnErr, option_map};
ghost use Rattle.certificate.specs.Writability.{HasText};
ghost use Rattle.certificate.specs.View.{lines_of, listed_of, certificate_from};

use crate::fault::MakeFault;
use crate::fitting::have_text;
use crate::format::Format;
use crate::line::Line;
use crate::listed::Listed;
use axioms::Ontology;
use std::marker::Model;

/// The lines of a derivation and, of a consistent ontology, an interpretation by its members.
#[derive(Debug, Drop)]
pub struct Certificate {
    pub(crate) lines: Vec<Line>,
    pub(crate) listed: Option<Listed>,
}

impl Model for Certificate {
    ghost use Rattle.certificate.specs.Certificate as spec;
    ghost use Rattle.certificate.specs.Fields.{kept_certificate};

    ghost Value = { spec.Certificate };

    ghost view = { kept_certificate };
}

impl Certificate {
    /// The certificate of these lines and, of a consistent ontology, of this interpretation.
    ///
    /// Refused with `NoText` exactly where they have no text in format 1, and so in none: where they name what the ontology does not
    /// have, where rows are out of order, or where a number is too large. Needs no memory.
    pub fn new(
        ontology: &Ontology,
        lines: Vec<Line>,
        listed: Option<Listed>,
    ) -> Result<Certificate, MakeFault>
        ensures made { IfOk result (λ c. c ≡ certificate_from lines.items listed) }
        ensures text { IfOk result (λ c. HasText ontology.now Format.One c) }
        ensures none { OnErr result (HasText ontology.now Format.One (certificate_from lines.items listed) → ⊥) }
        ensures fault { IfErr result (λ fault. fault ≡ MakeFault.NoText) }
    {
        if !have_text(ontology, &lines, &listed) {
            return Err(MakeFault::NoText);
        }
        Ok(Certificate { lines, listed })
    }

    /// The lines of the derivation; the first has the number 1.
    pub fn lines(&self) -> &[Line]
        ensures { lines_of result.now ≡ self.now.lines }
    {
        &self.lines
    }

    /// The listed interpretation; there is none where the certificate is of a contradictory ontology.
    pub fn listed(&self) -> Option<&Listed>
        ensures { option_map (λ l. listed_of l.now) result ≡ self.now.listed }
    {
        self.listed.as_ref()
    }
}
