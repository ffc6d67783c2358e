//! Expanded names, in two pieces of the source.

ghost use Rattle.std.specs.Prelude.{◌≡◌, ◌++◌, ℕ, List, IfOk, OnOk, IfSome, IfNone, IsTrue, ◌↔◌, string_bytes};
ghost use Rattle.fs_parser.specs.View.{iri_of};

use std::alloc::{AllocError, Global};

/// An expanded name: the IRI of its prefix and its local name, or a full IRI and nothing. Neither piece is copied.
#[derive(Clone, Copy, Debug)]
pub struct Iri<'a> {
    pub base: &'a str,
    pub local: &'a str,
}

/// What stands behind a prefix.
fn behind<'a>(text: &'a str, front: &str) -> Option<&'a str>
    ensures some { IfSome result (λ rest. text.now ≡ front.now ++ rest.now) }
    ensures none { IfNone result ((rest : List ℕ) → text.now ≡ front.now ++ rest → ⊥) }
{
    text.strip_prefix(front)
}

impl Iri<'_> {
    /// Whether this is the whole text of the IRI, without angle brackets.
    pub fn is_text(&self, text: &str) -> bool
        ensures { IsTrue result ↔ (iri_of self.now ≡ text.now) }
    {
        match behind(text, self.base) {
            Some(rest) => rest == self.local,
            None => false,
        }
    }

    /// Writes the text of the IRI behind the others.
    pub fn push_to(&self, text: &mut String) -> Result<(), AllocError>
        ensures { OnOk result (string_bytes text.new ≡ string_bytes text.old ++ iri_of self.now) }
    {
        text.push_str(self.base)?;
        text.push_str(self.local)
    }

    /// The text of the IRI, without angle brackets.
    pub fn text(&self, alloc: Global) -> Result<String, AllocError>
        ensures { IfOk result (λ text. string_bytes text ≡ iri_of self.now) }
    {
        let room = self.base.len().saturating_add(self.local.len());
        let mut text = String::with_capacity(alloc, room)?;
        self.push_to(&mut text)?;
        Ok(text)
    }
}
