//! Texts for people with their names by the prefixes of a document.
#![tactic(auto)]

mod cutting;
mod finding;
mod shortening;
mod spelling;

ghost use Rattle.short_names.specs.Theorems.{ShortFormsReadBack};

pub use spelling::spelled;

/// A law: a short form is one token, which with the prefixes is the name that it stands for.
pub fn short_forms_read_back()
    ensures { ShortFormsReadBack }
{}
