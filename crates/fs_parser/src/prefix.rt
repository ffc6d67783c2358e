//! Prefixes.

ghost use Rattle.std.specs.Prelude.{◌≡◌, ◌++◌, List, ℕ, codes};
ghost use Rattle.std.specs.List.{Contains};
ghost use Rattle.std.specs.Option.{IfSome, IfNone};
ghost use Rattle.std.specs.Str.{IsUtf8};
ghost use Rattle.fs_parser.specs.Name.{CanBeSpelled, IsBracketed, standard_prefixes};

/// A prefix that a document declares: its name without the colon, and the IRI that it stands for, which can be spelled.
#[derive(Clone, Copy, Debug)]
pub struct Prefix<'a> {
    pub name: &'a str,
    pub iri: &'a str,
    pub ghost spelled: { ∥ CanBeSpelled iri.now ∥₁ },
}

pub(crate) const RDF: &str = "http://www.w3.org/1999/02/22-rdf-syntax-ns#";

pub(crate) const RDFS: &str = "http://www.w3.org/2000/01/rdf-schema#";

pub(crate) const XSD: &str = "http://www.w3.org/2001/XMLSchema#";

pub(crate) const OWL: &str = "http://www.w3.org/2002/07/owl#";

/// The IRI of a prefix that is declared from the start.
#[tactic(auto, unfolding(crate::specs::Name::standard_prefixes))]
pub(crate) fn standard_iri(name: &str) -> Option<&'static str>
    ensures some { IfSome result (λ iri. Contains standard_prefixes (name.now, iri.now)) }
    ensures none { IfNone result ((iri : List ℕ) → Contains standard_prefixes (name.now, iri) → ⊥) }
{
    if name == "rdf" {
        Some(RDF)
    } else if name == "rdfs" {
        Some(RDFS)
    } else if name == "xsd" {
        Some(XSD)
    } else if name == "owl" {
        Some(OWL)
    } else {
        None
    }
}

/// What stands between `<` and `>`.
pub(crate) fn in_brackets(text: &str) -> Option<&str>
    ensures some { IfSome result (λ iri. IsBracketed iri.now text.now) }
    ensures utf8 { IfSome result (λ iri. IsUtf8 iri.now) }
    ensures none { IfNone result ((iri : List ℕ) → IsBracketed iri text.now → ⊥) }
{
    match text.strip_prefix('<') {
        Some(rest) => rest.strip_suffix('>'),
        None => None,
    }
}

/// What stands before a colon at the end.
pub(crate) fn before_colon(text: &str) -> Option<&str>
    ensures some { IfSome result (λ name. text.now ≡ name.now ++ codes ":") }
    ensures none { IfNone result ((name : List ℕ) → text.now ≡ name ++ codes ":" → ⊥) }
{
    text.strip_suffix(':')
}
