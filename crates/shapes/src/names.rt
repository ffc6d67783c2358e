//! Which names are reserved, and which two are the same.

ghost use Rattle.std.specs.List.{starts_with};
ghost use Rattle.std.specs.Option.{IfNone, IfSome};
ghost use Rattle.std.specs.Prelude.{◌≡◌, ◌++◌, false, IsTrue, List, ℕ, nat_eq};
ghost use Rattle.std.specs.Str.{bytes_eq};
ghost use Rattle.fs_parser.specs.View.{iri_of};
ghost use Rattle.shapes.specs.Names.{is_allowed, is_class_name, is_reserved, may_be_name};

use crate::expected::Expected;
use axioms::{OWL_NOTHING, OWL_THING};
use fs_parser::Iri;

/// What stands behind a prefix.
#[inline(always)]
fn behind<'a>(text: &'a str, front: &str) -> Option<&'a str>
    ensures some { IfSome result (λ rest. text.now ≡ front.now ++ rest.now) }
    ensures none { IfNone result ((rest : List ℕ) → text.now ≡ front.now ++ rest → ⊥) }
{
    text.strip_prefix(front)
}

#[inline(always)]
fn text_begins_with(text: &str, front: &str) -> bool
    ensures { result ≡ starts_with nat_eq text.now front.now }
{
    text.as_bytes().starts_with(front.as_bytes())
}

#[inline(always)]
fn begins_with(iri: &Iri<'_>, front: &str) -> bool
    ensures { result ≡ starts_with nat_eq (iri_of iri.now) front.now }
{
    match behind(front, iri.base) {
        Some(rest) => text_begins_with(iri.local, rest),
        None => text_begins_with(iri.base, front),
    }
}

/// Where the IRI of each standard prefix has the digit of "http://www.w3.org/".
const DIGIT_AT: usize = 12;

/// Whether the base alone tells by this byte that the IRI begins with that of no standard prefix, which spares most names the
/// comparisons.
#[inline(always)]
fn differs_at_digit(iri: &Iri<'_>) -> bool
    ensures { IsTrue result → is_reserved (iri_of iri.now) ≡ false }
{
    match iri.base.as_bytes().get(DIGIT_AT) {
        Some(&byte) => byte != b'3',
        None => false,
    }
}

/// Whether the IRI begins with that of a standard prefix.
#[inline(always)]
fn is_reserved(iri: &Iri<'_>) -> bool
    ensures { result ≡ is_reserved (iri_of iri.now) }
{
    !differs_at_digit(iri)
        && (begins_with(iri, "http://www.w3.org/1999/02/22-rdf-syntax-ns#")
            || begins_with(iri, "http://www.w3.org/2000/01/rdf-schema#")
            || begins_with(iri, "http://www.w3.org/2001/XMLSchema#")
            || begins_with(iri, "http://www.w3.org/2002/07/owl#"))
}

/// Whether a class may have this IRI.
#[inline(always)]
fn is_class_name(iri: &Iri<'_>) -> bool
    ensures { result ≡ is_class_name (iri_of iri.now) }
{
    !is_reserved(iri) || iri.is_text(OWL_THING) || iri.is_text(OWL_NOTHING)
}

/// Whether what is expected may have this IRI.
#[inline(always)]
pub(crate) fn is_allowed(expected: Expected, iri: &Iri<'_>) -> bool
    ensures { result ≡ is_allowed expected (iri_of iri.now) }
{
    match expected {
        Expected::ClassExpression | Expected::Class => is_class_name(iri),
        Expected::Property | Expected::PropertyOrChain | Expected::Individual => !is_reserved(iri),
        _ => true,
    }
}

/// Whether a name may stand where this is expected.
#[inline(always)]
pub(crate) fn may_be_name(expected: Expected) -> bool
    ensures { result ≡ may_be_name expected }
{
    !matches!(
        expected,
        Expected::Axiom | Expected::Annotation | Expected::Entity
    )
}

/// Whether two names are the same IRI, wherever their prefixes end.
pub(crate) fn same_iri(a: &Iri<'_>, b: &Iri<'_>) -> bool
    ensures { result ≡ bytes_eq (iri_of a.now) (iri_of b.now) }
{
    match behind(a.base, b.base) {
        Some(rest) => is_joined(b.local, rest, a.local),
        None => match behind(b.base, a.base) {
            Some(rest) => is_joined(a.local, rest, b.local),
            None => false,
        },
    }
}

/// Whether the text is these two, one behind the other.
fn is_joined<'a>(text: &str, base: &'a str, local: &'a str) -> bool
    ensures { result ≡ bytes_eq text.now (base.now ++ local.now) }
{
    Iri { base, local }.is_text(text)
}
