//! What names stand for.

ghost use Rattle.std.specs.Prelude.{List, ℕ};
ghost use Rattle.std.specs.Option.{IfSome, IfNone};
ghost use Rattle.fs_lexer.specs.Views.{token_of};
ghost use Rattle.fs_parser.specs.Name.{IsNameOf, IsShort};
ghost use Rattle.fs_parser.specs.KnownPrefixes.{known_of};
ghost use Rattle.fs_parser.specs.View.{iri_of};

use crate::iri::Iri;
use crate::known::Known;
use crate::prefix::in_brackets;
use fs_lexer::{Kind, Token};

/// The IRI of a short name: its prefix ends at the first colon.
#[inline(always)]
fn expand_short<'a>(known: &Known<'a>, text: &'a str) -> Option<Iri<'a>>
    ensures some { IfSome result (λ i. IsShort (known_of known.now) text.now (iri_of i)) }
    ensures none { IfNone result ((iri : List ℕ) → IsShort (known_of known.now) text.now iri → ⊥) }
{
    let (name, local) = text.split_once(':')?;
    let base = known.iri(name)?;
    Some(Iri { base, local })
}

/// The IRI that the token names.
#[inline(always)]
pub(crate) fn expand<'a>(known: &Known<'a>, token: &Token<'a>) -> Option<Iri<'a>>
    ensures some { IfSome result (λ i. IsNameOf (known_of known.now) (token_of token.now) (iri_of i)) }
    ensures none { IfNone result ((iri : List ℕ) → IsNameOf (known_of known.now) (token_of token.now) iri → ⊥) }
{
    match token.kind {
        Kind::FullIri => match in_brackets(token.text) {
            Some(base) => Some(Iri { base, local: "" }),
            None => None,
        },
        Kind::ShortName => expand_short(known, token.text),
        _ => None,
    }
}
