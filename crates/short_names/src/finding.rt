//! The short form of a name.
ghost use Rattle.fs_parser.specs.Name.{Prefixes};
ghost use Rattle.short_names.specs.Found.{AppendsShown, IsFound, IsLocalIn, pair_of, pairs_of, shortest, shown_text};
ghost use Rattle.short_names.specs.ShortNames.{IsShortBy};
ghost use Rattle.std.specs.Prelude.{◌≡◌, ◌++◌, ◌∷◌, [], IfNone, IfSome, List, OnOk, ℕ};

use fs_lexer::{is_local_name, is_prefix};
use std::alloc::AllocError;

/// A prefix, with its IRI as names are written in the text.
#[derive(Drop)]
pub(crate) struct WrittenPrefix<'p> {
    pub(crate) name: &'p str,
    pub(crate) iri: Vec<u8>,
}

/// The short form of a name: the name of a prefix, and what stands behind the IRI of the prefix.
#[derive(Clone, Copy)]
pub(crate) struct ShortName<'t> {
    pub(crate) prefix: &'t str,
    pub(crate) local: &'t [u8],
}

/// The local name behind the IRI of the prefix, where the short form can be read.
fn local_in<'t>(prefix: &WrittenPrefix<'_>, inside: &'t [u8]) -> Option<&'t [u8]>
    ensures some { IfSome result (λ local. IsLocalIn (pair_of prefix.now) inside.now local.now) }
    ensures none { IfNone result ((text : List ℕ) → IsShortBy (pair_of prefix.now) text inside.now → ⊥) }
{
    let local = inside.strip_prefix(prefix.iri.as_slice())?;
    if is_prefix(prefix.name.as_bytes()) && is_local_name(local) {
        Some(local)
    } else {
        None
    }
}

/// The one with the shorter local name, and of two as long the first.
fn shortest<'t>(best: Option<ShortName<'t>>, found: ShortName<'t>) -> ShortName<'t>
    ensures { result ≡ shortest best.entry found.entry }
{
    match best {
        Some(best) if best.local.len() <= found.local.len() => best,
        _ => found,
    }
}

/// What was found so far, or the short form by the prefix, where that has a longer IRI.
fn with_prefix<'t>(
    best: Option<ShortName<'t>>,
    prefix: &WrittenPrefix<'t>,
    inside: &'t [u8],
) -> Option<ShortName<'t>>
    ensures { (ps : Prefixes) → IsFound ps inside.now best.entry → IsFound (ps ++ pair_of prefix.now ∷ []) inside.now result }
{
    match local_in(prefix, inside) {
        None => best,
        Some(local) => {
            let found = ShortName {
                prefix: prefix.name,
                local,
            };
            Some(shortest(best, found))
        }
    }
}

/// The short form by the first of the prefixes with the longest IRI.
fn short_name<'t>(prefixes: &[WrittenPrefix<'t>], inside: &'t [u8]) -> Option<ShortName<'t>>
    ensures { IsFound (pairs_of prefixes.now) inside.now result }
{
    let mut best = None;
    for prefix in prefixes {
        best = with_prefix(best, prefix, inside);
    }
    best
}

/// Adds what was found, or the name in angle brackets.
fn push_found(
    out: &mut Vec<u8>,
    inside: &[u8],
    found: Option<ShortName<'_>>,
) -> Result<(), AllocError>
    ensures { OnOk result (out.new.items ≡ out.old.items ++ shown_text inside.now found.entry) }
{
    match found {
        Some(short) => {
            out.extend_from_slice(short.prefix.as_bytes())?;
            out.extend_from_slice(b":")?;
            out.extend_from_slice(short.local)
        }
        None => {
            out.extend_from_slice(b"<")?;
            out.extend_from_slice(inside)?;
            out.extend_from_slice(b">")
        }
    }
}

/// Adds the short form of the name, or the name in angle brackets.
pub(crate) fn push_shown(
    out: &mut Vec<u8>,
    prefixes: &[WrittenPrefix<'_>],
    inside: &[u8],
) -> Result<(), AllocError>
    ensures { OnOk result (AppendsShown (pairs_of prefixes.now) inside.now out.old.items out.new.items) }
{
    push_found(out, inside, short_name(prefixes, inside))
}
