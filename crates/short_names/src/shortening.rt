//! Texts with their names by prefixes.
ghost use Rattle.fs_parser.specs.View.{prefixes_of_code};
ghost use Rattle.short_names.specs.Found.{pair_of, pairs_of, written_prefixes};
ghost use Rattle.short_names.specs.ShortNames.{IsShortened};
ghost use Rattle.short_names.specs.Spellings.{written_in};
ghost use Rattle.std.specs.Prelude.{◌≡◌, IfOk};

use crate::cutting::first_name;
use crate::finding::{WrittenPrefix, push_shown};
use answer_texts::push_escaped;
use device::Memory;
use fs_parser::{Prefix, Prefixes};
use std::alloc::Global;

/// The prefix, with its IRI as names are written in the text.
fn written<'p>(alloc: Global, prefix: &Prefix<'p>, graph: bool) -> Result<WrittenPrefix<'p>, Memory>
    ensures { IfOk result (λ p. pair_of p ≡ (prefix.now.name.now, written_in graph prefix.now.iri.now)) }
{
    let mut iri = Vec::new(alloc);
    if graph {
        push_escaped(&mut iri, prefix.iri.as_bytes())?;
    } else {
        iri.extend_from_slice(prefix.iri.as_bytes())?;
    }
    Ok(WrittenPrefix {
        name: prefix.name,
        iri,
    })
}

/// The prefixes, with their IRIs as names are written in the text.
fn written_list<'p>(
    alloc: Global,
    prefixes: &[Prefix<'p>],
    graph: bool,
) -> Result<Vec<WrittenPrefix<'p>>, Memory>
    ensures { IfOk result (λ v. pairs_of v.items ≡ written_prefixes (written_in graph) (prefixes_of_code prefixes.now)) }
{
    let mut list = Vec::with_capacity(alloc, prefixes.len())?;
    for prefix in prefixes {
        list.push(written(alloc, prefix, graph)?)?;
    }
    Ok(list)
}

/// The text with each name in its short form, where it has one by the prefixes.
fn shortened_by(
    alloc: Global,
    prefixes: &[WrittenPrefix<'_>],
    text: &[u8],
) -> Result<Vec<u8>, Memory>
    ensures { IfOk result (λ v. IsShortened (pairs_of prefixes.now) (λ iri. iri) text.now v.items) }
{
    let mut out = Vec::with_capacity(alloc, text.len())?;
    let mut rest = text;
    while let Some(cut) = first_name(rest) {
        out.extend_from_slice(cut.front)?;
        push_shown(&mut out, prefixes, cut.inside)?;
        rest = cut.behind;
    }
    out.extend_from_slice(rest)?;
    Ok(out)
}

/// The text with each name in its short form, where it has one by the prefixes. In a graph names are escaped.
///
/// # Errors
///
/// `Memory` where memory was refused.
pub(crate) fn shortened(
    alloc: Global,
    prefixes: &Prefixes,
    text: &[u8],
    graph: bool,
) -> Result<Vec<u8>, Memory>
    ensures { IfOk result (λ v. IsShortened prefixes.now (written_in graph) text.now v.items) }
{
    let listed = prefixes.list(alloc)?;
    let list = written_list(alloc, &listed, graph)?;
    shortened_by(alloc, &list, text)
}
