//! Texts, spelled as is asked for.
ghost use Rattle.short_names.specs.Spellings.{IsSpelled};
ghost use Rattle.std.specs.Prelude.{IfOk};

use crate::shortening::shortened;
use device::Memory;
use fs_parser::Prefixes;
use program::Spelling;
use std::alloc::Global;

/// The text, whose names stand in full in angle brackets, with names in full, or by the prefixes where reading them back gives the
/// name: by the one with the longest IRI, and of several by the first. In a graph names are escaped.
///
/// # Errors
///
/// `Memory` where memory was refused.
pub fn spelled(
    alloc: Global,
    prefixes: &Prefixes,
    text: Vec<u8>,
    spelling: Spelling,
    graph: bool,
) -> Result<Vec<u8>, Memory>
    ensures { IfOk result (λ v. IsSpelled spelling prefixes.now graph text.items v.items) }
{
    match spelling {
        Spelling::Full => Ok(text),
        Spelling::Short => shortened(alloc, prefixes, &text, graph),
    }
}
