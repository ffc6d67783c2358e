//! Narrowing a listed interpretation.
ghost use Rattle.std.specs.Prelude.{◌<◌, ◌≡◌, ◌^◌, IfOk, length};
ghost use Rattle.certificate.specs.View.{listed_of};
ghost use Rattle.narrowing.specs.Narrowed.{IsNarrowed, narrowed_domain, narrowed_to};

use crate::copies::copy_of;
use crate::elements::used_elements;
use crate::marks::stands_in_each;
use crate::numbering::Places;
use crate::renumbering::renumber;
use axioms::Memory;
use certificate::Listed;
use std::alloc::Global;

// One more element than are used, where the domain has more.
fn domain_of(used: &[u32], domain: u32) -> u32
    requires few { length used.now < 2 ^ 32 }
    ensures { result ≡ narrowed_domain used.now domain }
{
    let count = used.len() as u32;
    if count < domain { count + 1 } else { count }
}

// The interpretation with each element renumbered, and one more where it has more than are used.
fn renumbered(places: Places, listed: Listed) -> Listed
    ensures { listed_of result ≡ narrowed_to places.used.items (listed_of listed) }
{
    let mut listed = listed;
    listed.domain = domain_of(&places.used, listed.domain);
    renumber(&places, &mut listed);
    listed
}

/// The interpretation with only the elements that stand in a line, renumbered in order, and one more where there are others.
///
/// It fails only where memory is refused.
pub fn narrow(alloc: Global, listed: &Listed) -> Result<Listed, Memory>
    ensures { IfOk result (λ narrowed. IsNarrowed (listed_of listed.now) (listed_of narrowed)) }
{
    narrowed(alloc, copy_of(alloc, listed)?)
}

/// The same as [`narrow`] of an interpretation that is let go, which is given back where each of its elements stands in a line.
pub fn narrowed(alloc: Global, listed: Listed) -> Result<Listed, Memory>
    ensures { IfOk result (λ narrowed. IsNarrowed (listed_of listed) (listed_of narrowed)) }
{
    if stands_in_each(alloc, &listed)? {
        return Ok(listed);
    }
    let used = used_elements(alloc, &listed)?;
    if used.len() > u32::MAX as usize {
        return Err(Memory);
    }
    Ok(renumbered(Places { used }, listed))
}
