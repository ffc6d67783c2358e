//! Lists of elements in ascending order.
ghost use Rattle.certificate.specs.Writability.{Ascends};
ghost use Rattle.std.specs.Prelude.{◌↔◌, Contains, IfOk, ℕ};

use axioms::Memory;
use number_sets::sort_ascending;
use std::alloc::Global;

/// The numbers of the list in ascending order, each once.
pub(crate) fn ascending(alloc: Global, list: &[u32]) -> Result<Vec<u32>, Memory>
    ensures ascends { IfOk result (λ v. Ascends v.items) }
    ensures same { IfOk result (λ v. (n : ℕ) → Contains v.items n ↔ Contains list.now n) }
{
    let mut numbers = Vec::with_capacity(alloc, list.len())?;
    numbers.extend_from_slice(list)?;
    sort_ascending(&mut numbers);
    Ok(numbers)
}
