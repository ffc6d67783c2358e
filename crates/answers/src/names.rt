//! Names in byte order.
ghost use Rattle.answers.specs.Names.{AreMarkedBelow, AreThose, HasMark, HasNumber};
ghost use Rattle.axioms.specs.Ontology.{name_at};
ghost use Rattle.axioms.specs.WellFormedness.{AreDistinct};
ghost use Rattle.std.specs.Prelude.{◌*◌, ◌+◌, ◌<◌, ◌^◌, ◌≡◌, All, Contains, IfOk, length, map, string_bytes};

use axioms::Memory;
use number_sets::Row;
use std::alloc::Global;

/// Adds the names that word `j` of the marks has a mark on, in the order of the names.
fn push_marked<'a>(
    found: &mut Vec<&'a str>,
    names: &'a [String],
    marks: &Row,
    j: usize,
) -> Result<(), Memory>
    requires distinct { AreDistinct (map string_bytes names.now) }
    requires within { (64 * j < length marks.now) × (length marks.now < 2 ^ 64) }
    requires before { AreMarkedBelow (64 * j) (map string_bytes names.now) marks.now (map (λ s. s.now) found.old.items) }
    ensures { IfOk result
        (λ _. AreMarkedBelow (64 * (j + 1)) (map string_bytes names.now) marks.now (map (λ s. s.now) found.new.items)) }
{
    let mut left = marks.words()[j];
    while left != 0 {
        let bit = left.trailing_zeros() as usize;
        if let Some(name) = names.get(64 * j + bit) {
            found.push(name.as_str())?;
        }
        left &= !(1 << bit);
    }
    Ok(())
}

/// The names that are marked, in the order of the names.
fn marked<'a>(alloc: Global, names: &'a [String], marks: &Row) -> Result<Vec<&'a str>, Memory>
    requires { AreDistinct (map string_bytes names.now) }
    ensures { IfOk result
        (λ v. AreMarkedBelow (length names.now) (map string_bytes names.now) marks.now (map (λ s. s.now) v.items)) }
{
    let mut found = Vec::new(alloc);
    let words = marks.words();
    for j in 0..marks.len().div_ceil(64) {
        if words[j] != 0 {
            push_marked(&mut found, names, marks, j)?;
        }
    }
    Ok(found)
}

/// The names that are marked, in byte order.
///
/// # Errors
///
/// `Memory` where memory was refused.
pub fn names_in_order<'a>(
    alloc: Global,
    names: &'a [String],
    marks: &Row,
) -> Result<Vec<&'a str>, Memory>
    requires { AreDistinct (map string_bytes names.now) }
    ensures { IfOk result
        (λ v. AreThose (map string_bytes names.now) (HasMark (map string_bytes names.now) marks.now) (map (λ s. s.now) v.items)) }
{
    let mut found = marked(alloc, names, marks)?;
    found.sort()?;
    Ok(found)
}

/// The names of those numbers, as they come.
fn named<'a>(alloc: Global, names: &'a [String], numbers: &[u32]) -> Result<Vec<&'a str>, Memory>
    requires within { All (λ n. n < length names.now) numbers.now }
    ensures { IfOk result (λ v. map (λ s. s.now) v.items ≡ map (name_at (map string_bytes names.now)) numbers.now) }
{
    let mut found = Vec::new(alloc);
    for n in numbers {
        found.push(names[*n as usize].as_str())?;
    }
    Ok(found)
}

/// The names of those numbers, in byte order.
///
/// # Errors
///
/// `Memory` where memory was refused.
pub(crate) fn names_of<'a>(
    alloc: Global,
    names: &'a [String],
    numbers: &[u32],
) -> Result<Vec<&'a str>, Memory>
    requires distinct { AreDistinct (map string_bytes names.now) }
    requires once { AreDistinct numbers.now }
    requires within { All (λ n. n < length names.now) numbers.now }
    ensures { IfOk result
        (λ v. AreThose (map string_bytes names.now) (HasNumber (map string_bytes names.now) (Contains numbers.now)) (map (λ s. s.now) v.items)) }
{
    let mut named = named(alloc, names, numbers)?;
    named.sort()?;
    Ok(named)
}
