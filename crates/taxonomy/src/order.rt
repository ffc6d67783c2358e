//! Class numbers in the byte order of the names.
ghost use Rattle.taxonomy.specs.Texts.{by_name, in_byte_order, sorted};
ghost use Rattle.std.specs.List.{All, range_with_len};
ghost use Rattle.std.specs.Prelude.{◌≡◌, IfOk, OnOk, map, length};
ghost use Rattle.std.specs.String.{string_bytes};
ghost use Rattle.axioms.specs.Ontology.{name_at};

use crate::names::name_of;
use axioms::Memory;
use std::alloc::Global;

/// Each name with its number.
fn numbered(alloc: Global, names: &[String]) -> Result<Vec<(&str, usize)>, Memory>
    ensures { IfOk result
        (λ v. (map (λ p. p.1) v.items ≡ range_with_len 0 (length names.now))
        × All (λ p. p.0.now ≡ name_at (map string_bytes names.now) p.1) v.items) }
{
    let mut pairs = Vec::with_capacity(alloc, names.len())?;
    for (i, name) in names.iter().enumerate() {
        pairs.push((name.as_str(), i))?;
    }
    Ok(pairs)
}

/// Puts these numbers, each behind its name, in place of the pairs.
fn put_named<'a>(
    pairs: &mut Vec<(&'a str, usize)>,
    names: &'a [String],
    numbers: &[u32],
) -> Result<(), Memory>
    ensures numbers { OnOk result (map (λ p. p.1) pairs.new.items ≡ numbers.now) }
    ensures names { OnOk result (All (λ p. p.0.now ≡ name_at (map string_bytes names.now) p.1) pairs.new.items) }
{
    pairs.clear();
    for n in numbers {
        let n = *n as usize;
        pairs.push((name_of(names, n), n))?;
    }
    Ok(())
}

/// Puts the numbers of the pairs in place of the numbers.
fn put_numbers(numbers: &mut Vec<usize>, pairs: &[(&str, usize)]) -> Result<(), Memory>
    ensures { OnOk result (numbers.new.items ≡ map (λ p. p.1) pairs.now) }
{
    numbers.clear();
    for pair in pairs {
        numbers.push(pair.1)?;
    }
    Ok(())
}

fn numbers(alloc: Global, pairs: &[(&str, usize)]) -> Result<Vec<usize>, Memory>
    ensures { IfOk result (λ v. v.items ≡ map (λ p. p.1) pairs.now) }
{
    Ok(pairs.iter().map(|p| p.1).collect(alloc)?)
}

/// The numbers of the names, in the byte order of these.
///
/// # Errors
///
/// `Memory` where memory was refused.
pub fn in_byte_order(alloc: Global, names: &[String]) -> Result<Vec<usize>, Memory>
    ensures { IfOk result (λ v. v.items ≡ in_byte_order (map string_bytes names.now)) }
{
    let mut pairs = numbered(alloc, names)?;
    pairs.sort()?;
    numbers(alloc, &pairs)
}

/// Puts these class numbers, in the byte order of their names, in place of those that stand there. The pairs are room for this.
pub(crate) fn put_sorted_by_name<'a>(
    ordered: &mut Vec<usize>,
    pairs: &mut Vec<(&'a str, usize)>,
    names: &'a [String],
    numbers: &[u32],
) -> Result<(), Memory>
    ensures { OnOk result (ordered.new.items ≡ sorted (by_name (map string_bytes names.now)) numbers.now) }
{
    put_named(pairs, names, numbers)?;
    pairs.sort_unstable();
    put_numbers(ordered, pairs)
}
