//! The pairs of a property, by source.
ghost use Rattle.std.specs.Prelude.{◌≡◌, ℕ, [], IfOk, OnErr, OnOk, if◌then◌else◌, map, replicate, ◌==◌, ◌<◌, length, ◌||◌};
ghost use Rattle.std.specs.List.{list_any};
ghost use Rattle.std.specs.List.Sorted.{IsStrictlyIncreasing};
ghost use Rattle.interpretation_spec.specs.Fields.{kept_pairs, kept_targets};
ghost use Rattle.interpretation_spec.specs.NumberedInterpretation.{with_number};
ghost use Rattle.number_sets.specs.Members.{has};

use axioms::Memory;
use number_sets::Row;
use std::alloc::{AllocError, Global};
use std::collections::BTreeMap;

/// For each of `count` properties, no pairs.
pub(crate) fn without_pairs(
    alloc: Global,
    count: usize,
) -> Result<Vec<BTreeMap<usize, Vec<usize>>>, AllocError>
    ensures { IfOk result (λ all. (size : ℕ) → map (kept_pairs size) all.items ≡ replicate count (replicate size [])) }
{
    let mut all = Vec::new(alloc);
    for _ in 0..count {
        all.push(BTreeMap::new(alloc))?;
    }
    Ok(all)
}

/// The targets of the source, ascending.
pub(crate) fn targets_in(pairs: &BTreeMap<usize, Vec<usize>>, source: usize) -> &[usize]
    ensures { result.now ≡ kept_targets pairs.now source }
{
    match pairs.get(&source) {
        Some(targets) => targets,
        None => &[],
    }
}

pub(crate) fn put_targets(row: &mut Row, targets: &[usize])
    ensures len { length row.new ≡ length row.old }
    ensures members { (k : ℕ) → k < length row.old → has row.new k ≡ (has row.old k || list_any (λ z. z == k) targets.now) }
{
    for target in targets {
        row.put(*target);
    }
}

/// Whether the source is joined to one of the fillers.
fn is_joined(pairs: &BTreeMap<usize, Vec<usize>>, source: usize, fillers: &Row) -> bool
    ensures { result ≡ list_any (has fillers.now) (kept_targets pairs.now source) }
{
    targets_in(pairs, source)
        .iter()
        .any(|target| fillers.contains(*target))
}

/// The elements below `size` that are joined to one of the fillers.
pub(crate) fn sources_in(
    alloc: Global,
    pairs: &BTreeMap<usize, Vec<usize>>,
    size: usize,
    fillers: &Row,
) -> Result<Row, Memory>
    ensures long { IfOk result (λ row. length row ≡ size) }
    ensures members { IfOk result (λ row. (x : ℕ) → x < size → has row x ≡ list_any (has fillers.now) (kept_targets pairs.now x)) }
{
    let mut sources = Row::new(alloc, size)?;
    for source in 0..size {
        if is_joined(pairs, source, fillers) {
            sources.put(source);
        }
    }
    Ok(sources)
}

/// Adds the target to those of the source.
pub(crate) fn put_target(
    alloc: Global,
    pairs: &mut BTreeMap<usize, Vec<usize>>,
    source: usize,
    target: usize,
) -> Result<(), AllocError>
    requires { IsStrictlyIncreasing (kept_targets pairs.old source) }
    ensures after { OnOk result ((x : ℕ) → kept_targets pairs.new x
        ≡ (if x == source then with_number target (kept_targets pairs.old source) else kept_targets pairs.old x)) }
    ensures same { OnErr result ((x : ℕ) → kept_targets pairs.new x ≡ kept_targets pairs.old x) }
{
    let targets = pairs.entry(source)?.or_insert(Vec::new(alloc));
    insert_ascending(targets, target)
}

/// Adds the number to ascending numbers, where it is not one of them.
fn insert_ascending(numbers: &mut Vec<usize>, number: usize) -> Result<(), AllocError>
    requires { IsStrictlyIncreasing numbers.old.items }
    ensures after { OnOk result (numbers.new.items ≡ with_number number numbers.old.items) }
    ensures same { OnErr result (numbers.new.items ≡ numbers.old.items) }
{
    if let Err(place) = numbers.binary_search(&number) {
        numbers.insert(place, number)?;
    }
    Ok(())
}
