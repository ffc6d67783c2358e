//! Individuals that were not there before.
ghost use Rattle.axioms.specs.Expression.{Iri};
ghost use Rattle.axioms.specs.Growth.{most_names};
ghost use Rattle.axioms.specs.declared.fault.BuildFault.TheVariants as faults;
ghost use Rattle.entailment.specs.Tests.{with_individuals};
ghost use Rattle.std.specs.Prelude.{◌≡◌, ◌+◌, ◌<◌, ◌≤◌, ◌∷◌, [], All, Contains, Err, IfOk, List, OnOk, length, map, string_bytes};

use axioms::{BuildFault, Builder, Kind, Memory};
use std::alloc::Global;

/// How long the longest of the names is.
fn longest(names: &[String]) -> usize
    ensures { All (λ name. length name ≤ result) (map string_bytes names.now) }
{
    let mut longest = 0;
    for name in names {
        if name.len() > longest {
            longest = name.len();
        }
    }
    longest
}

/// So many letters.
fn letters(alloc: Global, count: usize) -> Result<String, Memory>
    ensures { IfOk result (λ text. length (string_bytes text) ≡ count) }
{
    let mut text = String::new(alloc);
    while text.len() < count {
        text.push_str("x")?;
    }
    Ok(text)
}

/// A name that is none of these: it is longer.
fn other_name(alloc: Global, names: &[String]) -> Result<String, Memory>
    ensures { IfOk result (λ name. Contains (map string_bytes names.now) (string_bytes name) → ⊥) }
{
    let mut name = letters(alloc, longest(names))?;
    name.push_str("x")?;
    Ok(name)
}

/// Adds an individual that was not there before.
///
/// # Errors
///
/// `TooManyNames` where there are as many individuals as there may be, and `Memory` where memory was refused.
fn add_individual(alloc: Global, builder: &mut Builder) -> Result<(), BuildFault>
    ensures added { OnOk result ((name : Iri) × (builder.new ≡ with_individuals builder.old (name ∷ []))) }
    ensures full { result ≡ Err faults.TooManyNames → most_names ≤ length builder.old.names.individuals }
{
    let name = other_name(alloc, builder.ontology().individuals())?;
    match builder.declare(Kind::Individual, &name) {
        Ok(_) => Ok(()),
        Err(fault) => Err(fault),
    }
}

/// Adds so many individuals that were not there before.
///
/// # Errors
///
/// `TooManyNames` where there would be more individuals than there may be, and `Memory` where memory was refused.
pub(crate) fn add_individuals(
    alloc: Global,
    builder: &mut Builder,
    count: usize,
) -> Result<(), BuildFault>
    ensures added { OnOk result ((names : List Iri) × (length names ≡ count) × (builder.new ≡ with_individuals builder.old names)) }
    ensures full { result ≡ Err faults.TooManyNames → most_names < length builder.old.names.individuals + count }
{
    for number in 0..count {
        add_individual(alloc, builder)?;
    }
    Ok(())
}
