//! The ontology in which a claim is tested.
ghost use Rattle.axioms.specs.Growth.{most_names};
ghost use Rattle.axioms.specs.View.{prop_numbers};
ghost use Rattle.axioms.specs.WellFormedness.{IsAxiomOf};
ghost use Rattle.axioms.specs.declared.fault.BuildFault.TheVariants as faults;
ghost use Rattle.entailment.specs.Claims.{IsClaimOf};
ghost use Rattle.entailment.specs.Tests.{IsTestOf, added_individuals, assumed, path_from, tested_class, tested_individual, with_axioms};
ghost use Rattle.std.specs.Prelude.{◌≡◌, ◌+◌, ◌<◌, ◌^◌, ◌∷◌, [], All, Err, IfOk, OnOk, length};

use crate::claim::Claim;
use crate::individuals::add_individuals;
use axioms::{Axiom, BuildFault, Builder, ExprId, IndId, Memory, Ontology, PropId};
use std::alloc::Global;

/// How many individuals the test of the claim adds.
fn individuals_for(claim: Claim<'_>) -> usize
    ensures { result ≡ added_individuals claim.entry }
{
    match claim {
        Claim::Below(_, _) | Claim::Apart(_, _) | Claim::Loops(_) => 1,
        Claim::Sources(_, _) => 2,
        Claim::Path(chain, _) => chain.len() + 1,
        _ => 0,
    }
}

/// Which individual is in which class exactly where the claim holds, where the first individual that is added has that number.
pub(crate) fn tested(first: IndId, claim: Claim<'_>) -> (IndId, ExprId)
    ensures individual { result.0.0 ≡ tested_individual first.0 claim.entry }
    ensures class { result.1.0 ≡ tested_class claim.entry }
{
    match claim {
        Claim::Below(_, class) => (first, class),
        Claim::Sources(_, class) => (first, class),
        Claim::Member(class, individual) => (individual, class),
        Claim::Joined(_, individual, _) | Claim::Unjoined(_, individual, _) => {
            (individual, ExprId::NOTHING)
        }
        Claim::One(individual, _) | Claim::Two(individual, _) => (individual, ExprId::NOTHING),
        Claim::Apart(_, _) | Claim::Path(_, _) | Claim::Loops(_) => (first, ExprId::NOTHING),
    }
}

/// Assumes a path along the properties, from that individual on, each step from one number to the next; and tells where it ends.
fn assume_path(builder: &mut Builder, first: IndId, chain: &[PropId]) -> Result<IndId, Memory>
    requires there { All (IsAxiomOf builder.old) (path_from first.0 (prop_numbers chain.now)) }
    requires room { first.0 + length chain.now < 2 ^ 32 }
    ensures end { IfOk result (λ last. last.0 ≡ first.0 + length chain.now) }
    ensures assumed { OnOk result (builder.new ≡ with_axioms builder.old (path_from first.0 (prop_numbers chain.now))) }
{
    let mut source = first;
    for property in chain {
        let IndId(number) = source;
        let target = IndId(number + 1);
        builder.add_axiom(Axiom::PropertyAssertion(*property, source, target))?;
        source = target;
    }
    Ok(source)
}

/// The two individuals.
fn both(alloc: Global, first: IndId, second: IndId) -> Result<Vec<IndId>, Memory>
    ensures { IfOk result (λ v. v.items ≡ first ∷ second ∷ []) }
{
    let mut both = Vec::new(alloc);
    both.push(first)?;
    both.push(second)?;
    Ok(both)
}

/// Adds what is assumed for the claim, where the first individual that is added has that number.
fn assume(
    alloc: Global,
    builder: &mut Builder,
    first: IndId,
    claim: Claim<'_>,
) -> Result<(), Memory>
    requires there { All (IsAxiomOf builder.old) (assumed first.0 claim) }
    requires room { first.0 + added_individuals claim < 2 ^ 32 }
    ensures { OnOk result (builder.new ≡ with_axioms builder.old (assumed first.0 claim.entry)) }
{
    match claim {
        Claim::Below(class, _) => builder.add_axiom(Axiom::ClassAssertion(class, first)),
        Claim::Apart(class, other) => {
            builder.add_axiom(Axiom::ClassAssertion(class, first))?;
            builder.add_axiom(Axiom::ClassAssertion(other, first))
        }
        Claim::Sources(property, _) => {
            let IndId(number) = first;
            builder.add_axiom(Axiom::PropertyAssertion(property, first, IndId(number + 1)))
        }
        Claim::Path(chain, property) => {
            let last = assume_path(builder, first, chain)?;
            builder.add_axiom(Axiom::NegativePropertyAssertion(property, first, last))
        }
        Claim::Loops(property) => {
            builder.add_axiom(Axiom::NegativePropertyAssertion(property, first, first))
        }
        Claim::Member(_, _) => Ok(()),
        Claim::Joined(property, source, target) => {
            builder.add_axiom(Axiom::NegativePropertyAssertion(property, source, target))
        }
        Claim::Unjoined(property, source, target) => {
            builder.add_axiom(Axiom::PropertyAssertion(property, source, target))
        }
        Claim::One(first, second) => {
            let both = both(alloc, first, second)?;
            builder.add_axiom(Axiom::DifferentIndividuals(both))
        }
        Claim::Two(first, second) => {
            let both = both(alloc, first, second)?;
            builder.add_axiom(Axiom::SameIndividuals(both))
        }
    }
}

/// The number of the first individual that a test adds.
pub(crate) fn first_added(ontology: &Ontology) -> IndId
    ensures { result.0 ≡ length ontology.now.names.individuals }
{
    ontology.bounded();
    IndId(ontology.individuals().len() as u32)
}

/// The ontology in which the claim is tested.
///
/// # Errors
///
/// `TooManyNames` where with the individuals that are added there would be more than there may be, and `Memory` where memory was
/// refused.
pub(crate) fn test_of(
    alloc: Global,
    ontology: &Ontology,
    claim: Claim<'_>,
) -> Result<Ontology, BuildFault>
    requires { IsClaimOf ontology.now claim }
    ensures test { IfOk result (IsTestOf ontology.now claim.entry) }
    ensures full { result ≡ Err faults.TooManyNames → most_names < length ontology.now.names.individuals + added_individuals claim.entry }
{
    let mut builder = Builder::from(ontology.copy()?);
    add_individuals(alloc, &mut builder, individuals_for(claim))?;
    builder.ontology().bounded();
    assume(alloc, &mut builder, first_added(ontology), claim)?;
    Ok(builder.finish())
}
