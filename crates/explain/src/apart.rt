//! What lists of what is apart led to.
ghost use Rattle.axioms.specs.declared.ids.IndId.{IndId as Ind};
ghost use Rattle.cert_check.specs.Derivation.{IsDerivation};
ghost use Rattle.explain.specs.Conditions.{by_different, by_disjoint};
ghost use Rattle.explain.specs.LinesOfFacts.{Lengthens, ShowsFact};
ghost use Rattle.explain.specs.NextFact.{IsNext, ShowsNext};
ghost use Rattle.explain.specs.Sameness.{HasNoneBehind, LeadBehind};
ghost use Rattle.explain.specs.Uses.{IsAmong, IsBornBy, Uses};
ghost use Rattle.facts.specs.Births.{reason};
ghost use Rattle.facts.specs.declared.contexts.Context.TheVariants.{Individual};
ghost use Rattle.facts.specs.declared.contexts.Fact.TheVariants.{In};
ghost use Rattle.normal_forms.specs.Forms.{AtOrderedPlaces};
ghost use Rattle.normal_forms.specs.declared.forms.Class2.{Class2};
ghost use Rattle.std.specs.Prelude.{◌↔◌, ◌≡◌, ◌<◌, [], Contains, IfOk, MatchOption, OnOk, Some, length};

use crate::basis::Basis;
use crate::between::chain_to_one;
use crate::derivation::Derivation;
use crate::line::{concluded, fact_of};
use crate::lines_by_fact::LineNumbers;
use crate::next_fact::NextFact;
use crate::same::same_along;
use crate::sink::LineSink;
use axioms::{IndId, Memory};
use certificate::Rule;
use facts::{Context, Fact, FactId, Older};
use smallvec::SmallVec;

/// What two classes led to that have nothing in common: adds the line of the fact, and gives its number. `list` is the number of a list
/// that has the two.
///
/// # Errors
///
/// `Memory` where memory was refused.
pub(crate) fn shown_by_disjoint<L: LineSink>(
    basis: &Basis<'_>,
    derivation: &mut Derivation<L>,
    next: &NextFact<'_>,
    list: u32,
) -> Result<LineNumbers, Memory>
    requires next { IsNext basis.now.closed.now.ontology basis.now.closed.now.saturation derivation.old next.now.shown.now next.now.fact.0 (reason next.now.birth.now) }
    requires list { (reason next.now.birth.now).form ≡ Some list }
    requires disjoint { (reason next.now.birth.now).condition ≡ by_disjoint }
    ensures { IfOk result (λ numbers. ShowsNext basis.now.closed.now.ontology basis.now.closed.now.saturation next.now.shown.now next.now.fact.0 derivation.old derivation.new numbers.items) }
{
    basis.closed.well_formed();
    let Older::Two(first, second) = next.birth.older() else {
        // Two facts are taken.
        unreachable!()
    };
    let mut numbers = next.shown.at(basis.alloc, first.0 as usize)?;
    let more = next.shown.at(basis.alloc, second.0 as usize)?;
    numbers.extend_from_slice(more.as_slice())?;
    let fact = fact_of(basis.closed, next.fact);
    let axiom = basis.closed.normal().disjoint_axiom(list as usize);
    let numbers = concluded(derivation, fact, Rule::K7, axiom, numbers)?;
    Ok(numbers)
}

// The members of the list behind the individual.
fn behind(members: &[IndId], individual: IndId) -> &[IndId]
    ensures { (other : Ind) → Contains result.now other ↔ AtOrderedPlaces members.now individual other }
{
    for place in 0..members.len() {
        if members[place] == individual {
            return &members[place + 1..];
        }
    }
    &[]
}

// The numbers of forms that make the individual one with another that stands behind it in the list of that number, the first that is one
// with it; `None` where none is.
fn chain_to_another(
    basis: &Basis<'_>,
    list: u32,
    individual: IndId,
) -> Result<Option<Vec<u32>>, Memory>
    requires there { individual.0 < length basis.now.closed.now.ontology.names.individuals }
    ensures { IfOk result (λ found. MatchOption found (HasNoneBehind basis.now.closed.now.saturation list individual) (λ v. LeadBehind basis.now.closed.now.saturation list individual v.items)) }
{
    basis.closed.well_formed();
    let ontology = basis.closed.ontology();
    ontology.bounded();
    let problem = basis.closed.problem();
    let others = behind(problem.apart().individuals.at(list as usize), individual);
    let individuals = ontology.individuals().len();
    chain_to_one(basis.alloc, individuals, problem, individual, others)
}

// The individual that the fact puts into a class, if it does.
fn individual_of(fact: Fact) -> Option<IndId>
    ensures { MatchOption result ((class : Class2) (individual : Ind) → fact ≡ In class (Individual individual) → ⊥) (λ individual. (class : Class2) × (fact ≡ In class (Individual individual))) }
{
    match fact {
        Fact::In(_, Context::Individual(individual)) => Some(individual),
        _ => None,
    }
}

/// What two individuals led to that differ and are one: adds the line of the fact, and gives its number. `list` is the number of a
/// list that has the two. The other one is the first behind the individual that the fact speaks of.
///
/// # Errors
///
/// `Memory` where memory was refused.
pub(crate) fn shown_by_different<L: LineSink>(
    basis: &Basis<'_>,
    derivation: &mut Derivation<L>,
    fact: FactId,
    list: u32,
) -> Result<LineNumbers, Memory>
    requires there { fact.0 < length basis.now.closed.now.saturation.state.facts }
    requires derivation { IsDerivation basis.now.closed.now.ontology derivation.old }
    requires born { IsBornBy basis.now.closed.now.saturation fact.0 by_different list }
    ensures derivation { OnOk result (IsDerivation basis.now.closed.now.ontology derivation.new) }
    ensures longer { OnOk result (Lengthens derivation.old derivation.new) }
    ensures shown { IfOk result (λ numbers. ShowsFact basis.now.closed.now.saturation derivation.new fact.0 numbers.items) }
    ensures used { IfOk result (λ numbers. Uses derivation.old derivation.new (IsAmong []) numbers.items) }
{
    basis.closed.well_formed();
    let fact = fact_of(basis.closed, fact);
    let Some(individual) = individual_of(fact) else {
        // An individual is in owl:Nothing.
        unreachable!()
    };
    let found = chain_to_another(basis, list, individual)?;
    let Some(chain) = found else {
        // It is one with another.
        unreachable!()
    };
    let number = same_along(basis, derivation, individual, &chain)?;
    let mut numbers = SmallVec::new(basis.alloc);
    numbers.push(number)?;
    let axiom = basis.closed.normal().different_axiom(list as usize);
    let numbers = concluded(derivation, fact, Rule::K20, axiom, numbers)?;
    Ok(numbers)
}
