//! Whether a closure is without contradiction.
ghost use Rattle.classification.specs.Contradiction.{NoIndividualIsImpossible, in_nothing};
ghost use Rattle.exactness.specs.ListedInterpretation.{IsConsistent};
ghost use Rattle.std.specs.Prelude.{◌↔◌, ◌≤◌, ◌^◌, Contains, IsTrue};

use axioms::{ExprId, IndId};
use engine::{Closed, Indexed};
use explain::first_contradiction;
use facts::{Context, Fact};
use normal_forms::Class2;

/// Whether some fact puts the context into `owl:Nothing`.
fn is_in_nothing(indexed: &Indexed<'_>, context: Context) -> bool
    ensures { IsTrue result ↔ Contains indexed.now.saturation.state.facts (in_nothing context) }
{
    let wanted = Fact::In(Class2::Expr(ExprId::NOTHING), context);
    indexed.find(wanted).is_some()
}

/// Whether no fact puts one of so many individuals into `owl:Nothing`.
fn has_no_impossible_individual(indexed: &Indexed<'_>, individuals: usize) -> bool
    requires { individuals ≤ 2 ^ 32 }
    ensures { IsTrue result ↔ NoIndividualIsImpossible individuals indexed.now.saturation.state.facts }
{
    for number in 0..individuals {
        if is_in_nothing(indexed, Context::Individual(IndId(number as u32))) {
            return false;
        }
    }
    true
}

/// Whether the closure puts neither all things nor an individual in `owl:Nothing`: each such fact is looked for.
pub fn is_consistent(indexed: &Indexed<'_>) -> bool
    ensures { IsTrue result ↔ IsConsistent indexed.now.ontology indexed.now.saturation.normal.asked }
{
    let closed = indexed.closed();
    closed.well_formed();
    let ontology = closed.ontology();
    ontology.bounded();
    !is_in_nothing(indexed, Context::Expr(ExprId::THING))
        && has_no_impossible_individual(indexed, ontology.individuals().len())
}

/// Whether the closure puts neither all things nor an individual in `owl:Nothing`: it goes over all facts.
pub(crate) fn has_no_contradiction(closed: &Closed<'_>) -> bool
    ensures { IsTrue result ↔ IsConsistent closed.now.ontology closed.now.saturation.normal.asked }
{
    closed.well_formed();
    first_contradiction(closed.ontology(), closed.facts()).is_none()
}
