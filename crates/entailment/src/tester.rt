//! Claims that are tested.
ghost use Rattle.closure.specs.Closure.{Expression, IsRoot};
ghost use Rattle.axioms.specs.Ontology.{axiom_trees, expression, individual_name};
ghost use Rattle.engine.specs.Saturations.{HasMoreFactsThan, IsFinished, IsSaturated, IsSound, IsUnasked, as_ended};
ghost use Rattle.entailment.specs.Claims.{IsClaimOf, claimed};
ghost use Rattle.entailment.specs.FactCounts.{HasNoMoreFactsThan};
ghost use Rattle.entailment.specs.Testers.{IsReady, IsTold, puts};
ghost use Rattle.inference.specs.declared.known_facts.Stop.TheVariants as stops;
ghost use Rattle.interpretation_spec.specs.Interpretation.{IsMember};
ghost use Rattle.normalise.specs.Growth.{Grows};
ghost use Rattle.normalise.specs.Roots.{KeepsNames};
ghost use Rattle.std.specs.Prelude.{◌≡◌, ◌↔◌, ◌<◌, ◌≤◌, ◌∷◌, [], Contains, Err, IfOk, IsTrue, OnOk, length, true};

use crate::claim::Claim;
use crate::fault::TestFault;
use crate::testing::{first_added, test_of, tested};
use axioms::{BuildFault, ExprId, IndId, Ontology};
use classification::is_consistent;
use engine::{Indexed, Saturation, Stop};
use facts::{Context, Fact};
use normal_forms::Class2;
use std::alloc::Global;

/// A saturation of the ontology that has grown by the expression that is asked about, and maybe by more, run to its end.
///
/// # Errors
///
/// `Limit` where the closure has more facts than `max_facts`, and `Memory` where memory was refused, or there would be 2^32 forms or
/// facts or 2^32 - 1 fresh names of a kind.
pub fn saturated_with(
    saturation: &Saturation,
    old: &Ontology,
    new: &Ontology,
    expr: ExprId,
    max_facts: u32,
) -> Result<Saturation, Stop>
    requires sound { IsSound old.now saturation.now }
    requires grows { Grows old.now new.now (length old.now.axioms) }
    requires names { KeepsNames old.now new.now }
    requires there { expr.0 < length new.now.nodes }
    requires finished { IsFinished saturation.now }
    requires unasked { IsUnasked (as_ended saturation.now) }
    ensures sound { IfOk result (IsSound new.now) }
    ensures finished { IfOk result (λ s. IsFinished s) }
    ensures saturated { IfOk result (λ s. IsSaturated new.now (as_ended s)) }
    ensures asked { IfOk result (λ s. s.normal.asked ≡ expr.0 ∷ []) }
    ensures within { IfOk result (λ s. length s.state.facts ≤ max_facts) }
    ensures few { OnOk result (HasNoMoreFactsThan new.now (expr.0 ∷ []) max_facts) }
    ensures limit { result ≡ Err stops.Limit → HasMoreFactsThan new.now (expr.0 ∷ []) max_facts }
{
    let mut asked = saturation.asked(old, new, expr)?;
    match asked.resume(max_facts) {
        Ok(()) => Ok(asked),
        Err(stop) => {
            drop(asked);
            Err(stop)
        }
    }
}

/// Whether some fact puts the individual into the expression.
fn has_fact(indexed: &Indexed<'_>, individual: IndId, class: ExprId) -> bool
    ensures { IsTrue result ↔ Contains indexed.now.saturation.state.facts (puts individual class) }
{
    let wanted = Fact::In(Class2::Expr(class), Context::Individual(individual));
    indexed.find(wanted).is_some()
}

/// Whether in every finite interpretation of the axioms the individual is in the expression, which is asked about.
fn is_member(indexed: &Indexed<'_>, individual: IndId, class: ExprId) -> bool
    requires there { individual.0 < length indexed.now.ontology.names.individuals }
    requires root { IsRoot indexed.now.ontology indexed.now.saturation.normal.asked (Expression class.0) }
    ensures { (result ≡ true) ↔ IsMember (axiom_trees indexed.now.ontology) (individual_name indexed.now.ontology individual.0) (expression indexed.now.ontology class.0) }
{
    indexed.closed().well_formed();
    has_fact(indexed, individual, class) || !is_consistent(indexed)
}

/// What claims are tested by: all that the known axioms lead to, and the ontology that claims are about, which has these axioms.
#[derive(Clone, Copy)]
pub(crate) struct Tester<'a> {
    pub(crate) alloc: Global,
    pub(crate) saturation: &'a Saturation,
    pub(crate) known: &'a Ontology,
    pub(crate) about: &'a Ontology,
    pub(crate) max_facts: u32,
}

impl<'a> Tester<'a> {
    /// Whether in every finite interpretation of the axioms of the test the individual is in the class.
    fn is_tested(&self, test: &Ontology, individual: IndId, class: ExprId) -> Result<bool, Stop>
        requires ready { IsReady self.now }
        requires grows { Grows self.now.known.now test.now (length self.now.known.now.axioms) }
        requires names { KeepsNames self.now.known.now test.now }
        requires individual { individual.0 < length test.now.names.individuals }
        requires class { class.0 < length test.now.nodes }
        ensures exact { IfOk result (λ b. (b ≡ true) ↔ IsMember (axiom_trees test.now) (individual_name test.now individual.0) (expression test.now class.0)) }
        ensures few { OnOk result (HasNoMoreFactsThan test.now (class.0 ∷ []) self.now.max_facts) }
        ensures limit { result ≡ Err stops.Limit → HasMoreFactsThan test.now (class.0 ∷ []) self.now.max_facts }
    {
        let saturation = saturated_with(self.saturation, self.known, test, class, self.max_facts)?;
        let Some(indexed) = saturation.indexed(test) else {
            unreachable!();
        };
        Ok(is_member(&indexed, individual, class))
    }

    /// Whether the claim holds in every finite interpretation of the axioms.
    ///
    /// # Errors
    ///
    /// `Limit` where the closure of its test has more facts than the limit, `TooManyNames` where there would be too many individuals,
    /// `Memory` where memory was refused.
    pub(crate) fn claim_follows(&self, claim: Claim<'_>) -> Result<bool, TestFault>
        requires ready { IsReady self.now }
        requires claim { IsClaimOf self.now.about.now claim }
        ensures { IsTold self.now.about.now (claimed claim.entry ∷ []) self.now.max_facts result }
    {
        let test = match test_of(self.alloc, self.about, claim) {
            Ok(test) => test,
            Err(BuildFault::TooManyNames) => return Err(TestFault::TooManyNames),
            Err(BuildFault::Memory) => return Err(TestFault::Memory),
        };
        self.about.well_formed();
        test.well_formed();
        let (individual, class) = tested(first_added(self.about), claim);
        match self.is_tested(&test, individual, class) {
            Ok(follows) => Ok(follows),
            Err(Stop::Limit) => Err(TestFault::Limit),
            Err(Stop::Memory) => Err(TestFault::Memory),
        }
    }
}
