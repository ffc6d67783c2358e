//! Whether axioms follow.
ghost use Rattle.axioms.specs.Axiom as tree;
ghost use Rattle.axioms.specs.Fronts.{Extends};
ghost use Rattle.axioms.specs.Ontology.{SubClass, SubProperty, axiom_trees};
ghost use Rattle.axioms.specs.View.{axiom_of};
ghost use Rattle.axioms.specs.WellFormedness.{IsAxiomOf};
ghost use Rattle.engine.specs.Saturations.{IsFinished, IsSound, IsUnasked, as_ended};
ghost use Rattle.entailment.specs.Claims.{IsClaimOf, claimed};
ghost use Rattle.entailment.specs.Entailment.{Entails};
ghost use Rattle.entailment.specs.Parts.{member_count, parts_at, parts_before, parts_of, parts_of_list};
ghost use Rattle.entailment.specs.Testers.{IsReady, IsTold, IsUntoldFor, IsWithinLimit, with_axioms_of};
ghost use Rattle.std.specs.List.{flat_map};
ghost use Rattle.std.specs.Prelude.{◌≡◌, ◌↔◌, ◌++◌, ◌<◌, ◌∷◌, [], All, IfErr, IfOk, List, OnOk, drop, length, map, true};

use crate::claim::Claim;
use crate::fault::TestFault;
use crate::tester::Tester;
use axioms::{Axiom, ExprId, Lengths, Memory, Ontology, PropId};
use engine::Saturation;
use std::alloc::Global;

impl<'a> Tester<'a> {
    /// Whether both claims hold in every finite interpretation of the axioms.
    fn both_follow(&self, first: Claim<'_>, second: Claim<'_>) -> Result<bool, TestFault>
        requires ready { IsReady self.now }
        requires first { IsClaimOf self.now.about.now first }
        requires second { IsClaimOf self.now.about.now second }
        ensures { IsTold self.now.about.now (claimed first.entry ∷ claimed second.entry ∷ []) self.now.max_facts result }
    {
        if self.claim_follows(first)? {
            self.claim_follows(second)
        } else {
            Ok(false)
        }
    }

    /// Whether the two expressions have the same elements.
    fn classes_are_same(&self, first: ExprId, second: ExprId) -> Result<bool, TestFault>
        requires ready { IsReady self.now }
        requires first { first.0 < length self.now.about.now.nodes }
        requires second { second.0 < length self.now.about.now.nodes }
        ensures { IsTold self.now.about.now (SubClass first.0 second.0 ∷ SubClass second.0 first.0 ∷ []) self.now.max_facts result }
    {
        self.both_follow(Claim::Below(first, second), Claim::Below(second, first))
    }

    /// Whether the two properties have the same pairs.
    fn properties_are_same(&self, first: PropId, second: PropId) -> Result<bool, TestFault>
        requires ready { IsReady self.now }
        requires first { first.0 < length self.now.about.now.names.properties }
        requires second { second.0 < length self.now.about.now.names.properties }
        ensures { IsTold self.now.about.now (SubProperty (first.0 ∷ []) second.0 ∷ SubProperty (second.0 ∷ []) first.0 ∷ []) self.now.max_facts result }
    {
        let (from_first, from_second) = ([first], [second]);
        self.both_follow(
            Claim::Path(&from_first, second),
            Claim::Path(&from_second, first),
        )
    }

    /// Whether what an axiom about a list says of the members at the two places follows.
    fn pair_follows(&self, stated: &Axiom, m: usize, n: usize) -> Result<bool, TestFault>
        requires ready { IsReady self.now }
        requires there { IsAxiomOf self.now.about.now (axiom_of stated.now) }
        requires order { m < n }
        requires within { n < member_count (axiom_of stated.now) }
        ensures { IsTold self.now.about.now (parts_at (axiom_of stated.now) m n) self.now.max_facts result }
    {
        match stated {
            Axiom::EquivalentClasses(classes) => {
                let classes = classes.as_slice();
                self.classes_are_same(classes[m], classes[n])
            }
            Axiom::DisjointClasses(classes) => {
                let classes = classes.as_slice();
                self.claim_follows(Claim::Apart(classes[m], classes[n]))
            }
            Axiom::EquivalentProperties(properties) => {
                let properties = properties.as_slice();
                self.properties_are_same(properties[m], properties[n])
            }
            Axiom::SameIndividuals(individuals) => {
                let individuals = individuals.as_slice();
                self.claim_follows(Claim::One(individuals[m], individuals[n]))
            }
            Axiom::DifferentIndividuals(individuals) => {
                let individuals = individuals.as_slice();
                self.claim_follows(Claim::Two(individuals[m], individuals[n]))
            }
            _ => Ok(true),
        }
    }

    /// Whether what it says of the member at the place and of each before it follows.
    fn member_follows(&self, stated: &Axiom, n: usize) -> Result<bool, TestFault>
        requires ready { IsReady self.now }
        requires there { IsAxiomOf self.now.about.now (axiom_of stated.now) }
        requires within { n < member_count (axiom_of stated.now) }
        ensures { IsTold self.now.about.now (parts_before (axiom_of stated.now) n) self.now.max_facts result }
    {
        for m in 0..n {
            if !self.pair_follows(stated, m, n)? {
                return Ok(false);
            }
        }
        Ok(true)
    }

    /// Whether what it says of each two members follows.
    fn list_follows(&self, stated: &Axiom, count: usize) -> Result<bool, TestFault>
        requires ready { IsReady self.now }
        requires there { IsAxiomOf self.now.about.now (axiom_of stated.now) }
        requires count { count ≡ member_count (axiom_of stated.now) }
        ensures { IsTold self.now.about.now (parts_of_list (axiom_of stated.now)) self.now.max_facts result }
    {
        for n in 0..count {
            if !self.member_follows(stated, n)? {
                return Ok(false);
            }
        }
        Ok(true)
    }

    /// Whether the axiom follows.
    fn axiom_follows(&self, stated: &Axiom) -> Result<bool, TestFault>
        requires ready { IsReady self.now }
        requires there { IsAxiomOf self.now.about.now (axiom_of stated.now) }
        ensures { IsTold self.now.about.now (parts_of (axiom_of stated.now)) self.now.max_facts result }
    {
        match stated {
            Axiom::SubClass(sub, sup) => self.claim_follows(Claim::Below(*sub, *sup)),
            Axiom::EquivalentClasses(classes) => self.list_follows(stated, classes.len()),
            Axiom::DisjointClasses(classes) => self.list_follows(stated, classes.len()),
            Axiom::SubProperty(chain, sup) => self.claim_follows(Claim::Path(chain, *sup)),
            Axiom::EquivalentProperties(properties) => self.list_follows(stated, properties.len()),
            Axiom::Domain(property, class) => {
                self.claim_follows(Claim::Sources(*property, *class))
            }
            Axiom::Transitive(property) => {
                let twice = [*property, *property];
                self.claim_follows(Claim::Path(&twice, *property))
            }
            Axiom::Reflexive(property) => self.claim_follows(Claim::Loops(*property)),
            Axiom::ClassAssertion(class, individual) => {
                self.claim_follows(Claim::Member(*class, *individual))
            }
            Axiom::PropertyAssertion(property, source, target) => {
                self.claim_follows(Claim::Joined(*property, *source, *target))
            }
            Axiom::SameIndividuals(individuals) => self.list_follows(stated, individuals.len()),
            Axiom::DifferentIndividuals(individuals) => {
                self.list_follows(stated, individuals.len())
            }
            Axiom::NegativePropertyAssertion(property, source, target) => {
                self.claim_follows(Claim::Unjoined(*property, *source, *target))
            }
        }
    }

    /// Whether each of the axioms follows.
    fn all_follow(&self, axioms: &[Axiom]) -> Result<bool, TestFault>
        requires ready { IsReady self.now }
        requires axioms { All (IsAxiomOf self.now.about.now) (map axiom_of axioms.now) }
        ensures { IsTold self.now.about.now (flat_map parts_of (map axiom_of axioms.now)) self.now.max_facts result }
    {
        for next in axioms {
            if !self.axiom_follows(next)? {
                return Ok(false);
            }
        }
        Ok(true)
    }
}

/// The ontology with the axioms of the known one alone.
fn about(known: &Ontology, stated: &Ontology) -> Result<Ontology, Memory>
    requires { Extends known.now stated.now }
    ensures { IfOk result (λ o. o ≡ with_axioms_of known.now stated.now) }
{
    known.well_formed();
    stated.well_formed();
    let mut about = stated.copy()?;
    let Lengths {
        classes,
        properties,
        individuals,
        expressions,
        ..
    } = stated.lengths();
    about.truncate(Lengths {
        classes,
        properties,
        individuals,
        expressions,
        axioms: known.axioms().len(),
    });
    Ok(about)
}

/// The axioms that are stated behind the known ones.
fn stated_more<'s>(known: &Ontology, stated: &'s Ontology) -> &'s [Axiom]
    requires { Extends known.now stated.now }
    ensures { map axiom_of result.now ≡ drop (length known.now.axioms) stated.now.axioms }
{
    &stated.axioms()[known.axioms().len()..]
}

/// Whether the axioms of the known ontology entail those that the stated one, which has grown from it, has more: each holds in every
/// finite interpretation in which the known axioms hold. Names that the stated one has more may mean anything. The saturation is the
/// known ontology's, run to its end, with nothing asked about; it stays as it is.
///
/// What the axioms say is tested one thing after the other, up to the first that does not follow. An answer is told only where the
/// closure of each test that was made has at most `max_facts` facts.
///
/// # Errors
///
/// `Limit` where the closure of such a test has more facts than `max_facts`; `TooManyNames` where with the individuals of one there
/// would be more than 1,000,000; `Memory` where memory was refused, or there would be 2^32 forms or facts or 2^32 - 1 fresh names of a
/// kind.
pub fn entails(
    alloc: Global,
    saturation: &Saturation,
    known: &Ontology,
    stated: &Ontology,
    max_facts: u32,
) -> Result<bool, TestFault>
    requires sound { IsSound known.now saturation.now }
    requires finished { IsFinished saturation.now }
    requires unasked { IsUnasked (as_ended saturation.now) }
    requires extends { Extends known.now stated.now }
    ensures exact { IfOk result (λ b. (others : List tree.Axiom) → axiom_trees stated.now ≡ axiom_trees known.now ++ others →
        (b ≡ true) ↔ Entails (axiom_trees known.now) others) }
    ensures within { OnOk result (IsWithinLimit known.now stated.now max_facts) }
    ensures fault { IfErr result (IsUntoldFor known.now stated.now max_facts) }
{
    known.well_formed();
    stated.well_formed();
    let about = match about(known, stated) {
        Ok(about) => about,
        Err(_) => return Err(TestFault::Memory),
    };
    let tester = Tester {
        alloc,
        saturation,
        known,
        about: &about,
        max_facts,
    };
    tester.all_follow(stated_more(known, stated))
}
