//! Which axioms a listed interpretation satisfies.
ghost use Rattle.axioms.specs.Ontology.{axiom_trees};
ghost use Rattle.axioms.specs.View.{axiom_of, prop_numbers};
ghost use Rattle.axioms.specs.WellFormedness.{IsAxiomOf};
ghost use Rattle.certificate.specs.Writability.{IsListedOf};
ghost use Rattle.certificate.specs.View.{listed_of, pair_row_of};
ghost use Rattle.interpretation_spec.specs.NamedInterpretation.{IsFirstUnsatisfied};
ghost use Rattle.interpretation_spec.specs.Interpretation.{Interpretation, IsInterpretation, IsModel};
ghost use Rattle.listed_model.specs.Interpretations.{SatisfiesListed, listed_interpretation};
ghost use Rattle.listed_model.specs.Listing.{IsListing, element_of, targets_of};
ghost use Rattle.listed_model.specs.Members.{holds};
ghost use Rattle.listed_model.specs.Rows.{ArePairRows, HasListedPath};
ghost use Rattle.listed_model.specs.PropertyTests.{AreShown};
ghost use Rattle.listed_model.specs.Testers.{IsReady};
ghost use Rattle.std.specs.Prelude.{◌≡◌, ◌↔◌, ◌<◌, IfOk, IsNone, IfSome, IsTrue, MatchOption, OnOk, length, map, true, ℕ};

use crate::individual_axioms::{element_at, have_one_element, have_own_elements};
use crate::keeping::kept_of;
use crate::paths::is_chain_within;
use crate::property_axioms::{are_same_properties, is_reflexive, leads_to};
use crate::room::Room;
use crate::shown::{is_closed, lies_within};
use crate::tester::Tester;
use axioms::{Axiom, IndId, Memory, Ontology, PropId};
use certificate::{Listed, PairRow};
use std::alloc::Global;

// Whether each path along the chain is a pair of the property above.
fn is_sub_property(
    alloc: Global,
    rows: &[PairRow],
    room: &mut Room,
    chain: &[PropId],
    above: PropId,
) -> Result<bool, Memory>
    requires rows { ArePairRows rows.now }
    requires shown { AreShown (map pair_row_of rows.now) room.old.shown }
    requires some { 0 < length chain.now }
    ensures len { length room.new.seen ≡ length room.old.seen }
    ensures shown { OnOk result (AreShown (map pair_row_of rows.now) room.new.shown) }
    ensures within { IfOk result (λ within. IsTrue within ↔ ((x y : ℕ) → HasListedPath (map pair_row_of rows.now) (prop_numbers chain.now) x y
        → holds (targets_of (map pair_row_of rows.now) above.0 x) y ≡ true)) }
{
    if chain.len() == 1 {
        return lies_within(rows, &mut room.shown, chain[0], above);
    }
    is_chain_within(alloc, rows, &mut room.seen, chain, above)
}

// Whether the property joins the elements of the individuals.
fn joins(listed: &Listed, property: PropId, source: IndId, target: IndId) -> bool
    requires rows { ArePairRows listed.now.pairs.items }
    requires source { source.0 < length listed.now.individuals.items }
    requires target { target.0 < length listed.now.individuals.items }
    ensures { result ≡ holds (targets_of (listed_of listed.now).pairs property.0 (element_of listed.now.individuals.items source.0)) (element_of listed.now.individuals.items target.0) }
{
    let source = element_at(&listed.individuals, source);
    let target = element_at(&listed.individuals, target);
    leads_to(&listed.pairs, property, source, target)
}

impl Tester<'_> {
    // Whether the axiom holds.
    fn satisfies(&self, room: &mut Room, axiom: &Axiom) -> Result<bool, Memory>
        requires ready { IsReady self.now }
        requires room { length room.old.seen ≡ self.now.listed.now.domain }
        requires shown { AreShown (map pair_row_of self.now.listed.now.pairs.items) room.old.shown }
        requires of { IsAxiomOf self.now.ontology.now (axiom_of «axiom».now) }
        ensures len { length room.new.seen ≡ length room.old.seen }
        ensures shown { OnOk result (AreShown (map pair_row_of self.now.listed.now.pairs.items) room.new.shown) }
        ensures satisfied { IfOk result (λ holds. IsTrue holds ↔ SatisfiesListed self.now.ontology.now (listed_of self.now.listed.now) (axiom_of «axiom».now)) }
    {
        self.ontology.well_formed();
        match axiom {
            Axiom::SubClass(sub, sup) => self.is_within(*sub, *sup),
            Axiom::EquivalentClasses(operands) => self.are_same(operands),
            Axiom::DisjointClasses(operands) => self.are_apart(&mut room.seen, operands),
            Axiom::SubProperty(chain, above) => {
                is_sub_property(self.alloc, &self.listed.pairs, room, chain, *above)
            }
            Axiom::EquivalentProperties(properties) => {
                Ok(are_same_properties(&self.listed.pairs, properties))
            }
            Axiom::Domain(property, class) => self.has_domain(*property, *class),
            Axiom::Transitive(property) => {
                is_closed(self.alloc, &self.listed.pairs, room, *property)
            }
            Axiom::Reflexive(property) => Ok(is_reflexive(
                &self.listed.pairs,
                self.listed.domain,
                *property,
            )),
            Axiom::ClassAssertion(class, individual) => {
                let element = element_at(&self.listed.individuals, *individual);
                self.is_in(*class, element)
            }
            Axiom::PropertyAssertion(property, source, target) => {
                Ok(joins(self.listed, *property, *source, *target))
            }
            Axiom::SameIndividuals(individuals) => {
                Ok(have_one_element(&self.listed.individuals, individuals))
            }
            Axiom::DifferentIndividuals(individuals) => Ok(have_own_elements(
                &self.listed.individuals,
                &mut room.seen,
                individuals,
            )),
            Axiom::NegativePropertyAssertion(property, source, target) => {
                Ok(!joins(self.listed, *property, *source, *target))
            }
        }
    }

    // The least number, from 1, of an axiom that does not hold.
    fn first_failing(&self) -> Result<Option<usize>, Memory>
        requires ready { IsReady self.now }
        ensures model { IfOk result (λ found. IsNone found → IsModel (listed_interpretation self.now.ontology.now (listed_of self.now.listed.now)) (axiom_trees self.now.ontology.now)) }
        ensures first { IfOk result (λ found. IfSome found (IsFirstUnsatisfied self.now.ontology.now (listed_interpretation self.now.ontology.now (listed_of self.now.listed.now)))) }
    {
        self.ontology.well_formed();
        let mut room = Room::new(self.alloc, self.listed.domain as usize)?;
        for (index, axiom) in self.ontology.axioms().iter().enumerate() {
            if !self.satisfies(&mut room, axiom)? {
                return Ok(Some(index + 1));
            }
        }
        Ok(None)
    }
}

/// The least number, from 1, of an axiom that the listed interpretation does not satisfy. It fails where memory is refused, or
/// where there are 2^32 rows of pairs.
pub fn first_unsatisfied(
    alloc: Global,
    ontology: &Ontology,
    listed: &Listed,
) -> Result<Option<usize>, Memory>
    requires { IsListedOf ontology.now (listed_of listed.now) }
    ensures { IfOk result (λ found. (i : Interpretation) × IsListing ontology.now (listed_of listed.now) i × IsInterpretation i
        × MatchOption found (IsModel i (axiom_trees ontology.now)) (IsFirstUnsatisfied ontology.now i)) }
{
    ontology.well_formed();
    let kept = kept_of(alloc, ontology, listed)?;
    let tester = Tester {
        alloc,
        ontology,
        listed,
        kept: &kept,
    };
    tester.first_failing()
}
