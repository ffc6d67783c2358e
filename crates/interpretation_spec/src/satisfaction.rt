//! Which axioms hold.
ghost use Rattle.std.specs.Prelude.{◌≡◌, ℕ, ◌<◌, ◌↔◌, IfOk, IsNone, IfSome, IsTrue, length, AllPairs, All, true};
ghost use Rattle.axioms.specs.Ontology.{DisjointClasses, EquivalentClasses, SubClass, axiom_trees};
ghost use Rattle.axioms.specs.View.{axiom_of, expr_numbers, ind_numbers, prop_numbers};
ghost use Rattle.axioms.specs.WellFormedness.{IsAxiomOf};
ghost use Rattle.interpretation_spec.specs.NamedInterpretation.{HasNumberedPath, IsFirstUnsatisfied, IsNumberedSubProperty, IsTargetOfSome, SatisfiesNumbered, interpretation_of, is_target};
ghost use Rattle.interpretation_spec.specs.Interpretation.{IsModel};
ghost use Rattle.interpretation_spec.specs.NumberedInterpretation.{HaveOneElement, HaveSameTargets, HaveTwoElements, IsMadeFor, element_of};
ghost use Rattle.number_sets.specs.Members.{has};

use crate::interpretation::Interpretation;
use crate::pairs::put_targets;
use axioms::{Axiom, ExprId, IndId, Memory, Ontology, PropId};
use number_sets::Row;

impl Interpretation {
    /// The least number, from 1, of an axiom that does not hold, of the ontology that this was made for.
    pub fn first_unsatisfied(&self, ontology: &Ontology) -> Result<Option<usize>, Memory>
        requires { IsMadeFor ontology.now.names self.now }
        ensures model { IfOk result (λ found. IsNone found → IsModel (interpretation_of ontology.now.names self.now) (axiom_trees ontology.now)) }
        ensures first { IfOk result (λ found. IfSome found (IsFirstUnsatisfied ontology.now (interpretation_of ontology.now.names self.now))) }
    {
        ontology.well_formed();
        self.well_formed();
        for (index, axiom) in ontology.axioms().iter().enumerate() {
            if !self.satisfies(ontology, axiom)? {
                return Ok(Some(index + 1));
            }
        }
        Ok(None)
    }

    /// Whether the axiom holds (OWL 2 Direct Semantics, section 2.3), which is over names and expressions of the ontology
    /// that this was made for.
    pub fn satisfies(&self, ontology: &Ontology, axiom: &Axiom) -> Result<bool, Memory>
        requires made_for { IsMadeFor ontology.now.names self.now }
        requires of { IsAxiomOf ontology.now (axiom_of «axiom».now) }
        ensures { IfOk result (λ holds. IsTrue holds ↔ SatisfiesNumbered ontology.now self.now (axiom_of «axiom».now)) }
    {
        ontology.well_formed();
        self.well_formed();
        match axiom {
            Axiom::SubClass(sub, sup) => self.is_within(ontology, *sub, *sup),
            Axiom::EquivalentClasses(operands) => self.are_same(ontology, operands),
            Axiom::DisjointClasses(operands) => self.are_apart(ontology, operands),
            Axiom::SubProperty(chain, sup) => self.is_sub_property(chain, *sup),
            Axiom::EquivalentProperties(properties) => Ok(self.are_same_properties(properties)),
            Axiom::Domain(property, class) => {
                let members = self.extension(ontology, *class)?;
                Ok(self.has_sources_in(*property, &members))
            }
            Axiom::Transitive(property) => self.is_sub_property(&[*property, *property], *property),
            Axiom::Reflexive(property) => Ok(self.is_reflexive(*property)),
            Axiom::ClassAssertion(class, individual) => {
                let members = self.extension(ontology, *class)?;
                Ok(members.contains(self.element_at(*individual)))
            }
            Axiom::PropertyAssertion(property, source, target) => {
                Ok(self.joins(*property, *source, *target))
            }
            Axiom::SameIndividuals(individuals) => Ok(self.have_one_element(individuals)),
            Axiom::DifferentIndividuals(individuals) => self.have_own_elements(individuals),
            Axiom::NegativePropertyAssertion(property, source, target) => {
                Ok(!self.joins(*property, *source, *target))
            }
        }
    }

    /// Whether the elements of `sub` are elements of `sup`.
    fn is_within(&self, ontology: &Ontology, sub: ExprId, sup: ExprId) -> Result<bool, Memory>
        requires made_for { IsMadeFor ontology.now.names self.now }
        requires sub_there { sub.0 < length ontology.now.nodes }
        requires super_there { sup.0 < length ontology.now.nodes }
        ensures { IfOk result (λ holds. IsTrue holds ↔ SatisfiesNumbered ontology.now self.now (SubClass sub.0 sup.0)) }
    {
        let sub = self.extension(ontology, sub)?;
        let sup = self.extension(ontology, sup)?;
        Ok(sub.is_subset(&sup))
    }

    /// Whether the operands have the same elements.
    fn are_same(&self, ontology: &Ontology, operands: &[ExprId]) -> Result<bool, Memory>
        requires made_for { IsMadeFor ontology.now.names self.now }
        requires there { All (λ e. e < length ontology.now.nodes) (expr_numbers operands.now) }
        ensures { IfOk result (λ holds. IsTrue holds ↔ SatisfiesNumbered ontology.now self.now (EquivalentClasses (expr_numbers operands.now))) }
    {
        let Some(first) = operands.first() else {
            return Ok(true);
        };
        let first = self.extension(ontology, *first)?;
        for operand in operands {
            let members = self.extension(ontology, *operand)?;
            if !first.is_subset(&members) {
                return Ok(false);
            }
            if !members.is_subset(&first) {
                return Ok(false);
            }
        }
        Ok(true)
    }

    /// Whether no two of the operands have an element in common.
    fn are_apart(&self, ontology: &Ontology, operands: &[ExprId]) -> Result<bool, Memory>
        requires made_for { IsMadeFor ontology.now.names self.now }
        requires there { All (λ e. e < length ontology.now.nodes) (expr_numbers operands.now) }
        ensures { IfOk result (λ holds. IsTrue holds ↔ SatisfiesNumbered ontology.now self.now (DisjointClasses (expr_numbers operands.now))) }
    {
        let mut seen = Row::new(self.alloc, self.size())?;
        for operand in operands {
            let members = self.extension(ontology, *operand)?;
            if !members.is_disjoint(&seen) {
                return Ok(false);
            }
            seen.union(&members);
        }
        Ok(true)
    }

    /// Whether the property joins the elements of the individuals.
    fn joins(&self, property: PropId, source: IndId, target: IndId) -> bool
        ensures { result ≡ is_target self.now property.0 (element_of self.now source.0) (element_of self.now target.0) }
    {
        let target = self.element_at(target);
        self.targets_at(property, self.element_at(source))
            .contains(&target)
    }

    /// Whether the individuals have one element.
    fn have_one_element(&self, individuals: &[IndId]) -> bool
        ensures { IsTrue result ↔ AllPairs (HaveOneElement self.now) (ind_numbers individuals.now) }
    {
        let Some(first) = individuals.first() else {
            return true;
        };
        let element = self.element_at(*first);
        for individual in individuals {
            if self.element_at(*individual) != element {
                return false;
            }
        }
        true
    }

    /// Whether each of the individuals has an element that none of the others has.
    fn have_own_elements(&self, individuals: &[IndId]) -> Result<bool, Memory>
        ensures { IfOk result (λ holds. IsTrue holds ↔ AllPairs (HaveTwoElements self.now) (ind_numbers individuals.now)) }
    {
        let mut met = Row::new(self.alloc, self.size())?;
        for individual in individuals {
            let element = self.element_at(*individual);
            if met.contains(element) {
                return Ok(false);
            }
            met.put(element);
        }
        Ok(true)
    }

    /// Whether the property joins each element to itself.
    fn is_reflexive(&self, property: PropId) -> bool
        ensures { IsTrue result ↔ ((x : ℕ) → x < self.now.size → is_target self.now property.0 x x ≡ true) }
    {
        for element in 0..self.size() {
            if !self.targets_at(property, element).contains(&element) {
                return false;
            }
        }
        true
    }

    /// Whether each element that the property joins to another is in the row.
    fn has_sources_in(&self, property: PropId, row: &Row) -> bool
        ensures { IsTrue result ↔ ((x : ℕ) → x < self.now.size → (y : ℕ) → is_target self.now property.0 x y ≡ true → has row.now x ≡ true) }
    {
        for source in 0..self.size() {
            if !self.targets_at(property, source).is_empty() && !row.contains(source) {
                return false;
            }
        }
        true
    }

    /// Whether the properties join the same elements.
    fn are_same_properties(&self, properties: &[PropId]) -> bool
        ensures { IsTrue result ↔ AllPairs (HaveSameTargets self.now) (prop_numbers properties.now) }
    {
        let Some(first) = properties.first() else {
            return true;
        };
        for property in properties {
            if !self.have_same_targets(*first, *property) {
                return false;
            }
        }
        true
    }

    /// Whether the two properties join the same elements.
    fn have_same_targets(&self, first: PropId, second: PropId) -> bool
        ensures { IsTrue result ↔ HaveSameTargets self.now first.0 second.0 }
    {
        for source in 0..self.size() {
            if self.targets_at(first, source) != self.targets_at(second, source) {
                return false;
            }
        }
        true
    }

    /// Whether each path along the chain is a pair of the property.
    fn is_sub_property(&self, chain: &[PropId], property: PropId) -> Result<bool, Memory>
        ensures { IfOk result (λ holds. IsTrue holds ↔ IsNumberedSubProperty self.now (prop_numbers chain.now) property.0) }
    {
        for source in 0..self.size() {
            let reached = self.reached(chain, source)?;
            let mut targets = Row::new(self.alloc, self.size())?;
            put_targets(&mut targets, self.targets_at(property, source));
            if !reached.is_subset(&targets) {
                return Ok(false);
            }
        }
        Ok(true)
    }

    /// The ends of the paths along the chain from the source.
    fn reached(&self, chain: &[PropId], source: usize) -> Result<Row, Memory>
        requires source_there { source < self.now.size }
        ensures long { IfOk result (λ row. length row ≡ self.now.size) }
        ensures members { IfOk result (λ row. (y : ℕ) → y < self.now.size → (has row y ≡ true) ↔ HasNumberedPath self.now (prop_numbers chain.now) source y) }
    {
        let mut reached = Row::new(self.alloc, self.size())?;
        reached.put(source);
        for property in chain {
            reached = self.successors(*property, &reached)?;
        }
        Ok(reached)
    }

    /// The elements that the property joins one of the sources to.
    fn successors(&self, property: PropId, sources: &Row) -> Result<Row, Memory>
        ensures long { IfOk result (λ row. length row ≡ self.now.size) }
        ensures members { IfOk result (λ row. (y : ℕ) → y < self.now.size → (has row y ≡ true) ↔ IsTargetOfSome self.now property.0 sources.now y) }
    {
        let mut successors = Row::new(self.alloc, self.size())?;
        for source in 0..self.size() {
            if sources.contains(source) {
                put_targets(&mut successors, self.targets_at(property, source));
            }
        }
        Ok(successors)
    }
}
