//! Axioms on classes, over the elements of expressions. Those of a subclass side that are not kept are listed, and let go with the axiom.
ghost use Rattle.axioms.specs.View.{expr_numbers};
ghost use Rattle.certificate.specs.View.{listed_of};
ghost use Rattle.listed_model.specs.Extensions.{AreAscending};
ghost use Rattle.listed_model.specs.Listing.{targets_of};
ghost use Rattle.listed_model.specs.Members.{holds};
ghost use Rattle.listed_model.specs.Testers.{HasElement, IsReady};
ghost use Rattle.number_sets.specs.Members.{has};
ghost use Rattle.std.specs.List.Sorted.{IsStrictlyIncreasing};
ghost use Rattle.std.specs.Prelude.{◌<◌, ◌≡◌, ◌↔◌, ◌⊎◌, ◌||◌, All, AllPairs, IfOk, IsTrue, length, true, ℕ};

use crate::among::sources_of;
use crate::ascending::are_within;
use crate::sets::{has_one, put_each};
use crate::tester::Tester;
use axioms::{ExprId, Memory, PropId};
use number_sets::EpochSet;

// Whether none of the elements is in the set. Then it has them, too.
fn put_apart(seen: &mut EpochSet, elements: &[u32]) -> bool
    ensures len { length seen.new ≡ length seen.old }
    ensures apart { IsTrue result ↔ ((x : ℕ) → has seen.old x ≡ true → holds elements.now x ≡ true → ⊥) }
    ensures put { IsTrue result → (x : ℕ) → x < length seen.old → has seen.new x ≡ (has seen.old x || holds elements.now x) }
{
    if has_one(seen, elements) {
        return false;
    }
    put_each(seen, elements);
    true
}

impl Tester<'_> {
    /// Whether each of the elements is one of the expression.
    pub(crate) fn are_in(&self, elements: &[u32], expression: ExprId) -> Result<bool, Memory>
        requires ready { IsReady self.now }
        requires there { expression.0 < length self.now.ontology.now.nodes }
        requires elements { AreAscending self.now.listed.now.domain elements.now }
        ensures { IfOk result (λ all. IsTrue all ↔ ((x : ℕ) → holds elements.now x ≡ true → HasElement self.now expression.0 x)) }
    {
        if let Some(list) = self.kept.at(self.listed, expression) {
            return Ok(are_within(elements, list));
        }
        let those = self.those_in(expression, elements)?;
        Ok(those.as_slice() == elements)
    }

    /// Whether the elements of `sub` are elements of `sup`.
    pub(crate) fn is_within(&self, sub: ExprId, sup: ExprId) -> Result<bool, Memory>
        requires ready { IsReady self.now }
        requires sub { sub.0 < length self.now.ontology.now.nodes }
        requires sup { sup.0 < length self.now.ontology.now.nodes }
        ensures { IfOk result (λ within. IsTrue within
            ↔ ((x : ℕ) → HasElement self.now sub.0 x → HasElement self.now sup.0 x)) }
    {
        if let Some(elements) = self.kept.at(self.listed, sub) {
            return self.are_in(elements, sup);
        }
        let elements = self.elements_of(sub)?;
        self.are_in(&elements, sup)
    }

    // Whether the elements are those of the expression.
    fn are_all_of(&self, elements: &[u32], expression: ExprId) -> Result<bool, Memory>
        requires ready { IsReady self.now }
        requires there { expression.0 < length self.now.ontology.now.nodes }
        requires elements { IsStrictlyIncreasing elements.now }
        ensures { IfOk result (λ all. IsTrue all ↔ ((x : ℕ) → (holds elements.now x ≡ true) ↔ HasElement self.now expression.0 x)) }
    {
        if let Some(list) = self.kept.at(self.listed, expression) {
            return Ok(list == elements);
        }
        let others = self.elements_of(expression)?;
        Ok(others.as_slice() == elements)
    }

    /// Whether the operands have the same elements.
    pub(crate) fn are_same(&self, operands: &[ExprId]) -> Result<bool, Memory>
        requires ready { IsReady self.now }
        requires there { All (λ d. d < length self.now.ontology.now.nodes) (expr_numbers operands.now) }
        ensures { IfOk result (λ same. IsTrue same
            ↔ AllPairs (λ d e. (x : ℕ) → HasElement self.now d x ↔ HasElement self.now e x) (expr_numbers operands.now)) }
    {
        let Some(first) = operands.first() else {
            return Ok(true);
        };
        let elements = self.elements_of(*first)?;
        for operand in operands {
            if !self.are_all_of(&elements, *operand)? {
                return Ok(false);
            }
        }
        Ok(true)
    }

    // Whether no element of the expression is in the set. Then it has them, too.
    fn put_apart_of(&self, seen: &mut EpochSet, expression: ExprId) -> Result<bool, Memory>
        requires ready { IsReady self.now }
        requires there { expression.0 < length self.now.ontology.now.nodes }
        ensures len { length seen.new ≡ length seen.old }
        ensures apart { IfOk result (λ apart. IsTrue apart ↔ ((x : ℕ) → has seen.old x ≡ true → HasElement self.now expression.0 x → ⊥)) }
        ensures put { IfOk result (λ apart. IsTrue apart → (x : ℕ) → x < length seen.old
            → (has seen.new x ≡ true) ↔ ((has seen.old x ≡ true) ⊎ HasElement self.now expression.0 x)) }
    {
        if let Some(list) = self.kept.at(self.listed, expression) {
            return Ok(put_apart(seen, list));
        }
        let elements = self.elements_of(expression)?;
        Ok(put_apart(seen, &elements))
    }

    /// Whether no two of the operands have an element in common. The set is room to work in.
    pub(crate) fn are_apart(&self, seen: &mut EpochSet, operands: &[ExprId]) -> Result<bool, Memory>
        requires ready { IsReady self.now }
        requires there { All (λ d. d < length self.now.ontology.now.nodes) (expr_numbers operands.now) }
        requires room { length seen.old ≡ self.now.listed.now.domain }
        ensures len { length seen.new ≡ length seen.old }
        ensures apart { IfOk result (λ apart. IsTrue apart
            ↔ AllPairs (λ d e. (x : ℕ) → HasElement self.now d x → HasElement self.now e x → ⊥) (expr_numbers operands.now)) }
    {
        seen.clear();
        for operand in operands {
            if !self.put_apart_of(seen, *operand)? {
                return Ok(false);
            }
        }
        Ok(true)
    }

    /// Whether each element that the property leads to another from is one of the class.
    pub(crate) fn has_domain(&self, property: PropId, class: ExprId) -> Result<bool, Memory>
        requires ready { IsReady self.now }
        requires there { class.0 < length self.now.ontology.now.nodes }
        ensures { IfOk result (λ all. IsTrue all
            ↔ ((x y : ℕ) → holds (targets_of (listed_of self.now.listed.now).pairs property.0 x) y ≡ true → HasElement self.now class.0 x)) }
    {
        self.ontology.well_formed();
        let sources = sources_of(self.alloc, &self.listed.pairs, property)?;
        self.are_in(&sources, class)
    }

    /// Whether the element is one of the class.
    pub(crate) fn is_in(&self, class: ExprId, element: u32) -> Result<bool, Memory>
        requires ready { IsReady self.now }
        requires there { class.0 < length self.now.ontology.now.nodes }
        requires element { element < self.now.listed.now.domain }
        ensures { IfOk result (λ one. IsTrue one ↔ HasElement self.now class.0 element) }
    {
        self.are_in(&[element], class)
    }
}
