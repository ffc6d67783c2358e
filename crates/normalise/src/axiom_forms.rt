//! The forms of axioms.
ghost use Rattle.std.specs.Prelude.{◌≡◌, ℕ, ◌+◌, ◌<◌, ◌≤◌, OnOk, length, map, slice_get, Some};
ghost use Rattle.axioms.specs.Ontology.{Axiom as Stated, SubProperty};
ghost use Rattle.axioms.specs.View.{axiom_of, expr_numbers, ind_numbers, prop_numbers};
ghost use Rattle.axioms.specs.WellFormedness.{AreDistinct};
ghost use Rattle.normal_forms.specs.declared.forms.Origin.TheVariants as origins;
ghost use Rattle.normal_forms.specs.Forms.{N5, N10};
ghost use Rattle.normal_forms.specs.Origins.{AxiomGives, CircleGives, NextGives, PairGives, disjoint, subsumed};
ghost use Rattle.normalise.specs.FreshNames.{prefixes_of, chain_prefixes};
ghost use Rattle.normalise.specs.Steps.{NameMoreChains, NumbersBehind, OperandsDiffer, StatedFrom};
ghost use Rattle.normalise.specs.View.{Adds, From};

use crate::lists::{expr_at, individual_at, next_in_circle, prop_at};
use crate::made::Made;
use axioms::{Axiom, ExprId, IndId, Memory, PropId};
use normal_forms::{Class2, Form, Origin, PropId2};

// From so many classes on, they are one list, and memory goes by the classes. Fewer have a form for each two: those are found in the index
// of forms, which costs less than to find a pair by the lists that its classes are in.
const MANY_CLASSES: usize = 8;

impl Made {
    // The k-th class of a circle is below the next.
    fn circle_step(&mut self, classes: &[ExprId], k: usize, origin: Origin) -> Result<(), Memory>
        requires { k < length classes.now }
        ensures { OnOk result (Adds self.old self.new (From origin (CircleGives subsumed (expr_numbers classes.now) k))) }
    {
        let this = expr_at(classes, k);
        let next = expr_at(classes, next_in_circle(k, classes.len()));
        self.add(Form::N1(Class2::Expr(this), Class2::Expr(next)), origin)?;
        Ok(())
    }

    // Each class of a circle is below the next.
    fn circle(&mut self, classes: &[ExprId], origin: Origin) -> Result<(), Memory>
        requires { AreDistinct (expr_numbers classes.now) }
        ensures { OnOk result (Adds self.old self.new (From origin (λ g. (n : ℕ) × CircleGives subsumed (expr_numbers classes.now) n g))) }
    {
        for k in 0..classes.len() {
            self.circle_step(classes, k, origin)?;
        }
        Ok(())
    }

    // The k-th property of a circle is below the next.
    fn property_step(&mut self, props: &[PropId], k: usize, origin: Origin) -> Result<(), Memory>
        requires { k < length props.now }
        ensures { OnOk result (Adds self.old self.new (From origin (CircleGives N5 (prop_numbers props.now) k))) }
    {
        let this = prop_at(props, k);
        let next = prop_at(props, next_in_circle(k, props.len()));
        self.add(Form::N5(this, next), origin)?;
        Ok(())
    }

    // Each property of a circle is below the next.
    fn property_circle(&mut self, props: &[PropId], origin: Origin) -> Result<(), Memory>
        requires { AreDistinct (prop_numbers props.now) }
        ensures { OnOk result (Adds self.old self.new (From origin (λ g. (n : ℕ) × CircleGives N5 (prop_numbers props.now) n g))) }
    {
        for k in 0..props.len() {
            self.property_step(props, k, origin)?;
        }
        Ok(())
    }

    // Two classes, the second at a later place, have nothing in common.
    fn pair(&mut self, classes: &[ExprId], m: usize, n: usize, origin: Origin) -> Result<(), Memory>
        requires later { m < n }
        requires within { n < length classes.now }
        ensures { OnOk result (Adds self.old self.new (From origin (PairGives disjoint (expr_numbers classes.now) m n))) }
    {
        let one = Class2::Expr(expr_at(classes, m));
        let other = Class2::Expr(expr_at(classes, n));
        self.add(Form::N2(one, other, Class2::Expr(ExprId::NOTHING)), origin)?;
        Ok(())
    }

    // The m-th class has nothing in common with any later one.
    fn apart(&mut self, classes: &[ExprId], m: usize, origin: Origin) -> Result<(), Memory>
        requires within { m < length classes.now }
        requires distinct { AreDistinct (expr_numbers classes.now) }
        ensures { OnOk result (Adds self.old self.new (From origin (λ g. (n : ℕ) × PairGives disjoint (expr_numbers classes.now) m n g))) }
    {
        for n in m + 1..classes.len() {
            self.pair(classes, m, n, origin)?;
        }
        Ok(())
    }

    // No two of the classes have anything in common, each two by a form of their own.
    fn each_apart(&mut self, classes: &[ExprId], origin: Origin) -> Result<(), Memory>
        requires { AreDistinct (expr_numbers classes.now) }
        ensures { OnOk result (Adds self.old self.new (From origin (λ g. (m : ℕ) × ((n : ℕ) × PairGives disjoint (expr_numbers classes.now) m n g)))) }
    {
        for m in 0..classes.len() {
            self.apart(classes, m, origin)?;
        }
        Ok(())
    }

    // No two of the classes have anything in common, by the axiom of that number.
    fn disjoint(&mut self, classes: &[ExprId], number: usize) -> Result<(), Memory>
        requires { AreDistinct (expr_numbers classes.now) }
        ensures { OnOk result (Adds self.old self.new (From (origins.Axiom number) (λ g. (m : ℕ) × ((n : ℕ) × PairGives disjoint (expr_numbers classes.now) m n g)))) }
    {
        if classes.len() < MANY_CLASSES {
            self.each_apart(classes, Origin::Axiom(number))?;
        } else {
            self.add_disjoint(classes, number)?;
        }
        Ok(())
    }

    // The k-th individual of a list and the next are one.
    fn next_in_list(
        &mut self,
        individuals: &[IndId],
        k: usize,
        origin: Origin,
    ) -> Result<(), Memory>
        requires { k + 1 < length individuals.now }
        ensures { OnOk result (Adds self.old self.new (From origin (NextGives N10 (ind_numbers individuals.now) k))) }
    {
        let this = individual_at(individuals, k);
        let next = individual_at(individuals, k + 1);
        self.add(Form::N10(this, next), origin)?;
        Ok(())
    }

    // All of the individuals are one: each is one with the next.
    fn same(&mut self, individuals: &[IndId], origin: Origin) -> Result<(), Memory>
        requires { AreDistinct (ind_numbers individuals.now) }
        ensures { OnOk result (Adds self.old self.new (From origin (λ g. (n : ℕ) × NextGives N10 (ind_numbers individuals.now) n g))) }
    {
        for k in 0..individuals.len().saturating_sub(1) {
            self.next_in_list(individuals, k, origin)?;
        }
        Ok(())
    }

    // A chain, or the plain form.
    fn sub_property(
        &mut self,
        steps: &[PropId],
        whole: PropId,
        origin: Origin,
    ) -> Result<(), Memory>
        ensures forms { OnOk result (Adds self.old self.new (From origin (AxiomGives (SubProperty (prop_numbers steps.now) whole.0)))) }
        ensures names { OnOk result (NumbersBehind self.old.steps (prefixes_of (prop_numbers steps.now)) self.new.steps) }
    {
        if steps.len() == 1 {
            self.add(Form::N5(prop_at(steps, 0), whole), origin)?;
            return Ok(());
        }
        self.chain(steps, whole, origin)?;
        Ok(())
    }

    // What the axiom of that number gives by itself.
    fn state(&mut self, axiom: &Axiom, number: usize) -> Result<(), Memory>
        requires { OperandsDiffer (axiom_of «axiom».now) }
        ensures forms { OnOk result (Adds self.old self.new (From (origins.Axiom number) (AxiomGives (axiom_of «axiom».now)))) }
        ensures names { OnOk result (NumbersBehind self.old.steps (chain_prefixes (axiom_of «axiom».now)) self.new.steps) }
    {
        let origin = Origin::Axiom(number);
        match axiom {
            Axiom::SubClass(sub, sup) => {
                self.add(Form::N1(Class2::Expr(*sub), Class2::Expr(*sup)), origin)?
            }
            Axiom::EquivalentClasses(classes) => self.circle(classes, origin)?,
            Axiom::DisjointClasses(classes) => self.disjoint(classes, number)?,
            Axiom::SubProperty(steps, whole) => self.sub_property(steps, *whole, origin)?,
            Axiom::EquivalentProperties(props) => self.property_circle(props, origin)?,
            Axiom::Domain(prop, class) => self.add(
                Form::N4(*prop, Class2::Expr(ExprId::THING), Class2::Expr(*class)),
                origin,
            )?,
            Axiom::Transitive(prop) => {
                let r = PropId2::Property(*prop);
                self.add(Form::N6(r, r, r), origin)?
            }
            Axiom::Reflexive(prop) => self.add(Form::N7(*prop), origin)?,
            Axiom::ClassAssertion(class, individual) => {
                self.add(Form::N8(*individual, Class2::Expr(*class)), origin)?
            }
            Axiom::PropertyAssertion(prop, source, target) => {
                self.add(Form::N9(*source, *prop, *target), origin)?
            }
            Axiom::SameIndividuals(individuals) => self.same(individuals, origin)?,
            Axiom::DifferentIndividuals(individuals) => self.add_different(individuals, number)?,
            Axiom::NegativePropertyAssertion(prop, source, target) => {
                self.add(Form::N12(*source, *prop, *target), origin)?
            }
        }
        Ok(())
    }

    // What the axioms from that place on give, each by itself.
    pub(crate) fn state_all(&mut self, axioms: &[Axiom], from: usize) -> Result<(), Memory>
        requires within { from ≤ length axioms.now }
        requires distinct { (n : ℕ) (a : Stated) → slice_get (map axiom_of axioms.now) n ≡ Some a → OperandsDiffer a }
        ensures forms { OnOk result (Adds self.old self.new (StatedFrom (map axiom_of axioms.now) from (length axioms.now))) }
        ensures names { OnOk result (NameMoreChains (map axiom_of axioms.now) from self.old.steps self.new.steps) }
    {
        for k in from..axioms.len() {
            self.state(&axioms[k], k + 1)?;
        }
        Ok(())
    }
}
