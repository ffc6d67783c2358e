//! Axioms, each behind what it is about.
ghost use Rattle.axioms.specs.Fronts.{Extends};
ghost use Rattle.axioms.specs.Axiom.{SubClassOf, EquivalentClasses, DisjointClasses, PropertyDomain, TransitiveProperty, ReflexiveProperty, ClassAssertion, PropertyAssertion, EquivalentProperties, SubPropertyOf, SameIndividuals, DifferentIndividuals, NegativePropertyAssertion};
ghost use Rattle.axioms.specs.Numbering.{States};
ghost use Rattle.axioms.specs.View.{axiom_of};
ghost use Rattle.axioms.specs.WellFormedness.{IsAxiomOf};
ghost use Rattle.fs_parser.specs.View.{tree_of, trees_of};
ghost use Rattle.profile.specs.Additions.{AxiomRead, StatementRead};
ghost use Rattle.profile.specs.ClassTrees.{AreClassTrees, AreManyDistinct, AreManyDistinctNames, IsChain, IsClassTree};
ghost use Rattle.profile.specs.Statements.{chain_of, class_in, classes_of, iri_in, iris_of};

use crate::expressions::{class_expression, class_expressions};
use crate::individuals::{individuals, pair};
use crate::name_builder::NameBuilder;
use crate::operands::{individual, property};
use crate::properties::{chain, properties};
use axioms::{Axiom, BuildFault};
use fs_parser::Tree;
use std::alloc::Global;

/// Adds the axiom over what is there.
#[inline(always)]
fn state(builder: &mut NameBuilder, axiom: Axiom) -> Result<(), BuildFault>
    requires { IsAxiomOf builder.old (axiom_of «axiom») }
    ensures read { AxiomRead result (axiom_of «axiom») builder.old builder.new }
    ensures kept { Extends builder.old builder.new }
{
    builder.well_formed();
    match builder.add_axiom(axiom) {
        Ok(()) => Ok(()),
        Err(_) => Err(BuildFault::Memory),
    }
}

/// A subclass axiom.
pub(crate) fn sub_class(
    alloc: Global,
    builder: &mut NameBuilder,
    sub: &Tree<'_>,
    superclass: &Tree<'_>,
) -> Result<(), BuildFault>
    requires sub { IsClassTree (tree_of sub.now) }
    requires superclass { IsClassTree (tree_of superclass.now) }
    ensures read { StatementRead result (States (SubClassOf (class_in sub.now) (class_in superclass.now))) builder.old builder.new }
    ensures kept { Extends builder.old builder.new }
{
    let sub = match class_expression(alloc, builder, sub) {
        Ok(sub) => sub,
        Err(fault) => return Err(fault),
    };
    let superclass = match class_expression(alloc, builder, superclass) {
        Ok(superclass) => superclass,
        Err(fault) => return Err(fault),
    };
    state(builder, Axiom::SubClass(sub, superclass))
}

/// An axiom that classes have the same members.
pub(crate) fn equivalent_classes(
    alloc: Global,
    builder: &mut NameBuilder,
    trees: &[Tree<'_>],
) -> Result<(), BuildFault>
    requires classes { AreClassTrees (trees_of trees.now) }
    requires many { AreManyDistinct (trees_of trees.now) }
    ensures read { StatementRead result (States (EquivalentClasses (classes_of (trees_of trees.now)))) builder.old builder.new }
    ensures kept { Extends builder.old builder.new }
{
    let operands = match class_expressions(alloc, builder, trees) {
        Ok(operands) => operands,
        Err(fault) => return Err(fault),
    };
    state(builder, Axiom::EquivalentClasses(operands))
}

/// An axiom that no two of the classes have a common member.
pub(crate) fn disjoint_classes(
    alloc: Global,
    builder: &mut NameBuilder,
    trees: &[Tree<'_>],
) -> Result<(), BuildFault>
    requires classes { AreClassTrees (trees_of trees.now) }
    requires many { AreManyDistinct (trees_of trees.now) }
    ensures read { StatementRead result (States (DisjointClasses (classes_of (trees_of trees.now)))) builder.old builder.new }
    ensures kept { Extends builder.old builder.new }
{
    let operands = match class_expressions(alloc, builder, trees) {
        Ok(operands) => operands,
        Err(fault) => return Err(fault),
    };
    state(builder, Axiom::DisjointClasses(operands))
}

/// An axiom that what has a successor by the property is in the class.
pub(crate) fn property_domain(
    alloc: Global,
    builder: &mut NameBuilder,
    first: &Tree<'_>,
    second: &Tree<'_>,
) -> Result<(), BuildFault>
    requires { IsClassTree (tree_of second.now) }
    ensures read { StatementRead result (States (PropertyDomain (iri_in first.now) (class_in second.now))) builder.old builder.new }
    ensures kept { Extends builder.old builder.new }
{
    let property = match property(builder, first) {
        Ok(property) => property,
        Err(fault) => return Err(fault),
    };
    let class = match class_expression(alloc, builder, second) {
        Ok(class) => class,
        Err(fault) => return Err(fault),
    };
    state(builder, Axiom::Domain(property, class))
}

/// An axiom that the property is transitive.
pub(crate) fn transitive_property(
    builder: &mut NameBuilder,
    tree: &Tree<'_>,
) -> Result<(), BuildFault>
    ensures read { StatementRead result (States (TransitiveProperty (iri_in tree.now))) builder.old builder.new }
    ensures kept { Extends builder.old builder.new }
{
    let property = match property(builder, tree) {
        Ok(property) => property,
        Err(fault) => return Err(fault),
    };
    state(builder, Axiom::Transitive(property))
}

/// An axiom that the property is reflexive.
pub(crate) fn reflexive_property(
    builder: &mut NameBuilder,
    tree: &Tree<'_>,
) -> Result<(), BuildFault>
    ensures read { StatementRead result (States (ReflexiveProperty (iri_in tree.now))) builder.old builder.new }
    ensures kept { Extends builder.old builder.new }
{
    let property = match property(builder, tree) {
        Ok(property) => property,
        Err(fault) => return Err(fault),
    };
    state(builder, Axiom::Reflexive(property))
}

/// An axiom that the individual is in the class.
pub(crate) fn class_assertion(
    alloc: Global,
    builder: &mut NameBuilder,
    first: &Tree<'_>,
    second: &Tree<'_>,
) -> Result<(), BuildFault>
    requires { IsClassTree (tree_of first.now) }
    ensures read { StatementRead result (States (ClassAssertion (class_in first.now) (iri_in second.now))) builder.old builder.new }
    ensures kept { Extends builder.old builder.new }
{
    let class = match class_expression(alloc, builder, first) {
        Ok(class) => class,
        Err(fault) => return Err(fault),
    };
    let individual = match individual(builder, second) {
        Ok(individual) => individual,
        Err(fault) => return Err(fault),
    };
    state(builder, Axiom::ClassAssertion(class, individual))
}

/// An axiom that the property holds from the source to the target.
pub(crate) fn property_assertion(
    builder: &mut NameBuilder,
    first: &Tree<'_>,
    second: &Tree<'_>,
    third: &Tree<'_>,
) -> Result<(), BuildFault>
    ensures read { StatementRead result (States (PropertyAssertion (iri_in first.now) (iri_in second.now) (iri_in third.now))) builder.old builder.new }
    ensures kept { Extends builder.old builder.new }
{
    let (property, source, target) = match pair(builder, first, second, third) {
        Ok(pair) => pair,
        Err(fault) => return Err(fault),
    };
    state(builder, Axiom::PropertyAssertion(property, source, target))
}

/// An axiom that the properties hold between the same individuals.
pub(crate) fn equivalent_properties(
    alloc: Global,
    builder: &mut NameBuilder,
    trees: &[Tree<'_>],
) -> Result<(), BuildFault>
    requires { AreManyDistinctNames (trees_of trees.now) }
    ensures read { StatementRead result (States (EquivalentProperties (iris_of (trees_of trees.now)))) builder.old builder.new }
    ensures kept { Extends builder.old builder.new }
{
    let operands = match properties(alloc, builder, trees) {
        Ok(operands) => operands,
        Err(fault) => return Err(fault),
    };
    state(builder, Axiom::EquivalentProperties(operands))
}

/// An axiom that what the chain of properties leads to, or the one property, the other property leads to too.
pub(crate) fn sub_property(
    alloc: Global,
    builder: &mut NameBuilder,
    first: &Tree<'_>,
    second: &Tree<'_>,
) -> Result<(), BuildFault>
    requires { IsChain (tree_of first.now) }
    ensures read { StatementRead result (States (SubPropertyOf (chain_of (tree_of first.now)) (iri_in second.now))) builder.old builder.new }
    ensures kept { Extends builder.old builder.new }
{
    let steps = match chain(alloc, builder, first) {
        Ok(steps) => steps,
        Err(fault) => return Err(fault),
    };
    let whole = match property(builder, second) {
        Ok(whole) => whole,
        Err(fault) => return Err(fault),
    };
    state(builder, Axiom::SubProperty(steps, whole))
}

/// An axiom that the individuals are one.
pub(crate) fn same_individuals(
    alloc: Global,
    builder: &mut NameBuilder,
    trees: &[Tree<'_>],
) -> Result<(), BuildFault>
    requires { AreManyDistinctNames (trees_of trees.now) }
    ensures read { StatementRead result (States (SameIndividuals (iris_of (trees_of trees.now)))) builder.old builder.new }
    ensures kept { Extends builder.old builder.new }
{
    let operands = match individuals(alloc, builder, trees) {
        Ok(operands) => operands,
        Err(fault) => return Err(fault),
    };
    state(builder, Axiom::SameIndividuals(operands))
}

/// An axiom that no two of the individuals are one.
pub(crate) fn different_individuals(
    alloc: Global,
    builder: &mut NameBuilder,
    trees: &[Tree<'_>],
) -> Result<(), BuildFault>
    requires { AreManyDistinctNames (trees_of trees.now) }
    ensures read { StatementRead result (States (DifferentIndividuals (iris_of (trees_of trees.now)))) builder.old builder.new }
    ensures kept { Extends builder.old builder.new }
{
    let operands = match individuals(alloc, builder, trees) {
        Ok(operands) => operands,
        Err(fault) => return Err(fault),
    };
    state(builder, Axiom::DifferentIndividuals(operands))
}

/// An axiom that the property does not hold from the source to the target.
pub(crate) fn negative_property_assertion(
    builder: &mut NameBuilder,
    first: &Tree<'_>,
    second: &Tree<'_>,
    third: &Tree<'_>,
) -> Result<(), BuildFault>
    ensures read { StatementRead result (States (NegativePropertyAssertion (iri_in first.now) (iri_in second.now) (iri_in third.now))) builder.old builder.new }
    ensures kept { Extends builder.old builder.new }
{
    let (property, source, target) = match pair(builder, first, second, third) {
        Ok(pair) => pair,
        Err(fault) => return Err(fault),
    };
    state(
        builder,
        Axiom::NegativePropertyAssertion(property, source, target),
    )
}
