//! Statements, each added to an ontology.
ghost use Rattle.axioms.specs.Fronts.{Extends};
ghost use Rattle.shapes.specs.Shapes.{row};
ghost use Rattle.shapes.specs.TreeStatements.{form_stated, meaning, stated, trees_stated};
ghost use Rattle.profile.specs.Additions.{StatementsRead};
ghost use Rattle.profile.specs.ClassTrees.{AreOperands};
ghost use Rattle.std.specs.Prelude.{Some};

use crate::axiom_forms::{
    class_assertion, different_individuals, disjoint_classes, equivalent_classes,
    equivalent_properties, negative_property_assertion, property_assertion, property_domain,
    reflexive_property, same_individuals, sub_class, sub_property, transitive_property,
};
use crate::declarations::{declare_class, declare_individual, declare_property};
use crate::name_builder::NameBuilder;
use axioms::BuildFault;
use shapes::Statement;
use std::alloc::Global;

/// Adds what the statement says, with all that it brings.
///
/// # Errors
///
/// `TooManyNames` where of a kind there would be more than 1,000,000 names; `Memory` where memory was refused.
pub(crate) fn add_statement(
    alloc: Global,
    builder: &mut NameBuilder,
    statement: Statement<'_, '_>,
) -> Result<(), BuildFault>
    requires { AreOperands (row (form_stated statement)).1 (trees_stated statement) }
    ensures read { StatementsRead result (meaning (Some (stated statement.entry))) builder.old builder.new }
    ensures kept { Extends builder.old builder.new }
{
    match statement {
        Statement::SubClassOf(sub, superclass) => sub_class(alloc, builder, sub, superclass),
        Statement::EquivalentClasses(classes) => equivalent_classes(alloc, builder, classes),
        Statement::DisjointClasses(classes) => disjoint_classes(alloc, builder, classes),
        Statement::SubPropertyOf(chain, property) => sub_property(alloc, builder, chain, property),
        Statement::EquivalentProperties(properties) => {
            equivalent_properties(alloc, builder, properties)
        }
        Statement::Domain(property, class) => property_domain(alloc, builder, property, class),
        Statement::Transitive(property) => transitive_property(builder, property),
        Statement::Reflexive(property) => reflexive_property(builder, property),
        Statement::ClassAssertion(class, individual) => {
            class_assertion(alloc, builder, class, individual)
        }
        Statement::PropertyAssertion(property, source, target) => {
            property_assertion(builder, property, source, target)
        }
        Statement::SameIndividuals(individuals) => same_individuals(alloc, builder, individuals),
        Statement::DifferentIndividuals(individuals) => {
            different_individuals(alloc, builder, individuals)
        }
        Statement::NegativePropertyAssertion(property, source, target) => {
            negative_property_assertion(builder, property, source, target)
        }
        Statement::DeclareClass(name) => declare_class(builder, name),
        Statement::DeclareProperty(name) => declare_property(builder, name),
        Statement::DeclareIndividual(name) => declare_individual(builder, name),
    }
}
