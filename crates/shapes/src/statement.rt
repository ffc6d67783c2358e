//! Statements of a document, over the trees that they are made of.

ghost use Rattle.std.specs.Option.{IfNone, IfSome};
ghost use Rattle.std.specs.Prelude.{◌≡◌, ◌==◌, [], ◌∷◌, Some, false, nat_lt, option_map, true};
ghost use Rattle.fs_parser.specs.View.{tree_of, trees_of};
ghost use Rattle.shapes.specs.Faults.{count_of};
ghost use Rattle.shapes.specs.TreeStatements.{axiom_by, entity_in, stated, stated_by};

use crate::expected::Expected;
use crate::form::Form;
use crate::keywords::shape_of;
use fs_parser::Tree;
use program::Version;

/// An axiom or a declaration, over the trees of its operands.
#[derive(Clone, Copy)]
pub enum Statement<'t, 'a> {
    /// A class expression, and one above it.
    SubClassOf(&'t Tree<'a>, &'t Tree<'a>),
    EquivalentClasses(&'t [Tree<'a>]),
    DisjointClasses(&'t [Tree<'a>]),
    /// A property or a chain of properties, and a property above it.
    SubPropertyOf(&'t Tree<'a>, &'t Tree<'a>),
    EquivalentProperties(&'t [Tree<'a>]),
    /// A property, and a class expression.
    Domain(&'t Tree<'a>, &'t Tree<'a>),
    Transitive(&'t Tree<'a>),
    Reflexive(&'t Tree<'a>),
    /// A class expression, and an individual.
    ClassAssertion(&'t Tree<'a>, &'t Tree<'a>),
    /// A property, its source and its target.
    PropertyAssertion(&'t Tree<'a>, &'t Tree<'a>, &'t Tree<'a>),
    /// Individuals that are one.
    SameIndividuals(&'t [Tree<'a>]),
    /// Individuals that differ.
    DifferentIndividuals(&'t [Tree<'a>]),
    /// A property, and the source and the target of no pair of it.
    NegativePropertyAssertion(&'t Tree<'a>, &'t Tree<'a>, &'t Tree<'a>),
    DeclareClass(&'t Tree<'a>),
    DeclareProperty(&'t Tree<'a>),
    DeclareIndividual(&'t Tree<'a>),
}

fn one<'t, 'a>(operands: &'t [Tree<'a>]) -> Option<&'t Tree<'a>>
    ensures some { IfSome result (λ t. trees_of operands.now ≡ trees_of (t.now ∷ [])) }
    ensures none { IfNone result ((count_of (trees_of operands.now) == 1) ≡ false) }
{
    match operands {
        [operand] => Some(operand),
        _ => None,
    }
}

fn two<'t, 'a>(operands: &'t [Tree<'a>]) -> Option<(&'t Tree<'a>, &'t Tree<'a>)>
    ensures some { IfSome result (λ ts. trees_of operands.now ≡ trees_of (ts.0.now ∷ ts.1.now ∷ [])) }
    ensures none { IfNone result ((count_of (trees_of operands.now) == 2) ≡ false) }
{
    match operands {
        [first, second] => Some((first, second)),
        _ => None,
    }
}

fn three<'t, 'a>(operands: &'t [Tree<'a>]) -> Option<(&'t Tree<'a>, &'t Tree<'a>, &'t Tree<'a>)>
    ensures some { IfSome result (λ ts. trees_of operands.now ≡ trees_of (ts.0.now ∷ ts.1.now ∷ ts.2.now ∷ [])) }
    ensures none { IfNone result ((count_of (trees_of operands.now) == 3) ≡ false) }
{
    match operands {
        [first, second, third] => Some((first, second, third)),
        _ => None,
    }
}

/// The operands, where they are two or more.
fn many<'t, 'a>(operands: &'t [Tree<'a>]) -> Option<&'t [Tree<'a>]>
    ensures some { IfSome result (λ ts. (ts.now ≡ operands.now) × (nat_lt 1 (count_of (trees_of operands.now)) ≡ true)) }
    ensures none { IfNone result (nat_lt 1 (count_of (trees_of operands.now)) ≡ false) }
{
    if operands.len() > 1 {
        Some(operands)
    } else {
        None
    }
}

/// What the form states of these operands, where it states something by itself and takes so many.
fn stated_by<'t, 'a>(form: Form, operands: &'t [Tree<'a>]) -> Option<Statement<'t, 'a>>
    ensures { option_map stated result ≡ stated_by form (trees_of operands.now) }
{
    match form {
        Form::SubClassOf => {
            let (sub, superclass) = two(operands)?;
            Some(Statement::SubClassOf(sub, superclass))
        }
        Form::EquivalentClasses => Some(Statement::EquivalentClasses(many(operands)?)),
        Form::DisjointClasses => Some(Statement::DisjointClasses(many(operands)?)),
        Form::SubObjectPropertyOf => {
            let (chain, property) = two(operands)?;
            Some(Statement::SubPropertyOf(chain, property))
        }
        Form::EquivalentObjectProperties => Some(Statement::EquivalentProperties(many(operands)?)),
        Form::ObjectPropertyDomain => {
            let (property, class) = two(operands)?;
            Some(Statement::Domain(property, class))
        }
        Form::TransitiveObjectProperty => Some(Statement::Transitive(one(operands)?)),
        Form::ReflexiveObjectProperty => Some(Statement::Reflexive(one(operands)?)),
        Form::ClassAssertion => {
            let (class, individual) = two(operands)?;
            Some(Statement::ClassAssertion(class, individual))
        }
        Form::ObjectPropertyAssertion => {
            let (property, source, target) = three(operands)?;
            Some(Statement::PropertyAssertion(property, source, target))
        }
        Form::SameIndividual => Some(Statement::SameIndividuals(many(operands)?)),
        Form::DifferentIndividuals => Some(Statement::DifferentIndividuals(many(operands)?)),
        Form::NegativeObjectPropertyAssertion => {
            let (property, source, target) = three(operands)?;
            Some(Statement::NegativePropertyAssertion(property, source, target))
        }
        Form::Class => Some(Statement::DeclareClass(one(operands)?)),
        Form::ObjectProperty => Some(Statement::DeclareProperty(one(operands)?)),
        Form::NamedIndividual => Some(Statement::DeclareIndividual(one(operands)?)),
        Form::Declaration
        | Form::AnnotationAssertion
        | Form::SubAnnotationPropertyOf
        | Form::AnnotationPropertyDomain
        | Form::AnnotationPropertyRange
        | Form::Annotation
        | Form::AnnotationProperty
        | Form::ObjectIntersectionOf
        | Form::ObjectSomeValuesFrom
        | Form::ObjectPropertyChain => None,
    }
}

/// What a declaration of this tree states.
fn entity_in<'t, 'a>(tree: &'t Tree<'a>, version: Version) -> Option<Statement<'t, 'a>>
    ensures { option_map stated result ≡ entity_in version (tree_of tree.now) }
{
    let Tree::Form { keyword, trees, .. } = tree else {
        return None;
    };
    let shape = shape_of(Expected::Entity, keyword, version)?;
    stated_by(shape.form, trees)
}

/// What an axiom or a declaration of this form states, if it states something and takes so many operands. What the operands are
/// is not looked at.
pub(crate) fn axiom_in<'t, 'a>(
    form: Form,
    operands: &'t [Tree<'a>],
    version: Version,
) -> Option<Statement<'t, 'a>>
    ensures { option_map stated result ≡ axiom_by version (Some form) (trees_of operands.now) }
{
    match form {
        Form::Declaration => entity_in(one(operands)?, version),
        form => stated_by(form, operands),
    }
}
