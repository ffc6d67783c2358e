//! The contexts that are there from the start.
ghost use Rattle.axioms.specs.View.{expr_numbers};
ghost use Rattle.facts.specs.declared.contexts.Context.TheVariants as contexts;
ghost use Rattle.normalise.specs.Roots.{AddsThose, AreRoots, AreRootsAgain, AreRootsFrom, IsIndividualFrom, IsNamedFrom};
ghost use Rattle.std.specs.Prelude.{◌++◌, ◌<◌, ◌≡◌, All, IfOk, OnOk, length, map};

use axioms::{ClassId, ExprId, IndId, Memory, Ontology};
use facts::Context;
use std::alloc::Global;

// Adds the expression of each named class from that number on.
fn push_classes(ontology: &Ontology, from: usize, roots: &mut Vec<Context>) -> Result<(), Memory>
    ensures { OnOk result (AddsThose (IsNamedFrom ontology.now from) roots.old.items roots.new.items) }
{
    ontology.well_formed();
    ontology.bounded();
    for number in from..ontology.classes().len() {
        if let Some(expression) = ontology.class_expr(ClassId(number as u32)) {
            roots.push(Context::Expr(expression))?;
        }
    }
    Ok(())
}

// Adds each individual from that number on.
fn push_individuals(
    ontology: &Ontology,
    from: usize,
    roots: &mut Vec<Context>,
) -> Result<(), Memory>
    ensures { OnOk result (AddsThose (IsIndividualFrom ontology.now from) roots.old.items roots.new.items) }
{
    ontology.bounded();
    for number in from..ontology.individuals().len() {
        roots.push(Context::Individual(IndId(number as u32)))?;
    }
    Ok(())
}

// Adds each of the expressions.
fn push_asked(asked: &[ExprId], roots: &mut Vec<Context>) -> Result<(), Memory>
    ensures { OnOk result (roots.new.items ≡ roots.old.items ++ map contexts.Expr asked.now) }
{
    for expression in asked {
        roots.push(Context::Expr(*expression))?;
    }
    Ok(())
}

/// The named classes, the individuals and the expressions that are asked about, which are of the ontology.
///
/// # Errors
///
/// `Memory` where memory was refused.
pub fn roots(alloc: Global, ontology: &Ontology, asked: &[ExprId]) -> Result<Vec<Context>, Memory>
    requires { All (λ e. e.0 < length ontology.now.nodes) asked.now }
    ensures { IfOk result (λ v. AreRoots ontology.now (expr_numbers asked.now) v.items) }
{
    ontology.well_formed();
    let mut roots = Vec::new(alloc);
    push_classes(ontology, 0, &mut roots)?;
    push_individuals(ontology, 0, &mut roots)?;
    push_asked(asked, &mut roots)?;
    Ok(roots)
}

/// The named classes from number `classes` on, and the individuals from number `individuals` on. Where the ontology had so many of
/// each before it grew, these are what its roots have to be followed by.
///
/// # Errors
///
/// `Memory` where memory was refused.
pub fn roots_from(
    alloc: Global,
    ontology: &Ontology,
    classes: usize,
    individuals: usize,
) -> Result<Vec<Context>, Memory>
    ensures those { IfOk result (λ v. AreRootsFrom ontology.now classes individuals v.items) }
    ensures again { IfOk result (λ v. AreRootsAgain ontology.now classes individuals v.items) }
{
    ontology.well_formed();
    let mut roots = Vec::new(alloc);
    push_classes(ontology, classes, &mut roots)?;
    push_individuals(ontology, individuals, &mut roots)?;
    Ok(roots)
}
