//! From an ontology to one that has grown.
ghost use Rattle.axioms.specs.Fronts.{Extends};
ghost use Rattle.fs_parser.specs.View.{tree_of, trees_of};
ghost use Rattle.profile.specs.Growth.{AreAddedAs, IsAddedAs, RefusesExpression, RefusesStatements};
ghost use Rattle.std.specs.Prelude.{◌≡◌, IfErr, IfOk, OnErr, OnOk};

use crate::acceptance::{Refusal, take_all};
use crate::expressions::class_expression;
use crate::name_builder::NameBuilder;
use crate::ontology_reader::OntologyReader;
use axioms::{BuildFault, Builder, ExprId, Ontology};
use fs_parser::Tree;
use shapes::{Version, expression_faults};
use std::alloc::Global;
use std::hash::RandomState;
use std::mem;

/// Whether the ontology grows by what the trees state, and how far it has grown.
fn grown(
    alloc: Global,
    ontology: Ontology,
    trees: &[Tree<'_>],
    version: Version,
    state: RandomState,
) -> (Result<(), Refusal>, Ontology)
    ensures added { OnOk result.0 (AreAddedAs version ontology (trees_of trees.now) result.1) }
    ensures refused { IfErr result.0 (λ r. RefusesStatements version r ontology (trees_of trees.now)) }
    ensures kept { Extends ontology result.1 }
{
    let mut reader = OntologyReader::of_growth(alloc, ontology, version, state);
    let taken = take_all(&mut reader, trees);
    let (answer, ontology) = reader.end();
    match taken {
        Ok(()) => (answer, ontology),
        Err(_) => {
            drop(answer);
            (Err(Refusal::Memory), ontology)
        }
    }
}

/// Grows the ontology by what the trees state: axioms and declarations. Another, which has nothing, stands in its place meanwhile.
///
/// # Errors
///
/// Every fault of the trees, in the order of the text; `TooManyNames` where they have none, and with them a kind more than
/// 1,000,000 names; `Memory` where memory was refused before the answer was there. After any of them the ontology is as it was.
pub fn accept_statements(
    alloc: Global,
    ontology: &mut Ontology,
    trees: &[Tree<'_>],
    version: Version,
    state: RandomState,
) -> Result<(), Refusal>
    ensures added { OnOk result (AreAddedAs version ontology.old (trees_of trees.now) ontology.new) }
    ensures refused { IfErr result (λ r. RefusesStatements version r ontology.old (trees_of trees.now)) }
    ensures err { OnErr result (ontology.new ≡ ontology.old) }
{
    let empty = match Builder::new(alloc, state) {
        Ok(builder) => builder.finish(),
        Err(_) => return Err(Refusal::Memory),
    };
    ontology.well_formed();
    let lengths = ontology.lengths();
    let old = mem::replace(ontology, empty);
    let (answer, new) = grown(alloc, old, trees, version, state);
    *ontology = new;
    if answer.is_err() {
        ontology.truncate(lengths);
    }
    answer
}

/// A copy of the ontology with the class expression that the tree is, and the expression's number there. It has no new name
/// and no new axiom.
///
/// # Errors
///
/// Every fault of the tree, in the order of the text, where a name that the ontology does not have is one; `Memory` where
/// memory was refused before the answer was there.
pub fn accept_expression(
    alloc: Global,
    ontology: &Ontology,
    tree: &Tree<'_>,
    version: Version,
    state: RandomState,
) -> Result<(Ontology, ExprId), Refusal>
    ensures added { IfOk result (λ r. IsAddedAs version ontology.now (tree_of tree.now) r.0 r.1.0) }
    ensures refused { IfErr result (λ r. RefusesExpression version r ontology.now (tree_of tree.now)) }
{
    let found = match expression_faults(alloc, ontology, tree, version, state) {
        Ok(found) => found,
        Err(_) => return Err(Refusal::Memory),
    };
    if !found.is_empty() {
        return Err(Refusal::Faults(found));
    }
    drop(found);
    ontology.well_formed();
    ontology.bounded();
    let mut builder = match ontology.copy() {
        Ok(copy) => NameBuilder::from(alloc, copy),
        Err(_) => return Err(Refusal::Memory),
    };
    match class_expression(alloc, &mut builder, tree) {
        Ok(number) => Ok((builder.finish(), number)),
        Err(BuildFault::TooManyNames) => Err(Refusal::TooManyNames),
        Err(BuildFault::Memory) => Err(Refusal::Memory),
    }
}
