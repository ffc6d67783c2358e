//! Every fault of a document's trees, in the order of the text.

ghost use Rattle.std.specs.Prelude.{◌≡◌, ◌≤◌, ◌∷◌, [], drop, length, map, option_map, true, None, OnOk, IfOk};
ghost use Rattle.fs_parser.specs.Tree.{Form as FormTree};
ghost use Rattle.fs_parser.specs.View.{iri_of, tree_of, trees_of};
ghost use Rattle.shapes.specs.Faults.{behind_annotations, expression_faults, front_faults, front_name_faults, is_annotation, is_name, is_repeated, literal_faults, misplaced, name_faults, own_trees};
ghost use Rattle.shapes.specs.Places.{faults_at, place_behind};
ghost use Rattle.shapes.specs.Shapes.{Many, form_of};
ghost use Rattle.shapes.specs.TreeStatements.{stated, statement_in};
ghost use Rattle.shapes.specs.View.{AreTold, fault_of, faults_of, names_of, operand_faults, operands_view, tree_faults};

use crate::context::Context;
use crate::equality::is_among;
use crate::expected::{Expected, Operands};
use crate::fault::Fault;
use crate::form::Form;
use crate::keywords::{is_known, is_refused, shape_of};
use crate::names::{is_allowed, may_be_name};
use crate::operand::is_new;
use crate::place::Place;
use crate::statement::{Statement, axiom_in};
use axioms::{Memory, Ontology};
use fs_parser::{Iri, Tree};
use keyed_hash::{KeyedState, NumberedSet};
use program::Version;
use std::alloc::Global;
use std::hash::RandomState;

/// How many operands are compared one by one; more are found in a table.
const FEW_OPERANDS: usize = 8;

#[inline(always)]
fn is_name(tree: &Tree<'_>) -> bool
    ensures { result ≡ is_name (tree_of tree.now) }
{
    matches!(tree, Tree::Name { .. })
}

/// Whether the tree is an annotation, be it a faulty one.
fn is_annotation(tree: &Tree<'_>) -> bool
    ensures { result ≡ is_annotation (tree_of tree.now) }
{
    match tree {
        Tree::Form { keyword, .. } => *keyword == "Annotation",
        _ => false,
    }
}

/// How many annotations stand in front of the other trees.
fn annotation_count(trees: &[Tree<'_>]) -> usize
    ensures within { result ≤ length trees.now }
    ensures others { trees_of (drop result trees.now) ≡ behind_annotations (trees_of trees.now) }
{
    for (index, tree) in trees.iter().enumerate() {
        if !is_annotation(tree) {
            return index;
        }
    }
    trees.len()
}

/// How many annotations stand in front of the operands where such a tree is expected.
#[inline(always)]
fn annotations_in_front(expected: Expected, trees: &[Tree<'_>]) -> usize
    ensures within { result ≤ length trees.now }
    ensures others { trees_of (drop result trees.now) ≡ own_trees expected (trees_of trees.now) }
{
    if expected.may_be_annotated() {
        annotation_count(trees)
    } else {
        0
    }
}

/// One more fault.
fn tell(found: &mut Vec<Fault>, fault: Fault) -> Result<(), Memory>
    ensures { OnOk result (AreTold found.old found.new (fault_of fault ∷ [])) }
{
    found.push(fault)?;
    Ok(())
}

/// What is wrong with a form whose keyword has no shape where it stands.
fn misplaced(context: &Context<'_>, at: usize, keyword: &str) -> Result<Fault, Memory>
    ensures { IfOk result (λ fault. fault_of fault ≡ misplaced context.now.version at keyword.now) }
{
    if is_refused(keyword, context.version) {
        let keyword = String::from_str(context.alloc, keyword)?;
        Ok(Fault::RefusedConstruct { at, keyword })
    } else if is_known(keyword, context.version) {
        Ok(Fault::WrongShape { at })
    } else {
        let keyword = String::from_str(context.alloc, keyword)?;
        Ok(Fault::UnknownKeyword { at, keyword })
    }
}

/// Whether the next operand equals an earlier one, and may not.
#[inline(always)]
fn is_repeated(operands: Operands<'_>, next: &Tree<'_>, earlier: &[Tree<'_>]) -> bool
    ensures { result ≡ is_repeated (operands_view operands.entry) (tree_of next.now) (map tree_of earlier.now) }
{
    operands.wants_distinct() && is_among(next, earlier)
}

/// The fault of a name, if it has one.
#[inline(always)]
fn name_faults(
    context: &Context<'_>,
    found: &mut Vec<Fault>,
    expected: Expected,
    at: usize,
    iri: &Iri<'_>,
) -> Result<(), Memory>
    ensures { OnOk result (AreTold found.old found.new (name_faults (names_of context.now) expected at (iri_of iri.now))) }
{
    if !may_be_name(expected) {
        return tell(found, Fault::WrongShape { at });
    }
    if !is_allowed(expected, iri) {
        return tell(found, Fault::ReservedName { at });
    }
    if !context.has(expected, iri)? {
        return tell(found, Fault::UnknownName { at });
    }
    Ok(())
}

/// The fault of a literal, if it has one.
#[inline(always)]
fn literal_faults(found: &mut Vec<Fault>, expected: Expected, at: usize) -> Result<(), Memory>
    ensures { OnOk result (AreTold found.old found.new (literal_faults expected at)) }
{
    match expected {
        Expected::NameOrLiteral => Ok(()),
        _ => tell(found, Fault::WrongShape { at }),
    }
}

/// The faults of a tree, where one is expected.
#[cycle(faults)]
fn tree_faults(
    context: &Context<'_>,
    found: &mut Vec<Fault>,
    expected: Expected,
    tree: &Tree<'_>,
) -> Result<(), Memory>
    ensures { OnOk result (AreTold found.old found.new (tree_faults context.now expected (tree_of tree.now))) }
{
    match tree {
        Tree::Name { at, iri } => name_faults(context, found, expected, *at, iri),
        Tree::PlainLiteral { at, .. }
        | Tree::TaggedLiteral { at, .. }
        | Tree::TypedLiteral { at, .. } => literal_faults(found, expected, *at),
        Tree::Anonymous { at, .. } => tell(found, Fault::Anonymous { at: *at }),
        Tree::Number { at, .. } | Tree::Group { at, .. } => {
            tell(found, Fault::WrongShape { at: *at })
        }
        Tree::Form { at, keyword, trees } => {
            form_faults(context, found, expected, *at, keyword, trees)?;
            Ok(())
        }
    }
}

/// The faults of a form with these trees in it, where one is expected, and which form the keyword is there.
#[cycle(faults)]
fn form_faults(
    context: &Context<'_>,
    found: &mut Vec<Fault>,
    expected: Expected,
    at: usize,
    keyword: &str,
    trees: &[Tree<'_>],
) -> Result<Option<Form>, Memory>
    ensures found { OnOk result (AreTold found.old found.new (tree_faults context.now expected (FormTree at keyword.now (trees_of trees.now)))) }
    ensures form { IfOk result (λ form. form ≡ form_of context.now.version expected keyword.now) }
{
    let Some(shape) = shape_of(expected, keyword, context.version) else {
        tell(found, misplaced(context, at, keyword)?)?;
        return Ok(None);
    };
    let in_front = annotations_in_front(expected, trees);
    if !shape.operands.fits_count(trees.len() - in_front) {
        tell(found, Fault::WrongShape { at })?;
        return Ok(Some(shape.form));
    }
    annotation_faults(context, found, expected, trees)?;
    operand_faults(context, found, shape.operands, trees, in_front)?;
    Ok(Some(shape.form))
}

/// The faults of the annotations in front, if there may be any where such a tree is expected.
#[cycle(faults)]
fn annotation_faults(
    context: &Context<'_>,
    found: &mut Vec<Fault>,
    expected: Expected,
    trees: &[Tree<'_>],
) -> Result<(), Memory>
    ensures { OnOk result (AreTold found.old found.new (front_faults context.now.version (names_of context.now) expected (trees_of trees.now))) }
{
    if !expected.may_be_annotated() {
        return Ok(());
    }
    for tree in trees {
        if !is_annotation(tree) {
            return Ok(());
        }
        tree_faults(context, found, Expected::Annotation, tree)?;
    }
    Ok(())
}

/// The faults of the operands behind so many trees. One that equals an earlier one, where none may, gives that alone.
#[cycle(faults)]
fn operand_faults(
    context: &Context<'_>,
    found: &mut Vec<Fault>,
    operands: Operands<'_>,
    trees: &[Tree<'_>],
    in_front: usize,
) -> Result<(), Memory>
    requires { in_front ≤ length trees.now }
    ensures { OnOk result (AreTold found.old found.new (operand_faults context.now (operands_view operands.entry) (drop in_front trees.now))) }
{
    match operands {
        Operands::Many {
            distinct: true,
            operand,
        } if trees.len() - in_front > FEW_OPERANDS => {
            distinct_faults(context, found, operand, trees, in_front)
        }
        _ => few_faults(context, found, operands, trees, in_front),
    }
}

/// The faults of few operands behind so many trees, each of which is compared to those before it.
#[cycle(faults)]
fn few_faults(
    context: &Context<'_>,
    found: &mut Vec<Fault>,
    operands: Operands<'_>,
    trees: &[Tree<'_>],
    in_front: usize,
) -> Result<(), Memory>
    ensures { OnOk result (AreTold found.old found.new (operand_faults context.now (operands_view operands.entry) (drop in_front trees.now))) }
{
    let mut left = operands;
    for index in in_front..trees.len() {
        let tree = &trees[index];
        if is_repeated(left, tree, &trees[in_front..index]) {
            tell(found, Fault::RepeatedOperand { at: tree.at() })?;
        } else {
            tree_faults(context, found, left.next(), tree)?;
        }
        left = left.later();
    }
    Ok(())
}

/// The faults of operands behind so many trees, of one kind and no two equal. Each is looked up in a table of those before it.
#[cycle(faults)]
fn distinct_faults(
    context: &Context<'_>,
    found: &mut Vec<Fault>,
    operand: Expected,
    trees: &[Tree<'_>],
    in_front: usize,
) -> Result<(), Memory>
    ensures { OnOk result (AreTold found.old found.new (operand_faults context.now (Many true operand) (drop in_front trees.now))) }
{
    let mut seen = NumberedSet::new(context.alloc, KeyedState::new(&context.state));
    for index in in_front..trees.len() {
        let tree = &trees[index];
        if is_new(&mut seen, tree)? {
            tree_faults(context, found, operand, tree)?;
        } else {
            tell(found, Fault::RepeatedOperand { at: tree.at() })?;
        }
    }
    Ok(())
}

/// The faults of a tree that is expected to be an axiom or a declaration, and what it states.
fn axiom_faults<'t, 'a>(
    context: &Context<'_>,
    found: &mut Vec<Fault>,
    tree: &'t Tree<'a>,
) -> Result<Option<Statement<'t, 'a>>, Memory>
    ensures found { OnOk result (AreTold found.old found.new (tree_faults context.now Expected.Axiom (tree_of tree.now))) }
    ensures statement { IfOk result (λ s. option_map stated s ≡ statement_in context.now.version (tree_of tree.now)) }
{
    let Tree::Form { at, keyword, trees } = tree else {
        tree_faults(context, found, Expected::Axiom, tree)?;
        return Ok(None);
    };
    match form_faults(context, found, Expected::Axiom, *at, keyword, trees)? {
        Some(form) => {
            let operands = &trees[annotation_count(trees)..];
            Ok(axiom_in(form, operands, context.version))
        }
        None => Ok(None),
    }
}

/// The fault of a name in front of an ontology, where so many more may stand there, if it has one.
fn front_name_faults(
    found: &mut Vec<Fault>,
    names_left: usize,
    tree: &Tree<'_>,
) -> Result<(), Memory>
    ensures { OnOk result (AreTold found.old found.new (front_name_faults names_left (tree_of tree.now))) }
{
    if names_left == 0 {
        return tell(found, Fault::WrongShape { at: tree.at() });
    }
    Ok(())
}

/// Adds the faults of a tree that stands at this place of an ontology, in the order of the text, and gives the place behind it
/// and what the tree states. Names and annotations in front state nothing. Its tables hash by `state`.
///
/// # Errors
///
/// `Memory` where memory was refused.
pub fn part_faults<'t, 'a>(
    alloc: Global,
    found: &mut Vec<Fault>,
    place: Place,
    tree: &'t Tree<'a>,
    version: Version,
    state: RandomState,
) -> Result<(Place, Option<Statement<'t, 'a>>), Memory>
    ensures found { OnOk result (AreTold found.old found.new (faults_at version None place (tree_of tree.now))) }
    ensures behind { IfOk result (λ part. part.0 ≡ place_behind place (tree_of tree.now)) }
    ensures statement { IfOk result (λ part. option_map stated part.1 ≡ statement_in version (tree_of tree.now)) }
{
    let context = Context {
        alloc,
        state,
        version,
        ontology: None,
    };
    if let Place::Front { names_left } = place {
        if is_name(tree) {
            front_name_faults(found, names_left, tree)?;
            let names_left = names_left.saturating_sub(1);
            return Ok((Place::Front { names_left }, None));
        }
        if is_annotation(tree) {
            tree_faults(&context, found, Expected::Annotation, tree)?;
            return Ok((Place::Front { names_left: 0 }, None));
        }
    }
    let statement = axiom_faults(&context, found, tree)?;
    Ok((Place::Axioms, statement))
}

/// Every fault of a tree that is expected to be a class expression over the names of the ontology, in the order of the text.
///
/// # Errors
///
/// `Memory` where memory was refused.
pub fn expression_faults(
    alloc: Global,
    ontology: &Ontology,
    tree: &Tree<'_>,
    version: Version,
    state: RandomState,
) -> Result<Vec<Fault>, Memory>
    ensures { IfOk result (λ found. faults_of found.items ≡ expression_faults version ontology.now.names (tree_of tree.now)) }
{
    let context = Context {
        alloc,
        state,
        version,
        ontology: Some(ontology),
    };
    let mut found = Vec::new(alloc);
    tree_faults(&context, &mut found, Expected::ClassExpression, tree)?;
    Ok(found)
}
