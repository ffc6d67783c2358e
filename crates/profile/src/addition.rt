//! From texts that stand alone, with the prefixes of a document, to an ontology that has grown.
ghost use Rattle.axioms.specs.Ontology as numbered;
ghost use Rattle.fs_parser.specs.View.{tree_of, trees_of};
ghost use Rattle.profile.specs.AddedTexts.{AreStatementsOf, IsAddedText, IsExpressionOf, IsReadExpression, RefusesAddition, RefusesReading};
ghost use Rattle.profile.specs.Documents.{IsTaken};
ghost use Rattle.std.specs.Prelude.{◌≡◌, IfErr, IfOk, OnErr, OnOk};

use crate::fault::DocumentFault;
use crate::growth::{accept_expression, accept_statements};
use axioms::{ExprId, Ontology};
use fs_lexer::tokens;
use fs_parser::{Prefixes, Tree, expression, statements};
use program::Version;
use std::alloc::Global;
use std::hash::RandomState;

/// The trees that a text is, by the list of its tokens, which are gone when its trees are there.
fn listed_statements<'a>(
    alloc: Global,
    prefixes: &'a Prefixes,
    text: &'a str,
) -> Result<Vec<Tree<'a>>, DocumentFault>
    ensures found { IfOk result (λ v. AreStatementsOf prefixes.now text.now (trees_of v.items)) }
    ensures refused { IfErr result (λ e. (version : Version) (old : numbered.Ontology) → RefusesAddition version prefixes.now text.now old e) }
{
    let tokens = match tokens(alloc, text) {
        Ok(tokens) => tokens,
        Err(fault) => return Err(DocumentFault::from(fault)),
    };
    match statements(alloc, &tokens, prefixes) {
        Ok(trees) => Ok(trees),
        Err(fault) => Err(DocumentFault::from(fault)),
    }
}

/// Grows the ontology by what the text states: axioms and declarations that stand alone, without an `Ontology( .. )` around them,
/// in this version of the profile, whose names are expanded with these prefixes. A text of none is one, too. New names, as those
/// before, can be written where names of their kind may stand.
///
/// # Errors
///
/// Places count the bytes of this text. `Lex` or `Parse` where it is no trees of which at most 64 parentheses are open at once;
/// `Faults`, with every one in the order of the text, where they are not of the profile; `TooManyNames` where they are, and with
/// them a kind has more than 1,000,000 names; `Memory` where memory was refused before the answer was there. After any of them the
/// ontology is as it was.
pub fn read_addition(
    alloc: Global,
    ontology: &mut Ontology,
    prefixes: &Prefixes,
    version: Version,
    text: &str,
    state: RandomState,
) -> Result<(), DocumentFault>
    requires { IsTaken ontology.old }
    ensures added { OnOk result (IsAddedText version prefixes.now text.now ontology.old ontology.new) }
    ensures taken { IsTaken ontology.new }
    ensures refused { IfErr result (RefusesAddition version prefixes.now text.now ontology.old) }
    ensures err { OnErr result (ontology.new ≡ ontology.old) }
{
    let trees = match listed_statements(alloc, prefixes, text) {
        Ok(trees) => trees,
        Err(fault) => return Err(fault),
    };
    prefixes.stand_for_spelled();
    match accept_statements(alloc, ontology, &trees, version, state) {
        Ok(()) => {
            ontology.well_formed();
            Ok(())
        }
        Err(refusal) => Err(DocumentFault::from(refusal)),
    }
}

/// The tree that a text is, by the list of its tokens, which are gone when it is there.
fn listed_expression<'a>(
    alloc: Global,
    prefixes: &'a Prefixes,
    text: &'a str,
) -> Result<Tree<'a>, DocumentFault>
    ensures found { IfOk result (λ t. IsExpressionOf prefixes.now text.now (tree_of t)) }
    ensures refused { IfErr result (λ e. (version : Version) (old : numbered.Ontology) → RefusesReading version prefixes.now text.now old e) }
{
    let tokens = match tokens(alloc, text) {
        Ok(tokens) => tokens,
        Err(fault) => return Err(DocumentFault::from(fault)),
    };
    match expression(alloc, &tokens, prefixes) {
        Ok(tree) => Ok(tree),
        Err(fault) => Err(DocumentFault::from(fault)),
    }
}

/// A copy of the ontology with the class expression that the text is in this version of the profile, whose names are expanded with
/// these prefixes, and the expression's number there. It has no new name and no new axiom.
///
/// # Errors
///
/// Places count the bytes of this text. `Lex` or `Parse` where it is no one tree of which at most 63 parentheses are open at
/// once; `Faults`, with every one in the order of the text, where it is no class expression of the profile, or has names that the
/// ontology does not have; `Memory` where memory was refused before the answer was there.
pub fn read_expression(
    alloc: Global,
    ontology: &Ontology,
    prefixes: &Prefixes,
    version: Version,
    text: &str,
    state: RandomState,
) -> Result<(Ontology, ExprId), DocumentFault>
    ensures read { IfOk result (λ r. IsReadExpression version prefixes.now text.now ontology.now r.0 r.1.0) }
    ensures refused { IfErr result (RefusesReading version prefixes.now text.now ontology.now) }
{
    let tree = match listed_expression(alloc, prefixes, text) {
        Ok(tree) => tree,
        Err(fault) => return Err(fault),
    };
    match accept_expression(alloc, ontology, &tree, version, state) {
        Ok(read) => Ok(read),
        Err(refusal) => Err(DocumentFault::from(refusal)),
    }
}
