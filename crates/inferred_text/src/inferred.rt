//! What a classification infers, as a document.
ghost use Rattle.inferred_text.specs.Inferred.{class_axioms, contradiction, individual_axioms, inferred, inferred_axioms};
ghost use Rattle.statements_text.specs.Texts.{document_text, statement_line};
ghost use Rattle.std.specs.List.{flat_map};
ghost use Rattle.std.specs.Prelude.{◌++◌, ◌≡◌, IfOk, OnOk, length};
ghost use Rattle.taxonomy.specs.Outcome.{IsMadeFor};
ghost use Rattle.taxonomy.specs.Relation.{is_listed, lies_below};

use crate::classes::push_classes;
use crate::declarations::push_declarations;
use crate::individuals::push_individuals;
use crate::lines::push_axiom;
use axioms::{Axiom, ExprId, Memory, Ontology};
use number_sets::PackedLists;
use std::alloc::Global;
use taxonomy::{Groups, Outcome, Taxonomy};

/// Adds what the taxonomy and the types of the individuals say.
fn push_found(
    alloc: Global,
    out: &mut Vec<u8>,
    ontology: &Ontology,
    taxonomy: &Taxonomy,
    types: &PackedLists,
) -> Result<(), Memory>
    requires { length taxonomy.now ≡ length ontology.now.names.classes }
    ensures { OnOk result
        (out.new.items
        ≡ out.old.items
        ++ flat_map statement_line
        (class_axioms ontology.now.names (lies_below taxonomy.now)
        ++ individual_axioms ontology.now.names (lies_below taxonomy.now) (is_listed types.now))) }
{
    let mut groups = Groups::of(alloc, ontology.classes(), taxonomy)?;
    push_classes(alloc, out, ontology, &mut groups)?;
    push_individuals(alloc, out, ontology, &mut groups, types)
}

/// Adds that everything is nothing.
fn push_contradiction(out: &mut Vec<u8>, ontology: &Ontology) -> Result<(), Memory>
    ensures { OnOk result (out.new.items ≡ out.old.items ++ statement_line contradiction) }
{
    ontology.well_formed();
    let stated = Axiom::SubClass(ExprId::THING, ExprId::NOTHING);
    push_axiom(out, ontology, &stated)
}

/// Adds the axioms that were found.
fn push_outcome(
    alloc: Global,
    out: &mut Vec<u8>,
    ontology: &Ontology,
    outcome: &Outcome,
) -> Result<(), Memory>
    requires { IsMadeFor ontology.now outcome.now }
    ensures { OnOk result (out.new.items ≡ out.old.items ++ flat_map statement_line (inferred_axioms ontology.now.names outcome.now)) }
{
    match outcome {
        Outcome::Consistent(taxonomy, types) => push_found(alloc, out, ontology, taxonomy, types),
        Outcome::Inconsistent => push_contradiction(out, ontology),
    }
}

/// The statements that a classification of the ontology infers, as a document: the declarations of the classes but owl:Thing and
/// owl:Nothing, of the properties and of the individuals, each kind in the byte order of its names; then the axioms that the lines
/// of the taxonomy and of the instances say, in the order of these, without those that say that something is below owl:Thing or in
/// it. Where the axioms contradict one another the one axiom is that owl:Thing is below owl:Nothing.
///
/// # Errors
///
/// `Memory` where memory was refused.
pub fn inferred_text(
    alloc: Global,
    ontology: &Ontology,
    outcome: &Outcome,
) -> Result<Vec<u8>, Memory>
    requires { IsMadeFor ontology.now outcome.now }
    ensures { IfOk result (λ v. v.items ≡ document_text (inferred ontology.now.names outcome.now)) }
{
    let mut out = Vec::new(alloc);
    out.extend_from_slice(b"Ontology(\n")?;
    push_declarations(alloc, &mut out, ontology)?;
    push_outcome(alloc, &mut out, ontology, outcome)?;
    out.extend_from_slice(b")\n")?;
    Ok(out)
}
