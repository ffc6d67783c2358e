//! The texts, in memory and written to a sink.
ghost use Rattle.answer_texts.specs.Graphs as graphs;
ghost use Rattle.answer_texts.specs.Proof as proof;
ghost use Rattle.answer_texts.specs.Reached.{IsOfReached, reached_graph, reached_text};
ghost use Rattle.answer_texts.specs.Refutation as refutation;
ghost use Rattle.certificate.specs.Writability.{IsLineOf};
ghost use Rattle.certificate.specs.View.{lines_of};
ghost use Rattle.device.specs.Device.{AppendsPrefix, HasFailed};
ghost use Rattle.interpretation_spec.specs.NumberedInterpretation.{IsMadeFor};
ghost use Rattle.std.specs.Io.KnownBytes.{Appends, Keeps};
ghost use Rattle.std.specs.Prelude.{◌≡◌, ◌≤◌, All, IfOk, IsErrOf, OnOk};

use crate::proof::push_lines;
use crate::reach::reached;
use crate::refutation::{push_refutation, text_of_reached};
use crate::{graph_of_proof, graph_of_refutation};
use axioms::{Memory, Ontology};
use certificate::Line;
use device::{Sink, WriteFault, write_all};
use interpretation_spec::Interpretation;
use std::alloc::Global;

/// The lines of a derivation over the ontology, as people read them: a line each, with its number, rule, axiom and premises, in memory.
///
/// # Errors
///
/// `Memory` where memory was refused.
pub fn proof_bytes(alloc: Global, ontology: &Ontology, lines: &[Line]) -> Result<Vec<u8>, Memory>
    requires { All (IsLineOf ontology.now) (lines_of lines.now) }
    ensures { IfOk result (λ v. v.items ≡ proof.proof_text ontology.now (lines_of lines.now)) }
{
    let mut out = Vec::new(alloc);
    push_lines(&mut out, ontology, lines)?;
    Ok(out)
}

/// Writes the lines of a derivation over the ontology, as people read them: a line each, with its number, rule, axiom and premises.
///
/// `Io` comes only where the sink failed in this call. After `Memory` it did not fail and has taken nothing. After either
/// it has taken a prefix of the text.
pub fn write_proof<S: Sink>(
    alloc: Global,
    ontology: &Ontology,
    lines: &[Line],
    sink: &mut S,
) -> Result<(), WriteFault>
    requires { All (IsLineOf ontology.now) (lines_of lines.now) }
    ensures ok { OnOk result (Appends (S.taken sink.old) (S.taken sink.new) (proof.proof_text ontology.now (lines_of lines.now))) }
    ensures begun { AppendsPrefix (S.taken sink.old) (S.taken sink.new) (proof.proof_text ontology.now (lines_of lines.now)) }
    ensures io { IsErrOf result WriteFault.Io → HasFailed (S.failures sink.old) (S.failures sink.new) }
    ensures untouched { IsErrOf result WriteFault.Memory → Keeps (S.taken sink.old) (S.taken sink.new) }
    ensures untried { IsErrOf result WriteFault.Memory → S.failures sink.new ≡ S.failures sink.old }
    ensures unfailed { OnOk result (S.failures sink.new ≡ S.failures sink.old) }
    ensures count { S.failures sink.old ≤ S.failures sink.new }
{
    let text = proof_bytes(alloc, ontology, lines)?;
    write_all(sink, &text)?;
    Ok(())
}

/// The text of a refutation: an interpretation that was made for the ontology, and one of its elements, in memory.
///
/// # Errors
///
/// `Memory` where memory was refused.
pub fn refutation_bytes(
    alloc: Global,
    ontology: &Ontology,
    interpretation: &Interpretation,
    element: usize,
) -> Result<Vec<u8>, Memory>
    requires { IsMadeFor ontology.now.names interpretation.now }
    ensures { IfOk result (λ v. v.items ≡ refutation.refutation_text ontology.now.names interpretation.now element) }
{
    let mut out = Vec::new(alloc);
    push_refutation(alloc, &mut out, ontology, interpretation, element)?;
    Ok(out)
}

/// The text of a refutation that tells of its elements those alone that pairs lead to from the one that refutes, and how many
/// others there are, in memory.
///
/// # Errors
///
/// `Memory` where memory was refused.
pub fn reached_refutation_bytes(
    alloc: Global,
    ontology: &Ontology,
    interpretation: &Interpretation,
    element: usize,
) -> Result<Vec<u8>, Memory>
    requires { IsMadeFor ontology.now.names interpretation.now }
    ensures { IfOk result (λ v. IsOfReached interpretation.now element (λ found. reached_text ontology.now.names interpretation.now found element) v.items) }
{
    let found = reached(alloc, ontology, interpretation, element)?;
    let text = text_of_reached(alloc, ontology, interpretation, &found, element)?;
    Ok(text)
}

/// The lines of a derivation as a DOT document: a node for each line, and an edge to it from each premise, in memory.
///
/// # Errors
///
/// `Memory` where memory was refused.
pub fn proof_graph_bytes(
    alloc: Global,
    ontology: &Ontology,
    lines: &[Line],
) -> Result<Vec<u8>, Memory>
    requires { All (IsLineOf ontology.now) (lines_of lines.now) }
    ensures { IfOk result (λ v. v.items ≡ graphs.proof_graph ontology.now (lines_of lines.now)) }
{
    let mut out = Vec::new(alloc);
    out.extend_from_slice(b"digraph derivation {\n  node [shape=box];\n")?;
    graph_of_proof::push_graph(alloc, &mut out, ontology, lines)?;
    out.extend_from_slice(b"}\n")?;
    Ok(out)
}

/// A refutation as a DOT document: a node for each element, the refuting one with two outlines, and an edge for each pair, in memory.
///
/// # Errors
///
/// `Memory` where memory was refused.
pub fn refutation_graph_bytes(
    alloc: Global,
    ontology: &Ontology,
    interpretation: &Interpretation,
    element: usize,
) -> Result<Vec<u8>, Memory>
    requires { IsMadeFor ontology.now.names interpretation.now }
    ensures { IfOk result (λ v. v.items ≡ graphs.refutation_graph ontology.now.names interpretation.now element) }
{
    let mut out = Vec::new(alloc);
    graph_of_refutation::push_graph(alloc, &mut out, ontology, interpretation, element)?;
    Ok(out)
}

/// A refutation as a DOT document with those elements alone that pairs lead to from the one that refutes, and with how many others
/// there are as its label, in memory.
///
/// # Errors
///
/// `Memory` where memory was refused.
pub fn reached_refutation_graph_bytes(
    alloc: Global,
    ontology: &Ontology,
    interpretation: &Interpretation,
    element: usize,
) -> Result<Vec<u8>, Memory>
    requires { IsMadeFor ontology.now.names interpretation.now }
    ensures { IfOk result (λ v. IsOfReached interpretation.now element (λ found. reached_graph ontology.now.names interpretation.now found element) v.items) }
{
    let found = reached(alloc, ontology, interpretation, element)?;
    let graph = graph_of_refutation::graph_of_reached(
        alloc,
        ontology,
        interpretation,
        &found,
        element,
    )?;
    Ok(graph)
}
