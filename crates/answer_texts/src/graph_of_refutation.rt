//! A refutation as a graph.
ghost use Rattle.answer_texts.specs.Graphs as graphs;
ghost use Rattle.answer_texts.specs.Labels.{AddsTold};
ghost use Rattle.answer_texts.specs.Reached.{others_label, reached_graph};
ghost use Rattle.axioms.specs.Ontology.{name_at};
ghost use Rattle.interpretation_spec.specs.NumberedInterpretation.{IsMadeFor};
ghost use Rattle.std.specs.List.{flat_map};
ghost use Rattle.std.specs.Prelude.{◌++◌, ◌≡◌, IfOk, OnOk, map};
ghost use Rattle.std.specs.String.{string_bytes};

use crate::graph_of_proof::push_escaped;
use crate::labels::Labels;
use crate::looking::{all_elements, elements_in};
use crate::names::{name_of, push_number};
use crate::pairs::{PairText, push_properties};
use axioms::{Memory, Ontology};
use interpretation_spec::Interpretation;
use number_sets::EpochSet;
use std::alloc::{AllocError, Global};

// Adds the name in angle brackets, as it stands inside quotation marks.
fn push_label(out: &mut Vec<u8>, names: &[String], n: usize) -> Result<(), AllocError>
    ensures { OnOk result (out.new.items ≡ out.old.items ++ graphs.escaped_name (name_at (map string_bytes names.now) n)) }
{
    out.extend_from_slice(b"<")?;
    push_escaped(out, name_of(names, n).as_bytes())?;
    out.extend_from_slice(b">")
}

// Adds the names of these numbers, each behind the bytes.
fn push_names(
    out: &mut Vec<u8>,
    before: &[u8],
    names: &[String],
    numbers: &[u32],
) -> Result<(), AllocError>
    ensures { OnOk result
        (out.new.items ≡ out.old.items ++ flat_map (λ n. before.now ++ graphs.escaped_name (name_at (map string_bytes names.now) n)) numbers.now) }
{
    for number in numbers {
        out.extend_from_slice(before)?;
        push_label(out, names, *number as usize)?;
    }
    Ok(())
}

// Adds the names of the element's classes but owl:Thing, and of the individuals whose element it is, by its labels.
fn push_labels(
    out: &mut Vec<u8>,
    ontology: &Ontology,
    labels: &Labels,
    element: usize,
) -> Result<(), AllocError>
    ensures { OnOk result (AddsTold ontology.now.names labels.now (λ i. graphs.element_labels ontology.now.names i element) out.old.items out.new.items) }
{
    push_names(out, b"\\n", ontology.classes(), labels.classes.at(element))?;
    push_names(
        out,
        b"\\nindividual ",
        ontology.individuals(),
        labels.individuals.at(element),
    )?;
    Ok(())
}

// Adds what marks the element that refutes.
fn push_outlines(out: &mut Vec<u8>, refuting: usize, element: usize) -> Result<(), AllocError>
    ensures { OnOk result (out.new.items ≡ out.old.items ++ graphs.outlines refuting element) }
{
    if element != refuting {
        return Ok(());
    }
    out.extend_from_slice(b", peripheries=2")
}

// Adds the node of the element, by what its labels say.
fn push_node(
    out: &mut Vec<u8>,
    ontology: &Ontology,
    labels: &Labels,
    refuting: usize,
    element: usize,
) -> Result<(), AllocError>
    ensures { OnOk result (AddsTold ontology.now.names labels.now (λ i. graphs.element_node ontology.now.names i refuting element) out.old.items out.new.items) }
{
    push_number(out, b"  ", element as u64)?;
    push_number(out, b" [label=\"", element as u64)?;
    push_labels(out, ontology, labels, element)?;
    out.extend_from_slice(b"\"")?;
    push_outlines(out, refuting, element)?;
    out.extend_from_slice(b"];\n")?;
    Ok(())
}

// Adds the nodes of the elements.
fn push_nodes(
    out: &mut Vec<u8>,
    ontology: &Ontology,
    labels: &Labels,
    elements: &[usize],
    refuting: usize,
) -> Result<(), AllocError>
    ensures { OnOk result (AddsTold ontology.now.names labels.now (λ i. flat_map (graphs.element_node ontology.now.names i refuting) elements.now) out.old.items out.new.items) }
{
    for element in elements {
        push_node(out, ontology, labels, refuting, *element)?;
    }
    Ok(())
}

/// An edge for each pair.
struct PairEdge;

impl PairText for PairEdge {
    ghost pair = { graphs.pair_edge };

    fn push_pair(
        out: &mut Vec<u8>,
        properties: &[String],
        property: usize,
        source: usize,
        target: usize,
    ) -> Result<(), AllocError> {
        push_number(out, b"  ", source as u64)?;
        push_number(out, b" -> ", target as u64)?;
        out.extend_from_slice(b" [label=\"")?;
        push_label(out, properties, property)?;
        out.extend_from_slice(b"\"];\n")
    }
}

// Adds the nodes of the elements, the edges from them, and the end.
fn push_drawn(
    out: &mut Vec<u8>,
    ontology: &Ontology,
    interpretation: &Interpretation,
    elements: &[usize],
    refuting: usize,
) -> Result<(), Memory>
    requires { IsMadeFor ontology.now.names interpretation.now }
    ensures { OnOk result (out.new.items ≡ out.old.items ++ graphs.drawn ontology.now.names interpretation.now elements.now refuting) }
{
    let labels = Labels::of(*out.allocator(), ontology, interpretation)?;
    push_nodes(out, ontology, &labels, elements, refuting)?;
    push_properties::<PairEdge>(out, ontology, interpretation, elements)?;
    out.extend_from_slice(b"}\n")?;
    Ok(())
}

/// Adds the whole graph.
pub(crate) fn push_graph(
    alloc: Global,
    out: &mut Vec<u8>,
    ontology: &Ontology,
    interpretation: &Interpretation,
    refuting: usize,
) -> Result<(), Memory>
    requires { IsMadeFor ontology.now.names interpretation.now }
    ensures { OnOk result (out.new.items ≡ out.old.items ++ graphs.refutation_graph ontology.now.names interpretation.now refuting) }
{
    let elements = all_elements(alloc, interpretation)?;
    out.extend_from_slice(b"digraph refutation {\n  node [shape=ellipse];\n")?;
    push_drawn(out, ontology, interpretation, &elements, refuting)?;
    Ok(())
}

// Adds how many others there are.
fn push_others(out: &mut Vec<u8>, others: usize) -> Result<(), AllocError>
    ensures { OnOk result (out.new.items ≡ out.old.items ++ others_label others) }
{
    push_number(out, b"  label=\"others ", others as u64)?;
    out.extend_from_slice(b"\";\n")
}

/// What the graph has of the elements in the set, and how many others there are.
pub(crate) fn graph_of_reached(
    alloc: Global,
    ontology: &Ontology,
    interpretation: &Interpretation,
    reached: &EpochSet,
    refuting: usize,
) -> Result<Vec<u8>, Memory>
    requires { IsMadeFor ontology.now.names interpretation.now }
    ensures { IfOk result (λ v. v.items ≡ reached_graph ontology.now.names interpretation.now reached.now refuting) }
{
    let elements = elements_in(alloc, interpretation, reached)?;
    let others = interpretation.size() - elements.len();
    let mut out = Vec::new(alloc);
    out.extend_from_slice(b"digraph refutation {\n  node [shape=ellipse];\n")?;
    push_others(&mut out, others)?;
    push_drawn(&mut out, ontology, interpretation, &elements, refuting)?;
    Ok(out)
}
