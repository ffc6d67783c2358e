//! A derivation as a graph.
ghost use Rattle.answer_texts.specs.Graphs as graphs;
ghost use Rattle.certificate.specs.Writability.{IsLineOf};
ghost use Rattle.certificate.specs.View.{line_of, lines_of};
ghost use Rattle.std.specs.List.{enumerate_from, flat_map};
ghost use Rattle.std.specs.Prelude.{◌++◌, ◌≡◌, All, OnOk};

use crate::names::push_number;
use crate::proof::push_numbered;
use axioms::{Memory, Ontology};
use certificate::Line;
use std::alloc::{AllocError, Global};

/// Adds the bytes as they stand inside quotation marks of a graph. Where memory was refused nothing is said of what was added.
///
/// # Errors
///
/// `AllocError` where memory was refused.
pub fn push_escaped(out: &mut Vec<u8>, bytes: &[u8]) -> Result<(), AllocError>
    ensures { OnOk result (out.new.items ≡ out.old.items ++ graphs.escaped bytes.now) }
{
    for byte in bytes {
        match *byte {
            b'"' => out.extend_from_slice(b"\\\"")?,
            b'\\' => out.extend_from_slice(b"\\\\")?,
            b'&' => out.extend_from_slice(b"&amp;")?,
            other => out.extend_from_slice(&[other])?,
        }
    }
    Ok(())
}

fn push_node(
    alloc: Global,
    out: &mut Vec<u8>,
    ontology: &Ontology,
    number: u64,
    line: &Line,
) -> Result<(), Memory>
    requires { IsLineOf ontology.now (line_of line.now) }
    ensures { OnOk result (out.new.items ≡ out.old.items ++ graphs.line_node ontology.now (number, line_of line.now)) }
{
    let mut label = Vec::new(alloc);
    push_numbered(&mut label, ontology, number, line)?;
    push_number(out, b"  ", number)?;
    out.extend_from_slice(b" [label=\"")?;
    push_escaped(out, &label)?;
    out.extend_from_slice(b"\"];\n")?;
    Ok(())
}

// Adds an edge from each premise.
fn push_edges(out: &mut Vec<u8>, number: u64, premises: &[u64]) -> Result<(), AllocError>
    ensures { OnOk result (out.new.items ≡ out.old.items ++ flat_map (graphs.premise_edge number) premises.now) }
{
    for premise in premises {
        push_number(out, b"  ", *premise)?;
        push_number(out, b" -> ", number)?;
        out.extend_from_slice(b";\n")?;
    }
    Ok(())
}

// Adds what there is of a line.
fn push_line(
    alloc: Global,
    out: &mut Vec<u8>,
    ontology: &Ontology,
    number: u64,
    line: &Line,
) -> Result<(), Memory>
    requires { IsLineOf ontology.now (line_of line.now) }
    ensures { OnOk result (out.new.items ≡ out.old.items ++ graphs.line_graph ontology.now (number, line_of line.now)) }
{
    push_node(alloc, out, ontology, number, line)?;
    push_edges(out, number, &line.premises)?;
    Ok(())
}

/// Adds the nodes and edges of the lines, counted from 1.
pub(crate) fn push_graph(
    alloc: Global,
    out: &mut Vec<u8>,
    ontology: &Ontology,
    lines: &[Line],
) -> Result<(), Memory>
    requires { All (IsLineOf ontology.now) (lines_of lines.now) }
    ensures { OnOk result (out.new.items ≡ out.old.items ++ flat_map (graphs.line_graph ontology.now) (enumerate_from 1 (lines_of lines.now))) }
{
    for place in 0..lines.len() {
        push_line(alloc, out, ontology, place as u64 + 1, &lines[place])?;
    }
    Ok(())
}
