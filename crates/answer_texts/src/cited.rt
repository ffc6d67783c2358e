//! The axioms that a derivation cites.
ghost use Rattle.answer_texts.specs.Cited.{AreCited, IsCitedText, cited_line, cited_lines};
ghost use Rattle.axioms.specs.View.{at_number};
ghost use Rattle.certificate.specs.Writability.{axiom_numbers};
ghost use Rattle.certificate.specs.View.{lines_of};
ghost use Rattle.std.specs.List.{flat_map};
ghost use Rattle.std.specs.Prelude.{◌++◌, ◌≡◌, IfOk, OnOk};

use crate::axiom::write_axiom;
use crate::names::push_number;
use axioms::{Memory, Ontology};
use certificate::Line;
use number_sets::sort_ascending;
use std::alloc::{AllocError, Global};

/// The numbers that the lines cite, in their order.
fn citations(alloc: Global, lines: &[Line]) -> Result<Vec<usize>, AllocError>
    ensures { IfOk result (λ v. v.items ≡ flat_map (λ line. axiom_numbers line.axiom') (lines_of lines.now)) }
{
    let mut numbers = Vec::new(alloc);
    for line in lines {
        if let Some(number) = line.axiom {
            numbers.push(number)?;
        }
    }
    Ok(numbers)
}

/// The numbers of the axioms that the lines cite, ascending, each once.
fn cited(alloc: Global, lines: &[Line]) -> Result<Vec<usize>, AllocError>
    ensures { IfOk result (λ v. AreCited (lines_of lines.now) v.items) }
{
    let mut numbers = citations(alloc, lines)?;
    sort_ascending(&mut numbers);
    Ok(numbers)
}

/// Adds the line of the axiom of that number, where there is one.
fn push_cited(out: &mut Vec<u8>, ontology: &Ontology, number: usize) -> Result<(), AllocError>
    ensures { OnOk result (out.new.items ≡ out.old.items ++ cited_line ontology.now number (at_number ontology.now.axioms number)) }
{
    ontology.well_formed();
    let Some(axiom) = ontology.axiom(number) else {
        return Ok(());
    };
    push_number(out, b"axiom ", number as u64)?;
    out.extend_from_slice(b" ")?;
    write_axiom(out, ontology, axiom)?;
    out.extend_from_slice(b"\n")
}

/// Adds the lines of the axioms of these numbers.
fn push_all(out: &mut Vec<u8>, ontology: &Ontology, numbers: &[usize]) -> Result<(), AllocError>
    ensures { OnOk result (out.new.items ≡ out.old.items ++ cited_lines ontology.now numbers.now) }
{
    for number in numbers {
        push_cited(out, ontology, *number)?;
    }
    Ok(())
}

/// A line for each axiom that the lines of a derivation cite, by ascending numbers: `axiom`, the number, and the axiom in the
/// functional syntax with full IRIs and single spaces, in memory.
///
/// # Errors
///
/// `Memory` where memory was refused.
pub fn cited_bytes(alloc: Global, ontology: &Ontology, lines: &[Line]) -> Result<Vec<u8>, Memory>
    ensures { IfOk result (λ v. IsCitedText ontology.now (lines_of lines.now) v.items) }
{
    let numbers = cited(alloc, lines)?;
    let mut out = Vec::new(alloc);
    push_all(&mut out, ontology, &numbers)?;
    Ok(out)
}
