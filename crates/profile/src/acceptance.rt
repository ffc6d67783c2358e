//! From a document's trees to an ontology.
ghost use Rattle.axioms.specs.Fronts.{Extends};
ghost use Rattle.fs_parser.specs.View.{tree_of, trees_of};
ghost use Rattle.profile.specs.Reading.{AreReadAs, Refuses};
ghost use Rattle.profile.specs.Intake.{AreTakenBehind};
ghost use Rattle.std.specs.Prelude.{IfErr, IfOk, OnOk, map};

use crate::fault::LaterLines;
use crate::ontology_reader::OntologyReader;
use axioms::{Memory, Ontology};
use fs_parser::{Document, Tree};
use shapes::{Fault, Version};
use std::alloc::Global;
use std::fmt;
use std::hash::RandomState;
use thiserror::Error;

/// Why a document's trees state no ontology.
#[derive(Debug, Drop, Error)]
pub enum Refusal {
    /// All their faults, in the order of the text.
    Faults(Vec<Fault>),
    /// A kind would have more than 1,000,000 names.
    TooManyNames,
    /// Memory was refused.
    Memory,
}

impl fmt::Display for Refusal {
    ghost use Rattle.profile.specs.Faults.{of_refusal};
    ghost use Rattle.profile.specs.Messages.{fault_text};
    ghost use Rattle.std.specs.Prelude.{Some};

    ghost output = { λ refusal. Some (fault_text (of_refusal refusal)) };

    fn fmt<W: fmt::Write>(&self, f: &mut fmt::Formatter<W>) -> fmt::Result {
        match self {
            Refusal::Faults(found) => match found.split_first() {
                Some((first, later)) => {
                    let later = LaterLines(later);
                    write!(f, "{first}{later}")
                }
                None => Ok(()),
            },
            Refusal::TooManyNames => write!(f, "A2"),
            Refusal::Memory => write!(f, "out of memory"),
        }
    }
}

pub(crate) fn take_all(reader: &mut OntologyReader, trees: &[Tree<'_>]) -> Result<(), Memory>
    ensures taken { OnOk result (AreTakenBehind (map tree_of trees.now) reader.old reader.new) }
    ensures kept { Extends reader.old.ontology reader.new.ontology }
{
    for tree in trees {
        reader.take(tree)?;
    }
    Ok(())
}

/// The ontology that the trees of a document state.
///
/// # Errors
///
/// Every fault of the trees, in the order of the text; `TooManyNames` where they have none, and of a kind more than
/// 1,000,000 names; `Memory` where memory was refused before the answer was there.
pub fn accept(
    alloc: Global,
    document: &Document<'_>,
    version: Version,
    state: RandomState,
) -> Result<Ontology, Refusal>
    ensures read { IfOk result (AreReadAs version (trees_of document.now.trees.items)) }
    ensures refused { IfErr result (λ r. Refuses version r (trees_of document.now.trees.items)) }
{
    let mut reader = match OntologyReader::start(alloc, version, state) {
        Ok(reader) => reader,
        Err(_) => return Err(Refusal::Memory),
    };
    match take_all(&mut reader, &document.trees) {
        Ok(()) => reader.finish(),
        Err(_) => {
            drop(reader);
            Err(Refusal::Memory)
        }
    }
}
