//! What is wrong in a document.

use std::fmt;
use thiserror::Error;

/// What is wrong in a document, and the byte of the source where it stands.
#[derive(Debug, Drop, Error)]
pub enum Fault {
    /// This keyword is one of OWL 2 and not of the profile.
    RefusedConstruct { at: usize, keyword: String },
    /// This keyword is none of OWL 2.
    UnknownKeyword { at: usize, keyword: String },
    /// This tree may not stand here, or has too few or too many operands.
    WrongShape { at: usize },
    /// This operand equals an earlier one, where all have to be distinct.
    RepeatedOperand { at: usize },
    /// This name is reserved.
    ReservedName { at: usize },
    /// Anonymous individuals are not in the profile.
    Anonymous { at: usize },
    /// The ontology has no such name.
    UnknownName { at: usize },
}

impl fmt::Display for Fault {
    ghost use Rattle.std.specs.Prelude.{Some};
    ghost use Rattle.shapes.specs.Messages.{fault_text};
    ghost use Rattle.shapes.specs.View.{fault_of};

    ghost output = { λ fault. Some (fault_text (fault_of fault)) };

    fn fmt<W: fmt::Write>(&self, f: &mut fmt::Formatter<W>) -> fmt::Result {
        match self {
            Fault::RefusedConstruct { at, keyword } => write!(f, "F1 at byte {at}: {keyword}"),
            Fault::UnknownKeyword { at, keyword } => write!(f, "F2 at byte {at}: {keyword}"),
            Fault::WrongShape { at } => write!(f, "F3 at byte {at}"),
            Fault::RepeatedOperand { at } => write!(f, "F4 at byte {at}"),
            Fault::ReservedName { at } => write!(f, "F5 at byte {at}"),
            Fault::Anonymous { at } => write!(f, "F6 at byte {at}"),
            Fault::UnknownName { at } => write!(f, "F8 at byte {at}"),
        }
    }
}
