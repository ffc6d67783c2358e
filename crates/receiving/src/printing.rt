//! What is printed of checks and conversions, and the statuses.
ghost use Rattle.receiving.specs.Messages.{IsCheckText, check_status, name_at, read_path as path_read, reason_text as text_of_reason, rejected_text, unconverted_text, verdict_status, verdict_text};
ghost use Rattle.std.specs.Fmt.{decimal};
ghost use Rattle.std.specs.Prelude.{◌≡◌, ◌++◌, IfOk, codes, map, string_bytes};
ghost use Rattle.telling.specs.Devices.{seen};
ghost use Rattle.telling.specs.Printing.{IsPrinted};

use crate::fault::CheckFault;
use axioms::Ontology;
use cert_check::{Reason, Verdict};
use command_line::Paths;
use device::Sink;
use itoa::Buffer;
use profile::Limits;
use program::Status;
use std::alloc::{AllocError, Global};
use telling::{Message, document_message, message_of, print, print_pieces, unread_message};

/// The path of the file that is read as that number: 2 is the taxonomy's.
fn read_path<'a>(paths: &Paths<'a>, number: usize) -> &'a str
    ensures { result.now ≡ path_read paths.now number }
{
    match number {
        2 => paths.taxonomy,
        3 => paths.instances,
        4 => paths.certificate,
        _ => "",
    }
}

/// What to tell where the texts were not checked.
pub(crate) fn check_message(
    alloc: Global,
    fault: &CheckFault,
    paths: &Paths<'_>,
    limits: &Limits,
) -> Result<Message, AllocError>
    ensures { IfOk result (λ m. IsCheckText paths.now limits.now.max_bytes fault.now (string_bytes m.text) × (m.status ≡ check_status fault.now)) }
{
    match fault {
        CheckFault::Document(fault) => document_message(alloc, fault, paths.document, limits),
        CheckFault::Memory => message_of(
            String::from_str(alloc, "out of memory\n"),
            Status::Memory,
        ),
        CheckFault::Io(number) => unread_message(alloc, read_path(paths, *number)),
    }
}

/// The name of that number, or nothing where there is none.
fn name_of(names: &[String], number: usize) -> &str
    ensures { result.now ≡ name_at (map string_bytes names.now) number }
{
    match names.get(number) {
        Some(name) => name.as_str(),
        None => "",
    }
}

/// Prints that the texts are rejected by a reason of a word and a number.
pub(crate) fn print_numbered<O: Sink>(out: &mut O, word: &str, number: usize) -> u8
    ensures { IsPrinted (seen O.Sink out.old) (seen O.Sink out.new) (rejected_text (word.now ++ decimal number)) Status.Rejected result }
{
    let mut buffer = Buffer::new();
    let pieces = [
        b"rejected: ".as_slice(),
        word.as_bytes(),
        buffer.format(number).as_bytes(),
        b"\n".as_slice(),
    ];
    print_pieces(out, &pieces, Status::Rejected)
}

/// Prints that a certificate has no text in the format, for a premise of the line of that number.
pub(crate) fn print_unconverted<O: Sink>(out: &mut O, line: usize) -> u8
    ensures { IsPrinted (seen O.Sink out.old) (seen O.Sink out.new) (unconverted_text line) Status.Rejected result }
{
    let mut buffer = Buffer::new();
    let pieces = [
        b"cannot convert line ".as_slice(),
        buffer.format(line).as_bytes(),
        b"\n".as_slice(),
    ];
    print_pieces(out, &pieces, Status::Rejected)
}

/// Prints that the texts are rejected by a reason of a word and a name.
fn print_named<O: Sink>(out: &mut O, word: &str, name: &str) -> u8
    ensures { IsPrinted (seen O.Sink out.old) (seen O.Sink out.new) (rejected_text (word.now ++ (name.now ++ codes ">"))) Status.Rejected result }
{
    let pieces = [
        b"rejected: ".as_slice(),
        word.as_bytes(),
        name.as_bytes(),
        b">\n".as_slice(),
    ];
    print_pieces(out, &pieces, Status::Rejected)
}

/// Prints that the texts are rejected by this reason.
fn print_reason<O: Sink>(out: &mut O, ontology: &Ontology, reason: &Reason) -> u8
    ensures { IsPrinted (seen O.Sink out.old) (seen O.Sink out.new) (rejected_text (text_of_reason ontology.now reason.now)) Status.Rejected result }
{
    match reason {
        Reason::BadText { at } => print_numbered(out, "C1 at byte ", *at),
        Reason::BadLine { number } => print_numbered(out, "C2 line ", *number),
        Reason::AxiomFails { axiom } => print_numbered(out, "C3 axiom ", *axiom),
        Reason::ClaimMissing { class } => {
            print_named(out, "C4 <", name_of(ontology.classes(), class.index()))
        }
        Reason::ClaimDisagrees { class } => {
            print_named(out, "C5 <", name_of(ontology.classes(), class.index()))
        }
        Reason::IndividualDisagrees { individual } => {
            print_named(
                out,
                "C6 <",
                name_of(ontology.individuals(), individual.index()),
            )
        }
        Reason::NoContradiction => print(out, "rejected: C7\n", Status::Rejected),
        Reason::TaxonomyDiffers { at } => print_numbered(out, "C8 at byte ", *at),
        Reason::InstancesDiffer { at } => print_numbered(out, "C9 at byte ", *at),
    }
}

/// Prints the line of a verdict. It needs no memory.
pub(crate) fn print_verdict<O: Sink>(out: &mut O, ontology: &Ontology, verdict: &Verdict) -> u8
    ensures { IsPrinted (seen O.Sink out.old) (seen O.Sink out.new) (verdict_text ontology.now verdict.now) (verdict_status verdict.now) result }
{
    match verdict {
        Verdict::Accepted => print(out, "accepted\n", Status::Done),
        Verdict::Rejected(reason) => print_reason(out, ontology, reason),
    }
}
