//! What the program prints, and its statuses.
ghost use Rattle.cli.specs.Messages.{IsClassifyMessage, consistency as word_of, summary_text, version_text, written_path as path_written};
ghost use Rattle.std.specs.Prelude.{◌≡◌, IfOk};
ghost use Rattle.telling.specs.Devices.{seen};
ghost use Rattle.telling.specs.Printing.{IsPrinted};

use crate::fault::ClassifyFault;
use classification::Summary;
use command_line::Paths;
use device::Sink;
use itoa::Buffer;
use profile::Limits;
use program::{Status, VERSION};
use std::alloc::{AllocError, Global};
use telling::{Message, document_message, message_of, print_pieces, unwritten_message};

/// The path of the file that is written as that number: 1 is the taxonomy's.
pub(crate) fn written_path<'a>(paths: &Paths<'a>, number: usize) -> &'a str
    ensures { result.now ≡ path_written paths.now number }
{
    match number {
        1 => paths.taxonomy,
        2 => paths.instances,
        3 => paths.certificate,
        _ => "",
    }
}

/// What to tell where the document was not classified.
pub(crate) fn classify_message(
    alloc: Global,
    fault: &ClassifyFault,
    paths: &Paths<'_>,
    limits: &Limits,
) -> Result<Message, AllocError>
    ensures { IfOk result (IsClassifyMessage paths.now limits.now fault.now) }
{
    match fault {
        ClassifyFault::Document(fault) => document_message(alloc, fault, paths.document, limits),
        ClassifyFault::Memory => message_of(
            String::from_str(alloc, "out of memory\n"),
            Status::Memory,
        ),
        ClassifyFault::Limit => {
            let most = limits.max_facts;
            message_of(
                format!(in alloc; "limit: more than {most} facts\n"),
                Status::Limit,
            )
        }
        ClassifyFault::Io(number) => unwritten_message(alloc, written_path(paths, *number)),
    }
}

/// The word that says whether the axioms have an interpretation.
fn consistency(consistent: bool) -> &'static str
    ensures { result.now ≡ word_of consistent }
{
    if consistent {
        "consistent"
    } else {
        "inconsistent"
    }
}

/// Prints the line of counts. It needs no memory.
pub(crate) fn print_summary<O: Sink>(out: &mut O, summary: &Summary) -> u8
    ensures { IsPrinted (seen O.Sink out.old) (seen O.Sink out.new) (summary_text summary.now) Status.Done result }
{
    let mut classes = Buffer::new();
    let mut individuals = Buffer::new();
    let mut facts = Buffer::new();
    let pieces = [
        consistency(summary.consistent).as_bytes(),
        b" classes ".as_slice(),
        classes.format(summary.classes).as_bytes(),
        b" individuals ".as_slice(),
        individuals.format(summary.individuals).as_bytes(),
        b" facts ".as_slice(),
        facts.format(summary.facts).as_bytes(),
        b"\n".as_slice(),
    ];
    print_pieces(out, &pieces, Status::Done)
}

/// Prints the name of the program and its version. It needs no memory.
pub(crate) fn print_version<O: Sink>(out: &mut O) -> u8
    ensures { IsPrinted (seen O.Sink out.old) (seen O.Sink out.new) version_text Status.Done result }
{
    let pieces = [b"elc ".as_slice(), VERSION.as_bytes(), b"\n".as_slice()];
    print_pieces(out, &pieces, Status::Done)
}
