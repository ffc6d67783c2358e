//! Progress: what is being done, and how far it is.
ghost use Rattle.telling.specs.Devices.{FailsIn, Takes, seen};
ghost use Rattle.telling.specs.Progress.{IsProgress, IsStageTold, counted, stage_text};
ghost use Rattle.std.specs.Prelude.{OnErr, OnOk, codes};

use crate::pieces::write_pieces;
use device::{Failed, Sink};
use itoa::Buffer;

/// What has been done.
#[derive(Clone, Copy, Debug, PartialEq, Eq)]
pub enum Stage {
    /// The document was read: how many bytes and how many axioms it has.
    Read { bytes: usize, axioms: usize },
    /// Facts were drawn: how many there are, and how many of these are pending.
    Drawn { facts: usize, pending: usize },
    /// The three texts were made: how many lines and how many bytes the certificate has.
    Made { lines: usize, bytes: usize },
    /// The three texts were written: how many bytes the first and the last of them have.
    Written { taxonomy: usize, certificate: usize },
    /// The texts that are to be checked were read, but for the certificate: how many bytes they have.
    TextsRead { taxonomy: usize, instances: usize },
}

/// Writes two numbers, with words before, between and behind them.
fn write_counted<W: Sink>(
    sink: &mut W,
    before: &str,
    first: usize,
    between: &str,
    second: usize,
) -> Result<(), Failed>
    ensures whole { OnOk result (Takes (seen W.Sink sink.old) (seen W.Sink sink.new) (counted before.now first between.now second (codes "\n"))) }
    ensures begun { OnErr result (FailsIn (seen W.Sink sink.old) (seen W.Sink sink.new) (counted before.now first between.now second (codes "\n"))) }
{
    let mut digits = Buffer::new();
    let mut others = Buffer::new();
    let pieces = [
        before.as_bytes(),
        digits.format(first).as_bytes(),
        between.as_bytes(),
        others.format(second).as_bytes(),
        b"\n".as_slice(),
    ];
    write_pieces(sink, &pieces)
}

/// Writes the line of the stage.
fn write_stage<W: Sink>(sink: &mut W, stage: &Stage) -> Result<(), Failed>
    ensures whole { OnOk result (Takes (seen W.Sink sink.old) (seen W.Sink sink.new) (stage_text stage.now)) }
    ensures begun { OnErr result (FailsIn (seen W.Sink sink.old) (seen W.Sink sink.new) (stage_text stage.now)) }
{
    match stage {
        Stage::Read { bytes, axioms } => {
            write_counted(sink, "read: bytes ", *bytes, " axioms ", *axioms)
        }
        Stage::Drawn { facts, pending } => {
            write_counted(sink, "drawn: facts ", *facts, " pending ", *pending)
        }
        Stage::Made { lines, bytes } => {
            write_counted(sink, "made: certificate lines ", *lines, " bytes ", *bytes)
        }
        Stage::Written {
            taxonomy,
            certificate,
        } => {
            write_counted(
                sink,
                "written: taxonomy bytes ",
                *taxonomy,
                " certificate bytes ",
                *certificate,
            )
        }
        Stage::TextsRead {
            taxonomy,
            instances,
        } => {
            write_counted(
                sink,
                "read: taxonomy bytes ",
                *taxonomy,
                " instances bytes ",
                *instances,
            )
        }
    }
}

/// Tells the stage by a line, where progress is told. It needs no memory, and what the sink does not take is left out.
pub fn tell_stage<W: Sink>(sink: &mut W, told: bool, stage: &Stage)
    ensures line { IsStageTold told stage.now (seen W.Sink sink.old) (seen W.Sink sink.new) }
    ensures progress { IsProgress told (seen W.Sink sink.old) (seen W.Sink sink.new) }
{
    if !told {
        return;
    }
    match write_stage(sink, stage) {
        Ok(()) => {}
        Err(_) => {}
    }
}
