//! Texts in pieces, written to a sink.
ghost use Rattle.std.specs.List.{flat_map};
ghost use Rattle.std.specs.Prelude.{OnErr, OnOk};
ghost use Rattle.telling.specs.Devices.{FailsIn, Takes, seen};

use device::{Failed, Sink, write_all};

/// Writes the pieces, one behind the other.
pub fn write_pieces<W: Sink>(sink: &mut W, pieces: &[&[u8]]) -> Result<(), Failed>
    ensures whole { OnOk result (Takes (seen W.Sink sink.old) (seen W.Sink sink.new) (flat_map (λ p. p.now) pieces.entry.now)) }
    ensures begun { OnErr result (FailsIn (seen W.Sink sink.old) (seen W.Sink sink.new) (flat_map (λ p. p.now) pieces.entry.now)) }
{
    for piece in pieces {
        if let Err(fault) = write_all(sink, *piece) {
            return Err(fault);
        }
    }
    Ok(())
}
