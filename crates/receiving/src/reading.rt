//! Documents that are read.
ghost use Rattle.profile.specs.Faults.{ReadsKnown, RefusesKnown};
ghost use Rattle.profile.specs.declared.fault.DocumentFault.TheVariants as faults;
ghost use Rattle.telling.specs.Devices.{IsReadIn, seen};
ghost use Rattle.telling.specs.Progress.{IsProgress};
ghost use Rattle.source_lines.specs.Sources.{source_state};
ghost use Rattle.std.specs.Prelude.{◌+◌, ◌<◌, IfErr, IfOk, IsErrOf};

use crate::asked::Means;
use axioms::Ontology;
use device::{Sink, Source};
use profile::{DocumentFault, Limits, read_opened};
use telling::{Stage, tell_stage};

/// The ontology of the document that the source gives. Where progress is told, the sink is told what was read.
pub(crate) fn read_telling<S: Source, W: Sink>(
    means: Means,
    source: &mut S,
    limits: &Limits,
    told: bool,
    sink: &mut W,
) -> Result<Ontology, DocumentFault>
    ensures reads { IfOk result (ReadsKnown limits.now.version (S.left source.old) limits.now.max_bytes) }
    ensures refused { IfErr result (RefusesKnown limits.now.version (S.left source.old) limits.now.max_bytes) }
    ensures beyond { IsErrOf result faults.TooLarge → S.most source.new + limits.now.max_bytes < S.most source.old }
    ensures read { IsReadIn result (source_state S.Source source.old) (source_state S.Source source.new) }
    ensures progress { IsProgress told (seen W.Sink sink.old) (seen W.Sink sink.new) }
{
    match read_opened(means.alloc, source, limits, means.state) {
        Ok(opened) => {
            let bytes = opened.bytes;
            let axioms = opened.ontology.axioms().len();
            tell_stage(sink, told, &Stage::Read { bytes, axioms });
            Ok(opened.ontology)
        }
        Err(fault) => Err(fault),
    }
}
