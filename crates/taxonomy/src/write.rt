//! The texts, written to a sink.
ghost use Rattle.device.specs.Device.{AppendsPrefix, HasFailed};
ghost use Rattle.std.specs.Io.KnownBytes.{Appends, Keeps};
ghost use Rattle.std.specs.Prelude.{◌≡◌, ◌≤◌, IsErrOf, OnOk};
ghost use Rattle.taxonomy.specs.Outcome.{IsMadeFor, instances_of, taxonomy_of};

use crate::outcome::{Outcome, instances_bytes, taxonomy_bytes};
use axioms::Ontology;
use device::{Sink, WriteFault, write_all};
use std::alloc::Global;

/// Writes the taxonomy text.
///
/// `Io` comes only where the sink failed in this call. After `Memory` it did not fail and has taken nothing. After either
/// it has taken a prefix of the text.
pub fn write_taxonomy<S: Sink>(
    alloc: Global,
    ontology: &Ontology,
    outcome: &Outcome,
    sink: &mut S,
) -> Result<(), WriteFault>
    requires { IsMadeFor ontology.now outcome.now }
    ensures ok { OnOk result (Appends (S.taken sink.old) (S.taken sink.new) (taxonomy_of ontology.now outcome.now)) }
    ensures begun { AppendsPrefix (S.taken sink.old) (S.taken sink.new) (taxonomy_of ontology.now outcome.now) }
    ensures io { IsErrOf result WriteFault.Io → HasFailed (S.failures sink.old) (S.failures sink.new) }
    ensures untouched { IsErrOf result WriteFault.Memory → Keeps (S.taken sink.old) (S.taken sink.new) }
    ensures untried { IsErrOf result WriteFault.Memory → S.failures sink.new ≡ S.failures sink.old }
    ensures unfailed { OnOk result (S.failures sink.new ≡ S.failures sink.old) }
    ensures count { S.failures sink.old ≤ S.failures sink.new }
{
    let text = taxonomy_bytes(alloc, ontology, outcome)?;
    write_all(sink, &text)?;
    Ok(())
}

/// Writes the instances text.
///
/// `Io` comes only where the sink failed in this call. After `Memory` it did not fail and has taken nothing. After either
/// it has taken a prefix of the text.
pub fn write_instances<S: Sink>(
    alloc: Global,
    ontology: &Ontology,
    outcome: &Outcome,
    sink: &mut S,
) -> Result<(), WriteFault>
    requires { IsMadeFor ontology.now outcome.now }
    ensures ok { OnOk result (Appends (S.taken sink.old) (S.taken sink.new) (instances_of ontology.now outcome.now)) }
    ensures begun { AppendsPrefix (S.taken sink.old) (S.taken sink.new) (instances_of ontology.now outcome.now) }
    ensures io { IsErrOf result WriteFault.Io → HasFailed (S.failures sink.old) (S.failures sink.new) }
    ensures untouched { IsErrOf result WriteFault.Memory → Keeps (S.taken sink.old) (S.taken sink.new) }
    ensures untried { IsErrOf result WriteFault.Memory → S.failures sink.new ≡ S.failures sink.old }
    ensures unfailed { OnOk result (S.failures sink.new ≡ S.failures sink.old) }
    ensures count { S.failures sink.old ≤ S.failures sink.new }
{
    let text = instances_bytes(alloc, ontology, outcome)?;
    write_all(sink, &text)?;
    Ok(())
}
