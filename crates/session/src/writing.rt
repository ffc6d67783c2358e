//! The three texts of a classification, written to sinks.
ghost use Rattle.session.specs.WrittenTexts.{KeepPaths, WritesTexts};

use classification::Classification;
use device::{Sink, write_all};

/// Writes the texts to the three sinks, in their order.
///
/// # Errors
///
/// The number of the sink that failed.
pub fn write_texts<T: Sink, I: Sink, C: Sink>(
    made: &Classification,
    taxonomy: &mut T,
    instances: &mut I,
    certificate: &mut C,
) -> Result<(), usize>
    ensures written { WritesTexts T.Sink I.Sink C.Sink made.now
        (taxonomy.old, instances.old, certificate.old) (taxonomy.new, instances.new, certificate.new) result }
    ensures paths { KeepPaths T.Sink I.Sink C.Sink (taxonomy.old, instances.old, certificate.old) (taxonomy.new, instances.new, certificate.new) }
{
    if write_all(taxonomy, &made.taxonomy).is_err() {
        return Err(1);
    }
    if write_all(instances, &made.instances).is_err() {
        return Err(2);
    }
    if write_all(certificate, &made.certificate).is_err() {
        return Err(3);
    }
    Ok(())
}
