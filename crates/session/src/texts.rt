//! The texts of a session.
ghost use Rattle.session.specs.Answers.{IsMade, IsUnmade, Writes};
ghost use Rattle.session.specs.WrittenTexts.{KeepPaths, texts_of};
ghost use Rattle.std.specs.Prelude.{IfErr, IfOk};

use crate::fault::WritingFault;
use crate::session::Session;
use crate::writing::write_texts;
use certificate::Format;
use classification::{Classification, Summary, classified};
use device::Sink;

impl Session {
    /// The three texts, with a certificate in the format, and the counts.
    fn made(&self, format: Format) -> Result<Classification, WritingFault>
        ensures made { IfOk result (λ c. IsMade self.now format c.summary (texts_of c)) }
        ensures unmade { IfErr result (IsUnmade self.now) }
    {
        let Some(indexed) = self.indexed() else {
            return Err(WritingFault::Unfinished);
        };
        match classified(indexed.closed(), format) {
            Ok(made) => Ok(made),
            Err(_) => Err(WritingFault::Memory),
        }
    }

    /// Writes the taxonomy, the instances and the certificate, which is in the format, in this order, and gives the counts. All three
    /// are made in memory before anything is written.
    ///
    /// # Errors
    ///
    /// `Unfinished`, before all others, where facts are pending; `Memory` where memory was refused; `Io` with the number of a sink
    /// that failed.
    pub fn write<T: Sink, I: Sink, C: Sink>(
        &self,
        taxonomy: &mut T,
        instances: &mut I,
        certificate: &mut C,
        format: Format,
    ) -> Result<Summary, WritingFault>
        // What the answer says of the session, and what each sink has taken; a sink is named only where it failed.
        ensures written { Writes T.Sink I.Sink C.Sink self.now format
            (taxonomy.old, instances.old, certificate.old) (taxonomy.new, instances.new, certificate.new) result }
        ensures paths { KeepPaths T.Sink I.Sink C.Sink (taxonomy.old, instances.old, certificate.old) (taxonomy.new, instances.new, certificate.new) }
    {
        let made = match self.made(format) {
            Ok(made) => made,
            Err(fault) => return Err(fault),
        };
        match write_texts(&made, taxonomy, instances, certificate) {
            Ok(()) => Ok(made.summary),
            Err(number) => Err(WritingFault::Io(number)),
        }
    }
}
