//! A session that grows.
ghost use Rattle.session.specs.Additions.{IsAddition, IsRefusedAddition};
ghost use Rattle.std.specs.Prelude.{◌≡◌, ◌+◌, ◌<◌, ◌≤◌, IfErr, IfNone, IfSome, OnErr, OnOk, length};

use crate::session::Session;
use profile::{DocumentFault, read_addition};

impl Session {
    /// How many bytes there are with the text, where there may be so many.
    pub(crate) fn bytes_with(&self, text: &str) -> Option<usize>
        ensures counted { IfSome result (λ n. n ≡ self.now.bytes + length text.now) }
        ensures within { IfSome result (λ n. n ≤ self.now.most_bytes) }
        ensures beyond { IfNone result (self.now.most_bytes < self.now.bytes + length text.now) }
    {
        let room = self.most_bytes - self.bytes as u64;
        if text.len() as u64 <= room {
            Some(self.bytes + text.len())
        } else {
            None
        }
    }

    /// Adds what the text states, axioms and declarations without an `Ontology( .. )` around them, whose names are expanded with the
    /// prefixes of the document, read in the session's version. Nothing is run: each fact stays at its place, and those that something new asks for are pending again.
    /// Where nothing new asks for a served fact, as many are served as before; where the text brings nothing new, nothing is pending that
    /// was not before.
    ///
    /// # Errors
    ///
    /// `TooLarge`, before all others, where the document, what was added and this text have more bytes than the limit. Places count the
    /// bytes of this text: `Lex` or `Parse` where it is no trees of which at most 64 parentheses are open at once; `Faults`, with every
    /// one in the order of the text, where they are not of the profile; `TooManyNames` where they are, and with them a kind has more
    /// than 1,000,000 names; `Memory` where memory was refused, or there would be 2^32 forms or facts or 2^32 - 1 fresh names of a
    /// kind. After any of them the session is as it was.
    pub fn add(&mut self, text: &str) -> Result<(), DocumentFault>
        ensures added { OnOk result (IsAddition self.old text.now self.new) }
        ensures refused { IfErr result (IsRefusedAddition self.old text.now) }
        ensures err { OnErr result (self.new ≡ self.old) }
    {
        let Some(bytes) = self.bytes_with(text) else {
            return Err(DocumentFault::TooLarge);
        };
        let old = self.ontology.lengths();
        let (version, state) = (self.version, self.state);
        let (ontology, prefixes) = (&mut self.ontology, &self.prefixes);
        match read_addition(self.alloc, ontology, prefixes, version, text, state) {
            Ok(()) => {}
            Err(fault) => return Err(fault),
        }
        match self.saturation.extend(old, &self.ontology) {
            Ok(()) => {
                self.bytes = bytes;
                Ok(())
            }
            Err(_) => {
                self.ontology.truncate(old);
                Err(DocumentFault::Memory)
            }
        }
    }
}
