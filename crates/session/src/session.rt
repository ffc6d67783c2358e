//! A document that is opened, and run as far as is wanted.
ghost use Rattle.device.specs.Device.{HasFailed, LosesFront};
ghost use Rattle.profile.specs.Documents.{IsTaken};
ghost use Rattle.profile.specs.Faults.{IsReadWhole, OpensKnown, ReadsKnown, RefusesKnown};
ghost use Rattle.engine.specs.Saturations.{HasResumed, IsFinished, IsSaturated, IsSound, IsUnasked, Saturates, as_ended};
ghost use Rattle.session.specs.Sessions.{IsSession, KeepsText, as_read};
ghost use Rattle.std.specs.Io.KnownBytes.{IsAtEnd};
ghost use Rattle.std.specs.Prelude.{◌≡◌, ◌↔◌, ◌+◌, ◌<◌, ◌≤◌, [], IfErr, IfOk, IfSome, IsErrOf, IsSome, OnOk, length};

use axioms::Ontology;
use device::Source;
use engine::{Indexed, Saturation, Stop};
use fs_parser::Prefixes;
use profile::{DocumentFault, Limits, Opened, Version, read_opened};
use std::alloc::Global;
use std::hash::RandomState;
use std::marker::Model;

/// A document that was read, what was added to it, and what is known so far of what follows.
#[derive(Drop)]
pub struct Session {
    pub(crate) alloc: Global,
    pub(crate) state: RandomState,
    pub(crate) ontology: Ontology,
    pub(crate) prefixes: Prefixes,
    pub(crate) saturation: Saturation,
    // Of the document and of all that was added.
    pub(crate) bytes: usize,
    pub(crate) most_bytes: u64,
    // In which texts are read.
    pub(crate) version: Version,
}

impl Model for Session {
    ghost use Rattle.session.specs.Sessions as model;
    ghost use Rattle.session.specs.Sessions.{IsOpen};

    ghost Value = { model.Opened };

    ghost view = { λ s. record { ontology = s.ontology; prefixes = s.prefixes; saturation = s.saturation; bytes = s.bytes; most_bytes = s.most_bytes; version = s.version } };

    ghost invariant = { λ s. IsOpen (record { ontology = s.ontology; prefixes = s.prefixes; saturation = s.saturation; bytes = s.bytes; most_bytes = s.most_bytes; version = s.version }) };
}

/// A session over what was read, with nothing run.
fn begun(
    alloc: Global,
    opened: Opened,
    most_bytes: u64,
    state: RandomState,
) -> Result<Session, DocumentFault>
    requires taken { IsTaken opened.ontology }
    requires within { opened.bytes ≤ most_bytes }
    ensures read { IfOk result (λ s. as_read s ≡ opened) }
    ensures limit { IfOk result (λ s. s.most_bytes ≡ most_bytes) }
    ensures unserved { IfOk result (λ s. s.saturation.state.served ≡ []) }
    ensures memory { IfErr result (λ e. e ≡ DocumentFault.Memory) }
{
    let Opened {
        ontology,
        prefixes,
        bytes,
        version,
    } = opened;
    match Saturation::start(alloc, state, &ontology) {
        Ok(saturation) => Ok(Session {
            alloc,
            state,
            ontology,
            prefixes,
            saturation,
            bytes,
            most_bytes,
            version,
        }),
        Err(_) => {
            drop(ontology);
            drop(prefixes);
            Err(DocumentFault::Memory)
        }
    }
}

impl Session {
    /// A session over the document that the source gives, within the limit of bytes, which is one for all that is added, too. All texts
    /// are read in the version of the limits. Nothing is run.
    ///
    /// What was read of the source by then is lost where the answer is a fault.
    ///
    /// # Errors
    ///
    /// Those of `read_document`; `Memory` also where there are 2^32 - 1 fresh names of a kind.
    pub fn open<S: Source>(
        alloc: Global,
        source: &mut S,
        limits: &Limits,
        state: RandomState,
    ) -> Result<Session, DocumentFault>
        // The source's bytes read as the ontology; or they are refused, or too many, or the source failed in this call.
        ensures read { IfOk result (λ s. ReadsKnown limits.now.version (S.left source.old) limits.now.max_bytes s.ontology) }
        ensures taken { IfOk result (λ s. IsTaken s.ontology) }
        ensures axioms { IfOk result (λ s. length s.ontology.axioms ≤ limits.now.max_bytes) }
        ensures unserved { IfOk result (λ s. s.saturation.state.served ≡ []) }
        // So it has the prefixes of the document, and as many bytes; and the limit and the version are those of the call.
        ensures opened { IfOk result (λ s. OpensKnown limits.now.version (S.left source.old) limits.now.max_bytes (as_read s)) }
        ensures bytes { IfOk result (λ s. S.most source.new + s.bytes ≡ S.most source.old) }
        ensures limit { IfOk result (λ s. s.most_bytes ≡ limits.now.max_bytes) }
        ensures version { IfOk result (λ s. s.version ≡ limits.now.version) }
        ensures refused { IfErr result (RefusesKnown limits.now.version (S.left source.old) limits.now.max_bytes) }
        // Of a source that does not tell its bytes, too: it gave more than the limit.
        ensures beyond { IsErrOf result DocumentFault.TooLarge → S.most source.new + limits.now.max_bytes < S.most source.old }
        // What was read of the source, and whether a read failed.
        ensures end { OnOk result (IsAtEnd (S.left source.new)) }
        ensures whole { IfErr result (λ e. IsReadWhole e (S.left source.new)) }
        ensures lost { LosesFront (S.left source.old) (S.left source.new) (S.most source.old) (S.most source.new) }
        ensures unfailed { ¬ IsErrOf result DocumentFault.Io → S.failures source.new ≡ S.failures source.old }
        ensures failed { IsErrOf result DocumentFault.Io → HasFailed (S.failures source.old) (S.failures source.new) }
    {
        match read_opened(alloc, source, limits, state) {
            Ok(opened) => begun(alloc, opened, limits.max_bytes, state),
            Err(fault) => Err(fault),
        }
    }

    /// Finds out what follows, as long as that takes at most `max_facts` facts. Where nothing is pending, that needs no memory.
    ///
    /// # Errors
    ///
    /// `Limit` where the closure has more facts than `max_facts`, and `Memory` where memory was refused. After either the session
    /// is as far as it came, and it may be called again.
    pub fn resume(&mut self, max_facts: u32) -> Result<(), Stop>
        ensures ontology { self.new.ontology ≡ self.old.ontology }
        ensures others { KeepsText self.old self.new }
        // Served facts stay served, after a fault too.
        ensures resumed { HasResumed max_facts self.old.saturation self.new.saturation result }
        ensures saturates { Saturates self.new.ontology max_facts self.new.saturation result }
    {
        self.saturation.resume(max_facts)
    }

    /// Its facts are facts of the closure of its ontology, each once, of which some are served, each once; and where nothing is pending,
    /// they are the closure. It may be added to, and it has no more bytes than the limit.
    pub fn well_formed(&self)
        ensures session { IsSession self.now }
        ensures sound { IsSound self.now.ontology self.now.saturation }
        ensures saturated { IsFinished self.now.saturation → IsSaturated self.now.ontology (as_ended self.now.saturation) }
    {
        self.saturation.is_finished();
    }

    /// All that the ontology leads to, with the tables that find facts; none where facts are pending.
    pub(crate) fn indexed(&self) -> Option<Indexed<'_>>
        ensures some { IfSome result (λ i. i ≡ record { ontology = self.now.ontology; saturation = as_ended self.now.saturation }) }
        ensures unasked { IfSome result (λ i. IsUnasked i.saturation) }
        ensures finished { IsSome result ↔ IsFinished self.now.saturation }
    {
        self.saturation.indexed(&self.ontology)
    }

    /// How many facts there are. After a `resume` that ended with `Ok` they are those of the closure.
    pub fn facts(&self) -> usize
        ensures { result ≡ length self.now.saturation.state.facts }
    {
        self.saturation.facts().len()
    }

    /// How many of the facts are served, and not pending.
    pub fn served(&self) -> usize
        ensures { result ≡ length self.now.saturation.state.served }
    {
        self.saturation.served()
    }

    /// The ontology of the document and of what was added.
    pub fn ontology(&self) -> &Ontology
        ensures { result.now ≡ self.now.ontology }
    {
        &self.ontology
    }

    /// How many bytes the document and what was added have.
    pub fn bytes(&self) -> usize
        ensures { result ≡ self.now.bytes }
    {
        self.bytes
    }

    /// How many bytes the document and what was added may have.
    pub fn max_bytes(&self) -> u64
        ensures { result ≡ self.now.most_bytes }
    {
        self.most_bytes
    }
}
