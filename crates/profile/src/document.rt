//! From bytes to an ontology.
ghost use Rattle.device.specs.Device.{HasFailed, LosesFront};
ghost use Rattle.profile.specs.Documents.{AreTextOf, IsTaken, OpensAs, ReadsAs};
ghost use Rattle.profile.specs.Faults.{IsOfForms, IsReadWhole, OpensKnown, ReadsKnown, Refuses, RefusesKnown};
ghost use Rattle.std.specs.Io.KnownBytes.{IsAtEnd};
ghost use Rattle.fs_parser.specs.View.{document_of};
ghost use Rattle.std.specs.Prelude.{◌≡◌, ◌+◌, ◌<◌, ◌≤◌, IfErr, IfOk, IsErrOf, OnOk, length};

use crate::acceptance::accept;
use crate::fault::DocumentFault;
use crate::opened::Opened;
use crate::streamed::streamed;
use axioms::Ontology;
use device::{ReadFault, Source, read_all};
use fs_lexer::tokens;
use fs_parser::{Document, Prefixes, forms, tokens_are_one_document};
use program::{Limits, Version};
use std::alloc::Global;
use std::hash::RandomState;
use std::str;

/// The document that a text is, by the list of its tokens, which are gone when its trees are there.
///
/// # Errors
///
/// `Lex` or `Parse` where the text is no document; `Memory` where memory was refused.
pub fn listed_document<'a>(alloc: Global, text: &'a str) -> Result<Document<'a>, DocumentFault>
    ensures written { IfOk result (λ d. AreTextOf text.now (document_of d)) }
    ensures refused { IfErr result (λ e. (version : Version) → Refuses version e text.now) }
    ensures kind { IfErr result IsOfForms }
{
    let tokens = match tokens(alloc, text) {
        Ok(tokens) => tokens,
        Err(fault) => return Err(DocumentFault::from(fault)),
    };
    match forms(alloc, &tokens) {
        Ok(document) => Ok(document),
        Err(fault) => Err(DocumentFault::from(fault)),
    }
}

/// What a text reads as, by the document with all its trees.
fn listed_text(
    alloc: Global,
    text: &str,
    version: Version,
    state: RandomState,
) -> Result<Opened, DocumentFault>
    ensures read { IfOk result (OpensAs version text.now) }
    ensures taken { IfOk result (λ d. IsTaken d.ontology) }
    ensures refused { IfErr result (λ e. Refuses version e text.now) }
{
    let document = match listed_document(alloc, text) {
        Ok(document) => document,
        Err(fault) => return Err(fault),
    };
    tokens_are_one_document();
    let prefixes = match Prefixes::of(alloc, &document.prefixes) {
        Ok(prefixes) => prefixes,
        Err(_) => return Err(DocumentFault::Memory),
    };
    match accept(alloc, &document, version, state) {
        Ok(ontology) => {
            ontology.well_formed();
            Ok(Opened {
                ontology,
                prefixes,
                version,
                bytes: text.len(),
            })
        }
        Err(refusal) => Err(DocumentFault::from(refusal)),
    }
}

/// What a text reads as. Its trees are read one by one; the lists of all tokens and of all trees are made only where it is no
/// document, for the fault.
fn read_text(
    alloc: Global,
    text: &str,
    version: Version,
    state: RandomState,
) -> Result<Opened, DocumentFault>
    ensures read { IfOk result (OpensAs version text.now) }
    ensures taken { IfOk result (λ d. IsTaken d.ontology) }
    ensures refused { IfErr result (λ e. Refuses version e text.now) }
{
    match streamed(alloc, text, version, state) {
        Some(answer) => answer,
        None => listed_text(alloc, text, version, state),
    }
}

/// What the bytes of a document read as.
fn opened_bytes(
    alloc: Global,
    bytes: &[u8],
    version: Version,
    state: RandomState,
) -> Result<Opened, DocumentFault>
    ensures read { IfOk result (OpensAs version bytes.now) }
    ensures taken { IfOk result (λ d. IsTaken d.ontology) }
    ensures axioms { IfOk result (λ d. length d.ontology.axioms ≤ d.bytes) }
    ensures refused { IfErr result (λ e. Refuses version e bytes.now) }
{
    match str::from_utf8(bytes) {
        Ok(text) => read_text(alloc, text, version, state),
        Err(error) => Err(DocumentFault::NotUtf8 {
            at: error.valid_up_to(),
        }),
    }
}

/// The ontology that the bytes of a document read as in this version of the profile. Each of its names can be written where
/// names of its kind may stand.
///
/// # Errors
///
/// `NotUtf8`, `Lex` or `Parse` where the bytes are no document; `Faults`, with every one in the order of the text, where the
/// document is not of the profile; `TooManyNames` where it is, and has of a kind more than 1,000,000 names; `Memory` where
/// memory was refused before the answer was there.
pub fn read_bytes(
    alloc: Global,
    bytes: &[u8],
    version: Version,
    state: RandomState,
) -> Result<Ontology, DocumentFault>
    ensures read { IfOk result (ReadsAs version bytes.now) }
    ensures taken { IfOk result IsTaken }
    ensures axioms { IfOk result (λ o. length o.axioms ≤ length bytes.now) }
    ensures refused { IfErr result (λ e. Refuses version e bytes.now) }
{
    match opened_bytes(alloc, bytes, version, state) {
        Ok(opened) => Ok(opened.ontology),
        Err(fault) => Err(fault),
    }
}

/// The document that the source gives, within the limit of bytes and in the version of the limits: its ontology, its prefixes,
/// and how many bytes it has. Each name of the ontology can be written where names of its kind may stand.
///
/// What was read of the source by then is lost where the answer is a fault.
///
/// # Errors
///
/// `TooLarge` where there are more bytes than the limit, `Io` where the source failed in this call, and those of `read_bytes`.
pub fn read_opened<S: Source>(
    alloc: Global,
    source: &mut S,
    limits: &Limits,
    state: RandomState,
) -> Result<Opened, DocumentFault>
    // The source's bytes read as this ontology, with these prefixes, and are so many; or they are refused, or too many, or the
    // source failed in this call.
    ensures read { IfOk result (OpensKnown limits.now.version (S.left source.old) limits.now.max_bytes) }
    ensures taken { IfOk result (λ d. IsTaken d.ontology) }
    ensures axioms { IfOk result (λ d. length d.ontology.axioms ≤ d.bytes) }
    ensures refused { IfErr result (RefusesKnown limits.now.version (S.left source.old) limits.now.max_bytes) }
    // Of a source that does not tell its bytes, too: the version, how many it gave, and that it gave more than the limit.
    ensures version { IfOk result (λ d. d.version ≡ limits.now.version) }
    ensures within { IfOk result (λ d. d.bytes ≤ limits.now.max_bytes) }
    ensures bytes { IfOk result (λ d. S.most source.new + d.bytes ≡ S.most source.old) }
    ensures beyond { IsErrOf result DocumentFault.TooLarge → S.most source.new + limits.now.max_bytes < S.most source.old }
    // What was read of the source, and whether a read failed.
    ensures end { OnOk result (IsAtEnd (S.left source.new)) }
    ensures whole { IfErr result (λ e. IsReadWhole e (S.left source.new)) }
    ensures lost { LosesFront (S.left source.old) (S.left source.new) (S.most source.old) (S.most source.new) }
    ensures unfailed { ¬ IsErrOf result DocumentFault.Io → S.failures source.new ≡ S.failures source.old }
    ensures failed { IsErrOf result DocumentFault.Io → HasFailed (S.failures source.old) (S.failures source.new) }
{
    let most = limits.max_bytes as usize;
    match read_all(alloc, source, most) {
        Ok(bytes) => opened_bytes(alloc, &bytes, limits.version, state),
        Err(ReadFault::TooLarge) => Err(DocumentFault::TooLarge),
        Err(ReadFault::Failed) => Err(DocumentFault::Io),
        Err(ReadFault::Memory) => Err(DocumentFault::Memory),
    }
}

/// The ontology of the document that the source gives, within the limit of bytes and in the version of the limits. Each of its
/// names can be written where names of its kind may stand.
///
/// What was read of the source by then is lost where the answer is a fault.
///
/// # Errors
///
/// `TooLarge` where there are more bytes than the limit, `Io` where the source failed in this call, and those of `read_bytes`.
pub fn read_document<S: Source>(
    alloc: Global,
    source: &mut S,
    limits: &Limits,
    state: RandomState,
) -> Result<Ontology, DocumentFault>
    // The source's bytes read as this ontology; or they are refused, or too many, or the source failed in this call.
    ensures read { IfOk result (ReadsKnown limits.now.version (S.left source.old) limits.now.max_bytes) }
    ensures taken { IfOk result IsTaken }
    ensures axioms { IfOk result (λ o. length o.axioms ≤ limits.now.max_bytes) }
    ensures refused { IfErr result (RefusesKnown limits.now.version (S.left source.old) limits.now.max_bytes) }
    // Of a source that does not tell its bytes, too: it gave more than the limit.
    ensures beyond { IsErrOf result DocumentFault.TooLarge → S.most source.new + limits.now.max_bytes < S.most source.old }
    // What was read of the source, and whether a read failed.
    ensures end { OnOk result (IsAtEnd (S.left source.new)) }
    ensures whole { IfErr result (λ e. IsReadWhole e (S.left source.new)) }
    ensures lost { LosesFront (S.left source.old) (S.left source.new) (S.most source.old) (S.most source.new) }
    ensures unfailed { ¬ IsErrOf result DocumentFault.Io → S.failures source.new ≡ S.failures source.old }
    ensures failed { IsErrOf result DocumentFault.Io → HasFailed (S.failures source.old) (S.failures source.new) }
{
    match read_opened(alloc, source, limits, state) {
        Ok(opened) => Ok(opened.ontology),
        Err(fault) => Err(fault),
    }
}
