//! A classification with its texts.
ghost use Rattle.cert_check.specs.Acceptance.{AreRight, IsAcceptable};
ghost use Rattle.classification.specs.Classifications.{AreCountsOf, AreTextsOf, IsWrittenIn};
ghost use Rattle.classification.specs.Findings.{IsCertificateOf, IsOutcomeOf};
ghost use Rattle.exactness.specs.ListedInterpretation.{IsConsistent};
ghost use Rattle.engine.specs.Saturations.{IsUnasked};
ghost use Rattle.std.specs.Prelude.{◌↔◌, ◌≡◌, IfOk, IsTrue, false, length, true};
ghost use Rattle.taxonomy.specs.Following.{IsWhatFollows};
ghost use Rattle.taxonomy.specs.Outcome.{IsMadeFor};

use crate::consistent::has_no_contradiction;
use crate::relation::taxonomy_of;
use crate::types::types_of;
use axioms::Memory;
use certificate::{Format, FormatOne, FormatTwo, FormatType};
use countermodel::text_with_listed;
use engine::Closed;
use explain::{contradiction_text, line_text};
use taxonomy::{Outcome, instances_bytes, taxonomy_bytes};

/// What a classification counts.
#[derive(Clone, Copy, Debug, PartialEq, Eq)]
pub struct Summary {
    /// Whether the axioms have a finite interpretation.
    pub consistent: bool,
    /// The named classes, `owl:Thing` and `owl:Nothing` among them.
    pub classes: usize,
    pub individuals: usize,
    /// The facts of the closure.
    pub facts: u64,
}

/// What was found of an ontology, and its counts.
#[derive(Drop)]
pub struct Found {
    pub summary: Summary,
    pub outcome: Outcome,
}

/// The three texts of a classification, and its counts.
#[derive(Debug, Drop)]
pub struct Classification {
    pub summary: Summary,
    pub taxonomy: Vec<u8>,
    pub instances: Vec<u8>,
    pub certificate: Vec<u8>,
}

/// The relations of classes and of individuals by the closure.
fn relations(closed: &Closed<'_>) -> Result<Outcome, Memory>
    requires unasked { IsUnasked closed.now.saturation }
    ensures { IfOk result (IsOutcomeOf closed.now.ontology true) }
{
    let taxonomy = taxonomy_of(closed)?;
    let types = types_of(closed)?;
    Ok(Outcome::Consistent(taxonomy, types))
}

/// What the closure says: the relations of classes and individuals, or that there is no interpretation.
fn outcome(closed: &Closed<'_>, consistent: bool) -> Result<Outcome, Memory>
    requires unasked { IsUnasked closed.now.saturation }
    ensures { IfOk result (IsOutcomeOf closed.now.ontology consistent) }
{
    if consistent {
        relations(closed)
    } else {
        Ok(Outcome::Inconsistent)
    }
}

/// The text of the certificate of a consistent closure: a derivation of all its facts, with the interpretation that it lists.
fn certificate_of_closure<F: FormatType>(closed: &Closed<'_>) -> Result<Vec<u8>, Memory>
    requires unasked { IsUnasked closed.now.saturation }
    requires consistent { IsConsistent closed.now.ontology closed.now.saturation.normal.asked }
    ensures { IfOk result (λ v. IsCertificateOf closed.now.ontology F.format true v.items) }
{
    let ontology = closed.ontology();
    ontology.bounded();
    let lines = line_text::<F>(closed)?;
    lines.bounded();
    let text = text_with_listed(closed, lines)?;
    Ok(text)
}

/// The text of the certificate of a contradiction: a derivation of it.
fn certificate_of_contradiction<F: FormatType>(closed: &Closed<'_>) -> Result<Vec<u8>, Memory>
    requires contradictory { IsConsistent closed.now.ontology closed.now.saturation.normal.asked → ⊥ }
    ensures { IfOk result (λ v. IsCertificateOf closed.now.ontology F.format false v.items) }
{
    let ontology = closed.ontology();
    let alloc = closed.allocator();
    ontology.bounded();
    let lines = contradiction_text::<F>(closed)?;
    lines.bounded();
    let text = lines.alone(alloc)?;
    Ok(text)
}

/// The text of the certificate of the closure, or of the contradiction that it has.
fn certificate_of<F: FormatType>(closed: &Closed<'_>, consistent: bool) -> Result<Vec<u8>, Memory>
    requires unasked { IsUnasked closed.now.saturation }
    requires consistent { IsTrue consistent ↔ IsConsistent closed.now.ontology closed.now.saturation.normal.asked }
    ensures { IfOk result (λ v. IsCertificateOf closed.now.ontology F.format consistent v.items) }
{
    if consistent {
        certificate_of_closure::<F>(closed)
    } else {
        certificate_of_contradiction::<F>(closed)
    }
}

/// The text in the format.
fn certificate_in(closed: &Closed<'_>, consistent: bool, format: Format) -> Result<Vec<u8>, Memory>
    requires unasked { IsUnasked closed.now.saturation }
    requires consistent { IsTrue consistent ↔ IsConsistent closed.now.ontology closed.now.saturation.normal.asked }
    ensures { IfOk result (λ v. IsCertificateOf closed.now.ontology format consistent v.items) }
{
    match format {
        Format::One => certificate_of::<FormatOne>(closed, consistent),
        Format::Two => certificate_of::<FormatTwo>(closed, consistent),
    }
}

/// How many there are of each kind.
fn counted(closed: &Closed<'_>, consistent: bool) -> Summary
    ensures consistent { result.consistent ≡ consistent }
    ensures classes { result.classes ≡ length closed.now.ontology.names.classes }
    ensures individuals { result.individuals ≡ length closed.now.ontology.names.individuals }
    ensures facts { result.facts ≡ length closed.now.saturation.state.facts }
{
    let ontology = closed.ontology();
    Summary {
        consistent,
        classes: ontology.classes().len(),
        individuals: ontology.individuals().len(),
        facts: closed.facts().len() as u64,
    }
}

/// What follows from the axioms of a saturated ontology, where nothing is asked about, and its counts.
///
/// # Errors
///
/// `Memory` where memory was refused.
pub fn what_follows(closed: &Closed<'_>) -> Result<Found, Memory>
    requires unasked { IsUnasked closed.now.saturation }
    ensures counts { IfOk result (λ f. AreCountsOf closed.now.ontology f.summary) }
    ensures facts { IfOk result (λ f. f.summary.facts ≡ length closed.now.saturation.state.facts) }
    ensures made_for { IfOk result (λ f. IsMadeFor closed.now.ontology f.outcome) }
    ensures follows { IfOk result (λ f. IsWhatFollows closed.now.ontology f.outcome) }
{
    closed.well_formed();
    let consistent = has_no_contradiction(closed);
    Ok(Found {
        summary: counted(closed, consistent),
        outcome: outcome(closed, consistent)?,
    })
}

/// The taxonomy and the instances of the closure.
fn relation_texts(closed: &Closed<'_>, consistent: bool) -> Result<(Vec<u8>, Vec<u8>), Memory>
    requires unasked { IsUnasked closed.now.saturation }
    ensures { IfOk result (λ texts. AreTextsOf closed.now.ontology consistent texts.0.items texts.1.items) }
{
    let ontology = closed.ontology();
    let alloc = closed.allocator();
    let outcome = outcome(closed, consistent)?;
    let taxonomy = taxonomy_bytes(alloc, ontology, &outcome)?;
    let instances = instances_bytes(alloc, ontology, &outcome)?;
    Ok((taxonomy, instances))
}

/// The classification of a saturated ontology, where nothing is asked about, with a certificate in the format. The relations are made
/// and told before there is a line of the certificate, whose text is the largest of all.
///
/// # Errors
///
/// `Memory` where memory was refused.
pub fn classified(closed: &Closed<'_>, format: Format) -> Result<Classification, Memory>
    requires unasked { IsUnasked closed.now.saturation }
    ensures counts { IfOk result (λ c. AreCountsOf closed.now.ontology c.summary) }
    ensures facts { IfOk result (λ c. c.summary.facts ≡ length closed.now.saturation.state.facts) }
    ensures texts { IfOk result (λ c. AreTextsOf closed.now.ontology c.summary.consistent c.taxonomy.items c.instances.items) }
    // The certificate shows that the taxonomy and the instances are right, and so they say what follows from the axioms.
    ensures acceptable { IfOk result
        (λ c. IsAcceptable closed.now.ontology c.taxonomy.items c.instances.items c.certificate.items) }
    ensures right { IfOk result (λ c. AreRight closed.now.ontology c.taxonomy.items c.instances.items c.certificate.items) }
    ensures written { IfOk result (λ c. IsWrittenIn closed.now.ontology format c.certificate.items) }
{
    closed.well_formed();
    let consistent = has_no_contradiction(closed);
    let (taxonomy, instances) = relation_texts(closed, consistent)?;
    let certificate = certificate_in(closed, consistent, format)?;
    Ok(Classification {
        summary: counted(closed, consistent),
        taxonomy,
        instances,
        certificate,
    })
}
