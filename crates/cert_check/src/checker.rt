//! The checker.
ghost use Rattle.axioms.specs.Ontology.{axiom_trees};
ghost use Rattle.cert_check.specs.Acceptance.{AreRight, IsAcceptable};
ghost use Rattle.listed_model.specs.Listing.{IsListing};
ghost use Rattle.cert_check.specs.Lists.{AreLists, ArePreorder};
ghost use Rattle.cert_check.specs.SourceVerdicts.{IsJudgedFrom};
ghost use Rattle.cert_check.specs.Tests.{AgainstTested, IsReading, IsTestedIn};
ghost use Rattle.cert_check.specs.Verdict.{ClaimsAgainstLists, ConsistentAgainstShown, ContradictionAgainstShown, HasDerivation, HasTrueLines, IsVerdict, PassesLines, RelationAgainstLists, TextsAgainst, verdict_of_reason};
ghost use Rattle.certificate.specs.Writability.{IsListedOf};
ghost use Rattle.certificate.specs.SourceFaults.{stream_fault_as_text};
ghost use Rattle.certificate.specs.SourceReading.{IsStopped};
ghost use Rattle.certificate.specs.View.{listed_of, listing_of};
ghost use Rattle.interpretation_spec.specs.NamedInterpretation.{IsFirstUnsatisfied};
ghost use Rattle.interpretation_spec.specs.Interpretation.{Interpretation, IsInterpretation, IsModel};
ghost use Rattle.source_lines.specs.Sources.{SourceState, source_state};
ghost use Rattle.std.specs.Prelude.{◌↔◌, ◌≡◌, ◌≤◌, IfErr, IfOk, IfSome, List, MatchOption, None, length, option_map, ℕ};
ghost use Rattle.taxonomy.specs.Outcome.{IsMadeFor, instances_of, taxonomy_of};

use crate::claims::{
    claimed_elements, element_classes, first_disagreeing_class, first_disagreeing_individual,
    first_unclaimed,
};
use crate::compare::first_difference;
use crate::derivation::{ShownLines, TestedCertificate, tested_certificate};
use crate::verdict::{Reason, Verdict};
use axioms::{Memory, Ontology};
use certificate::{Listed, ListedRuns, TextFault};
use device::{SliceSource, Source};
use listed_model::first_unsatisfied;
use narrowing::{folded, narrowed};
use number_sets::{EpochSet, PackedLists};
use source_lines::StreamFault;
use std::alloc::Global;
use taxonomy::{Outcome, Relation, instances_bytes, reduce, taxonomy_bytes};

/// Whether the certificate, in the format that its first line names, shows that the taxonomy text and the instances text are
/// those of what follows from the axioms of the ontology; where it does not, the first reason.
///
/// It fails only where memory is refused, or where rows list more than [`MOST_ELEMENTS`](crate::MOST_ELEMENTS) elements even once
/// neighbours of which they say the same are one element.
pub fn check(
    alloc: Global,
    ontology: &Ontology,
    taxonomy: &[u8],
    instances: &[u8],
    certificate: &[u8],
) -> Result<Verdict, Memory>
    ensures verdict { IfOk result (IsVerdict ontology.now taxonomy.now instances.now certificate.now) }
    // It accepts exactly what is acceptable.
    ensures accepted { IfOk result (λ v. (v ≡ Verdict.Accepted) ↔ IsAcceptable ontology.now taxonomy.now instances.now certificate.now) }
    // Where it passes the lines, each is true in every interpretation in which the axioms hold.
    ensures lines { IfOk result (λ v. PassesLines v → HasTrueLines ontology.now certificate.now) }
    // What it accepts says what follows from the axioms.
    ensures says { IfOk result (λ v. v ≡ Verdict.Accepted → AreRight ontology.now taxonomy.now instances.now certificate.now) }
{
    let mut source = SliceSource::new(certificate);
    // A slice never fails, so nothing but memory is refused.
    match check_from(alloc, ontology, taxonomy, instances, &mut source) {
        Ok(verdict) => Ok(verdict),
        Err(_) => Err(Memory),
    }
}

/// Whether the certificate that the source gives, in the format that its first line names, shows that the taxonomy text and the
/// instances text are those of what follows from the axioms of the ontology; where it does not, the first reason.
///
/// After a line that cannot follow those before it the source is read no further. `Io` comes only where the source failed, and `Memory`
/// only where memory is refused, or where rows list more than [`MOST_ELEMENTS`](crate::MOST_ELEMENTS) elements even once neighbours of
/// which they say the same are one element.
pub fn check_from<S: Source>(
    alloc: Global,
    ontology: &Ontology,
    taxonomy: &[u8],
    instances: &[u8],
    certificate: &mut S,
) -> Result<Verdict, StreamFault>
    ensures judged { IfOk result (IsJudgedFrom ontology.now taxonomy.now instances.now (source_state S.Source certificate.old) (source_state S.Source certificate.new)) }
    // Io only where the source failed in this call and every whole line that it gave goes on.
    ensures fault { IfErr result (λ fault. IsStopped (stream_fault_as_text fault) ontology.now (source_state S.Source certificate.old) (source_state S.Source certificate.new)) }
    ensures count { S.failures certificate.old ≤ S.failures certificate.new }
{
    let read = tested_certificate(alloc, ontology, certificate);
    verdict_on(alloc, ontology, taxonomy, instances, read)
}

// The verdict on what a source gave, or why there is none.
fn verdict_on(
    alloc: Global,
    ontology: &Ontology,
    taxonomy: &[u8],
    instances: &[u8],
    read: Result<TestedCertificate, TextFault>,
) -> Result<Verdict, StreamFault>
    requires { (start : SourceState) × (now : SourceState) × IsReading ontology.now start now read }
    ensures judged { IfOk result (λ v. (start now : SourceState) → IsReading ontology.now start now read → IsJudgedFrom ontology.now taxonomy.now instances.now start now v) }
    ensures fault { IfErr result (λ fault. (start now : SourceState) → IsReading ontology.now start now read → IsStopped (stream_fault_as_text fault) ontology.now start now) }
{
    ontology.well_formed();
    match read {
        Ok(tested) => Ok(verdict_on_tested(alloc, ontology, taxonomy, instances, tested)?),
        Err(fault) => verdict_on_fault(fault),
    }
}

// The verdict where no certificate was read: its text is that of none, or there is no verdict.
fn verdict_on_fault(fault: TextFault) -> Result<Verdict, StreamFault>
    ensures rejected { IfOk result (λ v. (at : ℕ) × (fault ≡ TextFault.BadText at) × (v ≡ Verdict.Rejected (Reason.BadText at))) }
    ensures fault { IfErr result (λ same. fault ≡ stream_fault_as_text same) }
{
    match fault {
        TextFault::BadText { at } => Ok(Verdict::Rejected(Reason::BadText { at })),
        TextFault::Io => Err(StreamFault::Io),
        TextFault::Memory => Err(StreamFault::Memory),
    }
}

// The verdict on a certificate that was read: the first reason that holds, where there is one.
fn verdict_on_tested(
    alloc: Global,
    ontology: &Ontology,
    taxonomy: &[u8],
    instances: &[u8],
    read: TestedCertificate,
) -> Result<Verdict, Memory>
    requires { (text : List ℕ) × IsTestedIn ontology.now text read }
    ensures { IfOk result (λ v. (text : List ℕ) → IsTestedIn ontology.now text read → IsVerdict ontology.now taxonomy.now instances.now text v) }
{
    if let Some(number) = read.lines.bad {
        return Ok(Verdict::Rejected(Reason::BadLine { number }));
    }
    let found = against(alloc, ontology, taxonomy, instances, read)?;
    Ok(verdict_of(found))
}

// The verdict, where this speaks against the certificate.
fn verdict_of(found: Option<Reason>) -> Verdict
    ensures { result ≡ verdict_of_reason found }
{
    match found {
        Some(reason) => Verdict::Rejected(reason),
        None => Verdict::Accepted,
    }
}

// What speaks against a certificate whose lines are a derivation.
fn against(
    alloc: Global,
    ontology: &Ontology,
    taxonomy: &[u8],
    instances: &[u8],
    read: TestedCertificate,
) -> Result<Option<Reason>, Memory>
    requires derived { HasDerivation ontology.now read.lines.is_contradictory read.lines.above read.lines.types }
    requires listed { IfSome (option_map listing_of read.listed) (IsListedOf ontology.now) }
    ensures { IfOk result (AgainstTested ontology.now taxonomy.now instances.now read) }
{
    let TestedCertificate { lines, listed } = read;
    match listed {
        Some(listed) => against_consistent(alloc, ontology, taxonomy, instances, lines, listed),
        None => against_contradiction(alloc, ontology, taxonomy, instances, lines.is_contradictory),
    }
}

// What speaks against a certificate with a listed interpretation whose lines are a derivation. Neighbours of which the rows say the
// same are made one element before runs are written out, and elements that stand in no line are left out behind that.
fn against_consistent(
    alloc: Global,
    ontology: &Ontology,
    taxonomy: &[u8],
    instances: &[u8],
    lines: ShownLines,
    listed: ListedRuns,
) -> Result<Option<Reason>, Memory>
    requires derived { HasDerivation ontology.now lines.is_contradictory lines.above lines.types }
    requires listed { IsListedOf ontology.now (listing_of listed) }
    ensures { IfOk result (ConsistentAgainstShown ontology.now taxonomy.now instances.now lines.above lines.types (listing_of listed)) }
{
    ontology.well_formed();
    let few = folded(alloc, listed)?;
    let written = few.expanded(alloc)?;
    let narrow = narrowed(alloc, written)?;
    against_listed(alloc, ontology, taxonomy, instances, lines, &narrow)
}

// The same, by the interpretation that is listed here.
fn against_listed(
    alloc: Global,
    ontology: &Ontology,
    taxonomy: &[u8],
    instances: &[u8],
    lines: ShownLines,
    listed: &Listed,
) -> Result<Option<Reason>, Memory>
    requires derived { HasDerivation ontology.now lines.is_contradictory lines.above lines.types }
    requires listed { IsListedOf ontology.now (listed_of listed.now) }
    ensures { IfOk result (ConsistentAgainstShown ontology.now taxonomy.now instances.now lines.above lines.types (listed_of listed.now)) }
{
    ontology.well_formed();
    if let Some(axiom) = first_failing_axiom(alloc, ontology, listed)? {
        return Ok(Some(Reason::AxiomFails { axiom }));
    }
    let above = lines.above;
    let types = lines.types;
    let claims = against_claims(alloc, ontology, listed, &above, &types)?;
    if claims.is_some() {
        return Ok(claims);
    }
    against_relation(alloc, ontology, taxonomy, instances, &above, types)
}

// The least number of an axiom that the listed interpretation does not satisfy.
fn first_failing_axiom(
    alloc: Global,
    ontology: &Ontology,
    listed: &Listed,
) -> Result<Option<usize>, Memory>
    requires { IsListedOf ontology.now (listed_of listed.now) }
    ensures { IfOk result (λ found. (i : Interpretation) × IsListing ontology.now (listed_of listed.now) i × IsInterpretation i
        × MatchOption found (IsModel i (axiom_trees ontology.now)) (IsFirstUnsatisfied ontology.now i)) }
{
    first_unsatisfied(alloc, ontology, listed)
}

// What speaks against the claims, and against the elements of the individuals.
fn against_claims(
    alloc: Global,
    ontology: &Ontology,
    listed: &Listed,
    above: &PackedLists,
    types: &PackedLists,
) -> Result<Option<Reason>, Memory>
    requires listed { IsListedOf ontology.now (listed_of listed.now) }
    requires above { AreLists (length ontology.now.names.classes) (length ontology.now.names.classes) above.now }
    requires types { AreLists (length ontology.now.names.individuals) (length ontology.now.names.classes) types.now }
    ensures { IfOk result (ClaimsAgainstLists ontology.now (listed_of listed.now) above.now types.now) }
{
    ontology.well_formed();
    ontology.bounded();
    let claimed = claimed_elements(alloc, ontology, &listed.claims)?;
    if let Some(class) = first_unclaimed(above, &claimed) {
        return Ok(Some(Reason::ClaimMissing { class }));
    }
    let holding = element_classes(alloc, ontology, listed.domain, &listed.classes)?;
    let mut set = EpochSet::new(alloc, ontology.classes().len())?;
    if let Some(class) = first_disagreeing_class(&mut set, above, &claimed, &holding) {
        return Ok(Some(Reason::ClaimDisagrees { class }));
    }
    let individuals = &listed.individuals;
    if let Some(individual) = first_disagreeing_individual(&mut set, types, individuals, &holding) {
        return Ok(Some(Reason::IndividualDisagrees { individual }));
    }
    Ok(None)
}

// Where the texts differ from those of the relation and the types that the lines give.
fn against_relation(
    alloc: Global,
    ontology: &Ontology,
    taxonomy: &[u8],
    instances: &[u8],
    above: &PackedLists,
    types: PackedLists,
) -> Result<Option<Reason>, Memory>
    requires above { length above.now ≡ length ontology.now.names.classes }
    requires preorder { ArePreorder above.now }
    requires types { AreLists (length ontology.now.names.individuals) (length ontology.now.names.classes) types }
    ensures { IfOk result (RelationAgainstLists ontology.now taxonomy.now instances.now above.now types) }
{
    ontology.well_formed();
    let relation = Relation::of_superclasses(alloc, above)?;
    let reduced = reduce(alloc, &relation)?;
    let outcome = Outcome::Consistent(reduced, types);
    against_texts(alloc, ontology, taxonomy, instances, &outcome)
}

// What speaks against a certificate of a contradiction whose lines show one, or do not.
fn against_contradiction(
    alloc: Global,
    ontology: &Ontology,
    taxonomy: &[u8],
    instances: &[u8],
    is_contradictory: bool,
) -> Result<Option<Reason>, Memory>
    ensures { IfOk result (ContradictionAgainstShown taxonomy.now instances.now is_contradictory) }
{
    if !is_contradictory {
        return Ok(Some(Reason::NoContradiction));
    }
    against_texts(alloc, ontology, taxonomy, instances, &Outcome::Inconsistent)
}

// Where the texts differ from those of the outcome.
fn against_texts(
    alloc: Global,
    ontology: &Ontology,
    taxonomy: &[u8],
    instances: &[u8],
    outcome: &Outcome,
) -> Result<Option<Reason>, Memory>
    requires { IsMadeFor ontology.now outcome.now }
    ensures { IfOk result (TextsAgainst taxonomy.now instances.now (taxonomy_of ontology.now outcome.now) (instances_of ontology.now outcome.now)) }
{
    if let Some(at) = first_difference(taxonomy, &taxonomy_bytes(alloc, ontology, outcome)?) {
        return Ok(Some(Reason::TaxonomyDiffers { at }));
    }
    if let Some(at) = first_difference(instances, &instances_bytes(alloc, ontology, outcome)?) {
        return Ok(Some(Reason::InstancesDiffer { at }));
    }
    Ok(None)
}
