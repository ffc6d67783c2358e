//! Whether the lines of a certificate are a derivation, while they are read.
ghost use Rattle.axioms.specs.View.{at_number, axiom_of};
ghost use Rattle.cert_check.specs.Derivation.{at_numbers, axiom_at};
ghost use Rattle.cert_check.specs.Tests.{AllAreKept, AreKeptIn, AreTested, IsTestedFrom, KeepsEnough, ShowsThose, TellsDerived};
ghost use Rattle.cert_check.specs.Verdict.{IsContradiction, TellsContradiction};
ghost use Rattle.cert_check.specs.View.{said_of};
ghost use Rattle.certificate.specs.Certificate as spec;
ghost use Rattle.certificate.specs.Writability.{IsLineOf};
ghost use Rattle.certificate.specs.SourceReading.{HasLines, IsStopped};
ghost use Rattle.certificate.specs.View.{conclusion_of, line_of};
ghost use Rattle.source_lines.specs.Sources.{SourceState, source_state};
ghost use Rattle.std.specs.Prelude.{◌↔◌, ◌≡◌, ◌≤◌, ◌++◌, ◌∷◌, [], List, IfErr, IfOk, IsTrue, None, OnOk, Some, if◌then◌else◌, map, option_map, slice_get};

use crate::premises::most_premises;
use crate::rules::follows;
use crate::short_conclusion::ShortConclusion;
use crate::superclasses::{put_below, put_into};
use axioms::{Axiom, ExprId, Memory, Ontology};
use certificate::{Conclusion, Line, LineReader, ListedRuns, Subject, TextFault};
use device::Source;
use number_sets::{OpenLists, PackedLists};
use std::alloc::Global;

/// What is kept of lines while they are read and tested one after another.
#[derive(Drop)]
struct TestedLines {
    /// What the lines say.
    said: Vec<ShortConclusion>,
    /// The number of the first line, counted from 1, that does not follow by its rule from lines before it.
    bad: Option<usize>,
    /// Whether a line puts owl:Thing or an individual below owl:Nothing.
    is_contradictory: bool,
    /// For each class the list of the classes that a line puts above it, once for each that does.
    above: OpenLists,
    /// For each individual the list of the classes that a line puts it into, once for each that does.
    types: OpenLists,
}

/// What is kept of lines that were read and tested: what they say, but for the lists of classes, is let go.
#[derive(Drop)]
pub(crate) struct ShownLines {
    pub(crate) bad: Option<usize>,
    pub(crate) is_contradictory: bool,
    pub(crate) above: PackedLists,
    pub(crate) types: PackedLists,
}

/// What is kept of a certificate whose lines were read and tested one after another.
#[derive(Drop)]
pub(crate) struct TestedCertificate {
    pub(crate) lines: ShownLines,
    pub(crate) listed: Option<ListedRuns>,
}

// What is said at that place, counted from 0.
fn at_place(said: &[ShortConclusion], place: usize) -> Option<ShortConclusion>
    ensures { result ≡ slice_get said.now place }
{
    said.get(place).copied()
}

// What is said at that number, counted from 1.
fn said_at(said: &[ShortConclusion], number: u64) -> Option<ShortConclusion>
    ensures { option_map said_of result ≡ at_number (map said_of said.now) number }
{
    let place = number.checked_sub(1)?;
    at_place(said, place as usize)
}

// Makes the list that of what is said at these numbers. It answers no where a number is none of what is said.
fn gather(
    premises: &mut Vec<Conclusion>,
    said: &[ShortConclusion],
    numbers: &[u64],
) -> Result<bool, Memory>
    ensures { IfOk result (λ all. at_numbers (map said_of said.now) numbers.now ≡ if all then Some (map conclusion_of premises.new.items) else None) }
{
    premises.clear();
    for number in numbers {
        match said_at(said, *number) {
            Some(short) => premises.push(short.conclusion())?,
            None => return Ok(false),
        }
    }
    Ok(true)
}

// The axiom of that number, where there is a number.
fn axiom_at(ontology: &Ontology, number: Option<usize>) -> Option<&Axiom>
    ensures { option_map (λ a. axiom_of a.now) result ≡ axiom_at ontology.now number }
{
    match number {
        Some(number) => ontology.axiom(number),
        None => None,
    }
}

// Whether the line follows by its rule from lines before it, which say these. The list is to work in.
fn is_derived(
    ontology: &Ontology,
    premises: &mut Vec<Conclusion>,
    said: &[ShortConclusion],
    line: &Line,
) -> Result<bool, Memory>
    requires { IsLineOf ontology.now (line_of line.now) }
    ensures { IfOk result (TellsDerived ontology.now (map said_of said.now) (line_of line.now)) }
{
    if !gather(premises, said, &line.premises)? {
        return Ok(false);
    }
    let stated = axiom_at(ontology, line.axiom);
    Ok(follows(ontology, line.rule, premises, stated, line.conclusion))
}

// Whether the conclusion puts owl:Thing or an individual below owl:Nothing.
fn is_contradiction(conclusion: Conclusion) -> bool
    ensures { IsTrue result ↔ IsContradiction (conclusion_of conclusion) }
{
    match conclusion {
        Conclusion::Sub(Subject::Expr(expression), above) => expression == ExprId::THING
            && above == ExprId::NOTHING,
        Conclusion::Sub(Subject::Individual(_), above) => above == ExprId::NOTHING,
        Conclusion::Edge(..) => false,
        Conclusion::Same(..) => false,
    }
}

impl TestedLines {
    // The number of the first bad line with this line behind the others: it needs no test behind a bad one. The list is to work in.
    fn first_bad_with(
        &self,
        ontology: &Ontology,
        premises: &mut Vec<Conclusion>,
        line: &Line,
    ) -> Result<Option<usize>, Memory>
        requires { IsLineOf ontology.now (line_of line.now) }
        ensures { IfOk result (λ bad. (lines : List spec.Line) → AreTested ontology.now lines (map said_of self.now.said.items) self.now.bad
            → AreTested ontology.now (lines ++ line_of line.now ∷ []) (map said_of self.now.said.items ++ conclusion_of line.now.conclusion ∷ []) bad) }
    {
        if let Some(number) = self.bad {
            return Ok(Some(number));
        }
        if is_derived(ontology, premises, &self.said, line)? {
            return Ok(None);
        }
        Ok(Some(self.said.len() + 1))
    }

    // Whether a line is a contradiction, with this line behind the others.
    fn is_contradictory_with(&self, line: &Line) -> bool
        ensures { (lines : List spec.Line) → TellsContradiction self.now.is_contradictory lines → TellsContradiction result (lines ++ line_of line.now ∷ []) }
    {
        self.is_contradictory || is_contradiction(line.conclusion)
    }

    // Adds the line. The list is to work in.
    fn add(
        &mut self,
        ontology: &Ontology,
        premises: &mut Vec<Conclusion>,
        line: &Line,
    ) -> Result<(), Memory>
        requires { IsLineOf ontology.now (line_of line.now) }
        ensures { OnOk result ((lines : List spec.Line) → AreKeptIn self.old ontology.now lines → AreKeptIn self.new ontology.now (lines ++ line_of line.now ∷ [])) }
    {
        self.bad = self.first_bad_with(ontology, premises, line)?;
        self.is_contradictory = self.is_contradictory_with(line);
        put_below(ontology, &mut self.above, line.conclusion)?;
        put_into(ontology, &mut self.types, line.conclusion)?;
        self.said.push(ShortConclusion::of(line.conclusion))?;
        Ok(())
    }

    // What is kept of the lines when all are read.
    fn shown(self, alloc: Global) -> Result<ShownLines, Memory>
        ensures { IfOk result (ShowsThose self) }
    {
        drop(self.said);
        let above = self.above.packed(alloc)?;
        drop(self.above);
        let types = self.types.packed(alloc)?;
        Ok(ShownLines {
            bad: self.bad,
            is_contradictory: self.is_contradictory,
            above,
            types,
        })
    }
}

// What is kept of no lines.
fn no_lines(alloc: Global, ontology: &Ontology) -> Result<TestedLines, Memory>
    ensures { IfOk result (λ tested. AreKeptIn tested ontology.now []) }
{
    let above = OpenLists::new(alloc, ontology.classes().len())?;
    let types = OpenLists::new(alloc, ontology.individuals().len())?;
    Ok(TestedLines {
        said: Vec::new(alloc),
        bad: None,
        is_contradictory: false,
        above,
        types,
    })
}

// Reads and tests all lines that come.
fn tested_lines<S: Source>(
    alloc: Global,
    ontology: &Ontology,
    reader: &mut LineReader,
    source: &mut S,
) -> Result<TestedLines, TextFault>
    requires ontology { reader.old.ontology ≡ ontology.now }
    requires enough { KeepsEnough reader.old }
    requires start { (start : SourceState) × HasLines start [] reader.old (source_state S.Source source.old) }
    ensures kept { IfOk result (AllAreKept ontology.now reader.old reader.new (source_state S.Source source.old) (source_state S.Source source.new)) }
    ensures fault { IfErr result (λ fault. (start : SourceState) → HasLines start [] reader.old (source_state S.Source source.old)
        → IsStopped fault ontology.now start (source_state S.Source source.new)) }
    ensures count { S.failures source.old ≤ S.failures source.new }
{
    let mut tested = no_lines(alloc, ontology)?;
    let mut premises = Vec::new(alloc);
    let mut room = Vec::new(alloc);
    while let Some(line) = reader.next(source, room)? {
        tested.add(ontology, &mut premises, &line)?;
        room = line.premises;
    }
    Ok(tested)
}

/// Reads the certificate whose text the source gives, and tests each line when it is read, by those before it.
///
/// Of a line only what it says is kept, and when all are read only the classes that they put above classes and individuals.
/// The text is that of none where some line cannot follow those before it, whichever line of it is bad.
pub(crate) fn tested_certificate<S: Source>(
    alloc: Global,
    ontology: &Ontology,
    source: &mut S,
) -> Result<TestedCertificate, TextFault>
    ensures tested { IfOk result (IsTestedFrom ontology.now (source_state S.Source source.old) (source_state S.Source source.new)) }
    ensures fault { IfErr result (λ fault. IsStopped fault ontology.now (source_state S.Source source.old) (source_state S.Source source.new)) }
    ensures count { S.failures source.old ≤ S.failures source.new }
{
    let most = most_premises(ontology);
    let mut reader = LineReader::new(alloc, ontology, Some(most), source)?;
    let lines = tested_lines(alloc, ontology, &mut reader, source)?.shown(alloc)?;
    let listed = reader.finish(alloc, source)?;
    Ok(TestedCertificate { lines, listed })
}
