//! Certificates read line by line.

ghost use Rattle.std.specs.Prelude.{◌≡◌, ◌≤◌, [], true, IfErr, IfOk, OnOk, Some, option_map};
ghost use Rattle.axioms.specs.Growth.{IsBounded};
ghost use Rattle.source_lines.specs.Sources.{source_state};
ghost use Rattle.certificate.specs.SourceReading.{AreRowsNext, HasLines, HasNoLine, HasNoRow, IsDomainNext, IsFinished, IsLastNext, IsNext, IsStopped, LetsGo, StopsAtHand, StopsLast, StopsLetting, StopsNext, StopsRows};
ghost use Rattle.certificate.specs.TextLines.{no_rows};
ghost use Rattle.certificate.specs.View.{line_of, listing_of};

use crate::fault::TextFault;
use crate::format::Format;
use crate::line::Line;
use crate::listed::Listed;
use crate::listed_runs::ListedRuns;
use crate::single_lines::{derived_line, domain_line, first_line, is_last_line};
use crate::single_rows::take_row;
use axioms::Ontology;
use device::Source;
use source_lines::SourceLines;
use std::alloc::Global;
use std::marker::Model;

/// A reader of a certificate's text, in either format, that keeps one line of it: it gives the lines one after another, and then what
/// they show.
///
/// Once a call has failed nothing more is promised of the reader.
#[derive(Drop)]
pub struct LineReader<'a> {
    ontology: &'a Ontology,
    most_premises: Option<usize>,
    format: Format,
    is_consistent: bool,
    count: u64,
    at: usize,
    lines: SourceLines,
}

impl<'a> Model for LineReader<'a> {
    ghost use Rattle.certificate.specs.SourceReading.{Reading};

    ghost Value = { Reading };

    ghost view = { λ r. record {
      ontology = r.ontology.now;
      most_premises = r.most_premises;
      format = r.format;
      is_consistent = r.is_consistent;
      count = r.count;
      at = r.at;
      hand = r.lines;
    } };
}

/// The interpretation of no rows.
fn without_rows(alloc: Global, domain: u32) -> ListedRuns
    ensures { listing_of result ≡ no_rows domain }
{
    let rows = Listed {
        domain,
        classes: Vec::new(alloc),
        pairs: Vec::new(alloc),
        individuals: Vec::new(alloc),
        claims: Vec::new(alloc),
    };
    ListedRuns { rows }
}

impl<'a> LineReader<'a> {
    /// A reader at the first line of the derivation. Of the premises of a line one more than `most_premises` at most is kept.
    ///
    /// # Errors
    ///
    /// `BadText` at 0 where the first line of the text is that of no certificate, `Io` where the source failed, and `Memory` where
    /// memory was refused.
    pub fn new<S: Source>(
        alloc: Global,
        ontology: &'a Ontology,
        most_premises: Option<usize>,
        source: &mut S,
    ) -> Result<LineReader<'a>, TextFault>
        ensures start { IfOk result (λ r. (r.ontology ≡ ontology.now) × (r.most_premises ≡ most_premises) × HasLines (source_state S.Source source.old) [] r (source_state S.Source source.new)) }
        ensures fault { IfErr result (λ fault. IsStopped fault ontology.now (source_state S.Source source.old) (source_state S.Source source.new)) }
        ensures count { S.failures source.old ≤ S.failures source.new }
    {
        let mut reader = LineReader {
            ontology,
            most_premises,
            format: Format::One,
            is_consistent: false,
            count: 0,
            at: 0,
            lines: SourceLines::new(alloc),
        };
        reader.let_go(source)?;
        let Some((format, is_consistent)) = first_line(reader.line()) else {
            return Err(reader.bad_text());
        };
        reader.format = format;
        reader.is_consistent = is_consistent;
        reader.let_go(source)?;
        Ok(reader)
    }

    /// The line that comes next, if one does. Its premises take the room of the list, and what was in it goes.
    ///
    /// # Errors
    ///
    /// `Io` where the source failed, and `Memory` where memory was refused.
    pub fn next<S: Source>(
        &mut self,
        source: &mut S,
        room: Vec<u64>,
    ) -> Result<Option<Line>, TextFault>
        ensures next { IfOk result (λ line. IsNext self.old self.new (source_state S.Source source.old) (source_state S.Source source.new) (option_map line_of line)) }
        ensures fault { IfErr result (λ fault. StopsNext fault self.old (source_state S.Source source.old) (source_state S.Source source.new)) }
        ensures count { S.failures source.old ≤ S.failures source.new }
    {
        let Some(number) = self.count.checked_add(1) else {
            return Err(TextFault::Memory);
        };
        let line = derived_line(
            room,
            self.most_premises,
            self.ontology,
            self.format,
            number,
            self.line(),
        )?;
        match line {
            None => Ok(None),
            Some(line) => {
                self.let_go(source)?;
                self.count = number;
                Ok(Some(line))
            }
        }
    }

    /// What the certificate lists behind its lines: the interpretation of a consistent one.
    ///
    /// # Errors
    ///
    /// `BadText` where the source gives the text of no certificate: at the first line that cannot follow those before it, or, where the
    /// last line is missing, at the end. `Io` where the source failed, and `Memory` where memory was refused.
    pub fn finish<S: Source>(
        &mut self,
        alloc: Global,
        source: &mut S,
    ) -> Result<Option<ListedRuns>, TextFault>
        requires { HasNoLine self.old }
        ensures listed { IfOk result (λ listed. IsFinished self.old (source_state S.Source source.old) (source_state S.Source source.new) (option_map listing_of listed)) }
        ensures fault { IfErr result (λ fault. StopsNext fault self.old (source_state S.Source source.old) (source_state S.Source source.new)) }
        ensures count { S.failures source.old ≤ S.failures source.new }
    {
        if self.is_consistent {
            let listed = self.interpretation(alloc, source)?;
            return Ok(Some(listed));
        }
        self.last(source)?;
        Ok(None)
    }

    // The interpretation that the lines of a consistent certificate list, and the last line.
    fn interpretation<S: Source>(
        &mut self,
        alloc: Global,
        source: &mut S,
    ) -> Result<ListedRuns, TextFault>
        requires none { HasNoLine self.old }
        requires consistent { self.old.is_consistent ≡ true }
        ensures listed { IfOk result (λ listed. IsFinished self.old (source_state S.Source source.old) (source_state S.Source source.new) (Some (listing_of listed))) }
        ensures fault { IfErr result (λ fault. StopsNext fault self.old (source_state S.Source source.old) (source_state S.Source source.new)) }
        ensures count { S.failures source.old ≤ S.failures source.new }
    {
        let domain = self.domain(source)?;
        let mut listed = without_rows(alloc, domain);
        self.rows(alloc, source, &mut listed)?;
        if listed.rows.individuals.len() != self.ontology.individuals().len() {
            return Err(self.bad_text());
        }
        self.last(source)?;
        Ok(listed)
    }

    // How many elements the interpretation has.
    fn domain<S: Source>(&mut self, source: &mut S) -> Result<u32, TextFault>
        requires none { HasNoLine self.old }
        requires consistent { self.old.is_consistent ≡ true }
        ensures domain { IfOk result (λ domain. IsDomainNext self.old self.new (source_state S.Source source.old) (source_state S.Source source.new) domain) }
        ensures fault { IfErr result (λ fault. StopsNext fault self.old (source_state S.Source source.old) (source_state S.Source source.new)) }
        ensures count { S.failures source.old ≤ S.failures source.new }
    {
        let Some(domain) = domain_line(self.line()) else {
            return Err(self.bad_text());
        };
        self.let_go(source)?;
        Ok(domain)
    }

    // Puts the rows that come into the interpretation, behind those that it has.
    fn rows<S: Source>(
        &mut self,
        alloc: Global,
        source: &mut S,
        listed: &mut ListedRuns,
    ) -> Result<(), TextFault>
        ensures rows { OnOk result (AreRowsNext self.old self.new (source_state S.Source source.old) (source_state S.Source source.new) (listing_of listed.old) (listing_of listed.new)) }
        ensures none { OnOk result (HasNoRow self.new (listing_of listed.new)) }
        ensures fault { IfErr result (λ fault. StopsRows fault self.old (source_state S.Source source.old) (source_state S.Source source.new) (listing_of listed.old)) }
        ensures count { S.failures source.old ≤ S.failures source.new }
    {
        while take_row(alloc, self.ontology, self.format, listed, self.line())? {
            self.let_go(source)?;
        }
        Ok(())
    }

    // The last line, and nothing behind it.
    fn last<S: Source>(&mut self, source: &mut S) -> Result<(), TextFault>
        ensures last { OnOk result (IsLastNext self.old (source_state S.Source source.old) (source_state S.Source source.new)) }
        ensures fault { IfErr result (λ fault. StopsLast fault self.old (source_state S.Source source.old) (source_state S.Source source.new)) }
        ensures count { S.failures source.old ≤ S.failures source.new }
    {
        if !is_last_line(self.line()) {
            return Err(self.bad_text());
        }
        self.let_go(source)?;
        if !self.line().is_empty() {
            return Err(self.bad_text());
        }
        Ok(())
    }

    // The line at hand.
    fn line(&self) -> &[u8]
        ensures { result.now ≡ self.now.hand.line }
    {
        self.lines.line()
    }

    // The fault of a line at hand that cannot follow those before it.
    fn bad_text(&self) -> TextFault
        ensures { StopsAtHand result self.now }
    {
        self.ontology.bounded();
        TextFault::BadText { at: self.at }
    }

    // Lets the line at hand go and brings the next one.
    fn let_go<S: Source>(&mut self, source: &mut S) -> Result<(), TextFault>
        ensures ok { OnOk result (LetsGo self.old self.new (source_state S.Source source.old) (source_state S.Source source.new)) }
        ensures fault { IfErr result (λ fault. StopsLetting fault self.old (source_state S.Source source.old) (source_state S.Source source.new)) }
        ensures bounded { IsBounded self.old.ontology }
        ensures count { S.failures source.old ≤ S.failures source.new }
    {
        self.ontology.bounded();
        let Some(at) = self.at.checked_add(self.lines.line().len()) else {
            return Err(TextFault::Memory);
        };
        self.lines.advance(source)?;
        self.at = at;
        Ok(())
    }
}
