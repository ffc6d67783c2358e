//! A derivation that grows line by line.
ghost use Rattle.axioms.specs.Ontology.{Ontology as Ontology2};
ghost use Rattle.axioms.specs.View.{at_number};
ghost use Rattle.cert_check.specs.Derivation.{IsDerivation, IsDerived};
ghost use Rattle.certificate.specs.Certificate.{source_of};
ghost use Rattle.certificate.specs.View.{conclusion_of, line_of, subject_of};
ghost use Rattle.explain.specs.Step.{line_by};
ghost use Rattle.explain.specs.SameLines.{SaysSame};
ghost use Rattle.std.specs.Prelude.{◌≡◌, ◌/◌, ◌%◌, ◌^◌, ◌++◌, ◌∷◌, [], IfOk, IfSome, OnErr, OnOk, length, map, option_map};

use crate::sink::LineSink;
use axioms::{IndId, Memory};
use certificate::{Conclusion, Line, Rule, Subject};
use std::alloc::{AllocError, Global};
use std::collections::BTreeMap;
use std::marker::Model;

// Makes the line the one by that rule, with the axiom of that number, from the lines of these numbers.
fn set_line(
    line: &mut Line,
    conclusion: Conclusion,
    rule: Rule,
    axiom_number: Option<usize>,
    premises: &[u64],
) -> Result<(), AllocError>
    ensures { OnOk result (line_of line.new ≡ line_by (conclusion_of conclusion) rule axiom_number premises.now) }
{
    line.premises.clear();
    line.premises.extend_from_slice(premises)?;
    line.conclusion = conclusion;
    line.rule = rule;
    line.axiom = axiom_number;
    Ok(())
}

/// What the number of a line is kept by that says that the two, in this order, are one.
fn key_of(first: IndId, second: IndId) -> u64
    ensures first { result / 2 ^ 32 ≡ first.0 }
    ensures second { result % 2 ^ 32 ≡ second.0 }
{
    first.0 as u64 * 0x1_0000_0000 + second.0 as u64
}

/// Lines, numbered from 1, in a sink. Beside it memory goes by the lines that are kept, each of which says of other individuals that they
/// are one.
#[derive(Drop)]
pub(crate) struct Derivation<L: LineSink> {
    sink: L,
    // what the next line is made in
    line: Line,
    // the numbers of lines that say that two individuals are one, by these two
    same: BTreeMap<u64, u64>,
}

impl<L: LineSink> Model for Derivation<L> {
    ghost use Rattle.std.specs.Prelude.{List};
    ghost use Rattle.certificate.specs.Certificate as spec;
    ghost use Rattle.explain.specs.SameLines.{AreSameLines};

    ghost Value = { List spec.Line };

    ghost view = { λ d. L.lines d.sink };

    ghost invariant = { λ d. AreSameLines (L.lines d.sink) d.same };
}

impl<L: LineSink> Derivation<L> {
    /// The lines of the sink.
    pub(crate) fn new(alloc: Global, sink: L) -> Derivation<L>
        ensures { result ≡ L.lines sink }
    {
        Derivation {
            sink,
            line: Line {
                conclusion: Conclusion::Same(IndId(0), IndId(0)),
                rule: Rule::K17,
                axiom: None,
                premises: Vec::new(alloc),
            },
            same: BTreeMap::new(alloc),
        }
    }

    /// Adds a line by that rule, with the axiom of that number, from the lines of these numbers, and gives its number.
    ///
    /// # Errors
    ///
    /// `Memory` where memory was refused, or the sink takes no such line; then nothing changes.
    #[inline(always)]
    pub(crate) fn add(
        &mut self,
        conclusion: Conclusion,
        rule: Rule,
        axiom_number: Option<usize>,
        premises: &[u64],
    ) -> Result<u64, Memory>
        ensures added { OnOk result (self.new ≡ self.old ++ line_by (conclusion_of conclusion) rule axiom_number premises.now ∷ []) }
        ensures number { IfOk result (λ n. n ≡ length self.new) }
        // A line that follows from those of a derivation makes a derivation.
        ensures derivation { OnOk result ((o : Ontology2) → IsDerivation o self.old → IsDerived o self.old (line_by (conclusion_of conclusion) rule axiom_number premises.now) → IsDerivation o self.new) }
        ensures err { OnErr result (self.new ≡ self.old) }
    {
        set_line(&mut self.line, conclusion, rule, axiom_number, premises)?;
        self.sink.add(&self.line)
    }

    /// What the line of that number speaks of: its subject, or the start of its edge.
    pub(crate) fn source(&self, number: u64) -> Option<Subject>
        ensures { option_map subject_of result ≡ option_map source_of (at_number (map (λ l. l.conclusion) self.now) number) }
    {
        self.sink.source(number)
    }

    /// The number of a line that says that the two are one, if it is kept.
    pub(crate) fn same(&self, first: IndId, second: IndId) -> Option<u64>
        ensures { IfSome result (λ n. SaysSame self.now n first second) }
    {
        self.same.get(&key_of(first, second)).copied()
    }

    /// Keeps the number of such a line.
    ///
    /// # Errors
    ///
    /// `Memory` where memory was refused.
    pub(crate) fn keep_same(
        &mut self,
        first: IndId,
        second: IndId,
        number: u64,
    ) -> Result<(), Memory>
        requires { SaysSame self.old number first second }
        ensures { self.new ≡ self.old }
    {
        match self.same.insert(key_of(first, second), number) {
            Ok(_) => Ok(()),
            Err(_) => Err(Memory),
        }
    }

    pub(crate) fn into_sink(self) -> L
        ensures { L.lines result ≡ self }
    {
        self.sink
    }
}
