//! Saturations over which an expression is asked about, worked out by hand: facts, the lines that show them, and the elements of what
//! they list.

ghost use Rattle.engine.specs.Saturations.{IsFinished, IsSound};
ghost use Rattle.interpretation_spec.specs.NumberedInterpretation.{IsMadeFor};
ghost use Rattle.normalise.specs.Growth.{Grows};
ghost use Rattle.normalise.specs.Roots.{KeepsNames};
ghost use Rattle.std.specs.Prelude.{◌<◌, IfOk, IfSome, length};

use crate::ontologies::saturated;
use axioms::{ExprId, Ontology};
use cert_check::{Conclusion, Line, Subject};
use classification::is_consistent;
use countermodel::build;
use device::SliceSource;
use engine::{Closed, Indexed, Saturation, Stop};
use explain::lines;
use interpretation_spec::{Interpretation, Row};
use profile::{Limits, Opened, Version, read_expression, read_opened};
use std::alloc::Global;
use std::hash::RandomState;
use std::test::Fail;

/// The classes E, W, H and D are the expressions 2, 3, 5 and 7, and the last of the axioms is that D is the expression 8.
const DOCUMENT: &str =
    "Prefix(:=<x:>) Ontology(SubClassOf(:E ObjectSomeValuesFrom(:loc :W)) SubClassOf(:W ObjectSomeValuesFrom(:part :H)) SubObjectPropertyOf(ObjectPropertyChain(:loc :part) :loc) EquivalentClasses(:D ObjectSomeValuesFrom(:loc :H)))";

/// How many facts the document leads to.
const FACTS: u32 = 20;

/// The named classes, as expressions.
const CLASSES: &[u32] = &[0, 1, 2, 3, 5, 7];

/// What is asked about the document: the number that the expression has, how many facts there are with it, which of the named classes and
/// itself lie above it and below it, and how many elements are listed, and which of them are in it. There are an element for each
/// satisfiable class and one for the expression, in the order of their numbers.
struct Asked {
    text: &'static str,
    number: u32,
    facts: u32,
    above: &'static [u32],
    below: &'static [u32],
    elements: usize,
    members: &'static [usize],
}

const ASKED: &[Asked] = &[
    // D is equivalent to it, and E is below it by the chain.
    Asked {
        text: "ObjectSomeValuesFrom(:loc :H)",
        number: 8,
        facts: 24,
        above: &[0, 7, 8],
        below: &[2, 7, 8],
        elements: 6,
        members: &[1, 4, 5],
    },
    // It does not stand in the document.
    Asked {
        text: "ObjectSomeValuesFrom(:part :W)",
        number: 9,
        facts: 23,
        above: &[0, 9],
        below: &[9],
        elements: 6,
        members: &[5],
    },
    // E is in D, and so below both.
    Asked {
        text: "ObjectIntersectionOf(:D :E)",
        number: 9,
        facts: 29,
        above: &[0, 2, 7, 9],
        below: &[2, 9],
        elements: 6,
        members: &[1, 5],
    },
    // A class is a context anyway.
    Asked {
        text: ":E",
        number: 2,
        facts: 20,
        above: &[0, 2, 7],
        below: &[2],
        elements: 5,
        members: &[1],
    },
];

// ---- facts

/// Whether the facts of the one stand in the other, each at its place.
fn keeps_facts(old: &Saturation, new: &Saturation) -> bool {
    for (fact, kept) in old.facts().iter().zip(new.facts()) {
        if fact.get() != kept.get() {
            return false;
        }
    }
    old.facts().len() <= new.facts().len()
}

/// Whether there are so many facts, all of them served.
fn is_ended(saturation: &Saturation, facts: u32) -> bool {
    saturation.facts().len() == facts as usize
        && saturation.served() == facts as usize
        && saturation.is_finished()
}

// ---- lines

/// Whether a line says that the one expression lies below the other.
fn is_said(lines: &[Line], below: u32, above: u32) -> bool {
    let said = Conclusion::Sub(Subject::Expr(ExprId(below)), ExprId(above));
    lines.iter().any(|line| line.conclusion == said)
}

/// Whether the lines say of the class or the expression itself just what is known of it.
fn is_said_right(lines: &[Line], asked: &Asked, expression: u32) -> bool {
    is_said(lines, asked.number, expression) == asked.above.contains(&expression)
        && is_said(lines, expression, asked.number) == asked.below.contains(&expression)
}

/// Whether the lines say which named classes lie above and below the expression.
fn say_answers(lines: &[Line], asked: &Asked) -> bool {
    for class in CLASSES {
        if !is_said_right(lines, asked, *class) {
            return false;
        }
    }
    is_said_right(lines, asked, asked.number)
}

/// Whether there are such lines.
fn has_lines(closed: &Closed<'_>, asked: &Asked) -> bool {
    match lines(closed) {
        Ok(lines) => say_answers(&lines, asked),
        Err(_) => false,
    }
}

// ---- elements

/// Whether these elements are there and no others.
fn are_members(row: &Row, members: &[usize]) -> bool {
    for member in members {
        if !row.contains(*member) {
            return false;
        }
    }
    row.count() == members.len()
}

/// Whether all axioms hold in the interpretation, and just these of its elements are in the expression.
fn is_listed(ontology: &Ontology, made: &Interpretation, asked: &Asked) -> bool
    requires { IsMadeFor ontology.now.names made.now }
{
    if asked.number as usize >= ontology.expression_count() {
        return false;
    }
    match made.extension(ontology, ExprId(asked.number)) {
        Ok(row) => {
            made.size() == asked.elements
                && made.first_unsatisfied(ontology) == Ok(None)
                && are_members(&row, asked.members)
        }
        Err(_) => false,
    }
}

/// Whether the interpretation that is listed has these elements.
fn lists_members(indexed: &Indexed<'_>, asked: &Asked) -> bool {
    if !is_consistent(indexed) {
        return false;
    }
    let closed = indexed.closed();
    match build(closed) {
        Ok(made) => is_listed(closed.ontology(), &made, asked),
        Err(_) => false,
    }
}

// ---- saturations

/// The ontology of the document with the expression that the text is, and its number there.
fn read(
    alloc: Global,
    state: RandomState,
    document: &Opened,
    text: &str,
) -> Option<(Ontology, ExprId)>
    ensures grows { IfSome result (λ r. Grows document.now.ontology r.0 (length document.now.ontology.axioms)) }
    ensures names { IfSome result (λ r. KeepsNames document.now.ontology r.0) }
    ensures there { IfSome result (λ r. r.1.0 < length r.0.nodes) }
{
    let (ontology, prefixes) = (&document.ontology, &document.prefixes);
    match read_expression(alloc, ontology, prefixes, Version::Two, text, state) {
        Ok(read) => Some(read),
        Err(_) => None,
    }
}

/// A saturation over which the expression is asked about, run to its end.
fn saturated_with(
    saturation: &Saturation,
    old: &Ontology,
    new: &Ontology,
    expression: ExprId,
    facts: u32,
) -> Result<Saturation, Stop>
    requires sound { IsSound old.now saturation.now }
    requires finished { IsFinished saturation.now }
    requires grows { Grows old.now new.now (length old.now.axioms) }
    requires names { KeepsNames old.now new.now }
    requires there { expression.0 < length new.now.nodes }
    ensures { IfOk result (IsSound new.now) }
{
    let mut asked = saturation.asked(old, new, expression)?;
    match asked.resume(facts) {
        Ok(()) => Ok(asked),
        Err(stop) => {
            drop(asked);
            Err(stop)
        }
    }
}

/// Whether the run that may have one fact too few stops.
fn stops(
    saturation: &Saturation,
    old: &Ontology,
    new: &Ontology,
    expression: ExprId,
    facts: u32,
) -> bool
    requires sound { IsSound old.now saturation.now }
    requires finished { IsFinished saturation.now }
    requires grows { Grows old.now new.now (length old.now.axioms) }
    requires names { KeepsNames old.now new.now }
    requires there { expression.0 < length new.now.nodes }
{
    match saturated_with(saturation, old, new, expression, facts.saturating_sub(1)) {
        Ok(asked) => {
            drop(asked);
            false
        }
        Err(stop) => stop == Stop::Limit,
    }
}

/// Whether the saturation with the expression is what was worked out, and the other one is as it was.
fn is_right(old: &Saturation, ontology: &Ontology, new: &Saturation, asked: &Asked) -> bool
    requires { IsSound ontology.now new.now }
{
    let Some(indexed) = new.indexed(ontology) else {
        return false;
    };
    is_ended(old, FACTS)
        && is_ended(new, asked.facts)
        && keeps_facts(old, new)
        && has_lines(indexed.closed(), asked)
        && lists_members(&indexed, asked)
}

/// Whether the expression, which is there under its number, is answered as it was worked out. Here alone its saturation is alive.
fn answers(
    saturation: &Saturation,
    old: &Ontology,
    new: &Ontology,
    expression: ExprId,
    asked: &Asked,
) -> bool
    requires sound { IsSound old.now saturation.now }
    requires finished { IsFinished saturation.now }
    requires grows { Grows old.now new.now (length old.now.axioms) }
    requires names { KeepsNames old.now new.now }
    requires there { expression.0 < length new.now.nodes }
{
    let Ok(with) = saturated_with(saturation, old, new, expression, asked.facts) else {
        return false;
    };
    let right = expression == ExprId(asked.number)
        && stops(saturation, old, new, expression, asked.facts)
        && is_right(saturation, new, &with, asked);
    drop(with);
    right
}

/// Whether the text that is asked about is answered as it was worked out. Here alone the ontology that has grown is alive.
fn answers_text(
    alloc: Global,
    state: RandomState,
    document: &Opened,
    saturation: &Saturation,
    asked: &Asked,
) -> bool
    requires sound { IsSound document.now.ontology saturation.now }
    requires finished { IsFinished saturation.now }
{
    let Some((ontology, expression)) = read(alloc, state, document, asked.text) else {
        return false;
    };
    let right = answers(saturation, &document.ontology, &ontology, expression, asked);
    drop(ontology);
    right
}

/// Whether what is asked about the document is answered as it was worked out. Here alone the saturation of the document is alive.
fn answers_of(alloc: Global, state: RandomState, document: &Opened, asked: &Asked) -> bool {
    let Ok(saturation) = saturated(alloc, state, &document.ontology, FACTS) else {
        return false;
    };
    let right = answers_text(alloc, state, document, &saturation, asked);
    drop(saturation);
    right
}

/// The document, with its prefixes.
fn opened(alloc: Global, state: RandomState) -> Option<Opened> {
    let limits = Limits::new(1000, 1, Version::Two)?;
    let mut source = SliceSource::new(DOCUMENT.as_bytes());
    read_opened(alloc, &mut source, &limits, state).ok()
}

#[test]
fn asks_about_expressions(rt: HostRuntime) -> Result<(), Fail> {
    let state = RandomState::new(&rt)?;
    let document = opened(rt.alloc(), state).ok_or("document")?;
    for asked in ASKED {
        assert!(rt;
            answers_of(rt.alloc(), state, &document, asked),
            "{}",
            asked.text
        );
    }
    drop(document);
    Ok(())
}
