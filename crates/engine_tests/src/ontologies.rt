//! The facts of small ontologies, worked out by hand.

ghost use Rattle.engine.specs.Saturations.{IsFinished, IsSaturated, IsSound, IsUnasked, as_ended};
ghost use Rattle.std.specs.Prelude.{IfOk};

use axioms::{ExprId, IndId, Ontology, PropId};
use engine::{Closed, Finished, Saturation, Stop};
use facts::{Context, Fact, FactId, StoredFact};
use normal_forms::{Class2, PropId2};
use profile::{Version, read_bytes};
use std::alloc::Global;
use std::hash::RandomState;
use std::test::Fail;

// Expressions have their numbers by where they stand first: the fifth is `ObjectSomeValuesFrom(:r :A)` in one document and C in
// another, where `ObjectIntersectionOf(:B :C)` is the sixth.
const THING: Class2 = Class2::Expr(ExprId(0));

const NOTHING: Class2 = Class2::Expr(ExprId(1));

const A: Class2 = Class2::Expr(ExprId(2));

const B: Class2 = Class2::Expr(ExprId(3));

const C: Class2 = Class2::Expr(ExprId(4));

const SOME_A: Class2 = Class2::Expr(ExprId(4));

const B_AND_C: Class2 = Class2::Expr(ExprId(5));

const D: Class2 = Class2::Expr(ExprId(6));

const R: PropId2 = PropId2::Property(PropId(0));

const IN_THING: Context = Context::Expr(ExprId(0));

const IN_NOTHING: Context = Context::Expr(ExprId(1));

const IN_A: Context = Context::Expr(ExprId(2));

const IN_B: Context = Context::Expr(ExprId(3));

const FIRST: Context = Context::Individual(IndId(0));

const SECOND: Context = Context::Individual(IndId(1));

/// A document and the facts that it leads to, none of which stands twice.
#[derive(Drop)]
struct Row {
    document: &'static str,
    facts: &'static [Fact],
}

const ROWS: &[Row] = &[
    Row {
        document: "Ontology(SubClassOf(<x:A> <x:B>))",
        facts: &[
            Fact::In(THING, IN_THING),
            Fact::In(THING, IN_NOTHING),
            Fact::In(NOTHING, IN_NOTHING),
            Fact::In(THING, IN_A),
            Fact::In(A, IN_A),
            Fact::In(B, IN_A),
            Fact::In(THING, IN_B),
            Fact::In(B, IN_B),
        ],
    },
    Row {
        document: "Prefix(:=<x:>) Ontology(Declaration(Class(:A)) Declaration(Class(:B)) SubClassOf(:A ObjectSomeValuesFrom(:r :A)) ObjectPropertyDomain(:r :B))",
        facts: &[
            Fact::In(THING, IN_THING),
            Fact::In(THING, IN_NOTHING),
            Fact::In(NOTHING, IN_NOTHING),
            Fact::In(THING, IN_A),
            Fact::In(A, IN_A),
            Fact::In(SOME_A, IN_A),
            Fact::Edge(IN_A, R, IN_A),
            Fact::In(B, IN_A),
            Fact::In(THING, IN_B),
            Fact::In(B, IN_B),
        ],
    },
    Row {
        document: "Prefix(:=<x:>) Ontology(Declaration(Class(:A)) Declaration(Class(:B)) ObjectPropertyAssertion(:r :a :b) ClassAssertion(:A :b) SubClassOf(ObjectSomeValuesFrom(:r :A) :B))",
        facts: &[
            Fact::In(THING, IN_THING),
            Fact::In(THING, IN_NOTHING),
            Fact::In(NOTHING, IN_NOTHING),
            Fact::In(THING, IN_A),
            Fact::In(A, IN_A),
            Fact::In(THING, IN_B),
            Fact::In(B, IN_B),
            Fact::In(THING, FIRST),
            Fact::In(THING, SECOND),
            Fact::In(A, SECOND),
            Fact::Edge(FIRST, R, SECOND),
            Fact::In(SOME_A, FIRST),
            Fact::In(B, FIRST),
        ],
    },
    Row {
        document: "Ontology(SubClassOf(<x:A> <x:B>) SubClassOf(<x:A> <x:C>) SubClassOf(ObjectIntersectionOf(<x:B> <x:C>) <x:D>))",
        facts: &[
            Fact::In(THING, IN_THING),
            Fact::In(THING, IN_NOTHING),
            Fact::In(NOTHING, IN_NOTHING),
            Fact::In(THING, IN_A),
            Fact::In(A, IN_A),
            Fact::In(B, IN_A),
            Fact::In(C, IN_A),
            Fact::In(B_AND_C, IN_A),
            Fact::In(D, IN_A),
            Fact::In(THING, IN_B),
            Fact::In(B, IN_B),
            Fact::In(THING, Context::Expr(ExprId(4))),
            Fact::In(C, Context::Expr(ExprId(4))),
            Fact::In(THING, Context::Expr(ExprId(6))),
            Fact::In(D, Context::Expr(ExprId(6))),
        ],
    },
];

/// A saturation of the ontology, run to its end, where it leads to at most so many facts.
pub(crate) fn saturated(
    alloc: Global,
    state: RandomState,
    ontology: &Ontology,
    most: u32,
) -> Result<Saturation, Stop>
    ensures sound { IfOk result (IsSound ontology.now) }
    ensures finished { IfOk result IsFinished }
    ensures saturated { IfOk result (λ s. IsSaturated ontology.now (as_ended s)) }
    ensures unasked { IfOk result (λ s. IsUnasked (as_ended s)) }
{
    let mut saturation = Saturation::start(alloc, state, ontology)?;
    match saturation.resume(most) {
        Ok(()) => Ok(saturation),
        Err(stop) => {
            drop(saturation);
            Err(stop)
        }
    }
}

/// What is left of such a saturation without its tables.
pub(crate) fn finished(
    alloc: Global,
    state: RandomState,
    ontology: &Ontology,
    most: u32,
) -> Result<Finished, Stop>
    ensures saturated { IfOk result (IsSaturated ontology.now) }
    ensures unasked { IfOk result IsUnasked }
{
    let saturation = saturated(alloc, state, ontology, most)?;
    Ok(saturation.finish())
}

/// Whether the facts are these and no others, where none of these stands twice.
fn are_exactly(known: &[StoredFact], facts: &[Fact]) -> bool {
    for fact in facts {
        if !known.iter().any(|known| known.get() == *fact) {
            return false;
        }
    }
    known.len() == facts.len()
}

/// Whether the ontology leads to these facts and no others.
fn leads_to(
    alloc: Global,
    state: RandomState,
    ontology: &Ontology,
    most: u32,
    facts: &[Fact],
) -> Result<bool, Stop> {
    let finished = finished(alloc, state, ontology, most)?;
    let fits = are_exactly(finished.closed(ontology).facts(), facts);
    drop(finished);
    Ok(fits)
}

/// Whether a start that stops at one fact too few goes on to all of them, which are served. With none pending it may be run again.
fn resumes(saturation: &mut Saturation, facts: u32) -> bool {
    saturation.served() == 0
        && !saturation.is_finished()
        && saturation.resume(facts.saturating_sub(1)) == Err(Stop::Limit)
        && !saturation.is_finished()
        && saturation.resume(facts) == Ok(())
        && saturation.facts().len() == facts as usize
        && saturation.served() == facts as usize
        && saturation.is_finished()
        && saturation.resume(1) == Err(Stop::Limit)
        && saturation.resume(100) == Ok(())
}

/// Whether a saturation of the ontology that stops goes on.
fn goes_on(alloc: Global, state: RandomState, ontology: &Ontology, facts: u32) -> bool {
    let Ok(mut saturation) = Saturation::start(alloc, state, ontology) else {
        return false;
    };
    let ends = resumes(&mut saturation, facts);
    drop(saturation);
    ends
}

/// Whether the fact of that number is the same in both, and was born alike.
fn is_same(one: &Closed<'_>, other: &Closed<'_>, number: u32) -> bool {
    let (born, known) = (FactId(number), other.facts().get(number as usize));
    match (one.facts().get(number as usize), known) {
        (Some(fact), Some(known)) => {
            fact.get() == known.get() && one.born(born) == other.born(born)
        }
        _ => false,
    }
}

/// Whether both have so many facts, which are the same, and tell how these were born and no others.
fn are_same(one: &Closed<'_>, other: &Closed<'_>, facts: u32) -> bool {
    for number in 0..facts {
        if !is_same(one, other, number) {
            return false;
        }
    }
    one.facts().len() == facts as usize
        && other.facts().len() == facts as usize
        && one.born(FactId(0)).is_some()
        && one.born(FactId(facts)).is_none()
        && other.born(FactId(facts)).is_none()
}

/// Whether the saturation, which has run, has the facts that are left without its tables.
fn keeps_facts(
    saturation: &Saturation,
    ontology: &Ontology,
    finished: &Finished,
    facts: u32,
) -> bool
    requires sound { IsSound ontology.now saturation.now }
    requires saturated { IsSaturated ontology.now finished.now }
{
    match saturation.indexed(ontology) {
        Some(indexed) => are_same(indexed.closed(), &finished.closed(ontology), facts),
        None => false,
    }
}

/// Whether a run of the ontology has the same facts with its tables and without.
fn is_kept(alloc: Global, state: RandomState, ontology: &Ontology, facts: u32) -> bool {
    let Ok(saturation) = saturated(alloc, state, ontology, 100) else {
        return false;
    };
    let kept = match finished(alloc, state, ontology, 100) {
        Ok(finished) => keeps_facts(&saturation, ontology, &finished, facts),
        Err(_) => false,
    };
    drop(saturation);
    kept
}

/// Whether the ontology leads to these facts and no others, stops where one fewer may be, and goes on then.
fn saturates(alloc: Global, state: RandomState, ontology: &Ontology, facts: &[Fact]) -> bool {
    let Ok(count) = u32::try_from(facts.len()) else {
        return false;
    };
    leads_to(alloc, state, ontology, count.saturating_sub(1), facts) == Err(Stop::Limit)
        && leads_to(alloc, state, ontology, 100, facts) == Ok(true)
        && goes_on(alloc, state, ontology, count)
        && is_kept(alloc, state, ontology, count)
}

/// Whether the document is read and leads to its facts.
fn fits(alloc: Global, state: RandomState, row: &Row) -> bool {
    let Ok(ontology) = read_bytes(alloc, row.document.as_bytes(), Version::Two, state) else {
        return false;
    };
    let right = saturates(alloc, state, &ontology, row.facts);
    drop(ontology);
    right
}

#[test]
fn facts_of_small_ontologies(rt: HostRuntime) -> Result<(), Fail> {
    let state = RandomState::new(&rt)?;
    for row in ROWS {
        assert!(rt; fits(rt.alloc(), state, row), "{}", row.document);
    }
    Ok(())
}
