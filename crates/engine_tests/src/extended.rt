//! Saturations that grow by a subclass axiom, worked out by hand.

ghost use Rattle.engine.specs.Saturations.{IsSound};
ghost use Rattle.normalise.specs.Growth.{Grows};
ghost use Rattle.normalise.specs.Roots.{KeepsNames};
ghost use Rattle.std.specs.Prelude.{◌<◌, IfSome, length};

use crate::ontologies::saturated;
use axioms::{Axiom, Builder, ExprId, Kind, Name, Ontology};
use engine::Saturation;
use profile::{Version, read_bytes};
use std::alloc::Global;
use std::hash::RandomState;
use std::test::Fail;

/// It leads to 8 facts.
const DOCUMENT: &str = "Ontology(SubClassOf(<x:A> <x:B>))";

/// A subclass axiom that is added to that of the document once its facts are served: how many of these are served still, and how many
/// there are after a run.
#[derive(Clone, Copy)]
struct Row {
    sub: &'static str,
    sup: &'static str,
    served: usize,
    facts: u32,
}

const ROWS: &[Row] = &[
    // of two more classes, which no fact is of yet
    Row {
        sub: "x:C",
        sup: "x:D",
        served: 8,
        facts: 13,
    },
    // it asks for the facts that A and B are below B
    Row {
        sub: "x:B",
        sup: "x:A",
        served: 6,
        facts: 9,
    },
    // the same again
    Row {
        sub: "x:A",
        sup: "x:B",
        served: 8,
        facts: 8,
    },
];

/// The class as an expression of the ontology, which may have it already.
fn class(builder: &mut Builder, iri: &str) -> Option<ExprId>
    ensures grows { IfSome result (λ _. Grows builder.old builder.new (length builder.old.axioms)) }
    ensures names { IfSome result (λ _. KeepsNames builder.old builder.new) }
    ensures there { IfSome result (λ e. e.0 < length builder.new.nodes) }
{
    match builder.declare(Kind::Class, iri) {
        Ok(Name::Class(_, expression)) => Some(expression),
        _ => None,
    }
}

/// Adds the axiom, with its classes.
fn add_subclass(builder: &mut Builder, sub: &str, sup: &str) -> Option<()>
    ensures grows { IfSome result (λ _. Grows builder.old builder.new (length builder.old.axioms)) }
    ensures names { IfSome result (λ _. KeepsNames builder.old builder.new) }
{
    let sub = class(builder, sub)?;
    let sup = class(builder, sup)?;
    match builder.add_axiom(Axiom::SubClass(sub, sup)) {
        Ok(()) => Some(()),
        Err(_) => None,
    }
}

/// The ontology with the axiom more.
fn with_subclass(ontology: &Ontology, sub: &str, sup: &str) -> Option<Ontology>
    ensures grows { IfSome result (λ p. Grows ontology.now p (length ontology.now.axioms)) }
    ensures names { IfSome result (KeepsNames ontology.now) }
{
    let Ok(copy) = ontology.copy() else {
        return None;
    };
    let mut builder = Builder::from(copy);
    add_subclass(&mut builder, sub, sup)?;
    Some(builder.finish())
}

/// Whether the saturation grows so, and then runs so.
fn extends(saturation: &mut Saturation, old: &Ontology, new: &Ontology, row: &Row) -> bool
    requires sound { IsSound old.now saturation.old }
    requires grows { Grows old.now new.now (length old.now.axioms) }
    requires names { KeepsNames old.now new.now }
{
    old.well_formed();
    let lengths = old.lengths();
    let facts = saturation.facts().len();
    saturation.extend(lengths, new) == Ok(())
        && saturation.served() == row.served
        && saturation.is_finished() == (facts == row.facts as usize)
        && saturation.resume(row.facts) == Ok(())
        && saturation.facts().len() == row.facts as usize
        && saturation.is_finished()
}

/// Whether the saturation of the document grows so, and then runs so.
fn grows(alloc: Global, state: RandomState, ontology: &Ontology, row: &Row) -> bool {
    let Some(grown) = with_subclass(ontology, row.sub, row.sup) else {
        return false;
    };
    let Ok(mut saturation) = saturated(alloc, state, ontology, 8) else {
        return false;
    };
    let grows = extends(&mut saturation, ontology, &grown, row);
    drop(saturation);
    drop(grown);
    grows
}

#[test]
fn grows_by_a_subclass(rt: HostRuntime) -> Result<(), Fail> {
    let state = RandomState::new(&rt)?;
    let ontology = read_bytes(rt.alloc(), DOCUMENT.as_bytes(), Version::Two, state)?;
    for row in ROWS {
        assert!(rt;
            grows(rt.alloc(), state, &ontology, row),
            "{} {}",
            row.sub,
            row.sup
        );
    }
    drop(ontology);
    Ok(())
}
