//! Listed interpretations whose rows have many targets: three layers of forty elements.

use super::{ONE_SUBCLASS, axiom_fails, claim_missing, has_verdict};
use crate::documents::ontology_of;
use axioms::Ontology;
use cert_check::Verdict;
use std::alloc::{AllocError, Global};
use std::test::Fail;

/// What joins the layers.
#[derive(Clone, Copy)]
enum Joins {
    /// One property, from each layer to those behind it.
    OneProperty,
    /// The same, where of each row another target is left out.
    OnePropertyWithGaps,
    /// From the first layer to the second, from the second to the third, and from the first to the third: a property each.
    ThreeProperties,
    /// The same, where of each row of the first two another target is left out.
    ThreePropertiesWithGaps,
}

/// A pair that is left out: of which property, from where and to where.
type Gap = (u32, u32, u32);

/// No pair is left out: there is no such property.
const NO_GAP: Gap = (9, 0, 0);

fn layer(element: u32) -> u32 {
    element / 40
}

/// Whether the property joins the two.
fn are_joined(joins: Joins, property: u32, source: u32, target: u32) -> bool {
    let (from, to) = (layer(source), layer(target));
    let is_gap = source < 200 && target == source + 40;
    match joins {
        Joins::OneProperty => property == 0 && from < to,
        Joins::OnePropertyWithGaps => property == 0 && from < to && !is_gap,
        Joins::ThreeProperties => are_next(property, from, to),
        Joins::ThreePropertiesWithGaps => are_next(property, from, to) && !is_gap,
    }
}

/// Whether the property, one of three, joins the two layers.
fn are_next(property: u32, from: u32, to: u32) -> bool {
    match property {
        0 => from == 0 && to == 1,
        1 => from == 1 && to == 2,
        2 => from == 0 && to == 2,
        _ => false,
    }
}

/// The targets of the source, each with a space before it.
fn targets(
    alloc: Global,
    joins: Joins,
    gap: Gap,
    property: u32,
    source: u32,
) -> Result<String, AllocError> {
    let mut text = String::new(alloc);
    for target in 0..120u32 {
        if are_joined(joins, property, source, target) && gap != (property, source, target) {
            text.push_str(&format!(in alloc; " {target}")?)?;
        }
    }
    Ok(text)
}

/// The rows of the property.
fn rows(alloc: Global, joins: Joins, gap: Gap, property: u32) -> Result<String, AllocError> {
    let mut text = String::new(alloc);
    for source in 0..120u32 {
        let targets = targets(alloc, joins, gap, property, source)?;
        if !targets.is_empty() {
            text.push_str(&format!(in alloc; "succ p{property} {source}{targets}\n")?)?;
        }
    }
    Ok(text)
}

/// The certificate with the rows of three properties.
fn certificate(alloc: Global, joins: Joins, gap: Gap) -> Result<String, AllocError> {
    let first = rows(alloc, joins, gap, 0)?;
    let second = rows(alloc, joins, gap, 1)?;
    let third = rows(alloc, joins, gap, 2)?;
    format!(in alloc; "elcert 1 consistent\ndomain 120\n{first}{second}{third}end\n")
}

/// The joins, the pair that is left out, and whether the axiom holds.
type Case = (Joins, Gap, bool);

/// Where all targets of a target are targets the property is transitive. A pair from the first layer to the third is owed to a path
/// over the second; one from the second to the third, or from the first to the second, is owed to none.
const TRANSITIVE: &[Case] = &[
    (Joins::OneProperty, NO_GAP, true),
    (Joins::OneProperty, (0, 0, 80), false),
    (Joins::OneProperty, (0, 39, 119), false),
    (Joins::OneProperty, (0, 20, 63), true),
    (Joins::OneProperty, (0, 60, 119), true),
    (Joins::OnePropertyWithGaps, NO_GAP, true),
    (Joins::OnePropertyWithGaps, (0, 0, 119), false),
    (Joins::OnePropertyWithGaps, (0, 39, 80), false),
    (Joins::OnePropertyWithGaps, (0, 21, 111), false),
    (Joins::OnePropertyWithGaps, (0, 20, 63), true),
    (Joins::OnePropertyWithGaps, (0, 60, 119), true),
];

/// A pair of the third property is owed to a path along the first two, and no pair of these is owed to any.
const CHAIN: &[Case] = &[
    (Joins::ThreeProperties, NO_GAP, true),
    (Joins::ThreeProperties, (2, 0, 80), false),
    (Joins::ThreeProperties, (2, 39, 119), false),
    (Joins::ThreeProperties, (0, 20, 63), true),
    (Joins::ThreeProperties, (1, 60, 119), true),
    (Joins::ThreePropertiesWithGaps, NO_GAP, true),
    (Joins::ThreePropertiesWithGaps, (2, 0, 119), false),
    (Joins::ThreePropertiesWithGaps, (2, 39, 80), false),
    (Joins::ThreePropertiesWithGaps, (2, 21, 111), false),
    (Joins::ThreePropertiesWithGaps, (0, 20, 63), true),
    (Joins::ThreePropertiesWithGaps, (1, 60, 119), true),
];

/// The verdict: where the axiom holds, the claim for owl:Thing is missed next.
fn expected(holds: bool) -> Verdict {
    if holds {
        claim_missing(0)
    } else {
        axiom_fails(1)
    }
}

/// Whether the case has its verdict over the ontology of its axiom.
fn is_judged(alloc: Global, ontology: &Ontology, case: Case) -> bool {
    let (joins, gap, holds) = case;
    match certificate(alloc, joins, gap) {
        Ok(certificate) => has_verdict(
            alloc,
            ontology,
            ONE_SUBCLASS,
            &certificate,
            expected(holds),
        ),
        Err(_) => false,
    }
}

#[test]
fn transitive_properties_with_many_targets(rt: HostRuntime) -> Result<(), Fail> {
    let ontology = ontology_of(
        &rt,
        "Prefix(:=<x:>) Ontology(TransitiveObjectProperty(:r) Declaration(ObjectProperty(:s)) Declaration(ObjectProperty(:t)))",
    )?;
    for case in TRANSITIVE {
        let (_, (property, source, target), _) = *case;
        assert!(rt;
            is_judged(rt.alloc(), &ontology, *case),
            "without {property} {source} {target}"
        );
    }
    Ok(())
}

#[test]
fn chains_with_many_targets(rt: HostRuntime) -> Result<(), Fail> {
    let ontology = ontology_of(
        &rt,
        "Prefix(:=<x:>) Ontology(SubObjectPropertyOf(ObjectPropertyChain(:r :s) :t))",
    )?;
    for case in CHAIN {
        let (_, (property, source, target), _) = *case;
        assert!(rt;
            is_judged(rt.alloc(), &ontology, *case),
            "without {property} {source} {target}"
        );
    }
    Ok(())
}
