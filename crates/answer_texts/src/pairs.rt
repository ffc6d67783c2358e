//! The pairs of properties in texts.
ghost use Rattle.answer_texts.specs.Pairs.{pairs_of, property_pairs};
ghost use Rattle.axioms.specs.Ontology.{name_at};
ghost use Rattle.std.specs.List.{flat_map};
ghost use Rattle.std.specs.Prelude.{◌++◌, ◌≡◌, List, OnOk, map, ℕ};
ghost use Rattle.std.specs.String.{string_bytes};

use axioms::{Ontology, PropId};
use interpretation_spec::Interpretation;
use std::alloc::AllocError;

/// How a text tells a pair.
pub(crate) trait PairText {
    /// By the name of the property, the source and the target.
    ghost pair: { List ℕ → ℕ → ℕ → List ℕ };

    /// Adds the pair.
    fn push_pair(
        out: &mut Vec<u8>,
        properties: &[String],
        property: usize,
        source: usize,
        target: usize,
    ) -> Result<(), AllocError>
        ensures { OnOk result (out.new.items ≡ out.old.items ++ pair (name_at (map string_bytes properties.now) property) source target) };
}

// Adds each pair of the property from the source to a target.
fn push_targets<P: PairText>(
    out: &mut Vec<u8>,
    properties: &[String],
    property: usize,
    source: usize,
    targets: &[usize],
) -> Result<(), AllocError>
    ensures { OnOk result (out.new.items ≡ out.old.items ++ flat_map (P.pair (name_at (map string_bytes properties.now) property) source) targets.now) }
{
    for target in targets {
        P::push_pair(out, properties, property, source, *target)?;
    }
    Ok(())
}

// Adds the pairs of the property that begin at one of the elements.
fn push_property<P: PairText>(
    out: &mut Vec<u8>,
    ontology: &Ontology,
    interpretation: &Interpretation,
    elements: &[usize],
    property: PropId,
) -> Result<(), AllocError>
    ensures { OnOk result (out.new.items ≡ out.old.items ++ property_pairs P.pair ontology.now.names interpretation.now elements.now property.0) }
{
    for source in elements {
        let targets = interpretation.targets_at(property, *source);
        push_targets::<P>(
            out,
            ontology.properties(),
            property.index(),
            *source,
            targets,
        )?;
    }
    Ok(())
}

/// Adds the pairs of all properties that begin at one of the elements.
pub(crate) fn push_properties<P: PairText>(
    out: &mut Vec<u8>,
    ontology: &Ontology,
    interpretation: &Interpretation,
    elements: &[usize],
) -> Result<(), AllocError>
    ensures { OnOk result (out.new.items ≡ out.old.items ++ pairs_of P.pair ontology.now.names interpretation.now elements.now) }
{
    ontology.bounded();
    for number in 0..ontology.properties().len() {
        push_property::<P>(
            out,
            ontology,
            interpretation,
            elements,
            PropId(number as u32),
        )?;
    }
    Ok(())
}
