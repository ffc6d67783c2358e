//! Axioms in texts.
ghost use Rattle.answer_texts.specs.Axioms.{axiom_line, axiom_text, chain_text, form};
ghost use Rattle.answer_texts.specs.Names.{expression_text, name_text};
ghost use Rattle.axioms.specs.Ontology.{axiom_tree, expression as expression_of, expressions, individual_name, property_name};
ghost use Rattle.axioms.specs.View.{at_number, axiom_of, expr_numbers, ind_numbers, prop_numbers};
ghost use Rattle.axioms.specs.WellFormedness.{IsAxiomOf};
ghost use Rattle.std.specs.Prelude.{◌++◌, ◌<◌, ◌≡◌, ◌∷◌, [], All, IfOk, OnOk, codes, length, map, option_map};

use crate::expression::push_expression;
use crate::names::push_name;
use axioms::{Axiom, ExprId, IndId, Memory, Ontology, PropId};
use std::alloc::{AllocError, Global};

fn push_property(out: &mut Vec<u8>, ontology: &Ontology, property: PropId) -> Result<(), AllocError>
    ensures { OnOk result (out.new.items ≡ out.old.items ++ name_text (property_name ontology.now property.0)) }
{
    push_name(out, ontology.properties(), property.index())
}

fn push_individual(
    out: &mut Vec<u8>,
    ontology: &Ontology,
    individual: IndId,
) -> Result<(), AllocError>
    ensures { OnOk result (out.new.items ≡ out.old.items ++ name_text (individual_name ontology.now individual.0)) }
{
    push_name(out, ontology.individuals(), individual.index())
}

// Adds the keyword with these expressions as its operands.
fn push_expressions(
    out: &mut Vec<u8>,
    ontology: &Ontology,
    keyword: &[u8],
    operands: &[ExprId],
) -> Result<(), AllocError>
    requires { All (λ e. e < length ontology.now.nodes) (expr_numbers operands.now) }
    ensures { OnOk result (out.new.items ≡ out.old.items ++ form keyword.now (map expression_text (expressions ontology.now (expr_numbers operands.now)))) }
{
    out.extend_from_slice(keyword)?;
    out.extend_from_slice(b"(")?;
    let mut lead: &[u8] = b"";
    for operand in operands {
        out.extend_from_slice(lead)?;
        push_expression(out, ontology, *operand)?;
        lead = b" ";
    }
    out.extend_from_slice(b")")
}

// Adds the keyword with these properties as its operands.
fn push_properties(
    out: &mut Vec<u8>,
    ontology: &Ontology,
    keyword: &[u8],
    operands: &[PropId],
) -> Result<(), AllocError>
    ensures { OnOk result (out.new.items ≡ out.old.items ++ form keyword.now (map name_text (map (property_name ontology.now) (prop_numbers operands.now)))) }
{
    out.extend_from_slice(keyword)?;
    out.extend_from_slice(b"(")?;
    let mut lead: &[u8] = b"";
    for operand in operands {
        out.extend_from_slice(lead)?;
        push_property(out, ontology, *operand)?;
        lead = b" ";
    }
    out.extend_from_slice(b")")
}

// Adds the keyword with these individuals as its operands.
fn push_individuals(
    out: &mut Vec<u8>,
    ontology: &Ontology,
    keyword: &[u8],
    operands: &[IndId],
) -> Result<(), AllocError>
    ensures { OnOk result (out.new.items ≡ out.old.items ++ form keyword.now (map name_text (map (individual_name ontology.now) (ind_numbers operands.now)))) }
{
    out.extend_from_slice(keyword)?;
    out.extend_from_slice(b"(")?;
    let mut lead: &[u8] = b"";
    for operand in operands {
        out.extend_from_slice(lead)?;
        push_individual(out, ontology, *operand)?;
        lead = b" ";
    }
    out.extend_from_slice(b")")
}

// Adds the property, or the chain of two or more.
fn push_chain(out: &mut Vec<u8>, ontology: &Ontology, chain: &[PropId]) -> Result<(), AllocError>
    ensures { OnOk result (out.new.items ≡ out.old.items ++ chain_text (map (property_name ontology.now) (prop_numbers chain.now))) }
{
    match chain {
        [property] => push_property(out, ontology, *property),
        _ => push_properties(out, ontology, b"ObjectPropertyChain", chain),
    }
}

fn push_sub_property(
    out: &mut Vec<u8>,
    ontology: &Ontology,
    chain: &[PropId],
    above: PropId,
) -> Result<(), AllocError>
    ensures { OnOk result (out.new.items ≡ out.old.items ++ form (codes "SubObjectPropertyOf")
        (chain_text (map (property_name ontology.now) (prop_numbers chain.now)) ∷ name_text (property_name ontology.now above.0) ∷ [])) }
{
    out.extend_from_slice(b"SubObjectPropertyOf(")?;
    push_chain(out, ontology, chain)?;
    out.extend_from_slice(b" ")?;
    push_property(out, ontology, above)?;
    out.extend_from_slice(b")")
}

fn push_domain(
    out: &mut Vec<u8>,
    ontology: &Ontology,
    property: PropId,
    class: ExprId,
) -> Result<(), AllocError>
    requires { class.0 < length ontology.now.nodes }
    ensures { OnOk result (out.new.items ≡ out.old.items ++ form (codes "ObjectPropertyDomain")
        (name_text (property_name ontology.now property.0) ∷ expression_text (expression_of ontology.now class.0) ∷ [])) }
{
    out.extend_from_slice(b"ObjectPropertyDomain(")?;
    push_property(out, ontology, property)?;
    out.extend_from_slice(b" ")?;
    push_expression(out, ontology, class)?;
    out.extend_from_slice(b")")
}

fn push_class_assertion(
    out: &mut Vec<u8>,
    ontology: &Ontology,
    class: ExprId,
    individual: IndId,
) -> Result<(), AllocError>
    requires { class.0 < length ontology.now.nodes }
    ensures { OnOk result (out.new.items ≡ out.old.items ++ form (codes "ClassAssertion")
        (expression_text (expression_of ontology.now class.0) ∷ name_text (individual_name ontology.now individual.0) ∷ [])) }
{
    out.extend_from_slice(b"ClassAssertion(")?;
    push_expression(out, ontology, class)?;
    out.extend_from_slice(b" ")?;
    push_individual(out, ontology, individual)?;
    out.extend_from_slice(b")")
}

// Adds what stands behind the keyword of a pair: a property, a source and a target.
fn push_pair(
    out: &mut Vec<u8>,
    ontology: &Ontology,
    property: PropId,
    source: IndId,
    target: IndId,
) -> Result<(), AllocError>
    ensures { OnOk result (out.new.items ≡ out.old.items ++ form []
        (name_text (property_name ontology.now property.0) ∷ name_text (individual_name ontology.now source.0) ∷ name_text (individual_name ontology.now target.0) ∷ [])) }
{
    out.extend_from_slice(b"(")?;
    push_property(out, ontology, property)?;
    out.extend_from_slice(b" ")?;
    push_individual(out, ontology, source)?;
    out.extend_from_slice(b" ")?;
    push_individual(out, ontology, target)?;
    out.extend_from_slice(b")")
}

/// Adds the axiom in the functional syntax, with full IRIs and single spaces. Where memory was refused nothing is said of what was
/// added.
///
/// # Errors
///
/// `AllocError` where memory was refused.
pub fn write_axiom(out: &mut Vec<u8>, ontology: &Ontology, stated: &Axiom) -> Result<(), AllocError>
    requires { IsAxiomOf ontology.now (axiom_of stated.now) }
    ensures { OnOk result (out.new.items ≡ out.old.items ++ axiom_text (axiom_tree ontology.now (axiom_of stated.now))) }
{
    match stated {
        Axiom::SubClass(sub, above) => {
            push_expressions(out, ontology, b"SubClassOf", &[*sub, *above])
        }
        Axiom::EquivalentClasses(classes) => {
            push_expressions(out, ontology, b"EquivalentClasses", classes)
        }
        Axiom::DisjointClasses(classes) => {
            push_expressions(out, ontology, b"DisjointClasses", classes)
        }
        Axiom::SubProperty(chain, above) => push_sub_property(out, ontology, chain, *above),
        Axiom::EquivalentProperties(properties) => {
            push_properties(out, ontology, b"EquivalentObjectProperties", properties)
        }
        Axiom::Domain(property, class) => push_domain(out, ontology, *property, *class),
        Axiom::Transitive(property) => {
            push_properties(out, ontology, b"TransitiveObjectProperty", &[*property])
        }
        Axiom::Reflexive(property) => {
            push_properties(out, ontology, b"ReflexiveObjectProperty", &[*property])
        }
        Axiom::ClassAssertion(class, individual) => {
            push_class_assertion(out, ontology, *class, *individual)
        }
        Axiom::PropertyAssertion(property, source, target) => {
            out.extend_from_slice(b"ObjectPropertyAssertion")?;
            push_pair(out, ontology, *property, *source, *target)
        }
        Axiom::SameIndividuals(individuals) => {
            push_individuals(out, ontology, b"SameIndividual", individuals)
        }
        Axiom::DifferentIndividuals(individuals) => {
            push_individuals(out, ontology, b"DifferentIndividuals", individuals)
        }
        Axiom::NegativePropertyAssertion(property, source, target) => {
            out.extend_from_slice(b"NegativeObjectPropertyAssertion")?;
            push_pair(out, ontology, *property, *source, *target)
        }
    }
}

/// The axiom of that number, counted from 1, in the functional syntax with full IRIs and single spaces, and a line feed, in memory;
/// none where the ontology has no axiom of that number.
///
/// # Errors
///
/// `Memory` where memory was refused.
pub fn axiom_bytes(
    alloc: Global,
    ontology: &Ontology,
    number: usize,
) -> Result<Option<Vec<u8>>, Memory>
    ensures { IfOk result (λ found. option_map (λ v. v.items) found ≡ option_map (axiom_line ontology.now) (at_number ontology.now.axioms number)) }
{
    ontology.well_formed();
    let Some(axiom) = ontology.axiom(number) else {
        return Ok(None);
    };
    let mut out = Vec::new(alloc);
    write_axiom(&mut out, ontology, axiom)?;
    out.push(b'\n')?;
    Ok(Some(out))
}
