//! Copies of ontologies.
ghost use Rattle.std.specs.Prelude.{◌≡◌, map, IfOk, string_bytes};
ghost use Rattle.axioms.specs.View.{axiom_of, node_of};

use crate::ids::ExprId;
use crate::ontology::Ontology;
use crate::terms::{Axiom, Expr};
use device::Memory;
use keyed_hash::NumberedSet;

// The same texts.
fn copied_names(names: &NumberedSet<String>) -> Result<NumberedSet<String>, Memory>
    ensures { IfOk result (λ s. map string_bytes s.keys ≡ map string_bytes names.now.keys) }
{
    Ok(names.copy()?)
}

fn copied_expressions(expressions: &NumberedSet<Expr>) -> Result<NumberedSet<Expr>, Memory>
    ensures { IfOk result (λ s. map node_of s.keys ≡ map node_of expressions.now.keys) }
{
    Ok(expressions.copy()?)
}

fn copied_axioms(axioms: &Vec<Axiom>) -> Result<Vec<Axiom>, Memory>
    ensures { IfOk result (λ v. map axiom_of v.items ≡ map axiom_of axioms.now.items) }
{
    Ok(axioms.clone()?)
}

// The same numbers.
fn copied_places(places: &Vec<ExprId>) -> Result<Vec<ExprId>, Memory>
    ensures { IfOk result (λ v. v.items ≡ places.now.items) }
{
    Ok(places.clone()?)
}

/// The names of an ontology.
#[derive(Drop)]
struct Names {
    classes: NumberedSet<String>,
    properties: NumberedSet<String>,
    individuals: NumberedSet<String>,
}

// The same names of each kind.
fn copied_signature(
    classes: &NumberedSet<String>,
    properties: &NumberedSet<String>,
    individuals: &NumberedSet<String>,
) -> Result<Names, Memory>
    ensures classes { IfOk result (λ n. map string_bytes n.classes.keys ≡ map string_bytes classes.now.keys) }
    ensures properties { IfOk result (λ n. map string_bytes n.properties.keys ≡ map string_bytes properties.now.keys) }
    ensures individuals { IfOk result (λ n. map string_bytes n.individuals.keys ≡ map string_bytes individuals.now.keys) }
{
    Ok(Names {
        classes: copied_names(classes)?,
        properties: copied_names(properties)?,
        individuals: copied_names(individuals)?,
    })
}

/// The expressions and axioms of an ontology.
#[derive(Drop)]
struct Terms {
    expressions: NumberedSet<Expr>,
    class_expressions: Vec<ExprId>,
    axioms: Vec<Axiom>,
}

// The same expressions and axioms.
fn copied_terms(
    expressions: &NumberedSet<Expr>,
    class_expressions: &Vec<ExprId>,
    axioms: &Vec<Axiom>,
) -> Result<Terms, Memory>
    ensures expressions { IfOk result (λ t. map node_of t.expressions.keys ≡ map node_of expressions.now.keys) }
    ensures places { IfOk result (λ t. t.class_expressions.items ≡ class_expressions.now.items) }
    ensures axioms { IfOk result (λ t. map axiom_of t.axioms.items ≡ map axiom_of axioms.now.items) }
{
    Ok(Terms {
        expressions: copied_expressions(expressions)?,
        class_expressions: copied_places(class_expressions)?,
        axioms: copied_axioms(axioms)?,
    })
}

impl Ontology {
    /// An equal ontology.
    ///
    /// # Errors
    ///
    /// `Memory` where memory was refused.
    pub fn copy(&self) -> Result<Ontology, Memory>
        ensures { IfOk result (λ o. o ≡ self.now) }
    {
        let names = copied_signature(&self.classes, &self.properties, &self.individuals)?;
        let terms = copied_terms(&self.expressions, &self.class_expressions, &self.axioms)?;
        Ok(Ontology {
            alloc: self.alloc,
            classes: names.classes,
            properties: names.properties,
            individuals: names.individuals,
            expressions: terms.expressions,
            class_expressions: terms.class_expressions,
            axioms: terms.axioms,
        })
    }
}
