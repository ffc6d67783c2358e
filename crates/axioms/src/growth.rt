//! How an ontology grows: each growth gives the number of what was there, or makes room first and then adds it.
ghost use Rattle.std.specs.Prelude.{◌≡◌, ◌<◌, ◌≤◌, ◌↔◌, [], ◌∷◌, length, map, Contains, Err, IfOk, OnOk, OnErr, string_bytes};
ghost use Rattle.axioms.specs.declared.fault.BuildFault.TheVariants as faults;
ghost use Rattle.axioms.specs.Growth.{empty_ontology, most_names, Numbers, IsFull, DeclaresClass, DeclaresProperty, DeclaresIndividual, with_axiom, with_class};
ghost use Rattle.axioms.specs.Expression.{owl_thing, owl_nothing};
ghost use Rattle.axioms.specs.Ontology.{Class};
ghost use Rattle.axioms.specs.View.{axiom_of, node_of};
ghost use Rattle.axioms.specs.WellFormedness.{IsAxiomOf, IsNodeOf};

use crate::fault::BuildFault;
use crate::ids::{ClassId, ExprId, IndId, PropId};
use crate::ontology::Ontology;
use crate::terms::{Axiom, Expr};
use device::Memory;
use keyed_hash::{KeyedState, NumberedSet};
use std::alloc::Global;

/// The IRI of `owl:Thing` (OWL 2 Structural Specification, section 5.1).
pub const OWL_THING: &str = "http://www.w3.org/2002/07/owl#Thing";

/// The IRI of `owl:Nothing` (OWL 2 Structural Specification, section 5.1).
pub const OWL_NOTHING: &str = "http://www.w3.org/2002/07/owl#Nothing";

/// The most names that a kind may have; `owl:Thing` and `owl:Nothing` count among the classes.
pub const MOST_NAMES: usize = 1_000_000;

/// The most expressions that an ontology may have, since their numbers are below 2^32. No document of at most 2^28 bytes has as
/// many.
pub const MOST_EXPRESSIONS: usize = 4_294_967_296;

/// The most axioms that an ontology may have, since their numbers are from 1 and below 2^32.
pub const MOST_AXIOMS: usize = 4_294_967_295;

// The number of the name; a new one goes last.
fn number_of(alloc: Global, names: &mut NumberedSet<String>, iri: &str) -> Result<u32, BuildFault>
    requires { length names.old.keys ≤ most_names }
    ensures few { length names.new.keys ≤ most_names }
    ensures ok { IfOk result (λ n. Numbers (map string_bytes names.old.keys) iri.now (map string_bytes names.new.keys) n) }
    ensures err { OnErr result (names.new.keys ≡ names.old.keys) }
    ensures full { (result ≡ Err faults.TooManyNames) ↔ IsFull (map string_bytes names.old.keys) iri.now }
{
    if let Some(number) = names.find(iri) {
        return Ok(number);
    }
    if names.len() >= MOST_NAMES {
        return Err(BuildFault::TooManyNames);
    }
    let text = String::from_str(alloc, iri)?;
    let (number, _) = names.insert(text)?;
    Ok(number)
}

// The classes of the standard, in their order.
fn standard_classes(alloc: Global, state: KeyedState) -> Result<NumberedSet<String>, Memory>
    ensures { IfOk result (λ s. map string_bytes s.keys ≡ owl_thing ∷ owl_nothing ∷ []) }
{
    let mut classes = NumberedSet::new(alloc, state);
    classes.insert(String::from_str(alloc, OWL_THING)?)?;
    classes.insert(String::from_str(alloc, OWL_NOTHING)?)?;
    Ok(classes)
}

// Their expressions.
fn standard_expressions(alloc: Global, state: KeyedState) -> Result<NumberedSet<Expr>, Memory>
    ensures { IfOk result (λ s. map node_of s.keys ≡ Class 0 ∷ Class 1 ∷ []) }
{
    let mut expressions = NumberedSet::new(alloc, state);
    expressions.insert(Expr::Class(ClassId::THING))?;
    expressions.insert(Expr::Class(ClassId::NOTHING))?;
    Ok(expressions)
}

impl Ontology {
    // The ontology of no statements.
    pub(crate) fn empty(alloc: Global, state: KeyedState) -> Result<Ontology, Memory>
        ensures { IfOk result (λ o. o ≡ empty_ontology) }
    {
        let classes = standard_classes(alloc, state)?;
        let expressions = standard_expressions(alloc, state)?;
        let class_expressions = Vec::from_array(alloc, [ExprId::THING, ExprId::NOTHING])?;
        Ok(Ontology {
            alloc,
            classes,
            properties: NumberedSet::new(alloc, state),
            individuals: NumberedSet::new(alloc, state),
            expressions,
            class_expressions,
            axioms: Vec::new(alloc),
        })
    }

    // What the name of a property is, which is added where it is new.
    pub(crate) fn property(&mut self, iri: &str) -> Result<PropId, BuildFault>
        ensures ok { IfOk result (λ p. DeclaresProperty self.old iri.now self.new p.0) }
        ensures err { OnErr result (self.new ≡ self.old) }
        ensures full { (result ≡ Err faults.TooManyNames) ↔ IsFull self.old.names.properties iri.now }
    {
        let number = number_of(self.alloc, &mut self.properties, iri)?;
        Ok(PropId(number))
    }

    // What the name of an individual is, which is added where it is new.
    pub(crate) fn individual(&mut self, iri: &str) -> Result<IndId, BuildFault>
        ensures ok { IfOk result (λ a. DeclaresIndividual self.old iri.now self.new a.0) }
        ensures err { OnErr result (self.new ≡ self.old) }
        ensures full { (result ≡ Err faults.TooManyNames) ↔ IsFull self.old.names.individuals iri.now }
    {
        let number = number_of(self.alloc, &mut self.individuals, iri)?;
        Ok(IndId(number))
    }

    // What the name of a class is, which is added with its expression where it is new.
    pub(crate) fn class(&mut self, iri: &str) -> Result<(ClassId, ExprId), BuildFault>
        ensures ok { IfOk result (λ r. DeclaresClass self.old iri.now self.new r.0.0 r.1.0) }
        ensures err { OnErr result (self.new ≡ self.old) }
        ensures full { (result ≡ Err faults.TooManyNames) ↔ IsFull self.old.names.classes iri.now }
    {
        if let Some(number) = self.classes.find(iri) {
            return Ok((ClassId(number), self.class_expressions[number as usize]));
        }
        if self.classes.len() >= MOST_NAMES {
            return Err(BuildFault::TooManyNames);
        }
        let text = String::from_str(self.alloc, iri)?;
        Ok(self.new_class(text)?)
    }

    // Adds the class and its expression. Room for all of it comes first, so that nothing is half done.
    fn new_class(&mut self, text: String) -> Result<(ClassId, ExprId), Memory>
        requires new { Contains self.old.names.classes (string_bytes text) → ⊥ }
        requires room { length self.old.names.classes < most_names }
        ensures number { IfOk result (λ r. r.0.0 ≡ length self.old.names.classes) }
        ensures place { IfOk result (λ r. r.1.0 ≡ length self.old.nodes) }
        ensures ok { OnOk result (self.new ≡ with_class self.old (string_bytes text)) }
        ensures err { OnErr result (self.new ≡ self.old) }
    {
        if self.expressions.len() >= MOST_EXPRESSIONS {
            return Err(Memory);
        }
        self.expressions.reserve()?;
        self.class_expressions.reserve(1)?;
        self.classes.reserve()?;
        let class = ClassId(self.classes.push(text));
        let expr = ExprId(self.expressions.push(Expr::Class(class)));
        self.class_expressions.push_reserved(expr);
        Ok((class, expr))
    }

    // The number of the expression, which is added where it is new and has one.
    pub(crate) fn expression(&mut self, expr: Expr) -> Result<ExprId, Memory>
        requires { IsNodeOf self.old (length self.old.nodes) (node_of expr) }
        ensures ok { IfOk result (λ e. Numbers self.old.nodes (node_of expr) self.new.nodes e.0) }
        ensures others { self.new ≡ record self.old { nodes = self.new.nodes } }
        ensures err { OnErr result (self.new ≡ self.old) }
    {
        if self.expressions.len() >= MOST_EXPRESSIONS {
            return Err(Memory);
        }
        let (number, _) = self.expressions.insert(expr)?;
        Ok(ExprId(number))
    }

    // Adds the axiom at the end, where it has a number.
    pub(crate) fn state(&mut self, axiom: Axiom) -> Result<(), Memory>
        requires { IsAxiomOf self.old (axiom_of «axiom») }
        ensures ok { OnOk result (self.new ≡ with_axiom self.old (axiom_of «axiom»)) }
        ensures err { OnErr result (self.new ≡ self.old) }
    {
        if self.axioms.len() >= MOST_AXIOMS {
            return Err(Memory);
        }
        self.axioms.push(axiom)?;
        Ok(())
    }
}
