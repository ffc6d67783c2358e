//! A builder, which numbers names and expressions as they come.
ghost use Rattle.std.specs.Prelude.{◌≡◌, ◌↔◌, length, Err, IfOk, OnOk, OnErr};
ghost use Rattle.axioms.specs.declared.fault.BuildFault.TheVariants as faults;
ghost use Rattle.axioms.specs.Growth.{empty_ontology, names_of, Numbers, IsFull, Declares, with_axiom};
ghost use Rattle.axioms.specs.View.{axiom_of, node_of};
ghost use Rattle.axioms.specs.WellFormedness.{IsAxiomOf, IsNodeOf, IsOntology};

use crate::fault::BuildFault;
use crate::ids::ExprId;
use crate::ontology::Ontology;
use crate::terms::{Axiom, Expr, Kind, Name};
use device::Memory;
use keyed_hash::KeyedState;
use std::alloc::Global;
use std::hash::RandomState;
use std::marker::Model;

/// An ontology that grows. Names, expressions and axioms have their numbers by the order in which they come.
#[derive(Drop)]
pub struct Builder {
    ontology: Ontology,
}

impl Model for Builder {
    ghost use Rattle.axioms.specs.Ontology as numbered;

    ghost Value = { numbered.Ontology };

    ghost view = { λ b. b.ontology };
}

impl Builder {
    /// A builder of the ontology that has `owl:Thing` and `owl:Nothing` and nothing else. Its tables hash by secret numbers that
    /// `state` gives.
    pub fn new(alloc: Global, state: RandomState) -> Result<Builder, Memory>
        ensures { IfOk result (λ b. b ≡ empty_ontology) }
    {
        Ok(Builder {
            ontology: Ontology::empty(alloc, KeyedState::new(&state))?,
        })
    }

    /// A builder that goes on from the ontology.
    pub fn from(ontology: Ontology) -> Builder
        ensures { result ≡ ontology }
    {
        Builder { ontology }
    }

    /// The ontology so far.
    pub fn ontology(&self) -> &Ontology
        ensures same { result.now ≡ self.now }
        // Every ontology is well formed.
        ensures valid { IsOntology self.now }
    {
        let ontology = &self.ontology;
        ontology.well_formed();
        ontology
    }

    /// The ontology so far is well formed, as every ontology. This runs nothing.
    pub fn well_formed(&self)
        ensures { IsOntology self.now }
    {
        self.ontology.well_formed();
    }

    /// Gives the number that the IRI has as a name of that kind, or the next one. A new class is a new expression too.
    ///
    /// # Errors
    ///
    /// `TooManyNames` where the name is new and the kind has [`MOST_NAMES`](crate::MOST_NAMES) names, and `Memory` where memory
    /// was refused, or a new class would be an expression past [`MOST_EXPRESSIONS`](crate::MOST_EXPRESSIONS). Either changes
    /// nothing.
    pub fn declare(&mut self, kind: Kind, iri: &str) -> Result<Name, BuildFault>
        ensures ok { IfOk result (Declares self.old kind iri.now self.new) }
        ensures err { OnErr result (self.new ≡ self.old) }
        ensures full { (result ≡ Err faults.TooManyNames) ↔ IsFull (names_of self.old.names kind) iri.now }
    {
        match kind {
            Kind::Class => {
                let (class, expr) = self.ontology.class(iri)?;
                Ok(Name::Class(class, expr))
            }
            Kind::Property => Ok(Name::Property(self.ontology.property(iri)?)),
            Kind::Individual => Ok(Name::Individual(self.ontology.individual(iri)?)),
        }
    }

    /// Gives the number that the expression has, or the next one. Its parts are expressions and names that are there, and an
    /// intersection has two or more operands, no two of them equal.
    ///
    /// # Errors
    ///
    /// `Memory` where memory was refused, or the ontology has [`MOST_EXPRESSIONS`](crate::MOST_EXPRESSIONS) expressions. Then
    /// nothing changes.
    pub fn add_expr(&mut self, expr: Expr) -> Result<ExprId, Memory>
        requires { IsNodeOf self.old (length self.old.nodes) (node_of expr) }
        ensures ok { IfOk result (λ e. Numbers self.old.nodes (node_of expr) self.new.nodes e.0) }
        ensures others { self.new ≡ record self.old { nodes = self.new.nodes } }
        ensures err { OnErr result (self.new ≡ self.old) }
    {
        self.ontology.expression(expr)
    }

    /// Adds the axiom behind the others. What it names is there, and the lists of its operands have two or more members, no two
    /// of them equal; a property chain has one or more.
    ///
    /// # Errors
    ///
    /// `Memory` where memory was refused, or the ontology has [`MOST_AXIOMS`](crate::MOST_AXIOMS) axioms. Then nothing changes.
    pub fn add_axiom(&mut self, axiom: Axiom) -> Result<(), Memory>
        requires { IsAxiomOf self.old (axiom_of «axiom») }
        ensures ok { OnOk result (self.new ≡ with_axiom self.old (axiom_of «axiom»)) }
        ensures err { OnErr result (self.new ≡ self.old) }
    {
        self.ontology.state(axiom)
    }

    /// The ontology, which is whole at any time.
    pub fn finish(self) -> Ontology
        ensures { result ≡ self }
    {
        let Builder { ontology } = self;
        ontology
    }
}
