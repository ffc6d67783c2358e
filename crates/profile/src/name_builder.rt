//! A builder that is asked for names as trees have them, in two pieces of the source.
ghost use Rattle.std.specs.Prelude.{◌≡◌, length, Err, IfOk, OnOk, OnErr};
ghost use Rattle.axioms.specs.Fronts.{Extends};
ghost use Rattle.axioms.specs.declared.fault.BuildFault.TheVariants as faults;
ghost use Rattle.axioms.specs.Growth.{empty_ontology, names_of, Numbers, IsFull, Declares, with_axiom};
ghost use Rattle.axioms.specs.View.{axiom_of, node_of};
ghost use Rattle.axioms.specs.WellFormedness.{IsAxiomOf, IsNodeOf, IsOntology};
ghost use Rattle.fs_parser.specs.View.{iri_of};

use axioms::{Axiom, BuildFault, Builder, Expr, ExprId, Kind, Memory, Name, Ontology};
use fs_parser::Iri;
use std::alloc::Global;
use std::hash::RandomState;
use std::marker::Model;

/// A builder of an ontology, and the one text in which the pieces of each name are joined, so that no name costs a text of its
/// own.
#[derive(Drop)]
pub(crate) struct NameBuilder {
    builder: Builder,
    text: String,
}

impl Model for NameBuilder {
    ghost use Rattle.axioms.specs.Ontology as numbered;

    ghost Value = { numbered.Ontology };

    ghost view = { λ b. b.builder };
}

impl NameBuilder {
    /// A builder of the ontology of no statements. Its tables hash by `state`.
    pub(crate) fn new(alloc: Global, state: RandomState) -> Result<NameBuilder, Memory>
        ensures { IfOk result (λ b. b ≡ empty_ontology) }
    {
        Ok(NameBuilder {
            builder: Builder::new(alloc, state)?,
            text: String::new(alloc),
        })
    }

    /// A builder that goes on from the ontology.
    pub(crate) fn from(alloc: Global, ontology: Ontology) -> NameBuilder
        ensures { result ≡ ontology }
    {
        NameBuilder {
            builder: Builder::from(ontology),
            text: String::new(alloc),
        }
    }

    /// The ontology so far is well formed. This runs nothing.
    #[inline(always)]
    pub(crate) fn well_formed(&self)
        ensures { IsOntology self.now }
    {
        self.builder.well_formed();
    }

    /// Gives the number that the IRI has as a name of that kind, or the next one.
    pub(crate) fn declare(&mut self, kind: Kind, iri: &Iri<'_>) -> Result<Name, BuildFault>
        ensures ok { IfOk result (Declares self.old kind (iri_of iri.now) self.new) }
        ensures room { OnOk result (IsFull (names_of self.old.names kind) (iri_of iri.now) → ⊥) }
        ensures full { result ≡ Err faults.TooManyNames → IsFull (names_of self.old.names kind) (iri_of iri.now) }
        ensures kept { Extends self.old self.new }
    {
        if iri.local.is_empty() {
            return self.builder.declare(kind, iri.base);
        }
        self.text.clear();
        match iri.push_to(&mut self.text) {
            Ok(()) => self.builder.declare(kind, self.text.as_str()),
            Err(_) => Err(BuildFault::Memory),
        }
    }

    /// Gives the number that the expression has, or the next one.
    #[inline(always)]
    pub(crate) fn add_expr(&mut self, expr: Expr) -> Result<ExprId, Memory>
        requires { IsNodeOf self.old (length self.old.nodes) (node_of expr) }
        ensures ok { IfOk result (λ e. Numbers self.old.nodes (node_of expr) self.new.nodes e.0) }
        ensures others { self.new ≡ record self.old { nodes = self.new.nodes } }
        ensures err { OnErr result (self.new ≡ self.old) }
        ensures kept { Extends self.old self.new }
    {
        self.builder.add_expr(expr)
    }

    /// Adds the axiom behind the others.
    #[inline(always)]
    pub(crate) fn add_axiom(&mut self, axiom: Axiom) -> Result<(), Memory>
        requires { IsAxiomOf self.old (axiom_of «axiom») }
        ensures ok { OnOk result (self.new ≡ with_axiom self.old (axiom_of «axiom»)) }
        ensures err { OnErr result (self.new ≡ self.old) }
        ensures kept { Extends self.old self.new }
    {
        self.builder.add_axiom(axiom)
    }

    /// The ontology, which is whole at any time.
    pub(crate) fn finish(self) -> Ontology
        ensures { result ≡ self }
    {
        self.builder.finish()
    }
}
