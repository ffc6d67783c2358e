//! An ontology: names, class expressions and logical axioms by number.
ghost use Rattle.std.specs.Prelude.{◌<◌, ◌≡◌, ◌↔◌, Contains, IfSome, IsSome, MatchOption, Some, length, map, option_map, slice_get, string_bytes, ℕ};
ghost use Rattle.std.specs.List.{list_any};
ghost use Rattle.std.specs.Str.{bytes_eq};
ghost use Rattle.axioms.specs.Growth.{IsBounded, names_of};
ghost use Rattle.axioms.specs.Ontology.{Class, IsClassAt};
ghost use Rattle.axioms.specs.View.{axiom_of, node_of, at_number};
ghost use Rattle.axioms.specs.WellFormedness.{IsOntology};

use crate::ids::{ClassId, ExprId};
use crate::terms::{Axiom, Expr, Kind};
use keyed_hash::NumberedSet;
use std::alloc::Global;
use std::marker::Model;

/// Names, class expressions and logical axioms, each numbered by its first place.
pub struct Ontology {
    pub(crate) alloc: Global,
    pub(crate) classes: NumberedSet<String>,
    pub(crate) properties: NumberedSet<String>,
    pub(crate) individuals: NumberedSet<String>,
    pub(crate) expressions: NumberedSet<Expr>,
    // the expression of each class, by the number of the class
    pub(crate) class_expressions: Vec<ExprId>,
    pub(crate) axioms: Vec<Axiom>,
}

// A value is let go by one call, where each way out would else let each field go.
impl Drop for Ontology {
    fn drop(self) {
        let Ontology {
            alloc: _,
            classes: _,
            properties: _,
            individuals: _,
            expressions: _,
            class_expressions: _,
            axioms: _,
        } = self;
    }
}

impl Model for Ontology {
    ghost use Rattle.axioms.specs.Ontology as numbered;
    ghost use Rattle.axioms.specs.Fields.{kept_ontology, IsKept};

    ghost Value = { numbered.Ontology };

    ghost view = { kept_ontology };

    ghost invariant = { IsKept };
}

fn is_named(names: &NumberedSet<String>, iri: &str) -> bool
    ensures { result ≡ list_any (bytes_eq iri.now) (map string_bytes names.now.keys) }
{
    names.contains(iri)
}

// The number of the IRI among the names, if it is one of them.
fn number_among(names: &NumberedSet<String>, iri: &str) -> Option<u32>
    ensures { MatchOption result (Contains (map string_bytes names.now.keys) iri.now → ⊥)
        (λ n. slice_get (map string_bytes names.now.keys) n ≡ Some iri.now) }
{
    names.find(iri)
}

impl Ontology {
    /// The IRIs of the named classes, by number.
    pub fn classes(&self) -> &[String]
        ensures names { map string_bytes result.now ≡ self.now.names.classes }
        ensures count { length result.now ≡ length self.now.names.classes }
    {
        self.classes.as_slice()
    }

    /// The IRIs of the object properties, by number.
    pub fn properties(&self) -> &[String]
        ensures names { map string_bytes result.now ≡ self.now.names.properties }
        ensures count { length result.now ≡ length self.now.names.properties }
    {
        self.properties.as_slice()
    }

    /// The IRIs of the individuals, by number.
    pub fn individuals(&self) -> &[String]
        ensures names { map string_bytes result.now ≡ self.now.names.individuals }
        ensures count { length result.now ≡ length self.now.names.individuals }
    {
        self.individuals.as_slice()
    }

    /// The expression of that number.
    pub fn expr(&self, id: ExprId) -> Option<&Expr>
        ensures node { option_map (λ e. node_of e.now) result ≡ slice_get self.now.nodes id.0 }
        // Every ontology is well formed.
        ensures valid { IsOntology self.now }
    {
        self.expressions.get(id.index())
    }

    /// Whether the IRI is a name of that kind.
    pub fn has_name(&self, kind: Kind, iri: &str) -> bool
        ensures { result ≡ list_any (bytes_eq iri.now) (names_of self.now.names kind) }
    {
        match kind {
            Kind::Class => is_named(&self.classes, iri),
            Kind::Property => is_named(&self.properties, iri),
            Kind::Individual => is_named(&self.individuals, iri),
        }
    }

    /// The number of the IRI among the names of that kind, if it is one of them.
    pub fn number_of(&self, kind: Kind, iri: &str) -> Option<u32>
        ensures { MatchOption result (Contains (names_of self.now.names kind) iri.now → ⊥)
            (λ n. slice_get (names_of self.now.names kind) n ≡ Some iri.now) }
    {
        match kind {
            Kind::Class => number_among(&self.classes, iri),
            Kind::Property => number_among(&self.properties, iri),
            Kind::Individual => number_among(&self.individuals, iri),
        }
    }

    /// How many expressions there are.
    pub fn expression_count(&self) -> usize
        ensures { result ≡ length self.now.nodes }
    {
        self.expressions.len()
    }

    /// The class that the expression of that number is.
    pub fn class_of(&self, id: ExprId) -> Option<ClassId>
        ensures { MatchOption result ((c : ℕ) → IsClassAt self.now c id.0 → ⊥)
            (λ class. IsClassAt self.now class.0 id.0 × (class.0 < length self.now.names.classes)) }
    {
        match self.expr(id) {
            Some(Expr::Class(class)) => Some(*class),
            _ => None,
        }
    }

    /// Every ontology is well formed: it begins with the classes of the standard, nothing stands in it twice, and what its numbers
    /// name is there. This runs nothing.
    pub fn well_formed(&self)
        ensures { IsOntology self.now }
    {
        let _ = &self.alloc;
    }

    /// No ontology holds more than numbers below 2^32 count. This runs nothing.
    pub fn bounded(&self)
        ensures { IsBounded self.now }
    {
        let _ = &self.alloc;
    }

    /// The axiom of that number, counted from 1 in document order.
    pub fn axiom(&self, number: usize) -> Option<&Axiom>
        ensures { option_map (λ a. axiom_of a.now) result ≡ at_number self.now.axioms number }
    {
        if number == 0 || self.axioms.len() < number {
            return None;
        }
        Some(&self.axioms[number - 1])
    }

    /// The logical axioms in document order; the first has the number 1.
    pub fn axioms(&self) -> &[Axiom]
        ensures { map axiom_of result.now ≡ self.now.axioms }
    {
        &self.axioms
    }

    /// The number of the expression that is the class.
    pub fn class_expr(&self, class: ClassId) -> Option<ExprId>
        ensures found { IfSome result (λ e. slice_get self.now.nodes e.0 ≡ Some (Class class.0)) }
        ensures only { IsSome result ↔ (class.0 < length self.now.names.classes) }
    {
        self.class_expressions.get(class.index()).copied()
    }
}
