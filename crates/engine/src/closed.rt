//! All that an ontology leads to, as who answers reads it.
ghost use Rattle.axioms.specs.WellFormedness.{IsOntology};
ghost use Rattle.engine.specs.Saturations.{IsSaturated};
ghost use Rattle.facts.specs.Births.{reason};
ghost use Rattle.inference.specs.PropertyClosures.{IsClosureOf};
ghost use Rattle.inference.specs.Sameness.{AreGroupsOf};
ghost use Rattle.std.specs.Prelude.{◌≡◌, ◌≤◌, IfNone, IfSome, Some, length, slice_get};

use axioms::Ontology;
use facts::{Birth, FactId, StoredFact};
use indexes::{Groups, IndexedProblem};
use inference::BirthList;
use normalise::Normal;
use property_closure::PropertyClosure;
use saturate::Ground;
use std::alloc::Global;
use std::marker::Model;

/// An ontology, its normal forms, and the facts of its closure with what gave them.
#[derive(Drop)]
pub struct Closed<'a> {
    pub(crate) alloc: Global,
    pub(crate) ontology: &'a Ontology,
    pub(crate) normal: &'a Normal,
    pub(crate) ground: &'a Ground,
    pub(crate) facts: &'a [StoredFact],
    pub(crate) births: &'a BirthList,
}

impl<'a> Model for Closed<'a> {
    ghost use Rattle.engine.specs.Closed as model;
    ghost use Rattle.engine.specs.Saturations.{IsSaturated};

    ghost Value = { model.Closed };

    ghost view = { λ c. record {
      ontology = c.ontology.now;
      saturation = record { normal = c.normal.now; state = record { problem = c.ground.now; facts = c.facts.now; births = c.births.now.reasons } };
    } };

    // The facts are all that the ontology, and what is asked about, lead to.
    ghost invariant = { λ c. IsSaturated c.ontology.now (record { normal = c.normal.now; state = record { problem = c.ground.now; facts = c.facts.now; births = c.births.now.reasons } }) };
}

impl<'a> Closed<'a> {
    /// What gives memory to what is made of it. There is one value of a `Global`, so that nothing is to be said of it.
    pub fn allocator(&self) -> Global {
        self.alloc
    }

    /// The ontology.
    pub fn ontology(&self) -> &'a Ontology
        ensures { result.now ≡ self.now.ontology }
    {
        self.ontology
    }

    /// The normal forms. What fresh names in facts stand for is told there.
    pub fn normal(&self) -> &'a Normal
        ensures { result.now ≡ self.now.saturation.normal }
    {
        self.normal
    }

    /// The facts, in order of birth.
    pub fn facts(&self) -> &'a [StoredFact]
        ensures { result.now ≡ self.now.saturation.state.facts }
    {
        self.facts
    }

    /// What gave the fact of that number, if there is one: a condition, older facts and a form.
    pub fn born(&self, fact: FactId) -> Option<&'a Birth>
        ensures reason { IfSome result (λ b. slice_get self.now.saturation.state.births fact.0 ≡ Some (reason b.now)) }
        ensures none { IfNone result (length self.now.saturation.state.births ≤ fact.0) }
    {
        let FactId(number) = fact;
        self.births.get(number as usize)
    }

    /// The forms, found by their classes, properties and individuals.
    pub fn problem(&self) -> &'a IndexedProblem
        ensures { result.now ≡ self.now.saturation.state.problem }
    {
        self.ground.problem()
    }

    /// What the forms say of properties.
    pub fn closure(&self) -> &'a PropertyClosure
        ensures { IsClosureOf self.now.saturation.state.problem.forms result.now }
    {
        self.ground.closure()
    }

    /// Which individuals the forms make one.
    pub fn groups(&self) -> &'a Groups
        ensures { AreGroupsOf self.now.saturation.state.problem.forms result.now }
    {
        self.ground.groups()
    }

    /// The facts are all that the ontology, and what is asked about, lead to.
    pub fn well_formed(&self)
        ensures ontology { IsOntology self.now.ontology }
        ensures saturated { IsSaturated self.now.ontology self.now.saturation }
    {
        self.ontology.well_formed();
    }
}
