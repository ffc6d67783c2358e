//! What is left of a saturation that has run to its end.
ghost use Rattle.engine.specs.Saturations.{IsSaturated};
ghost use Rattle.std.specs.Prelude.{◌≡◌};

use crate::closed::Closed;
use axioms::Ontology;
use normalise::Normal;
use saturate::Finished as FinishedState;
use std::alloc::Global;
use std::marker::Model;

/// The normal forms of an ontology, and all facts that they lead to with what gave them, without the tables that find facts.
#[derive(Drop)]
pub struct Finished {
    pub(crate) alloc: Global,
    pub(crate) normal: Normal,
    pub(crate) state: FinishedState,
}

impl Model for Finished {
    ghost use Rattle.engine.specs.Saturations.{Saturated};

    ghost Value = { Saturated };

    ghost view = { λ f. record { normal = f.normal; state = f.state } };
}

impl Finished {
    /// All that the ontology leads to, whose saturation it is.
    pub fn closed<'a>(&'a self, ontology: &'a Ontology) -> Closed<'a>
        requires { IsSaturated ontology.now self.now }
        ensures { result ≡ record { ontology = ontology.now; saturation = self.now } }
    {
        Closed {
            alloc: self.alloc,
            ontology,
            normal: &self.normal,
            ground: self.state.ground(),
            facts: self.state.facts(),
            births: self.state.births(),
        }
    }
}
