//! Saturations of ontologies that grow.
ghost use Rattle.engine.specs.Saturations.{Continues, IsSound, KeepsFacts};
ghost use Rattle.std.specs.Prelude.{◌≡◌, OnErr, OnOk};

use crate::saturation::Saturation;
use axioms::{Lengths, Memory, Ontology};
use normalise::roots_from;

impl Saturation {
    /// Adds what the ontology has more than an old one that had so much, and whose saturation it is: the forms and lists of its new axioms,
    /// the forms of what occurs in them and did not before, and its new classes and individuals as contexts. Nothing is run. Each fact stays
    /// at its place, and those that a new form or a new list of disjoint classes asks for are pending again; where no form, no list and no
    /// context is new, all facts are served if they were.
    ///
    /// # Errors
    ///
    /// `Memory` where memory was refused, or there would be 2^32 forms or facts or 2^32 - 1 fresh names of a kind. Then nothing changes.
    pub fn extend(&mut self, old: Lengths, new: &Ontology) -> Result<(), Memory>
        requires grown { Continues self.old old new.now }
        ensures sound { OnOk result (IsSound new.now self.new) }
        ensures kept { OnOk result (KeepsFacts self.old self.new) }
        ensures asked { self.new.normal.asked ≡ self.old.normal.asked }
        ensures err { OnErr result (self.new ≡ self.old) }
    {
        self.state.well_formed();
        let normal = self.normal.grown(new, old.axioms)?.share();
        let roots = roots_from(self.alloc, new, old.classes, old.individuals)?;
        let from = self.normal.forms().len();
        self.state
            .extend(normal.forms(), from, normal.apart(), &roots)?;
        self.normal = normal;
        Ok(())
    }
}
