//! Where a tree stands in an ontology.
ghost use Rattle.std.specs.Prelude.{◌≡◌};
ghost use Rattle.shapes.specs.declared.place.Place.TheVariants.{Front};

/// A place among the trees of an ontology: names come first, then annotations, then axioms.
#[derive(Clone, Copy, Debug, PartialEq, Eq)]
pub enum Place {
    /// In front of the axioms, where so many more names may stand.
    Front { names_left: usize },
    /// Behind an axiom.
    Axioms,
}

impl Place {
    /// The place of the first tree. At most two names stand in front: of the ontology and of its version.
    pub fn first() -> Place
        ensures { result ≡ Front 2 }
    {
        Place::Front { names_left: 2 }
    }
}
