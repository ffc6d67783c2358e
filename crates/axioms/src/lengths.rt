//! How much an ontology has, and how it is taken back to that.
ghost use Rattle.std.specs.Prelude.{◌≡◌};
ghost use Rattle.axioms.specs.Fronts.{front_of, lengths_of};
ghost use Rattle.axioms.specs.WellFormedness.{IsOntology};

use crate::ontology::Ontology;

/// How many names of each kind, class expressions and axioms an ontology has.
#[derive(Clone, Copy, Debug)]
pub struct Lengths {
    /// Classes.
    pub classes: usize,
    /// Object properties.
    pub properties: usize,
    /// Individuals.
    pub individuals: usize,
    /// Class expressions.
    pub expressions: usize,
    /// Logical axioms.
    pub axioms: usize,
}

impl Ontology {
    /// How much it has.
    pub fn lengths(&self) -> Lengths
        ensures { result ≡ lengths_of self.now }
    {
        Lengths {
            classes: self.classes.len(),
            properties: self.properties.len(),
            individuals: self.individuals.len(),
            expressions: self.expressions.len(),
            axioms: self.axioms.len(),
        }
    }

    /// Keeps as much as that, which is an ontology, as one that it has grown from. The time goes by what is let go.
    pub fn truncate(&mut self, lengths: Lengths)
        requires { IsOntology (front_of lengths self.old) }
        ensures { self.new ≡ front_of lengths self.old }
    {
        self.classes.truncate(lengths.classes);
        self.properties.truncate(lengths.properties);
        self.individuals.truncate(lengths.individuals);
        self.expressions.truncate(lengths.expressions);
        self.class_expressions.truncate(lengths.classes);
        self.axioms.truncate(lengths.axioms);
    }
}
