//! Questions about what follows from the axioms of a document.
ghost use Rattle.program.specs.Questions.{related_word, side_word};
ghost use Rattle.std.specs.Prelude.{◌≡◌, IfNone, IfSome};

/// Which names are asked for of a class.
#[derive(Clone, Copy, PartialEq, Eq)]
pub enum Related {
    /// The named classes above it.
    Superclasses,
    /// The named classes below it.
    Subclasses,
    /// The named classes that are the same.
    Equivalents,
    /// Its individuals.
    Instances,
}

/// On which side of a class others lie.
#[derive(Clone, Copy, PartialEq, Eq)]
pub enum Side {
    Above,
    Below,
}

/// Of what it is asked whether it is in a class, by its IRI.
#[derive(Clone, Copy, PartialEq, Eq)]
pub enum Asked<'n> {
    /// A class: whether it lies below another.
    Class(&'n str),
    /// An individual: whether it belongs to a class.
    Individual(&'n str),
}

/// How an explanation is shown.
#[derive(Clone, Copy, PartialEq, Eq)]
pub struct Shown {
    /// As a graph, in the DOT language of Graphviz; else as lines that people read, the answer first.
    pub graph: bool,
    /// Of a refutation those elements alone that pairs lead to from the one that refutes, and how many others there are; else all.
    pub reached: bool,
    /// Behind the lines of a derivation the axioms that they cite.
    pub axioms: bool,
}

/// How names are spelled in what is printed.
#[derive(Clone, Copy, PartialEq, Eq)]
pub enum Spelling {
    /// As full IRIs, in angle brackets.
    Full,
    /// By the prefixes of the document, where reading them back gives the name; else in full.
    Short,
}

/// What is asked. Names are IRIs without brackets.
#[derive(Clone, Copy, PartialEq, Eq)]
pub enum Question<'n> {
    /// Those names of the class.
    Names(Related, &'n str),
    /// The named classes directly on that side of the class, in groups of those that are the same.
    Groups(Side, &'n str),
    /// Whether what is asked of is in the class, and why, shown in that way.
    Why(Asked<'n>, &'n str, Shown),
    /// The named classes that have no instance in any interpretation, but for owl:Nothing.
    Unsatisfiable,
    /// The named classes that the individual belongs to.
    Types(&'n str),
    /// Those of these that no other one lies strictly below, in groups of those that are the same.
    DirectTypes(&'n str),
    /// Which conditions that axioms state for the class what is asked of has, and which it lacks.
    Lacks(Asked<'n>, &'n str),
}

impl Related {
    /// What the word of a command asks for.
    pub fn of_word(word: &str) -> Option<Related>
        ensures some { IfSome result (λ related. related_word related ≡ word.now) }
        ensures none { IfNone result ((related : Related) → related_word related ≡ word.now → ⊥) }
    {
        if word == "supers" {
            Some(Related::Superclasses)
        } else if word == "subs" {
            Some(Related::Subclasses)
        } else if word == "equivalents" {
            Some(Related::Equivalents)
        } else if word == "instances" {
            Some(Related::Instances)
        } else {
            None
        }
    }
}

impl Side {
    /// The side that the word of a command asks for.
    pub fn of_word(word: &str) -> Option<Side>
        ensures some { IfSome result (λ side. side_word side ≡ word.now) }
        ensures none { IfNone result ((side : Side) → side_word side ≡ word.now → ⊥) }
    {
        if word == "parents" {
            Some(Side::Above)
        } else if word == "children" {
            Some(Side::Below)
        } else {
            None
        }
    }
}
