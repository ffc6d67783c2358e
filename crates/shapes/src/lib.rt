//! Which trees are axioms and expressions of the profile, and every fault of a document's trees in the order of the text.
#![tactic(auto)]

ghost use Rattle.shapes.specs.Examples.{EachVersionHasItsOwn, EveryFaultIsTold, OrderIsTold, RepeatedOperandIsTold};
ghost use Rattle.shapes.specs.Laws.{EachTreeIsItself, KeywordsAreApart, TheFirstRefusesAll, TheSecondRefusesAllOthers};
ghost use Rattle.shapes.specs.Places.{FaultsComeOneByOne};

mod context;
mod equality;
mod expected;
mod fault;
mod form;
mod keywords;
mod names;
mod operand;
mod place;
mod statement;
mod walk;

pub use expected::{Expected, Operands};
pub use fault::Fault;
pub use form::Form;
pub use keywords::{Shape, shape_of};
pub use place::Place;
pub use program::Version;
pub use statement::Statement;
pub use walk::{expression_faults, part_faults};

/// The faults of small documents.
pub fn worked_documents()
    ensures every_fault { EveryFaultIsTold }
    ensures repeated_operand { RepeatedOperandIsTold }
    ensures order { OrderIsTold }
    ensures versions { EachVersionHasItsOwn }
{}

/// Laws: no keyword is both refused and known, the first version refuses each that is listed, the second all of these but
/// three, and each tree equals itself.
pub fn keywords_and_trees()
    ensures keywords { KeywordsAreApart }
    ensures first { TheFirstRefusesAll }
    ensures second { TheSecondRefusesAllOthers }
    ensures trees { EachTreeIsItself }
{}

/// A law: the faults of an ontology's trees are those of each tree at its place, one after another.
pub fn faults_come_one_by_one()
    ensures { FaultsComeOneByOne }
{}
