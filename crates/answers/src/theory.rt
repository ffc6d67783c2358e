//! What the facts of a saturation say.
ghost use Rattle.answers.specs.Conditions.{ConditionsGiveTheClass};
ghost use Rattle.answers.specs.Entailment.{ClassesFollow, ContradictionIsExact, LeftSidesFollowOfClasses, LeftSidesFollowOfIndividuals, TypesFollow};

/// Exactly what follows from the axioms, in every finite interpretation in which they hold, is what a saturation has of named
/// classes, of individuals and of the expressions that are asked about, also in each expression that lies below something by an axiom,
/// and in the parts of it.
pub fn what_follows()
    ensures classes { ClassesFollow }
    ensures types { TypesFollow }
    ensures left_of_classes { LeftSidesFollowOfClasses }
    ensures left_of_individuals { LeftSidesFollowOfIndividuals }
    ensures contradiction { ContradictionIsExact }
{}

/// What has each part of a condition that an axiom states for a class is in the class.
pub fn what_conditions_give()
    ensures { ConditionsGiveTheClass }
{}
