//! What is proved of forms and roots.
ghost use Rattle.normalise.specs.Problem.{NormalFormsMakeTheProblem};

/// The normal forms of an ontology, with its roots, are exactly what the closure speaks of.
pub fn normal_forms_make_the_problem()
    ensures { NormalFormsMakeTheProblem }
{}
