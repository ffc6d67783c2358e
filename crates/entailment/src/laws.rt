//! What is proved of tests.
ghost use Rattle.entailment.specs.Tests.{TestsDecide};

/// In the ontology of its test the individual is in the class exactly where the claim holds in every finite interpretation.
pub fn what_tests_decide()
    ensures { TestsDecide }
{}
