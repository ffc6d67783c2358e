//! Whether axioms entail others: what is stated is taken apart into claims, and each is tested by axioms about individuals that
//! were not there before.
#![tactic(auto)]

mod claim;
mod fault;
mod following;
mod individuals;
mod laws;
mod tester;
mod testing;

pub use claim::Claim;
pub use fault::TestFault;
pub use following::entails;
pub use laws::what_tests_decide;
pub use tester::saturated_with;
