//! What is left of a state that has run to its end.
ghost use Rattle.std.specs.Prelude.{◌≡◌};
ghost use Rattle.saturate.specs.FinishedStates.{IsEnded};

use crate::ground::Ground;
use facts::StoredFact;
use inference::BirthList;
use std::marker::Model;

/// The facts of a state that has run to its end, with what gave them. What only a run needs, to find facts and to know whose turn it
/// is, is gone.
#[derive(Drop)]
pub struct Finished {
    pub(crate) ground: Ground,
    pub(crate) facts: Vec<StoredFact>,
    pub(crate) births: BirthList,
}

impl Model for Finished {
    ghost use Rattle.saturate.specs.State.{Ended};
    ghost use Rattle.saturate.specs.FinishedStates.{IsEnded};

    ghost Value = { Ended };

    ghost view = { λ f. record { problem = f.ground; facts = f.facts.items; births = f.births.reasons } };

    ghost invariant = { λ f. IsEnded (record { problem = f.ground; facts = f.facts.items; births = f.births.reasons }) };
}

impl Finished {
    /// What the facts were drawn from.
    pub fn ground(&self) -> &Ground
        ensures { result.now ≡ self.now.problem }
    {
        &self.ground
    }

    /// The facts, in order of birth.
    pub fn facts(&self) -> &[StoredFact]
        ensures { result.now ≡ self.now.facts }
    {
        &self.facts
    }

    /// What gave the facts, in their order.
    pub fn births(&self) -> &BirthList
        ensures { result.now.reasons ≡ self.now.births }
    {
        &self.births
    }

    /// The facts are the closure, each there once and born of older ones. 32 bits count them.
    pub fn well_formed(&self)
        ensures { IsEnded self.now }
    {
        let _ = &self.facts;
    }
}
