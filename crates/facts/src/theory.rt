//! What is proved of the closure.
ghost use Rattle.facts.specs.Theorems.{ClosureIsClosed, ClosureIsLeast, TwoFactsSuffice};

/// The closure has what its facts give, and is the least such set; a fact is given by two facts at most.
pub fn closure()
    ensures closed { ClosureIsClosed }
    ensures least { ClosureIsLeast }
    ensures two { TwoFactsSuffice }
{}
