//! Laws of the closure: what it lists is a model, each of its facts has a derivation, and it has exactly what follows.
#![tactic(auto)]

ghost use Rattle.exactness.specs.Acceptance.{ShownIsAcceptable};
ghost use Rattle.exactness.specs.DerivationTheorems.{DerivableHasDerivation, FactsAreDerivable, TrimmedIsDerivation, TrimmedIsTrimmed};
ghost use Rattle.exactness.specs.ListedTheorems.{ListedIsModel, ListedAgrees, GroupsAreElements, ClosureIsComplete, TypesAreComplete, ListedExists, ListedIsDetermined};
ghost use Rattle.exactness.specs.Theorems.{FactsFollow, NothingIsBelowAll, ClosureIsExact, TypesAreExact, ContradictionIsSound, ContradictionIsComplete, QuestionsChangeNothing, ListedMeetsClaims};

/// What holds in the interpretation that the closure lists.
pub fn listed_interpretation()
    ensures model { ListedIsModel }
    ensures agrees { ListedAgrees }
    ensures groups { GroupsAreElements }
    ensures complete { ClosureIsComplete }
    ensures types { TypesAreComplete }
    ensures exists { ListedExists }
    ensures determined { ListedIsDetermined }
{}

/// Facts have derivations, and what is left of a derivation for a goal is one.
pub fn derivations()
    ensures derivable { DerivableHasDerivation }
    ensures facts { FactsAreDerivable }
    ensures trimmed { TrimmedIsDerivation }
    ensures computed { TrimmedIsTrimmed }
{}

/// What the closure says is what follows from the axioms.
pub fn exact_closure()
    ensures follow { FactsFollow }
    ensures nothing { NothingIsBelowAll }
    ensures classes { ClosureIsExact }
    ensures types { TypesAreExact }
    ensures sound { ContradictionIsSound }
    ensures complete { ContradictionIsComplete }
    ensures questions { QuestionsChangeNothing }
    ensures claims { ListedMeetsClaims }
{}

/// Whatever found them: a derivation with the closure's facts, the interpretation that the closure lists and the texts of its
/// relations are acceptable to the checker, and so is a derivation of a contradiction.
pub fn what_is_shown_is_acceptable()
    ensures { ShownIsAcceptable }
{}
