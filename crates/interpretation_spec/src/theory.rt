//! What extensions are determined by.
ghost use Rattle.interpretation_spec.specs.Agreement.{AgreeingHoldSame, AgreeingSatisfySame};
ghost use Rattle.interpretation_spec.specs.Folding.{FoldingHoldsSame, FoldingSatisfiesSame, FoldingFailsFirstAtSame};
ghost use Rattle.interpretation_spec.specs.Membership.{MembershipIsDecided};

/// Extensions are decided, and depend on what is said of the names of the ontology alone.
pub fn extensions_and_names()
    ensures decided { MembershipIsDecided }
    ensures hold { AgreeingHoldSame }
    ensures satisfy { AgreeingSatisfySame }
{}

/// An interpretation that is folded onto another has the same elements in each expression, and satisfies the same axioms.
pub fn folded_interpretations()
    ensures hold { FoldingHoldsSame }
    ensures satisfy { FoldingSatisfiesSame }
    ensures first { FoldingFailsFirstAtSame }
{}
