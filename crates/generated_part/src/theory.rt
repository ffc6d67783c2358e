//! What generated parts keep.
ghost use Rattle.generated_part.specs.Theorems.{GeneratedHoldsSame, GeneratedIsModel, GeneratedSatisfies};

/// Class expressions keep their extensions in a generated part, and axioms that hold still hold there.
pub fn generated_parts()
    ensures hold { GeneratedHoldsSame }
    ensures satisfy { GeneratedSatisfies }
    ensures model { GeneratedIsModel }
{}
