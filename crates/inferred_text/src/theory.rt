//! What inferred statements say, and what their text reads as.
ghost use Rattle.inferred_text.specs.Theorems.{FoundAxiomsSayTheSame, InferredReadsBack, InferredSaysWhatFollows};

/// Laws: where what was found is what follows from the axioms of an ontology, the axioms that were found have each model of the first,
/// and of named classes and individuals the same follows from both, a contradiction included. The text of what was found of an ontology
/// whose names can be said reads, in each version, as an ontology with its names and these axioms. So it is of each ontology that is read.
pub fn what_is_inferred()
    ensures same { FoundAxiomsSayTheSame }
    ensures reads { InferredReadsBack }
    ensures says { InferredSaysWhatFollows }
{}
