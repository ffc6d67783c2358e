//! What any calls of a session leave.
ghost use Rattle.session.specs.Edits.{AcceptedAlikeEndAlike, EditsAreOneDocument, FinishedAlikeSayAlike, FinishedAlikeWriteAlike, ListedIsThatOfOneDocument, TextsAreThoseOfOneDocument};

/// Whatever calls come after a session was opened, in whatever order, refused ones and calls tried again among them: it has the
/// ontology that the document and the accepted texts state, in their order. Two sessions over one document that accepted the same texts
/// have one ontology, whatever else was called; at the end of the work both say exactly the facts of its closure, and write the same
/// taxonomy, the same instances and the same counts. These, and the interpretation that the closure lists, are those of any document
/// that states the ontology.
pub fn any_edits()
    ensures ontology { EditsAreOneDocument }
    ensures alike { AcceptedAlikeEndAlike }
    ensures facts { FinishedAlikeSayAlike }
    ensures written { FinishedAlikeWriteAlike }
    ensures texts { TextsAreThoseOfOneDocument }
    ensures listed { ListedIsThatOfOneDocument }
{}
