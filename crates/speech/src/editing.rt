//! What a conversation leaves in a session.
ghost use Rattle.speech.specs.Editing.{ConversationsAreCalls, ConversationsAreExchanges, ConversationsAreOneDocument};

/// Whatever is asked in a conversation with a session, and whatever is replied: what was read spells exchanges, one behind the other, and
/// what was written is their replies; these are calls of the session, one after the other. So the session has the ontology that the
/// document states with the texts of which the replies tell that they are added, in their order, and all laws of calls hold of it
/// (`session::any_edits`).
pub fn conversations_are_edits()
    ensures exchanges { ConversationsAreExchanges }
    ensures calls { ConversationsAreCalls }
    ensures document { ConversationsAreOneDocument }
{}
