//! Axioms that may follow.
ghost use Rattle.axioms.specs.Axiom as tree;
ghost use Rattle.axioms.specs.Fronts.{Extends};
ghost use Rattle.axioms.specs.Ontology as numbered;
ghost use Rattle.axioms.specs.Ontology.{axiom_trees};
ghost use Rattle.engine.specs.Saturations.{IsFinished};
ghost use Rattle.entailment.specs.Entailment.{Entails};
ghost use Rattle.entailment.specs.Testers.{IsWithinLimit};
ghost use Rattle.profile.specs.AddedTexts.{IsAddedText};
ghost use Rattle.session.specs.Additions.{IsRefusedAddition, IsWithin};
ghost use Rattle.session.specs.Entailments.{IsEntailment, IsEntailmentRefusal, IsNewName, IsUntoldOf};
ghost use Rattle.std.specs.Prelude.{◌≡◌, ◌↔◌, ◌++◌, ◌≤◌, IfErr, IfNone, IfOk, IfSome, List, OnOk, Some, length, map, slice_get, string_bytes, true, ℕ};

use crate::entails_fault::EntailsFault;
use crate::session::Session;
use axioms::Ontology;
use entailment::{TestFault, entails};
use profile::{DocumentFault, read_addition};

/// The first of the names behind as many as the others are, if there is one.
fn first_behind<'n>(names: &'n [String], others: &[String]) -> Option<&'n str>
    ensures some { IfSome result (λ name. slice_get (map string_bytes names.now) (length others.now) ≡ Some name.now) }
    ensures none { IfNone result (length names.now ≤ length others.now) }
{
    let name = names.get(others.len())?;
    Some(name.as_str())
}

/// A name that the new ontology, which has grown from the old one, has more, if it has one.
fn new_name<'o>(old: &Ontology, new: &'o Ontology) -> Option<&'o str>
    requires { Extends old.now new.now }
    ensures some { IfSome result (λ name. IsNewName old.now new.now name.now) }
    ensures none { IfNone result (new.now.names ≡ old.now.names) }
{
    new.well_formed();
    if let Some(name) = first_behind(new.classes(), old.classes()) {
        return Some(name);
    }
    if let Some(name) = first_behind(new.properties(), old.properties()) {
        return Some(name);
    }
    first_behind(new.individuals(), old.individuals())
}

impl Session {
    /// A copy of the ontology with what the text states.
    fn stated(&self, text: &str) -> Result<Ontology, DocumentFault>
        ensures within { OnOk result (IsWithin self.now text.now) }
        ensures stated { IfOk result (IsAddedText self.now.version self.now.prefixes text.now self.now.ontology) }
        ensures refused { IfErr result (IsRefusedAddition self.now text.now) }
    {
        if self.bytes_with(text).is_none() {
            return Err(DocumentFault::TooLarge);
        }
        let mut stated = match self.ontology.copy() {
            Ok(copy) => copy,
            Err(_) => return Err(DocumentFault::Memory),
        };
        let (prefixes, version, state) = (&self.prefixes, self.version, self.state);
        match read_addition(self.alloc, &mut stated, prefixes, version, text, state) {
            Ok(()) => Ok(stated),
            Err(fault) => {
                drop(stated);
                Err(fault)
            }
        }
    }

    /// That the ontology lacks the name.
    fn unknown(&self, name: &str) -> EntailsFault
        ensures { (old new : numbered.Ontology) (max_facts : ℕ) → IsNewName old new name.now → IsUntoldOf old new max_facts result }
    {
        match String::from_str(self.alloc, name) {
            Ok(name) => EntailsFault::UnknownName(name),
            Err(_) => EntailsFault::Memory,
        }
    }

    /// Whether each axiom that the ontology, which has grown from the session's, has more follows from the session's.
    fn follows(&self, stated: &Ontology, max_facts: u32) -> Result<bool, EntailsFault>
        requires finished { IsFinished self.now.saturation }
        requires extends { Extends self.now.ontology stated.now }
        ensures known { OnOk result (stated.now.names ≡ self.now.ontology.names) }
        ensures exact { IfOk result (λ b. (others : List tree.Axiom) → axiom_trees stated.now ≡ axiom_trees self.now.ontology ++ others →
            (b ≡ true) ↔ Entails (axiom_trees self.now.ontology) others) }
        ensures few { OnOk result (IsWithinLimit self.now.ontology stated.now max_facts) }
        ensures fault { IfErr result (IsUntoldOf self.now.ontology stated.now max_facts) }
    {
        if let Some(name) = new_name(&self.ontology, stated) {
            return Err(self.unknown(name));
        }
        let (saturation, ontology) = (&self.saturation, &self.ontology);
        match entails(self.alloc, saturation, ontology, stated, max_facts) {
            Ok(follows) => Ok(follows),
            Err(TestFault::Limit) => Err(EntailsFault::Limit),
            Err(TestFault::TooManyNames) => Err(EntailsFault::TooManyNames),
            Err(TestFault::Memory) => Err(EntailsFault::Memory),
        }
    }

    /// Whether each axiom that the text states, which is one of axioms and declarations without an `Ontology( .. )` around them, holds in
    /// every finite interpretation in which the axioms hold. Names are expanded with the prefixes of the document. Declarations and
    /// annotations state no axiom, and a text without one is answered by `true`. The session stays as it is.
    ///
    /// # Errors
    ///
    /// `Unfinished`, before all others, where facts are pending. `Statements` where the text could not be added, as `add` tells it.
    /// `UnknownName` where it has a name that the ontology lacks: of these the first class, or else the first property, or else the
    /// first individual. What the axioms say is tested one thing after the other, up to the first that does not follow, each by a copy
    /// with a few axioms more, about individuals that are not there: `Limit` where the closure of such a copy has more facts than
    /// `max_facts`, and an answer only where that of none has; `TooManyNames` where one would have more than 1,000,000 individuals;
    /// `Memory` where memory was refused, or there would be 2^32 forms or facts or 2^32 - 1 fresh names of a kind.
    pub fn entails(&self, text: &str, max_facts: u32) -> Result<bool, EntailsFault>
        ensures exact { IfOk result (IsEntailment self.now text.now max_facts) }
        ensures refused { IfErr result (IsEntailmentRefusal self.now text.now max_facts) }
    {
        if !self.saturation.is_finished() {
            return Err(EntailsFault::Unfinished);
        }
        let stated = match self.stated(text) {
            Ok(stated) => stated,
            Err(fault) => return Err(EntailsFault::Statements(fault)),
        };
        let follows = self.follows(&stated, max_facts);
        drop(stated);
        follows
    }
}
