//! Questions to a session, and their answers.
ghost use Rattle.answers.specs.Explanations.{Explains};
ghost use Rattle.answers.specs.Names.{groups_in};
ghost use Rattle.answers.specs.Questions.{AreDirectTypes, AreRelated, AreTypes, AreUnsatisfiable, HasName, IsAnswerTo, IsFirstUnknown, names_in, subject_name, class_name, individual_name};
ghost use Rattle.program.specs.declared.question.Related.TheVariants.{Instances, Subclasses, Superclasses};
ghost use Rattle.session.specs.Answers.{IsAskRefusal, IsQuestioned};
ghost use Rattle.std.specs.Prelude.{◌↔◌, ◌≡◌, ◌∷◌, [], All, IfErr, IfOk, IsTrue, OnOk, map};

use crate::fault::AskFault;
use crate::session::Session;
use answers::{Answer, Explanation, ask};
use axioms::{Kind, Ontology};
use program::{Asked, Question, Related, Shown};

/// As lines, all of them.
const LINES: Shown = Shown {
    graph: false,
    reached: false,
    axioms: false,
};

fn name_of<'n>(asked: Asked<'n>) -> &'n str
    ensures { result.now ≡ (subject_name asked.entry).1 }
{
    match asked {
        Asked::Class(name) => name,
        Asked::Individual(name) => name,
    }
}

/// Whether the ontology has what is asked of.
fn is_known(ontology: &Ontology, asked: Asked<'_>) -> bool
    ensures { IsTrue result ↔ HasName ontology.now (subject_name asked.entry) }
{
    match asked {
        Asked::Class(name) => ontology.has_name(Kind::Class, name),
        Asked::Individual(name) => ontology.has_name(Kind::Individual, name),
    }
}

/// The first that the ontology lacks, of what is asked of and the class.
fn first_of_both<'n>(ontology: &Ontology, asked: Asked<'n>, class: &'n str) -> &'n str
    requires { All (HasName ontology.now) (subject_name asked ∷ class_name class.now ∷ []) → ⊥ }
    ensures { IsFirstUnknown ontology.now (subject_name asked.entry ∷ class_name class.now ∷ []) result.now }
{
    if is_known(ontology, asked) {
        class
    } else {
        name_of(asked)
    }
}

/// The first of the question's names that the ontology lacks.
fn first_unknown<'n>(ontology: &Ontology, question: Question<'n>) -> &'n str
    requires { All (HasName ontology.now) (names_in question) → ⊥ }
    ensures { IsFirstUnknown ontology.now (names_in question.entry) result.now }
{
    match question {
        Question::Names(_, class) => class,
        Question::Groups(_, class) => class,
        Question::Unsatisfiable => unreachable!(),
        Question::Types(individual) => individual,
        Question::DirectTypes(individual) => individual,
        Question::Why(asked, class, _) => first_of_both(ontology, asked, class),
        Question::Lacks(asked, class) => first_of_both(ontology, asked, class),
    }
}

impl Session {
    /// The answer to the question, by what holds in every finite interpretation in which the axioms hold. Where there is no such
    /// interpretation, all names are related in each way to each class, and none lies directly above or below another; all classes but
    /// `owl:Nothing` are unsatisfiable, and the direct types of each individual are all classes, as one group.
    ///
    /// # Errors
    ///
    /// `Unfinished`, before all others, where facts are pending; `UnknownName` where the ontology lacks a name of the question;
    /// `Memory` where memory was refused.
    pub fn ask<'s, 'n>(&'s self, question: Question<'n>) -> Result<Answer<'s>, AskFault<'n>>
        ensures exact { IfOk result (IsAnswerTo self.now.ontology question.entry) }
        ensures asked { OnOk result (IsQuestioned self.now (names_in question.entry)) }
        ensures refused { IfErr result (IsAskRefusal self.now (names_in question.entry)) }
    {
        let Some(indexed) = self.indexed() else {
            return Err(AskFault::Unfinished);
        };
        match ask(&indexed, question) {
            Ok(Some(answer)) => Ok(answer),
            Ok(None) => {
                let name = first_unknown(&self.ontology, question);
                Err(AskFault::UnknownName(name))
            }
            Err(_) => Err(AskFault::Memory),
        }
    }

    /// The names that are related so to the class, in byte order.
    fn related<'s, 'n>(
        &'s self,
        related: Related,
        class: &'n str,
    ) -> Result<Vec<&'s str>, AskFault<'n>>
        ensures exact { IfOk result (λ v. AreRelated self.now.ontology related class.now (map (λ s. s.now) v.items)) }
        ensures asked { OnOk result (IsQuestioned self.now (class_name class.now ∷ [])) }
        ensures refused { IfErr result (IsAskRefusal self.now (class_name class.now ∷ [])) }
    {
        match self.ask(Question::Names(related, class)) {
            Ok(Answer::Names(names)) => Ok(names),
            Ok(_) => unreachable!(),
            Err(fault) => Err(fault),
        }
    }

    /// The IRIs of the named classes that lie above the class in every finite interpretation in which the axioms hold, in byte
    /// order. Where there is no such interpretation, these are all named classes.
    ///
    /// # Errors
    ///
    /// Those of `ask`.
    pub fn superclasses<'s, 'n>(&'s self, class: &'n str) -> Result<Vec<&'s str>, AskFault<'n>>
        ensures exact { IfOk result (λ v. AreRelated self.now.ontology Superclasses class.now (map (λ s. s.now) v.items)) }
        ensures asked { OnOk result (IsQuestioned self.now (class_name class.now ∷ [])) }
        ensures refused { IfErr result (IsAskRefusal self.now (class_name class.now ∷ [])) }
    {
        self.related(Related::Superclasses, class)
    }

    /// The IRIs of the named classes that lie below the class in every finite interpretation in which the axioms hold, in byte
    /// order. Where there is no such interpretation, these are all named classes.
    ///
    /// # Errors
    ///
    /// Those of `ask`.
    pub fn subclasses<'s, 'n>(&'s self, class: &'n str) -> Result<Vec<&'s str>, AskFault<'n>>
        ensures exact { IfOk result (λ v. AreRelated self.now.ontology Subclasses class.now (map (λ s. s.now) v.items)) }
        ensures asked { OnOk result (IsQuestioned self.now (class_name class.now ∷ [])) }
        ensures refused { IfErr result (IsAskRefusal self.now (class_name class.now ∷ [])) }
    {
        self.related(Related::Subclasses, class)
    }

    /// The IRIs of the individuals that belong to the class in every finite interpretation in which the axioms hold, in byte
    /// order. Where there is no such interpretation, these are all individuals.
    ///
    /// # Errors
    ///
    /// Those of `ask`.
    pub fn instances<'s, 'n>(&'s self, class: &'n str) -> Result<Vec<&'s str>, AskFault<'n>>
        ensures exact { IfOk result (λ v. AreRelated self.now.ontology Instances class.now (map (λ s. s.now) v.items)) }
        ensures asked { OnOk result (IsQuestioned self.now (class_name class.now ∷ [])) }
        ensures refused { IfErr result (IsAskRefusal self.now (class_name class.now ∷ [])) }
    {
        self.related(Related::Instances, class)
    }

    /// The IRIs of the named classes, `owl:Nothing` left out, that have no element in any finite interpretation in which the axioms
    /// hold, in byte order. Where there is no such interpretation, these are all named classes but `owl:Nothing`.
    ///
    /// # Errors
    ///
    /// Those of `ask`, but for `UnknownName`.
    pub fn unsatisfiable<'s>(&'s self) -> Result<Vec<&'s str>, AskFault<'static>>
        ensures exact { IfOk result (λ v. AreUnsatisfiable self.now.ontology (map (λ s. s.now) v.items)) }
        ensures asked { OnOk result (IsQuestioned self.now []) }
        ensures refused { IfErr result (IsAskRefusal self.now []) }
    {
        match self.ask(Question::Unsatisfiable) {
            Ok(Answer::Names(classes)) => Ok(classes),
            Ok(_) => unreachable!(),
            Err(fault) => Err(fault),
        }
    }

    /// The IRIs of the named classes that the individual belongs to in every finite interpretation in which the axioms hold, in byte
    /// order. Where there is no such interpretation, these are all named classes.
    ///
    /// # Errors
    ///
    /// Those of `ask`.
    pub fn types<'s, 'n>(&'s self, individual: &'n str) -> Result<Vec<&'s str>, AskFault<'n>>
        ensures exact { IfOk result (λ v. AreTypes self.now.ontology individual.now (map (λ s. s.now) v.items)) }
        ensures asked { OnOk result (IsQuestioned self.now (individual_name individual.now ∷ [])) }
        ensures refused { IfErr result (IsAskRefusal self.now (individual_name individual.now ∷ [])) }
    {
        match self.ask(Question::Types(individual)) {
            Ok(Answer::Names(classes)) => Ok(classes),
            Ok(_) => unreachable!(),
            Err(fault) => Err(fault),
        }
    }

    /// The direct types of the individual: the named classes that it belongs to in every finite interpretation in which the axioms hold
    /// such that it belongs to none that lies strictly below one of them, by their IRIs, in groups of those that are the same. Where
    /// there is no such interpretation, these are all named classes, as one group.
    ///
    /// # Errors
    ///
    /// Those of `ask`.
    pub fn direct_types<'s, 'n>(
        &'s self,
        individual: &'n str,
    ) -> Result<Vec<Vec<&'s str>>, AskFault<'n>>
        ensures exact { IfOk result (λ v. AreDirectTypes self.now.ontology individual.now (groups_in v.items)) }
        ensures asked { OnOk result (IsQuestioned self.now (individual_name individual.now ∷ [])) }
        ensures refused { IfErr result (IsAskRefusal self.now (individual_name individual.now ∷ [])) }
    {
        match self.ask(Question::DirectTypes(individual)) {
            Ok(Answer::Groups(groups)) => Ok(groups),
            Ok(_) => unreachable!(),
            Err(fault) => Err(fault),
        }
    }

    /// Whether what is asked of is in the class in every finite interpretation in which the axioms hold, and why.
    ///
    /// # Errors
    ///
    /// Those of `ask`.
    pub fn explain<'n>(&self, asked: Asked<'n>, class: &'n str) -> Result<Explanation, AskFault<'n>>
        ensures exact { IfOk result (Explains self.now.ontology asked.entry class.now) }
        ensures asked { OnOk result (IsQuestioned self.now (subject_name asked.entry ∷ class_name class.now ∷ [])) }
        ensures refused { IfErr result (IsAskRefusal self.now (subject_name asked.entry ∷ class_name class.now ∷ [])) }
    {
        match self.ask(Question::Why(asked, class, LINES)) {
            Ok(Answer::Why(explanation)) => Ok(explanation),
            Ok(_) => unreachable!(),
            Err(fault) => Err(fault),
        }
    }
}
