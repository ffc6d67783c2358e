//! Questions by name, and their answers.
ghost use Rattle.answers.specs.Explanations.{IsClassNamed};
ghost use Rattle.answers.specs.Names.{groups_in};
ghost use Rattle.answers.specs.Questions.{AreBeside, AreDirectTypes, AreKnown, AreRelated, AreTypes, IsAnswerTo};
ghost use Rattle.axioms.specs.Expression.{Iri};
ghost use Rattle.engine.specs.Saturations.{IsUnasked};
ghost use Rattle.std.specs.Prelude.{◌↔◌, Contains, IfOk, IfSome, IsSome, map};

use crate::answer::Answer;
use crate::answering::explained;
use crate::lacking::lacked;
use crate::named::{class_named, individual_named};
use crate::neighbours::{directly_above, directly_below, equivalents_of};
use crate::selecting::selected;
use crate::selection::Selection;
use crate::types::{direct_types_of, types_of};
use crate::unsatisfiable::unsatisfiable_classes;
use axioms::{ExprId, Memory};
use engine::Indexed;
use program::{Question, Related, Side};

/// The names that are related so to the class, in byte order.
fn names_related<'a>(
    indexed: &Indexed<'a>,
    related: Related,
    class: ExprId,
) -> Result<Vec<&'a str>, Memory>
    requires { (name : Iri) × IsClassNamed indexed.now.ontology name class.0 }
    ensures { IfOk result (λ v. (name : Iri) → IsClassNamed indexed.now.ontology name class.0 →
        AreRelated indexed.now.ontology related name (map (λ s. s.now) v.items)) }
{
    let ontology = indexed.closed().ontology();
    match related {
        Related::Superclasses => selected(ontology.classes(), indexed, Selection::Above(class)),
        Related::Subclasses => selected(ontology.classes(), indexed, Selection::Below(class)),
        Related::Equivalents => equivalents_of(indexed, class),
        Related::Instances => selected(ontology.individuals(), indexed, Selection::Members(class)),
    }
}

/// The classes directly on that side of the class, in groups of those that are the same.
fn groups_beside<'a>(
    indexed: &Indexed<'a>,
    side: Side,
    class: ExprId,
) -> Result<Vec<Vec<&'a str>>, Memory>
    requires { (name : Iri) × IsClassNamed indexed.now.ontology name class.0 }
    ensures { IfOk result (λ v. (name : Iri) → IsClassNamed indexed.now.ontology name class.0 →
        AreBeside indexed.now.ontology side name (groups_in v.items)) }
{
    match side {
        Side::Above => directly_above(indexed, class),
        Side::Below => directly_below(indexed, class),
    }
}

/// The names that are related so to the class of that name, if the ontology has it.
fn names_asked<'a>(
    indexed: &Indexed<'a>,
    related: Related,
    name: &str,
) -> Result<Option<Vec<&'a str>>, Memory>
    ensures known { IfOk result (λ answer. IsSome answer ↔ Contains indexed.now.ontology.names.classes name.now) }
    ensures exact { IfOk result (λ answer. IfSome answer (λ v. AreRelated indexed.now.ontology related name.now (map (λ s. s.now) v.items))) }
{
    let Some(class) = class_named(indexed, name) else {
        return Ok(None);
    };
    let names = names_related(indexed, related, class)?;
    Ok(Some(names))
}

/// The classes directly on that side of the class of that name, if the ontology has it.
fn groups_asked<'a>(
    indexed: &Indexed<'a>,
    side: Side,
    name: &str,
) -> Result<Option<Vec<Vec<&'a str>>>, Memory>
    ensures known { IfOk result (λ answer. IsSome answer ↔ Contains indexed.now.ontology.names.classes name.now) }
    ensures exact { IfOk result (λ answer. IfSome answer (λ v. AreBeside indexed.now.ontology side name.now (groups_in v.items))) }
{
    let Some(class) = class_named(indexed, name) else {
        return Ok(None);
    };
    let groups = groups_beside(indexed, side, class)?;
    Ok(Some(groups))
}

/// The named classes that the individual of that name belongs to, if the ontology has it.
fn types_asked<'a>(indexed: &Indexed<'a>, name: &str) -> Result<Option<Vec<&'a str>>, Memory>
    ensures known { IfOk result (λ answer. IsSome answer ↔ Contains indexed.now.ontology.names.individuals name.now) }
    ensures exact { IfOk result (λ answer. IfSome answer (λ v. AreTypes indexed.now.ontology name.now (map (λ s. s.now) v.items))) }
{
    let Some(individual) = individual_named(indexed, name) else {
        return Ok(None);
    };
    let names = types_of(indexed, individual)?;
    Ok(Some(names))
}

/// The direct types of the individual of that name, if the ontology has it.
fn direct_types_asked<'a>(
    indexed: &Indexed<'a>,
    name: &str,
) -> Result<Option<Vec<Vec<&'a str>>>, Memory>
    ensures known { IfOk result (λ answer. IsSome answer ↔ Contains indexed.now.ontology.names.individuals name.now) }
    ensures exact { IfOk result (λ answer. IfSome answer (λ v. AreDirectTypes indexed.now.ontology name.now (groups_in v.items))) }
{
    let Some(individual) = individual_named(indexed, name) else {
        return Ok(None);
    };
    let groups = direct_types_of(indexed, individual)?;
    Ok(Some(groups))
}

/// The answer to the question, by what holds in every finite interpretation in which the axioms hold. In an ontology that no such
/// interpretation has, all names are related in each way to each class, and none lies directly above or below another; all classes but
/// `owl:Nothing` are unsatisfiable, and the direct types of each individual are all classes, as one group. `None` where the ontology
/// lacks a name of the question. Nothing is asked about in the saturation.
///
/// # Errors
///
/// `Memory` where memory was refused.
pub fn ask<'a>(indexed: &Indexed<'a>, question: Question<'_>) -> Result<Option<Answer<'a>>, Memory>
    requires unasked { IsUnasked indexed.now.saturation }
    ensures known { IfOk result (λ answer. IsSome answer ↔ AreKnown indexed.now.ontology question.entry) }
    ensures exact { IfOk result (λ answer. IfSome answer (IsAnswerTo indexed.now.ontology question.entry)) }
{
    match question {
        Question::Names(related, class) => match names_asked(indexed, related, class)? {
            Some(names) => Ok(Some(Answer::Names(names))),
            None => Ok(None),
        },
        Question::Groups(side, class) => match groups_asked(indexed, side, class)? {
            Some(groups) => Ok(Some(Answer::Groups(groups))),
            None => Ok(None),
        },
        Question::Why(asked, class, _) => match explained(indexed, asked, class)? {
            Some(explanation) => Ok(Some(Answer::Why(explanation))),
            None => Ok(None),
        },
        Question::Unsatisfiable => {
            let names = unsatisfiable_classes(indexed)?;
            Ok(Some(Answer::Names(names)))
        }
        Question::Types(individual) => match types_asked(indexed, individual)? {
            Some(names) => Ok(Some(Answer::Names(names))),
            None => Ok(None),
        },
        Question::DirectTypes(individual) => match direct_types_asked(indexed, individual)? {
            Some(groups) => Ok(Some(Answer::Groups(groups))),
            None => Ok(None),
        },
        Question::Lacks(asked, class) => match lacked(indexed, asked, class)? {
            Some(lacking) => Ok(Some(Answer::Lacks(lacking))),
            None => Ok(None),
        },
    }
}
