//! Class expressions that are asked about.
ghost use Rattle.axioms.specs.Ontology.{expression};
ghost use Rattle.engine.specs.Saturations.{HasMoreFactsThan, IsFinished};
ghost use Rattle.inference.specs.declared.known_facts.Stop.TheVariants as stops;
ghost use Rattle.profile.specs.AddedTexts.{IsReadExpression};
ghost use Rattle.session.specs.Additions.{IsWithin};
ghost use Rattle.entailment.specs.FactCounts.{HasNoMoreFactsThan};
ghost use Rattle.session.specs.Queries.{AreAnswersFor, IsQueryAnswer, IsQueryRefusal, RefusesText, names_in};
ghost use Rattle.session.specs.Sessions.{as_read};
ghost use Rattle.std.specs.Prelude.{◌≡◌, ◌<◌, ◌∷◌, [], ℕ, List, Err, IfErr, IfOk, OnOk, length};

use crate::query_fault::QueryFault;
use crate::session::Session;
use answers::{Selection, selected};
use axioms::{ExprId, Memory, Ontology};
use engine::{Indexed, Stop};
use entailment::saturated_with;
use profile::{DocumentFault, read_expression};

/// What a query of a class expression gives: names, each list in byte order.
#[derive(Debug, Drop)]
pub struct Answers<'s> {
    /// The named classes that lie above the expression.
    pub superclasses: Vec<&'s str>,
    /// The named classes that lie below it.
    pub subclasses: Vec<&'s str>,
    /// The individuals that are members of it.
    pub instances: Vec<&'s str>,
}

/// The names that the expression of the grown ontology has, which are names of the other one, too.
fn answers_for<'o>(
    ontology: &'o Ontology,
    grown: &Indexed<'_>,
    expr: ExprId,
) -> Result<Answers<'o>, Memory>
    requires asked { grown.now.saturation.normal.asked ≡ expr.0 ∷ [] }
    requires there { expr.0 < length grown.now.ontology.nodes }
    requires names { grown.now.ontology.names ≡ ontology.now.names }
    ensures { IfOk result (λ a. AreAnswersFor grown.now.ontology (expression grown.now.ontology expr.0) (names_in a)) }
{
    let (classes, individuals) = (ontology.classes(), ontology.individuals());
    let (above, below) = (Selection::Above(expr), Selection::Below(expr));
    let members = Selection::Members(expr);
    let superclasses = selected(classes, grown, above)?;
    let subclasses = selected(classes, grown, below)?;
    let instances = selected(individuals, grown, members)?;
    Ok(Answers {
        superclasses,
        subclasses,
        instances,
    })
}

impl Session {
    /// A copy of the ontology with the class expression that the text is, and the expression's number there.
    fn read(&self, text: &str) -> Result<(Ontology, ExprId), DocumentFault>
        ensures within { OnOk result (IsWithin self.now text.now) }
        ensures read { IfOk result (λ r. IsReadExpression self.now.version self.now.prefixes text.now self.now.ontology r.0 r.1.0) }
        ensures refused { IfErr result (RefusesText (as_read self.now) self.now.most_bytes text.now) }
    {
        if self.bytes_with(text).is_none() {
            return Err(DocumentFault::TooLarge);
        }
        let (ontology, prefixes) = (&self.ontology, &self.prefixes);
        let (version, state) = (self.version, self.state);
        read_expression(self.alloc, ontology, prefixes, version, text, state)
    }

    /// The names that the expression has, by which the ontology has grown.
    fn answers_with<'s>(
        &'s self,
        grown: &Ontology,
        expr: ExprId,
        max_facts: u32,
    ) -> Result<Answers<'s>, Stop>
        requires finished { IsFinished self.now.saturation }
        requires read { (text : List ℕ) × IsReadExpression self.now.version self.now.prefixes text self.now.ontology grown.now expr.0 }
        ensures exact { IfOk result (λ a. AreAnswersFor grown.now (expression grown.now expr.0) (names_in a)) }
        ensures few { OnOk result (HasNoMoreFactsThan grown.now (expr.0 ∷ []) max_facts) }
        ensures limit { result ≡ Err stops.Limit → HasMoreFactsThan grown.now (expr.0 ∷ []) max_facts }
    {
        let ontology = &self.ontology;
        grown.well_formed();
        let saturation = saturated_with(&self.saturation, ontology, grown, expr, max_facts)?;
        let Some(indexed) = saturation.indexed(grown) else {
            unreachable!();
        };
        Ok(answers_for(ontology, &indexed, expr)?)
    }

    /// The named classes above and below the class expression that the text is, whose names are expanded with the prefixes of the
    /// document, and its individuals, by what holds in every finite interpretation in which the axioms hold. Where there is no such
    /// interpretation, these are all names. The session stays as it is.
    ///
    /// # Errors
    ///
    /// `Unfinished`, before all others, where facts are pending. `Expression`: `TooLarge` where the document, what was added and this
    /// text have more bytes than the limit; `Lex` or `Parse` where it is no one tree of which at most 63 parentheses are open at
    /// once; `Faults`, with every one in the order of the text, where it is no class expression of the profile or has names that the
    /// ontology lacks; `Memory`. `Limit` where the closure with the expression has more facts than `max_facts`. `Memory` where memory
    /// was refused, or there would be 2^32 forms or facts or 2^32 - 1 fresh names of a kind.
    pub fn query<'s>(&'s self, text: &str, max_facts: u32) -> Result<Answers<'s>, QueryFault>
        ensures exact { IfOk result (λ a. IsQueryAnswer self.now text.now max_facts (names_in a)) }
        ensures refused { IfErr result (IsQueryRefusal self.now text.now max_facts) }
    {
        if !self.saturation.is_finished() {
            return Err(QueryFault::Unfinished);
        }
        let (grown, expr) = match self.read(text) {
            Ok(read) => read,
            Err(fault) => return Err(QueryFault::Expression(fault)),
        };
        let answered = self.answers_with(&grown, expr, max_facts);
        drop(grown);
        match answered {
            Ok(answers) => Ok(answers),
            Err(Stop::Limit) => Err(QueryFault::Limit),
            Err(Stop::Memory) => Err(QueryFault::Memory),
        }
    }
}
