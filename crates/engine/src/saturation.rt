//! All facts that an ontology leads to.
ghost use Rattle.closure.specs.Denotations.{IsProblemOf};
ghost use Rattle.axioms.specs.Ontology.{Ontology as Ontology2};
ghost use Rattle.engine.specs.Saturations.{HasResumed, IsFinished, IsSaturated, IsSound, IsUnasked, Saturates, as_ended};
ghost use Rattle.normalise.specs.Entries.{form_in};
ghost use Rattle.normalise.specs.Growth.{IsNormalFor};
ghost use Rattle.normalise.specs.Problem.{prefixes_of};
ghost use Rattle.std.specs.Prelude.{◌≡◌, ◌↔◌, IfOk, IfSome, IsSome, IsTrue, [], length, map};

use crate::closed::Closed;
use crate::finished::Finished;
use crate::indexed::Indexed;
use axioms::{Memory, Ontology};
use facts::StoredFact;
use normalise::{Normal, normalise, roots};
use saturate::{State, Stop};
use std::alloc::Global;
use std::hash::RandomState;
use std::marker::Model;
use work_list::ByContext;

/// The normal forms of an ontology, and facts that they lead to: after a run to the end all of them.
#[derive(Drop)]
pub struct Saturation {
    pub(crate) alloc: Global,
    pub(crate) normal: Normal,
    pub(crate) state: State<ByContext>,
}

impl Model for Saturation {
    ghost use Rattle.engine.specs.Saturations.{Saturating};

    ghost Value = { Saturating };

    ghost view = { λ s. record { normal = s.normal; state = s.state } };
}

impl Saturation {
    /// The start of a saturation of the ontology, with nothing run and nothing asked about.
    ///
    /// # Errors
    ///
    /// `Memory` where memory was refused, or there are 2^32 - 1 fresh names of a kind.
    pub fn start(
        alloc: Global,
        state: RandomState,
        ontology: &Ontology,
    ) -> Result<Saturation, Memory>
        ensures sound { IfOk result (IsSound ontology.now) }
        ensures unasked { IfOk result (λ s. IsUnasked (as_ended s)) }
        ensures unserved { IfOk result (λ s. s.state.served ≡ []) }
    {
        let normal = normalise(alloc, state, ontology)?.share();
        let state = begun(alloc, state, ontology, &normal)?;
        state.well_formed();
        Ok(Saturation {
            alloc,
            normal,
            state,
        })
    }

    /// Serves all facts that are pending, and those that come of them, as long as there are at most `max_facts`. Where none is
    /// pending, that needs no memory.
    ///
    /// # Errors
    ///
    /// `Limit` where the closure has more facts than `max_facts`, and `Memory` where memory was refused. After either the facts
    /// that are not served are still pending, and it may be called again.
    pub fn resume(&mut self, max_facts: u32) -> Result<(), Stop>
        ensures resumed { HasResumed max_facts self.old self.new result }
        ensures saturates { (o : Ontology2) → IsSound o self.old → Saturates o max_facts self.new result }
    {
        let ended = self.state.run(max_facts);
        self.state.well_formed();
        ended
    }

    /// What is left where all facts are served: the tables that find facts, and whose turn it is, are let go.
    pub fn finish(self) -> Finished
        requires { IsFinished self }
        ensures { result ≡ as_ended self }
    {
        let Saturation {
            alloc,
            normal,
            state,
        } = self;
        let state = state.finish();
        Finished {
            alloc,
            normal,
            state,
        }
    }

    /// All that the ontology leads to, whose saturation it is, with the tables that find facts; none where facts are pending.
    pub fn indexed<'a>(&'a self, ontology: &'a Ontology) -> Option<Indexed<'a>>
        requires { IsSound ontology.now self.now }
        ensures some { IfSome result (λ i. i ≡ record { ontology = ontology.now; saturation = as_ended self.now }) }
        ensures finished { IsSome result ↔ IsFinished self.now }
    {
        if !self.is_finished() {
            return None;
        }
        self.state.well_formed();
        let closed = Closed {
            alloc: self.alloc,
            ontology,
            normal: &self.normal,
            ground: self.state.ground(),
            facts: self.state.facts(),
            births: self.state.births(),
        };
        Some(Indexed {
            closed,
            state: &self.state,
        })
    }

    /// How many of the facts are served.
    pub fn served(&self) -> usize
        ensures { result ≡ length self.now.state.served }
    {
        self.state.served()
    }

    /// Whether all facts are served: then they are the closure.
    pub fn is_finished(&self) -> bool
        ensures finished { IsTrue result ↔ IsFinished self.now }
        ensures saturated { IsTrue result → (o : Ontology2) → IsSound o self.now → IsSaturated o (as_ended self.now) }
    {
        self.state.well_formed();
        self.served() == self.facts().len()
    }

    /// The normal forms. What fresh names in facts stand for is told there.
    pub fn normal(&self) -> &Normal
        ensures { result.now ≡ self.now.normal }
    {
        &self.normal
    }

    /// The facts, in order of birth.
    pub fn facts(&self) -> &[StoredFact]
        ensures { result.now ≡ self.now.state.facts }
    {
        self.state.facts()
    }
}

/// The start of a saturation by the normal forms of the ontology.
fn begun(
    alloc: Global,
    state: RandomState,
    ontology: &Ontology,
    normal: &Normal,
) -> Result<State<ByContext>, Memory>
    requires normal { IsNormalFor ontology.now normal.now }
    requires asked { normal.now.asked ≡ [] }
    ensures problem { IfOk result (λ s. IsProblemOf ontology.now normal.now.asked (prefixes_of normal.now) s.problem) }
    ensures forms { IfOk result (λ s. s.problem.forms ≡ map form_in normal.now.entries) }
    ensures apart { IfOk result (λ s. s.problem.apart ≡ normal.now.apart) }
    ensures served { IfOk result (λ s. s.served ≡ []) }
{
    let roots = roots(alloc, ontology, &[])?;
    let mut begun = State::new(alloc, state, ByContext::new(alloc))?;
    match begun.extend(normal.forms(), 0, normal.apart(), &roots) {
        Ok(()) => Ok(begun),
        Err(error) => {
            drop(begun);
            Err(error)
        }
    }
}
