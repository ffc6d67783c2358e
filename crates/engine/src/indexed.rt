//! All that an ontology leads to, with the tables that find facts.
ghost use Rattle.indexes.specs.FactIndex.{IsFrom, IsIn};
ghost use Rattle.inference.specs.Predicates.{IsBefore, IsLast, end_of};
ghost use Rattle.saturate.specs.ServedFacts.{AreNumbersOf};
ghost use Rattle.std.specs.Prelude.{◌≡◌, Contains, IfNone, IfSome, Some, length, slice_get};

use crate::closed::Closed;
use facts::{Context, Fact, FactId};
use inference::Predicate;
use saturate::State;
use std::marker::Model;
use work_list::ByContext;

/// An ontology and the facts of its closure, which are found by what they are and by their contexts.
#[derive(Drop)]
pub struct Indexed<'a> {
    pub(crate) closed: Closed<'a>,
    pub(crate) state: &'a State<ByContext>,
}

impl<'a> Model for Indexed<'a> {
    ghost use Rattle.engine.specs.Closed as model;
    ghost use Rattle.saturate.specs.State.{ended};
    ghost use Rattle.std.specs.Prelude.{◌≡◌, length};

    ghost Value = { model.Closed };

    ghost view = { λ i. i.closed };

    // The facts are those of the state, all of which are served.
    ghost invariant = { λ i. (i.closed.saturation.state ≡ ended i.state.now) × (length i.state.now.served ≡ length i.state.now.facts) };
}

impl<'a> Indexed<'a> {
    /// What is found in the tables, to be read.
    pub fn closed(&self) -> &Closed<'a>
        ensures { result.now ≡ self.now }
    {
        &self.closed
    }

    /// The number of the fact, if it is there.
    pub fn find(&self, fact: Fact) -> Option<FactId>
        ensures there { IfSome result (λ n. slice_get self.now.saturation.state.facts n.0 ≡ Some fact) }
        ensures none { IfNone result (Contains self.now.saturation.state.facts fact → ⊥) }
    {
        self.state.find(fact)
    }

    /// The number of the last fact of the class, or of the property, if there is one. Needs no memory.
    pub fn last_of(&self, predicate: Predicate) -> Option<u32>
        ensures { IsLast predicate self.now.saturation.state.facts (length self.now.saturation.state.facts) (end_of result) }
    {
        self.state.last_of(predicate)
    }

    /// The number of the last fact of the same class, or of the same property, before the fact of that number, if there is one; none where there is
    /// no fact of that number. Needs no memory.
    pub fn before(&self, number: u32) -> Option<u32>
        ensures { IsBefore self.now.saturation.state.facts number result }
    {
        self.state.before(number)
    }

    /// The numbers of the facts that put a class into the context. Needs no memory.
    pub fn classes_in(&self, context: Context) -> &'a [u32]
        ensures { AreNumbersOf (IsIn context) self.now.saturation.state.facts result.now }
    {
        self.state.all_classes_in(context)
    }

    /// The numbers of the edges from the context. Needs no memory.
    pub fn edges_from(&self, context: Context) -> &'a [u32]
        ensures { AreNumbersOf (IsFrom context) self.now.saturation.state.facts result.now }
    {
        self.state.all_edges_from(context)
    }
}
