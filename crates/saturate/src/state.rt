//! The state of a saturation.
ghost use Rattle.std.specs.Prelude.{OnErr, ◌≡◌, ◌↔◌, ◌<◌, ◌≤◌, ◌+◌, ◌^◌, Ok, Err, Some, true, false, [], Contains, drop, length, slice_get, take, IfOk, OnOk, IfSome, IfNone};
ghost use Rattle.facts.specs.Births.{reason};
ghost use Rattle.inference.specs.Derivations.{HasMoreFactsThan};
ghost use Rattle.saturate.specs.State.{Extends, GaveFact, ended, nothing_seen};
ghost use Rattle.saturate.specs.Growth.{HasGrown, KeepsServed};
ghost use Rattle.saturate.specs.Run.{HasRun, IsLeft, IsState, IsStep};
ghost use Rattle.inference.specs.PropertyClosures.{IsClosureOf};
ghost use Rattle.inference.specs.Completeness.{IsClosure};
ghost use Rattle.inference.specs.Predicates.{IsBefore, IsLast, end_of};
ghost use Rattle.normal_forms.specs.Apart.{AreContinuedBy};

use crate::extension::carry_on;
use crate::finished::Finished;
use crate::ground::Ground;
use crate::queue::Queue;
use axioms::Memory;
use facts::{Birth, Context, Fact, FactId, StoredFact};
use indexes::Index;
use inference::{
    BirthList, KnownFacts, Predicate, Premise, Rules, Stop, is_filler, is_second_premise,
};
use normal_forms::{ApartLists, FormList};
use property_closure::PropertyClosure;
use std::alloc::Global;
use std::hash::RandomState;
use std::marker::Model;
use work_list::WorkList;

/// The facts so far, some of them served.
pub struct State<W: WorkList> {
    alloc: Global,
    ground: Ground,
    facts: KnownFacts,
    pub(crate) queue: Queue<W>,
    pub(crate) index: Index,
}

// A value is let go by one call, where each way out would else let each field go.
impl<W: WorkList + Drop> Drop for State<W> {
    fn drop(self) {
        let State {
            alloc: _,
            ground: _,
            facts: _,
            queue: _,
            index: _,
        } = self;
    }
}

impl<W: WorkList> Model for State<W> {
    ghost use Rattle.saturate.specs.State.{Seen, IsUnderWay};
    ghost use Rattle.saturate.specs.IndexedFacts.{ListsServed};
    ghost use Rattle.saturate.specs.Turns.{NameTheirContexts};

    ghost Value = { Seen };

    ghost view = { λ s. record { problem = s.ground; facts = s.facts.facts; births = s.facts.births; served = s.queue.served } };

    ghost invariant = { λ s. IsUnderWay s.ground s.facts s.queue × ListsServed s.ground s.facts s.queue s.index × NameTheirContexts s.facts.facts s.queue.waiting };
}

impl<W: WorkList> State<W> {
    /// No forms, no lists, no contexts and so no facts.
    ///
    /// # Errors
    ///
    /// `Memory` where memory was refused.
    pub fn new(alloc: Global, state: RandomState, list: W) -> Result<Self, Memory>
    where
        W: Drop,
        requires { W.pending list ≡ [] }
        ensures nothing { IfOk result (λ s. s ≡ nothing_seen) }
        ensures state { IfOk result IsState }
    {
        let ground = Ground::empty(alloc)?;
        let queue = Queue::new(alloc, list)?;
        Ok(State {
            alloc,
            ground,
            facts: KnownFacts::new(alloc, state),
            queue,
            index: Index::new(alloc),
        })
    }

    /// Adds forms, lists of what is apart and contexts that are there from the start: `all` has the forms so far and then, from number
    /// `from` on, those that are added, and `apart` the lists so far and then those that are added. Where `all` is a list that is shared, it
    /// is not copied. Facts that are served stay so, but for those that an added form or list of disjoint classes asks for to which no
    /// earlier one is equal: these are pending again.
    ///
    /// # Errors
    ///
    /// `Memory` where memory was refused, or there are 2^32 forms, lists or members of lists, or there would be as many facts; then nothing
    /// changes.
    pub fn extend(
        &mut self,
        all: &FormList,
        from: usize,
        apart: &ApartLists,
        roots: &[Context],
    ) -> Result<(), Memory>
        requires forms { take from all.now ≡ self.old.problem.forms }
        requires lists { AreContinuedBy self.old.problem.apart apart.now }
        ensures grown { OnOk result (HasGrown (drop from all.now) apart.now roots.now self.old self.new) }
        ensures served { OnOk result (KeepsServed self.old.problem self.new.problem self.old.facts self.old.served self.new.served) }
        ensures state { IsState self.new }
        ensures err { OnErr result (self.new ≡ self.old) }
    {
        self.well_formed();
        let ground = self.ground.continued(self.alloc, all, apart, roots)?;
        match carry_on(
            self.alloc,
            &self.ground,
            &ground,
            from,
            &mut self.facts,
            &mut self.queue,
            &mut self.index,
        ) {
            Ok(()) => {
                self.ground = ground;
                self.well_formed();
                Ok(())
            }
            Err(error) => {
                drop(ground);
                Err(error)
            }
        }
    }

    /// A state with copies of these facts that has grown as by `extend`: `all` has the forms so far and then, from number `from` on,
    /// those that are added, and `apart` the lists so far and then those that are added. This one, all of whose facts are served, stays as
    /// it is. The list of work is empty.
    ///
    /// # Errors
    ///
    /// `Memory` where memory was refused, or there are 2^32 forms, lists or members of lists, or there would be as many facts.
    pub fn grown(
        &self,
        list: W,
        all: &FormList,
        from: usize,
        apart: &ApartLists,
        roots: &[Context],
    ) -> Result<State<W>, Memory>
    where
        W: Drop,
        requires list { W.pending list ≡ [] }
        requires forms { take from all.now ≡ self.now.problem.forms }
        requires lists { AreContinuedBy self.now.problem.apart apart.now }
        requires finished { length self.now.served ≡ length self.now.facts }
        ensures grown { IfOk result (HasGrown (drop from all.now) apart.now roots.now self.now) }
        ensures served { IfOk result (λ s. KeepsServed self.now.problem s.problem self.now.facts self.now.served s.served) }
        ensures state { IfOk result IsState }
    {
        self.well_formed();
        let mut queue = self.queue.copy(list)?;
        let mut facts = self.facts.copy()?;
        let mut index = self.index.copy()?;
        let ground = self.ground.continued(self.alloc, all, apart, roots)?;
        carry_on(
            self.alloc,
            &self.ground,
            &ground,
            from,
            &mut facts,
            &mut queue,
            &mut index,
        )?;
        let state = State {
            alloc: self.alloc,
            ground,
            facts,
            queue,
            index,
        };
        state.well_formed();
        Ok(state)
    }

    /// The normal forms, in the order in which they were added.
    pub fn normal(&self) -> &FormList
        ensures { result.now ≡ self.now.problem.forms }
    {
        self.ground.problem().forms()
    }

    /// The lists of what is apart, in the order in which they were added.
    pub fn apart(&self) -> &ApartLists
        ensures { result.now ≡ self.now.problem.apart }
    {
        self.ground.problem().apart()
    }

    /// What the facts are drawn from.
    pub fn ground(&self) -> &Ground
        ensures { result.now ≡ self.now.problem }
    {
        &self.ground
    }

    /// The closure of the properties.
    pub fn closure(&self) -> &PropertyClosure
        ensures { IsClosureOf self.now.problem.forms result.now }
    {
        self.ground.closure()
    }

    /// The facts, in order of birth.
    pub fn facts(&self) -> &[StoredFact]
        ensures { result.now ≡ self.now.facts }
    {
        self.facts.as_slice()
    }

    /// What gave the facts, in their order.
    pub fn births(&self) -> &BirthList
        ensures { result.now.reasons ≡ self.now.births }
    {
        self.facts.births()
    }

    /// What gave the fact of that number, if there is one: a condition, older facts and a form.
    pub fn born(&self, fact: FactId) -> Option<&Birth>
        ensures reason { IfSome result (λ b. slice_get self.now.births fact.0 ≡ Some (reason b.now)) }
        ensures gives { IfSome result (λ b. GaveFact (ended self.now) fact.0 (reason b.now)) }
        ensures none { IfNone result (length self.now.facts ≤ fact.0) }
    {
        let FactId(number) = fact;
        if number as usize >= self.facts.len() {
            return None;
        }
        Some(self.facts.birth(number))
    }

    /// The number of the fact, if it is there.
    pub fn find(&self, fact: Fact) -> Option<FactId>
        ensures there { IfSome result (λ n. slice_get self.now.facts n.0 ≡ Some fact) }
        ensures none { IfNone result (Contains self.now.facts fact → ⊥) }
    {
        let number = self.facts.find(fact)?;
        Some(FactId(number))
    }

    /// The number of the last fact of the class, or of the property, if there is one.
    pub fn last_of(&self, predicate: Predicate) -> Option<u32>
        ensures { IsLast predicate self.now.facts (length self.now.facts) (end_of result) }
    {
        self.facts.last_of(predicate)
    }

    /// The number of the last fact of the same class, or of the same property, before the fact of that number, if there is one; none where there is
    /// no fact of that number.
    pub fn before(&self, number: u32) -> Option<u32>
        ensures { IsBefore self.now.facts number result }
    {
        self.facts.before(number)
    }

    /// How many facts are served.
    pub fn served(&self) -> usize
        ensures { result ≡ length self.now.served }
    {
        self.queue.served()
    }

    /// At any time it is a state: each fact is there once, born of older ones, and what served facts give is there or redundant; and
    /// where all are served, they are the closure. 32 bits count them.
    pub fn well_formed(&self)
        ensures state { IsState self.now }
        ensures few { length self.now.facts < 2 ^ 32 }
        ensures closure { length self.now.served ≡ length self.now.facts → IsClosure self.now.problem self.now.facts }
    {
        self.queue.all_served();
        self.facts.len();
    }

    /// What is left where all facts are served: what only a run needs is let go.
    pub fn finish(self) -> Finished
    where
        W: Drop,
        requires { length self.served ≡ length self.facts }
        ensures { result ≡ ended self }
    {
        self.well_formed();
        let State {
            alloc: _,
            ground,
            facts,
            queue,
            index,
        } = self;
        drop(queue);
        drop(index);
        let (facts, births) = facts.into_lists();
        Finished {
            ground,
            facts,
            births,
        }
    }

    /// Serves one fact that is pending, or answers `false` where there is none; that needs no memory.
    ///
    /// # Errors
    ///
    /// Only where a fact is pending. After either the fact in hand is still pending, and conclusions that were drawn stay: after `Limit`
    /// there are as many facts as may be.
    pub fn step(&mut self, max_facts: u32) -> Result<bool, Stop>
        ensures extends { Extends self.old self.new }
        ensures state { IsState self.new }
        ensures step { result ≡ Ok true → IsStep self.old self.new }
        ensures yes { result ≡ Ok true → length self.new.served ≡ length self.old.served + 1 }
        ensures err { OnErr result (IsLeft self.old self.new) }
        ensures was_pending { result ≡ Ok true → length self.old.served < length self.old.facts }
        ensures some { OnErr result (length self.old.served < length self.old.facts) }
        ensures within { length self.old.facts ≤ max_facts → length self.new.facts ≤ max_facts }
        ensures no { result ≡ Ok false → self.new ≡ self.old }
        ensures pending { IfOk result (λ more. (more ≡ false) ↔ (length self.old.served ≡ length self.old.facts)) }
        ensures done { result ≡ Ok false → IsClosure self.new.problem self.new.facts }
        ensures limit { result ≡ Err Stop.Limit → HasMoreFactsThan self.old.problem max_facts }
        ensures full { result ≡ Err Stop.Limit → max_facts ≤ length self.new.facts }
    {
        self.well_formed();
        let Some(hand) = self.queue.turn(self.facts.as_slice())? else {
            return Ok(false);
        };
        let fact = self.facts.get(hand);
        let problem = self.ground.problem();
        let closure = self.ground.closure();
        let joins = self.ground.joins();
        let is_second = is_second_premise(problem, closure, joins, &self.facts, hand);
        let is_filler = is_filler(problem, fact);
        let Ok(()) = self.index.add(hand, fact, is_second, is_filler) else {
            return Err(Stop::Memory);
        };
        let rules = Rules {
            problem,
            closure,
            groups: self.ground.groups(),
            joins,
            max_facts,
        };
        let premise = Premise { number: hand, fact };
        rules.serve(&mut self.facts, &self.index, premise, is_second)?;
        self.queue.finish();
        Ok(true)
    }

    /// Lets copies share what gave the facts.
    fn rest(&mut self)
        ensures { self.new ≡ self.old }
    {
        self.facts.share_births();
    }

    /// Serves all facts that are pending, and those that come of them. Where none is pending, that needs no memory.
    ///
    /// # Errors
    ///
    /// As for `step`; and `Limit` where there are more than `max_facts` facts already. It may be called again.
    pub fn run(&mut self, max_facts: u32) -> Result<(), Stop>
        ensures { HasRun max_facts self.old self.new result }
    {
        self.well_formed();
        if self.facts.len() > max_facts as usize {
            return Err(Stop::Limit);
        }
        'steps: while self.step(max_facts)? {}
        self.rest();
        Ok(())
    }
}
