//! Facts and their turns after forms, lists of what is apart and roots were added.
ghost use Rattle.saturate.specs.IndexedFacts.{ListsFacts, ListsServed};
ghost use Rattle.inference.specs.Derivations.{IsDerived};
ghost use Rattle.normal_forms.specs.Apart.{AreContinuedBy};
ghost use Rattle.saturate.specs.Flags.{AreListedBelow, FlagsServed, ListsServedStill, ListsThoseKept, ListsUnlessFlagged, kept};
ghost use Rattle.saturate.specs.GoingOn.{GoOn, HasEntered, HaveTurns, IsBegun, Stay};
ghost use Rattle.saturate.specs.Growth.{EachFrom, IsGrownFrom, KeepsServed, LeavesEntries};
ghost use Rattle.saturate.specs.NewSeconds.{ListsMoreSeconds};
ghost use Rattle.saturate.specs.Requests.{IsAskedAnew};
ghost use Rattle.saturate.specs.Turns.{option_list};
ghost use Rattle.inference.specs.Completeness.{AreEntered, IsCompleteUpToRedundancy};
ghost use Rattle.inference.specs.Draws.{Draws};
ghost use Rattle.std.specs.Prelude.{◌≡◌, ◌↔◌, ◌<◌, ◌≤◌, ◌++◌, ℕ, None, Contains, List, IfOk, IsTrue, OnErr, OnOk, Some, length, take};

use crate::asked_facts::flags_of_asked;
use crate::flags::Flags;
use crate::ground::Ground;
use crate::named_facts::{ask_by_class, flags_of_named};
use crate::new_forms::new_forms;
use crate::new_lists::new_lists;
use crate::new_seconds::list_seconds;
use crate::queue::Queue;
use axioms::Memory;
use facts::Fact;
use indexes::{Index, IndexedProblem};
use inference::{KnownFacts, Rules, Stop, is_filler, is_second_premise};
use normal_forms::{Form, FormList};
use std::alloc::Global;
use work_list::WorkList;

/// Of the facts that the index lists exactly those are flagged for which a new one of the forms from that number on, or a new list, asks.
/// Others may be flagged, too.
fn flags_of(
    alloc: Global,
    earlier: &Ground,
    ground: &Ground,
    from: usize,
    index: &Index,
    facts: &KnownFacts,
) -> Result<Flags, Memory>
    requires earlier { take from ground.now.forms ≡ earlier.now.forms }
    requires lists { AreContinuedBy earlier.now.apart ground.now.apart }
    requires before { IsDerived earlier.now facts.now }
    requires derived { IsDerived ground.now facts.now }
    requires below { AreListedBelow (length facts.now.facts) index.now }
    ensures few { IfOk result (λ flags. length flags ≤ length facts.now.facts) }
    ensures flags { IfOk result (λ flags. FlagsServed (IsAskedAnew earlier.now ground.now) facts.now.facts index.now flags) }
{
    if facts.len() == 0 {
        return Flags::new(alloc, 0);
    }
    let before = earlier.problem();
    let now = ground.problem();
    let forms = new_forms(alloc, before, now.forms(), from)?;
    let apart = new_lists(alloc, before.apart(), now.apart())?;
    if ask_by_class(earlier.closure(), &forms, &apart) {
        return flags_of_named(alloc, &forms, facts);
    }
    flags_of_asked(alloc, ground, forms, apart, index, facts)
}

/// Lists the fact of that number, unless it is flagged.
fn index_kept(
    index: &mut Index,
    ground: &Ground,
    facts: &KnownFacts,
    number: u32,
    flags: &Flags,
) -> Result<(), Memory>
    requires derived { IsDerived ground.now facts.now }
    requires number { number < length facts.now.facts }
    ensures { OnOk result (ListsUnlessFlagged ground.now facts.now flags.now number index.old index.new) }
{
    if flags.has(number) {
        return Ok(());
    }
    let problem = ground.problem();
    let fact = facts.get(number);
    let is_second = is_second_premise(problem, ground.closure(), ground.joins(), facts, number);
    let is_filler = is_filler(problem, fact);
    index.add(number, fact, is_second, is_filler)?;
    Ok(())
}

/// How many facts a form leads to in most ontologies, and a context alone. Where there is room for so many from the start, less memory
/// is left unused by lists that grew out of it.
const FACTS_OF_FORM: usize = 8;

const FACTS_OF_CONTEXT: usize = 4;

/// How many facts there may well be. It decides nothing.
fn expected_facts(problem: &IndexedProblem) -> usize {
    let of_forms = problem.forms().len().saturating_mul(FACTS_OF_FORM);
    let of_contexts = problem.roots().len().saturating_mul(FACTS_OF_CONTEXT);
    of_forms.saturating_add(of_contexts)
}

/// Up to which number contexts may well come. It decides nothing.
fn expected_contexts(problem: &IndexedProblem) -> usize {
    problem.roots().len().saturating_add(problem.forms().len())
}

/// An index of those of the facts that are not flagged.
fn indexed(
    alloc: Global,
    ground: &Ground,
    facts: &KnownFacts,
    numbers: &[u32],
    flags: &Flags,
) -> Result<Index, Memory>
    requires derived { IsDerived ground.now facts.now }
    requires numbers { (n : ℕ) → Contains numbers.now n → n < length facts.now.facts }
    ensures { IfOk result (λ index. ListsFacts ground.now facts.now (kept flags.now numbers.now) (kept flags.now numbers.now) index) }
{
    let mut index = Index::new(alloc);
    index.expect(ground.problem().roots().len());
    for number in numbers {
        index_kept(&mut index, ground, facts, *number, flags)?;
    }
    Ok(index)
}

/// Adds what is there at once; where what is in each context is in the first so many roots, for those behind them alone.
fn begun(rules: &Rules, facts: &mut KnownFacts, entered: Option<usize>) -> Result<(), Stop>
    requires derived { IsDerived rules.now.problem.now facts.old }
    requires entered { (many : ℕ) → entered ≡ Some many → AreEntered rules.now.problem.now many facts.old }
    ensures { (served : List ℕ) → ((many : ℕ) → entered ≡ Some many → HasEntered rules.now.problem.now many served facts.old) →
        Draws rules.now facts.old facts.new result (IsBegun rules.now.problem.now rules.now.max_facts served facts.old facts.new) }
{
    match entered {
        Some(many) => rules.begin_more(facts, many),
        None => rules.begin_again(facts),
    }
}

/// Adds what is there at once, and makes the facts that are flagged wait again. Changes nothing where memory is refused.
fn begun_again<W: WorkList>(
    alloc: Global,
    ground: &Ground,
    facts: &mut KnownFacts,
    queue: &mut Queue<W>,
    flags: &Flags,
    entered: Option<usize>,
) -> Result<(), Memory>
    requires derived { IsDerived ground.now facts.old }
    requires queued { queue.old.queued ≤ length facts.old.facts }
    requires entered { (many : ℕ) → entered ≡ Some many → HasEntered ground.now many queue.old.served facts.old }
    ensures begun { OnOk result (IsBegun ground.now u32.MAX queue.old.served facts.old facts.new) }
    ensures queued { queue.new.queued ≤ length facts.new.facts }
    ensures waiting { queue.new.waiting ≡ queue.old.waiting }
    ensures served { OnOk result (queue.new.served ≡ kept flags.now queue.old.served) }
    ensures facts { OnErr result (facts.new ≡ facts.old) }
    ensures queue { OnErr result (queue.new ≡ queue.old) }
{
    let before = facts.len();
    let problem = ground.problem();
    let more = expected_facts(problem).saturating_sub(before);
    facts.expect(more, expected_contexts(problem));
    let rules = Rules {
        problem,
        closure: ground.closure(),
        groups: ground.groups(),
        joins: ground.joins(),
        max_facts: u32::MAX,
    };
    let Ok(()) = begun(&rules, facts, entered) else {
        facts.truncate(before);
        return Err(Memory);
    };
    let Ok(()) = queue.unserve(alloc, flags) else {
        facts.truncate(before);
        return Err(Memory);
    };
    queue.expect(more);
    Ok(())
}

/// Lists anew the facts that are served still, adds what is there at once, and makes the facts that are flagged wait again. Changes
/// nothing where memory is refused.
fn listed_anew<W: WorkList>(
    alloc: Global,
    ground: &Ground,
    facts: &mut KnownFacts,
    queue: &mut Queue<W>,
    index: &mut Index,
    flags: &Flags,
    entered: Option<usize>,
) -> Result<(), Memory>
    requires derived { IsDerived ground.now facts.old }
    requires turns { HaveTurns facts.old.facts queue.old }
    requires entered { (many : ℕ) → entered ≡ Some many → HasEntered ground.now many queue.old.served facts.old }
    ensures goes_on { OnOk result (GoOn ground.now u32.MAX facts.old facts.new queue.old queue.new index.new) }
    ensures served { OnOk result (queue.new.served ≡ kept flags.now queue.old.served) }
    ensures err { OnErr result (Stay facts.old facts.new queue.old queue.new) }
    ensures index { OnErr result (index.new ≡ index.old) }
{
    let served = queue.numbers(alloc)?;
    let again = indexed(alloc, ground, facts, &served, flags)?;
    drop(served);
    match begun_again(alloc, ground, facts, queue, flags, entered) {
        Ok(()) => {
            *index = again;
            Ok(())
        }
        Err(error) => {
            drop(again);
            Err(error)
        }
    }
}

/// Whether the form makes no property reflexive.
fn leaves_entries(form: Form) -> bool
    ensures { IsTrue result ↔ LeavesEntries form }
{
    !matches!(form, Form::N7(..))
}

/// Whether none of the forms from that number on makes a property reflexive.
fn leave_entries(forms: &FormList, from: usize) -> bool
    ensures { IsTrue result ↔ EachFrom LeavesEntries from forms.now }
{
    for number in from..forms.len() {
        if !leaves_entries(forms.at(number)) {
            return false;
        }
    }
    true
}

/// How many roots need not enter again: the earlier ones, where none of the forms from that number on makes a property reflexive; else
/// each root enters again.
fn entered_roots(earlier: &IndexedProblem, forms: &FormList, from: usize) -> Option<usize>
    ensures some { (many : ℕ) → result ≡ Some many → (many ≡ length earlier.now.roots) × EachFrom LeavesEntries from forms.now }
    ensures none { result ≡ None → ¬ EachFrom LeavesEntries from forms.now }
{
    if leave_entries(forms, from) {
        Some(earlier.roots().len())
    } else {
        None
    }
}

/// How many numbers stand in the lists of the contexts of a fact. It decides nothing.
fn listed_beside(index: &Index, fact: Fact) -> usize {
    match fact {
        Fact::In(_, x) => index.classes_in(x).len(),
        Fact::Edge(x, _, y) => {
            let from = index.edges_from(x).len();
            from.saturating_add(index.edges_into(y).len())
        }
    }
}

/// How many numbers are looked at where the facts that are flagged are taken out. It decides nothing.
fn looked_at(index: &Index, facts: &KnownFacts, flags: &Flags) -> usize
    requires { length flags.now ≤ length facts.now.facts }
{
    let mut numbers: usize = 0;
    for number in flags.numbers() {
        numbers = numbers.saturating_add(listed_beside(index, facts.get(*number)));
    }
    numbers
}

/// How many numbers may be looked at for each fact that is served: to list it anew takes longer.
const LOOKS_FOR_A_FACT: usize = 4;

/// Takes the facts that are flagged out of the index.
fn remove_flagged(index: &mut Index, facts: &KnownFacts, flags: &Flags)
    requires { length flags.now ≤ length facts.now.facts }
    ensures { ListsThoseKept facts.now flags.now index.old index.new }
{
    for number in flags.numbers() {
        index.remove(*number, facts.get(*number));
    }
}

/// Takes the facts that are flagged and the one in hand out of the index.
fn remove_pending(index: &mut Index, facts: &KnownFacts, flags: &Flags, hand: Option<u32>)
    requires flags { length flags.now ≤ length facts.now.facts }
    requires hand { (n : ℕ) → hand ≡ Some n → n < length facts.now.facts }
    ensures { ListsServedStill facts.now flags.now hand index.old index.new }
{
    remove_flagged(index, facts, flags);
    if let Some(hand) = hand {
        index.remove(hand, facts.get(hand));
    }
}

/// Takes the facts that are not served still out of the index, adds what is there at once, and makes the facts that are flagged wait
/// again. Changes nothing where memory is refused.
fn listed_still<W: WorkList>(
    alloc: Global,
    ground: &Ground,
    facts: &mut KnownFacts,
    queue: &mut Queue<W>,
    index: &mut Index,
    flags: &Flags,
    entered: Option<usize>,
) -> Result<(), Memory>
    requires derived { IsDerived ground.now facts.old }
    requires turns { HaveTurns facts.old.facts queue.old }
    requires flags { length flags.now ≤ length facts.old.facts }
    requires entered { (many : ℕ) → entered ≡ Some many → HasEntered ground.now many queue.old.served facts.old }
    requires listed { ListsFacts ground.now facts.old (kept flags.now queue.old.served) (queue.old.served ++ option_list queue.old.hand) index.old }
    ensures goes_on { OnOk result (GoOn ground.now u32.MAX facts.old facts.new queue.old queue.new index.new) }
    ensures served { OnOk result (queue.new.served ≡ kept flags.now queue.old.served) }
    ensures err { OnErr result (Stay facts.old facts.new queue.old queue.new) }
    ensures index { OnErr result (index.new ≡ index.old) }
{
    let hand = queue.hand();
    begun_again(alloc, ground, facts, queue, flags, entered)?;
    remove_pending(index, facts, flags, hand);
    Ok(())
}

/// Goes on from more roots, more lists of what is apart, and more forms, from that number on. The index lists the served facts; where few
/// numbers stand beside those of facts that are pending again, it is not made anew, and the edges that an added chain needs as second
/// premises are listed as such. Where memory is refused, that is all that may have changed.
pub(crate) fn carry_on<W: WorkList>(
    alloc: Global,
    earlier: &Ground,
    ground: &Ground,
    from: usize,
    facts: &mut KnownFacts,
    queue: &mut Queue<W>,
    index: &mut Index,
) -> Result<(), Memory>
    requires earlier { take from ground.now.forms ≡ earlier.now.forms }
    requires grown { IsGrownFrom from earlier.now ground.now }
    requires before { IsDerived earlier.now facts.old }
    requires derived { IsDerived ground.now facts.old }
    requires complete { IsCompleteUpToRedundancy earlier.now facts.old queue.old.served }
    requires turns { HaveTurns facts.old.facts queue.old }
    requires listed { ListsServed earlier.now facts.old queue.old index.old }
    ensures goes_on { OnOk result (GoOn ground.now u32.MAX facts.old facts.new queue.old queue.new index.new) }
    ensures served { OnOk result (KeepsServed earlier.now ground.now facts.old.facts queue.old.served queue.new.served) }
    ensures err { OnErr result (Stay facts.old facts.new queue.old queue.new) }
    ensures index { OnErr result (ListsMoreSeconds facts.old.facts index.old index.new) }
{
    let flags = flags_of(alloc, earlier, ground, from, index, facts)?;
    let few = queue.served().saturating_mul(LOOKS_FOR_A_FACT);
    let all = ground.problem().forms();
    let entered = entered_roots(earlier.problem(), all, from);
    if looked_at(index, facts, &flags) < few {
        list_seconds(ground, from, facts, index)?;
        return listed_still(alloc, ground, facts, queue, index, &flags, entered);
    }
    listed_anew(alloc, ground, facts, queue, index, &flags, entered)
}
