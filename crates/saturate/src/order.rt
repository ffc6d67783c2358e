//! Which fact comes next: those of an edge's target before the edge.
ghost use Rattle.saturate.specs.Turns.{NameTheirContexts, StillAdds, context_number, number_of_context, target_number};
ghost use Rattle.std.specs.Prelude.{◌≡◌, ◌<◌, IfNone, IfSome, length};
ghost use Rattle.work_list.specs.Bag.{Pops};

use facts::{Context, Fact, StoredFact};
use work_list::{Item, WorkList};

/// The number of a context. An expression and an individual may have the same one, and their facts come together then.
fn number_of(context: Context) -> u32
    ensures { result ≡ number_of_context context }
{
    match context {
        Context::Expr(id) => id.0,
        Context::Individual(id) => id.0,
    }
}

/// The number of a fact's context.
pub(crate) fn context_of(fact: &StoredFact) -> u32
    ensures { result ≡ context_number fact.now }
{
    match fact.get() {
        Fact::In(_, x) | Fact::Edge(x, _, _) => number_of(x),
    }
}

/// The number of the context that a fact leads to, if it is an edge.
fn target_of(fact: &StoredFact) -> Option<u32>
    ensures { result ≡ target_number fact.now }
{
    match fact.get() {
        Fact::Edge(_, _, y) => Some(number_of(y)),
        Fact::In(..) => None,
    }
}

/// Puts back an item that was popped, and pops another. If there is none, this one does not wait.
fn set_back<W: WorkList>(list: &mut W, item: Item) -> Option<Item>
    ensures some { IfSome result (λ other. StillAdds item (W.pending list.old) other (W.pending list.new)) }
    ensures none { IfNone result (StillAdds item (W.pending list.old) item (W.pending list.new)) }
{
    let Ok(()) = list.push(item) else {
        return None;
    };
    list.pop()
}

/// An item that comes before this one, which was popped and waits again: where this is an edge, and the list is led to its target, the
/// first of the target's. If there is none, this one does not wait.
#[inline(always)]
fn ahead<W: WorkList>(list: &mut W, facts: &[StoredFact], item: Item) -> Option<Item>
    requires { item.fact < length facts.now }
    ensures some { IfSome result (λ other. StillAdds item (W.pending list.old) other (W.pending list.new)) }
    ensures none { IfNone result (StillAdds item (W.pending list.old) item (W.pending list.new)) }
{
    let target = target_of(&facts[item.fact as usize])?;
    if !list.lead_to(target) {
        return None;
    }
    set_back(list, item)
}

/// Pops the item whose turn it is. Where that is an edge to a context that has not had its turn, the items of the target come first, if
/// the list goes by contexts: so what is known of a target is complete, as far as it can be, when the edge meets it.
pub(crate) fn next<W: WorkList>(list: &mut W, facts: &[StoredFact]) -> Option<Item>
    requires { NameTheirContexts facts.now (W.pending list.old) }
    ensures { Pops result (W.pending list.old) (W.pending list.new) }
{
    let mut item = list.pop()?;
    for _ in facts {
        match ahead(list, facts, item) {
            Some(other) => item = other,
            None => return Some(item),
        }
    }
    Some(item)
}
