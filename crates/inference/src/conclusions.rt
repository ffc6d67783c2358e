//! What a form gives from facts.
ghost use Rattle.std.specs.Prelude.{◌≡◌, ◌↔◌, Some};
ghost use Rattle.axioms.specs.declared.ids.IndId.{IndId as IndId2};
ghost use Rattle.facts.specs.Closure.{Problem, Concludes, CarriesBack, FromNone, FromOne, FromTwo, Carries, IsLoop, Links, condition};
ghost use Rattle.facts.specs.declared.contexts.Context.{Context as Context2};
ghost use Rattle.facts.specs.declared.contexts.Fact.{Fact as Fact2};
ghost use Rattle.inference.specs.PropertyClosures.{IsClosureOf};
ghost use Rattle.inference.specs.Sameness.{AreLinked, IsAtSource, IsAtTarget};

use crate::properties::is_below;
use axioms::{ExprId, IndId};
use facts::{Context, Fact};
use normal_forms::{Class2, Form, PropId2};
use property_closure::PropertyClosure;

/// `owl:Thing`.
pub(crate) const THING: Class2 = Class2::Expr(ExprId::THING);

/// `owl:Nothing`.
pub(crate) const NOTHING: Class2 = Class2::Expr(ExprId::NOTHING);

/// The condition that the form stands in.
#[inline(always)]
pub(crate) fn condition_of(form: &Form) -> u8
    ensures { result ≡ condition form.now }
{
    match form {
        Form::N1(..) => 4,
        Form::N2(..) => 5,
        Form::N3(..) => 6,
        Form::N4(..) => 7,
        Form::N5(..) => 0,
        Form::N6(..) => 9,
        Form::N7(..) => 10,
        Form::N8(..) => 2,
        Form::N9(..) => 3,
        Form::N10(..) => 11,
        Form::N12(..) => 13,
    }
}

/// What the form gives from no fact.
fn from_none(form: &Form) -> Option<Fact>
    ensures { (f : Fact2) → (result ≡ Some f) ↔ FromNone form.now f }
{
    match *form {
        Form::N8(individual, a) => Some(Fact::In(a, Context::Individual(individual))),
        Form::N9(source, r, target) => Some(Fact::Edge(
            Context::Individual(source),
            PropId2::Property(r),
            Context::Individual(target),
        )),
        _ => None,
    }
}

/// What the form gives from one fact.
fn from_one(closure: &PropertyClosure, form: &Form, first: Fact) -> Option<Fact>
    ensures { (k : Problem) (f : Fact2) → IsClosureOf k.forms closure.now → (result ≡ Some f) ↔ FromOne k form.now first f }
{
    match (*form, first) {
        (Form::N1(a, b), Fact::In(c, x)) if c == a => Some(Fact::In(b, x)),
        (Form::N3(a, r, b), Fact::In(c, x)) if c == a => {
            Some(Fact::Edge(x, PropId2::Property(r), Context::Expr(b)))
        }
        (Form::N12(a, r, b), Fact::Edge(x, q, y))
            if x == Context::Individual(a)
                && y == Context::Individual(b)
                && is_below(closure, q, PropId2::Property(r)) => { Some(Fact::In(NOTHING, x)) }
        _ => None,
    }
}

/// What the form gives from two facts, in this order.
#[inline(always)]
fn from_two(closure: &PropertyClosure, form: &Form, first: Fact, second: Fact) -> Option<Fact>
    ensures { (k : Problem) (f : Fact2) → IsClosureOf k.forms closure.now → (result ≡ Some f) ↔ FromTwo k form.now first second f }
{
    match (*form, first, second) {
        (Form::N2(a, b, c), Fact::In(d, x), Fact::In(e, y)) if d == a && e == b && x == y => {
            Some(Fact::In(c, x))
        }
        (Form::N4(r, a, b), Fact::Edge(x, q, y), Fact::In(c, z))
            if c == a && y == z && is_below(closure, q, PropId2::Property(r)) => {
            Some(Fact::In(b, x))
        }
        (Form::N6(r, s, t), Fact::Edge(x, p, y), Fact::Edge(z, q, w))
            if y == z && is_below(closure, p, r) && is_below(closure, q, s) => {
            Some(Fact::Edge(x, t, w))
        }
        _ => None,
    }
}

/// `owl:Nothing` at the source of an edge, where it is at its target.
fn carried(first: Fact, second: Fact) -> Option<Fact>
    ensures { (f : Fact2) → (result ≡ Some f) ↔ Carries first second f }
{
    match (first, second) {
        (Fact::Edge(x, _, y), Fact::In(c, z)) if c == NOTHING && y == z => {
            Some(Fact::In(NOTHING, x))
        }
        _ => None,
    }
}

/// The loop at a context, where the form makes a property reflexive.
pub(crate) fn loop_at(context: Context, form: &Form) -> Option<Fact>
    ensures { (f : Fact2) → (result ≡ Some f) ↔ IsLoop context form.now f }
{
    match *form {
        Form::N7(r) => Some(Fact::Edge(context, PropId2::Property(r), context)),
        _ => None,
    }
}

/// The other of the two individuals that the form makes one, where this is one of them.
fn linked_individual(form: &Form, individual: IndId) -> Option<IndId>
    ensures { (other : IndId2) → (result ≡ Some other) ↔ Links form.now individual other }
{
    match *form {
        Form::N10(a, b) if a == individual => Some(b),
        Form::N10(a, b) if b == individual => Some(a),
        _ => None,
    }
}

/// The context of the other of two individuals that the form makes one, where this is the context of one of them.
fn linked(form: &Form, context: Context) -> Option<Context>
    ensures { (other : Context2) → (result ≡ Some other) ↔ AreLinked form.now context other }
{
    let Context::Individual(individual) = context else {
        return None;
    };
    let other = linked_individual(form, individual)?;
    Some(Context::Individual(other))
}

/// The fact at the other of two individuals that the form makes one, where it is a class in one of them, or an edge from one.
pub(crate) fn at_linked_source(form: &Form, fact: Fact) -> Option<Fact>
    ensures { (f : Fact2) → (result ≡ Some f) ↔ IsAtSource form.now fact f }
{
    match fact {
        Fact::In(class, x) => Some(Fact::In(class, linked(form, x)?)),
        Fact::Edge(x, property, y) => Some(Fact::Edge(linked(form, x)?, property, y)),
    }
}

/// The edge to the other of two individuals that the form makes one, where the fact is an edge to one of them.
pub(crate) fn at_linked_target(form: &Form, fact: Fact) -> Option<Fact>
    ensures { (f : Fact2) → (result ≡ Some f) ↔ IsAtTarget form.now fact f }
{
    match fact {
        Fact::In(..) => None,
        Fact::Edge(x, property, y) => Some(Fact::Edge(x, property, linked(form, y)?)),
    }
}

/// What the form gives from the facts, in their order.
#[inline(always)]
pub(crate) fn conclusion(closure: &PropertyClosure, form: &Form, older: &[Fact]) -> Option<Fact>
    ensures { (k : Problem) (f : Fact2) → IsClosureOf k.forms closure.now → (result ≡ Some f) ↔ Concludes k form.now older.now f }
{
    match *older {
        [] => from_none(form),
        [first] => from_one(closure, form, first),
        [first, second] => from_two(closure, form, first, second),
        _ => None,
    }
}

/// `owl:Nothing` at the source of an edge, where the facts are that edge and `owl:Nothing` at its target.
pub(crate) fn carried_back(older: &[Fact]) -> Option<Fact>
    ensures { (f : Fact2) → (result ≡ Some f) ↔ CarriesBack older.now f }
{
    match *older {
        [first, second] => carried(first, second),
        _ => None,
    }
}
