//! Which older facts the line of a fact rests on.
ghost use Rattle.explain.specs.OlderFacts.{by_axiom, rests_on};
ghost use Rattle.facts.specs.Births.{numbers_of, reason};
ghost use Rattle.std.specs.Prelude.{◌≡◌, take};

use crate::conditions::{BY_EDGE, BY_LOOP, OF_CONTEXT};
use facts::{Birth, Older};
use normal_forms::Origin;
use normalise::Normal;

// Whether an axiom gave the form of that number.
fn is_by_axiom(normal: &Normal, form: Option<u32>) -> bool
    ensures { result ≡ by_axiom normal.now.entries form }
{
    match form {
        Some(form) => matches!(normal.origin(form as usize), Some(Origin::Axiom(_))),
        None => false,
    }
}

fn first_alone(older: Older) -> Older
    ensures { numbers_of result ≡ take 1 (numbers_of older) }
{
    match older {
        Older::None => Older::None,
        Older::One(first) => Older::One(first),
        Older::Two(first, _) => Older::One(first),
    }
}

/// The older facts that the line of a fact with this birth rests on.
#[inline(always)]
pub(crate) fn rests_on(normal: &Normal, birth: &Birth) -> Older
    ensures { numbers_of result ≡ rests_on normal.now.entries (reason birth.now) }
{
    match birth.condition() {
        OF_CONTEXT | BY_LOOP => Older::None,
        BY_EDGE if is_by_axiom(normal, birth.form()) => first_alone(birth.older()),
        _ => birth.older(),
    }
}
