//! Whether a problem has a form.
ghost use Rattle.std.specs.Prelude.{◌≡◌, ◌↔◌, ℕ, Contains, IsTrue, Some, slice_get};

use crate::indexed_problem::IndexedProblem;
use crate::overlap::shorter;
use normal_forms::{Form, PropId2};

/// Whether the two are one.
fn is_same(first: Form, second: Form) -> bool
    ensures { IsTrue result ↔ (first ≡ second) }
{
    match (first, second) {
        (Form::N1(a, b), Form::N1(c, d)) => a == c && b == d,
        (Form::N2(a, b, c), Form::N2(d, e, f)) => a == d && b == e && c == f,
        (Form::N3(a, r, b), Form::N3(c, s, d)) => a == c && r == s && b == d,
        (Form::N4(r, a, b), Form::N4(s, c, d)) => r == s && a == c && b == d,
        (Form::N5(r, s), Form::N5(t, u)) => r == t && s == u,
        (Form::N6(r, s, t), Form::N6(u, v, w)) => r == u && s == v && t == w,
        (Form::N7(r), Form::N7(s)) => r == s,
        (Form::N8(a, b), Form::N8(c, d)) => a == c && b == d,
        (Form::N9(a, r, b), Form::N9(c, s, d)) => a == c && r == s && b == d,
        (Form::N10(a, b), Form::N10(c, d)) => a == c && b == d,
        (Form::N12(a, r, b), Form::N12(c, s, d)) => a == c && r == s && b == d,
        _ => false,
    }
}

/// Whether the form of that number is this one.
fn is_at(problem: &IndexedProblem, number: u32, form: Form) -> bool
    ensures { IsTrue result ↔ (slice_get problem.now.forms number ≡ Some form) }
{
    match problem.form(number) {
        Some(other) => is_same(other, form),
        None => false,
    }
}

/// Forms among which each is that is equal to this one: those with a class, a property or an individual in the same role.
fn like(problem: &IndexedProblem, form: Form) -> &[u32]
    ensures { (n : ℕ) → slice_get problem.now.forms n ≡ Some form → Contains result.now n }
{
    match form {
        Form::N1(a, _) | Form::N3(a, _, _) => problem.alone(a),
        Form::N2(a, b, _) => problem.intersections(a, b),
        Form::N4(r, a, _) => problem.restrictions(PropId2::Property(r), a),
        Form::N5(r, _) => problem.plain_from(PropId2::Property(r)),
        Form::N6(r, s, _) => problem.chains(r, s),
        Form::N7(_) => problem.reflexive(),
        Form::N8(..) | Form::N9(..) => problem.given(),
        Form::N10(a, b) => shorter(problem.linked_first(a), problem.linked_second(b)),
        Form::N12(a, _, b) => problem.denied_between(a, b),
    }
}

impl IndexedProblem {
    /// Whether one of the forms is equal to this one. It looks at those with a class, a property or an individual in the same role, and for
    /// an assertion at all assertions.
    pub fn has(&self, form: Form) -> bool
        ensures { IsTrue result ↔ Contains self.now.forms form }
    {
        for number in like(self, form) {
            if is_at(self, *number, form) {
                return true;
            }
        }
        false
    }
}
