//! Which properties lie below which.
ghost use Rattle.normal_forms.specs.Properties.{IsAtOrBelow, property_forms};
ghost use Rattle.normal_forms.specs.declared.forms.Form.{Form};
ghost use Rattle.std.specs.Prelude.{◌≡◌, ◌↔◌, Contains, IsTrue, List};

use normal_forms::PropId2;
use property_closure::PropertyClosure;

/// Whether the two are one.
#[inline(always)]
pub(crate) fn is_same(p: PropId2, q: PropId2) -> bool
    ensures { IsTrue result ↔ (p ≡ q) }
{
    p == q
}

/// Whether the list has the property.
pub(crate) fn is_listed(list: &[PropId2], p: PropId2) -> bool
    ensures { IsTrue result ↔ Contains list.now p }
{
    list.contains(&p)
}

/// Whether p is q or lies below it, by the forms that the closure is of.
#[inline(always)]
pub(crate) fn is_below(closure: &PropertyClosure, p: PropId2, q: PropId2) -> bool
    ensures { (forms : List Form) → closure.now.forms ≡ property_forms forms → IsTrue result ↔ IsAtOrBelow forms p q }
{
    closure.well_formed();
    is_same(p, q) || is_listed(closure.supers(p), q)
}
