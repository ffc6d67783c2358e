//! Classes and properties by a number, and whether it is that of a fresh name.
ghost use Rattle.normal_forms.specs.StoredForms.{class_from, property_from};
ghost use Rattle.std.specs.Prelude.{◌≡◌};

use crate::forms::{Class2, PropId2};
use axioms::{ExprId, PropId};

impl Class2 {
    /// Whether it is a fresh name, and its number.
    #[inline(always)]
    pub fn parts(self) -> (bool, u32)
        ensures { class_from result.0 result.1 ≡ self }
    {
        match self {
            Class2::Expr(id) => (false, id.0),
            Class2::Partial(number) => (true, number),
        }
    }

    /// The fresh name or the expression of that number.
    #[inline(always)]
    pub fn from_parts(is_partial: bool, number: u32) -> Class2
        ensures { result ≡ class_from is_partial number }
    {
        if is_partial {
            Class2::Partial(number)
        } else {
            Class2::Expr(ExprId(number))
        }
    }
}

impl PropId2 {
    /// Whether it is a fresh name, and its number.
    #[inline(always)]
    pub fn parts(self) -> (bool, u32)
        ensures { property_from result.0 result.1 ≡ self }
    {
        match self {
            PropId2::Property(id) => (false, id.0),
            PropId2::Partial(number) => (true, number),
        }
    }

    /// The fresh name or the property of that number.
    #[inline(always)]
    pub fn from_parts(is_partial: bool, number: u32) -> PropId2
        ensures { result ≡ property_from is_partial number }
    {
        if is_partial {
            PropId2::Partial(number)
        } else {
            PropId2::Property(PropId(number))
        }
    }
}
